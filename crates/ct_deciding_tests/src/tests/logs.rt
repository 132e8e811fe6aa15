// What is shown of tables, and of long logs, each in a log of its own.

ghost use Rattle.std.specs.Prelude.{◌≡◌, ◌≤◌};

use crate::tests::deletion::shows_deletion;
use crate::tests::listing::{shows_rows, shows_short_worlds, shows_tuples};
use crate::tests::long_logs::counts_clauses;
use crate::tests::updating::{shows_itself, shows_merging, shows_swap, shows_update};
use ct_arena::{Arena, Blank, Pass, Site};
use std::alloc::Global;
use std::marker::Brand;
use std::process::Abort;
use std::test::Fail;

/// What is shown in a log.
#[derive(Drop)]
enum Shown {
    Deletion,
    Update,
    Swap,
    Merging,
    Itself,
    Rows,
    Tuples,
    ShortWorlds,
    Clauses { length: u32 },
}

/// Whether it is shown by this session.
fn shows_by<N: Site>(
    alloc: Global,
    arena: &Arena<N>,
    pass: &mut Pass<N>,
    shown: Shown,
) -> Result<bool, Fail> {
    match shown {
        Shown::Deletion => shows_deletion(alloc, arena, pass),
        Shown::Update => shows_update(alloc, arena, pass),
        Shown::Swap => shows_swap(alloc, arena, pass),
        Shown::Merging => shows_merging(alloc, arena, pass),
        Shown::Itself => shows_itself(alloc, arena, pass),
        Shown::Rows => shows_rows(alloc, arena, pass),
        Shown::Tuples => shows_tuples(alloc, arena, pass),
        Shown::ShortWorlds => shows_short_worlds(alloc, arena, pass),
        Shown::Clauses { length } => counts_clauses(alloc, arena, pass, length),
    }
}

/// Whether it is shown in a log that has this name.
fn shows<N: Site>(alloc: Global, blank: Blank, shown: Shown) -> Result<bool, Fail>
    requires { blank ≡ N.log }
{
    let (arena, mut keeper) = Arena::<N>::make(blank);
    let mut pass = keeper.enrol(alloc, &arena)?;
    shows_by(alloc, &arena, &mut pass, shown)
}

/// It is shown in a log of its own, of this capacity.
fn in_a_log(rt: &impl Abort, alloc: Global, cap: u32, shown: Shown) -> Result<(), Fail>
    requires least { 64 ≤ cap }
    requires most { cap ≤ 4194304 }
{
    let blank = Blank::make(alloc, cap)?;
    let is_shown = shows::<Brand>(alloc, blank, shown)?;
    assert!(rt; is_shown);
    Ok(())
}

/// Rows are deleted where a condition holds, and changed where one does; a row is listed where some world shows it, in a world that has the nulls of
/// the row, and a tuple where each world has it.
#[test]
fn tables_are_asked(rt: HostRuntime) -> Result<(), Fail> {
    in_a_log(&rt, rt.alloc(), 64, Shown::Deletion)?;
    in_a_log(&rt, rt.alloc(), 64, Shown::Update)?;
    in_a_log(&rt, rt.alloc(), 64, Shown::Swap)?;
    in_a_log(&rt, rt.alloc(), 64, Shown::Merging)?;
    in_a_log(&rt, rt.alloc(), 64, Shown::Itself)?;
    in_a_log(&rt, rt.alloc(), 64, Shown::Rows)?;
    in_a_log(&rt, rt.alloc(), 64, Shown::ShortWorlds)?;
    in_a_log(&rt, rt.alloc(), 256, Shown::Tuples)
}

/// A question has as many clauses in a log of 100,000 words as in one of 10,000.
#[test]
fn long_logs_are_asked(rt: HostRuntime) -> Result<(), Fail> {
    in_a_log(&rt, rt.alloc(), 131_072, Shown::Clauses { length: 10_000 })?;
    in_a_log(&rt, rt.alloc(), 131_072, Shown::Clauses { length: 100_000 })
}
