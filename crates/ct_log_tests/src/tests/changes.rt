// The change lists of a creation and of an insertion, and the words of each.

ghost use Rattle.std.specs.Prelude.{◌≡◌, IfOk, IsTrue};
ghost use mathlib.Core.List.{IsPrefix};
ghost use Rattle.ct_word.specs.declared.kinds.Class.TheVariants as class;
ghost use Rattle.ct_word.specs.WellFormed.{is_place_of};
ghost use Rattle.ct_query.specs.Fields.{FitsFields};
ghost use Rattle.ct_condition.specs.Writes.{kept_of};
ghost use Rattle.ct_history.specs.Rows.{IsRowOf};

use ct_arena::{Arena, Pass, Site};
use ct_condition::{eq, term};
use ct_history::{create, insert, no_changes};
use ct_word::{CRow, List, Null, Term, Text, Value};
use std::alloc::Global;
use std::test::Fail;

/// The log after the change list of `create table t (a);`.
pub const CREATED: [u64; 10] = [
    0x0a_0000000_0000000,
    0x0b_0000000_0000000,
    0x1b_0000000_0000000,
    0x01_0000000_0000000,
    0x02_0000003_0000074,
    0x15_0000000_0000000,
    0x02_0000003_0000061,
    0x16_0000005_0000006,
    0x17_0000004_0000007,
    0x1c_0000002_0000008,
];

/// The places of a list without changes, and of that list with a creation. Nothing is said of them, which keeps what calls
/// it short to prove.
pub fn created<N: Site>(
    alloc: Global,
    arena: &Arena<N>,
    pass: &mut Pass<N>,
) -> Result<[u32; 2], Fail> {
    let list = no_changes(arena, pass)?;
    let columns = [Text::from_str(alloc, "a")?];
    let extended = create(arena, pass, list, "t", &columns);
    drop(columns);
    Ok([list, extended?])
}

/// The log after the change list of `insert into t values (1, ?x);`.
pub const INSERTED: [u64; 17] = [
    0x0a_0000000_0000000,
    0x0b_0000000_0000000,
    0x1b_0000000_0000000,
    0x03_0000000_0000000,
    0x04_0000003_0000001,
    0x01_0000000_0000000,
    0x02_0000005_0000078,
    0x06_0000006_0000000,
    0x13_0000000_0000000,
    0x10_0000000_0000000,
    0x11_0000009_0000004,
    0x11_000000a_0000007,
    0x12_000000b_0000000,
    0x14_0000008_000000c,
    0x02_0000005_0000074,
    0x18_000000e_000000d,
    0x1c_0000002_000000f,
];

/// The place of a term.
pub fn placed<N: Site>(arena: &Arena<N>, pass: &mut Pass<N>, value: Term) -> Result<u32, Fail>
    requires { FitsFields value }
    ensures place { IfOk result (λ place. IsTrue (is_place_of pass.new.words class.Term place)) }
    ensures longer { IsPrefix pass.old.words pass.new.words }
    ensures kept { kept_of pass.new ≡ kept_of pass.old }
{
    let place = term(arena, pass, &value);
    // What a term is dropped by is read off its every variant, unless a call takes it.
    drop(value);
    Ok(place?)
}

/// The row (1, ?x) under an equality that folds to true.
fn row<N: Site>(alloc: Global, arena: &Arena<N>, pass: &mut Pass<N>) -> Result<CRow, Fail>
    ensures row { IfOk result (λ r. IsRowOf pass.new.words r) }
    ensures longer { IsPrefix pass.old.words pass.new.words }
{
    let name = Text::from_str(alloc, "x")?;
    let one = placed(arena, pass, Term::Value(Value::Int(1)))?;
    let x = placed(arena, pass, Term::Null(Null::Named(name)))?;
    let cond = eq(arena, pass, x, x)?;
    let cells = List::from_vec(Vec::from_array(alloc, [one, x])?);
    Ok(CRow { cells, cond })
}

/// The place of a list with the insertion of that row alone.
#[tactic(auto, using(ct_word::proofs::Prefixes::place_in_prefix))]
pub fn inserted<N: Site>(alloc: Global, arena: &Arena<N>, pass: &mut Pass<N>) -> Result<u32, Fail> {
    let list = no_changes(arena, pass)?;
    let rows = [row(alloc, arena, pass)?];
    Ok(insert(arena, pass, list, "t", &rows)?)
}
