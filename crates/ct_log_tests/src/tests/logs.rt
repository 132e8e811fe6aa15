// What is put into a log, each into one of its own.

ghost use Rattle.std.specs.Prelude.{◌≡◌};

use crate::tests::changes::{CREATED, INSERTED, created, inserted};
use crate::tests::checks::{has_words, is};
use crate::tests::conditions::put_folded;
use ct_arena::{Arena, Blank, Pass, Site};
use std::alloc::Global;
use std::marker::Brand;
use std::process::Abort;
use std::test::Fail;

/// What is put into a log.
#[derive(Drop)]
enum Put {
    Creation,
    Insertion,
    Folded,
}

/// Puts it by this session, which has the words of a change list then.
fn put_by<N: Site>(
    rt: &impl Abort,
    alloc: Global,
    arena: &Arena<N>,
    pass: &mut Pass<N>,
    put: Put,
) -> Result<(), Fail> {
    match put {
        Put::Creation => {
            let [list, extended] = created(alloc, arena, pass)?;
            is(rt, list, 2);
            is(rt, extended, 9);
            has_words(rt, pass.words(), &CREATED);
        }
        Put::Insertion => {
            is(rt, inserted(alloc, arena, pass)?, 16);
            has_words(rt, pass.words(), &INSERTED);
        }
        Put::Folded => put_folded(rt, arena, pass)?,
    }
    Ok(())
}

/// Puts it into the log that has this name.
fn put_into<N: Site>(rt: &impl Abort, alloc: Global, blank: Blank, put: Put) -> Result<(), Fail>
    requires { blank ≡ N.log }
{
    let (arena, mut keeper) = Arena::<N>::make(blank);
    let mut pass = keeper.enrol(alloc, &arena)?;
    put_by(rt, alloc, &arena, &mut pass, put)
}

/// A creation and an insertion are put as words, and conditions are folded.
#[test]
fn words_are_put(rt: HostRuntime) -> Result<(), Fail> {
    for put in [Put::Creation, Put::Insertion, Put::Folded] {
        let blank = Blank::make(rt.alloc(), 64)?;
        put_into::<Brand>(&rt, rt.alloc(), blank, put)?;
    }
    Ok(())
}
