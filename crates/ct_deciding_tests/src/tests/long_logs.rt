// How many clauses a question has in logs of many words.

ghost use Rattle.ct_word.specs.WellFormed.{IsWellFormed};

use crate::tests::listing::both;
use crate::tests::tables::{equal, named, number};
use ct_arena::{Arena, Pass, Site};
use ct_cnf::{CnfError, Encoded, encode};
use ct_samples::is_place;
use ct_word::Class;
use std::alloc::Global;
use std::test::Fail;

/// How many nulls a chain has.
const NULLS: u32 = 1_000;

/// Puts numbers into the log, until it has so many words.
fn lengthen<N: Site>(arena: &Arena<N>, pass: &mut Pass<N>, length: u32) -> Result<(), Fail> {
    for n in 0..length {
        if pass.words().len() >= length as usize {
            return Ok(());
        }
        number(arena, pass, i64::from(n))?;
    }
    Ok(())
}

/// The place of the null with a number.
fn null<N: Site>(
    alloc: Global,
    arena: &Arena<N>,
    pass: &mut Pass<N>,
    number: u32,
) -> Result<u32, Fail> {
    let name = format!(in alloc; "x{number}")?;
    named(alloc, arena, pass, name.as_str())
}

/// The place of the condition that each null of a chain is the next one.
fn chain<N: Site>(alloc: Global, arena: &Arena<N>, pass: &mut Pass<N>) -> Result<u32, Fail> {
    let mut root = 0;
    let mut before = null(alloc, arena, pass, 0)?;
    for number in 1..NULLS {
        let next = null(alloc, arena, pass, number)?;
        let link = equal(arena, pass, before, next)?;
        root = both(arena, pass, root, link)?;
        before = next;
    }
    Ok(root)
}

/// The encoding, where the root is a condition of a log that is not too long. A call of its own, for the measurements.
#[inline(never)]
fn encoded(alloc: Global, words: &[u64], root: u32) -> Result<Option<Encoded>, CnfError>
    requires { IsWellFormed words.now }
{
    if words.len() > 200_000 || !is_place(words, Class::Cond, root) {
        return Ok(None);
    }
    Ok(Some(encode(alloc, words, root)?))
}

/// Whether a chain has as many clauses in a log of so many words as in any other: the root, two for each equality, and three
/// for each of the conjunctions.
pub fn counts_clauses<N: Site>(
    alloc: Global,
    arena: &Arena<N>,
    pass: &mut Pass<N>,
    length: u32,
) -> Result<bool, Fail> {
    lengthen(arena, pass, length)?;
    let root = chain(alloc, arena, pass)?;
    let Some(e) = encoded(alloc, pass.words(), root)? else {
        return Err("no encoding".into());
    };
    let (equals, conjunctions) = (NULLS - 1, NULLS - 2);
    Ok(e.cnf.clauses.len() == (1 + 2 * equals + 3 * conjunctions) as usize)
}
