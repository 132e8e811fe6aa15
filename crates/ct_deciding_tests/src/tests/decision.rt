// A question with each answer, and chains of many terms.

ghost use Rattle.std.specs.Prelude.{◌≤◌, IfOk};
ghost use Rattle.ct_word.specs.WellFormed.{IsWellFormed};

use ct_checker::{Marks, check, widest};
use ct_decide::{DecideError, Decision, decide};
use ct_derivation::Derivation;
use ct_samples::{add, is_place, log, no_columns};
use ct_word::{Class, Kind, Memory};
use std::alloc::{AllocError, Global};
use std::test::Fail;

/// `?1#1 = ?1#2 and ?1#2 = ?1#3` at place 8, and at place 9 that and `not ?1#1 = ?1#3`.
const TRIANGLE: [(Kind, u32, u32); 10] = [
    (Kind::True, 0, 0),
    (Kind::FreshNull, 1, 1),
    (Kind::FreshNull, 1, 2),
    (Kind::FreshNull, 1, 3),
    (Kind::Equal, 1, 2),
    (Kind::Equal, 2, 3),
    (Kind::Equal, 1, 3),
    (Kind::Not, 6, 0),
    (Kind::And, 4, 5),
    (Kind::And, 7, 8),
];

/// The decision, where the root is a condition of a log without columns. A call of its own, for the measurements.
#[inline(never)]
pub fn decided(alloc: Global, words: &[u64], root: u32) -> Result<Option<Decision>, DecideError>
    requires { IsWellFormed words.now }
{
    if words.len() > 100_000 || !is_place(words, Class::Cond, root) || !no_columns(words) {
        return Ok(None);
    }
    Ok(Some(decide(alloc, words, root)?))
}

/// Whether `check` accepts a derivation.
pub fn passes(
    alloc: Global,
    words: &[u64],
    root: u32,
    derivation: &Derivation,
) -> Result<bool, Memory> {
    let Ok(room) = u32::try_from(widest(derivation)) else {
        return Ok(false);
    };
    if room > 1_000_000 {
        return Ok(false);
    }
    let mut marks = Marks::make(alloc, room)?;
    Ok(check(words, root, derivation, &mut marks))
}

/// How many nulls a world has that makes the root true; none where the root is refuted, and `check` accepts that.
fn nulls(alloc: Global, words: &[u64], root: u32) -> Result<Option<usize>, Fail>
    requires { IsWellFormed words.now }
{
    match decided(alloc, words, root)? {
        Some(Decision::World(world)) => Ok(Some(world.len())),
        Some(Decision::Refuted(derivation)) if passes(alloc, words, root, &derivation)? => Ok(None),
        _ => Err(Fail::new("no answer")),
    }
}

#[test]
fn a_triangle_is_decided(rt: HostRuntime) -> Result<(), Fail> {
    let words = log(rt.alloc(), &TRIANGLE)?;
    assert_eq!(rt; nulls(rt.alloc(), words.as_slice(), 8)?, Some(3));
    assert_eq!(rt; nulls(rt.alloc(), words.as_slice(), 9)?, None);
    Ok(())
}

/// So many nulls, each equal to the next one, and the place of the condition that says so.
fn chain(alloc: Global, nulls: u32) -> Result<(Vec<u64>, u32), AllocError>
    requires { nulls ≤ 1000 }
    ensures { IfOk result (λ r. IsWellFormed r.0.items) }
{
    let mut words = Vec::new(alloc);
    let mut root = add(&mut words, Kind::True, 0, 0)?;
    let mut before = add(&mut words, Kind::FreshNull, 1, 1)?;
    for number in 2..nulls + 1 {
        let null = add(&mut words, Kind::FreshNull, 1, number)?;
        let link = add(&mut words, Kind::Equal, before, null)?;
        root = add(&mut words, Kind::And, root, link)?;
        before = null;
    }
    Ok((words, root))
}

/// The same, and that the first and the last null differ.
fn chain_apart(alloc: Global, nulls: u32) -> Result<(Vec<u64>, u32), AllocError>
    requires { nulls ≤ 1000 }
    ensures { IfOk result (λ r. IsWellFormed r.0.items) }
{
    let (mut words, links) = chain(alloc, nulls)?;
    let last = add(&mut words, Kind::FreshNull, 1, nulls)?;
    let equal = add(&mut words, Kind::Equal, 1, last)?;
    let apart = add(&mut words, Kind::Not, equal, 0)?;
    let root = add(&mut words, Kind::And, links, apart)?;
    Ok((words, root))
}

#[test]
fn decides_chains(rt: HostRuntime) -> Result<(), Fail> {
    let alloc = rt.alloc();
    for count in [64, 65, 200, 500, 1000] {
        let (words, root) = chain(alloc, count)?;
        assert_eq!(rt; nulls(alloc, words.as_slice(), root)?, Some(count as usize));
    }
    Ok(())
}

#[test]
fn refutes_chains(rt: HostRuntime) -> Result<(), Fail> {
    let alloc = rt.alloc();
    for count in [64, 500, 1000] {
        let (words, root) = chain_apart(alloc, count)?;
        assert_eq!(rt; nulls(alloc, words.as_slice(), root)?, None);
    }
    Ok(())
}
