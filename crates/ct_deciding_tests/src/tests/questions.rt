// Conditions that are made by chance, and what is decided of them.

ghost use Rattle.std.specs.Prelude.{◌≤◌};
ghost use Rattle.ct_word.specs.WellFormed.{IsWellFormed};

use crate::tests::decision::{decided, passes};
use crate::tests::drafts::Draft;
use ct_condition::value_at;
use ct_decide::Decision;
use ct_samples::{between, is_head, is_place, log};
use ct_word::{Class, World};
use std::alloc::{AllocError, Global};
use std::test::Fail;

/// Whether a world makes the root true.
pub fn shows(alloc: Global, words: &[u64], root: u32, world: &World) -> Result<bool, Fail>
    requires { IsWellFormed words.now }
{
    if !is_place(words, Class::Cond, root) {
        return Err(Fail::new("no condition"));
    }
    Ok(value_at(alloc, words, root, world)?)
}

/// Whether the root can hold, where the decision says so with a world that makes it true, or else with a derivation that
/// `check` accepts.
pub fn can_hold(alloc: Global, words: &[u64], root: u32) -> Result<bool, Fail>
    requires { IsWellFormed words.now }
{
    match decided(alloc, words, root)? {
        Some(Decision::World(world)) if shows(alloc, words, root, &world)? => Ok(true),
        Some(Decision::Refuted(derivation)) if passes(alloc, words, root, &derivation)? => {
            Ok(false)
        }
        Some(_) => Err(Fail::new("a wrong decision")),
        None => Err(Fail::new("no question")),
    }
}

/// The same for words that are not in a log yet.
fn answer(alloc: Global, draft: &Draft, root: u32) -> Result<bool, Fail> {
    let words = log(alloc, draft.parts.as_slice())?;
    if words.len() != draft.parts.len() {
        return Err(Fail::new("words that are not formed"));
    }
    can_hold(alloc, words.as_slice(), root)
}

/// A condition over up to twelve terms.
pub fn small(alloc: Global, state: &mut u64) -> Result<(Draft, u32), AllocError> {
    let nulls = between(state, 1, 8);
    let numbers = between(state, 0, 3);
    let mut draft = Draft::make(alloc, nulls, numbers)?;
    let root = if is_head(state) {
        let count = between(state, 1, 40);
        draft.clauses(state, count)?
    } else {
        let leaves = between(state, 2, 10);
        let joints = between(state, 1, 20);
        draft.tree(state, leaves, joints)?
    };
    Ok((draft, root))
}

/// A condition over more than 64 terms: each third number has a chain whose ends differ, which can't hold.
fn large(alloc: Global, state: &mut u64, number: u32) -> Result<(Draft, u32), AllocError> {
    let nulls = between(state, 66, 60);
    let mut draft = Draft::make(alloc, nulls, 0)?;
    let root = match number % 3 {
        0 => {
            let links = draft.links()?;
            draft.with_ends_apart(links)?
        }
        1 => draft.diamonds()?,
        _ => draft.clauses(state, nulls)?,
    };
    Ok((draft, root))
}

/// How many of so many conditions can hold.
fn count_small(alloc: Global, count: u32) -> Result<u32, Fail> {
    let mut state = 3;
    let mut found: u32 = 0;
    for _ in 0..count {
        let (draft, root) = small(alloc, &mut state)?;
        if answer(alloc, &draft, root)? {
            found = found.wrapping_add(1);
        }
    }
    Ok(found)
}

#[test]
fn decides_random_conditions(rt: HostRuntime) -> Result<(), Fail> {
    let found = count_small(rt.alloc(), 5000)?;
    // Of both kinds there are many.
    assert!(rt; 1000 < found && found < 4900);
    Ok(())
}

/// How many of so many conditions over more than 64 terms can hold.
fn count_large(alloc: Global, count: u32) -> Result<u32, Fail> {
    let mut state = 4;
    let mut found: u32 = 0;
    for number in 0..count {
        let (draft, root) = large(alloc, &mut state, number)?;
        if answer(alloc, &draft, root)? {
            found = found.wrapping_add(1);
        }
    }
    Ok(found)
}

#[test]
fn decides_past_64_terms(rt: HostRuntime) -> Result<(), Fail> {
    let found = count_large(rt.alloc(), 50)?;
    assert_eq!(rt; found, 33);
    Ok(())
}

/// Whether so many diamonds can hold whose ends differ. Each of them has two ways, and there is no end to it for a decision
/// that goes along each way through all of them.
fn can_diamonds_hold(alloc: Global, nulls: u32) -> Result<bool, Fail> {
    let mut draft = Draft::make(alloc, nulls, 0)?;
    let diamonds = draft.diamonds()?;
    let root = draft.with_ends_apart(diamonds)?;
    answer(alloc, &draft, root)
}

#[test]
fn refutes_diamonds(rt: HostRuntime) -> Result<(), Fail> {
    for nulls in [8, 75, 150] {
        assert!(rt; !can_diamonds_hold(rt.alloc(), nulls)?);
    }
    Ok(())
}
