// What conditions that are made by chance are worth in worlds that are made by chance.

ghost use Rattle.ct_word.specs.WellFormed.{IsWellFormed};

use crate::tests::questions::small;
use ct_condition::value_at;
use ct_samples::{is_head, is_place, log, pick};
use ct_word::{Class, List, Null, Value, World};
use ct_worlds::holds_below;
use std::alloc::{AllocError, Global};
use std::test::Fail;

/// A number, or another value than any constant.
fn value(state: &mut u64) -> Value {
    let number = pick(state, 4);
    if is_head(state) {
        Value::Int(i64::from(number))
    } else {
        Value::Other(number)
    }
}

/// A world of some of the first nulls, whose values are from a few.
fn world(alloc: Global, state: &mut u64) -> Result<World, AllocError> {
    let mut pairs = Vec::new(alloc);
    for number in 1..10 {
        if is_head(state) {
            pairs.push((Null::Fresh { session: 1, number }, value(state)))?;
        }
    }
    Ok(List::from_vec(pairs))
}

/// Whether the root holds in a world, where both calls say the same.
fn truth(alloc: Global, words: &[u64], root: u32, world: &World) -> Result<bool, Fail>
    requires { IsWellFormed words.now }
{
    if !is_place(words, Class::Cond, root) {
        return Err(Fail::new("no condition"));
    }
    let below = holds_below(alloc, words, root, world)?;
    if below != value_at(alloc, words, root, world)? {
        return Err(Fail::new("two truths"));
    }
    Ok(below)
}

/// How many of so many conditions hold, each in a world of its own.
fn count_true(alloc: Global, count: u32) -> Result<u32, Fail> {
    let mut state = 5;
    let mut found: u32 = 0;
    for _ in 0..count {
        let (draft, root) = small(alloc, &mut state)?;
        let words = log(alloc, draft.parts.as_slice())?;
        let world = world(alloc, &mut state)?;
        if truth(alloc, words.as_slice(), root, &world)? {
            found = found.wrapping_add(1);
        }
    }
    Ok(found)
}

#[test]
fn holds_as_at_all_places(rt: HostRuntime) -> Result<(), Fail> {
    let found = count_true(rt.alloc(), 2000)?;
    // Of both kinds there are many.
    assert!(rt; 200 < found && found < 1800);
    Ok(())
}
