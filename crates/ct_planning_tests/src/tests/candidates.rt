// The pairs of places whose keys may be of one value, beside two plain loops.

use ct_join::{Key, pairs};
use ct_samples::pick;
use std::alloc::{AllocError, Global};
use std::test::Fail;

/// A key that is made by chance: a null, or one of three constants.
fn key(state: &mut u64) -> Key {
    match pick(state, 4) {
        0 => Key::Null,
        number => Key::Constant(number - 1),
    }
}

/// Up to 11 keys.
fn keys(alloc: Global, state: &mut u64) -> Result<Vec<Key>, AllocError> {
    let mut keys = Vec::new(alloc);
    for _ in 0..pick(state, 12) {
        keys.push(key(state))?;
    }
    Ok(keys)
}

/// Whether two keys are not two different constants.
fn may_agree(left: Key, right: Key) -> bool {
    match (left, right) {
        (Key::Constant(one), Key::Constant(other)) => one == other,
        _ => true,
    }
}

/// Adds the pairs of one left key.
fn add_pairs(
    all: &mut Vec<(u32, u32)>,
    place: u32,
    left: Key,
    right: &[Key],
) -> Result<(), AllocError> {
    let mut other: u32 = 0;
    for key in right {
        if may_agree(left, *key) {
            all.push((place, other))?;
        }
        other = other.wrapping_add(1);
    }
    Ok(())
}

/// The pairs, by two plain loops.
fn plain_pairs(alloc: Global, left: &[Key], right: &[Key]) -> Result<Vec<(u32, u32)>, AllocError> {
    let mut all = Vec::new(alloc);
    let mut place: u32 = 0;
    for key in left {
        add_pairs(&mut all, place, *key, right)?;
        place = place.wrapping_add(1);
    }
    Ok(all)
}

/// How many pairs two lists have, where both ways answer the same.
fn count_pairs(alloc: Global, left: &[Key], right: &[Key]) -> Result<usize, Fail> {
    if left.len() > 11 || right.len() > 11 {
        return Err(Fail::new("too many keys"));
    }
    let found = pairs(alloc, left, right)?;
    let wanted = plain_pairs(alloc, left, right)?;
    if found.as_slice() != wanted.as_slice() {
        return Err(Fail::new("other pairs"));
    }
    Ok(found.len())
}

/// How many of so many pairs of lists have no candidate.
fn count_apart(alloc: Global, count: u32) -> Result<u32, Fail> {
    let mut state = 1;
    let mut apart: u32 = 0;
    for _ in 0..count {
        let left = keys(alloc, &mut state)?;
        let right = keys(alloc, &mut state)?;
        if count_pairs(alloc, left.as_slice(), right.as_slice())? == 0 {
            apart = apart.wrapping_add(1);
        }
    }
    Ok(apart)
}

#[test]
fn pairs_are_those_of_two_loops(rt: HostRuntime) -> Result<(), Fail> {
    let apart = count_apart(rt.alloc(), 2000)?;
    // Most lists have candidates, and some have none.
    assert!(rt; 0 < apart && apart < 1000);
    Ok(())
}
