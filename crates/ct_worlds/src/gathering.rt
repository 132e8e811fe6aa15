// The conditions that stand below places.

ghost use Rattle.std.specs.Prelude.{◌≡◌, ℕ, true, IfOk, OnOk, IsTrue, Contains, reverse};
ghost use Rattle.ct_word.specs.declared.kinds.Class.TheVariants as class;
ghost use Rattle.ct_word.specs.WellFormed.{IsWellFormed, is_place_of};
ghost use Rattle.ct_worlds.specs.Below.{AreBelow};
ghost use Rattle.ct_worlds.specs.Gathering.{has, AreAdded};
ghost use Rattle.ct_worlds.specs.Shape.{parts_at};

use crate::shape::{Shape, shape_at};
use ct_word::Memory;
use std::alloc::Global;
use std::collections::BTreeSet;

/// Adds places to a set.
fn add(places: &mut BTreeSet<u32>, more: &[u32]) -> Result<(), Memory>
    ensures { OnOk result (AreAdded (has places.old) (has places.new) more.now) }
{
    for place in more {
        places.insert(*place)?;
    }
    Ok(())
}

/// Adds the places of the conditions that the one at a place names.
fn add_parts(words: &[u64], place: u32, places: &mut BTreeSet<u32>) -> Result<(), Memory>
    requires { IsTrue (is_place_of words.now class.Cond place) }
    ensures { OnOk result (AreAdded (has places.old) (has places.new) (parts_at words.now place)) }
{
    match shape_at(words, place) {
        Shape::Not(part) => add(places, &[part]),
        Shape::Joined(_, left, right) => add(places, &[left, right]),
        _ => Ok(()),
    }
}

/// The places of the conditions that stand below these, the greatest first.
fn below_falling(alloc: Global, words: &[u64], roots: &[u32]) -> Result<Vec<u32>, Memory>
    requires formed { IsWellFormed words.now }
    requires roots { (p : ℕ) → Contains roots.now p → is_place_of words.now class.Cond p ≡ true }
    ensures { IfOk result (λ ps. AreBelow words.now roots.now (reverse ps.items)) }
{
    let mut waiting = BTreeSet::new(alloc);
    add(&mut waiting, roots)?;
    let mut passed = Vec::new(alloc);
    // The proof alone reads this: no place at or past it is left to be passed.
    let mut bound = words.len();
    while let Some(place) = waiting.pop_last() {
        add_parts(words, place, &mut waiting)?;
        passed.push(place)?;
        bound = place as usize;
    }
    Ok(passed)
}

/// The places of the conditions that stand below these, each once and in their order, so that the parts of a condition come
/// before it. It takes steps for what stands below, and not for the log.
///
/// # Errors
/// `Memory` where there is none for the places.
pub fn below(alloc: Global, words: &[u64], roots: &[u32]) -> Result<Vec<u32>, Memory>
    requires formed { IsWellFormed words.now }
    requires roots { (p : ℕ) → Contains roots.now p → is_place_of words.now class.Cond p ≡ true }
    ensures { IfOk result (λ ps. AreBelow words.now roots.now ps.items) }
{
    let mut places = below_falling(alloc, words, roots)?;
    places.reverse();
    Ok(places)
}
