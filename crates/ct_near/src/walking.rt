// Walks down from a condition, each place once.

ghost use Rattle.std.specs.Prelude.{◌≡◌, ◌<◌, ◌≤◌, ◌++◌, ℕ, [], length, IfOk, IsTrue, OnOk};
ghost use Rattle.ct_word.specs.declared.kinds.Class.TheVariants as class;
ghost use Rattle.ct_word.specs.WellFormed.{IsWellFormed, is_place_of};
ghost use Rattle.ct_worlds.specs.Shape.{parts_at};
ghost use Rattle.ct_near.specs.declared.walking.Way.TheVariants as way;
ghost use Rattle.ct_near.specs.Entries.{Extends, Lists};
ghost use Rattle.ct_near.specs.Walks.{AreOld, IsEntered, IsEntryAt, IsEntryFrom, IsTraced, IsWalked};

use crate::index::{NullIndex, add_null};
use ct_word::{Connective, Memory};
use ct_worlds::{Shape, shape_at};
use std::alloc::Global;

/// Into which conditions a walk goes, and what it notes.
#[derive(Clone, Copy)]
pub(crate) enum Way {
    /// Into ANDs, but not into the condition at this place. It notes where it went, and where it ended.
    Ands(u32),
    /// Into all. It lists the nulls with the conjunct of this number.
    All(usize),
}

/// The places at which walks were, and those that wait.
#[derive(Drop)]
pub(crate) struct Walks {
    /// For each place the number of the last walk that was there, or zero.
    pub(crate) marks: Vec<usize>,
    pub(crate) waiting: Vec<u32>,
}

/// What walks came to.
#[derive(Drop)]
pub(crate) struct Found {
    /// The places of the ANDs into which the last one went.
    pub(crate) inner: Vec<u32>,
    /// The places of other conditions at which it ended.
    pub(crate) leaves: Vec<u32>,
    /// The nulls that walks into all conditions listed.
    pub(crate) index: NullIndex,
}

/// No walks, among the places up to this one.
pub(crate) fn no_walks(alloc: Global, last: u32) -> Result<Walks, Memory>
    ensures room { IfOk result (λ w. last < length w.marks.items) }
    ensures old { IfOk result (λ w. AreOld w.marks.items 1) }
{
    let marks = zeros(alloc, last as usize + 1)?;
    Ok(Walks {
        marks,
        waiting: Vec::new(alloc),
    })
}

/// So many zeros at least.
pub(crate) fn zeros(alloc: Global, count: usize) -> Result<Vec<usize>, Memory>
    ensures room { IfOk result (λ v. count ≤ length v.items) }
    ensures zero { IfOk result (λ v. AreOld v.items 1) }
{
    let mut zeros = Vec::new(alloc);
    // With the last of the runs that are put at once, so that no run moves those before it.
    zeros.reserve(count.saturating_add(256))?;
    while zeros.len() < count {
        zeros.extend_from_slice(&[0; 256])?;
    }
    Ok(zeros)
}

/// Nothing. It takes no memory.
pub(crate) fn nothing(alloc: Global) -> Found
    ensures { result.index.entries.items ≡ [] }
{
    Found {
        inner: Vec::new(alloc),
        leaves: Vec::new(alloc),
        index: NullIndex {
            entries: Vec::new(alloc),
            ends: Vec::new(alloc),
            heads: Vec::new(alloc),
        },
    }
}

/// Notes a condition on a walk into ANDs, and lets its parts wait where the walk goes into it.
fn enter_and(
    words: &[u64],
    place: u32,
    stop: u32,
    waiting: &mut Vec<u32>,
    found: &mut Found,
) -> Result<(), Memory>
    requires { place < length words.now }
    ensures { OnOk result (IsEntered words.now (way.Ands stop) place waiting.old.items waiting.new.items found.old found.new) }
{
    match shape_at(words, place) {
        Shape::Joined(Connective::And, left, right) if place != stop => {
            found.inner.push(place)?;
            waiting.push(left)?;
            waiting.push(right)?;
        }
        _ => found.leaves.push(place)?,
    }
    Ok(())
}

/// Lists the nulls of a condition with a conjunct, if it is an equality, and lets its parts wait.
fn enter_any(
    words: &[u64],
    place: u32,
    conjunct: usize,
    waiting: &mut Vec<u32>,
    index: &mut NullIndex,
) -> Result<(), Memory>
    requires formed { IsWellFormed words.now }
    requires condition { IsTrue (is_place_of words.now class.Cond place) }
    ensures grown { OnOk result (waiting.new.items ≡ waiting.old.items ++ parts_at words.now place) }
    ensures added { OnOk result (Extends (IsEntryAt words.now (way.All conjunct) place) index.old.entries.items index.new.entries.items) }
    ensures listed { OnOk result (Lists words.now index.new.entries.items conjunct place) }
{
    match shape_at(words, place) {
        Shape::Literal(_) => (),
        Shape::Equal(left, right) => {
            add_null(words, left, conjunct, index)?;
            add_null(words, right, conjunct, index)?;
        }
        Shape::Not(part) => waiting.push(part)?,
        Shape::Joined(_, left, right) => {
            waiting.push(left)?;
            waiting.push(right)?;
        }
    }
    Ok(())
}

/// Notes a condition, and lets its parts wait where the walk goes into it.
fn enter(
    words: &[u64],
    place: u32,
    way: Way,
    waiting: &mut Vec<u32>,
    found: &mut Found,
) -> Result<(), Memory>
    requires formed { IsWellFormed words.now }
    requires condition { IsTrue (is_place_of words.now class.Cond place) }
    ensures { OnOk result (IsEntered words.now way place waiting.old.items waiting.new.items found.old found.new) }
{
    match way {
        Way::Ands(stop) => enter_and(words, place, stop, waiting, found),
        Way::All(conjunct) => enter_any(words, place, conjunct, waiting, &mut found.index),
    }
}

/// Walks down from the condition at a place. The walks have rising numbers, from one on.
pub(crate) fn walk(
    words: &[u64],
    root: u32,
    way: Way,
    number: usize,
    walks: &mut Walks,
    found: &mut Found,
) -> Result<(), Memory>
    requires formed { IsWellFormed words.now }
    requires condition { IsTrue (is_place_of words.now class.Cond root) }
    requires room { root < length walks.old.marks.items }
    requires new { AreOld walks.old.marks.items number }
    ensures room { length walks.new.marks.items ≡ length walks.old.marks.items }
    ensures old { OnOk result ((more : ℕ) → number < more → AreOld walks.new.marks.items more) }
    ensures walked { OnOk result (IsWalked words.now way root number walks.new.marks.items found.new) }
    ensures traced { OnOk result (IsTraced words.now way root found.new) }
    ensures added { OnOk result (Extends (IsEntryFrom words.now way root) found.old.index.entries.items found.new.index.entries.items) }
{
    found.inner.clear();
    found.leaves.clear();
    walks.waiting.clear();
    walks.waiting.push(root)?;
    while let Some(place) = walks.waiting.pop() {
        if walks.marks[place as usize] != number {
            walks.marks[place as usize] = number;
            enter(words, place, way, &mut walks.waiting, found)?;
        }
    }
    Ok(())
}
