// Which conjuncts a condition has, and which nulls stand below each.

ghost use Rattle.std.specs.Prelude.{◌≡◌, ◌<◌, ℕ, true, length, Contains, IfNone, IfOk, IfSome, IsTrue, OnOk};
ghost use Rattle.ct_word.specs.declared.kinds.Class.TheVariants as class;
ghost use Rattle.ct_word.specs.WellFormed.{IsWellFormed, is_place_of};
ghost use Rattle.ct_near.specs.Conjuncts.{AreBeside, AreConjuncts, AreIndexed, AreOthers, IsChoice, IsInRun};
ghost use Rattle.ct_near.specs.Entries.{IsEntryOf};
ghost use Rattle.ct_near.specs.declared.index.Entry.{Entry};
ghost use Rattle.ct_near.specs.Walks.{AreOld, IsUnder};

use crate::index::{Conjuncts, NullIndex};
use crate::walking::{Found, Walks, Way, no_walks, nothing, walk, zeros};
use ct_word::Memory;
use std::alloc::Global;

/// The nulls below conditions. The walks go on from a first one.
fn index_of(
    alloc: Global,
    words: &[u64],
    root: u32,
    places: &[u32],
    walks: &mut Walks,
) -> Result<NullIndex, Memory>
    requires formed { IsWellFormed words.now }
    requires under { (p : ℕ) → Contains places.now p → IsUnder words.now root p }
    requires room { root < length walks.old.marks.items }
    requires old { AreOld walks.old.marks.items 2 }
    ensures all { IfOk result (λ index. AreIndexed words.now places.now index.entries.items) }
    ensures only { IfOk result (λ index. (e : Entry) → Contains index.entries.items e → IsEntryOf words.now places.now e) }
{
    let mut found = nothing(alloc);
    found.index.heads = zeros(alloc, walks.marks.len())?;
    found.index.ends.reserve(places.len())?;
    // Most conjuncts have a null of their own.
    found.index.entries.reserve(places.len())?;
    for (number, place) in places.iter().enumerate() {
        walk(
            words,
            *place,
            Way::All(number),
            number + 2,
            walks,
            &mut found,
        )?;
        found.index.ends.push(found.index.entries.len())?;
    }
    let Found { index, .. } = found;
    Ok(index)
}

/// The conjuncts of the condition at a place, each with the nulls below it: all ends of its run of ANDs, and no other places. It
/// takes steps for what stands below each conjunct, and it fills memory for the places up to this one.
///
/// # Errors
/// `Memory` where there is none for the places up to this one, and the conjuncts with their nulls.
pub fn conjuncts(alloc: Global, words: &[u64], root: u32) -> Result<Conjuncts, Memory>
    requires formed { IsWellFormed words.now }
    requires condition { is_place_of words.now class.Cond root ≡ true }
    ensures { IfOk result (AreConjuncts words.now root) }
{
    let mut walks = no_walks(alloc, root)?;
    let mut found = nothing(alloc);
    // An And names earlier places, so none stands at the first one.
    walk(words, root, Way::Ands(0), 1, &mut walks, &mut found)?;
    let index = index_of(alloc, words, root, found.leaves.as_slice(), &mut walks)?;
    let Found { inner, leaves, .. } = found;
    Ok(Conjuncts {
        places: leaves,
        ands: inner,
        index,
    })
}

/// Adds a place if it is chosen.
pub(crate) fn choose(places: &mut Vec<u32>, place: u32, is_chosen: bool) -> Result<(), Memory>
    ensures { OnOk result (IsChoice places.old.items places.new.items place is_chosen) }
{
    if is_chosen {
        places.push(place)?;
    }
    Ok(())
}

/// These places but one.
fn others(alloc: Global, places: &[u32], one: u32) -> Result<Vec<u32>, Memory>
    ensures { IfOk result (λ ps. AreOthers places.now one ps.items) }
{
    let mut others = Vec::new(alloc);
    for place in places {
        choose(&mut others, *place, *place != one)?;
    }
    Ok(others)
}

/// The other ends of the run of ANDs from a place, beside one of its conditions, into which the run is not followed: all of
/// them, and that one is none of them. None where that one is not in the run, and only there.
///
/// # Errors
/// `Memory` where there is none for the places up to the first one, and the run.
pub fn run_beside(
    alloc: Global,
    words: &[u64],
    root: u32,
    one: u32,
) -> Result<Option<Vec<u32>>, Memory>
    requires formed { IsWellFormed words.now }
    requires condition { is_place_of words.now class.Cond root ≡ true }
    ensures beside { IfOk result (λ o. IfSome o (λ others. AreBeside words.now root one others.items)) }
    ensures none { IfOk result (λ o. IfNone o (IsInRun words.now root one → ⊥)) }
{
    let mut walks = no_walks(alloc, root)?;
    let mut found = nothing(alloc);
    walk(words, root, Way::Ands(one), 1, &mut walks, &mut found)?;
    let leaves = found.leaves.as_slice();
    if !leaves.contains(&one) {
        return Ok(None);
    }
    let others = others(alloc, leaves, one)?;
    Ok(Some(others))
}
