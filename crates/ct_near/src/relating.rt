// Which conjuncts share nulls with conditions.

ghost use Rattle.std.specs.Prelude.{◌≡◌, ℕ, true, false, length, Contains, IfNone, IfOk, IfSome, OnOk, replicate, slice_index_or};
ghost use Rattle.std.specs.List.{list_all};
ghost use Rattle.ct_word.specs.declared.kinds.Class.TheVariants as class;
ghost use Rattle.ct_word.specs.WellFormed.{IsWellFormed, is_place_of};
ghost use Rattle.ct_near.specs.Conjuncts.{AreChosen, AreConjuncts, IsUncovered, is_covered};
ghost use Rattle.ct_near.specs.Related.{AreFlagged, HasEntry, IsRelated, Reaches, SharesOwn, SharesWith};

use crate::index::{Conjuncts, Entry, NullIndex, entry_of, entry_with, head_of};
use crate::indexing::choose;
use ct_word::Memory;
use ct_worlds::{Nulls, Shape, below, shape_at};
use std::alloc::{AllocError, Global};

/// Which conjuncts were reached.
#[derive(Drop)]
pub(crate) struct Reached {
    /// Of each conjunct whether it was.
    pub(crate) is_asked: Vec<bool>,
    /// Of each entry whether it is the last of a null that was reached.
    pub(crate) is_done: Vec<bool>,
    /// The numbers of conjuncts whose nulls are not looked at yet.
    pub(crate) waiting: Vec<usize>,
}

/// Reaches a conjunct, by its number.
fn ask(reached: &mut Reached, conjunct: usize) -> Result<(), Memory>
    ensures { OnOk result (Reaches (λ k. k ≡ conjunct) reached.old reached.new) }
{
    if conjunct < reached.is_asked.len() && !reached.is_asked[conjunct] {
        reached.is_asked[conjunct] = true;
        reached.waiting.push(conjunct)?;
    }
    Ok(())
}

/// Whether the null with this last entry was not reached before. It is then.
fn is_next(reached: &mut Reached, head: usize) -> bool
    ensures asked { reached.new.is_asked.items ≡ reached.old.is_asked.items }
    ensures waiting { reached.new.waiting.items ≡ reached.old.waiting.items }
{
    let Some(number) = head.checked_sub(1) else {
        return false;
    };
    match reached.is_done.get_mut(number) {
        Some(is_done) => {
            let is_next = !*is_done;
            *is_done = true;
            is_next
        }
        None => false,
    }
}

/// Reaches the conjuncts with the null at a place.
fn reach(index: &NullIndex, place: u32, reached: &mut Reached) -> Result<(), Memory>
    ensures { OnOk result (Reaches (HasEntry index.now.entries.items place) reached.old reached.new) }
{
    let mut head = head_of(index, place);
    if !is_next(reached, head) {
        return Ok(());
    }
    for _ in 0..index.entries.len() {
        let Some(entry) = entry_of(index, head) else {
            break;
        };
        if entry.null == place {
            ask(reached, entry.conjunct)?;
        }
        head = entry.next;
    }
    Ok(())
}

/// Reaches the conjuncts with nulls of these conditions.
fn reach_own(
    alloc: Global,
    words: &[u64],
    index: &NullIndex,
    own: &[u32],
    reached: &mut Reached,
) -> Result<(), Memory>
    requires formed { IsWellFormed words.now }
    requires own { (p : ℕ) → Contains own.now p → is_place_of words.now class.Cond p ≡ true }
    ensures { OnOk result (Reaches (SharesOwn words.now own.now index.now.entries.items) reached.old reached.new) }
{
    let below = below(alloc, words, own)?;
    let places = below.as_slice();
    for place in places {
        if let Shape::Equal(left, right) = shape_at(words, *place) {
            reach(index, left, reached)?;
            reach(index, right, reached)?;
        }
    }
    Ok(())
}

/// Where the entries of a conjunct begin and end.
fn range_of(index: &NullIndex, conjunct: usize) -> (usize, usize) {
    let ends = index.ends.as_slice();
    let start = match conjunct.checked_sub(1) {
        Some(before) => ends.get(before).copied().unwrap_or(0),
        None => 0,
    };
    (start, ends.get(conjunct).copied().unwrap_or(start))
}

/// Reaches the conjuncts that share a null with one.
fn reach_from(index: &NullIndex, conjunct: usize, reached: &mut Reached) -> Result<(), Memory>
    ensures { OnOk result (Reaches (SharesWith index.now.entries.items conjunct) reached.old reached.new) }
{
    let (start, end) = range_of(index, conjunct);
    for number in start..end {
        if let Some(entry) = entry_with(index, number) {
            if entry.conjunct == conjunct {
                reach(index, entry.null, reached)?;
            }
        }
    }
    Ok(())
}

/// Flags that are all false.
fn no_flags(alloc: Global, count: usize) -> Result<Vec<bool>, AllocError>
    ensures { IfOk result (λ flags. flags.items ≡ replicate count false) }
{
    vec![in alloc; false; count]
}

/// Of each conjunct whether it was found that it shares a null with one of these conditions, or with another such conjunct. None
/// other is flagged.
pub(crate) fn asked(
    alloc: Global,
    words: &[u64],
    conjuncts: &Conjuncts,
    own: &[u32],
) -> Result<Vec<bool>, Memory>
    requires formed { IsWellFormed words.now }
    requires own { (p : ℕ) → Contains own.now p → is_place_of words.now class.Cond p ≡ true }
    ensures related { IfOk result (λ flags. (root : ℕ) → AreConjuncts words.now root conjuncts.now → AreFlagged words.now root own.now conjuncts.now.places.items flags.items) }
    ensures room { IfOk result (λ flags. length flags.items ≡ length conjuncts.now.places.items) }
{
    let index = &conjuncts.index;
    let mut reached = Reached {
        is_asked: no_flags(alloc, conjuncts.places.len())?,
        is_done: no_flags(alloc, index.entries.len())?,
        waiting: Vec::new(alloc),
    };
    reach_own(alloc, words, index, own, &mut reached)?;
    // Each conjunct waits once.
    for _ in 0..conjuncts.places.len() {
        let Some(conjunct) = reached.waiting.pop() else {
            break;
        };
        reach_from(index, conjunct, &mut reached)?;
    }
    let Reached { is_asked, .. } = reached;
    Ok(is_asked)
}

/// The flag with a number; false past the last one.
fn flag(flags: &[bool], number: usize) -> bool
    ensures { result ≡ slice_index_or flags.now number false }
{
    if number < flags.len() {
        return flags[number];
    }
    false
}

/// The places of the conjuncts that are asked, and then these.
pub(crate) fn chosen(
    alloc: Global,
    places: &[u32],
    is_asked: &[bool],
    own: &[u32],
) -> Result<Vec<u32>, Memory>
    ensures { IfOk result (λ ps. AreChosen places.now is_asked.now own.now ps.items) }
{
    let mut chosen = Vec::new(alloc);
    for (number, place) in places.iter().enumerate() {
        choose(&mut chosen, *place, flag(is_asked, number))?;
    }
    for place in own {
        choose(&mut chosen, *place, true)?;
    }
    Ok(chosen)
}

/// Whether the conjunct of an entry is asked, or its null is none of these.
fn is_covered(entry: Entry, is_asked: &[bool], nulls: &Nulls) -> bool
    ensures { result ≡ is_covered is_asked.now nulls.now entry }
{
    flag(is_asked, entry.conjunct) || !nulls.has_place(entry.null)
}

/// The number of a conjunct that is not asked and has one of these nulls, if there is one.
pub(crate) fn uncovered(index: &NullIndex, is_asked: &[bool], nulls: &Nulls) -> Option<usize>
    ensures none { IfNone result (list_all (is_covered is_asked.now nulls.now) index.now.entries.items ≡ true) }
    ensures one { IfSome result (IsUncovered index.now.entries.items is_asked.now nulls.now) }
{
    for entry in index.entries.as_slice() {
        if !is_covered(*entry, is_asked, nulls) {
            return Some(entry.conjunct);
        }
    }
    None
}

/// The places of the conjuncts that share a null with one of these conditions, or with another such conjunct. That no other
/// conjunct is returned is proved; that all of these are is not.
///
/// # Errors
/// `Memory` where there is none for the conjuncts.
pub fn related(
    alloc: Global,
    words: &[u64],
    conjuncts: &Conjuncts,
    own: &[u32],
) -> Result<Vec<u32>, Memory>
    requires formed { IsWellFormed words.now }
    requires own { (p : ℕ) → Contains own.now p → is_place_of words.now class.Cond p ≡ true }
    ensures conjuncts { IfOk result (λ ps. (p : ℕ) → Contains ps.items p → Contains conjuncts.now.places.items p) }
    ensures related { IfOk result (λ ps. (root : ℕ) → AreConjuncts words.now root conjuncts.now → (p : ℕ) → Contains ps.items p → IsRelated words.now root own.now p) }
{
    let asked = asked(alloc, words, conjuncts, own)?;
    let places = chosen(alloc, conjuncts.places(), asked.as_slice(), &[])?;
    Ok(places)
}
