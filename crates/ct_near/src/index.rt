// The conjuncts of a condition, and the nulls below each.

ghost use Rattle.std.specs.Prelude.{◌≡◌, Contains, IfSome, IsTrue, OnOk, Some, slice_get};
ghost use Rattle.ct_near.specs.Entries.{Extends, IsEntryAmong, ListsNull, is_null_kind, is_null_word};
ghost use Rattle.ct_word.specs.declared.kinds.Class.TheVariants as class;
ghost use Rattle.ct_word.specs.WellFormed.{IsWellFormed, is_place_of};

use ct_word::{Kind, Memory, kind};

/// A null below a conjunct.
#[derive(Clone, Copy)]
pub(crate) struct Entry {
    /// The place of the null.
    pub(crate) null: u32,
    /// The number of the conjunct.
    pub(crate) conjunct: usize,
    /// Meant as the entry before with the same null: its number and one more, or zero where there is none.
    pub(crate) next: usize,
}

/// The nulls below conjuncts. `ends`, `heads` and the `next` of the entries make a search short: no contract rests on what they
/// say.
#[derive(Drop)]
pub(crate) struct NullIndex {
    /// The nulls of each conjunct after those of the one before.
    pub(crate) entries: Vec<Entry>,
    /// Meant as where the entries of each conjunct end.
    pub(crate) ends: Vec<usize>,
    /// Meant as the last entry with the null at each place: its number and one more, or zero where there is none.
    pub(crate) heads: Vec<usize>,
}

/// The conjuncts of a condition, each with the nulls below it. They are the parts of its top run of ANDs: the condition itself
/// where it is no And.
#[derive(Drop)]
pub struct Conjuncts {
    /// The places of the conjuncts, none twice.
    pub(crate) places: Vec<u32>,
    /// The places of the ANDs of the run.
    pub(crate) ands: Vec<u32>,
    pub(crate) index: NullIndex,
}

impl Conjuncts {
    /// The places of the conjuncts, none twice.
    pub fn places(&self) -> &[u32]
        ensures { result.now ≡ self.now.places.items }
    {
        self.places.as_slice()
    }

    /// The places of the ANDs of the run, none twice. Each but the root comes after an And that names it.
    pub fn ands(&self) -> &[u32]
        ensures { result.now ≡ self.now.ands.items }
    {
        self.ands.as_slice()
    }
}

/// What `heads` has for a place, and zero past its end.
pub(crate) fn head_of(index: &NullIndex, place: u32) -> usize {
    match index.heads.get(place as usize) {
        Some(head) => *head,
        None => 0,
    }
}

/// The entry whose number and one more this is, if it is one.
pub(crate) fn entry_of(index: &NullIndex, head: usize) -> Option<Entry>
    ensures { IfSome result (λ e. Contains index.now.entries.items e) }
{
    let number = head.checked_sub(1)?;
    entry_with(index, number)
}

/// The entry with a number, if there is one.
pub(crate) fn entry_with(index: &NullIndex, number: usize) -> Option<Entry>
    ensures { IfSome result (λ e. Contains index.now.entries.items e) }
{
    index.entries.get(number).copied()
}

/// Whether words of a kind stand for nulls.
fn is_null_kind(kind: Kind) -> bool
    ensures { result ≡ is_null_kind (Some kind) }
{
    matches!(kind, Kind::NamedNull | Kind::FreshNull)
}

/// Whether a null stands at a place, which may lie past the words.
fn is_null(words: &[u64], place: u32) -> bool
    ensures { result ≡ is_null_word (slice_get words.now place) }
{
    match words.get(place as usize) {
        None => false,
        Some(word) => kind(*word).is_some_and(is_null_kind),
    }
}

/// Adds the null at the place of a term to those of a conjunct, unless it is there, or is no null.
pub(crate) fn add_null(
    words: &[u64],
    place: u32,
    conjunct: usize,
    index: &mut NullIndex,
) -> Result<(), Memory>
    requires formed { IsWellFormed words.now }
    requires term { IsTrue (is_place_of words.now class.Term place) }
    ensures added { OnOk result (Extends (IsEntryAmong words.now conjunct (λ q. q ≡ place)) index.old.entries.items index.new.entries.items) }
    ensures listed { OnOk result (ListsNull words.now index.new.entries.items conjunct place) }
{
    if !is_null(words, place) {
        return Ok(());
    }
    let next = head_of(index, place);
    if let Some(last) = entry_of(index, next) {
        if last.null == place && last.conjunct == conjunct {
            return Ok(());
        }
    }
    let number = index.entries.len();
    index.entries.push(Entry {
        null: place,
        conjunct,
        next,
    })?;
    if let Some(head) = index.heads.get_mut(place as usize) {
        *head = number + 1;
    }
    Ok(())
}
