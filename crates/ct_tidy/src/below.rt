// The nulls that stand below a condition and cells.

ghost use Rattle.std.specs.Prelude.{◌≡◌, ◌<◌, ◌∷◌, length, All, IfOk, IsTrue, OnOk};
ghost use Rattle.ct_word.specs.declared.kinds.Class.TheVariants as class;
ghost use Rattle.ct_word.specs.Reading.{term_at};
ghost use Rattle.ct_word.specs.WellFormed.{IsWellFormed, is_place_of};
ghost use Rattle.ct_condition.specs.Terms.{BelowSome};
ghost use Rattle.ct_tidy.specs.Nulls.{AreGathered, AreNullsOf, ArePut, IsPart, IsTermAtSome, is_null, names_left, names_right, parts_of, with_term};

use ct_word::{Kind, Memory, Null, Term, kind, left, right, term_at, word_at};
use indexmap::IndexSet;
use std::alloc::Global;

/// Puts a condition and cells into a set.
fn put_roots(places: &mut IndexSet<u32>, cond: u32, cells: &[u32]) -> Result<(), Memory>
    ensures { OnOk result (ArePut places.old.keys (cond ∷ cells.now) places.new.keys) }
{
    places.insert(cond)?;
    for cell in cells {
        places.insert(*cell)?;
    }
    Ok(())
}

/// Whether the left field of a word of this kind names a condition or a term of a condition.
pub fn names_left(kind: Kind) -> bool
    ensures { result ≡ names_left kind }
{
    matches!(kind, Kind::Not | Kind::Equal | Kind::And | Kind::Or)
}

/// Whether the right one does too.
pub fn names_right(kind: Kind) -> bool
    ensures { result ≡ names_right kind }
{
    matches!(kind, Kind::Equal | Kind::And | Kind::Or)
}

/// Puts the conditions and terms that the word of a condition names into a set.
fn put_parts(places: &mut IndexSet<u32>, word: u64) -> Result<(), Memory>
    ensures { OnOk result (ArePut places.old.keys (parts_of word) places.new.keys) }
{
    let Some(kind) = kind(word) else {
        return Ok(());
    };
    if !names_left(kind) {
        return Ok(());
    }
    places.insert(left(word))?;
    if names_right(kind) {
        places.insert(right(word))?;
    }
    Ok(())
}

/// The places of the conditions and terms that a condition and cells are made of, each once.
fn gather(alloc: Global, words: &[u64], cond: u32, cells: &[u32]) -> Result<IndexSet<u32>, Memory>
    requires formed { IsWellFormed words.now }
    requires parts { All (IsPart words.now) (cond ∷ cells.now) }
    ensures { IfOk result (λ s. AreGathered words.now (cond ∷ cells.now) (length s.keys) s.keys) }
{
    let mut places = IndexSet::new(alloc);
    put_roots(&mut places, cond, cells)?;
    let mut next = 0;
    while next < places.len() {
        let place = places[next];
        put_parts(&mut places, words[place as usize])?;
        next += 1;
    }
    Ok(places)
}

/// Whether words of this kind stand for nulls.
pub fn is_null(kind: Kind) -> bool
    ensures { result ≡ is_null kind }
{
    matches!(kind, Kind::NamedNull | Kind::FreshNull)
}

/// Puts the null at a place into a set, if there is one.
fn put_null(
    alloc: Global,
    words: &[u64],
    place: u32,
    nulls: &mut IndexSet<Null>,
) -> Result<(), Memory>
    requires formed { IsWellFormed words.now }
    requires within { place < length words.now }
    ensures { OnOk result (nulls.new.keys ≡ with_term (term_at words.now place) nulls.old.keys) }
{
    let word = word_at(words, place);
    if is_null(word.kind) {
        if let Term::Null(null) = term_at(alloc, words, place)? {
            nulls.insert(null)?;
        }
    }
    Ok(())
}

/// The nulls at these places, each once.
fn nulls_at(alloc: Global, words: &[u64], places: &[u32]) -> Result<IndexSet<Null>, Memory>
    requires formed { IsWellFormed words.now }
    requires parts { All (IsPart words.now) places.now }
    ensures { IfOk result (λ s. AreNullsOf (IsTermAtSome words.now places.now) s.keys) }
{
    let mut nulls = IndexSet::new(alloc);
    for place in places {
        put_null(alloc, words, *place, &mut nulls)?;
    }
    Ok(nulls)
}

/// The nulls that stand below a condition and cells, each once. It goes over the conditions and terms below them once.
///
/// # Errors
/// `Memory` where there is none for these.
pub fn nulls_below(
    alloc: Global,
    words: &[u64],
    cond: u32,
    cells: &[u32],
) -> Result<IndexSet<Null>, Memory>
    requires formed { IsWellFormed words.now }
    requires cond { IsTrue (is_place_of words.now class.Cond cond) }
    requires cells { All (λ p. IsTrue (is_place_of words.now class.Term p)) cells.now }
    ensures { IfOk result (λ s. AreNullsOf (BelowSome words.now (cond ∷ cells.now)) s.keys) }
{
    let places = gather(alloc, words, cond, cells)?;
    nulls_at(alloc, words, places.as_slice())
}
