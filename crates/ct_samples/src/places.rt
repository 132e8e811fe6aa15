// Whether places are of a class, and whether a log has a column.

ghost use Rattle.std.specs.Prelude.{◌≡◌, ℕ, All, IsTrue};
ghost use Rattle.std.specs.List.{list_any};
ghost use Rattle.ct_word.specs.Stands.{HasNoColumn};
ghost use Rattle.ct_word.specs.WellFormed.{is_place_of, IsWellFormed};
ghost use Rattle.ct_word.specs.Word.{kind_of};
ghost use Rattle.ct_samples.specs.Columns.{is_column_kind};

use ct_word::{Class, Kind, class, kind};

/// Whether a place is of a class.
pub fn is_place(words: &[u64], of: Class, place: u32) -> bool
    ensures { result ≡ is_place_of words.now of place }
{
    match words.get(place as usize) {
        None => false,
        Some(word) => match kind(*word) {
            None => false,
            Some(kind) => class(kind) == of,
        },
    }
}

/// Whether all of these places are of a class.
pub fn are_places(words: &[u64], of: Class, places: &[u32]) -> bool
    ensures { IsTrue result → All (λ p. IsTrue (is_place_of words.now of p)) places.now }
{
    for place in places {
        if !is_place(words, of, *place) {
            return false;
        }
    }
    true
}

fn is_column(kind: Option<Kind>) -> bool
    ensures { result ≡ is_column_kind kind }
{
    matches!(kind, Some(Kind::Column))
}

fn has_column(words: &[u64]) -> bool
    ensures { result ≡ list_any (λ w. is_column_kind (kind_of w)) words.now }
{
    for word in words {
        if is_column(kind(*word)) {
            return true;
        }
    }
    false
}

/// Whether no word is that of a column, so that no column stands below a place.
pub fn no_columns(words: &[u64]) -> bool
    requires { IsWellFormed words.now }
    ensures { IsTrue result → (place : ℕ) → HasNoColumn words.now place }
{
    !has_column(words)
}
