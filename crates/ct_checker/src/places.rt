// The classes of places.

ghost use Rattle.std.specs.Prelude.{◌≡◌};
ghost use Rattle.ct_word.specs.WellFormed as formed;

use ct_word::{Class, Kind, class, kind};

fn has_class(kind: Option<Kind>, of: Class) -> bool
    ensures { result ≡ formed.has_class kind of }
{
    match kind {
        None => false,
        Some(kind) => class(kind) == of,
    }
}

/// Whether a place, which may lie past the words, is one of a class.
pub fn is_of(words: &[u64], place: u32, of: Class) -> bool
    ensures { result ≡ formed.is_place_of words.now of place }
{
    match words.get(place as usize) {
        None => false,
        Some(word) => has_class(kind(*word), of),
    }
}
