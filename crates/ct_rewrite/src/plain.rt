// Places of the word true.

ghost use Rattle.std.specs.Prelude.{◌≡◌, IsTrue};
ghost use Rattle.std.specs.List.{list_all};
ghost use Rattle.ct_rewrite.specs.Plain.{is_true_at};

use ct_word::{Kind, kind};

/// Whether a place, which may lie past the words, is one of the word true.
fn is_true(words: &[u64], place: u32) -> bool
    ensures { result ≡ is_true_at words.now place }
{
    match words.get(place as usize) {
        Some(word) => matches!(kind(*word), Some(Kind::True)),
        None => false,
    }
}

/// Whether all these places, which may lie past the words, are ones of the word true.
fn are_true(words: &[u64], places: &[u32]) -> bool
    ensures { result ≡ list_all (is_true_at words.now) places.now }
{
    places.iter().all(|place| is_true(words, *place))
}

/// Whether there are places, each of them one of the word true.
pub fn is_plain(words: &[u64], places: &[u32]) -> bool
    ensures { IsTrue result → IsTrue (list_all (is_true_at words.now) places.now) }
{
    !places.is_empty() && are_true(words, places)
}
