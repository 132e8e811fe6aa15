// The numbers of the constants `@k`.

ghost use Rattle.std.specs.Prelude.{◌≡◌, Some};
ghost use Rattle.ct_equality.specs.Members.{number_at, number_in};

use ct_word::{Kind, kind, left};

fn number_in(word: u64) -> Option<u32>
    ensures { result ≡ number_in (Some word) }
{
    match kind(word) {
        Some(Kind::OtherValue) => Some(left(word)),
        _ => None,
    }
}

/// The k of the constant `@k` at a place; none at a place of anything else.
#[tactic(auto, unfolding(crate::specs::Members::number_at))]
pub fn number_at(words: &[u64], place: u32) -> Option<u32>
    ensures { result ≡ number_at words.now place }
{
    match words.get(place as usize) {
        None => None,
        Some(word) => number_in(*word),
    }
}
