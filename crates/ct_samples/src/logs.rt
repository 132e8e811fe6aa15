// Logs of a few words.

ghost use Rattle.std.specs.Prelude.{◌≡◌, true, false, Some, nat_eq, IfOk, IfNone};
ghost use Rattle.std.specs.List.{list_any};
ghost use Rattle.ct_word.specs.WellFormed.{IsWellFormed, is_formed_as};

use crate::places::is_place;
use ct_word::{Class, Kind, pack};
use std::alloc::{AllocError, Global};

/// Whether a word of this kind may have these fields; of the kinds of texts, terms and conditions only.
fn is_formed(words: &[u64], kind: Kind, a: u32, b: u32) -> bool
    ensures { result ≡ true → is_formed_as (Some kind) words.now a b ≡ true }
{
    match kind {
        Kind::TextEnd | Kind::True | Kind::False => a == 0 && b == 0,
        Kind::TextCharacter => is_place(words, Class::Text, a) && b < 0xd800,
        Kind::Number => is_place(words, Class::High, a) && b < 256,
        Kind::TextConstant | Kind::NamedNull => is_place(words, Class::Text, a) && b == 0,
        Kind::FreshNull => 1 <= a && a <= 1023 && 1 <= b,
        Kind::NumberHigh => true,
        Kind::OtherValue | Kind::Column => b == 0,
        Kind::Equal => is_place(words, Class::Term, a) && is_place(words, Class::Term, b) && a < b,
        Kind::Not => is_place(words, Class::Cond, a) && b == 0,
        Kind::And | Kind::Or => {
            is_place(words, Class::Cond, a) && is_place(words, Class::Cond, b) && a < b
        }
        _ => false,
    }
}

/// Where a word stands.
fn find(words: &[u64], word: u64) -> Option<u32>
    ensures { IfNone result (list_any (nat_eq word) words.now ≡ false) }
{
    for k in 0..words.len() {
        if word == words[k] {
            return Some(u32::try_from(k).unwrap_or(0));
        }
    }
    None
}

/// Adds a word where the log stays well formed and has no such word, and returns its place.
pub fn add(words: &mut Vec<u64>, kind: Kind, a: u32, b: u32) -> Result<u32, AllocError>
    requires { IsWellFormed words.old.items }
    ensures { IsWellFormed words.new.items }
{
    if a >= 0x1000_0000 || b >= 0x1000_0000 {
        return Ok(0);
    }
    let word = pack(kind, a, b);
    if let Some(place) = find(words.as_slice(), word) {
        return Ok(place);
    }
    let place = u32::try_from(words.len()).unwrap_or(0);
    if is_formed(words.as_slice(), kind, a, b) {
        words.push(word)?;
    }
    Ok(place)
}

/// A log of these words.
pub fn log(alloc: Global, parts: &[(Kind, u32, u32)]) -> Result<Vec<u64>, AllocError>
    ensures { IfOk result (λ words. IsWellFormed words.items) }
{
    let mut words = Vec::new(alloc);
    for (kind, a, b) in parts {
        add(&mut words, *kind, *a, *b)?;
    }
    Ok(words)
}
