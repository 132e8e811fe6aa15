// Where a condition folds to one that stands already.

ghost use Rattle.std.specs.Prelude.{◌≡◌, ◌≢◌, ◌<◌, ◌^◌, true, length, IfSome, IsTrue, None, Some, slice_get, ℕ};
ghost use mathlib.Core.List.{IsPrefix};
ghost use Rattle.ct_arena.specs.Counts.{opening};
ghost use Rattle.ct_word.specs.WellFormed.{IsWellFormed, is_place_of};
ghost use Rattle.ct_word.specs.declared.kinds.Class.TheVariants as class;
ghost use Rattle.ct_condition.specs.Folding as spec;
ghost use Rattle.ct_condition.specs.Folding.{are_apart, denied, is_place, literal_place};
ghost use Rattle.ct_condition.specs.Truth.{HasTruth, Negates, equal_at, not_at, join_at};

use ct_word::{Connective, FALSE_PLACE, Kind, TRUE_PLACE, is_constant, kind, left};

/// The place of the word true or of the word false, where the words begin as every log does.
pub fn literal(words: &[u64], truth: bool) -> u32
    requires formed { IsWellFormed words.now }
    requires begins { IsPrefix opening words.now }
    ensures place { result ≡ literal_place truth }
    ensures truth { HasTruth words.now result (λ v row. truth) }
{
    let _ = words;
    if truth { TRUE_PLACE } else { FALSE_PLACE }
}

fn word_at(words: &[u64], place: u32) -> Option<u64>
    ensures { result ≡ slice_get words.now place }
{
    words.get(place as usize).copied()
}

/// Whether the terms at two places are different constants, which are worth different values in each world.
pub fn are_apart(words: &[u64], s: u32, t: u32) -> bool
    ensures { result ≡ are_apart words.now s t }
{
    s != t && is_constant(words, s) && is_constant(words, t)
}

/// The condition that the one at a place is the negation of, if its word is a `not`.
fn negated(words: &[u64], place: u32) -> Option<u32>
    requires { IsWellFormed words.now }
    ensures value { result ≡ denied words.now place }
    ensures negates { IfSome result (λ other. Negates words.now place other) }
{
    let word = word_at(words, place)?;
    match kind(word)? {
        Kind::Not => Some(left(word)),
        _ => None,
    }
}

/// The place that the equality of two terms folds to.
pub fn folded_eq(words: &[u64], s: u32, t: u32) -> Option<u32>
    requires formed { IsWellFormed words.now }
    requires begins { IsPrefix opening words.now }
    ensures value { result ≡ spec.folded_eq words.now s t }
    ensures truth { IfSome result (λ place. HasTruth words.now place (equal_at words.now s t)) }
    ensures apart { result ≡ None → s ≢ t }
{
    if s == t {
        return Some(TRUE_PLACE);
    }
    if is_constant(words, s) && is_constant(words, t) {
        return Some(FALSE_PLACE);
    }
    None
}

/// The place that the negation of a condition folds to.
pub fn folded_not(words: &[u64], c: u32) -> Option<u32>
    requires formed { IsWellFormed words.now }
    requires begins { IsPrefix opening words.now }
    requires small { length words.now < 2 ^ 28 }
    ensures value { result ≡ spec.folded_not words.now c }
    ensures truth { IfSome result (λ place. HasTruth words.now place (not_at words.now c)) }
{
    if c == TRUE_PLACE {
        return Some(FALSE_PLACE);
    }
    if c == FALSE_PLACE {
        return Some(TRUE_PLACE);
    }
    negated(words, c)
}

/// Whether the word at a place is the `not` of another.
fn negates(words: &[u64], c: u32, d: u32) -> bool
    requires { IsWellFormed words.now }
    ensures value { result ≡ is_place (denied words.now c) d }
    ensures negates { result ≡ true → Negates words.now c d }
{
    match negated(words, c) {
        Some(other) => other == d,
        None => false,
    }
}

/// The place that two conditions under a connective fold to.
pub fn folded_join(words: &[u64], connective: Connective, c: u32, d: u32) -> Option<u32>
    requires formed { IsWellFormed words.now }
    requires begins { IsPrefix opening words.now }
    requires small { length words.now < 2 ^ 28 }
    requires left { IsTrue (is_place_of words.now class.Cond c) }
    requires right { IsTrue (is_place_of words.now class.Cond d) }
    ensures value { result ≡ spec.folded_join connective words.now c d }
    ensures truth { IfSome result (λ place. HasTruth words.now place (join_at connective words.now c d)) }
    ensures apart { result ≡ None → c ≢ d }
{
    let unit = literal(words, connective.unit());
    let settled = literal(words, !connective.unit());
    if c == settled || d == settled {
        return Some(settled);
    }
    if c == unit {
        return Some(d);
    }
    if d == unit || c == d {
        return Some(c);
    }
    if negates(words, c, d) || negates(words, d, c) {
        return Some(settled);
    }
    None
}
