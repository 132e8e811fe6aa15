// The values of terms in a world.

ghost use Rattle.std.specs.Prelude.{◌≡◌, ℕ, [], IfOk, IsTrue, MatchOption, slice_get};
ghost use Rattle.ct_word.specs.declared.kinds.Class.TheVariants as class;
ghost use Rattle.ct_word.specs.Reading.{term_at};
ghost use Rattle.ct_word.specs.Value.{World, at, other_zero, same_value, value_of_null};
ghost use Rattle.ct_word.specs.WellFormed.{IsWellFormed, is_place_of};
ghost use Rattle.ct_worlds.specs.Valuation.{AreRead, IsConstant, IsValuation, value_in};

use crate::reads::{Read, note_read, number_read, slot_of};
use ct_word::{Kind, Memory, Null, Term, Value, World, is_constant, term_at, word_at};
use indexmap::IndexMap;
use std::alloc::Global;

/// A world, whose pairs are found by their nulls.
#[derive(Drop)]
pub(crate) struct Valuation<'a> {
    pub(crate) listed: &'a [(Null, Value)],
    /// The number of the first pair with each null.
    pub(crate) numbers: IndexMap<Null, usize>,
    /// `@0`, which all that is not listed is worth.
    pub(crate) zero: Value,
}

/// The pairs of a world by their nulls.
pub(crate) fn valuation_of(alloc: Global, world: &World) -> Result<Valuation<'_>, Memory>
    ensures world { IfOk result (λ v. v.listed.now ≡ world.now) }
    ensures valuation { IfOk result IsValuation }
{
    let listed = world.as_slice();
    let mut numbers = IndexMap::with_capacity(alloc, listed.len())?;
    let mut next = listed.len();
    while next > 0 {
        next -= 1;
        let null = listed[next].0.clone()?;
        numbers.insert(null, next)?;
    }
    let zero = Value::Other(0);
    Ok(Valuation {
        listed,
        numbers,
        zero,
    })
}

/// The value of the pair with a number; `@0`, which is handed in, past the last one.
fn value_with<'a>(listed: &'a [(Null, Value)], zero: &'a Value, number: usize) -> &'a Value
    requires { zero.now ≡ other_zero }
    ensures { result.now ≡ value_in (slice_get listed.now number) }
{
    match listed.get(number) {
        Some(pair) => &pair.1,
        None => zero,
    }
}

/// The number of the first pair with a null; past the last one where there is none.
fn number_of_null(valuation: &Valuation<'_>, null: &Null) -> usize
    requires { IsValuation valuation.now }
    ensures { value_in (slice_get valuation.now.listed.now result) ≡ value_of_null valuation.now.listed.now null.now }
{
    match valuation.numbers.get(null) {
        Some(number) => *number,
        None => valuation.listed.len(),
    }
}

/// The value of the null or the column at a place; none for a constant.
fn value_at<'a>(
    alloc: Global,
    words: &[u64],
    place: u32,
    valuation: &'a Valuation<'_>,
    reads: &mut Vec<Read>,
) -> Result<Option<&'a Value>, Memory>
    requires formed { IsWellFormed words.now }
    requires term { IsTrue (is_place_of words.now class.Term place) }
    requires valuation { IsValuation valuation.now }
    requires reads { AreRead words.now valuation.now.listed.now reads.old.items }
    ensures reads { AreRead words.now valuation.now.listed.now reads.new.items }
    ensures value { IfOk result (λ o. MatchOption o (IsConstant (term_at words.now place)) (λ x. x.now ≡ at valuation.now.listed.now [] (term_at words.now place))) }
{
    // A text constant, which may be long, is not read.
    if is_constant(words, place) {
        return Ok(None);
    }
    let slot = slot_of(reads.len(), place);
    if let Some(number) = number_read(reads.as_slice(), slot, place) {
        return Ok(Some(value_with(valuation.listed, &valuation.zero, number)));
    }
    match term_at(alloc, words, place)? {
        Term::Null(null) => {
            let number = number_of_null(valuation, &null);
            note_read(reads, slot, place, number);
            Ok(Some(value_with(valuation.listed, &valuation.zero, number)))
        }
        Term::Column(_) => Ok(Some(&valuation.zero)),
        Term::Value(_) => Ok(None),
    }
}

/// Whether two values are the same.
fn are_same(x: &Value, y: &Value) -> bool
    ensures { result ≡ same_value x.now y.now }
{
    match (x, y) {
        (Value::Int(i), Value::Int(j)) => i == j,
        (Value::Text(t), Value::Text(u)) => t.as_str() == u.as_str(),
        (Value::Other(j), Value::Other(k)) => j == k,
        _ => false,
    }
}

/// Whether the constant at a place has a value. A text is read only where it is compared with a text.
fn has_value(alloc: Global, words: &[u64], place: u32, value: &Value) -> Result<bool, Memory>
    requires formed { IsWellFormed words.now }
    requires term { IsTrue (is_place_of words.now class.Term place) }
    requires constant { IsConstant (term_at words.now place) }
    ensures { (v : World) → IfOk result (λ b. b ≡ same_value value.now (at v [] (term_at words.now place))) }
{
    match (word_at(words, place).kind, value) {
        (Kind::TextConstant, Value::Int(_) | Value::Other(_)) => return Ok(false),
        _ => (),
    }
    match term_at(alloc, words, place)? {
        Term::Value(own) => Ok(are_same(value, &own)),
        _ => unreachable!(),
    }
}

/// Whether the terms at two places have one value.
pub(crate) fn are_equal(
    alloc: Global,
    words: &[u64],
    a: u32,
    b: u32,
    valuation: &Valuation<'_>,
    reads: &mut Vec<Read>,
) -> Result<bool, Memory>
    requires formed { IsWellFormed words.now }
    requires first { IsTrue (is_place_of words.now class.Term a) }
    requires second { IsTrue (is_place_of words.now class.Term b) }
    requires valuation { IsValuation valuation.now }
    requires reads { AreRead words.now valuation.now.listed.now reads.old.items }
    ensures reads { AreRead words.now valuation.now.listed.now reads.new.items }
    ensures value { IfOk result (λ is. is ≡ same_value (at valuation.now.listed.now [] (term_at words.now a)) (at valuation.now.listed.now [] (term_at words.now b))) }
{
    let first = value_at(alloc, words, a, valuation, reads)?;
    let second = value_at(alloc, words, b, valuation, reads)?;
    match (first, second) {
        (Some(x), Some(y)) => Ok(are_same(x, y)),
        (Some(x), None) => has_value(alloc, words, b, x),
        (None, Some(y)) => has_value(alloc, words, a, y),
        // No two places stand for one constant.
        (None, None) => Ok(a == b),
    }
}
