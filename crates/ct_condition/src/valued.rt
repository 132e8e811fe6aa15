// The truth of a condition in a world.

ghost use Rattle.std.specs.Prelude.{◌≡◌, ◌≤◌, ◌<◌, ◌^◌, [], IfOk, IsTrue, length, map, Some, slice_get};
ghost use Rattle.ct_word.specs.declared.kinds.Class.TheVariants as class;
ghost use Rattle.ct_word.specs.declared.kinds.Kind.TheVariants as kind;
ghost use Rattle.ct_word.specs.Condition.{holds_at};
ghost use Rattle.ct_word.specs.Reading.{condition_at, meanings, term_at};
ghost use Rattle.ct_word.specs.Value.{World, at, other_zero, same_value};
ghost use Rattle.ct_word.specs.WellFormed.{IsWellFormed, is_place_of};
ghost use Rattle.ct_condition.specs.Nulls.{AreNulls};
ghost use Rattle.ct_condition.specs.Worth.{AreWorths, HaveWorths, IsConstant, IsTermAt, IsWorth, is_true, is_true_at, number_in, pair_in, term_by, text_by, truth_by};

use crate::nulls::{Nulls, fresh, longer, named, nulls_of};
use crate::one_world::Worths;
use crate::worlds::{are_same, value_with};
use ct_word::{Class, Kind, Memory, Null, Term, Value, Word, World, class, term_at, word_at};
use std::alloc::Global;

/// What a place is worth in a world.
#[derive(Drop)]
pub(crate) enum Worth {
    /// A text: this beginning of a name of the world.
    Text(usize),
    /// A constant: the value that its own place stands for.
    Constant,
    /// A null or a column: the value of the pair with this number, and `@0` past the last pair.
    Pair(usize),
    /// A condition: whether it holds.
    Truth(bool),
    /// A text with which no name begins, or something else.
    Nothing,
}

/// Whether the condition at a place holds.
fn holds(worths: &[Worth], place: u32) -> bool
    ensures { result ≡ is_true_at (slice_get worths.now place) }
{
    match worths.get(place as usize) {
        Some(Worth::Truth(truth)) => *truth,
        _ => false,
    }
}

/// The number of the text at a place, if a name of the world begins with it.
fn number_at(worths: &[Worth], place: u32) -> Option<usize>
    ensures { result ≡ number_in (slice_get worths.now place) }
{
    match worths.get(place as usize) {
        Some(Worth::Text(number)) => Some(*number),
        _ => None,
    }
}

/// What a word of a text is worth.
fn text_worth(nulls: &Nulls, kind: Kind, worths: &[Worth], a: u32, b: u32) -> Worth
    ensures { result ≡ text_by nulls.now.steps.keys kind worths.now a b }
{
    match kind {
        Kind::TextCharacter => {
            let Some(number) = number_at(worths, a) else {
                return Worth::Nothing;
            };
            match longer(nulls, number, b) {
                Some(number) => Worth::Text(number),
                None => Worth::Nothing,
            }
        }
        _ => Worth::Text(0),
    }
}

/// What a word of a term is worth.
fn term_worth(
    nulls: &Nulls,
    world: &[(Null, Value)],
    kind: Kind,
    worths: &[Worth],
    a: u32,
    b: u32,
) -> Worth
    ensures { result ≡ term_by nulls.now.pairs.entries world.now kind worths.now a b }
{
    let number = match kind {
        Kind::NamedNull => match number_at(worths, a) {
            Some(name) => named(nulls, name),
            None => None,
        },
        Kind::FreshNull => fresh(nulls, a, b),
        Kind::Column => None,
        _ => return Worth::Constant,
    };
    Worth::Pair(number.unwrap_or(world.len()))
}

/// Whether the constant at a place has a value. A text is read only where it is compared with a text.
fn has_value(alloc: Global, words: &[u64], place: u32, value: &Value) -> Result<bool, Memory>
    requires formed { IsWellFormed words.now }
    requires term { IsTrue (is_place_of words.now class.Term place) }
    requires constant { IsConstant (term_at words.now place) }
    ensures { (v : World) → IfOk result (λ b. b ≡ same_value value.now (at v [] (term_at words.now place))) }
{
    match (word_at(words, place).kind, value) {
        (Kind::TextConstant, Value::Int(_) | Value::Other(_)) => return Ok(false),
        _ => (),
    }
    match term_at(alloc, words, place)? {
        Term::Value(own) => Ok(are_same(value, &own)),
        _ => unreachable!(),
    }
}

/// The number of the pair whose value the term at a place has; none for a constant.
fn pair_at(worths: &[Worth], place: u32) -> Option<usize>
    ensures { result ≡ pair_in (slice_get worths.now place) }
{
    match worths.get(place as usize) {
        Some(Worth::Pair(number)) => Some(*number),
        _ => None,
    }
}

/// Whether the term at a place has a value.
fn is_worth(
    alloc: Global,
    words: &[u64],
    world: &[(Null, Value)],
    zero: &Value,
    worths: &[Worth],
    place: u32,
    value: &Value,
) -> Result<bool, Memory>
    requires formed { IsWellFormed words.now }
    requires zero { zero.now ≡ other_zero }
    requires term { IsTermAt words.now world.now worths.now place }
    ensures { IfOk result (λ b. b ≡ same_value value.now (at world.now [] (term_at words.now place))) }
{
    match pair_at(worths, place) {
        Some(number) => Ok(are_same(value, value_with(world, zero, number))),
        None => has_value(alloc, words, place, value),
    }
}

/// Whether a constant and a term have one value, by their places.
fn is_constant_equal(
    alloc: Global,
    words: &[u64],
    world: &[(Null, Value)],
    zero: &Value,
    worths: &[Worth],
    constant: u32,
    place: u32,
) -> Result<bool, Memory>
    requires formed { IsWellFormed words.now }
    requires zero { zero.now ≡ other_zero }
    requires constant { IsConstant (term_at words.now constant) }
    requires first { IsTermAt words.now world.now worths.now constant }
    requires second { IsTermAt words.now world.now worths.now place }
    ensures { IfOk result (λ b. b ≡ same_value (at world.now [] (term_at words.now constant)) (at world.now [] (term_at words.now place))) }
{
    match pair_at(worths, place) {
        Some(number) => has_value(alloc, words, constant, value_with(world, zero, number)),
        // No two places stand for one constant.
        None => Ok(constant == place),
    }
}

/// Whether the terms at two places have one value.
fn are_equal(
    alloc: Global,
    words: &[u64],
    world: &[(Null, Value)],
    zero: &Value,
    worths: &[Worth],
    a: u32,
    b: u32,
) -> Result<bool, Memory>
    requires formed { IsWellFormed words.now }
    requires zero { zero.now ≡ other_zero }
    requires first { IsTermAt words.now world.now worths.now a }
    requires second { IsTermAt words.now world.now worths.now b }
    ensures { IfOk result (λ is. is ≡ same_value (at world.now [] (term_at words.now a)) (at world.now [] (term_at words.now b))) }
{
    match pair_at(worths, a) {
        Some(number) => {
            let value = value_with(world, zero, number);
            is_worth(alloc, words, world, zero, worths, b, value)
        }
        None => is_constant_equal(alloc, words, world, zero, worths, a, b),
    }
}

/// The truth of a word of a condition, by what the places in its fields are worth.
fn truth(
    alloc: Global,
    words: &[u64],
    world: &[(Null, Value)],
    zero: &Value,
    worths: &[Worth],
    word: Word,
) -> Result<bool, Memory>
    requires formed { IsWellFormed words.now }
    requires zero { zero.now ≡ other_zero }
    requires first { word.kind ≡ kind.Equal → IsTermAt words.now world.now worths.now word.left }
    requires second { word.kind ≡ kind.Equal → IsTermAt words.now world.now worths.now word.right }
    ensures { IfOk result (λ b. b ≡ truth_by words.now world.now word.kind worths.now word.left word.right) }
{
    let (a, b) = (word.left, word.right);
    match word.kind {
        Kind::True => Ok(true),
        Kind::Equal => are_equal(alloc, words, world, zero, worths, a, b),
        Kind::Not => Ok(!holds(worths, a)),
        Kind::And => Ok(holds(worths, a) && holds(worths, b)),
        Kind::Or => Ok(holds(worths, a) || holds(worths, b)),
        _ => Ok(false),
    }
}

/// What a place is worth, by what the earlier ones are.
fn worth_at(
    alloc: Global,
    words: &[u64],
    place: u32,
    world: &[(Null, Value)],
    nulls: &Nulls,
    zero: &Value,
    worths: &[Worth],
) -> Result<Worth, Memory>
    requires formed { IsWellFormed words.now }
    requires within { place < length words.now }
    requires nulls { AreNulls nulls.now.steps.keys nulls.now.pairs.entries 0 world.now }
    requires zero { zero.now ≡ other_zero }
    requires earlier { length worths.now ≡ place }
    requires worths { HaveWorths words.now nulls.now.steps.keys world.now worths.now }
    ensures { IfOk result (IsWorth nulls.now.steps.keys world.now (slice_get (meanings words.now) place)) }
{
    let word = word_at(words, place);
    let kind = word.kind;
    match class(kind) {
        Class::Text => Ok(text_worth(nulls, kind, worths, word.left, word.right)),
        Class::Term => Ok(term_worth(nulls, world, kind, worths, word.left, word.right)),
        Class::Cond => {
            let truth = truth(alloc, words, world, zero, worths, word)?;
            Ok(Worth::Truth(truth))
        }
        _ => Ok(Worth::Nothing),
    }
}

/// What the first places are worth.
fn first_worths(
    alloc: Global,
    words: &[u64],
    count: u32,
    world: &[(Null, Value)],
    nulls: &Nulls,
    zero: &Value,
) -> Result<Vec<Worth>, Memory>
    requires formed { IsWellFormed words.now }
    requires within { count ≤ length words.now }
    requires zero { zero.now ≡ other_zero }
    requires nulls { AreNulls nulls.now.steps.keys nulls.now.pairs.entries 0 world.now }
    ensures count { IfOk result (λ out. length out.items ≡ count) }
    ensures worths { IfOk result (λ out. HaveWorths words.now nulls.now.steps.keys world.now out.items) }
{
    let mut worths = Vec::with_capacity(alloc, count as usize)?;
    for earlier in 0..count {
        let worth = worth_at(alloc, words, earlier, world, nulls, zero, worths.as_slice())?;
        worths.push_reserved(worth);
    }
    Ok(worths)
}

/// Whether this is the truth true.
fn is_true(worth: &Worth) -> bool
    ensures { result ≡ is_true worth.now }
{
    matches!(worth, Worth::Truth(true))
}

/// Whether each of these is the truth true.
fn truths(alloc: Global, worths: &[Worth]) -> Result<Vec<bool>, Memory>
    ensures { IfOk result (λ out. out.items ≡ map is_true worths.now) }
{
    let mut truths = Vec::with_capacity(alloc, worths.len())?;
    for worth in worths {
        truths.push_reserved(is_true(worth));
    }
    Ok(truths)
}

/// Whether the condition at a place holds in a world, where a column is worth `@0`. It goes over the pairs of the world and
/// over the words up to the place once. `worths` answers for all places in one pass.
///
/// # Errors
/// `Memory` where there is none for what the places are worth.
pub fn value_at(alloc: Global, words: &[u64], place: u32, world: &World) -> Result<bool, Memory>
    requires formed { IsWellFormed words.now }
    requires condition { IsTrue (is_place_of words.now class.Cond place) }
    ensures { IfOk result (λ b. b ≡ holds_at world.now (condition_at words.now place)) }
{
    let pairs = world.as_slice();
    let nulls = nulls_of(alloc, world)?;
    let zero = Value::Other(0);
    let worths = first_worths(alloc, words, place, pairs, &nulls, &zero)?;
    let worth = worth_at(alloc, words, place, pairs, &nulls, &zero, worths.as_slice())?;
    Ok(is_true(&worth))
}

/// Which places of conditions hold in a world, where a column is worth `@0`. It goes over the pairs of the world and over
/// the words once, and keeps of each place only whether it holds.
///
/// # Errors
/// `Memory` where there is none for what the places are worth.
pub fn worths(alloc: Global, words: &[u64], world: &World) -> Result<Worths, Memory>
    requires formed { IsWellFormed words.now }
    requires small { length words.now < 2 ^ 32 }
    ensures { IfOk result (λ all. AreWorths words.now world.now all) }
{
    let nulls = nulls_of(alloc, world)?;
    let zero = Value::Other(0);
    let count = words.len() as u32;
    let all = first_worths(alloc, words, count, world.as_slice(), &nulls, &zero)?;
    let truths = truths(alloc, all.as_slice())?;
    Ok(Worths::from_list(truths))
}
