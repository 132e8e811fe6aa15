// The truth of conditions in a world.

ghost use Rattle.std.specs.Prelude.{◌≡◌, ◌<◌, ℕ, length, slice_index_or, false, IfOk, IfSome, IsTrue};
ghost use Rattle.ct_word.specs.declared.kinds.Class.TheVariants as class;
ghost use Rattle.ct_word.specs.Condition.{holds_at};
ghost use Rattle.ct_word.specs.Connective.{join};
ghost use Rattle.ct_word.specs.Reading.{condition_at};
ghost use Rattle.ct_word.specs.WellFormed.{IsWellFormed, is_place_of};
ghost use Rattle.ct_worlds.specs.Nulls.{AreNullsBelow};
ghost use Rattle.ct_worlds.specs.Truths.{AreRising, ArePartsFirst, HaveTruths, found_in};
ghost use Rattle.ct_worlds.specs.Shape.{parts_at};
ghost use Rattle.ct_worlds.specs.Valuation.{AreRead, IsValuation};

use crate::gathering::below;
use crate::nulls::{Nulls, nulls_below, part_of};
use crate::reads::{Read, no_reads};
use crate::shape::{Shape, shape_at};
use crate::valuation::{Valuation, are_equal, valuation_of};
use ct_word::{Connective, Memory, World};
use std::alloc::Global;

/// The truths of the conditions at the first of some places, which rise.
#[derive(Drop)]
pub(crate) struct KnownTruths<'a> {
    pub(crate) places: &'a [u32],
    pub(crate) known: Vec<bool>,
}

/// The truth of the condition whose place has a number; false past the last one.
pub(crate) fn truth_with(known: &[bool], number: usize) -> bool
    ensures { result ≡ slice_index_or known.now number false }
{
    if number < known.len() {
        return known[number];
    }
    false
}

/// The number of a place if it is one of the two before this number, as the parts of a condition mostly are.
pub(crate) fn number_near(places: &[u32], number: usize, place: u32) -> Option<usize>
    ensures { IfSome result (λ k. (k < length places.now) × (slice_index_or places.now k 0 ≡ place)) }
{
    if number > 0 && number <= places.len() && places[number - 1] == place {
        return Some(number - 1);
    }
    if number > 1 && number <= places.len() && places[number - 2] == place {
        return Some(number - 2);
    }
    None
}

/// Whether the condition at a place holds, by the truths that are kept. It takes a logarithm of steps at most.
pub(crate) fn holds(truths: &KnownTruths<'_>, place: u32) -> bool
    requires rising { AreRising truths.now.places.now }
    ensures { result ≡ found_in truths.now place }
{
    if let Some(near) = number_near(truths.places, truths.known.len(), place) {
        return truth_with(truths.known.as_slice(), near);
    }
    match truths.places.binary_search(&place) {
        Ok(number) => truth_with(truths.known.as_slice(), number),
        Err(_) => false,
    }
}

/// Two truths under a connective.
fn join(connective: Connective, a: bool, b: bool) -> bool
    ensures { result ≡ join connective a b }
{
    match connective {
        Connective::And => a && b,
        Connective::Or => a || b,
    }
}

/// Whether the condition at a place holds, by the truths of its parts.
fn truth(
    alloc: Global,
    words: &[u64],
    place: u32,
    valuation: &Valuation<'_>,
    truths: &KnownTruths<'_>,
    reads: &mut Vec<Read>,
) -> Result<bool, Memory>
    requires formed { IsWellFormed words.now }
    requires condition { IsTrue (is_place_of words.now class.Cond place) }
    requires valuation { IsValuation valuation.now }
    requires rising { AreRising truths.now.places.now }
    requires parts { HaveTruths words.now valuation.now.listed.now (parts_at words.now place) (found_in truths.now) }
    requires reads { AreRead words.now valuation.now.listed.now reads.old.items }
    ensures reads { AreRead words.now valuation.now.listed.now reads.new.items }
    ensures truth { IfOk result (λ b. b ≡ holds_at valuation.now.listed.now (condition_at words.now place)) }
{
    match shape_at(words, place) {
        Shape::Literal(truth) => Ok(truth),
        Shape::Equal(a, b) => are_equal(alloc, words, a, b, valuation, reads),
        Shape::Not(part) => Ok(!holds(truths, part)),
        Shape::Joined(connective, a, b) => {
            Ok(join(connective, holds(truths, a), holds(truths, b)))
        }
    }
}

/// Whether each of these conditions holds, whose parts come before it.
fn truths<'a>(
    alloc: Global,
    words: &[u64],
    places: &'a [u32],
    valuation: &Valuation<'_>,
) -> Result<KnownTruths<'a>, Memory>
    requires formed { IsWellFormed words.now }
    requires places { ArePartsFirst words.now places.now }
    requires valuation { IsValuation valuation.now }
    ensures truths { IfOk result (λ all. HaveTruths words.now valuation.now.listed.now places.now (found_in all)) }
    ensures rising { IfOk result (λ all. AreRising all.places.now) }
{
    let known = Vec::with_capacity(alloc, places.len())?;
    let mut reads = no_reads(alloc, places.len())?;
    let mut truths = KnownTruths { places, known };
    for place in places {
        let truth = truth(alloc, words, *place, valuation, &truths, &mut reads)?;
        truths.known.push(truth)?;
    }
    Ok(truths)
}

/// The truths of conditions, each after its parts, in a world, of which the pairs with nulls below them are looked at alone.
pub(crate) fn truths_in<'a>(
    alloc: Global,
    words: &[u64],
    places: &'a [u32],
    nulls: &Nulls,
    world: &World,
) -> Result<KnownTruths<'a>, Memory>
    requires formed { IsWellFormed words.now }
    requires places { ArePartsFirst words.now places.now }
    requires nulls { AreNullsBelow words.now places.now nulls.now }
    ensures truths { IfOk result (λ all. HaveTruths words.now world.now places.now (found_in all)) }
    ensures rising { IfOk result (λ all. AreRising all.places.now) }
{
    let part = part_of(alloc, world, nulls)?;
    let valuation = valuation_of(alloc, &part)?;
    let all = truths(alloc, words, places, &valuation)?;
    Ok(all)
}

/// Whether the condition at a place holds in a world, where a column is worth `@0`. It goes over the pairs of the world, and
/// over what stands below the place.
///
/// # Errors
/// `Memory` where there is none for what stands below the place, and the pairs of its nulls.
pub fn holds_below(alloc: Global, words: &[u64], place: u32, world: &World) -> Result<bool, Memory>
    requires formed { IsWellFormed words.now }
    requires condition { IsTrue (is_place_of words.now class.Cond place) }
    ensures { IfOk result (λ b. b ≡ holds_at world.now (condition_at words.now place)) }
{
    let below = below(alloc, words, &[place])?;
    let places = below.as_slice();
    let nulls = nulls_below(alloc, words, places)?;
    let truths = truths_in(alloc, words, places, &nulls, world)?;
    Ok(holds(&truths, place))
}
