// Which equalities have to be true or false, so that conditions hold: a choice that keeps to the present truths where it can.

ghost use Rattle.std.specs.Prelude.{◌≡◌, ◌<◌, length, All, IfOk, IfSome};
ghost use Rattle.ct_word.specs.WellFormed.{IsWellFormed};
ghost use Rattle.ct_worlds.specs.Below.{AreBelow};
ghost use Rattle.ct_worlds.specs.Repaired.{IsWishAt, IsWishBelow};

use crate::holding::{KnownTruths, number_near, truth_with};
use crate::shape::{Shape, shape_at};
use ct_word::{Connective, Memory};
use std::alloc::Global;

/// An equality that has to be true, or false.
#[derive(Clone, Copy)]
pub(crate) struct Wish {
    pub(crate) left: u32,
    pub(crate) right: u32,
    pub(crate) is_equal: bool,
}

/// The number of the place of a condition, mostly one of the two before this number; past the last one where it is not there.
fn number_of(places: &[u32], number: usize, place: u32) -> usize {
    if let Some(near) = number_near(places, number, place) {
        return near;
    }
    match places.binary_search(&place) {
        Ok(number) => number,
        Err(_) => places.len(),
    }
}

/// The truth that the condition with a number has to have, if one is noted.
fn noted(wanted: &[Option<bool>], number: usize) -> Option<bool> {
    match wanted.get(number) {
        Some(truth) => *truth,
        None => None,
    }
}

/// Notes the truth that the condition with a number has to have, unless one is noted.
fn want(wanted: &mut Vec<Option<bool>>, number: usize, truth: bool) {
    if let Some(noted) = wanted.get_mut(number) {
        if noted.is_none() {
            *noted = Some(truth);
        }
    }
}

/// Which of two conditions, by their numbers, is to have a truth: one that has to have it, else one that has it, else one that
/// may still get it.
fn choice(
    known: &[bool],
    wanted: &[Option<bool>],
    first: usize,
    second: usize,
    truth: bool,
) -> usize {
    match (noted(wanted, first), noted(wanted, second)) {
        (Some(noted), None) => { if noted == truth { first } else { second } }
        (None, None) => {
            if truth_with(known, first) != truth && truth_with(known, second) == truth {
                second
            } else {
                first
            }
        }
        (None, Some(noted)) => { if noted == truth { second } else { first } }
        (Some(_), Some(_)) => first,
    }
}

/// Notes which truths the parts of the condition at a place, which has this number, have to have, and returns the wish where it
/// is an equality.
fn wish_at(
    words: &[u64],
    place: u32,
    number: usize,
    truths: &KnownTruths<'_>,
    wanted: &mut Vec<Option<bool>>,
) -> Option<Wish>
    requires { place < length words.now }
    ensures { IfSome result (IsWishAt words.now place) }
{
    let truth = noted(wanted.as_slice(), number)?;
    match shape_at(words, place) {
        Shape::Literal(_) => (),
        Shape::Equal(left, right) => {
            return Some(Wish {
                left,
                right,
                is_equal: truth,
            });
        }
        Shape::Not(part) => want(wanted, number_of(truths.places, number, part), !truth),
        Shape::Joined(connective, left, right) => {
            let first = number_of(truths.places, number, left);
            let second = number_of(truths.places, number, right);
            if needs_both(connective, truth) {
                want(wanted, first, truth);
                want(wanted, second, truth);
            } else {
                let part = choice(
                    truths.known.as_slice(),
                    wanted.as_slice(),
                    first,
                    second,
                    truth,
                );
                want(wanted, part, truth);
            }
        }
    }
    None
}

/// Whether both parts have to have the truth of the whole.
fn needs_both(connective: Connective, truth: bool) -> bool {
    match connective {
        Connective::And => truth,
        Connective::Or => !truth,
    }
}

/// So many conditions of which no truth is noted.
fn none_wanted(alloc: Global, count: usize) -> Result<Vec<Option<bool>>, Memory> {
    let mut wanted = Vec::with_capacity(alloc, count)?;
    for _ in 0..count {
        wanted.push(None)?;
    }
    Ok(wanted)
}

/// Notes, of the conditions at some places, that these have to be true.
fn want_all(
    alloc: Global,
    conditions: &[u32],
    places: &[u32],
) -> Result<Vec<Option<bool>>, Memory> {
    let mut wanted = none_wanted(alloc, places.len())?;
    for condition in conditions {
        want(
            &mut wanted,
            number_of(places, places.len(), *condition),
            true,
        );
    }
    Ok(wanted)
}

/// The equalities that have to be true or false so that conditions hold, by what has these truths at present.
pub(crate) fn wishes(
    alloc: Global,
    words: &[u64],
    conditions: &[u32],
    places: &[u32],
    truths: &KnownTruths<'_>,
) -> Result<Vec<Wish>, Memory>
    requires formed { IsWellFormed words.now }
    requires places { AreBelow words.now conditions.now places.now }
    ensures { IfOk result (λ ws. All (IsWishBelow words.now conditions.now) ws.items) }
{
    let mut wanted = want_all(alloc, conditions, places)?;
    let mut wishes = Vec::new(alloc);
    let mut next = places.len();
    while next > 0 {
        next -= 1;
        if let Some(wish) = wish_at(words, places[next], next, truths, &mut wanted) {
            wishes.push(wish)?;
        }
    }
    Ok(wishes)
}
