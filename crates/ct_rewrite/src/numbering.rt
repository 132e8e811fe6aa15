// The conditions of a log, each for plus, as it stands, and for minus, denied.

ghost use Rattle.std.specs.Prelude.{◌≡◌, ◌+◌, ◌*◌, ◌<◌, ◌^◌, map, nat_lt, true, IfOk, IsTrue};
ghost use Rattle.std.specs.List.{list_all};
ghost use Rattle.ct_rewrite.specs.Signs.{number, is_plus, connective_for};

use crate::below::{Graph, add};
use ct_word::{Connective, Memory};
use ct_worlds::{Shape, shape_at};
use std::alloc::Global;
use std::collections::BTreeSet;

/// The number of the condition at a place, or for minus of its denial: twice its place, or one more,
/// as solvers number literals.
pub fn signed(place: u32, sign: bool) -> u32
    requires { 2 * place + 1 < 2 ^ 32 }
    ensures { result ≡ number place sign }
{
    if sign { 2 * place } else { 2 * place + 1 }
}

/// The numbers of the conditions at these places.
pub fn numbers(alloc: Global, places: &[u32]) -> Result<Vec<u32>, Memory>
    requires { IsTrue (list_all (λ p. nat_lt p (2 ^ 28)) places.now) }
    ensures { IfOk result (λ ns. ns.items ≡ map (λ p. number p true) places.now) }
{
    let mut numbers = Vec::new(alloc);
    for place in places {
        numbers.push(signed(*place, true))?;
    }
    Ok(numbers)
}

/// Whether a number is that of a condition, and not of its denial.
pub fn is_plus(number: u32) -> bool
    ensures { result ≡ is_plus number }
{
    number % 2 == 0
}

/// The connective of a condition's parts, or for minus of the denials of its parts.
pub fn connective_for(connective: Connective, sign: bool) -> Connective
    ensures { result ≡ connective_for sign connective }
{
    if sign { connective } else { connective.dual() }
}

/// The conditions of a log and their denials, by their numbers. A condition names its parts, and its
/// denial the denials of these; that of NOT is the other way round.
#[derive(Drop)]
pub struct Conditions<'a> {
    pub words: &'a [u64],
}

impl Graph for Conditions<'_> {
    ghost use Rattle.ct_rewrite.specs.Signs.{is_number, named_at};

    ghost is_in = { λ g. is_number g.words.now };

    ghost parts = { λ g. named_at g.words.now };

    fn add_parts(&self, number: u32, numbers: &mut BTreeSet<u32>) -> Result<(), Memory> {
        let sign = is_plus(number);
        match shape_at(self.words, number / 2) {
            Shape::Not(part) => add(numbers, &[signed(part, !sign)]),
            Shape::Joined(_, left, right) => {
                add(numbers, &[signed(left, sign), signed(right, sign)])
            }
            _ => Ok(()),
        }
    }
}
