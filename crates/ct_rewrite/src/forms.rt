// Where conditions of a log stand in a node list, each with the signs that are wanted of it.

ghost use Rattle.std.specs.Prelude.{◌≡◌, ℕ, ◌<◌, ◌≤◌, ◌+◌, ◌*◌, ◌^◌, [], length, IfOk, IsTrue};
ghost use Rattle.std.specs.List.{AllByRecursion};
ghost use Rattle.ct_word.specs.declared.kinds.Class.TheVariants as class;
ghost use Rattle.ct_word.specs.WellFormed.{IsWellFormed, is_place_of};
ghost use Rattle.ct_word.specs.Reading.{term_at};
ghost use Rattle.ct_word.specs.Condition.{Same};
ghost use Rattle.ct_worlds.specs.Truths.{AreRising};
ghost use Rattle.ct_rewrite.specs.Nodes.{node_condition};
ghost use Rattle.ct_rewrite.specs.Building.{Grows, Says, signed};
ghost use Rattle.ct_rewrite.specs.Below.{has, HasAt, IsClosedFrom};
ghost use Rattle.ct_rewrite.specs.Signs.{IsFormAt, is_number, named_at};
ghost use Rattle.ct_rewrite.specs.Sizes.{Fits};

use crate::builder::Builder;
use crate::numbering::{connective_for, is_plus, signed};
use crate::positions::Positions;
use ct_word::{Memory, term_at};
use ct_worlds::{Shape, shape_at};
use std::alloc::Global;

/// The position of the equality of the terms at two places, or for minus of its denial.
fn equal_at(
    alloc: Global,
    builder: &mut Builder,
    words: &[u64],
    left: u32,
    right: u32,
    sign: bool,
) -> Result<u32, Memory>
    requires formed { IsWellFormed words.now }
    requires left { IsTrue (is_place_of words.now class.Term left) }
    requires right { IsTrue (is_place_of words.now class.Term right) }
    requires room { length builder.old < 2 ^ 32 }
    ensures grows { Grows builder.old builder.new }
    ensures count { length builder.new ≤ length builder.old + 1 }
    ensures says { IfOk result (λ k. Says builder.new k (signed sign (Same (term_at words.now left) (term_at words.now right)))) }
    ensures fits { IfOk result (λ k. Fits (node_condition builder.new k) (Same (term_at words.now left) (term_at words.now right))) }
{
    let s = term_at(alloc, words, left)?;
    let t = term_at(alloc, words, right)?;
    builder.equal(s, t, sign)
}

/// The position of the condition of a number, over those of the numbers that it names.
fn form_at(
    alloc: Global,
    builder: &mut Builder,
    words: &[u64],
    number: u32,
    forms: &Positions<'_>,
) -> Result<u32, Memory>
    requires formed { IsWellFormed words.now }
    requires condition { IsTrue (is_number words.now number) }
    requires parts { AllByRecursion (HasAt (IsFormAt words.now builder.old) forms.now) (named_at words.now number) }
    requires room { length builder.old < 2 ^ 32 }
    ensures grows { Grows builder.old builder.new }
    ensures count { length builder.new ≤ length builder.old + 1 }
    ensures form { IfOk result (IsFormAt words.now builder.new number) }
{
    let sign = is_plus(number);
    match shape_at(words, number / 2) {
        Shape::Literal(truth) => builder.literal(if sign { truth } else { !truth }),
        Shape::Equal(left, right) => equal_at(alloc, builder, words, left, right, sign),
        Shape::Not(part) => Ok(forms.at(signed(part, !sign))),
        Shape::Joined(connective, left, right) => {
            let left = forms.at(signed(left, sign));
            let right = forms.at(signed(right, sign));
            builder.joined(alloc, connective_for(connective, sign), left, right)
        }
    }
}

/// The positions of the conditions of these numbers, the lowest one first.
pub fn forms<'a>(
    alloc: Global,
    builder: &mut Builder,
    words: &[u64],
    numbers: &'a [u32],
) -> Result<Positions<'a>, Memory>
    requires formed { IsWellFormed words.now }
    requires short { length words.now < 2 ^ 28 }
    requires conditions { (k : ℕ) → IsTrue (has numbers.now k) → IsTrue (is_number words.now k) }
    requires closed { IsClosedFrom (named_at words.now) 0 (has numbers.now) }
    requires rising { AreRising numbers.now }
    requires empty { builder.old ≡ [] }
    ensures room { length builder.new ≤ 2 * length words.now }
    ensures forms { IfOk result (λ fs. (k : ℕ) → IsTrue (has numbers.now k) → HasAt (IsFormAt words.now builder.new) fs k) }
{
    let mut forms = Positions::new(alloc, numbers);
    for number in numbers {
        let form = form_at(alloc, builder, words, *number, &forms)?;
        forms.push(form)?;
    }
    Ok(forms)
}
