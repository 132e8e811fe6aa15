// Which equalities a condition needs. It holds for no row on which the terms of one of them are different constants.

ghost use Rattle.std.specs.Prelude.{◌≡◌, ◌<◌, ℕ, false, All, IfOk, IfSome, IsTrue, OnOk};
ghost use Rattle.ct_word.specs.declared.kinds.Class.TheVariants as class;
ghost use Rattle.ct_word.specs.declared.connectives.Connective.TheVariants as connective;
ghost use Rattle.ct_word.specs.Value.{World};
ghost use Rattle.ct_word.specs.WellFormed.{IsWellFormed, is_place_of};
ghost use Rattle.ct_worlds.specs.Shape.{shape_at};
ghost use Rattle.ct_worlds.specs.declared.shape.Shape.TheVariants as shape;
ghost use Rattle.ct_operators.specs.Placing.{holds_for};
ghost use Rattle.ct_update.specs.Needing.{IsNeeded, NeedsPart, AreTerms};

use ct_condition::are_apart;
use ct_operators::cell_for;
use ct_word::Connective;
use ct_worlds::{Shape, shape_at};
use std::alloc::{AllocError, Global};

/// The two conditions that the And at a place names, if there is one.
fn and_at(words: &[u64], cond: u32) -> Option<(u32, u32)>
    requires { IsTrue (is_place_of words.now class.Cond cond) }
    ensures { IfSome result (λ p. shape_at words.now cond ≡ shape.Joined connective.And p.0 p.1) }
{
    match shape_at(words, cond) {
        Shape::Joined(Connective::And, left, right) => Some((left, right)),
        _ => None,
    }
}

/// Puts in the terms of a condition that is an equality.
fn add_equal(words: &[u64], cond: u32, pairs: &mut Vec<(u32, u32)>) -> Result<(), AllocError>
    requires formed { IsWellFormed words.now }
    requires cond { IsTrue (is_place_of words.now class.Cond cond) }
    ensures { (root : ℕ) → NeedsPart words.now root cond → All (IsNeeded words.now root) pairs.old.items → OnOk result (All (IsNeeded words.now root) pairs.new.items) }
{
    if let Shape::Equal(s, t) = shape_at(words, cond) {
        pairs.push((s, t))?;
    }
    Ok(())
}

/// Equalities that a condition needs, each as the places of its terms: the last parts of its Ands from the top on.
pub(crate) fn pairs_needed(
    alloc: Global,
    words: &[u64],
    cond: u32,
) -> Result<Vec<(u32, u32)>, AllocError>
    requires formed { IsWellFormed words.now }
    requires cond { IsTrue (is_place_of words.now class.Cond cond) }
    ensures { IfOk result (λ pairs. All (IsNeeded words.now cond) pairs.items) }
{
    let mut pairs = Vec::new(alloc);
    let mut part = cond;
    while let Some((left, right)) = and_at(words, part) {
        add_equal(words, right, &mut pairs)?;
        part = left;
    }
    add_equal(words, part, &mut pairs)?;
    Ok(pairs)
}

/// Whether the terms of a pair are different constants on a row. A condition that needs their equality holds nowhere then.
pub(crate) fn never_holds(words: &[u64], pairs: &[(u32, u32)], cells: &[u32]) -> bool
    requires formed { IsWellFormed words.now }
    requires pairs { All (AreTerms words.now) pairs.now }
    requires cells { All (λ p. IsTrue (is_place_of words.now class.Term p)) cells.now }
    ensures { (cond : ℕ) → All (IsNeeded words.now cond) pairs.now → IsTrue result → (v : World) → holds_for words.now cond cells.now v ≡ false }
{
    for number in 0..pairs.len() {
        let (s, t) = pairs[number];
        let left = cell_for(words, s, cells);
        let right = cell_for(words, t, cells);
        if are_apart(words, left, right) {
            return true;
        }
    }
    false
}
