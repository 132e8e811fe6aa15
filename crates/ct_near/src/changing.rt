// Worlds near a known one, in which further conditions hold.

ghost use Rattle.std.specs.Prelude.{◌≡◌, ◌↔◌, ◌<◌, ◌^◌, ◌∷◌, ℕ, true, length, IfOk, IfSome, IsSome, IsTrue, Contains};
ghost use Rattle.ct_near.specs.Conjuncts.{AreConjuncts};
ghost use Rattle.ct_near.specs.Near.{FitsIn, HoldAll, IsJoinedNear, IsLaid, IsLaidOver, IsOldElsewhere, IsPastOthers, IsRepairedNear, IsScope};
ghost use Rattle.ct_word.specs.declared.kinds.Class.TheVariants as class;
ghost use Rattle.ct_word.specs.declared.values.Value.TheVariants as val;
ghost use Rattle.ct_word.specs.Condition.{holds_at};
ghost use Rattle.ct_word.specs.Reading.{condition_at};
ghost use Rattle.ct_word.specs.WellFormed.{IsWellFormed, is_place_of};

use crate::index::Conjuncts;
use crate::laying::{joined, split};
use crate::scope::{Scope, scope_of};
use ct_word::{Memory, Null, Value, World};
use ct_worlds::{all_hold, changed};
use std::alloc::Global;

/// A number after k for a value `@k` with k below 2^28.
fn number_after(value: &Value) -> u32
    ensures { (k : ℕ) → k < 2 ^ 28 → value.now ≡ val.Other k → k < result }
{
    match value {
        Value::Other(k) => k.saturating_add(1),
        Value::Int(_) | Value::Text(_) => 0,
    }
}

/// A number after each k below 2^28 for which the world has a value `@k`.
fn past_others(world: &World) -> u32
    ensures { IsPastOthers world.now result }
{
    let mut next = 0;
    for pair in world.as_slice() {
        next = next.max(number_after(&pair.1));
    }
    next
}

/// Pairs with other nulls than those of a scope, and then those of a world with these nulls. None where the conditions of the
/// scope don't hold in that world.
fn laid(
    alloc: Global,
    words: &[u64],
    scope: &Scope,
    rest: Vec<(Null, Value)>,
    made: &World,
) -> Result<Option<World>, Memory>
    requires formed { IsWellFormed words.now }
    requires scope { IsScope words.now scope.now }
    ensures laid { IfOk result (λ o. IfSome o (IsLaid words.now scope.now rest.items made.now)) }
    ensures fits { IfOk result (λ o. IsSome o ↔ HoldAll words.now scope.now made.now) }
{
    let conditions = scope.conditions.as_slice();
    let places = scope.places.as_slice();
    if !all_hold(alloc, words, conditions, places, &scope.nulls, made)? {
        return Ok(None);
    }
    let new = joined(rest, &scope.nulls, made)?;
    Ok(Some(new))
}

/// A world in which a known condition and further ones hold, made from one in which the known one does. Only the conjuncts
/// that share a null with the further ones, or with another such conjunct, are looked at, and only nulls below these and the
/// further ones get other values: all other pairs of the known world stay, in their order. Where that one gives no null twice,
/// this one gives none twice. As `repaired` it tries one choice.
///
/// # Errors
/// `Memory` where there is none for the world, the conjuncts, and what stands below the further conditions.
pub fn repaired_near(
    alloc: Global,
    words: &[u64],
    conjuncts: &Conjuncts,
    root: u32,
    own: &[u32],
    world: &World,
) -> Result<Option<World>, Memory>
    requires formed { IsWellFormed words.now }
    requires few { length words.now < 2 ^ 28 }
    requires conjuncts { AreConjuncts words.now root conjuncts.now }
    requires own { (p : ℕ) → Contains own.now p → is_place_of words.now class.Cond p ≡ true }
    requires known { IsTrue (holds_at world.now (condition_at words.now root)) }
    ensures near { IfOk result (λ o. IfSome o (IsRepairedNear words.now (root ∷ own.now) world.now)) }
    ensures elsewhere { IfOk result (λ o. IfSome o (IsOldElsewhere words.now root own.now world.now)) }
{
    let scope = scope_of(alloc, words, conjuncts, root, own)?;
    let (part, rest) = split(alloc, world, &scope.nulls)?;
    let next = past_others(world);
    let conditions = scope.conditions.as_slice();
    let places = scope.places.as_slice();
    let Some(made) = changed(alloc, words, conditions, places, &scope.nulls, &part, next)? else {
        return Ok(None);
    };
    laid(alloc, words, &scope, rest, &made)
}

/// A world in which a known condition and further ones hold: like the known world, but for the nulls below the further ones and
/// the conjuncts that share a null with them, or with another such conjunct, which get the found world's values, and have none
/// where it gives none. None exactly where one of the further conditions, or one of these conjuncts, does not hold in the found
/// world.
///
/// # Errors
/// `Memory` where there is none for the worlds, the conjuncts, and what stands below the further conditions.
pub fn joined_near(
    alloc: Global,
    words: &[u64],
    conjuncts: &Conjuncts,
    root: u32,
    own: &[u32],
    found: &World,
    world: &World,
) -> Result<Option<World>, Memory>
    requires formed { IsWellFormed words.now }
    requires few { length words.now < 2 ^ 28 }
    requires conjuncts { AreConjuncts words.now root conjuncts.now }
    requires own { (p : ℕ) → Contains own.now p → is_place_of words.now class.Cond p ≡ true }
    requires known { IsTrue (holds_at world.now (condition_at words.now root)) }
    ensures near { IfOk result (λ o. IfSome o (IsJoinedNear words.now (root ∷ own.now) found.now world.now)) }
    ensures laid { IfOk result (λ o. IfSome o (IsLaidOver words.now root own.now found.now world.now)) }
    ensures fits { IfOk result (λ o. IsSome o ↔ FitsIn words.now root own.now found.now) }
{
    let scope = scope_of(alloc, words, conjuncts, root, own)?;
    let (_, rest) = split(alloc, world, &scope.nulls)?;
    laid(alloc, words, &scope, rest, found)
}
