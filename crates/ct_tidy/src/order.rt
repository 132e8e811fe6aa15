// Worlds in the order of their nulls.

ghost use Rattle.std.specs.Prelude.{◌≡◌, ◌<◌, [], ℕ, suc, drop, length, map, IfOk, IsPermutation, IsTrue, OnOk};
ghost use Rattle.std.specs.List.Sorted.{IsSortedBy};
ghost use Rattle.ct_word.specs.declared.values.Null.{Null};
ghost use Rattle.ct_word.specs.Value.{other_zero, same_value, value_of_null};
ghost use Rattle.ct_rewrite.specs.Tidy.{IsTidy, are_ascending, null_before};
ghost use Rattle.ct_tidy.specs.Order as spec;
ghost use Rattle.ct_tidy.specs.Order.{IsMapOf, are_up_to, ends_with, with_null};

use crate::mapped::{by_null, value_of};
use ct_rewrite::compare_nulls;
use ct_word::{List, Memory, Null, Value, World};
use indexmap::IndexMap;
use std::alloc::Global;

/// The nulls of a world in order, each as often as the world lists it.
fn nulls_in_order(alloc: Global, world: &World) -> Result<Vec<Null>, Memory>
    ensures all { IfOk result (λ ns. IsPermutation (map (λ p. p.0) world.now) ns.items) }
    ensures ordered { IfOk result (λ ns. IsSortedBy null_before ns.items) }
{
    let mut nulls = Vec::new(alloc);
    for pair in world.as_slice() {
        nulls.push(pair.0.clone()?)?;
    }
    nulls.sort_by(|m, n| compare_nulls(m, n))?;
    Ok(nulls)
}

/// Whether the last pair has a null.
fn ends_with(world: &[(Null, Value)], null: &Null) -> bool
    ensures { result ≡ ends_with world.now null.now }
{
    let count = world.len();
    if count == 0 {
        return false;
    }
    compare_nulls(&world[count - 1].0, null).is_eq()
}

/// Puts a pair last, after whose null none comes. A null that is there already keeps its value.
fn put(world: &mut Vec<(Null, Value)>, null: Null, value: Value) -> Result<(), Memory>
    requires ascending { IsTrue (are_ascending world.old.items) }
    requires last { IsTrue (are_up_to world.old.items null) }
    ensures { OnOk result (world.new.items ≡ spec.put world.old.items null value) }
{
    if ends_with(world.as_slice(), &null) {
        return Ok(());
    }
    world.push((null, value))?;
    Ok(())
}

/// Puts a null, after which none comes, in with the value that a world gives it, but for `@0`.
fn add(
    to: &mut Vec<(Null, Value)>,
    world: &World,
    values: &IndexMap<Null, Value>,
    null: &Null,
) -> Result<(), Memory>
    requires map { IsMapOf values.now.entries world.now }
    requires ascending { IsTrue (are_ascending to.old.items) }
    requires last { IsTrue (are_up_to to.old.items null.now) }
    ensures { OnOk result (to.new.items ≡ with_null world.now to.old.items null.now) }
{
    let value = value_of(world, values, null)?;
    match value {
        Value::Other(0) => Ok(()),
        _ => put(to, null.clone()?, value),
    }
}

/// Whether a value is `@0`.
fn is_zero(value: &Value) -> bool
    ensures { result ≡ same_value value.now other_zero }
{
    matches!(value, Value::Other(0))
}

/// Whether a pair has another value than `@0`, and a null that comes before that of the pair behind it.
fn is_in_place(world: &[(Null, Value)], at: usize) -> bool
    requires { at < length world.now }
    ensures { IsTrue result → IsTidy (drop (suc at) world.now) → IsTidy (drop at world.now) }
{
    let pair = &world[at];
    if is_zero(&pair.1) {
        return false;
    }
    if at + 1 == world.len() {
        return true;
    }
    compare_nulls(&pair.0, &world[at + 1].0).is_lt()
}

/// Whether a world has its nulls in order, and none with `@0`.
fn is_in_order(world: &[(Null, Value)]) -> bool
    ensures { IsTrue result → IsTidy world.now }
{
    let mut next = world.len();
    while next > 0 {
        if !is_in_place(world, next - 1) {
            return false;
        }
        next -= 1;
    }
    true
}

/// A copy of a world with its nulls in order, and without those that have `@0`.
fn put_in_order(alloc: Global, world: &World) -> Result<World, Memory>
    ensures same { (n : Null) → IfOk result (λ w. value_of_null w n ≡ value_of_null world.now n) }
    ensures tidy { IfOk result IsTidy }
{
    let values = by_null(alloc, world)?;
    let nulls = nulls_in_order(alloc, world)?;
    let mut out = Vec::new(alloc);
    for null in nulls.as_slice() {
        add(&mut out, world, &values, null)?;
    }
    Ok(List::from_vec(out))
}

/// The same world, with its pairs in the order of their nulls. Those of one null keep their order.
fn sorted(world: World) -> Result<World, Memory>
    ensures { (n : Null) → IfOk result (λ w. value_of_null w n ≡ value_of_null world n) }
{
    let mut pairs = world.into_vec();
    pairs.sort_by(|p, q| compare_nulls(&p.0, &q.0))?;
    Ok(List::from_vec(pairs))
}

/// The same world, with its nulls in order, and without those that have `@0`. Pairs are copied only where a null has two, or
/// one with `@0`. Where most are in order already, it takes as many comparisons as there are pairs.
///
/// # Errors
/// `Memory` where there is none to sort them.
pub fn tidy(alloc: Global, world: World) -> Result<World, Memory>
    ensures same { (n : Null) → IfOk result (λ w. value_of_null w n ≡ value_of_null world n) }
    ensures tidy { IfOk result IsTidy }
{
    if is_in_order(world.as_slice()) {
        return Ok(world);
    }
    let sorted = sorted(world)?;
    if is_in_order(sorted.as_slice()) {
        return Ok(sorted);
    }
    put_in_order(alloc, &sorted)
}
