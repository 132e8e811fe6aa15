// Worlds that get the values of others for some nulls.

ghost use Rattle.std.specs.Prelude.{◌≡◌, ◌++◌, IfOk};
ghost use Rattle.ct_near.specs.Near.{rest_of};
ghost use Rattle.ct_worlds.specs.Nulls.{part_of};

use ct_word::{List, Memory, Null, Value, World};
use ct_worlds::Nulls;
use std::alloc::Global;

/// The pairs of a world with these nulls, and those with others.
pub(crate) fn split(
    alloc: Global,
    world: &World,
    nulls: &Nulls,
) -> Result<(World, Vec<(Null, Value)>), Memory>
    ensures part { IfOk result (λ s. s.0 ≡ part_of nulls.now.listed.keys world.now) }
    ensures rest { IfOk result (λ s. s.1.items ≡ rest_of nulls.now.listed.keys world.now) }
{
    let pairs = world.as_slice();
    let mut part = Vec::new(alloc);
    let mut rest = Vec::with_capacity(alloc, pairs.len().saturating_add(nulls.count()))?;
    for pair in pairs {
        if nulls.has(&pair.0) {
            part.push(pair.clone()?)?;
        } else {
            rest.push(pair.clone()?)?;
        }
    }
    Ok((List::from_vec(part), rest))
}

/// Pairs with other nulls, and then those of a world with these nulls.
pub(crate) fn joined(
    rest: Vec<(Null, Value)>,
    nulls: &Nulls,
    world: &World,
) -> Result<World, Memory>
    ensures { IfOk result (λ w. w ≡ rest.items ++ part_of nulls.now.listed.keys world.now) }
{
    let mut pairs = rest;
    for pair in world.as_slice() {
        if nulls.has(&pair.0) {
            pairs.push(pair.clone()?)?;
        }
    }
    Ok(List::from_vec(pairs))
}
