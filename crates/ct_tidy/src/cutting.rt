// Copies of worlds, also cut to some nulls.

ghost use Rattle.std.specs.Prelude.{◌≡◌, ◌||◌, IfOk};
ghost use Rattle.ct_tidy.specs.Nulls.{cut_to, has_null};

use ct_word::{List, Memory, Null, World};
use indexmap::IndexSet;
use std::alloc::{AllocError, Global};

/// A world once more.
///
/// # Errors
/// Where there is no memory for it.
pub fn copied(world: &World) -> Result<World, AllocError>
    ensures { IfOk result (λ w. w ≡ world.now) }
{
    world.clone()
}

/// Whether a null is among some or others.
fn is_kept(null: &Null, some: &IndexSet<Null>, others: &IndexSet<Null>) -> bool
    ensures { result ≡ (has_null some.now.keys null.now || has_null others.now.keys null.now) }
{
    some.contains(null) || others.contains(null)
}

/// The pairs of a world whose nulls are among some or others.
///
/// # Errors
/// `Memory` where there is none for them.
pub fn cut(
    alloc: Global,
    world: &World,
    some: &IndexSet<Null>,
    others: &IndexSet<Null>,
) -> Result<World, Memory>
    ensures { IfOk result (λ part. part ≡ cut_to some.now.keys others.now.keys world.now) }
{
    let mut pairs = Vec::new(alloc);
    for pair in world.as_slice() {
        if is_kept(&pair.0, some, others) {
            pairs.push(pair.clone()?)?;
        }
    }
    Ok(List::from_vec(pairs))
}
