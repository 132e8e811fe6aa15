// Copies of decisions, which are what they copy.

ghost use Rattle.std.specs.Prelude.{◌≡◌, IfOk};

use ct_decide::Decision;
use ct_derivation::{Derivation, Step, Why};
use ct_word::{List, Memory, World};
use std::alloc::{AllocError, Global};

fn copied_why(why: &Why) -> Result<Why, AllocError>
    ensures { IfOk result (λ w. w ≡ why.now) }
{
    Ok(match why {
        Why::Root => Why::Root,
        Why::Def(place, k) => Why::Def(*place, *k),
        Why::Path(places) => Why::Path(places.clone()?),
        Why::Rup(hints) => Why::Rup(hints.clone()?),
    })
}

fn copied_step(step: &Step) -> Result<Step, AllocError>
    ensures { IfOk result (λ s. s ≡ step.now) }
{
    let clause = step.clause.clone()?;
    let why = copied_why(&step.why)?;
    Ok(Step { clause, why })
}

fn copied_derivation(alloc: Global, derivation: &Derivation) -> Result<Derivation, Memory>
    ensures { IfOk result (λ d. d ≡ derivation.now) }
{
    let mut steps = Vec::new(alloc);
    for step in derivation.steps.as_slice() {
        steps.push(copied_step(step)?)?;
    }
    Ok(Derivation {
        steps: List::from_vec(steps),
    })
}

pub fn copied_world(world: &World) -> Result<World, AllocError>
    ensures { IfOk result (λ w. w ≡ world.now) }
{
    world.clone()
}

/// A decision once more.
pub fn copied(alloc: Global, decision: &Decision) -> Result<Decision, Memory>
    ensures { IfOk result (λ d. d ≡ decision.now) }
{
    match decision {
        Decision::World(world) => {
            let world = copied_world(world)?;
            Ok(Decision::World(world))
        }
        Decision::Refuted(derivation) => {
            let derivation = copied_derivation(alloc, derivation)?;
            Ok(Decision::Refuted(derivation))
        }
    }
}
