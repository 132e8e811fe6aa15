// What is seen after an action of a transaction.

ghost use Rattle.std.specs.Prelude.{◌≡◌, ◌<◌, ◌++◌, ◌∷◌, [], ℕ, List, Option, Some, None, IfOk, IfErr, MatchOption, MatchResult, option_map, vec_len, vec_capacity};
ghost use Rattle.std.specs.Arc.{arc_value};
ghost use Rattle.ct_query.specs.Views.{action_of};
ghost use Rattle.ct_keeper.specs.Effects.{FitsEffect, global_after, tables_after};
ghost use Rattle.ct_statement.specs.Proposals.{IsStep};
ghost use Rattle.ct_statement.specs.Sight.{IsSight, actions_before};

use crate::sight::Sight;
use crate::stepping::Step;
use ct_keeper::{Effect, Tables, grown};
use ct_query::Action;
use ct_word::{Memory, World};
use std::alloc::Global;
use std::sync::Arc;

/// What one more action takes of memory beside the tables: room in the list, and its world, where it has one, to be
/// shared.
///
/// # Errors
/// `Memory` where there is none for both.
fn provided(
    alloc: Global,
    actions: &mut Vec<Action>,
    world: Option<World>,
) -> Result<Option<Arc<World, Global>>, Memory>
    ensures items { actions.new.items ≡ actions.old.items }
    ensures room { IfOk result (λ other. vec_len actions.new < vec_capacity actions.new) }
    ensures world { IfOk result (λ other. option_map arc_value other ≡ world) }
{
    actions.reserve(1)?;
    match world {
        None => Ok(None),
        Some(world) => Ok(Some(Arc::new(alloc, world)?)),
    }
}

/// The tables and the place of the global condition after an effect.
///
/// # Errors
/// The tables as they were, where there is no memory.
fn reached(
    alloc: Global,
    tables: Tables,
    global: u32,
    effect: Effect,
) -> Result<(Tables, u32), Tables>
    requires fits { FitsEffect tables effect }
    ensures tables { MatchResult result (λ after. after.0 ≡ tables_after tables effect) (λ same. same ≡ tables) }
    ensures global { IfOk result (λ after. after.1 ≡ global_after global effect) }
{
    match effect {
        Effect::Narrows(place) => Ok((tables, place)),
        Effect::Grows(growth) => match grown(alloc, tables, growth) {
            Ok(tables) => Ok((tables, global)),
            Err(same) => Err(same),
        },
    }
}

/// What is seen after one more action, whose step this is.
///
/// # Errors
/// What was seen before, where there is no memory.
pub fn advance(alloc: Global, sight: Sight, action: Action, step: Step) -> Result<Sight, Sight>
    requires fits { FitsEffect sight.tables step.effect }
    ensures sight { (words : List ℕ) → IsSight words sight → IsStep words sight (action_of action) step → IfOk result (IsSight words) }
    ensures same { (words : List ℕ) → IsSight words sight → IfErr result (IsSight words) }
    ensures version { MatchResult result (λ next. next.version ≡ sight.version) (λ same. same.version ≡ sight.version) }
    ensures actions { MatchResult result (λ next. actions_before next ≡ actions_before sight ++ action_of action ∷ []) (λ same. actions_before same ≡ actions_before sight) }
{
    let mut sight = sight;
    let Step {
        effect,
        kept: other,
    } = step;
    let Ok(other) = provided(alloc, &mut sight.actions, other) else {
        drop(action);
        return Err(sight);
    };
    let Sight {
        version,
        mut actions,
        tables,
        global,
        kept,
    } = sight;
    match reached(alloc, tables, global, effect) {
        Ok((tables, global)) => {
            actions.push_reserved(action);
            let kept = other.unwrap_or(kept);
            Ok(Sight {
                version,
                actions,
                tables,
                global,
                kept,
            })
        }
        Err(tables) => {
            drop(action);
            Err(Sight {
                version,
                actions,
                tables,
                global,
                kept,
            })
        }
    }
}
