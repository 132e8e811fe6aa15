// The step from what a statement sees to what is seen after its action.

ghost use Rattle.std.specs.Prelude.{◌≡◌, ◌<◌, ◌^◌, List, length, IfOk, IfErr, IsTrue};
ghost use Rattle.ct_word.specs.Change.{PlainChange};
ghost use Rattle.ct_word.specs.Condition.{holds_at};
ghost use Rattle.ct_word.specs.Reading.{condition_at};
ghost use Rattle.ct_word.specs.WellFormed.{IsWellFormed};
ghost use Rattle.ct_near.specs.Conjuncts.{AreConjuncts};
ghost use Rattle.ct_decide.specs.Decided.{DecisionNear};
ghost use Rattle.ct_query.specs.Bounds.{applying_words};
ghost use Rattle.ct_query.specs.Patterns.{count};
ghost use Rattle.ct_query.specs.Plain as plain;
ghost use Rattle.ct_query.specs.Views.{action_of};
ghost use Rattle.ct_condition.specs.Writes.{PassWrites};
ghost use Rattle.ct_keeper.specs.Effects.{FitsEffect};
ghost use Rattle.ct_statement.specs.Making.{is_full};
ghost use Rattle.ct_statement.specs.Narrowing.{CanNarrow, IsBoth, IsDecidable, IsEffectFor, IsKeptFor, IsUnkept, IsWorldFor, IsWorldless, asserted, unapplied, undecided};
ghost use Rattle.ct_statement.specs.Proposals.{IsProposal, IsStep};
ghost use Rattle.ct_statement.specs.Sight.{IsSight, actions_before, history_of};
ghost use Rattle.ct_statement.specs.Unmet.{IsUnmet, IsWant};

use crate::proposing::Proposal;
use crate::sight::Sight;
use ct_arena::{Arena, Pass, Site};
use ct_decide::{DecideError, Decision, decide, decide_near};
use ct_derivation::Proof;
use ct_history::{Written, last_change};
use ct_keeper::{Effect, effect_of};
use ct_near::{Conjuncts, conjuncts, repaired_near, run_beside};
use ct_table::TableError;
use ct_transcript::Refusal;
use ct_word::World;
use ct_worlds::holds_below;
use std::alloc::Global;

/// What an action does to what is seen: its effect on the tables or the global condition, and, where the kept world is
/// admitted no more, another one.
#[derive(Drop)]
pub struct Step {
    pub effect: Effect,
    pub kept: Option<World>,
}

/// The refusal of a question that is not decided.
fn undecided(e: DecideError) -> Refusal
    ensures { result ≡ undecided e }
{
    match e {
        DecideError::Memory => Refusal::Memory,
    }
}

/// Whether the condition at a place holds in some world, where the global condition, whose conjuncts are given, holds in the
/// kept one. Where the place leads to the global condition by ANDs, only the other conditions there are asked about, and those
/// conjuncts that have to do with them.
///
/// # Errors
/// `Memory` where there is none for a decision.
fn decided(
    alloc: Global,
    words: &[u64],
    global: u32,
    conjuncts: &Conjuncts,
    place: u32,
    kept: &World,
) -> Result<Decision, DecideError>
    requires formed { IsWellFormed words.now }
    requires few { length words.now < 2 ^ 28 }
    requires conjuncts { AreConjuncts words.now global conjuncts.now }
    requires decidable { IsDecidable words.now place }
    requires kept { IsTrue (holds_at kept.now (condition_at words.now global)) }
    ensures { IfOk result (λ d. DecisionNear words.now place kept.now d) }
{
    let Some(own) = run_beside(alloc, words, place, global)? else {
        return decide(alloc, words, place);
    };
    decide_near(alloc, words, place, global, conjuncts, own.as_slice(), kept)
}

/// The world of a decision about the condition at a place, which is kept in the place of another one.
///
/// # Errors
/// `Inconsistent` where the condition holds in no world, `Memory` where there is no decision.
fn world_of(
    words: &[u64],
    place: u32,
    kept: &World,
    decision: Result<Decision, DecideError>,
) -> Result<Option<World>, Refusal>
    requires formed { IsWellFormed words.now }
    requires decided { IfOk decision (λ d. DecisionNear words.now place kept.now d) }
    ensures ok { IfOk result (IsWorldFor words.now place kept.now) }
    ensures err { IfErr result (IsWorldless words.now place) }
{
    let _ = words;
    let _ = kept;
    match decision {
        Ok(Decision::World(world)) => Ok(Some(world)),
        Ok(Decision::Refuted(derivation)) => Err(Refusal::Inconsistent {
            proof: Proof {
                root: place,
                derivation,
            },
        }),
        Err(e) => Err(undecided(e)),
    }
}

/// A world in which both the global condition and an asserted one hold, whose And stands at a place, and which is kept
/// then; none where the kept world is such. The global condition holds in that one, so the asserted one alone is tried.
/// Where it is false there, the kept world is changed if that is enough: at the nulls of the asserted condition and of the
/// earlier ones that share nulls with it. The question is decided otherwise.
///
/// # Errors
/// `Inconsistent` where the conditions hold together in no world, `Memory`.
fn world_for(
    alloc: Global,
    words: &[u64],
    global: u32,
    own: u32,
    place: u32,
    kept: &World,
) -> Result<Option<World>, Refusal>
    requires formed { IsWellFormed words.now }
    requires few { length words.now < 2 ^ 28 }
    requires both { IsBoth words.now global own place }
    requires kept { IsTrue (holds_at kept.now (condition_at words.now global)) }
    ensures ok { IfOk result (IsWorldFor words.now place kept.now) }
    ensures err { IfErr result (IsWorldless words.now place) }
{
    if holds_below(alloc, words, own, kept)? {
        return Ok(None);
    }
    let conjuncts = conjuncts(alloc, words, global)?;
    if let Some(world) = repaired_near(alloc, words, &conjuncts, global, &[own], kept)? {
        return Ok(Some(world));
    }
    let decision = decided(alloc, words, global, &conjuncts, place, kept);
    world_of(words, place, kept, decision)
}

/// The condition that a change asserts, if it is an assertion.
fn asserted(change: &Written) -> Option<u32>
    ensures { result ≡ asserted change.now }
{
    match change {
        Written::Assert { cond } => Some(*cond),
        _ => None,
    }
}

/// Another world to be kept after the effect of a change; none where the kept world stays.
///
/// # Errors
/// After an effect that puts another condition in the place of the global one, as `world_for` says.
fn kept_for(
    alloc: Global,
    words: &[u64],
    global: u32,
    change: &Written,
    effect: &Effect,
    kept: &World,
) -> Result<Option<World>, Refusal>
    requires formed { IsWellFormed words.now }
    requires few { length words.now < 2 ^ 28 }
    requires narrows { CanNarrow words.now global change.now effect.now }
    requires kept { IsTrue (holds_at kept.now (condition_at words.now global)) }
    ensures ok { IfOk result (IsKeptFor words.now effect.now kept.now) }
    ensures err { IfErr result (IsUnkept words.now effect.now) }
{
    let Effect::Narrows(place) = effect else {
        return Ok(None);
    };
    let Some(own) = asserted(change) else {
        unreachable!()
    };
    match world_for(alloc, words, global, own, *place, kept) {
        Ok(other) => Ok(other),
        Err(why) => Err(why),
    }
}

/// The refusal where the log has no room or memory runs out.
fn unapplied(e: TableError) -> Refusal
    ensures { result ≡ unapplied e }
{
    match e {
        TableError::Full => Refusal::Full,
        TableError::Memory => Refusal::Memory,
    }
}

/// A proposed change, and its effect on what its statement sees. The pass has the words of it.
///
/// # Errors
/// `Full` only where the log has no room; `Memory`.
fn effect_for<N: Site>(
    alloc: Global,
    arena: &Arena<N>,
    pass: &mut Pass<N>,
    sight: &Sight,
    proposal: &Proposal,
) -> Result<(Written, Effect), Refusal>
    requires sight { IsSight pass.old.words sight.now }
    requires proposal { (list : List PlainChange) × IsProposal pass.old.words (history_of pass.old.words sight.now) (actions_before sight.now) list (action_of proposal.now.action) proposal.now.changes }
    ensures writes { PassWrites N.log.cap pass.old pass.new (applying_words (count (history_of pass.old.words sight.now) (actions_before sight.now)) (action_of proposal.now.action)) (is_full result) }
    ensures fits { IfOk result (λ p. FitsEffect sight.now.tables p.1) }
    ensures is { IfOk result (λ p. IsEffectFor pass.old.words pass.new.words sight.now (action_of proposal.now.action) p.0 p.1) }
    ensures err { IfErr result (IsWant N.log.cap pass.new.words) }
{
    let Some(change) = last_change(alloc, pass.words(), proposal.changes)? else {
        unreachable!()
    };
    match effect_of(alloc, arena, pass, sight.tables.db(), sight.global, &change) {
        Ok(effect) => Ok((change, effect)),
        Err(e) => Err(unapplied(e)),
    }
}

/// What a proposed change does to what its statement sees. The pass has the words of it.
///
/// # Errors
/// `Full` only where the log has no room. For an assertion, in each of its forms, `Inconsistent`, only where no admitted valuation satisfies it.
/// `Memory`.
pub fn step_of<N: Site>(
    alloc: Global,
    arena: &Arena<N>,
    pass: &mut Pass<N>,
    sight: &Sight,
    proposal: &Proposal,
) -> Result<Step, Refusal>
    requires sight { IsSight pass.old.words sight.now }
    requires proposal { (list : List PlainChange) × IsProposal pass.old.words (history_of pass.old.words sight.now) (actions_before sight.now) list (action_of proposal.now.action) proposal.now.changes }
    ensures writes { PassWrites N.log.cap pass.old pass.new (applying_words (count (history_of pass.old.words sight.now) (actions_before sight.now)) (action_of proposal.now.action)) (is_full result) }
    ensures step { IfOk result (IsStep pass.new.words sight.now (action_of proposal.now.action)) }
    ensures err { IfErr result (IsUnmet (history_of pass.old.words sight.now) (actions_before sight.now) N.log.cap pass.new.words (plain.Act (action_of proposal.now.action))) }
{
    let (change, effect) = match effect_for(alloc, arena, pass, sight, proposal) {
        Ok(applied) => applied,
        Err(why) => return Err(why),
    };
    let words = pass.words();
    match kept_for(alloc, words, sight.global, &change, &effect, &sight.kept) {
        Ok(kept) => Ok(Step { effect, kept }),
        Err(why) => Err(why),
    }
}
