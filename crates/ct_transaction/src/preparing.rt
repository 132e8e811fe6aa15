// What a statement asks for, at what it sees.

ghost use Rattle.std.specs.Prelude.{◌≡◌, ◌≤◌, ◌+◌, ℕ, Bool, true, false, List, Option, None, IfOk, IfErr, IfSome, IsTrue};
ghost use mathlib.Core.List.{IsPrefix};
ghost use Rattle.ct_word.specs.declared.kinds.Class.TheVariants as class;
ghost use Rattle.ct_word.specs.Change.{PlainChange};
ghost use Rattle.ct_word.specs.WellFormed.{is_place_of};
ghost use Rattle.ct_condition.specs.Writes.{charge, kept_of};
ghost use Rattle.ct_query.specs.Patterns.{count};
ghost use Rattle.ct_query.specs.Plain as plain;
ghost use Rattle.ct_query.specs.Views.{action_of, query_of, statement_of};
ghost use Rattle.ct_statement.specs.Making.{is_full, says_full};
ghost use Rattle.ct_statement.specs.Proposals.{IsProposal};
ghost use Rattle.ct_statement.specs.Sight.{IsSight, actions_before, history_of};
ghost use Rattle.ct_statement.specs.Sources.{is_assertion};
ghost use Rattle.ct_statement.specs.Unmet.{IsUnmet};
ghost use Rattle.ct_transaction.specs.Bounded.{step_words};
ghost use Rattle.ct_transaction.specs.Prepared.{IsNoOrder, IsPerformable, IsRefused, IsResolved, IsStepIf, Prepares, name_refusal, needs_step};
ghost use Rattle.ct_transaction.specs.Statements.{IsWritten};
ghost use Rattle.ct_transaction.specs.declared.preparing.Prepared.TheVariants as prepared;

use ct_arena::{Arena, Pass, Site};
use ct_parse::Statement;
use ct_query::{Action, Ask, Query, Resolved};
use ct_resolve::{ResolveError, resolve};
use ct_statement::{Answered, Proposal, Sight, Step, Workers, answer_to, propose, step_of};
use ct_transcript::Refusal;
use ct_word::{List, Text};
use std::alloc::Global;
use std::thread::Threads;

/// What a statement asks for, ready to be given: an action as it is proposed, with the step to what is seen after it where
/// that is needed, or the answer to a query.
#[derive(Drop)]
pub enum Prepared {
    Change {
        proposal: Proposal,
        step: Option<Step>,
    },
    Answer(Answered),
}

/// The refusal of a name or a count that does not fit.
fn named(e: ResolveError) -> Refusal
    ensures { result ≡ name_refusal e }
{
    match e {
        ResolveError::UnknownTable => Refusal::UnknownTable,
        ResolveError::TableExists => Refusal::TableExists,
        ResolveError::UnknownColumn => Refusal::UnknownColumn,
        ResolveError::AmbiguousColumn => Refusal::AmbiguousColumn,
        ResolveError::DuplicateName => Refusal::DuplicateName,
        ResolveError::ColumnCount => Refusal::ColumnCount,
        ResolveError::Memory => Refusal::Memory,
    }
}

/// Whether an action is an assertion.
fn is_assertion(action: &Action) -> bool
    ensures { result ≡ is_assertion (action_of action.now) }
{
    match action {
        Action::Assert { .. } => true,
        Action::AssertQuery { .. } => true,
        Action::AssertKey { .. } => true,
        _ => false,
    }
}

/// The step of a proposed action that is an assertion. The pass has the words of it.
///
/// # Errors
/// As `step_of` has them.
fn step_of_assertion<N: Site>(
    alloc: Global,
    arena: &Arena<N>,
    pass: &mut Pass<N>,
    sight: &Sight,
    proposal: &Proposal,
) -> Result<Option<Step>, Refusal>
    requires sight { IsSight pass.old.words sight.now }
    requires proposal { (list : List PlainChange) × IsProposal pass.old.words (history_of pass.old.words sight.now) (actions_before sight.now) list (action_of proposal.now.action) proposal.now.changes }
    ensures longer { IsPrefix pass.old.words pass.new.words }
    ensures kept { kept_of pass.new ≡ kept_of pass.old }
    ensures made { pass.new.made + charge (is_full result) ≤ pass.old.made + step_words false (count (history_of pass.old.words sight.now) (actions_before sight.now)) (action_of proposal.now.action) }
    ensures step { IfOk result (IsStepIf pass.new.words sight.now (action_of proposal.now.action)) }
    ensures needs { IfOk result (λ step. needs_step false (prepared.Change proposal.now step)) }
    ensures err { IfErr result (IsUnmet (history_of pass.old.words sight.now) (actions_before sight.now) N.log.cap pass.new.words (plain.Act (action_of proposal.now.action))) }
{
    if !is_assertion(&proposal.action) {
        return Ok(None);
    }
    match step_of(alloc, arena, pass, sight, proposal) {
        Ok(step) => Ok(Some(step)),
        Err(why) => Err(why),
    }
}

/// An action of a transaction, as it is proposed behind the changes of the list at this place, where there is one, with its
/// step. The pass has the words of it.
///
/// # Errors
/// As `propose` and `step_of` have them.
fn change_within<N: Site>(
    alloc: Global,
    arena: &Arena<N>,
    pass: &mut Pass<N>,
    sight: &Sight,
    list: Option<u32>,
    fresh: u32,
    action: Action,
) -> Result<Prepared, Refusal>
    requires list { IfSome list (λ place. IsTrue (is_place_of pass.old.words class.ChangeList place)) }
    requires asks { IsPerformable pass.old.words sight.now (plain.Act (action_of action)) }
    ensures { Prepares true N.log.cap pass.old pass.new sight.now list fresh (plain.Act (action_of action)) result }
{
    let proposal = match propose(alloc, arena, pass, sight, list, fresh, action) {
        Ok(proposal) => proposal,
        Err(why) => return Err(why),
    };
    // The words are well formed, which keeps what is seen as words are added.
    let _ = pass.words();
    let step = step_of(alloc, arena, pass, sight, &proposal);
    match step {
        Ok(step) => Ok(Prepared::Change {
            proposal,
            step: Some(step),
        }),
        Err(why) => {
            drop(proposal);
            Err(why)
        }
    }
}

/// An action outside a transaction, as it is proposed in a list of its own, with its step where it is an assertion. The pass
/// has the words of it.
///
/// # Errors
/// As `propose` and `step_of` have them.
fn change_alone<N: Site>(
    alloc: Global,
    arena: &Arena<N>,
    pass: &mut Pass<N>,
    sight: &Sight,
    fresh: u32,
    action: Action,
) -> Result<Prepared, Refusal>
    requires asks { IsPerformable pass.old.words sight.now (plain.Act (action_of action)) }
    ensures { Prepares false N.log.cap pass.old pass.new sight.now None fresh (plain.Act (action_of action)) result }
{
    let proposal = match propose(alloc, arena, pass, sight, None, fresh, action) {
        Ok(proposal) => proposal,
        Err(why) => return Err(why),
    };
    // The words are well formed, which keeps what is seen as words are added.
    let _ = pass.words();
    let step = step_of_assertion(alloc, arena, pass, sight, &proposal);
    match step {
        Ok(step) => Ok(Prepared::Change { proposal, step }),
        Err(why) => {
            drop(proposal);
            Err(why)
        }
    }
}

/// The answer to a query. The pass has the words of it. So many workers decide its questions, each on a
/// thread of its own where one can be made.
///
/// # Errors
/// One of `TooLarge`, `Full` and `Memory`, only where its cause holds.
fn answered<N: Site, R: Threads + Sync>(
    rt: &R,
    alloc: Global,
    arena: &Arena<N>,
    pass: &mut Pass<N>,
    sight: &Sight,
    ask: Ask,
    columns: List<Text>,
    query: Query,
    workers: Workers,
) -> Result<Prepared, Refusal>
    requires asks { IsPerformable pass.old.words sight.now (plain.Asks ask columns (query_of query)) }
    ensures { (inside : Bool) (list : Option ℕ) (fresh : ℕ) → Prepares inside N.log.cap pass.old pass.new sight.now list fresh (plain.Asks ask columns (query_of query)) result }
{
    let answered = answer_to(rt, alloc, arena, pass, sight, ask, columns, &query, workers);
    drop(query);
    match answered {
        Ok(answered) => Ok(Prepared::Answer(answered)),
        Err(why) => Err(why),
    }
}

/// What a statement of a transaction asks for, once it has positions; it is no BEGIN, COMMIT or ROLLBACK. The pass has the words
/// of it. An action's change comes behind those of the list at this place, where there is one, and its step is made. So many
/// workers decide the questions of a query.
///
/// # Errors
/// One of `TooLarge`, `Full`, `Inconsistent` and `Memory`, only where its cause holds.
#[tactic(auto, using(crate::proofs::Resolving::not_begin, crate::proofs::Resolving::not_commit, crate::proofs::Resolving::not_rollback))]
pub(crate) fn perform_within<N: Site, R: Threads + Sync>(
    rt: &R,
    alloc: Global,
    arena: &Arena<N>,
    pass: &mut Pass<N>,
    sight: &Sight,
    list: Option<u32>,
    fresh: u32,
    resolved: Resolved,
    workers: Workers,
) -> Result<Prepared, Refusal>
    requires list { IfSome list (λ place. IsTrue (is_place_of pass.old.words class.ChangeList place)) }
    requires asks { IsPerformable pass.old.words sight.now (statement_of resolved) }
    ensures { Prepares true N.log.cap pass.old pass.new sight.now list fresh (statement_of resolved) result }
{
    match resolved {
        Resolved::Act(action) => change_within(alloc, arena, pass, sight, list, fresh, action),
        Resolved::Ask {
            ask,
            columns,
            query,
        } => answered(rt, alloc, arena, pass, sight, ask, columns, query, workers),
        Resolved::Begin => unreachable!(),
        Resolved::Commit => unreachable!(),
        Resolved::Rollback => unreachable!(),
    }
}

/// What a statement outside a transaction asks for, once it has positions; it is no BEGIN, COMMIT or ROLLBACK. The pass has the
/// words of it. An action's change is in a list of its own, and the step of an assertion is made. So many workers decide the
/// questions of a query.
///
/// # Errors
/// One of `TooLarge`, `Full`, `Inconsistent` and `Memory`, only where its cause holds.
#[tactic(auto, using(crate::proofs::Resolving::not_begin, crate::proofs::Resolving::not_commit, crate::proofs::Resolving::not_rollback))]
pub fn perform_alone<N: Site, R: Threads + Sync>(
    rt: &R,
    alloc: Global,
    arena: &Arena<N>,
    pass: &mut Pass<N>,
    sight: &Sight,
    fresh: u32,
    resolved: Resolved,
    workers: Workers,
) -> Result<Prepared, Refusal>
    requires asks { IsPerformable pass.old.words sight.now (statement_of resolved) }
    ensures { Prepares false N.log.cap pass.old pass.new sight.now None fresh (statement_of resolved) result }
{
    match resolved {
        Resolved::Act(action) => change_alone(alloc, arena, pass, sight, fresh, action),
        Resolved::Ask {
            ask,
            columns,
            query,
        } => answered(rt, alloc, arena, pass, sight, ask, columns, query, workers),
        Resolved::Begin => unreachable!(),
        Resolved::Commit => unreachable!(),
        Resolved::Rollback => unreachable!(),
    }
}

/// A statement with positions for its names, at what it sees; it is no BEGIN, COMMIT or ROLLBACK.
///
/// # Errors
/// The first fault of its names and counts; `Memory`.
pub fn resolved_at<N: Site>(
    alloc: Global,
    pass: &Pass<N>,
    sight: &Sight,
    fresh: u32,
    statement: &Statement,
) -> Result<Resolved, Refusal>
    requires sight { IsSight pass.now.words sight.now }
    requires written { IsWritten statement.now }
    requires plain { IsNoOrder statement.now }
    ensures ok { IfOk result (λ r. IsResolved (history_of pass.now.words sight.now) (actions_before sight.now) pass.now.session fresh statement.now (statement_of r)) }
    ensures room { IfErr result (λ why. says_full why ≡ false) }
    ensures err { IfErr result (IsRefused (history_of pass.now.words sight.now) (actions_before sight.now) N.log.cap pass.now.words pass.now.session fresh statement.now) }
{
    let session = pass.session();
    match resolve(alloc, sight.tables.db(), session, fresh, statement) {
        Ok(resolved) => Ok(resolved),
        Err(e) => Err(named(e)),
    }
}
