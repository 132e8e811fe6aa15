// A statement of an open transaction that is no order.

ghost use Rattle.std.specs.Prelude.{◌≡◌, ◌+◌, false, IsSome, Some, IfSome, Ok};
ghost use Rattle.ct_condition.specs.Writes.{charge};
ghost use Rattle.ct_parse.specs.declared.tree.Statement.{Statement as StatementValue};
ghost use Rattle.ct_query.specs.Schema.{schema};
ghost use Rattle.ct_query.specs.Views.{statement_of};
ghost use Rattle.ct_resolve.specs.Statements.{resolved};
ghost use Rattle.ct_statement.specs.Making.{says_full};
ghost use Rattle.ct_statement.specs.Proposals.{listed};
ghost use Rattle.ct_statement.specs.Sight.{actions_before, history_of};
ghost use Rattle.ct_transaction.specs.Answers.{is_full};
ghost use Rattle.ct_transaction.specs.Bounded.{Makes};
ghost use Rattle.ct_transaction.specs.Executes.{Executes};
ghost use Rattle.ct_transaction.specs.Prepared.{IsNoOrder, IsPrepared, IsRefused, IsResolved};
ghost use Rattle.ct_transaction.specs.Sessions.{IsSession, state_of};
ghost use Rattle.ct_transaction.specs.Statements.{IsWritten};
ghost use Rattle.ct_transaction.specs.declared.preparing.Prepared.TheVariants as prepared;

use crate::extending::{after_action, after_query};
use crate::preparing::{Prepared, perform_within, resolved_at};
use crate::replying::{refusal, reply_of};
use crate::state::{Open, State};
use ct_arena::{Arena, Site};
use ct_parse::Statement;
use ct_query::{Read, Resolved, reads};
use ct_statement::{Answered, Proposal, Step, Workers};
use ct_transcript::{Refusal, Reply};
use ct_word::List;
use std::alloc::Global;
use std::thread::Threads;

/// The refusal of a statement. The transaction stays.
pub(crate) fn refused<N: Site>(
    mut session: State<N>,
    transaction: Open,
    why: Refusal,
) -> (State<N>, Reply)
    requires session { IsSession session.pass.words session.seen (Some transaction) }
    ensures pass { result.0.pass ≡ session.pass }
    ensures full { is_full result.1 ≡ says_full why }
    ensures session { IsSession result.0.pass.words result.0.seen result.0.transaction }
    ensures executes { (st : StatementValue) → IsRefused (history_of session.pass.words transaction.sight) (actions_before transaction.sight) N.log.cap session.pass.words session.pass.session session.fresh st why → Executes N.log.cap (state_of session.pass session.seen session.fresh (Some transaction)) (state_of result.0.pass result.0.seen result.0.fresh result.0.transaction) session.pass.words result.0.pass.words st result.1 }
{
    let _words = session.pass.words();
    let version = transaction.sight.version;
    session.transaction = Some(transaction);
    refusal(session, version, why)
}

/// The reply to a query that has read this, at the transaction's base and after its actions.
fn answer<N: Site>(
    mut session: State<N>,
    transaction: Open,
    answered: Answered,
    reads: List<Read>,
) -> (State<N>, Reply)
    requires session { IsSession session.pass.words session.seen (Some transaction) }
    ensures pass { result.0.pass ≡ session.pass }
    ensures room { is_full result.1 ≡ false }
    ensures session { IsSession result.0.pass.words result.0.seen result.0.transaction }
    ensures executes { (st : StatementValue) → IsPrepared session.pass.words (history_of session.pass.words transaction.sight) (actions_before transaction.sight) (listed session.pass.words transaction.changes) session.pass.session session.fresh transaction.sight st (prepared.Answer answered) reads → Executes N.log.cap (state_of session.pass session.seen session.fresh (Some transaction)) (state_of result.0.pass result.0.seen result.0.fresh result.0.transaction) session.pass.words result.0.pass.words st result.1 }
{
    let Ok(plus) = u32::try_from(transaction.sight.actions.len()) else {
        drop(answered);
        drop(reads);
        return refused(session, transaction, Refusal::Memory);
    };
    let _words = session.pass.words();
    let at = transaction.sight.version;
    match after_query(transaction, reads) {
        Ok(next) => {
            session.transaction = Some(next);
            (session.carrying(at), reply_of(at, plus, answered))
        }
        Err(same) => {
            drop(answered);
            refused(session, same, Refusal::Memory)
        }
    }
}

/// One more than a count, where it is a number of 32 bits.
fn one_more(count: usize) -> Option<u32>
    ensures { IfSome result (λ n. n ≡ count + 1) }
{
    let count = u32::try_from(count).ok()?;
    count.checked_add(1)
}

/// The reply to an action that has read this, which is kept until COMMIT.
fn change<N: Site>(
    alloc: Global,
    mut session: State<N>,
    transaction: Open,
    proposal: Proposal,
    step: Step,
    reads: List<Read>,
) -> (State<N>, Reply)
    requires session { IsSession session.pass.words session.seen (Some transaction) }
    requires prepared { (st : StatementValue) × IsPrepared session.pass.words (history_of session.pass.words transaction.sight) (actions_before transaction.sight) (listed session.pass.words transaction.changes) session.pass.session session.fresh transaction.sight st (prepared.Change proposal (Some step)) reads }
    ensures pass { result.0.pass ≡ session.pass }
    ensures room { is_full result.1 ≡ false }
    ensures session { IsSession result.0.pass.words result.0.seen result.0.transaction }
    ensures executes { (st : StatementValue) → IsPrepared session.pass.words (history_of session.pass.words transaction.sight) (actions_before transaction.sight) (listed session.pass.words transaction.changes) session.pass.session session.fresh transaction.sight st (prepared.Change proposal (Some step)) reads → Executes N.log.cap (state_of session.pass session.seen session.fresh (Some transaction)) (state_of result.0.pass result.0.seen result.0.fresh result.0.transaction) session.pass.words result.0.pass.words st result.1 }
{
    let Some(plus) = one_more(transaction.sight.actions.len()) else {
        drop(proposal);
        drop(step);
        drop(reads);
        return refused(session, transaction, Refusal::Memory);
    };
    let _words = session.pass.words();
    let at = transaction.sight.version;
    let Proposal {
        action,
        changes,
        fresh,
    } = proposal;
    match after_action(alloc, transaction, action, changes, step, reads) {
        Ok(next) => {
            session.fresh = fresh;
            session.transaction = Some(next);
            (session.carrying(at), Reply::Pending { at, plus })
        }
        Err(same) => refused(session, same, Refusal::Memory),
    }
}

/// The reply to a statement with positions for its names, at what it sees: its transaction has its reads from then on, and
/// an action's change.
fn performed<N: Site, R: Threads + Sync>(
    rt: &R,
    alloc: Global,
    arena: &Arena<N>,
    mut session: State<N>,
    transaction: Open,
    found: Resolved,
    workers: Workers,
) -> (State<N>, Reply)
    requires session { IsSession session.pass.words session.seen (Some transaction) }
    requires resolved { (st : StatementValue) × IsResolved (history_of session.pass.words transaction.sight) (actions_before transaction.sight) session.pass.session session.fresh st (statement_of found) }
    ensures session { IsSession result.0.pass.words result.0.seen result.0.transaction }
    ensures makes { (st : StatementValue) → resolved (schema (history_of session.pass.words transaction.sight) (actions_before transaction.sight)) session.pass.session session.fresh st ≡ Ok (statement_of found) → Makes (state_of session.pass session.seen session.fresh (Some transaction)) result.0.pass.words st session.pass.made (result.0.pass.made + charge (is_full result.1)) }
    ensures executes { (st : StatementValue) → resolved (schema (history_of session.pass.words transaction.sight) (actions_before transaction.sight)) session.pass.session session.fresh st ≡ Ok (statement_of found) → Executes N.log.cap (state_of session.pass session.seen session.fresh (Some transaction)) (state_of result.0.pass result.0.seen result.0.fresh result.0.transaction) session.pass.words result.0.pass.words st result.1 }
{
    let _before = session.pass.words();
    let Ok(reads) = reads(alloc, &found) else {
        drop(found);
        return refused(session, transaction, Refusal::Memory);
    };
    let (list, fresh) = (transaction.changes, session.fresh);
    let (pass, sight) = (&mut session.pass, &transaction.sight);
    let prepared = perform_within(rt, alloc, arena, pass, sight, list, fresh, found, workers);
    let _after = session.pass.words();
    match prepared {
        Ok(Prepared::Answer(answered)) => answer(session, transaction, answered, reads),
        Ok(Prepared::Change { proposal, step }) => {
            let Some(step) = step else { unreachable!() };
            change(alloc, session, transaction, proposal, step, reads)
        }
        Err(why) => {
            drop(reads);
            refused(session, transaction, why)
        }
    }
}

/// Executes a statement of an open transaction that is no BEGIN, COMMIT or ROLLBACK: it sees the base with the
/// transaction's own actions done. An action is kept until COMMIT.
pub(crate) fn within<N: Site, R: Threads + Sync>(
    rt: &R,
    alloc: Global,
    arena: &Arena<N>,
    mut session: State<N>,
    workers: Workers,
    statement: &Statement,
) -> (State<N>, Reply)
    requires session { IsSession session.pass.words session.seen session.transaction }
    requires some { IsSome session.transaction }
    requires written { IsWritten statement.now }
    requires plain { IsNoOrder statement.now }
    ensures session { IsSession result.0.pass.words result.0.seen result.0.transaction }
    ensures makes { Makes (state_of session.pass session.seen session.fresh session.transaction) result.0.pass.words statement.now session.pass.made (result.0.pass.made + charge (is_full result.1)) }
    ensures executes { Executes N.log.cap (state_of session.pass session.seen session.fresh session.transaction) (state_of result.0.pass result.0.seen result.0.fresh result.0.transaction) session.pass.words result.0.pass.words statement.now result.1 }
{
    let Some(transaction) = session.transaction.take() else {
        unreachable!()
    };
    let (pass, sight) = (&session.pass, &transaction.sight);
    match resolved_at(alloc, pass, sight, session.fresh, statement) {
        Ok(found) => performed(rt, alloc, arena, session, transaction, found, workers),
        Err(why) => refused(session, transaction, why),
    }
}
