// COMMIT of an open transaction.

ghost use Rattle.std.specs.Prelude.{◌≡◌, ◌+◌, ◌<◌, ◌^◌, IsSome, Some};
ghost use Rattle.ct_parse.specs.declared.tree.Statement.TheVariants as tree;
ghost use Rattle.ct_condition.specs.Writes.{charge};
ghost use Rattle.ct_transaction.specs.Answers.{is_full};
ghost use Rattle.ct_transaction.specs.Bounded.{Makes};
ghost use Rattle.ct_transaction.specs.Executes.{Executes};
ghost use Rattle.ct_transaction.specs.Outcomes.{open_after, outcome_reply, outcome_version};
ghost use Rattle.ct_transaction.specs.Sessions.{IsSession, state_of};

use crate::state::{Open, State};
use crate::within::refused;
use ct_arena::Site;
use ct_keeper::{KeeperError, Offer, Outcome, Server};
use ct_transcript::{Refusal, Reply};
use std::alloc::Global;
use std::sync::{Arc, Wait};

/// The reply to an offer with this base, and the version that it carries. A refusal since memory ran out rests on no
/// version, and stands at the one that was seen before.
pub fn replied(seen: u32, base: u32, outcome: Result<Outcome, KeeperError>) -> (u32, Reply)
    ensures version { result.0 ≡ outcome_version seen base outcome }
    ensures reply { result.1 ≡ outcome_reply seen base outcome }
{
    match outcome {
        Ok(Outcome::Committed(at)) => (at, Reply::Committed { at }),
        Ok(Outcome::Nothing) => (base, Reply::Nothing { at: base }),
        Ok(
            Outcome::Conflict {
                table,
                was,
                now,
                at,
            },
        ) => {
            let why = Refusal::Conflict {
                table,
                was,
                now,
                at,
            };
            (at, Reply::Refused { at, why })
        }
        Err(KeeperError::Full) => {
            let why = Refusal::Full;
            (base, Reply::Refused { at: base, why })
        }
        Err(KeeperError::Memory) => {
            let why = Refusal::Memory;
            (seen, Reply::Refused { at: seen, why })
        }
    }
}

/// The transaction after its offer: it stays where something is wanting.
fn open_after(outcome: &Result<Outcome, KeeperError>, transaction: Open) -> Option<Open>
    ensures { result ≡ open_after transaction outcome.now }
{
    match outcome {
        Err(_) => Some(transaction),
        Ok(_) => {
            drop(transaction);
            None
        }
    }
}

/// COMMIT of the open transaction, whose change list stands at this place: it is offered to the server. Where something
/// is wanting, the transaction stays.
fn offered<N: Site, R: Wait>(
    rt: &R,
    alloc: Global,
    server: &Server<N>,
    mut session: State<N>,
    transaction: Open,
    changes: u32,
) -> (State<N>, Reply)
    requires session { IsSession session.pass.words session.seen (Some transaction) }
    requires few { session.pass.mine < 2 ^ 18 }
    requires begun { transaction.changes ≡ Some changes }
    ensures session { IsSession result.0.pass.words result.0.seen result.0.transaction }
    ensures makes { Makes (state_of session.pass session.seen session.fresh (Some transaction)) result.0.pass.words tree.Commit session.pass.made (result.0.pass.made + charge (is_full result.1)) }
    ensures executes { Executes N.log.cap (state_of session.pass session.seen session.fresh (Some transaction)) (state_of result.0.pass result.0.seen result.0.fresh result.0.transaction) session.pass.words result.0.pass.words tree.Commit result.1 }
{
    let _words = session.pass.words();
    let Ok(kept) = Arc::try_clone(&transaction.sight.kept) else {
        return refused(session, transaction, Refusal::Memory);
    };
    let Open {
        sight,
        changes: list,
        reads,
    } = transaction;
    let base = sight.version;
    let offer = Offer {
        base,
        reads,
        changes,
        kept: Some(kept),
    };
    let (pass, outcome) = server.commit(rt, alloc, session.pass, &offer);
    session.pass = pass;
    let _now = session.pass.words();
    let Offer { reads, .. } = offer;
    let transaction = Open {
        sight,
        changes: list,
        reads,
    };
    let left = open_after(&outcome, transaction);
    session.transaction = left;
    let (at, reply) = replied(session.seen, base, outcome);
    (session.carrying(at), reply)
}

/// COMMIT of the open transaction. One without actions commits nothing.
pub(crate) fn commit<N: Site, R: Wait>(
    rt: &R,
    alloc: Global,
    server: &Server<N>,
    mut session: State<N>,
) -> (State<N>, Reply)
    requires session { IsSession session.pass.words session.seen session.transaction }
    requires few { session.pass.mine < 2 ^ 18 }
    requires some { IsSome session.transaction }
    ensures session { IsSession result.0.pass.words result.0.seen result.0.transaction }
    ensures makes { Makes (state_of session.pass session.seen session.fresh session.transaction) result.0.pass.words tree.Commit session.pass.made (result.0.pass.made + charge (is_full result.1)) }
    ensures executes { Executes N.log.cap (state_of session.pass session.seen session.fresh session.transaction) (state_of result.0.pass result.0.seen result.0.fresh result.0.transaction) session.pass.words result.0.pass.words tree.Commit result.1 }
{
    let _words = session.pass.words();
    let Some(transaction) = session.transaction.take() else {
        unreachable!()
    };
    match transaction.changes {
        None => {
            let at = transaction.sight.version;
            drop(transaction);
            (session.carrying(at), Reply::Nothing { at })
        }
        Some(changes) => offered(rt, alloc, server, session, transaction, changes),
    }
}
