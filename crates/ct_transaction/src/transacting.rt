// One statement of an open transaction.

ghost use Rattle.std.specs.Prelude.{◌+◌, ◌<◌, ◌^◌, IsSome};
ghost use Rattle.ct_condition.specs.Writes.{charge};
ghost use Rattle.ct_transaction.specs.Answers.{is_full};
ghost use Rattle.ct_transaction.specs.Bounded.{Makes};
ghost use Rattle.ct_transaction.specs.Executes.{Executes};
ghost use Rattle.ct_transaction.specs.Sessions.{IsSession, state_of};
ghost use Rattle.ct_transaction.specs.Statements.{IsWritten};

use crate::committing::commit;
use crate::orders::{refused_here, roll_back};
use crate::state::State;
use crate::within::within;
use ct_arena::Site;
use ct_keeper::Server;
use ct_parse::Statement;
use ct_statement::Workers;
use ct_transcript::{Refusal, Reply};
use std::alloc::Global;
use std::sync::Wait;
use std::thread::Threads;

/// Executes a statement of an open transaction, and gives the session after it and the reply. COMMIT waits for the server's
/// lock, and a query for its workers. The session has fewer than 2^18 commits, and the statement can be written as a text.
///
/// The reply is
/// - `Rows`, `Possible` or `Certain` for a query, at the transaction's base with its own actions;
/// - `Pending` for an action, which is kept until COMMIT;
/// - `Committed` or `Nothing` for COMMIT, and `RolledBack` for ROLLBACK;
/// - `Refused`, for a cause that holds: `InTransaction` for BEGIN; else a name or a count that does not fit, `TooLarge`,
///   `Full`, `Inconsistent`, `Conflict` or `Memory`.
///
/// A refusal leaves the transaction as it was, but for `Conflict`, which ends it.
pub fn transact<N: Site, R: Threads + Wait + Sync>(
    rt: &R,
    alloc: Global,
    server: &Server<N>,
    session: State<N>,
    workers: Workers,
    statement: &Statement,
) -> (State<N>, Reply)
    requires session { IsSession session.pass.words session.seen session.transaction }
    requires few { session.pass.mine < 2 ^ 18 }
    requires some { IsSome session.transaction }
    requires written { IsWritten statement.now }
    ensures session { IsSession result.0.pass.words result.0.seen result.0.transaction }
    ensures makes { Makes (state_of session.pass session.seen session.fresh session.transaction) result.0.pass.words statement.now session.pass.made (result.0.pass.made + charge (is_full result.1)) }
    ensures executes { Executes N.log.cap (state_of session.pass session.seen session.fresh session.transaction) (state_of result.0.pass result.0.seen result.0.fresh result.0.transaction) session.pass.words result.0.pass.words statement.now result.1 }
{
    match statement {
        Statement::Begin => refused_here(session, Refusal::InTransaction),
        Statement::Commit => commit(rt, alloc, server, session),
        Statement::Rollback => roll_back(session),
        _ => within(rt, alloc, server.arena(), session, workers, statement),
    }
}
