// One statement of a session.

ghost use Rattle.std.specs.Prelude.{◌≡◌, ◌+◌, ◌<◌, ◌^◌, true, IsNone};
ghost use Rattle.ct_condition.specs.Writes.{charge};
ghost use Rattle.ct_transaction.specs.Answers.{Answers, is_full, is_unasked};
ghost use Rattle.ct_transaction.specs.Bounded.{IsBounded, Makes};
ghost use Rattle.ct_transaction.specs.Executes.{Executes};
ghost use Rattle.ct_transaction.specs.Prepared.{IsNoOrder};
ghost use Rattle.ct_transaction.specs.Sessions.{IsSession, state_of};
ghost use Rattle.ct_transaction.specs.Statements.{IsWritten};
ghost use Rattle.ct_session.specs.Known.{IsKnown};

use crate::alone::alone;
use crate::inserting::insert;
use crate::knowing::Known;
use crate::reading::read;
use ct_arena::Site;
use ct_keeper::Server;
use ct_parse::Statement;
use ct_statement::Workers;
use ct_transaction::{State, begin, refused_here, transact};
use ct_transcript::{Refusal, Reply};
use std::alloc::Global;
use std::sync::Wait;
use std::thread::Threads;

/// Executes a statement, in a transaction or outside. What is known is let go, but for an insertion outside.
fn placed<N: Site, R: Threads + Wait + Sync>(
    rt: &R,
    alloc: Global,
    server: &Server<N>,
    session: State<N>,
    known: &mut Known,
    workers: Workers,
    statement: &Statement,
) -> (State<N>, Reply)
    requires session { IsSession session.pass.words session.seen session.transaction }
    requires few { session.pass.mine < 2 ^ 18 }
    requires known { IsKnown session.pass.words known.old }
    requires written { IsWritten statement.now }
    ensures session { IsSession result.0.pass.words result.0.seen result.0.transaction }
    ensures known { IsKnown result.0.pass.words known.new }
    ensures makes { Makes (state_of session.pass session.seen session.fresh session.transaction) result.0.pass.words statement.now session.pass.made (result.0.pass.made + charge (is_full result.1)) }
    ensures unasked { IsNone session.transaction → IsNoOrder statement.now → is_unasked result.1 ≡ true → result.0.pass.made ≡ session.pass.made }
    ensures executes { Executes N.log.cap (state_of session.pass session.seen session.fresh session.transaction) (state_of result.0.pass result.0.seen result.0.fresh result.0.transaction) session.pass.words result.0.pass.words statement.now result.1 }
{
    let is_open = session.transaction.is_some();
    if let (Statement::InsertRows { .. }, false) = (statement, is_open) {
        return insert(rt, alloc, server, session, known, statement);
    }
    *known = Known::nothing();
    if is_open {
        return transact(rt, alloc, server, session, workers, statement);
    }
    match statement {
        Statement::Begin => begin(rt, alloc, server, session),
        Statement::Commit | Statement::Rollback => refused_here(session, Refusal::NoTransaction),
        _ => alone(rt, alloc, server, session, workers, statement),
    }
}

/// Executes one statement text, and gives the session after it and the reply.
pub(crate) fn executed<N: Site, R: Threads + Wait + Sync>(
    rt: &R,
    alloc: Global,
    server: &Server<N>,
    session: State<N>,
    known: &mut Known,
    workers: Workers,
    text: &str,
) -> (State<N>, Reply)
    requires session { IsSession session.pass.words session.seen session.transaction }
    requires few { session.pass.mine < 2 ^ 18 }
    requires known { IsKnown session.pass.words known.old }
    ensures session { IsSession result.0.pass.words result.0.seen result.0.transaction }
    ensures known { IsKnown result.0.pass.words known.new }
    ensures bounded { IsBounded N.log.cap (state_of session.pass session.seen session.fresh session.transaction) result.0.pass.words text.now result.1 session.pass.made result.0.pass.made }
    ensures answers { Answers N.log.cap (state_of session.pass session.seen session.fresh session.transaction) (state_of result.0.pass result.0.seen result.0.fresh result.0.transaction) session.pass.words result.0.pass.words text.now result.1 }
{
    let _ = session.pass.words();
    let statement = match read(alloc, text) {
        Ok(statement) => statement,
        Err(why) => {
            let at = session.seen;
            return (session, Reply::Refused { at, why });
        }
    };
    let done = placed(rt, alloc, server, session, known, workers, &statement);
    // By a call, since a tree that is let go at the end of its scope is proved variant by variant.
    drop(statement);
    done
}
