// BEGIN, ROLLBACK, and COMMIT or BEGIN in the wrong place.

ghost use Rattle.std.specs.Prelude.{◌+◌, IsNone, IsSome};
ghost use Rattle.ct_parse.specs.declared.tree.Statement.{Statement as StatementValue};
ghost use Rattle.ct_parse.specs.declared.tree.Statement.TheVariants as tree;
ghost use Rattle.ct_condition.specs.Writes.{charge};
ghost use Rattle.ct_transaction.specs.Answers.{is_full};
ghost use Rattle.ct_transaction.specs.Bounded.{Makes};
ghost use Rattle.ct_transaction.specs.Executes.{Executes};
ghost use Rattle.ct_transaction.specs.Orders.{IsMisplaced};
ghost use Rattle.ct_transaction.specs.Sessions.{IsSession, state_of};

use crate::replying::refusal;
use crate::state::{Open, State};
use ct_arena::Site;
use ct_keeper::Server;
use ct_statement::Sight;
use ct_transcript::{Refusal, Reply};
use ct_word::List;
use std::alloc::Global;
use std::sync::Wait;

/// BEGIN outside a transaction: opens one at a version that has all commits of the words before. It waits for the server's
/// lock. The reply is `Begun`, or `Refused` where memory runs out.
pub fn begin<N: Site, R: Wait>(
    rt: &R,
    alloc: Global,
    server: &Server<N>,
    mut session: State<N>,
) -> (State<N>, Reply)
    requires session { IsSession session.pass.words session.seen session.transaction }
    requires none { IsNone session.transaction }
    ensures session { IsSession result.0.pass.words result.0.seen result.0.transaction }
    ensures makes { Makes (state_of session.pass session.seen session.fresh session.transaction) result.0.pass.words tree.Begin session.pass.made (result.0.pass.made + charge (is_full result.1)) }
    ensures executes { Executes N.log.cap (state_of session.pass session.seen session.fresh session.transaction) (state_of result.0.pass result.0.seen result.0.fresh result.0.transaction) session.pass.words result.0.pass.words tree.Begin result.1 }
{
    session.transaction = None;
    let _ = session.pass.words();
    let (pass, snapshot) = server.begin(rt, alloc, session.pass);
    session.pass = pass;
    let _words = session.pass.words();
    let Ok(snapshot) = snapshot else {
        let at = session.seen;
        return refusal(session, at, Refusal::Memory);
    };
    let at = snapshot.version;
    session.transaction = Some(Open {
        sight: Sight::of(alloc, snapshot),
        changes: None,
        reads: List::new(alloc),
    });
    (session.carrying(at), Reply::Begun { at })
}

/// ROLLBACK in a transaction: gives it up.
pub(crate) fn roll_back<N: Site>(mut session: State<N>) -> (State<N>, Reply)
    requires session { IsSession session.pass.words session.seen session.transaction }
    requires some { IsSome session.transaction }
    ensures session { IsSession result.0.pass.words result.0.seen result.0.transaction }
    ensures makes { Makes (state_of session.pass session.seen session.fresh session.transaction) result.0.pass.words tree.Rollback session.pass.made (result.0.pass.made + charge (is_full result.1)) }
    ensures executes { Executes N.log.cap (state_of session.pass session.seen session.fresh session.transaction) (state_of result.0.pass result.0.seen result.0.fresh result.0.transaction) session.pass.words result.0.pass.words tree.Rollback result.1 }
{
    let _words = session.pass.words();
    session.transaction = None;
    (session, Reply::RolledBack)
}

/// The refusal of BEGIN in a transaction, `InTransaction`, and of COMMIT or ROLLBACK outside one, `NoTransaction`.
pub fn refused_here<N: Site>(session: State<N>, why: Refusal) -> (State<N>, Reply)
    requires session { IsSession session.pass.words session.seen session.transaction }
    ensures session { IsSession result.0.pass.words result.0.seen result.0.transaction }
    ensures makes { (st : StatementValue) → IsMisplaced session.transaction st why → Makes (state_of session.pass session.seen session.fresh session.transaction) result.0.pass.words st session.pass.made (result.0.pass.made + charge (is_full result.1)) }
    ensures executes { (st : StatementValue) → IsMisplaced session.transaction st why → Executes N.log.cap (state_of session.pass session.seen session.fresh session.transaction) (state_of result.0.pass result.0.seen result.0.fresh result.0.transaction) session.pass.words result.0.pass.words st result.1 }
{
    let _words = session.pass.words();
    let at = session.seen;
    (session, Reply::Refused { at, why })
}
