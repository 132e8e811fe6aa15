// A statement outside a transaction: what it begins with, and what becomes of what it asks for.
//
// A pass's words are read, here and there, for what their type keeps: that they are well formed, and few.

ghost use Rattle.std.specs.Prelude.{◌≡◌, ◌<◌, ◌≤◌, ◌^◌, length, IfOk, IfErr};
ghost use Rattle.ct_word.specs.Reading.{commits_of};
ghost use Rattle.ct_arena.specs.Seen.{Seen};
ghost use Rattle.ct_keeper.specs.Offers.{IsOffer};
ghost use Rattle.ct_parse.specs.declared.tree.Statement.{Statement};
ghost use Rattle.ct_session.specs.Doing.{IsAskedFor, IsDone, IsTaken};
ghost use Rattle.ct_session.specs.Known.{SeesAlone, StillSeen};
ghost use Rattle.ct_session.specs.Offering.{IsReadyToOffer, Readies};
ghost use Rattle.ct_session.specs.Outcomes.{Begins, fresh_after};

use crate::offering::Offering;
use ct_arena::Site;
use ct_keeper::{KeeperError, Outcome, Server};
use ct_statement::{Answered, Sight};
use ct_transaction::{State, refusal, replied, reply_of};
use ct_transcript::{Refusal, Reply};
use std::alloc::Global;
use std::sync::Wait;

/// What a statement outside a transaction asks for, when what it saw has been let go: the answer to a query, or an action
/// as it is offered.
#[derive(Drop)]
pub enum Ready {
    Answer(Answered),
    Offer(Offering),
}

/// The session as a statement outside a transaction begins, and what the statement sees: a version that has all commits of
/// the words before.
///
/// # Errors
/// The session and the refusal of any statement, where memory runs out.
pub(crate) fn begun<N: Site, R: Wait>(
    rt: &R,
    alloc: Global,
    server: &Server<N>,
    mut session: State<N>,
) -> Result<(State<N>, Sight), (State<N>, Reply)>
    requires seen { session.seen ≤ length (commits_of session.pass.words) }
    ensures begins { IfOk result (λ r. Begins session.pass r.0.pass r.1.version) }
    ensures sees { IfOk result (λ r. SeesAlone r.0.pass.words r.1) }
    ensures made { IfOk result (λ r. r.0.pass.made ≡ session.pass.made) }
    ensures seen { IfOk result (λ r. r.0.seen ≡ session.seen) }
    ensures fresh { IfOk result (λ r. r.0.fresh ≡ session.fresh) }
    ensures refused { (st : Statement) → IfErr result (λ r. IsDone N.log.cap session.pass session.seen session.fresh st r.0.pass r.0.seen r.0.fresh r.0.transaction r.1) }
{
    session.transaction = None;
    let _words = session.pass.words();
    let (pass, snapshot) = server.begin(rt, alloc, session.pass);
    session.pass = pass;
    let _begun = session.pass.words();
    let Ok(snapshot) = snapshot else {
        let at = session.seen;
        return Err(refusal(session, at, Refusal::Memory));
    };
    Ok((session, Sight::of(alloc, snapshot)))
}

/// The number of the last null after an offer: those that an action drew are the session's once it is committed.
fn fresh_after(fresh: u32, drawn: u32, outcome: &Result<Outcome, KeeperError>) -> u32
    ensures { result ≡ fresh_after fresh drawn outcome.now }
{
    match outcome {
        Ok(Outcome::Committed(_)) => drawn,
        _ => fresh,
    }
}

/// Offers an action to the server, on the version that its statement saw.
fn offered<N: Site, R: Wait>(
    rt: &R,
    alloc: Global,
    server: &Server<N>,
    mut session: State<N>,
    offering: Offering,
) -> (State<N>, Reply)
    requires few { session.pass.mine < 2 ^ 18 }
    requires seen { session.seen ≤ offering.offer.base }
    requires takes { IsOffer session.pass offering.offer }
    ensures done { (first : Seen) (st : Statement) → Begins first session.pass offering.offer.base → IsReadyToOffer session.pass session.fresh offering st → Readies session.pass.words offering.offer.base session.pass.session session.fresh st first.made session.pass.made → IsDone N.log.cap first session.seen session.fresh st result.0.pass result.0.seen result.0.fresh result.0.transaction result.1 }
    ensures stays { StillSeen session.pass.words result.0.pass.words }
{
    session.transaction = None;
    let _words = session.pass.words();
    let Offering {
        offer,
        fresh: drawn,
    } = offering;
    let base = offer.base;
    let (pass, outcome) = server.commit(rt, alloc, session.pass, &offer);
    session.pass = pass;
    drop(offer);
    let _now = session.pass.words();
    let after = fresh_after(session.fresh, drawn, &outcome);
    session.fresh = after;
    let (at, reply) = replied(session.seen, base, outcome);
    (session.carrying(at), reply)
}

/// The session and the reply after a statement that asked for this at a version: an answer is given, and an action offered.
pub(crate) fn settled<N: Site, R: Wait>(
    rt: &R,
    alloc: Global,
    server: &Server<N>,
    mut session: State<N>,
    at: u32,
    ready: Result<Ready, Refusal>,
) -> (State<N>, Reply)
    requires few { session.pass.mine < 2 ^ 18 }
    requires seen { session.seen ≤ at }
    requires within { at ≤ length (commits_of session.pass.words) }
    requires takes { IfOk ready (IsTaken session.pass at) }
    ensures done { (first : Seen) (st : Statement) → Begins first session.pass at → IsAskedFor N.log.cap first.made session.pass session.fresh at st ready → IsDone N.log.cap first session.seen session.fresh st result.0.pass result.0.seen result.0.fresh result.0.transaction result.1 }
    ensures stays { StillSeen session.pass.words result.0.pass.words }
{
    session.transaction = None;
    let _words = session.pass.words();
    match ready {
        Ok(Ready::Answer(answered)) => (session.carrying(at), reply_of(at, 0, answered)),
        Ok(Ready::Offer(offering)) => offered(rt, alloc, server, session, offering),
        Err(why) => refusal(session, at, why),
    }
}
