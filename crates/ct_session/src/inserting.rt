// An insertion of written rows outside a transaction.

ghost use Rattle.std.specs.Prelude.{◌≡◌, ◌<◌, ◌≤◌, ◌^◌, length, IsNone};
ghost use mathlib.Core.List.{IsPrefix};
ghost use Rattle.ct_word.specs.Reading.{commits_of};
ghost use Rattle.ct_condition.specs.Writes.{kept_of};
ghost use Rattle.ct_transaction.specs.Sessions.{IsSession};
ghost use Rattle.ct_transaction.specs.Statements.{IsWritten};
ghost use Rattle.ct_session.specs.Doing.{IsAskedFor, IsDone};
ghost use Rattle.ct_session.specs.Known.{IsKnown, SeesAlone};
ghost use Rattle.ct_session.specs.Offering.{IsRowInsertion};

use crate::knowing::{Known, insert_known, insertion_at};
use crate::offering::literal_offer;
use crate::settling::{Ready, begun, settled};
use ct_arena::{Arena, Pass, Site};
use ct_keeper::Server;
use ct_parse::Statement;
use ct_statement::Sight;
use ct_transaction::State;
use ct_transcript::{Refusal, Reply};
use std::alloc::Global;
use std::sync::Wait;

/// The offer of an insertion of written rows. What it saw is kept for the insertions that follow, or let go.
///
/// # Errors
/// The first fault of its names and counts. Else one of `Full` and `Memory`, only where its cause holds.
fn asked<N: Site>(
    alloc: Global,
    arena: &Arena<N>,
    pass: &mut Pass<N>,
    fresh: u32,
    sight: Sight,
    known: &mut Known,
    statement: &Statement,
) -> Result<Ready, Refusal>
    requires sees { SeesAlone pass.old.words sight }
    requires known { IsNone known.old.sight }
    requires written { IsWritten statement.now }
    requires insertion { IsRowInsertion statement.now }
    ensures longer { IsPrefix pass.old.words pass.new.words }
    ensures kept { kept_of pass.new ≡ kept_of pass.old }
    ensures known { IsKnown pass.new.words known.new }
    ensures asks { IsAskedFor N.log.cap pass.old.made pass.new fresh sight.version statement.now result }
{
    let action = match insertion_at(alloc, pass, &sight, fresh, statement) {
        Ok(action) => action,
        Err(why) => {
            drop(sight);
            return Err(why);
        }
    };
    let base = sight.version;
    known.note(sight);
    let offering = literal_offer(alloc, arena, pass, fresh, base, action);
    let _now = pass.words();
    match offering {
        Ok(offering) => Ok(Ready::Offer(offering)),
        Err(why) => Err(why),
    }
}

/// Commits an insertion of written rows at a version that has all commits of the words before. What it saw may be known
/// then.
fn anew<N: Site, R: Wait>(
    rt: &R,
    alloc: Global,
    server: &Server<N>,
    session: State<N>,
    known: &mut Known,
    statement: &Statement,
) -> (State<N>, Reply)
    requires seen { session.seen ≤ length (commits_of session.pass.words) }
    requires few { session.pass.mine < 2 ^ 18 }
    requires known { IsNone known.old.sight }
    requires written { IsWritten statement.now }
    requires insertion { IsRowInsertion statement.now }
    ensures known { IsKnown result.0.pass.words known.new }
    ensures done { IsDone N.log.cap session.pass session.seen session.fresh statement.now result.0.pass result.0.seen result.0.fresh result.0.transaction result.1 }
{
    let (mut session, sight) = match begun(rt, alloc, server, session) {
        Ok(begun) => begun,
        Err(refused) => return refused,
    };
    let at = sight.version;
    let fresh = session.fresh;
    let arena = server.arena();
    let ready = asked(
        alloc,
        arena,
        &mut session.pass,
        fresh,
        sight,
        known,
        statement,
    );
    let _now = session.pass.words();
    settled(rt, alloc, server, session, at, ready)
}

/// Executes an insertion of written rows outside a transaction. It may find its names at an earlier version, of which
/// something is known, and its commit comes after all commits of the words before. Where it does not, it begins anew, at a
/// version that has all of these.
pub(crate) fn insert<N: Site, R: Wait>(
    rt: &R,
    alloc: Global,
    server: &Server<N>,
    session: State<N>,
    known: &mut Known,
    statement: &Statement,
) -> (State<N>, Reply)
    requires session { IsSession session.pass.words session.seen session.transaction }
    requires few { session.pass.mine < 2 ^ 18 }
    requires known { IsKnown session.pass.words known.old }
    requires written { IsWritten statement.now }
    requires insertion { IsRowInsertion statement.now }
    ensures known { IsKnown result.0.pass.words known.new }
    ensures done { IsDone N.log.cap session.pass session.seen session.fresh statement.now result.0.pass result.0.seen result.0.fresh result.0.transaction result.1 }
{
    match insert_known(rt, alloc, server, session, known, statement) {
        Ok(done) => done,
        Err(session) => anew(rt, alloc, server, session, known, statement),
    }
}
