// A statement outside a transaction that is no order, and no insertion of written rows.
//
// A pass's words are read, here and there, for what their type keeps: that they are well formed, and few.

ghost use Rattle.std.specs.Prelude.{◌≡◌, ◌+◌, ◌<◌, ◌≤◌, ◌^◌, [], false, length, IfOk, IfErr};
ghost use mathlib.Core.List.{IsPrefix};
ghost use Rattle.ct_word.specs.Reading.{commits_of};
ghost use Rattle.ct_parse.specs.declared.tree.Statement.{Statement as StatementValue};
ghost use Rattle.ct_condition.specs.Writes.{charge, kept_of};
ghost use Rattle.ct_query.specs.Patterns.{count};
ghost use Rattle.ct_query.specs.Schema.{schema};
ghost use Rattle.ct_query.specs.Views.{statement_of};
ghost use Rattle.ct_table.specs.Snapshot.{commits_to};
ghost use Rattle.ct_statement.specs.Making as making;
ghost use Rattle.ct_statement.specs.Sight.{actions_before, history_of};
ghost use Rattle.ct_transaction.specs.Answers.{is_of_name};
ghost use Rattle.ct_transaction.specs.Bounded.{Performs};
ghost use Rattle.ct_transaction.specs.Prepared.{IsNoOrder, IsRefused, IsResolved};
ghost use Rattle.ct_transaction.specs.Statements.{IsWritten};
ghost use Rattle.ct_session.specs.Doing.{IsAskedFor, IsDone};
ghost use Rattle.ct_session.specs.Known.{SeesAlone};
ghost use Rattle.ct_session.specs.Offering.{IsReady};

use crate::offering::{literal_act, literal_offer, offering_of, world_of};
use crate::settling::{Ready, begun, settled};
use ct_arena::{Arena, Pass, Site};
use ct_keeper::Server;
use ct_parse::Statement;
use ct_query::Resolved;
use ct_statement::{Sight, Workers};
use ct_transaction::{Prepared, State, perform_alone, resolved_at};
use ct_transcript::{Refusal, Reply};
use ct_word::Memory;
use std::alloc::Global;
use std::sync::Wait;
use std::thread::Threads;

/// What a statement asks for at what it sees, found there.
///
/// # Errors
/// One of `TooLarge`, `Full`, `Inconsistent` and `Memory`, only where its cause holds.
fn performed<N: Site, R: Threads + Sync>(
    rt: &R,
    alloc: Global,
    arena: &Arena<N>,
    pass: &mut Pass<N>,
    fresh: u32,
    sight: &Sight,
    found: Resolved,
    workers: Workers,
) -> Result<Ready, Refusal>
    requires sees { SeesAlone pass.old.words sight.now }
    requires resolved { (st : StatementValue) × IsResolved (history_of pass.old.words sight.now) (actions_before sight.now) pass.old.session fresh st (statement_of found) }
    ensures longer { IsPrefix pass.old.words pass.new.words }
    ensures kept { kept_of pass.new ≡ kept_of pass.old }
    ensures made { Performs false (count (history_of pass.old.words sight.now) (actions_before sight.now)) (making.widths_in (schema (history_of pass.old.words sight.now) (actions_before sight.now)).tables) (statement_of found) pass.old.made (pass.new.made + charge (making.is_full result)) }
    ensures unnamed { IfErr result (λ why. is_of_name why ≡ false) }
    ensures ok { (st : StatementValue) → IsResolved (history_of pass.old.words sight.now) (actions_before sight.now) pass.old.session fresh st (statement_of found) → IfOk result (IsReady pass.new fresh sight.now.version st) }
    ensures err { (st : StatementValue) → IsResolved (history_of pass.old.words sight.now) (actions_before sight.now) pass.old.session fresh st (statement_of found) → IfErr result (IsRefused (commits_to pass.new.words sight.now.version) [] N.log.cap pass.new.words pass.new.session fresh st) }
{
    let prepared = perform_alone(rt, alloc, arena, pass, sight, fresh, found, workers);
    let _now = pass.words();
    match prepared {
        Ok(Prepared::Answer(answered)) => Ok(Ready::Answer(answered)),
        Ok(Prepared::Change { proposal, step }) => {
            let Ok(kept) = world_of(alloc, sight, step) else {
                drop(proposal);
                return Err(Refusal::Memory);
            };
            match offering_of(alloc, sight.version, proposal, kept) {
                Ok(offering) => Ok(Ready::Offer(offering)),
                Err(Memory) => Err(Refusal::Memory),
            }
        }
        Err(why) => Err(why),
    }
}

/// What a statement asks for at what it sees, which is let go, so that nobody but the keeper need hold its list of tables
/// when an action is offered: while others hold it, the keeper has to change its tables in copies. Of an action whose
/// change is all in its text that is done as soon as its names are found.
///
/// # Errors
/// The first fault of its names and counts. Else one of `TooLarge`, `Full`, `Inconsistent` and `Memory`, only where its
/// cause holds.
fn asked<N: Site, R: Threads + Sync>(
    rt: &R,
    alloc: Global,
    arena: &Arena<N>,
    pass: &mut Pass<N>,
    fresh: u32,
    sight: Sight,
    workers: Workers,
    statement: &Statement,
) -> Result<Ready, Refusal>
    requires sees { SeesAlone pass.old.words sight }
    requires written { IsWritten statement.now }
    requires plain { IsNoOrder statement.now }
    ensures longer { IsPrefix pass.old.words pass.new.words }
    ensures kept { kept_of pass.new ≡ kept_of pass.old }
    ensures asks { IsAskedFor N.log.cap pass.old.made pass.new fresh sight.version statement.now result }
{
    let found = match resolved_at(alloc, pass, &sight, fresh, statement) {
        Ok(found) => found,
        Err(why) => {
            drop(sight);
            return Err(why);
        }
    };
    match literal_act(found) {
        Ok(action) => {
            let base = sight.version;
            drop(sight);
            match literal_offer(alloc, arena, pass, fresh, base, action) {
                Ok(offering) => Ok(Ready::Offer(offering)),
                Err(why) => Err(why),
            }
        }
        Err(found) => {
            let ready = performed(rt, alloc, arena, pass, fresh, &sight, found, workers);
            drop(sight);
            ready
        }
    }
}

/// Executes a statement outside a transaction that is no BEGIN, COMMIT or ROLLBACK: it sees a version that has all
/// commits of the words before. An action is committed at once.
pub(crate) fn alone<N: Site, R: Threads + Wait + Sync>(
    rt: &R,
    alloc: Global,
    server: &Server<N>,
    session: State<N>,
    workers: Workers,
    statement: &Statement,
) -> (State<N>, Reply)
    requires seen { session.seen ≤ length (commits_of session.pass.words) }
    requires few { session.pass.mine < 2 ^ 18 }
    requires written { IsWritten statement.now }
    requires plain { IsNoOrder statement.now }
    ensures done { IsDone N.log.cap session.pass session.seen session.fresh statement.now result.0.pass result.0.seen result.0.fresh result.0.transaction result.1 }
{
    let (mut session, sight) = match begun(rt, alloc, server, session) {
        Ok(begun) => begun,
        Err(refused) => return refused,
    };
    let at = sight.version;
    let fresh = session.fresh;
    let arena = server.arena();
    let ready = asked(
        rt,
        alloc,
        arena,
        &mut session.pass,
        fresh,
        sight,
        workers,
        statement,
    );
    let _now = session.pass.words();
    settled(rt, alloc, server, session, at, ready)
}
