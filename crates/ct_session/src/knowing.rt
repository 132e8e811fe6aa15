// What a session knows for its next insertion, so that this need not ask for the lock only to find its names.
//
// A pass's words are read, here and there, for what their type keeps: that they are well formed, and few.

ghost use Rattle.std.specs.Prelude.{◌≡◌, ◌+◌, ◌<◌, ◌≤◌, ◌^◌, ℕ, List, true, false, None, length, IfOk, IfErr, IfSome, IsNone};
ghost use mathlib.Core.List.{IsPrefix};
ghost use Rattle.ct_word.specs.Reading.{commits_of};
ghost use Rattle.ct_arena.specs.Seen.{Seen};
ghost use Rattle.ct_condition.specs.Writes.{charge, kept_of};
ghost use Rattle.ct_parse.specs.declared.tree.Statement.{Statement as StatementValue};
ghost use Rattle.ct_query.specs.Plain as plain;
ghost use Rattle.ct_query.specs.Views.{action_of};
ghost use Rattle.ct_statement.specs.Making.{says_full};
ghost use Rattle.ct_statement.specs.Sight.{actions_before, history_of};
ghost use Rattle.ct_statement.specs.Unmet.{IsWant};
ghost use Rattle.ct_transaction.specs.Answers.{is_full, is_unasked};
ghost use Rattle.ct_transaction.specs.Bounded.{Makes};
ghost use Rattle.ct_transaction.specs.Executes.{Executes};
ghost use Rattle.ct_transaction.specs.Prepared.{IsRefused, IsResolved};
ghost use Rattle.ct_transaction.specs.Sessions.{IsSession, state_of};
ghost use Rattle.ct_transaction.specs.Statements.{IsWritten};
ghost use Rattle.ct_session.specs.Known.{IsKnown, SeesAlone};
ghost use Rattle.ct_session.specs.Offering.{IsFoundAlone, IsInsertion, IsRowInsertion, inserts_rows};
ghost use Rattle.ct_session.specs.Outcomes.{CommitsOrWants, IsCommittedOr, Starts};

use crate::offering::{Offering, literal_act, literal_offer};
use ct_arena::{Pass, Site};
use ct_keeper::{KeeperError, Outcome, Server};
use ct_parse::Statement;
use ct_query::Action;
use ct_statement::Sight;
use ct_transaction::{State, refusal, resolved_at};
use ct_transcript::{Refusal, Reply};
use std::alloc::Global;
use std::sync::Wait;

/// What an earlier insertion of written rows saw, and how many of them began anew since that was kept.
#[derive(Drop)]
pub struct Known {
    pub sight: Option<Sight>,
    pub since: usize,
}

impl Known {
    /// Nothing is known.
    pub(crate) fn nothing() -> Known
        ensures { result ≡ record { sight = None; since = 0 } }
    {
        Known {
            sight: None,
            since: 0,
        }
    }

    /// Keeps what an insertion of written rows saw that began anew, or lets it go. While it is kept, the keeper cannot change
    /// its list of tables in place, and copies it once. So it is kept only once there were as many of these in a row as there
    /// are tables: then they have paid for the copy.
    pub(crate) fn note(&mut self, sight: Sight)
        ensures known { (words : List ℕ) → SeesAlone words sight → IsKnown words self.old → IsKnown words self.new }
    {
        self.since = self.since.saturating_add(1);
        if sight.tables.db().headings().tables.len() <= self.since {
            self.sight = Some(sight);
            self.since = 0;
        } else {
            drop(sight);
        }
    }
}

/// The number of the commit that an offer became. An insertion of written rows reads nothing, so that it meets no conflict,
/// and its list of changes is not empty.
///
/// # Errors
/// `Full` where the log is full, `Memory` where memory runs out.
fn committed_or(outcome: Result<Outcome, KeeperError>) -> Result<u32, Refusal>
    requires settled { CommitsOrWants outcome }
    ensures { IsCommittedOr outcome result }
{
    match outcome {
        Ok(Outcome::Committed(at)) => Ok(at),
        Ok(Outcome::Nothing) => unreachable!(),
        Ok(
            Outcome::Conflict {
                table: _table,
                was: _was,
                now: _now,
                at: _at,
            },
        ) => unreachable!(),
        Err(KeeperError::Full) => Err(Refusal::Full),
        Err(KeeperError::Memory) => Err(Refusal::Memory),
    }
}

/// An insertion of written rows with positions for its names, at what it sees. No word is made.
///
/// # Errors
/// The first fault of its names and counts; `Memory`.
pub(crate) fn insertion_at<N: Site>(
    alloc: Global,
    pass: &Pass<N>,
    sight: &Sight,
    fresh: u32,
    statement: &Statement,
) -> Result<Action, Refusal>
    requires sees { SeesAlone pass.now.words sight.now }
    requires written { IsWritten statement.now }
    requires insertion { IsRowInsertion statement.now }
    ensures resolved { IfOk result (λ action. IsResolved (history_of pass.now.words sight.now) (actions_before sight.now) pass.now.session fresh statement.now (plain.Act (action_of action))) }
    ensures found { IfOk result (λ action. IsFoundAlone pass.now fresh sight.now.version statement.now (plain.Act (action_of action))) }
    ensures rows { IfOk result (λ action. inserts_rows (action_of action) ≡ true) }
    ensures room { IfErr result (λ why. says_full why ≡ false) }
    ensures err { IfErr result (IsRefused (history_of pass.now.words sight.now) (actions_before sight.now) N.log.cap pass.now.words pass.now.session fresh statement.now) }
{
    let found = match resolved_at(alloc, pass, sight, fresh, statement) {
        Ok(found) => found,
        Err(why) => return Err(why),
    };
    let Ok(action) = literal_act(found) else {
        unreachable!()
    };
    Ok(action)
}

/// The refusal of an insertion of written rows for a full log, or where memory runs out. A full log is told at the newest
/// version, since the session may have seen a later one than that at which the names were found.
fn wanting<N: Site, R: Wait>(
    rt: &R,
    alloc: Global,
    server: &Server<N>,
    mut session: State<N>,
    why: Refusal,
) -> (State<N>, Reply)
    requires seen { session.seen ≤ length (commits_of session.pass.words) }
    requires want { IsWant N.log.cap session.pass.words why }
    ensures session { IsSession result.0.pass.words result.0.seen result.0.transaction }
    ensures longer { IsPrefix session.pass.words result.0.pass.words }
    ensures kept { kept_of result.0.pass ≡ kept_of session.pass }
    ensures made { result.0.pass.made ≡ session.pass.made }
    ensures full { is_full result.1 ≡ true → says_full why ≡ true }
    ensures asked { is_unasked result.1 ≡ false }
    ensures executes { (first : Seen) (st : StatementValue) → Starts first session.pass → IsInsertion session.pass session.fresh st → Executes N.log.cap (state_of first session.seen session.fresh None) (state_of result.0.pass result.0.seen result.0.fresh result.0.transaction) first.words result.0.pass.words st result.1 }
{
    session.transaction = None;
    let _before = session.pass.words();
    let seen = session.seen;
    let Refusal::Full = why else {
        return refusal(session, seen, Refusal::Memory);
    };
    let (pass, snapshot) = server.begin(rt, alloc, session.pass);
    session.pass = pass;
    let _now = session.pass.words();
    match snapshot {
        Ok(snapshot) => {
            let at = snapshot.version;
            drop(snapshot);
            refusal(session, at, Refusal::Full)
        }
        Err(_) => refusal(session, seen, Refusal::Memory),
    }
}

/// Commits an insertion of written rows by what an earlier one saw, where that is known and has its names. It reads
/// nothing, so that the version it is offered on may be any whose commits the session has seen.
///
/// # Errors
/// The session as it was, where nothing is known or the names are not there. Nothing is known any more, and the statement
/// can begin anew.
pub(crate) fn insert_known<N: Site, R: Wait>(
    rt: &R,
    alloc: Global,
    server: &Server<N>,
    mut session: State<N>,
    known: &mut Known,
    statement: &Statement,
) -> Result<(State<N>, Reply), State<N>>
    requires few { session.pass.mine < 2 ^ 18 }
    requires seen { session.seen ≤ length (commits_of session.pass.words) }
    requires known { IsKnown session.pass.words known.old }
    requires written { IsWritten statement.now }
    requires insertion { IsRowInsertion statement.now }
    ensures session { IfOk result (λ done. IsSession done.0.pass.words done.0.seen done.0.transaction) }
    ensures makes { IfOk result (λ done. Makes (state_of session.pass session.seen session.fresh None) done.0.pass.words statement.now session.pass.made (done.0.pass.made + charge (is_full done.1))) }
    ensures asked { IfOk result (λ done. is_unasked done.1 ≡ false) }
    ensures executes { IfOk result (λ done. Executes N.log.cap (state_of session.pass session.seen session.fresh None) (state_of done.0.pass done.0.seen done.0.fresh done.0.transaction) session.pass.words done.0.pass.words statement.now done.1) }
    ensures known { IfOk result (λ done. IsKnown done.0.pass.words known.new) }
    ensures same { IfErr result (λ same. same ≡ session) }
    ensures gone { IfErr result (λ _. IsNone known.new.sight) }
{
    let _begun = session.pass.words();
    let Some(sight) = known.sight.take() else {
        return Err(session);
    };
    let fresh = session.fresh;
    let Ok(action) = insertion_at(alloc, &session.pass, &sight, fresh, statement) else {
        drop(sight);
        return Err(session);
    };
    let base = sight.version;
    let pass = &mut session.pass;
    let offering = literal_offer(alloc, server.arena(), pass, fresh, base, action);
    let _now = session.pass.words();
    let offering = match offering {
        Ok(offering) => offering,
        Err(why) => {
            drop(sight);
            return Ok(wanting(rt, alloc, server, session, why));
        }
    };
    let Offering {
        offer,
        fresh: drawn,
    } = offering;
    let (pass, outcome) = server.commit(rt, alloc, session.pass, &offer);
    session.pass = pass;
    drop(offer);
    let _after = session.pass.words();
    match committed_or(outcome) {
        Ok(at) => {
            known.sight = Some(sight);
            session.fresh = drawn;
            session.transaction = None;
            Ok((session.carrying(at), Reply::Committed { at }))
        }
        Err(why) => {
            drop(sight);
            Ok(wanting(rt, alloc, server, session, why))
        }
    }
}
