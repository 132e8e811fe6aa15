// A session between its statements.

ghost use Rattle.std.specs.Prelude.{◌≡◌, ◌<◌, ◌≤◌, ◌^◌, None, IfOk, IfErr};
ghost use Rattle.ct_transaction.specs.Answers.{Answers};
ghost use Rattle.ct_transaction.specs.Bounded.{IsBounded};
ghost use Rattle.ct_session.specs.Exporting.{HasExported, HasNotExported};
ghost use Rattle.ct_session.specs.Standing.{state_in};

use crate::executing::executed;
use crate::exporting::{ExportError, exported};
use crate::knowing::Known;
use ct_arena::{Pass, Site};
use ct_keeper::Server;
use ct_statement::Workers;
use ct_transaction::State;
use ct_transcript::Reply;
use std::alloc::Global;
use std::marker::Model;
use std::sync::Wait;
use std::thread::Threads;

/// A session between its statements.
#[derive(Drop)]
pub struct Session<N: Site> {
    // It is away only while a statement is executed.
    state: Option<State<N>>,
    // What it knows for its next insertion of written rows.
    known: Known,
    // How many workers decide the questions of its statements.
    workers: Workers,
}

impl<N: Site> Model for Session<N> {
    ghost use Rattle.std.specs.Prelude.{option_map};
    ghost use Rattle.std.specs.Coded.{codes};
    ghost use Rattle.ct_transaction.specs.contracts.state.Open as held;
    ghost use Rattle.ct_session.specs.Standing.{Standing, IsThere, standing_of};

    ghost Value = { Standing };

    ghost coded = { Prim.hlevel (codes, held.the_row.coded) };

    ghost view = { λ s. standing_of (option_map (λ t. record { pass = t.pass; seen = t.seen; fresh = t.fresh; transaction = t.transaction }) s.state) };

    ghost invariant = { λ s. IsThere (option_map (λ t. record { pass = t.pass; seen = t.seen; fresh = t.fresh; transaction = t.transaction }) s.state) s.known };
}

impl<N: Site> Session<N> {
    /// The session of a pass before its first statement. The pass has no commits of its own yet. One worker decides the
    /// questions of its statements.
    pub fn make(pass: Pass<N>) -> Session<N>
        requires none { pass.mine ≡ 0 }
        ensures { result ≡ record { pass = pass; seen = 0; fresh = 0; transaction = None } }
    {
        Session::with_workers(pass, 1)
    }

    /// The session that `make` makes, where so many workers decide the questions of a statement, from 1 to 16, each on a
    /// thread of its own where one can be made. Which worlds stand beside possible rows may depend on their number, and
    /// which of the right derivations beside certain ones.
    pub fn with_workers(pass: Pass<N>, workers: u32) -> Session<N>
        requires none { pass.mine ≡ 0 }
        requires least { 1 ≤ workers }
        requires most { workers ≤ 16 }
        ensures { result ≡ record { pass = pass; seen = 0; fresh = 0; transaction = None } }
    {
        Session {
            state: Some(State {
                pass,
                seen: 0,
                fresh: 0,
                transaction: None,
            }),
            known: Known::nothing(),
            workers: Workers::new(workers),
        }
    }

    /// The session's pass.
    pub fn pass(&self) -> &Pass<N>
        ensures { result.now ≡ self.now.pass }
    {
        let Some(state) = &self.state else {
            unreachable!();
        };
        &state.pass
    }

    /// The session's pass, once there are no more statements. A transaction that is open is given up.
    pub fn finish(self) -> Pass<N>
        ensures { result ≡ self.pass }
    {
        let Session { state, known, .. } = self;
        drop(known);
        let Some(state) = state else { unreachable!() };
        state.pass
    }

    /// Executes one statement text, and gives the reply to it. It waits for the server's lock and for its workers. The
    /// session has fewer than 2^18 commits.
    ///
    /// The reply is
    /// - `Begun`, `RolledBack`, `Nothing` or `Committed` for BEGIN, ROLLBACK and COMMIT in their places;
    /// - `Committed` for an action outside a transaction, `Pending` for one inside;
    /// - `Rows`, `Possible` or `Certain` for a query, at what it sees: a version that has all commits of the words before,
    ///   or in a transaction its base with its own actions;
    /// - `Refused` for the first of these three that holds: `NumberRange`, `NotAStatement` or `TooDeep` where the text is
    ///   read as no statement; `InTransaction` or `NoTransaction`; a name or a count that does not fit. Else only for a
    ///   cause that holds, in an order that the contract leaves free: `TooLarge` where the size of a query, also of one that
    ///   is asserted, or the number of pairs of rows of a table whose key is asserted, by the counts of all rows that were
    ///   ever made, is above 16,777,216; `Full` where the log has no room; `Inconsistent` for an assertion that no
    ///   admitted valuation satisfies; `Conflict` where a commit after the base has changed what was read. By the contract
    ///   `Memory` may come in place of any reply.
    ///
    /// A refused statement leaves the transaction and the number of the last null as they were, and commits nothing, though
    /// words may have come to the log. There is one exception: `Conflict` ends the transaction.
    ///
    /// The session makes at most as many words as the bound of the statement, by the counts of all rows that were ever
    /// inserted, and fewer where the log is full. The bound of one that is refused for a name or a count is 0.
    pub fn execute<R: Threads + Wait + Sync>(
        &mut self,
        rt: &R,
        alloc: Global,
        server: &Server<N>,
        text: &str,
    ) -> Reply
        requires few { self.old.pass.mine < 2 ^ 18 }
        ensures bounded { IsBounded N.log.cap (state_in self.old) self.new.pass.words text.now result self.old.pass.made self.new.pass.made }
        ensures answers { Answers N.log.cap (state_in self.old) (state_in self.new) self.old.pass.words self.new.pass.words text.now result }
    {
        let Some(state) = self.state.take() else {
            unreachable!();
        };
        let workers = self.workers;
        let known = &mut self.known;
        let (state, reply) = executed(rt, alloc, server, state, known, workers, text);
        self.state = Some(state);
        reply
    }

    /// The CSV file of the table with this name in lower case, at a version that has all commits of the words before, and
    /// that version. It waits for the server's lock. Words of others may come to the pass, and the session has then seen
    /// the version; all else stays as it is. What an open transaction has done is not in the file.
    ///
    /// # Errors
    /// `UnknownTable` exactly where the version has no such table; `TooWide` for the first row whose condition has too long
    /// a text or too deep a nest for a file, as `export` of `ct_csv` says it; `Memory` where there is none.
    pub fn export<R: Wait>(
        &mut self,
        rt: &R,
        alloc: Global,
        server: &Server<N>,
        name: &str,
    ) -> Result<(u32, Vec<u8>), ExportError>
        ensures ok { IfOk result (λ r. HasExported N.log.cap self.old self.new name.now r.0 r.1.items) }
        ensures error { IfErr result (HasNotExported N.log.cap self.old self.new name.now) }
    {
        let Some(state) = self.state.take() else {
            unreachable!();
        };
        let (state, file) = exported(rt, alloc, server, state, name);
        self.state = Some(state);
        file
    }
}
