// What a session keeps between its statements, and its open transaction.

ghost use Rattle.std.specs.Prelude.{◌≡◌, ℕ, List, max};
ghost use Rattle.ct_parse.specs.declared.tree.Statement.{Statement as StatementValue};
ghost use Rattle.ct_transcript.specs.declared.reply.Reply.{Reply as ReplyValue};
ghost use Rattle.ct_transaction.specs.Executes.{Executes};
ghost use Rattle.ct_transaction.specs.Sessions.{IsSession, state_of};
ghost use Rattle.ct_transaction.specs.State.{SessionState, carried};

use ct_arena::{Pass, Site};
use ct_query::Read;
use ct_statement::Sight;
use ct_word::List;

/// An open transaction: its base with its own actions done, the place of its change list, which is begun with its first
/// action, and what it read.
#[derive(Drop)]
pub struct Open {
    /// What its next statement sees: the base with its own actions done.
    pub sight: Sight,
    /// The place of its change list in the log, where an action was done.
    pub changes: Option<u32>,
    /// What its statements read.
    pub reads: List<Read>,
}

/// What a session keeps between its statements. Its parts are true of a session where `IsSession` says so.
#[derive(Drop)]
pub struct State<N: Site> {
    /// The session's own pass, by which its statements read and add words.
    pub pass: Pass<N>,
    /// The greatest version that a reply carried.
    pub seen: u32,
    /// The number of the last null that the session drew, 0 before the first.
    pub fresh: u32,
    /// The transaction that is open.
    pub transaction: Option<Open>,
}

impl<N: Site> State<N> {
    /// The session after a reply that carries a version: it has then seen that version.
    pub fn carrying(self, version: u32) -> State<N>
        ensures pass { result.pass ≡ self.pass }
        ensures session { IsSession self.pass.words (max self.seen version) self.transaction → IsSession result.pass.words result.seen result.transaction }
        ensures executes { (room : ℕ) (s : SessionState) (words : List ℕ) (st : StatementValue) (r : ReplyValue) → Executes room s (carried version (state_of self.pass self.seen self.fresh self.transaction)) words self.pass.words st r → Executes room s (state_of result.pass result.seen result.fresh result.transaction) words result.pass.words st r }
    {
        let mut session = self;
        session.seen = session.seen.max(version);
        session
    }
}
