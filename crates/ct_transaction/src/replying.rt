// Replies that give an answer, and those that refuse a statement.

ghost use Rattle.std.specs.Prelude.{◌≡◌, ℕ, List, max};
ghost use Rattle.ct_parse.specs.declared.tree.Statement.{Statement};
ghost use Rattle.ct_statement.specs.Making.{says_full};
ghost use Rattle.ct_transaction.specs.Answers.{is_full, is_of_name, is_unasked};
ghost use Rattle.ct_transaction.specs.Executes.{Executes};
ghost use Rattle.ct_transaction.specs.Replying.{reply_of, standing};
ghost use Rattle.ct_transaction.specs.Sessions.{IsSession, state_of};
ghost use Rattle.ct_transaction.specs.State.{SessionState, carried};
ghost use Rattle.ct_transcript.specs.declared.reply.Reply.TheVariants as reply;

use crate::state::State;
use ct_arena::Site;
use ct_statement::Answered;
use ct_transcript::{Refusal, Reply};

/// The reply that gives an answer, at a version and after so many actions of the transaction.
pub fn reply_of(at: u32, plus: u32, answered: Answered) -> Reply
    ensures { result ≡ reply_of at plus answered }
{
    match answered {
        Answered::Rows(answer) => Reply::Rows { at, plus, answer },
        Answered::Possible { columns, list } => Reply::Possible {
            at,
            plus,
            columns,
            rows: list,
        },
        Answered::Certain { columns, list } => Reply::Certain {
            at,
            plus,
            columns,
            rows: list,
        },
    }
}

/// The version that a refusal stands at: the one that the statement saw. A refusal since memory ran out rests
/// on no version, and stands at the one that was seen before.
fn standing(seen: u32, version: u32, why: &Refusal) -> u32
    ensures { result ≡ standing seen version why.now }
{
    match why {
        Refusal::Memory => seen,
        _ => version,
    }
}

/// The session and the reply where a statement that saw this version is refused. The transaction stays.
pub fn refusal<N: Site>(session: State<N>, version: u32, why: Refusal) -> (State<N>, Reply)
    ensures pass { result.0.pass ≡ session.pass }
    ensures full { is_full result.1 ≡ says_full why }
    ensures unasked { is_unasked result.1 ≡ is_of_name why }
    ensures session { IsSession session.pass.words (max session.seen (standing session.seen version why)) session.transaction → IsSession result.0.pass.words result.0.seen result.0.transaction }
    ensures executes { (room : ℕ) (s : SessionState) (words : List ℕ) (st : Statement) → Executes room s (carried (standing session.seen version why) (state_of session.pass session.seen session.fresh session.transaction)) words session.pass.words st (reply.Refused (standing session.seen version why) why) → Executes room s (state_of result.0.pass result.0.seen result.0.fresh result.0.transaction) words result.0.pass.words st result.1 }
{
    let at = standing(session.seen, version, &why);
    (session.carrying(at), Reply::Refused { at, why })
}
