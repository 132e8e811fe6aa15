// A whole transcript.

ghost use Rattle.std.specs.Prelude.{◌≡◌, [], ◌∷◌, ◌++◌, codes, IfOk};
ghost use Rattle.ct_transcript.specs.NodeText.{line};
ghost use Rattle.ct_transcript.specs.Text.{lines_of};

use crate::history::lines_of_commits;
use crate::reply::SessionLog;
use crate::rows::push_line;
use crate::sessions::lines_of_sessions;
use ct_arena::Log;
use ct_rewrite::Commit;
use ct_word::{List, Memory, Text};
use std::alloc::Global;

/// The replies of all sessions, the history of their commits, and the words of the log, which the places in proofs
/// refer to.
#[derive(Drop)]
pub struct Transcript {
    pub sessions: List<SessionLog>,
    pub history: List<Commit>,
    pub words: Log,
}

/// The text of a transcript, from the lines of its sessions and those of its commits.
///
/// # Errors
/// `Memory` where there is none for the text.
pub fn lines_of_parts(
    alloc: Global,
    sessions: Vec<Text>,
    mut commits: Vec<Text>,
) -> Result<Vec<Text>, Memory>
    ensures { IfOk result (λ ls. ls.items ≡ sessions.items ++ line (codes "history") ∷ commits.items ++ line (codes "end") ∷ []) }
{
    let mut lines = sessions;
    push_line(&mut lines, String::from_str(alloc, "history")?)?;
    lines.append(&mut commits)?;
    push_line(&mut lines, String::from_str(alloc, "end")?)?;
    Ok(lines)
}

/// The text of a transcript, one entry a line with its line end.
///
/// # Errors
/// `Memory` where there is none for the text.
pub fn lines(alloc: Global, transcript: &Transcript) -> Result<Vec<Text>, Memory>
    ensures { IfOk result (λ ls. ls.items ≡ lines_of transcript.now.sessions transcript.now.history) }
{
    let sessions = lines_of_sessions(alloc, 1, transcript.sessions.as_slice())?;
    let commits = lines_of_commits(alloc, 1, transcript.history.as_slice())?;
    lines_of_parts(alloc, sessions, commits)
}
