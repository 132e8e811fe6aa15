// The replies of sessions, line by line.

ghost use Rattle.std.specs.Prelude.{◌≡◌, ◌+◌, ◌^◌, ◌≤◌, List, [], ◌∷◌, ◌++◌, length, codes, decimal, IfOk};
ghost use Rattle.ct_transcript.specs.NodeText.{line};
ghost use Rattle.ct_transcript.specs.Text.{replies_from, sessions_from};
ghost use Rattle.ct_print.specs.Written.{Adds};

use crate::replies::push_replies;
use crate::reply::SessionLog;
use crate::rows::push_line;
use ct_word::{Memory, Text};
use std::alloc::Global;

fn push_session(
    alloc: Global,
    lines: &mut Vec<Text>,
    s: usize,
    session: &SessionLog,
) -> Result<(), Memory>
    ensures { Adds result lines.old lines.new (line (codes "session " ++ decimal s) ∷ replies_from 1 session.now.replies) }
{
    push_line(lines, format!(in alloc; "session {s}")?)?;
    push_replies(alloc, lines, session.replies.as_slice())
}

/// The lines of these sessions, which are numbered from `first` on.
///
/// # Errors
/// `Memory` where there is none for the lines.
pub fn lines_of_sessions(
    alloc: Global,
    first: usize,
    sessions: &[SessionLog],
) -> Result<Vec<Text>, Memory>
    requires numbers { first + length sessions.now ≤ 2 ^ 64 }
    ensures { IfOk result (λ ls. ls.items ≡ sessions_from first sessions.now) }
{
    let mut lines = Vec::new(alloc);
    for (i, session) in sessions.iter().enumerate() {
        push_session(alloc, &mut lines, first + i, session)?;
    }
    Ok(lines)
}
