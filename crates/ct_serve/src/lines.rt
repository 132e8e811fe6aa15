// The lines of a transcript, made on threads.

ghost use Rattle.std.specs.Prelude.{◌≡◌, ◌+◌, ◌<◌, length, IfOk};
ghost use Rattle.ct_transcript.specs.Text.{sessions_from, commits_from, lines_of};
ghost use Rattle.ct_serve.specs.Joined.{bound_of, part_of};

use crate::parts::{bound, joined, parts_for};
use ct_transcript::{
    Commit, SessionLog, Transcript, lines_of_commits, lines_of_parts, lines_of_sessions,
};
use ct_word::{Memory, Text};
use std::alloc::Global;
use std::thread;
use std::thread::Threads;

/// The lines of the sessions, made in so many parts, each on a thread of its own where threads can be made.
///
/// # Errors
/// `Memory` where there is none for the lines.
fn session_lines<R: Threads + Sync>(
    rt: &R,
    alloc: Global,
    sessions: &[SessionLog],
    parts: usize,
) -> Result<Vec<Text>, Memory>
    requires some { 0 < parts }
    ensures { IfOk result (λ ls. ls.items ≡ sessions_from 1 sessions.now) }
{
    let print = |k: usize| -> Result<Vec<Text>, Memory>
        requires { k < parts }
        ensures { IfOk result (λ part. part.items ≡ sessions_from (bound_of (length sessions.entry.now) parts k + 1) (part_of parts k sessions.entry.now)) }
    {
        let from = bound(sessions.len(), parts, k);
        let upto = bound(sessions.len(), parts, k + 1);
        lines_of_sessions(alloc, from + 1, &sessions[from..upto])
    };
    let made = thread::map_indices(rt, alloc, parts, &print)?;
    joined(alloc, made)
}

/// The lines of the commits, made as those of the sessions.
///
/// # Errors
/// `Memory` where there is none for the lines.
fn commit_lines<R: Threads + Sync>(
    rt: &R,
    alloc: Global,
    commits: &[Commit],
    parts: usize,
) -> Result<Vec<Text>, Memory>
    requires some { 0 < parts }
    ensures { IfOk result (λ ls. ls.items ≡ commits_from 1 commits.now) }
{
    let print = |k: usize| -> Result<Vec<Text>, Memory>
        requires { k < parts }
        ensures { IfOk result (λ part. part.items ≡ commits_from (bound_of (length commits.entry.now) parts k + 1) (part_of parts k commits.entry.now)) }
    {
        let from = bound(commits.len(), parts, k);
        let upto = bound(commits.len(), parts, k + 1);
        lines_of_commits(alloc, from + 1, &commits[from..upto])
    };
    let made = thread::map_indices(rt, alloc, parts, &print)?;
    joined(alloc, made)
}

/// The text of a transcript, as `lines` of `ct_transcript` gives it. Where it has one session, or the log is short, no
/// thread is made.
///
/// # Errors
/// `Memory` where there is none for the text.
pub fn all_lines<R: Threads + Sync>(
    rt: &R,
    alloc: Global,
    transcript: &Transcript,
) -> Result<Vec<Text>, Memory>
    ensures { IfOk result (λ ls. ls.items ≡ lines_of transcript.now.sessions transcript.now.history) }
{
    let sessions = transcript.sessions.as_slice();
    let parts = parts_for(sessions.len().max(1), transcript.words.words().len());
    let said = session_lines(rt, alloc, sessions, parts)?;
    let done = commit_lines(rt, alloc, transcript.history.as_slice(), parts)?;
    lines_of_parts(alloc, said, done)
}
