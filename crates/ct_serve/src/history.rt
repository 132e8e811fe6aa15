// The history of a run, read from its log on threads.

ghost use Rattle.std.specs.Prelude.{◌≡◌, ◌<◌, ◌+◌, ◌^◌, length, All, IfOk};
ghost use Rattle.ct_word.specs.StandsFor.{StandsFor};
ghost use Rattle.ct_word.specs.WellFormed.{IsWellFormed};
ghost use Rattle.ct_rewrite.specs.History.{IsCommitFormed, plain_history};
ghost use Rattle.ct_history.specs.Commits.{StandsBetween};
ghost use Rattle.ct_serve.specs.Joined.{bound_of};

use crate::parts::{bound, joined};
use ct_history::commits_between;
use ct_transcript::Commit;
use ct_word::{List, Memory};
use std::alloc::Global;
use std::thread;
use std::thread::Threads;

/// The commits of a whole log, in order, read in so many parts, each on a thread of its own where threads can be made.
///
/// # Errors
/// `Memory` where there is none for the commits.
pub(crate) fn history_of<R: Threads + Sync>(
    rt: &R,
    alloc: Global,
    words: &[u64],
    parts: usize,
) -> Result<List<Commit>, Memory>
    requires formed { IsWellFormed words.now }
    requires short { length words.now < 2 ^ 28 }
    requires some { 0 < parts }
    ensures { IfOk result (λ h. StandsFor (plain_history h) words.now × All IsCommitFormed h) }
{
    let len = words.len();
    let read = |k: usize| -> Result<Vec<Commit>, Memory>
        requires { IsWellFormed words.now × (length words.now < 2 ^ 28) × (len ≡ length words.now) × (k < parts) }
        ensures { IfOk result (λ part. StandsBetween words.entry.now (bound_of len parts k) (bound_of len parts (k + 1)) part.items × All IsCommitFormed part.items) }
    {
        let from = bound(len, parts, k);
        let upto = bound(len, parts, k + 1);
        commits_between(alloc, words, from as u32, upto as u32)
    };
    let made = thread::map_indices(rt, alloc, parts, &read)?;
    let commits = joined(alloc, made)?;
    Ok(List::from_vec(commits))
}
