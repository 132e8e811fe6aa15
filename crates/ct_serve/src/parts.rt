// Lists that threads make in parts.

ghost use Rattle.std.specs.Prelude.{◌≡◌, ◌<◌, ◌≤◌, IfOk};
ghost use Rattle.ct_serve.specs.Joined.{AreJoined, bound_of};

use ct_word::Memory;
use std::alloc::Global;

/// How many words of the log are worth a thread of their own. To start one takes some tens of microseconds, and to read
/// the commits of so many words and print them takes more than a millisecond.
const PART_WORDS: usize = 4_096;

/// In how many parts the end of a run is worked off that had so many sessions, and whose log has so many words.
pub(crate) fn parts_for(sessions: usize, words: usize) -> usize
    requires some { 0 < sessions }
    ensures { 0 < result }
{
    sessions.min(words / PART_WORDS + 1)
}

/// The items of all parts, part after part.
///
/// # Errors
/// `Memory` where it was wanting for a part, or is for the list.
pub(crate) fn joined<T: Drop>(
    alloc: Global,
    parts: Vec<Result<Vec<T>, Memory>>,
) -> Result<Vec<T>, Memory>
    ensures { IfOk result (λ all. AreJoined (λ v. v.items) parts.items all.items) }
{
    let mut all = Vec::new(alloc);
    for part in parts {
        let mut part = part?;
        all.append(&mut part)?;
    }
    Ok(all)
}

/// The place at which a part begins, of so many parts of a list of this length. The last one ends where the list does.
pub(crate) fn bound(len: usize, parts: usize, k: usize) -> usize
    requires some { 0 < parts }
    ensures is { result ≡ bound_of len parts k }
    ensures within { result ≤ len }
{
    if k == parts {
        return len;
    }
    k.saturating_mul(len / parts).min(len)
}
