// Whether a commit after the base of an offer has changed what it read.

ghost use Rattle.std.specs.Prelude.{◌≡◌, ℕ, List, IfOk, MatchOption};
ghost use Rattle.ct_word.specs.Reading.{commits_of};
ghost use Rattle.ct_keeper.specs.Conflicting.{IsConflictAfter};
ghost use Rattle.ct_keeper.specs.Latest.{IsLatest};
ghost use Rattle.ct_keeper.specs.Offers.{AreUnchanged};

use crate::latest::Latest;
use crate::verdict::Verdict;
use ct_query::Read;
use ct_word::Memory;

/// A copy of what is read.
///
/// # Errors
/// `Memory` where there is none for the table's name.
fn copied(read: &Read) -> Result<Read, Memory>
    ensures { IfOk result (λ copy. copy ≡ read.now) }
{
    match read {
        Read::Table(name) => Ok(Read::Table(name.clone()?)),
        Read::Worlds => Ok(Read::Worlds),
    }
}

/// The conflict with the first of these reads that a commit after the base has changed, if there is one. The words are
/// not gone over.
///
/// # Errors
/// `Memory` where there is none for a copy of the read.
pub fn conflict_of(latest: &Latest, base: u32, reads: &[Read]) -> Result<Option<Verdict>, Memory>
    ensures { (words : List ℕ) → IsLatest words latest.now → IfOk result (λ found. MatchOption found (AreUnchanged (commits_of words) base reads.now) (IsConflictAfter (commits_of words) base reads.now)) }
{
    // A commit after the base is wanted, and there is none: nothing that was read can have changed.
    if base == latest.version {
        return Ok(None);
    }
    for read in reads {
        let now = latest.writers.last(read);
        if base < now {
            let table = copied(read)?;
            return Ok(Some(Verdict::Conflict {
                table,
                now,
                at: latest.version,
            }));
        }
    }
    Ok(None)
}
