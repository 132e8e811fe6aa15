// What an offer is found to be while the lock is held.

ghost use Rattle.std.specs.Prelude.{◌≡◌, ◌<◌, ◌^◌, length};
ghost use Rattle.ct_word.specs.Reading.{commits_of};
ghost use Rattle.ct_word.specs.WellFormed.{IsWellFormed};
ghost use Rattle.ct_keeper.specs.Conflicting.{told, told_or};

use crate::catalogue::Outcome;
use crate::error::KeeperError;
use ct_history::last;
use ct_query::Read;

/// What became of an offer. Of a conflict the last writer at the base is still to be looked for in the words.
#[derive(Drop)]
pub enum Verdict {
    Committed(u32),
    Nothing,
    Conflict { table: Read, now: u32, at: u32 },
}

impl Verdict {
    /// The outcome for an offer with this base, where the words have the commits that it was judged by. The words are gone
    /// over for a conflict alone.
    fn outcome(self, words: &[u64], base: u32) -> Outcome
        requires formed { IsWellFormed words.now }
        requires short { length words.now < 2 ^ 28 }
        ensures { result ≡ told (commits_of words.now) base self }
    {
        match self {
            Verdict::Committed(number) => Outcome::Committed(number),
            Verdict::Nothing => Outcome::Nothing,
            Verdict::Conflict { table, now, at } => {
                let was = last(words, base, &table);
                Outcome::Conflict {
                    table,
                    was,
                    now,
                    at,
                }
            }
        }
    }
}

/// The outcome of a verdict on an offer with this base, where the words have the commits that it was judged by.
///
/// # Errors
/// Those of the verdict.
pub(crate) fn outcome_of(
    verdict: Result<Verdict, KeeperError>,
    words: &[u64],
    base: u32,
) -> Result<Outcome, KeeperError>
    requires formed { IsWellFormed words.now }
    requires short { length words.now < 2 ^ 28 }
    ensures { result ≡ told_or (commits_of words.now) base verdict }
{
    match verdict {
        Ok(verdict) => Ok(verdict.outcome(words, base)),
        Err(e) => Err(e),
    }
}
