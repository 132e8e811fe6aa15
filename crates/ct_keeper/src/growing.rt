// Tables that an effect has reached, where nothing is to be undone.

ghost use Rattle.std.specs.Prelude.{◌≡◌, IfOk, MatchResult};
ghost use Rattle.ct_table.specs.Pending.{FitsGrowth, after};

use crate::tables::Tables;
use ct_table::Growth;
use std::alloc::Global;

/// The tables after a growth.
///
/// # Errors
/// The tables as they were, where there is no memory.
pub fn grown(alloc: Global, tables: Tables, growth: Growth) -> Result<Tables, Tables>
    requires fits { FitsGrowth tables growth }
    ensures { MatchResult result (λ after'. after' ≡ after tables growth) (λ same. same ≡ tables) }
{
    match tables.into_db(alloc) {
        Ok(db) => match db.growing(alloc, growth) {
            Ok(pending) => Ok(Tables::alone(pending.done())),
            Err(same) => Err(Tables::alone(same)),
        },
        Err(same) => Err(same),
    }
}
