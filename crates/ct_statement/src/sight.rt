// What a statement sees.

ghost use Rattle.std.specs.Prelude.{◌≡◌, ℕ, List, []};
ghost use Rattle.ct_keeper.specs.Catalogue.{IsNewest};
ghost use Rattle.ct_statement.specs.Sight.{IsSight, actions_before};

use ct_keeper::{Snapshot, Tables};
use ct_query::Action;
use ct_word::World;
use std::alloc::Global;
use std::sync::Arc;

/// What a statement sees: the tables, the place of the global condition and a kept world at a version, after the actions
/// of its transaction. Outside a transaction there are no actions.
#[derive(Drop)]
pub struct Sight {
    pub version: u32,
    pub actions: Vec<Action>,
    pub tables: Tables,
    pub global: u32,
    pub kept: Arc<World, Global>,
}

impl Sight {
    /// What a statement sees at a snapshot.
    pub fn of(alloc: Global, snapshot: Snapshot) -> Sight
        ensures sight { (words : List ℕ) → IsNewest words snapshot → IsSight words result }
        ensures version { result.version ≡ snapshot.version }
        ensures none { actions_before result ≡ [] }
    {
        let Snapshot {
            version,
            db,
            global,
            kept,
        } = snapshot;
        Sight {
            version,
            actions: Vec::new(alloc),
            tables: Tables::shared(db),
            global,
            kept,
        }
    }
}
