// What stands after all commits.

ghost use Rattle.std.specs.Prelude.{◌≡◌, ℕ, List, [], IfOk};
ghost use Rattle.ct_keeper.specs.Catalogue.{HasOwn, IsNewest};
ghost use Rattle.ct_keeper.specs.Latest.{IsLatest};
ghost use Rattle.ct_keeper.specs.Writers.{last_in};
ghost use Rattle.ct_query.specs.declared.action.Read.{Read};

use crate::catalogue::Snapshot;
use crate::tables::Tables;
use crate::writers::Writers;
use ct_word::{List, Memory, World};
use std::alloc::Global;
use std::sync::Arc;

/// Tables with the place of their global condition.
#[derive(Drop)]
pub struct Content {
    pub tables: Tables,
    pub global: u32,
}

/// The content after all commits, a world that they admit, how many they are, and which of them were the last to change
/// what can be read.
#[derive(Drop)]
pub struct Latest {
    pub content: Content,
    pub kept: Arc<World, Global>,
    pub version: u32,
    pub writers: Writers,
}

impl Latest {
    /// What stands before all commits: no tables, the word true for the global condition, and the world that lists nothing.
    ///
    /// # Errors
    /// `Memory` where there is none for the kept world.
    pub fn first(alloc: Global) -> Result<Latest, Memory>
        ensures tables { IfOk result (λ l. l.content.tables ≡ []) }
        ensures global { IfOk result (λ l. l.content.global ≡ 0) }
        ensures kept { IfOk result (λ l. l.kept.value ≡ []) }
        ensures version { IfOk result (λ l. l.version ≡ 0) }
        ensures writers { (r : Read) → IfOk result (λ l. last_in l.writers r ≡ 0) }
    {
        let kept = Arc::new(alloc, List::new(alloc))?;
        let content = Content {
            tables: Tables::empty(alloc),
            global: 0,
        };
        Ok(Latest {
            content,
            kept,
            version: 0,
            writers: Writers::none(alloc),
        })
    }

    /// A snapshot of all commits.
    ///
    /// # Errors
    /// `Memory` where there is none to share the tables.
    pub fn snapshot(&mut self, alloc: Global) -> Result<Snapshot, Memory>
        ensures snapshot { (words : List ℕ) → IsLatest words self.old → IfOk result (IsNewest words) }
        ensures own { IfOk result (HasOwn self.old.content.tables self.old.content.global self.old.kept.value) }
        ensures same { self.new ≡ self.old }
    {
        let db = self.content.tables.share(alloc)?;
        let kept = Arc::try_clone(&self.kept)?;
        Ok(Snapshot {
            version: self.version,
            db,
            global: self.content.global,
            kept,
        })
    }
}
