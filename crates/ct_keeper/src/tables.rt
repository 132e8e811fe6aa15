// The tables of a version, held alone or shared with snapshots.

ghost use Rattle.std.specs.Prelude.{◌≡◌, [], IfOk, MatchResult};
ghost use Rattle.ct_keeper.specs.Held.{tables_in};

use ct_table::Db;
use ct_word::Memory;
use std::alloc::Global;
use std::marker::Model;
use std::sync::Arc;

/// Who holds the tables: this owner alone, or snapshots too.
#[derive(Drop)]
pub enum Held {
    Own(Db),
    Shared(Arc<Db, Global>),
}

/// The tables of a version. Contracts see them as the tables.
#[derive(Drop)]
pub struct Tables {
    held: Held,
}

impl Model for Tables {
    ghost use Rattle.std.specs.Prelude.{List};
    ghost use Rattle.ct_table.specs.Denotes.{TableView};
    ghost use Rattle.ct_keeper.specs.Held.{tables_in};

    ghost Value = { List TableView };

    ghost view = { λ t. tables_in t.held };
}

impl Tables {
    /// The version without tables. It takes no memory.
    pub fn empty(alloc: Global) -> Tables
        ensures { result ≡ [] }
    {
        Tables::alone(Db::empty(alloc))
    }

    /// Tables that nobody else holds.
    pub fn alone(db: Db) -> Tables
        ensures { result ≡ db }
    {
        Tables {
            held: Held::Own(db),
        }
    }

    /// Tables that others may hold too.
    pub fn shared(db: Arc<Db, Global>) -> Tables
        ensures { result ≡ db.value }
    {
        Tables {
            held: Held::Shared(db),
        }
    }

    /// The tables.
    pub fn db(&self) -> &Db
        ensures { result.now ≡ self.now }
    {
        match &self.held {
            Held::Own(db) => db,
            Held::Shared(db) => db,
        }
    }

    /// The tables, for others to hold too. They stay here as they were.
    ///
    /// # Errors
    /// `Memory` where there is none to share them.
    pub fn share(&mut self, alloc: Global) -> Result<Arc<Db, Global>, Memory>
        ensures same { self.new ≡ self.old }
        ensures tables { IfOk result (λ shared. shared.value ≡ self.old) }
    {
        let held = std::mem::replace(&mut self.held, Held::Own(Db::empty(alloc)));
        let (held, shared) = held.shared(alloc);
        self.held = held;
        shared
    }

    /// The tables for this owner alone. They are copied where somebody else holds them.
    ///
    /// # Errors
    /// The tables as they were, where there is no memory for the copy.
    pub fn into_db(self, alloc: Global) -> Result<Db, Tables>
        ensures { MatchResult result (λ db. db ≡ self) (λ same. same ≡ self) }
    {
        let shared = match self.held {
            Held::Own(db) => return Ok(db),
            Held::Shared(shared) => shared,
        };
        match Arc::try_unwrap(shared) {
            Ok(db) => Ok(db),
            Err(shared) => match shared.copied(alloc) {
                Ok(db) => Ok(db),
                Err(_) => Err(Tables::shared(shared)),
            },
        }
    }
}

impl Held {
    /// The tables, and one more hold of them.
    ///
    /// # Errors
    /// `Memory` where there is none to share them.
    fn shared(self, alloc: Global) -> (Held, Result<Arc<Db, Global>, Memory>)
        ensures same { tables_in result.0 ≡ tables_in self }
        ensures tables { IfOk result.1 (λ shared. shared.value ≡ tables_in self) }
    {
        let first = match self {
            Held::Shared(first) => first,
            Held::Own(db) => match Arc::new(alloc, db) {
                Ok(first) => first,
                Err(failed) => return (Held::Own(failed.value), Err(Memory)),
            },
        };
        match Arc::try_clone(&first) {
            Ok(second) => (Held::Shared(first), Ok(second)),
            Err(_) => (Held::Shared(first), Err(Memory)),
        }
    }
}
