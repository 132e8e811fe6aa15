// The last commits that changed what is read.

ghost use Rattle.std.specs.Prelude.{◌≡◌, ◌≤◌, ℕ, List, [], ◌∷◌, if◌then◌else◌, length, map, IfOk, OnOk, MatchOption};
ghost use Rattle.std.specs.List.{list_any};
ghost use Rattle.indexmap.specs.IndexMap.{spare};
ghost use Rattle.ct_history.specs.Written.{plain_written};
ghost use Rattle.ct_query.specs.Reads.{writes};
ghost use Rattle.ct_query.specs.declared.action.Read.{Read};
ghost use Rattle.ct_keeper.specs.Steps.{is_assertion};
ghost use Rattle.ct_keeper.specs.Writers.{last_in, is_written, names_in};

use ct_history::Written;
use ct_query::Read;
use ct_word::{Memory, Text};
use indexmap::IndexMap;
use std::alloc::Global;

/// For each table the number of the last commit that changed it, and the number of the last commit with an assertion;
/// commits are counted from 1. A table that is left out was changed by none, and 0 stands for none too.
#[derive(Drop)]
pub struct Writers {
    pub(crate) tables: IndexMap<Text, u32>,
    pub(crate) worlds: u32,
}

impl Writers {
    /// No commit changed anything. It takes no memory.
    pub fn none(alloc: Global) -> Writers
        ensures { (r : Read) → last_in result r ≡ 0 }
    {
        Writers {
            tables: IndexMap::new(alloc),
            worlds: 0,
        }
    }

    /// The number of the last commit that changed what is read, or 0.
    pub fn last(&self, read: &Read) -> u32
        ensures { result ≡ last_in self.now read.now }
    {
        match read {
            Read::Table(name) => match self.tables.get(name) {
                Some(number) => *number,
                None => 0,
            },
            Read::Worlds => self.worlds,
        }
    }

    /// Makes room for the names of so many tables.
    ///
    /// # Errors
    /// `Memory` where there is none for them.
    pub fn reserve(&mut self, names: usize) -> Result<(), Memory>
        ensures same { (r : Read) → last_in self.new r ≡ last_in self.old r }
        ensures room { OnOk result (names ≤ spare self.new.tables) }
    {
        self.tables.reserve(names)?;
        Ok(())
    }

    /// Notes the commit of this number, which changed the tables of these names and asserts something or not. It takes no
    /// memory.
    pub fn note(&mut self, names: Vec<Text>, asserts: bool, number: u32)
        requires room { length names.items ≤ spare self.old.tables }
        ensures { (r : Read) → last_in self.new r ≡ (if is_written names.items asserts r then number else last_in self.old r) }
    {
        for name in names {
            drop(self.tables.insert(name, number));
        }
        if asserts {
            self.worlds = number;
        }
    }
}

/// Whether one of these changes is an assertion.
pub fn asserts(changes: &[Written]) -> bool
    ensures { result ≡ list_any is_assertion changes.now }
{
    for change in changes {
        if let Written::Assert { .. } = change {
            return true;
        }
    }
    false
}

/// The name of the table that a change writes; none for an assertion.
fn written_name(change: &Written) -> Option<&Text>
    ensures { MatchOption result (names_in change.now ≡ []) (λ name. names_in change.now ≡ name.now ∷ []) }
{
    match change {
        Written::Create { name, .. } => Some(name),
        Written::Insert { name, .. } => Some(name),
        Written::Delete { name, .. } => Some(name),
        Written::Update { name, .. } => Some(name),
        Written::Assert { .. } => None,
    }
}

/// The names of the tables that these changes write, once for each change.
///
/// # Errors
/// `Memory` where there is none for the copies of the names.
pub fn written_names(alloc: Global, changes: &[Written]) -> Result<Vec<Text>, Memory>
    ensures { (words : List ℕ) (r : Read) → IfOk result (λ names. is_written names.items (list_any is_assertion changes.now) r ≡ list_any (λ x. writes x r) (map (plain_written words) changes.now)) }
{
    let mut names = Vec::new(alloc);
    for change in changes {
        if let Some(name) = written_name(change) {
            names.push(name.clone()?)?;
        }
    }
    Ok(names)
}
