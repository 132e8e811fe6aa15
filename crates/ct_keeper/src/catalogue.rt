// What a session gets from the keeper, and what it offers and is answered.

use ct_query::Read;
use ct_table::Db;
use ct_word::{List, World};
use std::alloc::Global;
use std::sync::Arc;

/// A version as a session sees it: its number, its tables, the place of its global condition, and a world that its
/// commits admit.
#[derive(Drop)]
pub struct Snapshot {
    pub version: u32,
    pub db: Arc<Db, Global>,
    pub global: u32,
    pub kept: Arc<World, Global>,
}

/// What a session offers to commit: the version that it saw, what it read there, the place of its change list, and,
/// where the list has an assertion, a world that the commits up to that version and the changes admit. Where it has none,
/// no world need be there.
#[derive(Drop)]
pub struct Offer {
    pub base: u32,
    pub reads: List<Read>,
    pub changes: u32,
    pub kept: Option<Arc<World, Global>>,
}

/// What became of an offer.
#[derive(Drop)]
pub enum Outcome {
    /// It is the commit of this number, counted from 1.
    Committed(u32),
    /// It has no changes, so nothing was committed.
    Nothing,
    /// A commit after its base has changed what it read: the first such read, the numbers of the last commits that
    /// changed it at the base and now, and the number of commits now.
    Conflict {
        table: Read,
        was: u32,
        now: u32,
        at: u32,
    },
}
