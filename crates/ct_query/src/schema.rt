// Names of tables and columns, and counts of rows.

use ct_word::{List, Text};

/// A table's name and columns.
#[derive(Drop, PartialEq, Eq)]
pub struct Heading {
    pub name: Text,
    pub columns: List<Text>,
}

/// The tables, in the order of their creation.
#[derive(Drop)]
pub struct Schema {
    pub tables: List<Heading>,
}

/// A table's name, and its numbers of rows and columns.
#[derive(Drop)]
pub struct Count {
    pub name: Text,
    pub rows: u64,
    pub columns: u32,
}

/// The counts of all tables.
#[derive(Drop)]
pub struct Counts {
    pub tables: List<Count>,
}
