// Actions and statements with positions for names.

use crate::query::{Pred, Query};
use ct_word::{List, Term, Text};

/// One change that a statement asks for.
#[derive(Drop)]
pub enum Action {
    Create {
        name: Text,
        columns: List<Text>,
    },
    InsertRows {
        name: Text,
        rows: List<List<Term>>,
        pred: Pred,
    },
    InsertQuery {
        name: Text,
        query: Query,
    },
    Delete {
        name: Text,
        pred: Pred,
    },
    /// Each set is a position and the term that it gets, taken from the old row.
    Update {
        name: Text,
        sets: List<(u32, Term)>,
        pred: Pred,
    },
    Assert {
        pred: Pred,
    },
    /// That the query has a row, where one is wanted, or that it has none.
    AssertQuery {
        wanted: bool,
        query: Query,
    },
    /// That no two different rows of the table agree at these positions.
    AssertKey {
        name: Text,
        columns: List<u32>,
    },
}

/// What is asked of a query.
#[derive(Clone, Copy, Debug, PartialEq, Eq)]
pub enum Ask {
    Rows,
    Possible,
    Certain,
}

/// A statement with positions for names.
#[derive(Drop)]
pub enum Resolved {
    Act(Action),
    Ask {
        ask: Ask,
        columns: List<Text>,
        query: Query,
    },
    Begin,
    Commit,
    Rollback,
}

/// What a statement reads.
#[derive(Drop, PartialEq, Eq)]
pub enum Read {
    Table(Text),
    Worlds,
}
