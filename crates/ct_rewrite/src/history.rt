// Changes and commits as they are printed.

use crate::answer::{AnswerRow, Node};
use ct_word::{List, Term, Text};

/// A change whose conditions are positions in its commit's node list.
#[derive(Drop)]
pub enum Change {
    Create {
        name: Text,
        columns: List<Text>,
    },
    Insert {
        name: Text,
        rows: List<AnswerRow>,
    },
    Delete {
        name: Text,
        cond: u32,
    },
    /// The sets are positions of columns from 0, each with the term that its cells get.
    Update {
        name: Text,
        sets: List<(u32, Term)>,
        cond: u32,
    },
    Assert {
        cond: u32,
    },
}

/// The changes of one commit, its session, and its number among the session's commits.
#[derive(Drop)]
pub struct Commit {
    pub session: u32,
    pub number: u32,
    pub nodes: List<Node>,
    pub changes: List<Change>,
}
