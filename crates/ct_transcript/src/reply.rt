// Replies and transcripts.

ghost use Rattle.std.specs.Prelude.{◌≡◌};
ghost use Rattle.ct_transcript.specs.declared.reply.Refusal.TheVariants as refusal;

use ct_arena::Full;
use ct_derivation::Proof;
use ct_query::Read;
use ct_rewrite::{AnswerRow, CertainRow, Node, PossibleRow};
use ct_word::{List, Memory, Text};
use std::alloc::{AllocError, AllocFailed};

/// Why a statement was refused.
#[derive(Drop)]
pub enum Refusal {
    /// The text is no statement of the grammar: it has an open text or a stray byte, or its tokens spell none.
    NotAStatement,
    /// The text nests deeper than 64, or has more than 64 set operators.
    TooDeep,
    /// A number of the text is outside 64 bits signed.
    NumberRange,
    /// A transaction is to begin within another one.
    InTransaction,
    /// A transaction is to end where none is open.
    NoTransaction,
    /// A table that is named is not there.
    UnknownTable,
    /// A table is to be created whose name is there.
    TableExists,
    /// No table in scope has a column that is named.
    UnknownColumn,
    /// Two or more tables in scope have a column that is named without its table.
    AmbiguousColumn,
    /// Two columns of a new table, or two tables of a FROM, have one name, or a column is set twice, or stands twice in a key.
    DuplicateName,
    /// Numbers of columns differ.
    ColumnCount,
    /// By the counts of all rows that were ever made, the greatest part of the query, or a key, goes through
    /// more than 16,777,216 rows or pairs of rows.
    TooLarge,
    /// The log has as many words as its capacity, and the statement may need a word.
    Full,
    /// No world that the commits and the transaction's changes admit satisfies the assertion: the proof refutes it.
    Inconsistent {
        proof: Proof,
    },
    /// A commit after the version that the transaction saw, or the action outside one, has changed what it reads:
    /// `table`, the first such, was last changed by commit `was` up to that version, and by commit `now` up to version
    /// `at`. Where `was` is 0, no commit had.
    Conflict {
        table: Read,
        was: u32,
        now: u32,
        at: u32,
    },
    /// Memory was wanting.
    Memory,
}

impl From<Full> for Refusal {
    ghost from_gives = { λ _ e. e ≡ refusal.Full };

    fn from(_: Full) -> Self {
        Refusal::Full
    }
}

impl From<Memory> for Refusal {
    ghost from_gives = { λ _ e. e ≡ refusal.Memory };

    fn from(_: Memory) -> Self {
        Refusal::Memory
    }
}

impl From<AllocError> for Refusal {
    ghost from_gives = { λ _ e. e ≡ refusal.Memory };

    fn from(_: AllocError) -> Self {
        Refusal::Memory
    }
}

impl<T: Drop> From<AllocFailed<T>> for Refusal {
    ghost from_gives = { λ _ e. e ≡ refusal.Memory };

    fn from(_: AllocFailed<T>) -> Self {
        Refusal::Memory
    }
}

/// A conditional table with its global condition: at each valuation at which the global condition holds,
/// it shows the cells of the rows whose condition holds, with the valuation's values for the nulls
/// (Imielinski and Lipski 1984; the global condition is that of Abiteboul, Kanellakis and Grahne 1991).
#[derive(Drop)]
pub struct Answer {
    pub columns: List<Text>,
    /// The conditions, children before their parents.
    pub nodes: List<Node>,
    pub rows: List<AnswerRow>,
    /// The position of the global condition among the nodes.
    pub global: u32,
}

/// What a statement is answered. `at` is a version: the number of commits that were seen. `plus` is the number of
/// the transaction's own changes, 0 outside a transaction.
#[derive(Drop)]
pub enum Reply {
    /// A transaction has begun, at version `at`.
    Begun {
        at: u32,
    },
    /// The transaction has ended, and none of its changes was made.
    RolledBack,
    /// The statement's change is number `plus` of the transaction that began at version `at`.
    Pending {
        at: u32,
        plus: u32,
    },
    /// The changes of the statement or of the transaction that it ends are commit `at` of the history.
    Committed {
        at: u32,
    },
    /// The transaction that began at version `at` has ended, and had no changes.
    Nothing {
        at: u32,
    },
    /// The answer to a query at version `at`, after `plus` changes of the transaction's own.
    Rows {
        at: u32,
        plus: u32,
        answer: Answer,
    },
    /// The rows that a query has in some of the worlds, each with such a world.
    Possible {
        at: u32,
        plus: u32,
        columns: List<Text>,
        rows: List<PossibleRow>,
    },
    /// The tuples that a query has in all worlds, each with a proof that it is absent in none.
    Certain {
        at: u32,
        plus: u32,
        columns: List<Text>,
        rows: List<CertainRow>,
    },
    /// The statement has no effect, but that a transaction with a conflict has ended. `at` is the version that the
    /// refusal rests on, or the last one that was seen.
    Refused {
        at: u32,
        why: Refusal,
    },
}

/// A session's script and its replies, one for each statement.
#[derive(Drop)]
pub struct SessionLog {
    pub script: Text,
    pub replies: List<Reply>,
}
