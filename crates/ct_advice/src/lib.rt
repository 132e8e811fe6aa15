//! Advice on refused statements: which name or number does not fit, and what is there instead.
//!
//! No sentence has a contract: they are meant for people. What they are put behind is proved in `ct_remarks`.
#![tactic(auto)]

mod aliases;
mod alone;
mod asserted;
mod faults;
mod limits;
mod naming;
mod parts;
mod tables;
mod tokens;

pub use aliases::{BareAlias, bare_alias, broken_text};
pub use alone::{add_nulls, has_null, is_false_alone};
pub use asserted::{Asserted, asserted_by, is_over_tables};
pub use faults::{Fault, FaultAt, fault_in};
pub use limits::{asserting, push_too_deep, push_too_large};
pub use naming::{
    push_ambiguous_column, push_column_count, push_duplicate_name, push_table_exists,
    push_unknown_column, push_unknown_table,
};
pub use parts::{Mention, Part, Seen, Select, part_before, selects};
pub use tables::{Known, Made, Own, Visible, known_of, own_table};
pub use tokens::{
    is_among_at, is_cell_at, is_keyword_at, is_name_at, is_null_at, is_number_at, is_same,
    is_symbol_at, is_text_at, is_word_at, word, word_at,
};
