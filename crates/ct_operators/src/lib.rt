//! Conditional tables over places of the log, and the operators of relational algebra on them.
#![tactic(auto)]

mod deletion;
mod error;
mod gathering;
mod insertion;
mod judging;
mod matching;
mod membership;
mod merging;
mod nearness;
mod others;
mod placing;
mod products;
mod projection;
mod rows;
mod selection;
mod source;
mod table;
mod unions;

pub use ct_word::CRow;
pub use deletion::delete;
pub use error::TableError;
pub use gathering::Gathering;
pub use insertion::insert;
pub use membership::{except, intersect};
pub use placing::{cell_for, on_row};
pub use products::{joined_names, product};
pub use projection::{pick, project};
pub use rows::{names, under};
pub use selection::select;
pub use source::RowSource;
pub use table::CTable;
pub use unions::union;
