//! Queries by positions and actions, what they read, bounds from counts of rows, and in `specs/` what they
//! mean on complete databases.
//!
//! The definitions take one valuation at a time and plain sets of tuples: relational algebra (`specs/Rows.antt`),
//! one change (`specs/Step.antt`), a history of changes (`specs/Worlds.antt`). No conditional row, no place
//! and no word of the log occurs in them.
#![tactic(auto)]

mod action;
mod bounding;
mod query;
mod reading;
mod schema;
mod sizing;
mod theorems;
mod weighing;

pub use action::{Action, Ask, Read, Resolved};
pub use bounding::nodes;
pub use query::{Pred, Query};
pub use reading::reads;
pub use schema::{Count, Counts, Heading, Schema};
pub use sizing::size;
pub use theorems::{agreed_changes_do, same_commits_keep, unread_commits_change_nothing};
