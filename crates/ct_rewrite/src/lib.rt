//! The printed form of conditions, and the types of answers and commits.
//!
//! A node list holds conditions over earlier nodes of the list (`specs/Nodes.antt`).
//! `normal` turns places of a log's words into positions of such a list.
#![tactic(auto)]

mod answer;
mod below;
mod builder;
mod form;
mod forms;
mod history;
mod joining;
mod kept;
mod numbering;
mod order;
mod plain;
mod positions;
mod printed;
mod terms;

pub use answer::{AnswerRow, CertainRow, Node, PossibleRow};
pub use form::Normal;
pub use history::{Change, Commit};
pub use order::compare_nulls;
pub use printed::normal;
