//! The clauses of a question: may the condition at a place of the log hold?
//!
//! Each condition below the place, and the equality of each equal word among them, is a variable.
//! The clauses define the conditions by their fields (Tseitin 1968).
#![tactic(auto)]

mod definitions;
mod encoding;
mod entries;
mod error;
mod numbers;

pub use encoding::{Encoded, encode};
pub use error::CnfError;
