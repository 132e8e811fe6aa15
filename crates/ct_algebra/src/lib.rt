//! Queries of the relational algebra, answered over conditional tables.
#![tactic(auto)]

mod answering;
mod equals;
mod error;
mod evaluation;
mod joining;
mod keys;
mod literals;
mod operands;
mod picking;

pub use ct_table::Db;
pub use error::EvalError;
pub use evaluation::eval;
