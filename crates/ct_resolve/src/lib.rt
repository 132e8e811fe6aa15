//! Statements with positions for names.
#![tactic(auto)]

mod conditions;
mod error;
mod names;
mod queries;
mod resolving;
mod rows;
mod selects;
mod sets;
mod statements;
mod tables;
mod theorems;

pub use error::ResolveError;
pub use resolving::resolve;
pub use theorems::queries_have_numbers;
