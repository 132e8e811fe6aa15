//! The conditions of assertions over queries and keys: that a table has a row, that it has none, and that no two of its
//! tuples agree at some columns and differ elsewhere.
#![tactic(auto)]

mod comparing;
mod keys;
mod members;
mod theorems;

pub use keys::key;
pub use members::{empty, some};
pub use theorems::{tests_see_sets, tests_tell};
