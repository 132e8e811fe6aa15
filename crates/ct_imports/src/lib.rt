//! The script that is imported of a CSV file is the statements that make its table.
#![tactic(auto)]

mod theorems;

pub use theorems::scripts_are_statements;
