//! The text of a condition is read as a condition of the same truth.
#![tactic(auto)]

mod theorems;

pub use theorems::{conditions_are_read_back, forms_are_read_back, terms_are_read_back};
