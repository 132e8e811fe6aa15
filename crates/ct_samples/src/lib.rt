//! What the tests of several crates begin with: small logs, tests of what calls ask of their words, and numbers that look
//! like chance.
#![tactic(auto)]

mod chance;
mod logs;
mod places;

pub use chance::{between, is_head, pick};
pub use logs::{add, log};
pub use places::{are_places, is_place, no_columns};
