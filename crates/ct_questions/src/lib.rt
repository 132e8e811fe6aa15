//! The questions of POSSIBLE and CERTAIN, and the lists that right decisions of them make.
//!
//! The questions are roots: places of conditions. Who decides them is not said here. It may be several workers, in any order.
#![tactic(auto)]

mod rows;
mod tuples;

pub use rows::{possible_list, possible_questions};
pub use tuples::{Candidate, certain_left, certain_list, certain_questions};
