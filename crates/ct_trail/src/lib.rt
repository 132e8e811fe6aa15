//! The log and the trail of a propositional search: clauses that were added and learned, and the literals that are true.
//!
//! Each step keeps what is true of both (`specs/Standing.antt`). From a false clause a new one is
//! learned, up to the first unique implication point (Marques-Silva and Sakallah 1999; no clause says so).
#![tactic(auto)]

mod analysis;
mod assignment;
mod board;
mod learning;
mod literal;
mod log;
mod look;
mod marks;
mod scan;
mod trail;

pub use analysis::clause;
pub use assignment::Truth;
pub use board::Board;
pub use learning::Return;
pub use literal::{is_same, is_within, opposite};
pub use log::{Entry, Rup};
pub use look::Look;
pub use scan::{Scan, hint};
pub use trail::Put;
