//! Derivations of the falsehood of a condition, over the words of ctdb's log.
//!
//! A derivation is a list of clauses, each with its reason; its last clause is empty.
//! When it is accepted is one Bool test (`specs/Accepts.antt`), which `ct_checker` computes.
//! Over well formed words the root of an accepted derivation is false at every valuation.
#![tactic(auto)]

mod literals;
mod meaning;
mod steps;

pub use literals::{Atom, Lit};
pub use meaning::{conditions_by_clauses, refuted, still_accepted};
pub use steps::{Cnf, Derivation, Proof, Step, Why};
