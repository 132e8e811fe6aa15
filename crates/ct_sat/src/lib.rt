//! A propositional search: a model of clauses, or a refutation by reverse unit propagation.
//!
//! The search learns a clause from each conflict (Marques-Silva and Sakallah 1999) and propagates by
//! two watched literals a clause (Moskewicz and others 2001). The log and the trail that it moves on
//! are those of `ct_trail`.
#![tactic(auto)]

mod guide;
mod propagate;
mod queue;
mod search;
mod solver;
mod solving;
mod units;
mod verdict;
mod watches;

pub use ct_derivation::Cnf;
pub use ct_trail::{Entry, Rup};
pub use solver::Solver;
pub use solving::solve;
pub use verdict::{Found, Verdict};
