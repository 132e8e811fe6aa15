//! Equality over the terms of a question: a valuation that gives each equality its truth, or a
//! path of terms that shows that there is none.
//!
//! Terms joined by true equalities form a congruence class. An assignment of truths is the one of
//! some valuation where no class has two different constants or both ends of a false equality;
//! where one has, the path between them is a transitivity constraint that the assignment breaks
//! (Bryant and Velev 2002).
#![tactic(auto)]

mod classes;
mod closing;
mod ends;
mod forest;
mod paths;
mod places;
mod terms;
mod values;

pub use closing::{Closed, close};
