//! How far a run has come, on one line of a terminal that it clears.
//!
//! `CountedScripts` counts the statements that there are, while scripts are read, and `CountGate` those that are done.
#![tactic(auto)]

mod counted;
mod shown;

pub use counted::CountedScripts;
pub use shown::CountGate;
