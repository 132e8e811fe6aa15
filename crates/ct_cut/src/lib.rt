//! The derivation that the log of a search gives: the entries that its last clause needs, over the atoms of a question.
#![tactic(auto)]

mod needed;
mod translating;

pub use translating::derivation;
