//! Conditional tables updated: rows with some of their cells set where a condition holds for them.
#![tactic(auto)]

mod needing;
mod putting;
mod revising;
mod splitting;
mod updating;

pub use revising::{Revision, revise};
pub use updating::update;
