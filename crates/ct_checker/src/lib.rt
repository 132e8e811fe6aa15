//! The checker of derivations: what a sceptic reads.
//!
//! `check` answers whether a derivation is accepted over the words of a log, by the one
//! definition of ct_derivation (`specs/Accepts.antt` there). It takes no memory: the table of
//! marks that it works with is made before.
#![tactic(auto)]

mod checking;
mod definitions;
mod literals;
mod marks;
mod paths;
mod places;
mod propagation;

pub use checking::{check, widest};
pub use marks::Marks;
