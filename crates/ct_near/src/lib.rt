//! Worlds near a known one: the conjuncts of a condition, each with the nulls below it, and a world in which further conditions
//! hold with it, which differs from the known one only at nulls that these reach through conjuncts.
#![tactic(auto)]

mod changing;
mod index;
mod indexing;
mod laying;
mod relating;
mod scope;
mod walking;

pub use changing::{joined_near, repaired_near};
pub use index::Conjuncts;
pub use indexing::{conjuncts, run_beside};
pub use relating::related;
