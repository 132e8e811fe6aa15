//! Conditions of the log and worlds: which conditions stand below a place, whether one holds in a world, and a world made so
//! that conditions hold.
#![tactic(auto)]

mod classes;
mod drafts;
mod gathering;
mod holding;
mod nulls;
mod reads;
mod repairing;
mod shape;
mod valuation;
mod wishing;

pub use gathering::below;
pub use holding::holds_below;
pub use nulls::{Nulls, nulls_below};
pub use repairing::{all_hold, changed, repaired};
pub use shape::{Shape, shape_at};
