//! Terms and conditions put into a log, through whatever interns words.
//!
//! Each call answers the place of what it names, and appends the words that do not stand in the log yet.
//! Conditions are folded: an equality of two constants, a double NOT, an AND with false have no word of their own.
#![tactic(auto)]

mod conditions;
mod folding;
mod interner;
mod nulls;
mod one_world;
mod packed;
mod predicates;
mod seated;
mod terms;
mod texts;
mod valued;
mod worlds;

pub use conditions::{all, and, eq, join, not, or};
pub use folding::are_apart;
pub use interner::Interner;
pub use one_world::Worths;
pub use packed::put;
pub use predicates::pred;
pub use seated::Seated;
pub use terms::term;
pub use texts::text;
pub use valued::{value_at, worths};
