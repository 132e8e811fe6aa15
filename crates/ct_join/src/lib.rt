//! Which rows of two tables may agree in a cell: the candidates of a join.
//!
//! A cell is known by its key: the number of a constant, or that it is a null. Two different constants never agree;
//! any other two cells may (`specs/Pairs.antt`).
#![tactic(auto)]

mod finding;
mod index;
mod keys;
mod pairing;

pub use index::Index;
pub use keys::{Key, mixed};
pub use pairing::pairs;
