//! The rows of a table: lists of cells, each with the place of a condition.
//!
//! A row is found by its cells along one slot (`specs/Slots.antt`, `specs/Links.antt`). Copies share their rows, and a
//! change copies what it touches.
#![tactic(auto)]

mod hashing;
mod links;
mod nodes;
mod rows;

pub use rows::Rows;
