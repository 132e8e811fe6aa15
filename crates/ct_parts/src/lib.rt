//! A list whose copies share its items.
//!
//! The items stand in parts of 128 (`specs/Cut.antt`). A copy of the list takes one count for each part. A change goes to
//! one part: in place where nobody else holds it, else in a copy of it.
#![tactic(auto)]

mod part;
mod parts;

pub use parts::Parts;
