//! Queries with the conjuncts of their selections moved down to the products and tables that have their columns.
//!
//! `specs/Planned.antt` says which query is planned for which, and `specs/Replaces.antt` that one may be evaluated in
//! place of the other.
#![tactic(auto)]

mod columns;
mod copies;
mod parts;
mod placing;
mod sides;
mod theorems;

pub use copies::copied;
pub use placing::plan;
pub use sides::Side;
pub use theorems::planned_replaces;
