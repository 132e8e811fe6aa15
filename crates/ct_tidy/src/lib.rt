//! Worlds as they are listed: with their nulls in order, and cut to the nulls that stand below conditions and cells.
//!
//! A world is tidy where its nulls ascend in the order of terms, so that none is there twice, and none has `@0`, the value of
//! a null that is not listed. Besides, there is a world in which the nulls of a table differ.
#![tactic(auto)]

mod below;
mod cutting;
mod mapped;
mod order;
mod spreading;

pub use below::nulls_below;
pub use cutting::{copied, cut};
pub use mapped::{by_null, value_of};
pub use order::tidy;
pub use spreading::spread;
