//! Questions decided side by side, by several workers.
//!
//! Each worker takes every so manieth root, on a thread of its own where one can be made. What it has found it uses: worlds that
//! it found for earlier roots, and its answer to the same root.
#![tactic(auto)]

mod asking;
mod copies;
mod dealing;
mod gates;
mod known;
mod sides;
mod working;

pub use gates::{NoWorkGate, WorkGate};
pub use sides::decide_all;
