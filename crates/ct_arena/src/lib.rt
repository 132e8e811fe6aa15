//! The log of a server's words, and what each session and the keeper have seen of it.
//!
//! A `Blank` becomes an `Arena` with the `KeeperPass` once a `Site` names it. A session appends through its `Pass`;
//! to commit, the pass enters the keeper as its `Guest`, and leaves again. The log is a table of words that all share,
//! and each pass has a list of what it has seen (`specs/Sharing.antt`).
#![tactic(auto)]

mod arenas;
mod following;
mod full;
mod keepers;
mod lists;
mod logs;
mod passes;
mod sharing;
mod sites;
mod tally;

pub use arenas::{Arena, Blank};
pub use full::Full;
pub use keepers::{Ended, Guest, KeeperPass};
pub use logs::Log;
pub use passes::Pass;
pub use sites::Site;
