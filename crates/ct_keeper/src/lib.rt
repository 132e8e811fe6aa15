//! The catalogue: the tables, the global condition and a kept world after all commits, and how a commit changes them.
#![tactic(auto)]

mod catalogue;
mod committing;
mod conflicts;
mod effects;
mod error;
mod growing;
mod keeper;
mod latest;
mod offering;
mod server;
mod tables;
mod verdict;
mod writers;

pub use catalogue::{Offer, Outcome, Snapshot};
pub use effects::{Effect, effect_of};
pub use error::KeeperError;
pub use growing::grown;
pub use keeper::Keeper;
pub use server::Server;
pub use tables::Tables;
