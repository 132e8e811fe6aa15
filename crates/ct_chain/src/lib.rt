//! Lists that answer where a word or a key stands by looking along one bucket.
//!
//! Places are linked by numbers: each bucket has the place that it begins at, and each place the next one of its
//! bucket (`specs/Linked.antt`). What takes memory is `make` alone.
#![tactic(auto)]

mod buckets;
mod chain;
mod key_chain;
mod key_links;
mod links;

pub use chain::Chain;
pub use key_chain::KeyChain;
