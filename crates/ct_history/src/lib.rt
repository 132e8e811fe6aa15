//! Changes as words of the log.
#![tactic(auto)]

mod changes;
mod encoding;
mod insertion;
mod items;
mod latest;
mod printing;
mod words;
mod written;

pub use changes::{create, no_changes};
pub use encoding::encode;
pub use insertion::insert;
pub use latest::last;
pub use printing::{commits, commits_between};
pub use written::{Written, changes_at, last_change};
