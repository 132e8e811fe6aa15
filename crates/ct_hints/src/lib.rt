//! Hints on texts that are no statements: where reading stopped, and what to write instead.
//!
//! Nothing here has a contract: the sentences are meant for people. What they are put behind is proved in `ct_remarks`.
#![tactic(auto)]

mod changes;
mod forms;
mod grammar;
mod hints;
mod slips;
mod unread;
mod words;

pub use unread::{Unread, push_fault, push_unspelled};
