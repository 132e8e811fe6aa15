//! Scripts of any length for up to four sessions, to measure with.
//!
//! `script` is the whole of it. Its text is `script_of` in `specs/Script.antt`.
#![tactic(auto)]

mod scripts;

pub use scripts::script;
