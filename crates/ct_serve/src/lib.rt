//! Sessions on one log: each script executed on a thread of its own, and the transcript of all.
#![tactic(auto)]

mod client;
mod exporting;
mod history;
mod lines;
mod parts;
mod serving;
mod theorems;

pub use exporting::{TableRun, serve_and_export};
pub use lines::all_lines;
pub use serving::{serve, serve_by, serve_with};
pub use theorems::{full_logs_reach_their_bounds, lawful_is_serial, within_limits_is_answered};
