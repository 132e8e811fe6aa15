//! Replies and transcripts, and their text.
//!
//! A transcript has the replies of each session and the history of commits.
//! `lines` is its text, one entry a line (`specs/Text.antt`).
#![tactic(auto)]

mod history;
mod listed;
mod nodes;
mod replies;
mod reply;
mod rows;
mod sessions;
mod transcript;
mod writing;

pub use ct_rewrite::{AnswerRow, CertainRow, Change, Commit, Node, PossibleRow};
pub use history::lines_of_commits;
pub use replies::refusal_name;
pub use reply::{Answer, Refusal, Reply, SessionLog};
pub use sessions::lines_of_sessions;
pub use transcript::{Transcript, lines, lines_of_parts};
