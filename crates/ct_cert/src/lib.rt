//! Certificates: a list of words with proofs over them, as a text that anybody can check.
//!
//! `write` and `read` are exactly the text of `specs/Text.antt`; `judge` says whether the words
//! are well formed and each proof is accepted over them.
#![tactic(auto)]

mod certificate;
mod entries;
mod fronts;
mod judgement;
mod judging;
mod laws;
mod reading;
mod repeats;
mod small;
mod well_formed;
mod writing;

pub use certificate::{CertError, Certificate};
pub use judgement::Judgement;
pub use judging::judge;
pub use laws::{judgements_say, texts_are_of_one};
pub use reading::read;
pub use writing::{write, write_parts};
