//! Remarks: what is said of the refused statements of a transcript, one line each.
//!
//! `specs/Remarks.antt` says with what each line begins: file, line, column, statement and refusal.
//! The sentence behind that is meant for people, and has no contract.
#![tactic(auto)]

mod cases;
mod causes;
mod context;
mod cut;
mod heads;
mod noting;
mod pieces;
mod places;
mod reading;
mod remarking;
mod sentences;
mod shown;
mod spots;
mod transactions;

pub use noting::notes;
pub use remarking::remarks;
