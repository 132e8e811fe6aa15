//! One run of the program: what the words of the command line ask for, done with the files of a source, and written to a sink.
#![tactic(auto)]

mod checking;
mod driving;
mod ending;
mod exporting;
mod files;
mod filling;
mod importing;
mod printing;
mod proving;
mod reading;
mod summary;
mod theorems;

pub use ct_remarks::{notes, remarks};
pub use driving::run;
pub use ending::{Run, Status};
pub use theorems::{certificates_are_accepted, faultless_runs_are_served, scripts_are_served};
