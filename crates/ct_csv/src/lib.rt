//! Tables from and to CSV.
//!
//! `specs/File.antt` says what a file says: the columns, and rows under conditions.
#![tactic(auto)]

mod error;
mod exporting;
mod fields;
mod importing;
mod lines;
mod measuring;
mod printing;
mod reading;
mod underscores;
mod writing;

pub use error::{ImportError, WideError};
pub use exporting::{export, forms_are_exported};
pub use importing::{
    exports_are_taken, files_are_taken, files_say_one_table, import, records_are_one,
    refusals_are_one,
};
