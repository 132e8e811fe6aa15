//! Names and columns of tables, each found by its name.
#![tactic(auto)]

mod headings;

pub use headings::Headings;
