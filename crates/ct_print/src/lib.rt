//! The text of values, nulls, terms, cells, tuples, worlds and names.
//!
//! `specs/TermText.antt` has the text of each. A call appends it to a string.
#![tactic(auto)]

mod terms;

pub use terms::{
    push_cells, push_names, push_separator, push_term, push_text, push_tuple, push_world,
};
