//! Tests of the crates of the log: conditions, changes, and what is printed of them.
#![tactic(auto)]

#[cfg(test)]
mod tests;
