//! Tests of the crate that decides a question, and of those that ask: a deletion, possible rows and certain tuples.
#![tactic(auto)]

#[cfg(test)]
mod tests;
