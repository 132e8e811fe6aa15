//! Tests of certificates: their text, and what is said of them.
#![tactic(auto)]

#[cfg(test)]
mod tests;
