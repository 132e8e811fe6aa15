//! Tests of the commands of a run: what they are given, how they end, and what they write.
#![tactic(auto)]

#[cfg(test)]
mod tests;
