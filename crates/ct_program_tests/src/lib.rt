//! Tests of runs of several sessions: their statements in a given order, and side by side.
#![tactic(auto)]

#[cfg(test)]
mod tests;
