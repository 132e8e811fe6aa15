//! Tests of the shared log: lists with buckets, sessions, and threads that intern at once.
#![tactic(auto)]

#[cfg(test)]
mod tests;
