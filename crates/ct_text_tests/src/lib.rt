//! Tests of the crates from words up to statements with positions for names, of scripts and sinks, and of the words of
//! the command line.
#![tactic(auto)]

#[cfg(test)]
mod tests;
