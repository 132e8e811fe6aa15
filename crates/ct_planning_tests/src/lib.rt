//! Tests of what a query is planned by: the candidates of a join.
#![tactic(auto)]

#[cfg(test)]
mod tests;
