//! Tests of the search, of what turns a question into clauses and equalities, and of the checker.
#![tactic(auto)]

#[cfg(test)]
mod tests;
