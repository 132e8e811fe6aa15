// What the search returns.

use ct_trail::Rup;
use ct_word::List;

/// What a search found.
#[derive(Drop)]
pub enum Found {
    /// A truth for each variable, from variable 1 on, by which each added clause is true.
    Model(List<bool>),
    /// The last entry of the log is learned and empty.
    Refuted,
}

/// A model of clauses, or a refutation of them.
#[derive(Drop)]
pub enum Verdict {
    /// The truth of each variable, from variable 1 on.
    Model(List<bool>),
    /// Clauses that follow one after the other, of which the last is empty.
    Refuted(List<Rup>),
}
