// The log of a search: the clauses that it was given, and those that it learned.

ghost use Rattle.std.specs.Prelude.{◌≡◌};
ghost use Rattle.ct_trail.specs.Log.{entry_clause};

use ct_word::List;

/// A clause that follows by reverse unit propagation (Goldberg and Novikov 2003).
#[derive(Drop)]
pub struct Rup {
    /// Its literals: a variable's number, or its negative.
    pub clause: List<i32>,
    /// Positions of earlier clauses, in the order of propagation (as in LRAT, Cruz-Filipe and
    /// others 2017).
    pub hints: List<u32>,
}

/// A clause of the log.
#[derive(Drop)]
pub enum Entry {
    /// One that the solver was given.
    Added(List<i32>),
    /// One that follows from earlier entries, whose positions are its hints.
    Learned(Rup),
}

impl Entry {
    /// The literals.
    pub fn clause(&self) -> &[i32]
        ensures { result.now ≡ entry_clause self.now }
    {
        match self {
            Entry::Added(clause) => clause.as_slice(),
            Entry::Learned(step) => step.clause.as_slice(),
        }
    }
}
