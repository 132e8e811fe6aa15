// Predicates and queries.

use ct_word::{List, Term, Text};

/// A predicate on a row.
#[derive(Drop)]
pub enum Pred {
    True,
    False,
    Same(Term, Term),
    Not(Box<Pred>),
    And(List<Pred>),
    Or(List<Pred>),
}

/// A query by positions.
#[derive(Drop)]
pub enum Query {
    Table(Text),
    Select(Pred, Box<Query>),
    Project(List<u32>, Box<Query>),
    Product(Box<Query>, Box<Query>),
    Union(Box<Query>, Box<Query>),
    Except(Box<Query>, Box<Query>),
    Intersect(Box<Query>, Box<Query>),
}
