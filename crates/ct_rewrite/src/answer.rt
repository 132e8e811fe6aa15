// Conditions as numbered nodes, and the rows that they stand at.

ghost use Rattle.std.specs.Prelude.{◌≡◌};
ghost use Rattle.ct_rewrite.specs.Nodes.{children_of};

use ct_derivation::Proof;
use ct_word::{List, Term, Value, World};

/// A condition over earlier nodes of its list.
#[derive(Drop, PartialEq, Eq, Hash)]
pub enum Node {
    True,
    False,
    Eq(Term, Term),
    Ne(Term, Term),
    And(List<u32>),
    Or(List<u32>),
}

impl Node {
    /// The positions of the nodes that an And or Or is over.
    pub fn children(&self) -> &[u32]
        ensures { result.now ≡ children_of self.now }
    {
        match self {
            Node::And(children) | Node::Or(children) => children.as_slice(),
            _ => &[],
        }
    }
}

/// Cells under the condition at a position of a node list.
#[derive(Drop)]
pub struct AnswerRow {
    pub cells: List<Term>,
    pub cond: u32,
}

/// Cells, and a world. Where a query is asked for possible rows, each of the reply has a world of the history in which
/// the query has the cells, with the world's values for their nulls.
#[derive(Drop)]
pub struct PossibleRow {
    pub cells: List<Term>,
    pub world: World,
}

/// A tuple, and a proof. Where a query is asked for certain tuples, each of the reply has a proof that the query lacks it
/// in no world of the history.
#[derive(Drop)]
pub struct CertainRow {
    pub tuple: List<Value>,
    pub proof: Proof,
}
