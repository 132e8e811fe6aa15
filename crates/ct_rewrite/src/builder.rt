// A node list in the making, which holds equal nodes once.

ghost use Rattle.std.specs.Prelude.{◌≡◌, ◌<◌, ◌≤◌, ◌+◌, ◌^◌, [], length, IfOk, OnErr, IsTrue};
ghost use Rattle.std.specs.List.{IsDistinct, list_all};
ghost use Rattle.ct_word.specs.Condition.{Same};
ghost use Rattle.ct_worlds.specs.Shape.{literal};
ghost use Rattle.ct_rewrite.specs.Nodes.{node_condition, read_nodes, stands_over, same_node, node_value, IsOrdered};
ghost use Rattle.ct_rewrite.specs.Building.{Grows, Says, signed};
ghost use Rattle.ct_rewrite.specs.Rules.{is_proper, has_no_literals};
ghost use Rattle.ct_rewrite.specs.Sizes.{Fits};

use crate::answer::Node;
use crate::terms::{are_different_constants, are_same, in_order};
use ct_word::{List, Memory, Term};
use indexmap::IndexSet;
use std::alloc::Global;
use std::marker::Model;

/// Nodes that the printed form allows, no two of them equal, children before their parents.
#[derive(Drop)]
pub struct Builder {
    nodes: IndexSet<Node>,
}

impl Model for Builder {
    ghost use Rattle.std.specs.Prelude.{List, [], IsTrue};
    ghost use Rattle.std.specs.List.{list_all};
    ghost use Rattle.ct_rewrite.specs.declared.answer.Node.{Node};
    ghost use Rattle.ct_rewrite.specs.Nodes.{IsOrdered, read_nodes};
    ghost use Rattle.ct_rewrite.specs.Rules.{is_proper, has_no_literals};

    ghost Value = { List Node };

    ghost view = { λ b. b.nodes.keys };

    ghost invariant = { λ b. IsOrdered b.nodes.keys × IsTrue (list_all is_proper b.nodes.keys) × IsTrue (list_all has_no_literals (read_nodes [] b.nodes.keys)) };
}

impl Builder {
    /// A list without nodes.
    pub fn new(alloc: Global) -> Builder
        ensures { result ≡ [] }
    {
        Builder {
            nodes: IndexSet::new(alloc),
        }
    }

    /// The nodes so far.
    pub fn nodes(&self) -> &[Node]
        ensures value { result.now ≡ self.now }
        ensures ordered { IsOrdered self.now }
        ensures distinct { IsDistinct same_node self.now }
        ensures proper { IsTrue (list_all is_proper self.now) }
        ensures no_literals { IsTrue (list_all has_no_literals (read_nodes [] self.now)) }
    {
        self.nodes.as_slice()
    }

    /// The node at a position.
    pub fn node(&self, position: u32) -> &Node
        requires { position < length self.now }
        ensures value { node_condition self.now position ≡ node_value self.now result.now }
        ensures below { IsTrue (stands_over position result.now) }
        ensures proper { IsTrue (is_proper result.now) }
        ensures no_literals { IsTrue (has_no_literals (node_value self.now result.now)) }
    {
        &self.nodes.as_slice()[position as usize]
    }

    /// The position of a node, which is put at the end where it is not there yet.
    pub fn place(&mut self, node: Node) -> Result<u32, Memory>
        requires ordered { IsTrue (stands_over (length self.old) node) }
        requires proper { IsTrue (is_proper node) }
        requires no_literals { IsTrue (has_no_literals (node_value self.old node)) }
        requires room { length self.old < 2 ^ 32 }
        ensures grows { Grows self.old self.new }
        ensures count { length self.new ≤ length self.old + 1 }
        ensures within { IfOk result (λ k. k < length self.new) }
        ensures value { IfOk result (λ k. node_condition self.new k ≡ node_value self.old node) }
    {
        let (position, _) = self.nodes.insert_full(node)?;
        Ok(position as u32)
    }

    /// The position of a condition that is always true or always false.
    pub fn literal(&mut self, truth: bool) -> Result<u32, Memory>
        requires room { length self.old < 2 ^ 32 }
        ensures grows { Grows self.old self.new }
        ensures count { length self.new ≤ length self.old + 1 }
        ensures says { IfOk result (λ k. Says self.new k (literal truth)) }
        ensures is { IfOk result (λ k. node_condition self.new k ≡ literal truth) }
    {
        self.place(if truth { Node::True } else { Node::False })
    }

    /// The position of the equality of two terms, or for minus of its denial.
    pub fn equal(&mut self, s: Term, t: Term, sign: bool) -> Result<u32, Memory>
        requires room { length self.old < 2 ^ 32 }
        ensures grows { Grows self.old self.new }
        ensures count { length self.new ≤ length self.old + 1 }
        ensures says { IfOk result (λ k. Says self.new k (signed sign (Same s t))) }
        ensures fits { IfOk result (λ k. Fits (node_condition self.new k) (Same s t)) }
    {
        if are_same(&s, &t) {
            return self.literal(sign);
        }
        if are_different_constants(&s, &t) {
            return self.literal(!sign);
        }
        let (s, t) = in_order(s, t);
        if sign {
            self.place(Node::Eq(s, t))
        } else {
            self.place(Node::Ne(s, t))
        }
    }

    /// The nodes in their order.
    pub fn into_nodes(self, alloc: Global) -> Result<List<Node>, Memory>
        ensures nodes { IfOk result (λ ns. ns ≡ self) }
        ensures ordered { IsOrdered self }
        ensures proper { IsTrue (list_all is_proper self) }
        ensures no_literals { IsTrue (list_all has_no_literals (read_nodes [] self)) }
        ensures distinct { IsDistinct same_node self }
    {
        let Builder { nodes } = self;
        let nodes: Vec<Node> = nodes.into_iter().collect(alloc)?;
        Ok(List::from_vec(nodes))
    }
}
