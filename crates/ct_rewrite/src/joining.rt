// Two conditions under a connective, in the printed form.

ghost use Rattle.std.specs.Prelude.{◌≡◌, ℕ, Bool, false, List, [], ◌∷◌, ◌<◌, ◌≤◌, ◌+◌, ◌&&◌, ◌^◌, length, nat_lt, IfOk, OnOk, IsTrue, IfSome, MatchOption};
ghost use Rattle.std.specs.List.{list_all};
ghost use Rattle.ct_word.specs.declared.values.Value.{Value};
ghost use Rattle.ct_word.specs.Value.{World};
ghost use Rattle.ct_word.specs.Connective.{joined};
ghost use Rattle.ct_word.specs.Condition.{Condition};
ghost use Rattle.ct_rewrite.specs.Nodes.{condition_of_node, node_condition, is_position};
ghost use Rattle.ct_rewrite.specs.Building.{Grows, Says, joint_node, literal_node};
ghost use Rattle.ct_rewrite.specs.Joining.{NeverBothOpen, leaves_open, all_open, Settle, HasMembersOf, HasNoMoreThan, Brings, IsNoLarger, IsNoSettler, is_no_literal};
ghost use Rattle.ct_rewrite.specs.Rules.{are_distinct, is_literal};
ghost use Rattle.ct_rewrite.specs.Sizes.{Fits};

use crate::answer::Node;
use crate::builder::Builder;
use crate::order::compare_children;
use crate::terms::{are_different_constants, are_same};
use ct_word::{Connective, List, Memory};
use std::alloc::Global;
use std::cmp::Ordering;

/// The most children that are merged into one list.
const MOST_CHILDREN: usize = 64;

/// The truth of a node that is always true or always false.
fn truth_of(node: &Node) -> Option<bool>
    ensures { MatchOption result ((before : List Condition) → is_literal (condition_of_node before node.now) ≡ false) (λ b. node.now ≡ literal_node b) }
{
    match node {
        Node::True => Some(true),
        Node::False => Some(false),
        _ => None,
    }
}

/// The children of a node that has this connective.
fn children_of(connective: Connective, node: &Node) -> Option<&[u32]>
    ensures { IfSome result (λ ks. node.now ≡ joint_node connective ks.now) }
{
    match (connective, node) {
        (Connective::And, Node::And(children)) => Some(children.as_slice()),
        (Connective::Or, Node::Or(children)) => Some(children.as_slice()),
        _ => None,
    }
}

/// The node of these children under a connective.
fn joint(connective: Connective, children: List<u32>) -> Node
    ensures { result ≡ joint_node connective children }
{
    match connective {
        Connective::And => Node::And(children),
        Connective::Or => Node::Or(children),
    }
}

/// Whether two nodes can't both leave a connective open: an equality and its denial, or equalities
/// of one term with different constants under And, denials of such under Or.
fn clash(connective: Connective, a: &Node, b: &Node) -> bool
    ensures { IsTrue result → NeverBothOpen connective a.now b.now }
{
    match (connective, a, b) {
        (_, Node::Eq(s, t), Node::Ne(u, w)) => are_same(s, u) && are_same(t, w),
        (_, Node::Ne(s, t), Node::Eq(u, w)) => are_same(s, u) && are_same(t, w),
        (Connective::And, Node::Eq(s, t), Node::Eq(u, w)) => {
            are_same(s, u) && are_different_constants(t, w)
        }
        (Connective::Or, Node::Ne(s, t), Node::Ne(u, w)) => {
            are_same(s, u) && are_different_constants(t, w)
        }
        _ => false,
    }
}

impl Builder {
    /// Whether a form settles a connective: False settles And, True settles Or.
    fn settles(&self, connective: Connective, form: u32) -> bool
        requires { form < length self.now }
        ensures settles { IsTrue result → (v : World) (row : List Value) → leaves_open connective self.now v row form ≡ false }
        ensures no_settler { result ≡ false → IsNoSettler connective self.now form }
    {
        match truth_of(self.node(form)) {
            Some(truth) => truth != connective.unit(),
            None => false,
        }
    }

    /// What a form brings under a connective: its children where it has this connective, nothing
    /// where it says nothing there, else itself.
    #[tactic(auto, using(crate::proofs::Brought::brought_itself, crate::proofs::Brought::nothing_brought))]
    fn parts(&self, alloc: Global, connective: Connective, form: u32) -> Result<Vec<u32>, Memory>
        requires { form < length self.now }
        ensures brings { IfOk result (λ ks. Brings connective self.now ks.items form) }
        ensures few { IfOk result (λ ks. length ks.items ≤ 64) }
        ensures no_literals { IfOk result (λ ks. IsNoSettler connective self.now form → IsTrue (list_all (is_no_literal self.now) ks.items)) }
        ensures no_literal { IfOk result (λ ks. IsNoSettler connective self.now form → 1 ≤ length ks.items → IsTrue (is_no_literal self.now form)) }
    {
        let node = self.node(form);
        if let Some(children) = children_of(connective, node) {
            return Ok(Vec::from_slice(alloc, children)?);
        }
        match truth_of(node) {
            Some(truth) if truth == connective.unit() => Ok(Vec::new(alloc)),
            _ => Ok(Vec::from_slice(alloc, &[form])?),
        }
    }

    /// What two forms bring under a connective. Where that is more than are merged, each stays as it is.
    #[tactic(auto, using(crate::proofs::Brought::brought_itself))]
    fn sides(
        &self,
        alloc: Global,
        connective: Connective,
        a: u32,
        b: u32,
    ) -> Result<(Vec<u32>, Vec<u32>), Memory>
        requires left { a < length self.now }
        requires right { b < length self.now }
        ensures left { IfOk result (λ p. Brings connective self.now p.0.items a) }
        ensures right { IfOk result (λ p. Brings connective self.now p.1.items b) }
        ensures few { IfOk result (λ p. length p.0.items + length p.1.items ≤ 64) }
        ensures no_literals { IfOk result (λ p. IsNoSettler connective self.now a → IsNoSettler connective self.now b → IsTrue (list_all (is_no_literal self.now) p.0.items && list_all (is_no_literal self.now) p.1.items)) }
    {
        let left = self.parts(alloc, connective, a)?;
        let right = self.parts(alloc, connective, b)?;
        if left.len() > MOST_CHILDREN || right.len() > MOST_CHILDREN - left.len() {
            Ok((Vec::from_slice(alloc, &[a])?, Vec::from_slice(alloc, &[b])?))
        } else {
            Ok((left, right))
        }
    }

    /// Whether a child clashes with one of these.
    fn clashes(&self, connective: Connective, children: &[u32], child: u32) -> bool
        requires children { IsTrue (list_all (is_position self.now) children.now) }
        requires child { child < length self.now }
        ensures { IsTrue result → Settle connective self.now children.now (child ∷ []) }
    {
        for other in children {
            if clash(connective, self.node(*other), self.node(child)) {
                return true;
            }
        }
        false
    }

    /// Puts a child at its place in the order of children, unless it is there.
    fn add(&self, children: &mut Vec<u32>, child: u32) -> Result<(), Memory>
        ensures members { OnOk result (HasMembersOf children.new.items children.old.items (child ∷ [])) }
        ensures once { OnOk result (HasNoMoreThan children.new.items children.old.items (child ∷ [])) }
        ensures distinct { OnOk result (IsTrue (are_distinct children.old.items) → IsTrue (are_distinct children.new.items)) }
    {
        if children.as_slice().contains(&child) {
            return Ok(());
        }
        let nodes = self.nodes();
        let at = children.as_slice().partition_point(|other| compare_children(nodes, *other, child)
            == Ordering::Less);
        children.insert(at, child)?;
        Ok(())
    }

    /// Both lists of children merged; none where two of them clash.
    fn merged(
        &self,
        connective: Connective,
        mut children: Vec<u32>,
        added: &[u32],
    ) -> Result<Option<Vec<u32>>, Memory>
        requires children { IsTrue (list_all (is_position self.now) children.items) }
        requires added { IsTrue (list_all (is_position self.now) added.now) }
        requires distinct { IsTrue (are_distinct children.items) }
        ensures members { IfOk result (λ r. MatchOption r (Settle connective self.now children.items added.now) (λ all. HasMembersOf all.items children.items added.now)) }
        ensures once { IfOk result (λ r. IfSome r (λ all. HasNoMoreThan all.items children.items added.now)) }
        ensures distinct { IfOk result (λ r. IfSome r (λ all. IsTrue (are_distinct all.items))) }
    {
        for child in added {
            if self.clashes(connective, children.as_slice(), *child) {
                return Ok(None);
            }
            self.add(&mut children, *child)?;
        }
        Ok(Some(children))
    }

    /// The position of these conditions under a connective.
    fn gathered(
        &mut self,
        alloc: Global,
        connective: Connective,
        children: Vec<u32>,
    ) -> Result<u32, Memory>
        requires placed { IsTrue (list_all (is_position self.old) children.items) }
        requires few { length children.items ≤ 64 }
        requires distinct { IsTrue (are_distinct children.items) }
        requires no_literals { IsTrue (list_all (is_no_literal self.old) children.items) }
        requires room { length self.old < 2 ^ 32 }
        ensures grows { Grows self.old self.new }
        ensures count { length self.new ≤ length self.old + 1 }
        ensures within { IfOk result (λ k. k < length self.new) }
        ensures truth { IfOk result (λ k. (v : World) (row : List Value) → leaves_open connective self.new v row k ≡ all_open connective self.old v row children.items) }
        ensures size { IfOk result (λ k. IsNoLarger connective self.old self.new k children.items) }
    {
        match children.as_slice() {
            [] => self.literal(connective.unit()),
            [only] => Ok(*only),
            _ => self.place(joint(connective, List::from_vec(children))),
        }
    }

    /// The position of two conditions under a connective.
    pub fn joined(
        &mut self,
        alloc: Global,
        connective: Connective,
        a: u32,
        b: u32,
    ) -> Result<u32, Memory>
        requires left { a < length self.old }
        requires right { b < length self.old }
        requires room { length self.old < 2 ^ 32 }
        ensures grows { Grows self.old self.new }
        ensures count { length self.new ≤ length self.old + 1 }
        ensures says { IfOk result (λ k. Says self.new k (joined connective (node_condition self.old a) (node_condition self.old b))) }
        ensures fits { IfOk result (λ k. (c d : Condition) → Fits (node_condition self.old a) c → Fits (node_condition self.old b) d → Fits (node_condition self.new k) (joined connective c d)) }
    {
        if self.settles(connective, a) || self.settles(connective, b) {
            return self.literal(!connective.unit());
        }
        let (children, added) = self.sides(alloc, connective, a, b)?;
        match self.merged(connective, children, added.as_slice())? {
            Some(children) => self.gathered(alloc, connective, children),
            None => self.literal(!connective.unit()),
        }
    }
}
