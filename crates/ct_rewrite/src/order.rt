// The order of terms, and of the children of a node.

ghost use Rattle.std.specs.Prelude.{◌≡◌, ℕ, Bool, true, IfSome, IsTrue};
ghost use Rattle.std.specs.List.{list_all};
ghost use Rattle.ct_rewrite.specs.Nodes.{IsOrdered, stands_over};
ghost use Rattle.std.specs.Ordering.{is_lt};
ghost use Rattle.ct_rewrite.specs.Order.{is_before, term_class, term_order, null_class, null_order, value_class, value_order};

use crate::answer::Node;
use ct_word::{Null, Term, Value};
use std::cmp::Ordering;

/// The order of values: numbers, then texts by their bytes, then other values by their numbers.
fn compare_values(x: &Value, y: &Value) -> Ordering
    ensures { result ≡ value_order x.now y.now }
{
    match (x, y) {
        (Value::Int(a), Value::Int(b)) => a.cmp(b),
        (Value::Text(a), Value::Text(b)) => a.as_str().cmp(b.as_str()),
        (Value::Other(a), Value::Other(b)) => a.cmp(b),
        _ => class_of_value(x).cmp(&class_of_value(y)),
    }
}

fn class_of_value(x: &Value) -> u8
    ensures { result ≡ value_class x.now }
{
    match x {
        Value::Int(_) => 0,
        Value::Text(_) => 1,
        Value::Other(_) => 2,
    }
}

/// The order of nulls: named ones by the bytes of their names, then fresh ones by session and number.
pub fn compare_nulls(m: &Null, n: &Null) -> Ordering
    ensures { result ≡ null_order m.now n.now }
{
    match (m, n) {
        (Null::Named(a), Null::Named(b)) => a.as_str().cmp(b.as_str()),
        (
            Null::Fresh {
                session: s,
                number: j,
            },
            Null::Fresh {
                session: t,
                number: k,
            },
        ) => s.cmp(t).then(j.cmp(k)),
        _ => class_of_null(m).cmp(&class_of_null(n)),
    }
}

fn class_of_null(n: &Null) -> u8
    ensures { result ≡ null_class n.now }
{
    match n {
        Null::Named(_) => 0,
        Null::Fresh { .. } => 1,
    }
}

/// The order of terms: columns by position, then nulls, then values.
#[tactic(auto, using(crate::proofs::Sides::less_term))]
pub fn compare_terms(s: &Term, t: &Term) -> Ordering
    ensures order { result ≡ term_order s.now t.now }
    ensures before { is_lt result ≡ is_before s.now t.now }
{
    match (s, t) {
        (Term::Column(j), Term::Column(k)) => j.cmp(k),
        (Term::Null(m), Term::Null(n)) => compare_nulls(m, n),
        (Term::Value(x), Term::Value(y)) => compare_values(x, y),
        _ => class_of_term(s).cmp(&class_of_term(t)),
    }
}

fn class_of_term(t: &Term) -> u8
    ensures { result ≡ term_class t.now }
{
    match t {
        Term::Column(_) => 0,
        Term::Null(_) => 1,
        Term::Value(_) => 2,
    }
}

/// The order of two nodes but for their children: leaves by their terms, then And, then Or.
fn compare_nodes(a: &Node, b: &Node) -> Ordering {
    match (a, b) {
        (Node::Eq(s, t), Node::Eq(u, w)) => compare_terms(s, u).then(compare_terms(t, w)),
        (Node::Ne(s, t), Node::Ne(u, w)) => compare_terms(s, u).then(compare_terms(t, w)),
        (Node::Eq(s, t), Node::Ne(u, w)) => {
            let terms = compare_terms(s, u).then(compare_terms(t, w));
            terms.then(Ordering::Less)
        }
        (Node::Ne(s, t), Node::Eq(u, w)) => {
            let terms = compare_terms(s, u).then(compare_terms(t, w));
            terms.then(Ordering::Greater)
        }
        _ => class_of_node(a).cmp(&class_of_node(b)),
    }
}

fn class_of_node(node: &Node) -> u8 {
    match node {
        Node::True | Node::False => 0,
        Node::Eq(..) | Node::Ne(..) => 1,
        Node::And(_) => 2,
        Node::Or(_) => 3,
    }
}

/// The first children that differ.
fn first_apart(left: &[u32], right: &[u32]) -> Option<(u32, u32)>
    ensures { IfSome result (λ p. (test : ℕ → Bool) → list_all test left.now ≡ true → test p.0 ≡ true) }
{
    for (i, child) in left.iter().enumerate() {
        if let Some(other) = right.get(i)
            && child != other
        {
            return Some((*child, *other));
        }
    }
    None
}

/// The node at a position, whose children stand below it.
fn node_at(nodes: &[Node], position: u32) -> Option<&Node>
    requires { IsOrdered nodes.now }
    ensures { IfSome result (λ n. IsTrue (stands_over position n.now)) }
{
    if position as usize >= nodes.len() {
        return None;
    }
    Some(&nodes[position as usize])
}

/// The order of children. Two of one connective go by their first children that differ, so that one
/// path down is looked at.
pub fn compare_children(nodes: &[Node], a: u32, b: u32) -> Ordering
    requires { IsOrdered nodes.now }
{
    let (mut a, mut b) = (a, b);
    while a != b {
        let (Some(left), Some(right)) = (node_at(nodes, a), node_at(nodes, b)) else {
            return Ordering::Equal;
        };
        let order = compare_nodes(left, right);
        if order != Ordering::Equal {
            return order;
        }
        match first_apart(left.children(), right.children()) {
            Some(next) => (a, b) = next,
            None => return left.children().len().cmp(&right.children().len()),
        }
    }
    Ordering::Equal
}
