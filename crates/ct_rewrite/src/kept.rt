// The nodes that roots lead to, without the others.

ghost use Rattle.std.specs.Prelude.{◌≡◌, ℕ, ◌<◌, ◌^◌, [], length, map, IfOk, IsTrue};
ghost use Rattle.std.specs.List.{AllZip, IsDistinct, list_all};
ghost use Rattle.ct_worlds.specs.Truths.{AreRising};
ghost use Rattle.ct_rewrite.specs.Nodes.{IsOrdered, is_position, read_nodes, same_node};
ghost use Rattle.ct_rewrite.specs.Rules.{is_proper, has_no_literals};
ghost use Rattle.ct_rewrite.specs.Below.{has, position_at, HasAt, IsClosedFrom};
ghost use Rattle.ct_rewrite.specs.Moving.{IsKept, children_at, moved_node};

use crate::answer::Node;
use crate::below::{Graph, add, below};
use crate::builder::Builder;
use crate::form::Normal;
use crate::positions::Positions;
use crate::terms::copies;
use ct_word::{List, Memory};
use std::alloc::Global;
use std::collections::BTreeSet;

/// The nodes of a list.
#[derive(Drop)]
struct Nodes<'a> {
    nodes: &'a [Node],
}

impl Graph for Nodes<'_> {
    ghost use Rattle.ct_rewrite.specs.Nodes.{is_position};
    ghost use Rattle.ct_rewrite.specs.Moving.{children_at};

    ghost is_in = { λ g. is_position g.nodes.now };

    ghost parts = { λ g. children_at g.nodes.now };

    fn add_parts(&self, place: u32, places: &mut BTreeSet<u32>) -> Result<(), Memory> {
        add(places, self.nodes[place as usize].children())
    }
}

/// Where these positions went.
fn moved(alloc: Global, positions: &Positions<'_>, from: &[u32]) -> Result<List<u32>, Memory>
    ensures { IfOk result (λ to. to ≡ map (position_at positions.now) from.now) }
{
    Ok(List::from_vec(positions.of(alloc, from)?))
}

/// A copy of a node over the positions to which its children went.
fn copied(alloc: Global, positions: &Positions<'_>, node: &Node) -> Result<Node, Memory>
    ensures { IfOk result (λ n. n ≡ moved_node positions.now node.now) }
{
    Ok(match node {
        Node::True => Node::True,
        Node::False => Node::False,
        Node::Eq(s, t) => {
            let (s, t) = copies(s, t)?;
            Node::Eq(s, t)
        }
        Node::Ne(s, t) => {
            let (s, t) = copies(s, t)?;
            Node::Ne(s, t)
        }
        Node::And(children) => Node::And(moved(alloc, positions, children.as_slice())?),
        Node::Or(children) => Node::Or(moved(alloc, positions, children.as_slice())?),
    })
}

/// Puts copies of the nodes at these positions into a builder, in their order, and says where each went.
fn placed<'a>(
    alloc: Global,
    builder: &mut Builder,
    nodes: &[Node],
    reached: &'a [u32],
) -> Result<Positions<'a>, Memory>
    requires ordered { IsOrdered nodes.now }
    requires distinct { IsDistinct same_node nodes.now }
    requires proper { IsTrue (list_all is_proper nodes.now) }
    requires no_literals { IsTrue (list_all has_no_literals (read_nodes [] nodes.now)) }
    requires room { length nodes.now < 2 ^ 32 }
    requires inside { (k : ℕ) → IsTrue (has reached.now k) → IsTrue (is_position nodes.now k) }
    requires closed { IsClosedFrom (children_at nodes.now) 0 (has reached.now) }
    requires rising { AreRising reached.now }
    requires empty { builder.old ≡ [] }
    ensures { IfOk result (λ ps. (k : ℕ) → IsTrue (has reached.now k) → HasAt (IsKept nodes.now builder.new) ps k) }
{
    let mut positions = Positions::new(alloc, reached);
    for position in reached {
        let copy = copied(alloc, &positions, &nodes[*position as usize])?;
        let to = builder.place(copy)?;
        positions.push(to)?;
    }
    Ok(positions)
}

/// The nodes that the roots lead to, in their order, and where the roots stand among them.
pub fn kept(alloc: Global, nodes: &[Node], roots: &[u32]) -> Result<Normal, Memory>
    requires ordered { IsOrdered nodes.now }
    requires distinct { IsDistinct same_node nodes.now }
    requires proper { IsTrue (list_all is_proper nodes.now) }
    requires no_literals { IsTrue (list_all has_no_literals (read_nodes [] nodes.now)) }
    requires roots { IsTrue (list_all (is_position nodes.now) roots.now) }
    requires room { length nodes.now < 2 ^ 32 }
    ensures kept { IfOk result (λ n. AllZip (λ j k. IsKept nodes.now n.nodes k j) n.roots roots.now) }
    ensures ordered { IfOk result (λ n. IsOrdered n.nodes) }
    ensures distinct { IfOk result (λ n. IsDistinct same_node n.nodes) }
    ensures proper { IfOk result (λ n. IsTrue (list_all is_proper n.nodes)) }
    ensures no_literals { IfOk result (λ n. IsTrue (list_all has_no_literals (read_nodes [] n.nodes))) }
{
    let reached = below(alloc, &Nodes { nodes }, nodes.len() as u32, roots)?;
    let mut builder = Builder::new(alloc);
    let positions = placed(alloc, &mut builder, nodes, reached.as_slice())?;
    let roots = moved(alloc, &positions, roots)?;
    drop(positions);
    drop(reached);
    let nodes = builder.into_nodes(alloc)?;
    Ok(Normal { nodes, roots })
}
