// Node lists, and the names of their nodes.

ghost use Rattle.std.specs.Prelude.{◌≡◌, ℕ, ◌+◌, ◌<◌, ◌^◌, ◌&&◌, ◌++◌, if◌then◌else◌, nat_le, min, length, flat_map, slice_index, slice_get, option_copied, take, IfOk, IfSome, IfNone, Some, None};
ghost use Rattle.ct_rewrite.specs.Nodes.{children_of};
ghost use Rattle.ct_transcript.specs.NodeText.{is_run, references_to, names_of, with_names, is_true_node, is_false_node};
ghost use Rattle.ct_transcript.specs.Owed.{printed_at};

use ct_rewrite::Node;
use ct_word::Memory;
use std::alloc::Global;

fn at<T>(items: &[T], k: usize) -> Option<&T>
    ensures { option_copied result ≡ slice_get items.now k }
{
    items.get(k)
}

fn is_run(node: &Node) -> bool
    ensures { result ≡ is_run node.now }
{
    matches!(node, Node::And(_) | Node::Or(_))
}

// Counts the references. A count stops at 255, and only two or more matters.
fn add_references(counts: &mut [u8], positions: &[u32])
    ensures len { length counts.new ≡ length counts.old }
    ensures counts { (k : ℕ) → k < length counts.old → min (slice_index counts.new k) 2 ≡ min (slice_index counts.old k + references_to positions.now k) 2 }
{
    for k in positions {
        let k = *k as usize;
        if k < counts.len() {
            counts[k] = counts[k].saturating_add(1);
        }
    }
}

fn count_references(alloc: Global, nodes: &[Node], roots: &[u32]) -> Result<Vec<u8>, Memory>
    ensures len { IfOk result (λ counts. length counts.items ≡ length nodes.now) }
    ensures counts { IfOk result (λ counts. (k : ℕ) → k < length nodes.now → min (slice_index counts.items k) 2 ≡ min (references_to (flat_map children_of nodes.now ++ roots.now) k) 2) }
{
    let mut counts = vec![in alloc; 0u8; nodes.len()]?;
    for node in nodes {
        add_references(&mut counts, node.children());
    }
    add_references(&mut counts, roots);
    Ok(counts)
}

fn needs_name(node: &Node, references: u8) -> bool
    ensures { result ≡ (is_run node.now && nat_le 2 references) }
{
    is_run(node) && references >= 2
}

// The next number where a name is needed. `named` counts the names so far.
fn next_name(is_needed: bool, named: &mut usize) -> Option<usize>
    requires { named.old + 1 < 2 ^ 64 }
    ensures name { result ≡ (if is_needed then Some (named.old + 1) else None) }
    ensures named { named.new ≡ (if is_needed then named.old + 1 else named.old) }
{
    if !is_needed {
        return None;
    }
    *named += 1;
    Some(*named)
}

/// The names of the nodes. `roots` are the references from outside the list.
pub(crate) fn names(
    alloc: Global,
    nodes: &[Node],
    roots: &[u32],
) -> Result<Vec<Option<usize>>, Memory>
    ensures { IfOk result (λ names. names.items ≡ names_of nodes.now roots.now) }
{
    let counts = count_references(alloc, nodes, roots)?;
    let mut names = Vec::new(alloc);
    let mut named = 0usize;
    for (i, node) in nodes.iter().enumerate() {
        let is_needed = needs_name(node, counts[i]);
        names.push(next_name(is_needed, &mut named))?;
    }
    Ok(names)
}

/// The node at a position, and its name where it has one.
pub(crate) fn named_at<'a>(
    nodes: &'a [Node],
    names: &[Option<usize>],
    k: usize,
) -> Option<(&'a Node, Option<usize>)>
    ensures none { IfNone result (slice_get (with_names nodes.now names.now) k ≡ None) }
    ensures node { IfSome result (λ found. slice_get nodes.now k ≡ Some found.0.now) }
    ensures printed { IfSome result (λ found. slice_get (with_names nodes.now names.now) k ≡ Some (printed_at (with_names nodes.now names.now) k found.1 found.0.now)) }
{
    let node = at(nodes, k)?;
    let name = at(names, k)?;
    Some((node, *name))
}

pub(crate) fn is_true(nodes: &[Node], k: u32) -> bool
    ensures { result ≡ is_true_node (slice_get nodes.now k) }
{
    matches!(at(nodes, k as usize), Some(Node::True))
}

pub(crate) fn is_false(nodes: &[Node], k: u32) -> bool
    ensures { result ≡ is_false_node (slice_get nodes.now k) }
{
    matches!(at(nodes, k as usize), Some(Node::False))
}
