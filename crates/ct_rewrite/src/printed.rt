// The printed form of conditions.

ghost use Rattle.std.specs.Prelude.{◌≡◌, ℕ, List, [], ◌∷◌, ◌<◌, ◌≤◌, ◌^◌, length, replicate, IfOk, IsTrue};
ghost use Rattle.std.specs.List.{AllZip, IsDistinct, list_all};
ghost use Rattle.ct_word.specs.declared.kinds.Class.TheVariants as class;
ghost use Rattle.ct_word.specs.declared.values.Term.{Term};
ghost use Rattle.ct_word.specs.Condition.{SameTruth};
ghost use Rattle.ct_word.specs.WellFormed.{IsWellFormed, is_place_of};
ghost use Rattle.ct_word.specs.Reading.{condition_at};
ghost use Rattle.ct_rewrite.specs.declared.answer.Node.TheVariants as node;
ghost use Rattle.ct_rewrite.specs.Nodes.{IsOrdered, is_position, node_condition, read_nodes, same_node};
ghost use Rattle.ct_rewrite.specs.Rules.{are_children_distinct, are_children_within, are_sides_in_order, has_no_literals, is_unsettled};
ghost use Rattle.ct_rewrite.specs.Sizes.{NoneIsEmpty, deep, nest_of, text_of, wide};

use crate::answer::Node;
use crate::below::below;
use crate::builder::Builder;
use crate::form::Normal;
use crate::forms::forms;
use crate::kept::kept;
use crate::numbering::{Conditions, numbers};
use crate::plain::is_plain;
use ct_word::{List, Memory};
use std::alloc::Global;

/// The printed form of so many conditions, each of them true.
fn all_true(alloc: Global, count: usize) -> Result<Normal, Memory>
    ensures nodes { IfOk result (λ n. n.nodes ≡ node.True ∷ []) }
    ensures roots { IfOk result (λ n. n.roots ≡ replicate count 0) }
{
    let nodes = vec![in alloc; Node::True]?;
    let roots = vec![in alloc; 0; count]?;
    Ok(Normal {
        nodes: List::from_vec(nodes),
        roots: List::from_vec(roots),
    })
}

/// The printed form of the conditions at these places of a log.
///
/// Each condition that a root leads to gets its form once for each sign with which it is led to, so
/// that what conditions share is not unfolded. No other word of the log is looked at. Where each root
/// is the word true, as that of most rows is, no forms are made.
///
/// # Errors
/// `Memory` where there is none for the nodes.
pub fn normal(alloc: Global, words: &[u64], roots: &[u32]) -> Result<Normal, Memory>
    requires formed { IsWellFormed words.now }
    requires short { length words.now < 2 ^ 28 }
    requires roots { IsTrue (list_all (is_place_of words.now class.Cond) roots.now) }

    // There are as many roots as places, and at every valuation and row each has the truth of its place's condition.
    ensures truth { IfOk result (λ n. AllZip (λ k place. SameTruth (node_condition n.nodes k) (condition_at words.now place)) n.roots roots.now) }

    // Its text without names is no longer and no deeper than the condition of the words allows,
    // whatever texts the terms have, none of them empty.
    ensures wide { IfOk result (λ n. (texts : Term → List ℕ) → NoneIsEmpty texts → AllZip (λ k place. length (text_of texts (node_condition n.nodes k)) ≤ wide (λ t. length (texts t)) (condition_at words.now place)) n.roots roots.now) }
    ensures deep { IfOk result (λ n. AllZip (λ k place. nest_of (node_condition n.nodes k) ≤ deep (condition_at words.now place)) n.roots roots.now) }
    ensures placed { IfOk result (λ n. IsTrue (list_all (is_position n.nodes) n.roots)) }
    ensures ordered { IfOk result (λ n. IsOrdered n.nodes) }
    ensures distinct { IfOk result (λ n. IsDistinct same_node n.nodes) }

    // Each And and Or has at least two children and at most 64.
    ensures children { IfOk result (λ n. IsTrue (list_all are_children_within n.nodes)) }

    // No position stands twice among the children of an And or Or.
    ensures children_distinct { IfOk result (λ n. IsTrue (list_all are_children_distinct n.nodes)) }

    // No child of an And or Or is True or False.
    ensures no_literals { IfOk result (λ n. IsTrue (list_all has_no_literals (read_nodes [] n.nodes))) }

    // In each equality, and in the denial of one, the smaller term stands first, and not both are constants.
    ensures sides { IfOk result (λ n. IsTrue (list_all are_sides_in_order n.nodes)) }
    ensures unsettled { IfOk result (λ n. IsTrue (list_all is_unsettled n.nodes)) }
{
    if is_plain(words, roots) {
        return all_true(alloc, roots.len());
    }
    let numbered = numbers(alloc, roots)?;
    let roots = numbered.as_slice();
    let wanted = below(alloc, &Conditions { words }, 2 * words.len() as u32, roots)?;
    let mut builder = Builder::new(alloc);
    let forms = forms(alloc, &mut builder, words, wanted.as_slice())?;
    let positions = forms.of(alloc, roots)?;
    kept(alloc, builder.nodes(), positions.as_slice())
}
