// The text of terms and of conditions, with new names for fresh nulls.

ghost use Rattle.std.specs.Prelude.{◌≡◌, ◌<◌, ◌≤◌, ◌++◌, List, map, length, nat_lt, replicate, IsTrue, decimal};
ghost use Rattle.std.specs.List.{list_all};
ghost use Rattle.ct_word.specs.Condition.{listed};
ghost use Rattle.ct_word.specs.declared.values.Null.TheVariants as null;
ghost use Rattle.ct_rewrite.specs.Nodes.{IsOrdered, node_condition};
ghost use Rattle.ct_rewrite.specs.Sizes.{as_part, text_of, text_of_parts};
ghost use Rattle.ct_print.specs.TermText.{null_text};
ghost use Rattle.ct_print.specs.Written.{Appends};
ghost use Rattle.ct_csv.specs.Renaming.{between, renamed_null};
ghost use Rattle.ct_csv.specs.Exported.{renamed_text};
ghost use Rattle.ct_csv.specs.Exported as spec;

use ct_print::{push_separator, push_term, push_text};
use ct_rewrite::Node;
use ct_word::{Memory, Null, Term};
use std::fmt::Write;

/// Appends so many underscores.
fn push_underscores(out: &mut String, count: usize) -> Result<(), Memory>
    ensures { Appends result out.old out.new (replicate count 95) }
{
    for _ in 0..count {
        out.push('_')?;
    }
    Ok(())
}

/// Appends two numbers with an underscore between.
fn push_numbers(out: &mut String, first: u32, second: u32) -> Result<(), Memory>
    ensures { Appends result out.old out.new (decimal first ++ between ++ decimal second) }
{
    Ok(write!(out, "{first}_{second}")?)
}

/// Appends a null, a fresh one by its new name, which has so many underscores behind the `n`.
fn push_null(out: &mut String, underscores: usize, null: &Null) -> Result<(), Memory>
    ensures { Appends result out.old out.new (null_text (renamed_null underscores null.now)) }
{
    match null {
        Null::Named(name) => {
            out.push_str("?")?;
            push_text(out, name.as_str())
        }
        Null::Fresh { session, number } => {
            out.push_str("?n")?;
            push_underscores(out, underscores)?;
            push_numbers(out, *session, *number)
        }
    }
}

/// Appends a term.
pub fn push_renamed(out: &mut String, underscores: usize, term: &Term) -> Result<(), Memory>
    ensures { Appends result out.old out.new (renamed_text underscores term.now) }
{
    match term {
        Term::Null(null) => push_null(out, underscores, null),
        Term::Column(_) => push_term(out, term),
        Term::Value(_) => push_term(out, term),
    }
}

/// Appends two terms with a sign between.
fn push_compared(
    out: &mut String,
    underscores: usize,
    left: &Term,
    sign: &str,
    right: &Term,
) -> Result<(), Memory>
    ensures { Appends result out.old out.new (renamed_text underscores left.now ++ sign.now ++ renamed_text underscores right.now) }
{
    push_renamed(out, underscores, left)?;
    out.push_str(sign)?;
    push_renamed(out, underscores, right)
}

/// Appends the condition at a position of a node list.
#[cycle(condition)]
pub fn push_condition(
    out: &mut String,
    underscores: usize,
    nodes: &[Node],
    position: u32,
) -> Result<(), Memory>
    requires ordered { IsOrdered nodes.now }
    requires within { position < length nodes.now }
    ensures { Appends result out.old out.new (text_of (renamed_text underscores) (node_condition nodes.now position)) }
{
    match &nodes[position as usize] {
        Node::True => push_text(out, "true"),
        Node::False => push_text(out, "false"),
        Node::Eq(s, t) => push_compared(out, underscores, s, " = ", t),
        Node::Ne(s, t) => push_compared(out, underscores, s, " <> ", t),
        Node::And(ks) => push_parts(out, underscores, nodes, position, " and ", ks.as_slice()),
        Node::Or(ks) => push_parts(out, underscores, nodes, position, " or ", ks.as_slice()),
    }
}

/// Appends the conditions at these positions, which stand below a bound, with a text between.
#[cycle(condition)]
fn push_parts(
    out: &mut String,
    underscores: usize,
    nodes: &[Node],
    bound: u32,
    between: &str,
    positions: &[u32],
) -> Result<(), Memory>
    requires ordered { IsOrdered nodes.now }
    requires bound { bound ≤ length nodes.now }
    requires below { IsTrue (list_all (λ k. nat_lt k bound) positions.now) }
    ensures { Appends result out.old out.new (text_of_parts (renamed_text underscores) between.now (listed (map (node_condition nodes.now) positions.now))) }
{
    for (i, position) in positions.iter().enumerate() {
        push_separator(out, i, between)?;
        push_part(out, underscores, nodes, *position)?;
    }
    Ok(())
}

/// Whether a node is an And or an Or.
fn is_run(node: &Node) -> bool
    ensures { result ≡ spec.is_run node.now }
{
    match node {
        Node::And(_) | Node::Or(_) => true,
        _ => false,
    }
}

/// Appends the condition at a position, in parentheses where it is an And or an Or.
#[cycle(condition)]
fn push_part(
    out: &mut String,
    underscores: usize,
    nodes: &[Node],
    position: u32,
) -> Result<(), Memory>
    requires ordered { IsOrdered nodes.now }
    requires within { position < length nodes.now }
    ensures { Appends result out.old out.new (as_part (node_condition nodes.now position) (text_of (renamed_text underscores) (node_condition nodes.now position))) }
{
    if !is_run(&nodes[position as usize]) {
        return push_condition(out, underscores, nodes, position);
    }
    out.push_str("(")?;
    push_condition(out, underscores, nodes, position)?;
    push_text(out, ")")
}
