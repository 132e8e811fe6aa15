// Conditions, written from their root down, so that each text is written once, into its line. A condition may nest as deep as
// its log is long, so the runs that are open stand in a list, and no function here calls itself.

ghost use Rattle.std.specs.Prelude.{◌≡◌, ℕ, ◌+◌, ◌*◌, ◌<◌, ◌≤◌, ◌^◌, [], ◌∷◌, ◌++◌, if◌then◌else◌, length, slice_get, take, codes, string_bytes, OnOk};
ghost use Rattle.ct_rewrite.specs.Nodes.{children_of};
ghost use Rattle.ct_print.specs.TermText.{term_text};
ghost use Rattle.ct_transcript.specs.NodeText.{as_child, as_root, name_text, unless_true, with_names};
ghost use Rattle.ct_transcript.specs.Owed.{begun, begun_text, between, turns, own_text, owed, parts_of};
ghost use Rattle.ct_print.specs.Written.{Appends, Adds};

use crate::nodes::{is_true, named_at};
use ct_print::{push_separator, push_term, push_text};
use ct_rewrite::Node;
use ct_word::{Memory, Term};
use std::alloc::Global;
use std::fmt::Write;

/// An And or Or that is being written. Those that are open at once stand within each other, the innermost last.
#[derive(Clone, Copy)]
pub(crate) struct Open {
    /// Its position.
    node: usize,
    /// How many of its parts are written.
    written: usize,
    /// Whether it is a part of another, and so stands in parentheses.
    is_part: bool,
}

fn push_name(out: &mut String, name: usize) -> Result<(), Memory>
    ensures { Appends result out.old out.new (name_text name) }
{
    write!(out, "[{name}]")?;
    Ok(())
}

/// Appends two terms with a sign between.
pub(crate) fn push_leaf(
    out: &mut String,
    left: &Term,
    sign: &str,
    right: &Term,
) -> Result<(), Memory>
    ensures { Appends result out.old out.new (term_text left.now ++ sign.now ++ term_text right.now) }
{
    push_term(out, left)?;
    out.push_str(sign)?;
    push_term(out, right)
}

// Appends a parenthesis of a part.
fn push_parenthesis(out: &mut String, is_part: bool, sign: &str) -> Result<(), Memory>
    ensures { Appends result out.old out.new (if is_part then sign.now else []) }
{
    if is_part {
        push_text(out, sign)
    } else {
        Ok(())
    }
}

fn open_run(out: &mut String, runs: &mut Vec<Open>, k: usize, is_part: bool) -> Result<(), Memory>
    ensures text { Appends result out.old out.new (if is_part then codes "(" else []) }
    ensures opened { Adds result runs.old runs.new (record { node = k; written = 0; is_part = is_part } ∷ []) }
{
    push_parenthesis(out, is_part, "(")?;
    runs.push(Open {
        node: k,
        written: 0,
        is_part,
    })?;
    Ok(())
}

// Writes a node that has no parts, or opens one that has.
fn begin(
    out: &mut String,
    runs: &mut Vec<Open>,
    node: &Node,
    k: usize,
    is_part: bool,
) -> Result<(), Memory>
    ensures text { Appends result out.old out.new (begun_text is_part node.now) }
    ensures opened { Adds result runs.old runs.new (begun k is_part node.now) }
{
    match node {
        Node::True => push_text(out, "true"),
        Node::False => push_text(out, "false"),
        Node::Eq(s, t) => push_leaf(out, s, " = ", t),
        Node::Ne(s, t) => push_leaf(out, s, " <> ", t),
        Node::And(_) | Node::Or(_) => open_run(out, runs, k, is_part),
    }
}

// Writes the name of a part, or begins its text. The nodes that it may be stand before a position.
fn push_part(
    out: &mut String,
    runs: &mut Vec<Open>,
    nodes: &[Node],
    names: &[Option<usize>],
    before: usize,
    k: usize,
) -> Result<(), Memory>
    ensures written { OnOk result (string_bytes out.new ++ owed nodes.now (with_names nodes.now names.now) runs.new.items ≡ string_bytes out.old ++ (as_child (slice_get (take before (with_names nodes.now names.now)) k) ++ owed nodes.now (with_names nodes.now names.now) runs.old.items)) }
    ensures paid { OnOk result (turns nodes.now runs.new.items + 2 ^ 64 * length (string_bytes out.old) ≤ turns nodes.now runs.old.items + 2 ^ 64 * length (string_bytes out.new)) }
{
    if k >= before {
        return Ok(());
    }
    match named_at(nodes, names, k) {
        Some((_, Some(name))) => push_name(out, name),
        Some((node, None)) => begin(out, runs, node, k, true),
        None => Ok(()),
    }
}

fn parts_at(nodes: &[Node], k: usize) -> &[u32]
    ensures { result.now ≡ parts_of (slice_get nodes.now k) }
{
    match nodes.get(k) {
        Some(node) => node.children(),
        None => &[],
    }
}

fn between_at(nodes: &[Node], k: usize) -> &'static str
    ensures { result.now ≡ between (slice_get nodes.now k) }
{
    match nodes.get(k) {
        Some(Node::And(_)) => " and ",
        _ => " or ",
    }
}

// Writes the next part of an open run, or closes it where all are written.
fn push_next(
    out: &mut String,
    runs: &mut Vec<Open>,
    nodes: &[Node],
    names: &[Option<usize>],
    last: Open,
) -> Result<(), Memory>
    ensures written { OnOk result (string_bytes out.new ++ owed nodes.now (with_names nodes.now names.now) runs.new.items ≡ string_bytes out.old ++ owed nodes.now (with_names nodes.now names.now) (runs.old.items ++ last ∷ [])) }
    ensures paid { OnOk result (turns nodes.now runs.new.items + 2 ^ 64 * length (string_bytes out.old) < turns nodes.now (runs.old.items ++ last ∷ []) + 2 ^ 64 * length (string_bytes out.new)) }
{
    let parts = parts_at(nodes, last.node);
    if last.written >= parts.len() {
        return push_parenthesis(out, last.is_part, ")");
    }
    let part = parts[last.written];
    push_separator(out, last.written, between_at(nodes, last.node))?;
    runs.push(Open {
        written: last.written + 1,
        ..last
    })?;
    push_part(out, runs, nodes, names, last.node, part as usize)
}

/// Appends the text of the node at a position, without its name, and nothing where there is no node.
pub(crate) fn push_text_at(
    alloc: Global,
    out: &mut String,
    nodes: &[Node],
    names: &[Option<usize>],
    k: usize,
) -> Result<(), Memory>
    ensures { Appends result out.old out.new (own_text (slice_get (with_names nodes.now names.now) k)) }
{
    let Some((node, _)) = named_at(nodes, names, k) else {
        return Ok(());
    };
    let mut runs = Vec::new(alloc);
    begin(out, &mut runs, node, k, false)?;
    while let Some(last) = runs.pop() {
        push_next(out, &mut runs, nodes, names, last)?;
    }
    Ok(())
}

/// Appends the condition at a position as rows, changes and the global condition refer to it.
pub(crate) fn push_root(
    alloc: Global,
    out: &mut String,
    nodes: &[Node],
    names: &[Option<usize>],
    k: u32,
) -> Result<(), Memory>
    ensures { Appends result out.old out.new (as_root (slice_get (with_names nodes.now names.now) k)) }
{
    match named_at(nodes, names, k as usize) {
        Some((_, Some(name))) => push_name(out, name),
        Some((_, None)) => push_text_at(alloc, out, nodes, names, k as usize),
        None => Ok(()),
    }
}

/// Appends the word and the condition at a position, nothing where it is True.
pub(crate) fn push_unless_true(
    alloc: Global,
    out: &mut String,
    nodes: &[Node],
    names: &[Option<usize>],
    word: &str,
    k: u32,
) -> Result<(), Memory>
    ensures { Appends result out.old out.new (unless_true nodes.now (with_names nodes.now names.now) word.now k) }
{
    if is_true(nodes, k) {
        return Ok(());
    }
    out.push_str(word)?;
    push_root(alloc, out, nodes, names, k)
}
