// Commits as they are printed.

ghost use Rattle.std.specs.Prelude.{◌≡◌, ◌+◌, ◌^◌, ◌≤◌, List, [], ◌∷◌, ◌++◌, map, flat_map, length, codes, IfOk};
ghost use Rattle.ct_transcript.specs.NodeText.{line, with_names};
ghost use Rattle.ct_transcript.specs.Text.{references_of, set_text, change_text, change_lines, printed_commit, commit_lines, commits_from};
ghost use Rattle.ct_print.specs.TermText.{with_commas};
ghost use Rattle.ct_print.specs.Written.{Appends, Adds};

use crate::nodes::names;
use crate::rows::{push_conditions, push_line, push_name_lines, push_rows};
use crate::writing::{push_leaf, push_root};
use ct_print::{push_names, push_separator, push_text};
use ct_rewrite::{Change, Commit, Node};
use ct_word::{Memory, Term, Text};
use std::alloc::Global;

fn push_references(references: &mut Vec<u32>, change: &Change) -> Result<(), Memory>
    ensures { Adds result references.old references.new (references_of change.now) }
{
    match change {
        Change::Create { .. } => Ok(()),
        Change::Insert { rows, .. } => push_conditions(references, rows.as_slice()),
        Change::Delete { cond, .. } | Change::Update { cond, .. } | Change::Assert { cond } => {
            Ok(references.push(*cond)?)
        }
    }
}

fn commit_references(alloc: Global, changes: &[Change]) -> Result<Vec<u32>, Memory>
    ensures { IfOk result (λ ks. ks.items ≡ flat_map references_of changes.now) }
{
    let mut references = Vec::new(alloc);
    for change in changes {
        push_references(&mut references, change)?;
    }
    Ok(references)
}

// Appends what is done to a table, up to the parts of the change.
fn push_about(out: &mut String, verb: &str, name: &Text, after: &str) -> Result<(), Memory>
    ensures { Appends result out.old out.new (verb.now ++ name.now ++ after.now) }
{
    out.push_str(verb)?;
    out.push_str(name.as_str())?;
    push_text(out, after)
}

fn push_set(out: &mut String, set: &(u32, Term)) -> Result<(), Memory>
    ensures { Appends result out.old out.new (set_text set.now) }
{
    push_leaf(out, &Term::Column(set.0), " = ", &set.1)
}

// Appends the columns that an update sets, with commas between.
fn push_sets(out: &mut String, sets: &[(u32, Term)]) -> Result<(), Memory>
    ensures { Appends result out.old out.new (with_commas set_text sets.now) }
{
    for (i, set) in sets.iter().enumerate() {
        push_separator(out, i, ", ")?;
        push_set(out, set)?;
    }
    Ok(())
}

fn push_change(
    alloc: Global,
    out: &mut String,
    nodes: &[Node],
    names: &[Option<usize>],
    change: &Change,
) -> Result<(), Memory>
    ensures { Appends result out.old out.new (change_text nodes.now (with_names nodes.now names.now) change.now) }
{
    match change {
        Change::Create { name, columns } => {
            push_about(out, "create table ", name, " ")?;
            push_names(out, columns.as_slice())
        }
        Change::Insert { name, rows } => {
            push_about(out, "insert into ", name, " ")?;
            push_rows(alloc, out, nodes, names, rows.as_slice())
        }
        Change::Delete { name, cond } => {
            push_about(out, "delete from ", name, " where ")?;
            push_root(alloc, out, nodes, names, *cond)
        }
        Change::Update { name, sets, cond } => {
            push_about(out, "update ", name, " set ")?;
            push_sets(out, sets.as_slice())?;
            out.push_str(" where ")?;
            push_root(alloc, out, nodes, names, *cond)
        }
        Change::Assert { cond } => {
            out.push_str("assert ")?;
            push_root(alloc, out, nodes, names, *cond)
        }
    }
}

fn push_change_line(
    alloc: Global,
    lines: &mut Vec<Text>,
    nodes: &[Node],
    names: &[Option<usize>],
    change: &Change,
) -> Result<(), Memory>
    ensures { Adds result lines.old lines.new (line (codes "  " ++ change_text nodes.now (with_names nodes.now names.now) change.now) ∷ []) }
{
    let mut text = String::from_str(alloc, "  ")?;
    push_change(alloc, &mut text, nodes, names, change)?;
    push_line(lines, text)
}

fn push_change_lines(
    alloc: Global,
    lines: &mut Vec<Text>,
    nodes: &[Node],
    names: &[Option<usize>],
    changes: &[Change],
) -> Result<(), Memory>
    ensures { Adds result lines.old lines.new (change_lines nodes.now (with_names nodes.now names.now) changes.now) }
{
    for change in changes {
        push_change_line(alloc, lines, nodes, names, change)?;
    }
    Ok(())
}

fn commit_names(alloc: Global, commit: &Commit) -> Result<Vec<Option<usize>>, Memory>
    ensures { IfOk result (λ names. with_names commit.now.nodes names.items ≡ printed_commit commit.now) }
{
    let references = commit_references(alloc, commit.changes.as_slice())?;
    names(alloc, commit.nodes.as_slice(), &references)
}

fn push_commit_lines(
    alloc: Global,
    lines: &mut Vec<Text>,
    m: usize,
    commit: &Commit,
    names: &[Option<usize>],
) -> Result<(), Memory>
    ensures { Adds result lines.old lines.new (commit_lines m commit.now (with_names commit.now.nodes names.now)) }
{
    let session = commit.session;
    push_line(lines, format!(in alloc; "{m} by {session}")?)?;
    let nodes = commit.nodes.as_slice();
    push_name_lines(alloc, lines, nodes, names)?;
    push_change_lines(alloc, lines, nodes, names, commit.changes.as_slice())
}

fn push_commit(
    alloc: Global,
    lines: &mut Vec<Text>,
    m: usize,
    commit: &Commit,
) -> Result<(), Memory>
    ensures { Adds result lines.old lines.new (commit_lines m commit.now (printed_commit commit.now)) }
{
    let names = commit_names(alloc, commit)?;
    push_commit_lines(alloc, lines, m, commit, &names)
}

/// The lines of these commits, which are numbered from `first` on.
///
/// # Errors
/// `Memory` where there is none for the lines.
pub fn lines_of_commits(
    alloc: Global,
    first: usize,
    commits: &[Commit],
) -> Result<Vec<Text>, Memory>
    requires numbers { first + length commits.now ≤ 2 ^ 64 }
    ensures { IfOk result (λ ls. ls.items ≡ commits_from first commits.now) }
{
    let mut lines = Vec::new(alloc);
    for (i, commit) in commits.iter().enumerate() {
        push_commit(alloc, &mut lines, first + i, commit)?;
    }
    Ok(lines)
}
