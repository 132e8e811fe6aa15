// The commits of a log as they are printed.

ghost use Rattle.std.specs.Prelude.{◌≡◌, ◌≤◌, ◌<◌, ◌^◌, ◌++◌, map, flat_map, length, All, IfOk, OnOk, IsTrue};
ghost use Rattle.ct_word.specs.declared.kinds.Class.TheVariants as class;
ghost use Rattle.ct_word.specs.Reading.{term_at};
ghost use Rattle.ct_word.specs.StandsFor.{StandsFor};
ghost use Rattle.ct_word.specs.WellFormed.{IsWellFormed, is_place_of};
ghost use Rattle.ct_rewrite.specs.History.{IsCommitFormed, plain_history};
ghost use Rattle.ct_history.specs.Printed.{change_with, changes_with, conds_of, rows_with};
ghost use Rattle.ct_history.specs.Commits.{IsCommitAt, StandsBetween};
ghost use Rattle.ct_history.specs.Rows.{AreTerms, IsRowOf};
ghost use Rattle.ct_history.specs.Written.{IsWritten, plain_set};

use crate::written::{Written, changes_at};
use ct_rewrite::{AnswerRow, Change, Commit, normal};
use ct_word::{CRow, Kind, List, Memory, Term, term_at, word_at};
use std::alloc::Global;

/// Adds the places of the conditions of rows.
fn add_conditions(roots: &mut Vec<u32>, rows: &[CRow]) -> Result<(), Memory>
    ensures { OnOk result (roots.new.items ≡ roots.old.items ++ map (λ r. r.cond) rows.now) }
{
    for row in rows {
        roots.push(row.cond)?;
    }
    Ok(())
}

/// The places of the conditions of changes, in order.
fn conditions(alloc: Global, changes: &[Written]) -> Result<Vec<u32>, Memory>
    ensures { IfOk result (λ v. v.items ≡ flat_map conds_of changes.now) }
{
    let mut roots = Vec::with_capacity(alloc, changes.len())?;
    for change in changes {
        match change {
            Written::Create { .. } => {}
            Written::Insert { rows, .. } => add_conditions(&mut roots, rows.as_slice())?,
            Written::Delete { cond, .. }
            | Written::Update { cond, .. }
            | Written::Assert { cond } => roots.push(*cond)?,
        }
    }
    Ok(roots)
}

/// The terms at these places.
fn terms(alloc: Global, words: &[u64], places: &[u32]) -> Result<List<Term>, Memory>
    requires formed { IsWellFormed words.now }
    requires places { AreTerms words.now places.now }
    ensures { IfOk result (λ ts. ts ≡ map (term_at words.now) places.now) }
{
    let mut terms = Vec::with_capacity(alloc, places.len())?;
    for place in places {
        terms.push(term_at(alloc, words, *place)?)?;
    }
    Ok(List::from_vec(terms))
}

/// Sets with terms for their places.
fn sets(alloc: Global, words: &[u64], sets: &[(u32, u32)]) -> Result<List<(u32, Term)>, Memory>
    requires formed { IsWellFormed words.now }
    requires sets { All (λ s. IsTrue (is_place_of words.now class.Term s.1)) sets.now }
    ensures { IfOk result (λ out. out ≡ map (plain_set words.now) sets.now) }
{
    let mut out = Vec::with_capacity(alloc, sets.len())?;
    for set in sets {
        let term = term_at(alloc, words, set.1)?;
        out.push((set.0, term))?;
    }
    Ok(List::from_vec(out))
}

/// Rows with positions for the places of their conditions.
fn rows(
    alloc: Global,
    words: &[u64],
    rows: &[CRow],
    positions: &[u32],
) -> Result<List<AnswerRow>, Memory>
    requires formed { IsWellFormed words.now }
    requires rows { All (IsRowOf words.now) rows.now }
    ensures { IfOk result (λ out. out ≡ rows_with words.now rows.now positions.now) }
{
    let mut out = Vec::with_capacity(alloc, rows.len())?;
    let mut rest = positions;
    for row in rows {
        let Some((cond, later)) = rest.split_first() else {
            break;
        };
        let cells = terms(alloc, words, row.cells.as_slice())?;
        out.push(AnswerRow { cells, cond: *cond })?;
        rest = later;
    }
    Ok(List::from_vec(out))
}

/// A change with positions for the places of its conditions.
fn change(
    alloc: Global,
    words: &[u64],
    change: Written,
    positions: &[u32],
) -> Result<Change, Memory>
    requires formed { IsWellFormed words.now }
    requires change { IsWritten words.now change }
    requires positions { length positions.now ≡ length (conds_of change) }
    ensures { IfOk result (λ x. x ≡ change_with words.now change positions.now) }
{
    match change {
        Written::Create { name, columns } => Ok(Change::Create { name, columns }),
        Written::Insert { name, rows: list } => Ok(Change::Insert {
            name,
            rows: rows(alloc, words, list.as_slice(), positions)?,
        }),
        Written::Delete { name, cond: _ } => Ok(Change::Delete {
            name,
            cond: positions[0],
        }),
        Written::Update {
            name,
            sets: list,
            cond: _,
        } => Ok(Change::Update {
            name,
            sets: sets(alloc, words, list.as_slice())?,
            cond: positions[0],
        }),
        Written::Assert { cond: _ } => Ok(Change::Assert { cond: positions[0] }),
    }
}

/// How many conditions a change has.
fn count(change: &Written) -> usize
    ensures { result ≡ length (conds_of change.now) }
{
    match change {
        Written::Create { .. } => 0,
        Written::Insert { rows, .. } => rows.len(),
        Written::Delete { .. } | Written::Update { .. } | Written::Assert { .. } => 1,
    }
}

/// Changes with positions for the places of their conditions.
fn changes(
    alloc: Global,
    words: &[u64],
    changes: List<Written>,
    positions: &[u32],
) -> Result<List<Change>, Memory>
    requires formed { IsWellFormed words.now }
    requires changes { All (IsWritten words.now) changes }
    requires positions { length positions.now ≡ length (flat_map conds_of changes) }
    ensures { IfOk result (λ xs. xs ≡ changes_with words.now changes positions.now) }
{
    let mut out = Vec::with_capacity(alloc, changes.len())?;
    let mut rest = positions;
    for item in changes.into_vec() {
        let (own, later) = rest.split_at(count(&item));
        out.push(change(alloc, words, item, own)?)?;
        rest = later;
    }
    Ok(List::from_vec(out))
}

/// The commit at a place. The forms of all its conditions are made together, so that what they
/// share is one node.
fn commit(alloc: Global, words: &[u64], place: u32) -> Result<Commit, Memory>
    requires formed { IsWellFormed words.now }
    requires short { length words.now < 2 ^ 28 }
    requires place { IsTrue (is_place_of words.now class.Commit place) }
    ensures { IfOk result (λ c. IsCommitAt words.now place c) }
{
    let word = word_at(words, place);
    let written = changes_at(alloc, words, word.right)?;
    let roots = conditions(alloc, written.as_slice())?;
    let forms = normal(alloc, words, roots.as_slice())?;
    let changes = changes(alloc, words, written, forms.roots.as_slice())?;
    Ok(Commit {
        session: word.left / 0x4_0000,
        number: word.left % 0x4_0000,
        nodes: forms.nodes,
        changes,
    })
}

/// The commits of a log whose words stand at the places from `from` up to `upto`, as `commits` gives them.
///
/// # Errors
/// `Memory` where there is none for the commits.
pub fn commits_between(
    alloc: Global,
    words: &[u64],
    from: u32,
    upto: u32,
) -> Result<Vec<Commit>, Memory>
    requires formed { IsWellFormed words.now }
    requires short { length words.now < 2 ^ 28 }
    requires order { from ≤ upto }
    requires within { upto ≤ length words.now }
    ensures stands { IfOk result (λ h. StandsBetween words.now from upto h.items) }
    ensures formed { IfOk result (λ h. All IsCommitFormed h.items) }
{
    let mut commits = Vec::new(alloc);
    for place in from..upto {
        let word = word_at(words, place);
        match word.kind {
            Kind::Commit => {
                let next = commit(alloc, words, place)?;
                commits.push(next)?;
            }
            _ => {}
        }
    }
    Ok(commits)
}

/// The commits of a log, in order, their conditions as they are printed. In each commit the
/// children of a node stand before it.
///
/// # Errors
/// `Memory` where there is none for the commits.
pub fn commits(alloc: Global, words: &[u64]) -> Result<List<Commit>, Memory>
    requires formed { IsWellFormed words.now }
    requires short { length words.now < 2 ^ 28 }
    ensures stands { IfOk result (λ h. StandsFor (plain_history h) words.now) }
    ensures formed { IfOk result (λ h. All IsCommitFormed h) }
{
    let commits = commits_between(alloc, words, 0, words.len() as u32)?;
    Ok(List::from_vec(commits))
}
