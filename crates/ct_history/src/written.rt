// Change lists, read as places.

ghost use Rattle.std.specs.Prelude.{◌≡◌, List, [], ◌∷◌, ◌++◌, map, All, IfOk, IfSome, IsNone, MatchOption, IsTrue};
ghost use Rattle.ct_word.specs.declared.kinds.Class.TheVariants as class;
ghost use Rattle.ct_word.specs.Change.{PlainChange};
ghost use Rattle.ct_word.specs.Reading.{change_list_at, plain_crow};
ghost use Rattle.ct_word.specs.WellFormed.{IsWellFormed, is_place_of};
ghost use Rattle.ct_history.specs.Places.{change_at, cond_row_at, names_at, rows_at, sets_at};
ghost use Rattle.ct_history.specs.Rows.{IsRowOf};
ghost use Rattle.ct_history.specs.Written.{IsWritten, plain_set, plain_written};

use crate::items::{is_longer, items};
use crate::words::{ChangeWord, change_word};
use ct_word::{CRow, List, Memory, Text, text_at, word_at};
use std::alloc::Global;

/// A change of the log, its rows and its condition by their places.
#[derive(Drop)]
pub enum Written {
    Create {
        name: Text,
        columns: List<Text>,
    },
    Insert {
        name: Text,
        rows: List<CRow>,
    },
    Delete {
        name: Text,
        cond: u32,
    },
    /// The sets are positions of columns from 0, each with the place of the term that its cells get.
    Update {
        name: Text,
        sets: List<(u32, u32)>,
        cond: u32,
    },
    Assert {
        cond: u32,
    },
}

/// The names at a place.
fn names(alloc: Global, words: &[u64], place: u32) -> Result<List<Text>, Memory>
    requires formed { IsWellFormed words.now }
    requires place { IsTrue (is_place_of words.now class.NameList place) }
    ensures { IfOk result (λ names. names ≡ names_at words.now place) }
{
    let places = items(alloc, words, place)?;
    let mut names = Vec::with_capacity(alloc, places.len())?;
    for item in places.as_slice() {
        let name = text_at(alloc, words, *item)?;
        names.push(name)?;
    }
    Ok(List::from_vec(names))
}

/// The row at a place, as places.
fn row(alloc: Global, words: &[u64], place: u32) -> Result<CRow, Memory>
    requires formed { IsWellFormed words.now }
    requires place { IsTrue (is_place_of words.now class.CondRow place) }
    ensures same { IfOk result (λ r. plain_crow words.now r ≡ cond_row_at words.now place) }
    ensures placed { IfOk result (λ r. IsRowOf words.now r) }
{
    let word = word_at(words, place);
    let cells = items(alloc, words, word.left)?;
    Ok(CRow {
        cells: List::from_vec(cells),
        cond: word.right,
    })
}

/// The rows at a place, as places.
fn rows(alloc: Global, words: &[u64], place: u32) -> Result<List<CRow>, Memory>
    requires formed { IsWellFormed words.now }
    requires place { IsTrue (is_place_of words.now class.RowList place) }
    ensures same { IfOk result (λ rows. map (plain_crow words.now) rows ≡ rows_at words.now place) }
    ensures placed { IfOk result (λ rows. All (IsRowOf words.now) rows) }
{
    let mut rows = Vec::new(alloc);
    let mut rest = place;
    loop {
        let word = word_at(words, rest);
        if !is_longer(word.kind) {
            break;
        }
        let next = row(alloc, words, word.right)?;
        rows.push(next)?;
        rest = word.left;
    }
    rows.reverse();
    Ok(List::from_vec(rows))
}

/// The sets at a place, each a position and the place of a term.
fn sets(alloc: Global, words: &[u64], place: u32) -> Result<List<(u32, u32)>, Memory>
    requires formed { IsWellFormed words.now }
    requires place { IsTrue (is_place_of words.now class.SetList place) }
    ensures same { IfOk result (λ sets. map (plain_set words.now) sets ≡ sets_at words.now place) }
    ensures placed { IfOk result (λ sets. All (λ s. IsTrue (is_place_of words.now class.Term s.1)) sets) }
{
    let places = items(alloc, words, place)?;
    let mut sets = Vec::with_capacity(alloc, places.len())?;
    for item in places.as_slice() {
        let word = word_at(words, *item);
        sets.push((word.left, word.right))?;
    }
    Ok(List::from_vec(sets))
}

/// The change at a place.
fn written_change(alloc: Global, words: &[u64], place: u32) -> Result<Written, Memory>
    requires formed { IsWellFormed words.now }
    requires place { IsTrue (is_place_of words.now class.Change place) }
    ensures same { IfOk result (λ x. plain_written words.now x ≡ change_at words.now place) }
    ensures placed { IfOk result (λ x. IsWritten words.now x) }
{
    match change_word(words, place) {
        ChangeWord::Create { name, columns } => Ok(Written::Create {
            name: text_at(alloc, words, name)?,
            columns: names(alloc, words, columns)?,
        }),
        ChangeWord::Insert { name, rows: list } => Ok(Written::Insert {
            name: text_at(alloc, words, name)?,
            rows: rows(alloc, words, list)?,
        }),
        ChangeWord::Delete { name, cond } => Ok(Written::Delete {
            name: text_at(alloc, words, name)?,
            cond,
        }),
        ChangeWord::Update {
            name,
            sets: list,
            cond,
        } => Ok(Written::Update {
            name: text_at(alloc, words, name)?,
            sets: sets(alloc, words, list)?,
            cond,
        }),
        ChangeWord::Assert { cond } => Ok(Written::Assert { cond }),
    }
}

/// The changes of the list at a place, in order. A caller that applies them needs no other view of
/// the log's words.
///
/// # Errors
/// `Memory` where there is none for the changes.
pub fn changes_at(alloc: Global, words: &[u64], list: u32) -> Result<List<Written>, Memory>
    requires formed { IsWellFormed words.now }
    requires list { IsTrue (is_place_of words.now class.ChangeList list) }
    ensures same { IfOk result (λ xs. map (plain_written words.now) xs ≡ change_list_at words.now list) }
    ensures placed { IfOk result (λ xs. All (IsWritten words.now) xs) }
{
    let mut changes = Vec::new(alloc);
    let mut rest = list;
    loop {
        let word = word_at(words, rest);
        if !is_longer(word.kind) {
            break;
        }
        let next = written_change(alloc, words, word.right)?;
        changes.push(next)?;
        rest = word.left;
    }
    changes.reverse();
    Ok(List::from_vec(changes))
}

/// The last change of the list at a place; none where the list has none.
///
/// # Errors
/// `Memory` where there is none for the change.
pub fn last_change(alloc: Global, words: &[u64], list: u32) -> Result<Option<Written>, Memory>
    requires formed { IsWellFormed words.now }
    requires list { IsTrue (is_place_of words.now class.ChangeList list) }
    ensures none { change_list_at words.now list ≡ [] → IfOk result IsNone }
    ensures last { (front : List PlainChange) (y : PlainChange) → change_list_at words.now list ≡ front ++ y ∷ [] → IfOk result (λ o. MatchOption o ⊥ (λ x. plain_written words.now x ≡ y)) }
    ensures placed { IfOk result (λ o. IfSome o (IsWritten words.now)) }
{
    let word = word_at(words, list);
    if !is_longer(word.kind) {
        return Ok(None);
    }
    let change = written_change(alloc, words, word.right)?;
    Ok(Some(change))
}
