// A world in which the nulls of a table differ.

ghost use Rattle.std.specs.Prelude.{◌≡◌, ◌<◌, ◌^◌, true, false, length, replicate, slice_set, All, IfOk, IsTrue, OnOk};
ghost use Rattle.std.specs.List.{IsDistinct};
ghost use Rattle.ct_word.specs.Reading.{term_at};
ghost use Rattle.ct_word.specs.Value.{same_null};
ghost use Rattle.ct_word.specs.WellFormed.{IsWellFormed};
ghost use Rattle.ct_word.specs.declared.values.Null.{Null};
ghost use Rattle.ct_condition.specs.Terms.{BelowSome};
ghost use Rattle.ct_tidy.specs.Marks.{is_marked, with_marks};
ghost use Rattle.ct_tidy.specs.Nulls.{AreNullsOf, IsPart, has_null, parts_of};
ghost use Rattle.ct_tidy.specs.Spread.{HasOwnValue, nulls_in, numbered, places_in_row, places_in_table, with_own};

use crate::below::{is_null, names_left, names_right};
use ct_word::{CRow, List, Memory, Null, Term, Value, World, kind, left, right, term_at, word_at};
use std::alloc::{AllocError, Global};

/// Marks a place, if there is a mark for it.
fn mark(marks: &mut Vec<bool>, place: u32)
    ensures { marks.new.items ≡ slice_set marks.old.items place true }
{
    if (place as usize) < marks.len() {
        marks[place as usize] = true;
    }
}

/// Whether a place is marked.
fn is_marked(marks: &[bool], place: u32) -> bool
    ensures { result ≡ is_marked marks.now place }
{
    let place = place as usize;
    if place < marks.len() {
        return marks[place];
    }
    false
}

/// Marks the conditions and terms that the word of a condition names.
fn mark_parts(marks: &mut Vec<bool>, word: u64)
    ensures { marks.new.items ≡ with_marks marks.old.items (parts_of word) }
{
    let Some(kind) = kind(word) else {
        return;
    };
    if !names_left(kind) {
        return;
    }
    mark(marks, left(word));
    if names_right(kind) {
        mark(marks, right(word));
    }
}

/// Marks cells.
fn mark_cells(marks: &mut Vec<bool>, cells: &[u32])
    ensures { marks.new.items ≡ with_marks marks.old.items cells.now }
{
    for cell in cells {
        mark(marks, *cell);
    }
}

/// Marks the condition and the cells of a row.
fn mark_row(marks: &mut Vec<bool>, row: &CRow)
    ensures { marks.new.items ≡ with_marks marks.old.items (places_in_row row.now) }
{
    mark(marks, row.cond);
    mark_cells(marks, row.cells.as_slice());
}

/// So many marks, of which those of the global condition, and of the conditions and cells of rows, are set.
fn marks_of(
    alloc: Global,
    count: usize,
    global: u32,
    rows: &[CRow],
) -> Result<Vec<bool>, AllocError>
    ensures { IfOk result (λ marks. marks.items ≡ with_marks (replicate count false) (places_in_table global rows.now)) }
{
    let mut marks = vec![in alloc; false; count]?;
    mark(&mut marks, global);
    for row in rows {
        mark_row(&mut marks, row);
    }
    Ok(marks)
}

/// Gives the null at a place the next value, if there is one.
fn spread_at(
    alloc: Global,
    words: &[u64],
    place: u32,
    world: &mut Vec<(Null, Value)>,
) -> Result<(), Memory>
    requires formed { IsWellFormed words.now }
    requires within { place < length words.now }
    requires room { length world.old.items < 2 ^ 28 }
    ensures { OnOk result (world.new.items ≡ with_own (term_at words.now place) world.old.items) }
{
    let number = world.len() as u32 + 1;
    let word = word_at(words, place);
    if is_null(word.kind) {
        if let Term::Null(null) = term_at(alloc, words, place)? {
            world.push((null, Value::Other(number)))?;
        }
    }
    Ok(())
}

/// A world in which the nulls below a global condition and rows differ: their values are `@1`, `@2` and so on, of which a word
/// has room for each.
///
/// # Errors
/// `Memory` where there is none for the world, and a mark for each word.
pub fn spread(alloc: Global, words: &[u64], global: u32, rows: &[CRow]) -> Result<World, Memory>
    requires formed { IsWellFormed words.now }
    requires small { length words.now < 2 ^ 28 }

    // Its nulls are those of the table, where that is made of conditions and terms.
    ensures nulls { All (IsPart words.now) (places_in_table global rows.now) → IfOk result (λ w. AreNullsOf (BelowSome words.now (places_in_table global rows.now)) (nulls_in w)) }
    ensures apart { (n : Null) → IfOk result (λ w. IsTrue (has_null (nulls_in w) n) → HasOwnValue w n) }
    ensures numbered { IfOk result (λ w. w ≡ numbered 0 (nulls_in w)) }
    ensures once { IfOk result (λ w. IsDistinct same_null (nulls_in w)) }
    ensures short { IfOk result (λ w. length w < 2 ^ 28) }
{
    let mut marks = marks_of(alloc, words.len(), global, rows)?;
    let mut world = Vec::new(alloc);
    for place in (0..words.len() as u32).rev() {
        if is_marked(marks.as_slice(), place) {
            mark_parts(&mut marks, words[place as usize]);
            spread_at(alloc, words, place, &mut world)?;
        }
    }
    Ok(List::from_vec(world))
}
