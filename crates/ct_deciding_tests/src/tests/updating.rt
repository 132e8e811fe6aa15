// Updates of tables of two columns. The scripts of tests/ run more of them.

ghost use Rattle.std.specs.Prelude.{◌≡◌, ◌<◌, ℕ, Some, length, All, IfOk, IsTrue, OnOk};
ghost use mathlib.Core.List.{IsPrefix};
ghost use Rattle.ct_word.specs.Stands.{TermBelow};
ghost use Rattle.ct_word.specs.WellFormed.{IsWellFormed, is_place_of};
ghost use Rattle.ct_word.specs.Word.{kind_of, left_of};
ghost use Rattle.ct_word.specs.declared.kinds.Class.TheVariants as class;
ghost use Rattle.ct_word.specs.declared.kinds.Kind.TheVariants as spec_kind;
ghost use Rattle.ct_word.specs.declared.values.Term.TheVariants as term;
ghost use Rattle.ct_operators.specs.Tables.{AreRows};

use crate::tests::tables::{equal, named, number, table_of};
use ct_arena::{Arena, Pass, Site};
use ct_condition::{not, term};
use ct_operators::{CRow, CTable};
use ct_samples::is_place;
use ct_update::update;
use ct_word::{Class, Kind, List, Term, Text, kind, left};
use std::alloc::Global;
use std::test::Fail;

/// Whether a word is of no column but one of so many.
fn is_within(word: u64, width: usize) -> bool
    ensures { IsTrue result → kind_of word ≡ Some spec_kind.Column → left_of word < width }
{
    match kind(word) {
        Some(Kind::Column) => (left(word) as usize) < width,
        _ => true,
    }
}

/// Whether each column of a log is one of so many.
fn are_columns_within(words: &[u64], width: usize) -> bool
    requires { IsWellFormed words.now }
    ensures { IsTrue result → (place k : ℕ) → TermBelow words.now place (term.Column k) → k < width }
{
    for word in words {
        if !is_within(*word, width) {
            return false;
        }
    }
    true
}

/// Whether a set is one of a row of so many cells.
fn is_set(words: &[u64], width: usize, set: &(u32, u32)) -> bool
    ensures { IsTrue result → (set.now.0 < width) × IsTrue (is_place_of words.now class.Term set.now.1) }
{
    (set.0 as usize) < width && is_place(words, Class::Term, set.1)
}

/// Whether all of these sets are.
fn are_sets(words: &[u64], width: usize, sets: &[(u32, u32)]) -> bool
    ensures { IsTrue result → All (λ s. (s.0 < width) × IsTrue (is_place_of words.now class.Term s.1)) sets.now }
{
    for set in sets {
        if !is_set(words, width, set) {
            return false;
        }
    }
    true
}

/// The rows of a table with sets made on them where a condition holds.
fn changed<N: Site>(
    alloc: Global,
    arena: &Arena<N>,
    pass: &mut Pass<N>,
    table: &CTable,
    sets: &[(u32, u32)],
    cond: u32,
) -> Result<List<CRow>, Fail>
    requires { AreRows pass.old.words (length table.now.columns) table.now.rows }
{
    let width = table.columns.len();
    if !is_place(pass.words(), Class::Cond, cond) {
        return Err("no condition".into());
    }
    if !are_sets(pass.words(), width, sets) {
        return Err("no sets".into());
    }
    if !are_columns_within(pass.words(), width) {
        return Err("a column of no cell".into());
    }
    let after = update(alloc, arena, pass, table, sets, cond)?;
    Ok(after.rows)
}

/// A table of two columns with these rows, each of them always a row.
fn pairs<N: Site>(
    alloc: Global,
    arena: &Arena<N>,
    pass: &mut Pass<N>,
    cells: &[[u32; 2]],
) -> Result<CTable, Fail>
    ensures { IfOk result (λ t. AreRows pass.new.words (length t.columns) t.rows) }
{
    let mut rows = Vec::new(alloc);
    for pair in cells {
        rows.push(CRow {
            cells: List::from_vec(Vec::from_array(alloc, *pair)?),
            cond: 0,
        })?;
    }
    let names = [Text::from_str(alloc, "a")?, Text::from_str(alloc, "b")?];
    let columns = List::from_vec(Vec::from_array(alloc, names)?);
    table_of(alloc, arena, pass, columns, rows.as_slice())
}

/// The places of both columns.
fn columns<N: Site>(arena: &Arena<N>, pass: &mut Pass<N>) -> Result<(u32, u32), Fail>
    ensures { OnOk result (IsPrefix pass.old.words pass.new.words) }
{
    let a = term(arena, pass, &Term::Column(0))?;
    let b = term(arena, pass, &Term::Column(1))?;
    Ok((a, b))
}

/// The rows of a table of these, whose second cell is made another where it is a term.
fn second_changed<N: Site>(
    alloc: Global,
    arena: &Arena<N>,
    pass: &mut Pass<N>,
    cells: &[[u32; 2]],
    was: u32,
    becomes: u32,
) -> Result<List<CRow>, Fail> {
    let table = pairs(alloc, arena, pass, cells)?;
    let _ = pass.words();
    let (_, b) = columns(arena, pass)?;
    let cond = equal(arena, pass, b, was)?;
    changed(alloc, arena, pass, &table, &[(1, becomes)], cond)
}

/// The rows of a table of these, with both cells changed for each other.
fn swapped<N: Site>(
    alloc: Global,
    arena: &Arena<N>,
    pass: &mut Pass<N>,
    cells: &[[u32; 2]],
) -> Result<List<CRow>, Fail> {
    let table = pairs(alloc, arena, pass, cells)?;
    let _ = pass.words();
    let (a, b) = columns(arena, pass)?;
    changed(alloc, arena, pass, &table, &[(0, b), (1, a)], 0)
}

/// Whether a row has these cells, under this condition.
fn is(row: &CRow, cells: [u32; 2], cond: u32) -> bool {
    row.cells.as_slice() == cells.as_slice() && row.cond == cond
}

/// The place of the negation of a condition.
fn negated<N: Site>(arena: &Arena<N>, pass: &mut Pass<N>, cond: u32) -> Result<u32, Fail> {
    if !is_place(pass.words(), Class::Cond, cond) {
        return Err("no condition".into());
    }
    Ok(not(arena, pass, cond)?)
}

/// Of the rows (1, ?x) and (2, 5), where the second cell is made 7 where it is 5: the first as it was where ?x is not 5,
/// (1, 7) where it is, and (2, 7).
pub fn shows_update<N: Site>(
    alloc: Global,
    arena: &Arena<N>,
    pass: &mut Pass<N>,
) -> Result<bool, Fail> {
    let x = named(alloc, arena, pass, "x")?;
    let one = number(arena, pass, 1)?;
    let two = number(arena, pass, 2)?;
    let five = number(arena, pass, 5)?;
    let seven = number(arena, pass, 7)?;
    let rows = second_changed(alloc, arena, pass, &[[one, x], [two, five]], five, seven)?;
    let is_five = equal(arena, pass, x, five)?;
    let is_other = negated(arena, pass, is_five)?;
    Ok(match rows.as_slice() {
        [first, second, third] => {
            is(first, [one, x], is_other)
                && is(second, [one, seven], is_five)
                && is(third, [two, seven], 0)
        }
        _ => false,
    })
}

/// Of the row (1, 2) comes (2, 1) where both cells are changed for each other.
pub fn shows_swap<N: Site>(
    alloc: Global,
    arena: &Arena<N>,
    pass: &mut Pass<N>,
) -> Result<bool, Fail> {
    let one = number(arena, pass, 1)?;
    let two = number(arena, pass, 2)?;
    let rows = swapped(alloc, arena, pass, &[[one, two]])?;
    Ok(match rows.as_slice() {
        [row] => is(row, [two, one], 0),
        _ => false,
    })
}

/// A row that is made another one is merged with it: of (1, 5) and (1, 7) one is left, which is always a row.
pub fn shows_merging<N: Site>(
    alloc: Global,
    arena: &Arena<N>,
    pass: &mut Pass<N>,
) -> Result<bool, Fail> {
    let one = number(arena, pass, 1)?;
    let five = number(arena, pass, 5)?;
    let seven = number(arena, pass, 7)?;
    let others = second_changed(
        alloc,
        arena,
        pass,
        &[[one, five], [one, seven]],
        five,
        seven,
    )?;
    Ok(match others.as_slice() {
        [row] => is(row, [one, seven], 0),
        _ => false,
    })
}

/// A row whose second cell ?x is made ?x where it is 5 is left with its cells.
pub fn shows_itself<N: Site>(
    alloc: Global,
    arena: &Arena<N>,
    pass: &mut Pass<N>,
) -> Result<bool, Fail> {
    let x = named(alloc, arena, pass, "x")?;
    let one = number(arena, pass, 1)?;
    let five = number(arena, pass, 5)?;
    let rows = second_changed(alloc, arena, pass, &[[one, x]], five, x)?;
    Ok(match rows.as_slice() {
        [row] => is(row, [one, x], row.cond),
        _ => false,
    })
}
