// Terms, conditions and tables of a log, for the tests of what is made of them.

ghost use Rattle.std.specs.Prelude.{◌≡◌, true, [], length, All, IfOk, IsTrue, OnOk};
ghost use mathlib.Core.List.{IsPrefix};
ghost use Rattle.ct_word.specs.WellFormed.{IsWellFormed, is_place_of};
ghost use Rattle.ct_word.specs.declared.kinds.Class.TheVariants as class;
ghost use Rattle.ct_operators.specs.Tables.{IsRow, AreRows};

use ct_arena::{Arena, Pass, Site};
use ct_condition::{eq, term};
use ct_operators::{CRow, CTable, insert};
use ct_samples::{are_places, is_place, no_columns};
use ct_word::{Class, List, Null, Term, Text, Value};
use std::alloc::Global;
use std::test::Fail;

/// The place of the null with a name.
pub fn named<N: Site>(
    alloc: Global,
    arena: &Arena<N>,
    pass: &mut Pass<N>,
    name: &str,
) -> Result<u32, Fail> {
    let name = Text::from_str(alloc, name)?;
    Ok(term(arena, pass, &Term::Null(Null::Named(name)))?)
}

/// The place of a number. Nothing is said of it, which keeps the tests short to prove.
pub fn number<N: Site>(arena: &Arena<N>, pass: &mut Pass<N>, n: i64) -> Result<u32, Fail> {
    Ok(term(arena, pass, &Term::Value(Value::Int(n)))?)
}

/// The place of the equality of two terms.
pub fn equal<N: Site>(arena: &Arena<N>, pass: &mut Pass<N>, s: u32, t: u32) -> Result<u32, Fail>
    ensures { OnOk result (IsPrefix pass.old.words pass.new.words) }
{
    if !is_place(pass.words(), Class::Term, s) {
        return Err("no term on the left".into());
    }
    if !is_place(pass.words(), Class::Term, t) {
        return Err("no term on the right".into());
    }
    Ok(eq(arena, pass, s, t)?)
}

fn is_row(words: &[u64], width: usize, row: &CRow) -> bool
    ensures { result ≡ true → All (λ p. IsTrue (is_place_of words.now class.Term p)) row.now.cells × IsTrue (is_place_of words.now class.Cond row.now.cond) × (length row.now.cells ≡ width) }
{
    row.cells.as_slice().len() == width
        && is_place(words, Class::Cond, row.cond)
        && are_places(words, Class::Term, row.cells.as_slice())
}

fn are_rows(words: &[u64], width: usize, rows: &[CRow]) -> bool
    requires { IsWellFormed words.now }
    ensures { result ≡ true → All (IsRow words.now width) rows.now }
{
    if !no_columns(words) {
        return false;
    }
    for row in rows {
        if !is_row(words, width, row) {
            return false;
        }
    }
    true
}

/// A table of these columns and rows.
pub fn table_of<N: Site>(
    alloc: Global,
    arena: &Arena<N>,
    pass: &mut Pass<N>,
    columns: List<Text>,
    rows: &[CRow],
) -> Result<CTable, Fail>
    ensures { IfOk result (λ t. AreRows pass.new.words (length t.columns) t.rows) }
{
    if !are_rows(pass.words(), columns.len(), rows) {
        return Err("no rows".into());
    }
    let none = CTable {
        columns,
        rows: List::new(alloc),
    };
    Ok(insert(alloc, arena, pass, &none, rows)?)
}

/// A table of one column with these cells, each under its condition.
pub fn filled<N: Site>(
    alloc: Global,
    arena: &Arena<N>,
    pass: &mut Pass<N>,
    cells: &[(u32, u32)],
) -> Result<CTable, Fail>
    ensures { IfOk result (λ t. AreRows pass.new.words (length t.columns) t.rows) }
{
    let mut rows = Vec::new(alloc);
    for pair in cells {
        let cells = List::from_vec(Vec::from_array(alloc, [pair.0])?);
        rows.push(CRow {
            cells,
            cond: pair.1,
        })?;
    }
    let columns = List::from_vec(Vec::from_array(alloc, [Text::from_str(alloc, "a")?])?);
    table_of(alloc, arena, pass, columns, rows.as_slice())
}
