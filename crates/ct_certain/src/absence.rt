// The question whether a tuple is missing from a table.

ghost use Rattle.std.specs.Prelude.{◌≡◌, ◌*◌, ◌+◌, [], ◌∷◌, length, All, IfOk};
ghost use Rattle.ct_condition.specs.Writes.{Writes};
ghost use Rattle.ct_operators.specs.Refusals.{is_full as has_no_room};
ghost use Rattle.ct_certain.specs.Answered.{IsNear, IsRefutation, IsSettled};
ghost use Rattle.ct_certain.specs.Faults.{is_full};
ghost use Rattle.ct_certain.specs.Missing.{AreOfTuple, IsAtHand, IsAskedOf, IsOfValue, IsRootOf, IsSure, condition_of};

use crate::derivations::{Listed, known};
use crate::error::CertainError;
use crate::settling::{Near, settle_near};
use ct_arena::{Arena, Site};
use ct_condition::{Interner, term};
use ct_decide::Decision;
use ct_operators::{CTable, RowSource, TableError, except};
use ct_word::{CRow, FALSE_PLACE, List, Term, Text, Value};
use indexmap::IndexSet;
use std::alloc::Global;

/// The place of a value. A word is made for `@k` at most, and none for a constant of the words.
fn place_of<N: Site, I: Interner<N>>(
    arena: &Arena<N>,
    pass: &mut I,
    value: &Value,
) -> Result<u32, TableError>
    requires { IsAtHand (I.list pass.old) value.now }
    ensures place { IfOk result (λ p. IsOfValue (I.list pass.new) value.now p) }
    ensures writes { Writes I.list I.made I.kept I.lent N.log.cap pass.old pass.new 1 (has_no_room result) }
{
    let _ = pass.words();
    let copy = value.clone()?;
    let literal = Term::Value(copy);
    let found = term(arena, pass, &literal);
    drop(literal);
    let _ = pass.words();
    match found {
        Ok(place) => Ok(place),
        Err(_) => Err(TableError::Full),
    }
}

/// The places of the values of a tuple.
fn places<N: Site, I: Interner<N>>(
    alloc: Global,
    arena: &Arena<N>,
    pass: &mut I,
    tuple: &[Value],
) -> Result<List<u32>, TableError>
    requires { All (IsAtHand (I.list pass.old)) tuple.now }
    ensures places { IfOk result (λ ps. AreOfTuple (I.list pass.new) tuple.now ps) }
    ensures writes { Writes I.list I.made I.kept I.lent N.log.cap pass.old pass.new (length tuple.now) (has_no_room result) }
{
    let _ = pass.words();
    let mut places = Vec::new(alloc);
    for value in tuple {
        let place = place_of(arena, pass, value)?;
        places.push(place)?;
    }
    Ok(List::from_vec(places))
}

/// One row, under the names of a table's columns.
#[derive(Drop)]
struct Alone<'a> {
    columns: &'a List<Text>,
    row: CRow,
}

impl RowSource for Alone<'_> {
    ghost table = { λ a. record { columns = a.columns.now; rows = a.row ∷ [] } };

    fn columns(&self) -> &List<Text> {
        self.columns
    }

    fn len(&self) -> usize {
        1
    }

    fn row(&self, _: usize) -> &CRow {
        &self.row
    }
}

/// The condition of the first row; that of the word false where there is none.
fn first_condition(rows: &[CRow]) -> u32
    ensures { result ≡ condition_of rows.now }
{
    if rows.is_empty() {
        return FALSE_PLACE;
    }
    rows[0].cond
}

/// The place of the condition that the global condition holds and a table is not worth a tuple: what `except` leaves of
/// the tuple as a row under the global condition.
fn compared_root<N: Site, I: Interner<N>>(
    alloc: Global,
    arena: &Arena<N>,
    pass: &mut I,
    table: &CTable,
    global: u32,
    tuple: &[Value],
) -> Result<u32, TableError>
    requires { IsAskedOf (I.list pass.old) (I.list pass.old) global (length table.now.columns) table.now.rows tuple.now }
    ensures root { IfOk result (λ p. IsRootOf (I.list pass.old) (I.list pass.new) global table.now.rows tuple.now p) }
    ensures writes { Writes I.list I.made I.kept I.lent N.log.cap pass.old pass.new (length table.now.rows * (2 * length table.now.columns + 2) + length table.now.columns + 1) (has_no_room result) }
{
    let cells = places(alloc, arena, pass, tuple)?;
    let _ = pass.words();
    let alone = Alone {
        columns: &table.columns,
        row: CRow {
            cells,
            cond: global,
        },
    };
    let rest = except(alloc, arena, pass, &alone, table);
    drop(alone);
    let _ = pass.words();
    match rest {
        Ok(left) => Ok(first_condition(left.rows.as_slice())),
        Err(error) => Err(error),
    }
}

/// The place of the condition that the global condition holds and a table is not worth a tuple. For one that it has at every
/// valuation, as is known of the `sure` ones, that is the word false, and the table is not gone over. Any other is compared
/// with the rows, up to the first that decides, and at most `r (2k + 2) + k + 1` words are made, where the table has r rows and
/// k columns.
///
/// # Errors
/// `Full` only where the log has as many words as its capacity, `Memory` where memory runs out.
pub fn missing_root<N: Site, I: Interner<N>>(
    alloc: Global,
    arena: &Arena<N>,
    pass: &mut I,
    table: &CTable,
    global: u32,
    sure: &IndexSet<List<Value>>,
    tuple: &List<Value>,
) -> Result<u32, TableError>
    requires asked { IsAskedOf (I.list pass.old) (I.list pass.old) global (length table.now.columns) table.now.rows tuple.now }
    requires sure { All (IsSure (I.list pass.old) table.now.rows) sure.now.keys }
    ensures root { IfOk result (λ p. IsRootOf (I.list pass.old) (I.list pass.new) global table.now.rows tuple.now p) }
    ensures writes { Writes I.list I.made I.kept I.lent N.log.cap pass.old pass.new (length table.now.rows * (2 * length table.now.columns + 2) + length table.now.columns + 1) (has_no_room result) }
{
    let _ = pass.words();
    if sure.contains(tuple) {
        return Ok(FALSE_PLACE);
    }
    compared_root(alloc, arena, pass, table, global, tuple.as_slice())
}

/// A question about a tuple: its root, and a world in which the tuple is missing or a derivation that there is none. A
/// root that stands in the list already is not asked again; the kept world is changed where that is enough.
///
/// # Errors
/// `Full` only where the log has as many words as its capacity, `Memory` where memory runs out.
pub fn ask_tuple<N: Site, I: Interner<N>>(
    alloc: Global,
    arena: &Arena<N>,
    pass: &mut I,
    table: &CTable,
    global: u32,
    near: &Near<'_>,
    sure: &IndexSet<List<Value>>,
    list: &Listed,
    tuple: &List<Value>,
) -> Result<(u32, Decision), CertainError>
    requires asked { IsAskedOf (I.list pass.old) (I.list pass.old) global (length table.now.columns) table.now.rows tuple.now }
    requires near { IsNear (I.list pass.old) global near.now }
    requires sure { All (IsSure (I.list pass.old) table.now.rows) sure.now.keys }
    requires listed { All (λ r. IsRefutation (I.list pass.old) r.proof.root r.proof.derivation) list.now.rows.items }
    ensures root { IfOk result (λ a. IsRootOf (I.list pass.old) (I.list pass.new) global table.now.rows tuple.now a.0) }
    ensures settled { IfOk result (λ a. IsSettled (I.list pass.new) a.0 a.1) }
    ensures writes { Writes I.list I.made I.kept I.lent N.log.cap pass.old pass.new (length table.now.rows * (2 * length table.now.columns + 2) + length table.now.columns + 1) (is_full result) }
{
    let place = missing_root(alloc, arena, pass, table, global, sure, tuple)?;
    let words = pass.words();
    let before = known(alloc, words, list, place)?;
    if let Some(derivation) = before {
        return Ok((place, Decision::Refuted(derivation)));
    }
    let decision = settle_near(alloc, words, place, global, near)?;
    Ok((place, decision))
}
