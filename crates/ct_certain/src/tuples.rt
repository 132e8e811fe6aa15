// The tuples that rows are worth in a world.

ghost use Rattle.std.specs.Prelude.{◌≡◌, ◌<◌, ◌^◌, ◌++◌, [], ◌∷◌, List, length, map, All, IfOk, IsTrue, OnOk};
ghost use Rattle.ct_word.specs.declared.kinds.Class.TheVariants as class;
ghost use Rattle.ct_word.specs.Reading.{term_at};
ghost use Rattle.ct_word.specs.declared.values.Value.{Value};
ghost use Rattle.ct_word.specs.Value.{at, same_tuple, tuple_at};
ghost use Rattle.ct_word.specs.WellFormed.{IsWellFormed, is_place_of};
ghost use Rattle.ct_condition.specs.Worth.{AreWorths};
ghost use Rattle.ct_operators.specs.Tables.{IsRow, firsts, value_of_rows};
ghost use Rattle.ct_tidy.specs.Order.{IsMapOf};

use ct_condition::{Worths, worths};
use ct_tidy::{by_null, value_of};
use ct_word::{CRow, List, Memory, Null, Term, Value, World, term_at};
use indexmap::{IndexMap, IndexSet};
use std::alloc::{AllocError, Global};

/// The value of a term in a world.
fn value_in(world: &World, values: &IndexMap<Null, Value>, term: Term) -> Result<Value, AllocError>
    requires { IsMapOf values.now.entries world.now }
    ensures { IfOk result (λ x. x ≡ at world.now [] term) }
{
    match term {
        Term::Column(_) => Ok(Value::Other(0)),
        Term::Null(null) => value_of(world, values, &null),
        Term::Value(value) => Ok(value),
    }
}

/// The values of cells in a world.
fn tuple_in(
    alloc: Global,
    words: &[u64],
    world: &World,
    values: &IndexMap<Null, Value>,
    cells: &[u32],
) -> Result<List<Value>, Memory>
    requires values { IsMapOf values.now.entries world.now }
    requires formed { IsWellFormed words.now }
    requires cells { All (λ p. IsTrue (is_place_of words.now class.Term p)) cells.now }
    ensures { IfOk result (λ t. t ≡ tuple_at world.now (map (term_at words.now) cells.now)) }
{
    let mut tuple = Vec::new(alloc);
    for cell in cells {
        let term = term_at(alloc, words, *cell)?;
        let value = value_in(world, values, term)?;
        tuple.push(value)?;
    }
    Ok(List::from_vec(tuple))
}

/// Puts the tuple of a row in, where its condition holds.
fn add_tuple(
    alloc: Global,
    words: &[u64],
    world: &World,
    values: &IndexMap<Null, Value>,
    worths: &Worths,
    row: &CRow,
    tuples: &mut IndexSet<List<Value>>,
) -> Result<(), Memory>
    requires formed { IsWellFormed words.now }
    requires values { IsMapOf values.now.entries world.now }
    requires row { IsRow words.now (length row.now.cells) row.now }
    requires worths { AreWorths words.now world.now worths.now }
    ensures { (before : List (List Value)) → tuples.old.keys ≡ firsts same_tuple before → OnOk result (tuples.new.keys ≡ firsts same_tuple (before ++ value_of_rows words.now world.now (row.now ∷ []))) }
{
    if !worths.holds(row.cond) {
        return Ok(());
    }
    let tuple = tuple_in(alloc, words, world, values, row.cells.as_slice())?;
    tuples.insert(tuple)?;
    Ok(())
}

/// The tuples that rows are worth in a world, each once, in their order.
///
/// # Errors
/// `Memory` where memory runs out.
pub fn tuples(
    alloc: Global,
    words: &[u64],
    world: &World,
    worths: &Worths,
    rows: &[CRow],
) -> Result<IndexSet<List<Value>>, Memory>
    requires formed { IsWellFormed words.now }
    requires rows { All (λ r. IsRow words.now (length r.cells) r) rows.now }
    requires worths { AreWorths words.now world.now worths.now }
    ensures { IfOk result (λ ts. ts.keys ≡ firsts same_tuple (value_of_rows words.now world.now rows.now)) }
{
    let values = by_null(alloc, world)?;
    let mut tuples = IndexSet::new(alloc);
    for row in rows {
        add_tuple(alloc, words, world, &values, worths, row, &mut tuples)?;
    }
    Ok(tuples)
}

/// The tuples that rows are worth in a kept world, each once, in their order: those that may be certain.
///
/// # Errors
/// `Memory` where memory runs out.
pub fn kept_tuples(
    alloc: Global,
    words: &[u64],
    rows: &[CRow],
    kept: &World,
) -> Result<IndexSet<List<Value>>, Memory>
    requires formed { IsWellFormed words.now }
    requires small { length words.now < 2 ^ 28 }
    requires rows { All (λ r. IsRow words.now (length r.cells) r) rows.now }
    ensures { IfOk result (λ ts. ts.keys ≡ firsts same_tuple (value_of_rows words.now kept.now rows.now)) }
{
    let worths = worths(alloc, words, kept)?;
    tuples(alloc, words, kept, &worths, rows)
}
