// The tuples that a table has at every valuation, as its rows tell.

ghost use Rattle.std.specs.Prelude.{◌≡◌, ◌++◌, [], ◌∷◌, List, length, map, is_some, Contains, All, IfOk, IfSome, OnOk, IsTrue};
ghost use mathlib.Core.List.{IsPrefix};
ghost use Rattle.ct_word.specs.declared.kinds.Class.TheVariants as class;
ghost use Rattle.ct_word.specs.declared.values.CRow.{CRow};
ghost use Rattle.ct_word.specs.Reading.{term_at};
ghost use Rattle.ct_word.specs.declared.values.Value.{Value};
ghost use Rattle.ct_word.specs.Value.{World, same_tuple, tuple_at};
ghost use Rattle.ct_word.specs.WellFormed.{IsWellFormed, is_place_of};
ghost use Rattle.ct_arena.specs.Counts.{opening};
ghost use Rattle.ct_operators.specs.Tables.{IsRow, firsts};
ghost use Rattle.ct_certain.specs.Missing.{IsSure};
ghost use Rattle.ct_certain.specs.Constants.{are_constants, sure_of};

use ct_word::{CRow, List, Memory, TRUE_PLACE, Term, Value, term_at};
use indexmap::IndexSet;
use std::alloc::Global;

/// The values of cells, if each is a constant.
fn constants(alloc: Global, words: &[u64], cells: &[u32]) -> Result<Option<List<Value>>, Memory>
    requires formed { IsWellFormed words.now }
    requires cells { All (λ p. IsTrue (is_place_of words.now class.Term p)) cells.now }
    ensures told { IfOk result (λ o. is_some o ≡ are_constants words.now cells.now) }
    ensures values { IfOk result (λ o. IfSome o (λ t. (v : World) → t ≡ tuple_at v (map (term_at words.now) cells.now))) }
{
    let mut tuple = Vec::new(alloc);
    for cell in cells {
        let Term::Value(value) = term_at(alloc, words, *cell)? else {
            return Ok(None);
        };
        tuple.push(value)?;
    }
    Ok(Some(List::from_vec(tuple)))
}

/// Puts the tuple of a row in, where its condition is the word true and its cells are constants.
fn add_sure(
    alloc: Global,
    words: &[u64],
    row: &CRow,
    sure: &mut IndexSet<List<Value>>,
) -> Result<(), Memory>
    requires begins { IsPrefix opening words.now }
    requires formed { IsWellFormed words.now }
    requires cells { All (λ p. IsTrue (is_place_of words.now class.Term p)) row.now.cells }
    ensures puts { (before : List (List Value)) → sure.old.keys ≡ firsts same_tuple before → OnOk result (sure.new.keys ≡ firsts same_tuple (before ++ sure_of words.now (row.now ∷ []))) }
    ensures sure { (rs : List CRow) → Contains rs row.now → All (IsSure words.now rs) sure.old.keys → OnOk result (All (IsSure words.now rs) sure.new.keys) }
{
    if row.cond != TRUE_PLACE {
        return Ok(());
    }
    if let Some(tuple) = constants(alloc, words, row.cells.as_slice())? {
        sure.insert(tuple)?;
    }
    Ok(())
}

/// The tuples of the rows whose condition is the word true and whose cells are constants, each once, in their order. The table
/// has each of them at every valuation, so whether it is missing need not be asked.
///
/// # Errors
/// `Memory` where memory runs out.
pub fn sure_tuples(
    alloc: Global,
    words: &[u64],
    rows: &[CRow],
) -> Result<IndexSet<List<Value>>, Memory>
    requires begins { IsPrefix opening words.now }
    requires formed { IsWellFormed words.now }
    requires rows { All (λ r. IsRow words.now (length r.cells) r) rows.now }
    ensures exact { IfOk result (λ sure. sure.keys ≡ firsts same_tuple (sure_of words.now rows.now)) }
    ensures sure { IfOk result (λ sure. All (IsSure words.now rows.now) sure.keys) }
{
    let mut sure = IndexSet::new(alloc);
    for row in rows {
        add_sure(alloc, words, row, &mut sure)?;
    }
    Ok(sure)
}
