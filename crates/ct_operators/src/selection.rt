// Selection of the rows for which a predicate holds.

ghost use Rattle.std.specs.Prelude.{◌≡◌, ◌+◌, ◌*◌, ◌↔◌, false, length, IfOk, IsTrue, ◌⊎◌};
ghost use Rattle.std.specs.List.{filter};
ghost use Rattle.ct_word.specs.Value.{World};
ghost use Rattle.ct_word.specs.Sublist.{IsSublist};
ghost use Rattle.ct_word.specs.Condition.{holds, holds_at};
ghost use Rattle.ct_word.specs.Reading.{condition_at};
ghost use Rattle.ct_query.specs.Bounds.{ops};
ghost use Rattle.ct_query.specs.Database.{SameSet};
ghost use Rattle.ct_query.specs.Fits.{FitsRows};
ghost use Rattle.ct_query.specs.Pred.{condition_of};
ghost use Rattle.ct_condition.specs.Places.{new_terms};
ghost use Rattle.ct_condition.specs.Terms.{IsNamed};
ghost use Rattle.ct_condition.specs.Writes.{Writes};
ghost use Rattle.ct_operators.specs.Terms.{TermOfRows, RowsFrom, IsNoColumn};
ghost use Rattle.ct_operators.specs.Tables.{AreRows, value_of_rows, cells_of};
ghost use Rattle.ct_operators.specs.Judging.{passes, parts_in, Further, FitsTest, first_words, test_words};
ghost use Rattle.ct_operators.specs.Refusals.{is_full};

use crate::error::TableError;
use crate::judging::{Test, judged};
use crate::nearness::{find_near, keys_for, narrowed};
use crate::rows::{names, push_under};
use crate::source::RowSource;
use crate::table::CTable;
use ct_arena::{Arena, Site};
use ct_condition::Interner;
use ct_join::Index;
use ct_query::Pred;
use ct_word::{CRow, FALSE_PLACE, List, Memory};
use std::alloc::Global;

/// Whether a condition is the word false, which no valuation satisfies.
fn is_false<N: Site, I: Interner<N>>(pass: &I, place: u32) -> bool
    ensures decides { IsTrue result ↔ (place ≡ 1) }
    ensures never { IsTrue result → (v : World) → holds_at v (condition_at (I.list pass.now) place) ≡ false }
{
    let _ = pass.words();
    place == FALSE_PLACE
}

/// Room for a place for each that comes with a test.
fn room_for(alloc: Global, test: Test<'_>) -> Result<Vec<u32>, Memory>
    ensures { IfOk result (λ room. length room.items ≡ length (parts_in test.entry)) }
{
    match test {
        Test::Fails(_, places) => Ok(vec![in alloc; 0; places.len()]?),
        _ => Ok(Vec::new(alloc)),
    }
}

/// The rows that pass a test, each under the further condition that it does. Rows under the word false are left out.
///
/// # Errors
/// `Full` where the log has no room for a condition, `Memory` where there is none for the rows.
pub(crate) fn sifted<N: Site, I: Interner<N>, T: RowSource>(
    alloc: Global,
    arena: &Arena<N>,
    pass: &mut I,
    test: Test<'_>,
    table: &T,
) -> Result<CTable, TableError>
    requires rows { AreRows (I.list pass.old) (length (T.table table.now).columns) (T.table table.now).rows }
    requires fits { FitsTest (I.list pass.old) (length (T.table table.now).columns) test }
    ensures columns { IfOk result (λ out. out.columns ≡ (T.table table.now).columns) }
    ensures rows { IfOk result (λ out. AreRows (I.list pass.new) (length (T.table table.now).columns) out.rows) }
    ensures tuples { (v : World) → IfOk result (λ out. SameSet (value_of_rows (I.list pass.new) v out.rows) (filter (passes (I.list pass.old) test.entry v) (value_of_rows (I.list pass.old) v (T.table table.now).rows))) }
    ensures part { IfOk result (λ out. IsSublist (cells_of (I.list pass.new) out.rows) (cells_of (I.list pass.old) (T.table table.now).rows)) }
    ensures terms { IfOk result (λ out. RowsFrom (I.list pass.new) out.rows (λ t. TermOfRows (I.list pass.old) (T.table table.now).rows t ⊎ Further (I.list pass.old) test.entry t)) }
    ensures writes { Writes I.list I.made I.kept I.lent N.log.cap pass.old pass.new (first_words (I.list pass.old) test.entry + length (T.table table.now).rows * (test_words (I.list pass.old) (length (T.table table.now).columns) test.entry + 1)) (is_full result) }
{
    // The words are within the capacity, also where no row adds any.
    let known = pass.words();
    let columns = names(table.columns())?;
    let mut put = room_for(alloc, test)?;
    let keys = keys_for(alloc, known, test, table.len())?;
    let keyed = keys.as_slice();
    let index = Index::make(alloc, keyed)?;
    let mut found = Vec::new(alloc);
    let mut out = Vec::new(alloc);
    for nth in 0..table.len() {
        let row = table.row(nth);
        let log = pass.words();
        find_near(log, keyed, &index, row, &mut found)?;
        let places = found.as_slice();
        let near = narrowed(test, keyed, places);
        let place = judged(arena, pass, near, row, put.as_mut_slice())?;
        if !is_false(pass, place) {
            push_under(&mut out, row, place)?;
        }
    }
    Ok(CTable {
        columns,
        rows: List::from_vec(out),
    })
}

/// The rows, each under the further condition that a predicate holds for it. A column of the predicate is a cell of the
/// row. Rows under the word false are left out.
///
/// # Errors
/// `Full` where the log has no room for a condition, `Memory` where there is none for the rows.
pub fn select<N: Site, I: Interner<N>, T: RowSource>(
    alloc: Global,
    arena: &Arena<N>,
    pass: &mut I,
    p: &Pred,
    table: &T,
) -> Result<CTable, TableError>
    requires rows { AreRows (I.list pass.old) (length (T.table table.now).columns) (T.table table.now).rows }
    requires predicate { FitsRows (length (T.table table.now).columns) (condition_of p.now) }
    ensures columns { IfOk result (λ out. out.columns ≡ (T.table table.now).columns) }
    ensures rows { IfOk result (λ out. AreRows (I.list pass.new) (length (T.table table.now).columns) out.rows) }
    ensures tuples { (v : World) → IfOk result (λ out. SameSet (value_of_rows (I.list pass.new) v out.rows) (filter (λ t. holds v t (condition_of p.now)) (value_of_rows (I.list pass.old) v (T.table table.now).rows))) }
    ensures part { IfOk result (λ out. IsSublist (cells_of (I.list pass.new) out.rows) (cells_of (I.list pass.old) (T.table table.now).rows)) }
    ensures terms { IfOk result (λ out. RowsFrom (I.list pass.new) out.rows (λ t. TermOfRows (I.list pass.old) (T.table table.now).rows t ⊎ (IsNamed (condition_of p.now) t × IsNoColumn t))) }
    ensures writes { Writes I.list I.made I.kept I.lent N.log.cap pass.old pass.new (new_terms (I.list pass.old) (condition_of p.now) + length (T.table table.now).rows * (ops (condition_of p.now) + 1)) (is_full result) }
{
    sifted(alloc, arena, pass, Test::Holds(p), table)
}
