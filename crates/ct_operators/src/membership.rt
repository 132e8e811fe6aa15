// The rows of one table that are not among those of another, or that are.

ghost use Rattle.std.specs.Prelude.{◌≡◌, ◌+◌, ◌*◌, not, ◌++◌, length, filter, IfOk};
ghost use Rattle.ct_word.specs.Value.{World};
ghost use Rattle.ct_word.specs.Sublist.{IsSublist};
ghost use Rattle.ct_query.specs.Database.{has_tuple, SameSet};
ghost use Rattle.ct_condition.specs.Writes.{Writes};
ghost use Rattle.ct_operators.specs.Tables.{AreRows, value_of_rows, cells_of};
ghost use Rattle.ct_operators.specs.Refusals.{is_full};
ghost use Rattle.ct_operators.specs.Terms.{TermOfRows, RowsFrom};

use crate::error::TableError;
use crate::judging::Test;
use crate::others::Others;
use crate::selection::sifted;
use crate::source::RowSource;
use crate::table::CTable;
use ct_arena::{Arena, Site};
use ct_condition::Interner;
use std::alloc::Global;

/// The rows of the left table, each under the further condition that no row of the right one is worth the same,
/// under the names of the left columns.
///
/// # Errors
/// `Full` where the log has no room for a condition, `Memory` where there is none for the rows.
pub fn except<N: Site, I: Interner<N>, T: RowSource>(
    alloc: Global,
    arena: &Arena<N>,
    pass: &mut I,
    left: &T,
    right: &CTable,
) -> Result<CTable, TableError>
    requires left { AreRows (I.list pass.old) (length (T.table left.now).columns) (T.table left.now).rows }
    requires right { AreRows (I.list pass.old) (length right.now.columns) right.now.rows }
    requires columns { length right.now.columns ≡ length (T.table left.now).columns }
    ensures columns { IfOk result (λ out. out.columns ≡ (T.table left.now).columns) }
    ensures rows { IfOk result (λ out. AreRows (I.list pass.new) (length (T.table left.now).columns) out.rows) }
    ensures tuples { (v : World) → IfOk result (λ out. SameSet (value_of_rows (I.list pass.new) v out.rows) (filter (λ t. not (has_tuple (value_of_rows (I.list pass.old) v right.now.rows) t)) (value_of_rows (I.list pass.old) v (T.table left.now).rows))) }
    ensures part { IfOk result (λ out. IsSublist (cells_of (I.list pass.new) out.rows) (cells_of (I.list pass.old) (T.table left.now).rows)) }
    ensures terms { IfOk result (λ out. RowsFrom (I.list pass.new) out.rows (TermOfRows (I.list pass.old) ((T.table left.now).rows ++ right.now.rows))) }
    ensures writes { Writes I.list I.made I.kept I.lent N.log.cap pass.old pass.new (length (T.table left.now).rows * length right.now.rows * (2 * length (T.table left.now).columns + 2) + length (T.table left.now).rows) (is_full result) }
{
    sifted(
        alloc,
        arena,
        pass,
        Test::Apart(Others::All(right.rows.as_slice())),
        left,
    )
}

/// The rows of the left table, each under the further condition that a row of the right one is worth the same, under
/// the names of the left columns.
///
/// # Errors
/// `Full` where the log has no room for a condition, `Memory` where there is none for the rows.
pub fn intersect<N: Site, I: Interner<N>, T: RowSource>(
    alloc: Global,
    arena: &Arena<N>,
    pass: &mut I,
    left: &T,
    right: &CTable,
) -> Result<CTable, TableError>
    requires left { AreRows (I.list pass.old) (length (T.table left.now).columns) (T.table left.now).rows }
    requires right { AreRows (I.list pass.old) (length right.now.columns) right.now.rows }
    requires columns { length right.now.columns ≡ length (T.table left.now).columns }
    ensures columns { IfOk result (λ out. out.columns ≡ (T.table left.now).columns) }
    ensures rows { IfOk result (λ out. AreRows (I.list pass.new) (length (T.table left.now).columns) out.rows) }
    ensures tuples { (v : World) → IfOk result (λ out. SameSet (value_of_rows (I.list pass.new) v out.rows) (filter (has_tuple (value_of_rows (I.list pass.old) v right.now.rows)) (value_of_rows (I.list pass.old) v (T.table left.now).rows))) }
    ensures part { IfOk result (λ out. IsSublist (cells_of (I.list pass.new) out.rows) (cells_of (I.list pass.old) (T.table left.now).rows)) }
    ensures terms { IfOk result (λ out. RowsFrom (I.list pass.new) out.rows (TermOfRows (I.list pass.old) ((T.table left.now).rows ++ right.now.rows))) }
    ensures writes { Writes I.list I.made I.kept I.lent N.log.cap pass.old pass.new (length (T.table left.now).rows * length right.now.rows * (2 * length (T.table left.now).columns + 1) + 2 * length (T.table left.now).rows) (is_full result) }
{
    sifted(
        alloc,
        arena,
        pass,
        Test::Among(Others::All(right.rows.as_slice())),
        left,
    )
}
