// Deletion of the rows for which a condition holds.

ghost use Rattle.std.specs.Prelude.{◌≡◌, ◌⊎◌, ℕ, ◌<◌, ◌+◌, ◌*◌, not, length, filter, IfOk, IsTrue};
ghost use Rattle.ct_word.specs.declared.kinds.Class.TheVariants as class;
ghost use Rattle.ct_word.specs.Value.{World};
ghost use Rattle.ct_word.specs.Sublist.{IsSublist};
ghost use Rattle.ct_word.specs.Condition.{holds};
ghost use Rattle.ct_word.specs.Stands.{TermBelow};
ghost use Rattle.ct_word.specs.declared.values.Term.TheVariants as term;
ghost use Rattle.ct_word.specs.Reading.{condition_at};
ghost use Rattle.ct_word.specs.WellFormed.{is_place_of};
ghost use Rattle.ct_query.specs.Bounds.{ops};
ghost use Rattle.ct_query.specs.Database.{SameSet};
ghost use Rattle.ct_condition.specs.Writes.{Writes};
ghost use Rattle.ct_operators.specs.Refusals.{is_full};
ghost use Rattle.ct_operators.specs.Terms.{TermOfRows, RowsFrom, IsNoColumn};
ghost use Rattle.ct_operators.specs.Tables.{AreRows, value_of_rows, cells_of};

use crate::error::TableError;
use crate::judging::Test;
use crate::selection::sifted;
use crate::source::RowSource;
use crate::table::CTable;
use ct_arena::{Arena, Site};
use ct_condition::Interner;
use ct_worlds::below;
use std::alloc::Global;

/// The rows, each under the further condition that the one at a place does not hold for it. A column of that condition
/// is a cell of the row.
///
/// # Errors
/// `Full` where the log has no room for a condition, `Memory` where there is none for the rows.
pub fn delete<N: Site, I: Interner<N>, T: RowSource>(
    alloc: Global,
    arena: &Arena<N>,
    pass: &mut I,
    table: &T,
    cond: u32,
) -> Result<CTable, TableError>
    requires rows { AreRows (I.list pass.old) (length (T.table table.now).columns) (T.table table.now).rows }
    requires cond { IsTrue (is_place_of (I.list pass.old) class.Cond cond) }
    requires columns { (k : ℕ) → TermBelow (I.list pass.old) cond (term.Column k) → k < length (T.table table.now).columns }
    ensures columns { IfOk result (λ out. out.columns ≡ (T.table table.now).columns) }
    ensures rows { IfOk result (λ out. AreRows (I.list pass.new) (length (T.table table.now).columns) out.rows) }
    ensures tuples { (v : World) → IfOk result (λ out. SameSet (value_of_rows (I.list pass.new) v out.rows) (filter (λ t. not (holds v t (condition_at (I.list pass.old) cond))) (value_of_rows (I.list pass.old) v (T.table table.now).rows))) }
    ensures part { IfOk result (λ out. IsSublist (cells_of (I.list pass.new) out.rows) (cells_of (I.list pass.old) (T.table table.now).rows)) }
    ensures terms { IfOk result (λ out. RowsFrom (I.list pass.new) out.rows (λ t. TermOfRows (I.list pass.old) (T.table table.now).rows t ⊎ (TermBelow (I.list pass.old) cond t × IsNoColumn t))) }
    ensures writes { Writes I.list I.made I.kept I.lent N.log.cap pass.old pass.new (length (T.table table.now).rows * (ops (condition_at (I.list pass.old) cond) + 2)) (is_full result) }
{
    let places = below(alloc, pass.words(), &[cond])?;
    sifted(
        alloc,
        arena,
        pass,
        Test::Fails(cond, places.as_slice()),
        table,
    )
}
