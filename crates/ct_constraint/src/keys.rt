// Whether columns are a key.

ghost use Rattle.std.specs.Prelude.{◌<◌, ◌+◌, ◌*◌, ◌∷◌, ◌⊎◌, [], length, All, IfOk, is_err};
ghost use Rattle.ct_condition.specs.Terms.{TermsFrom};
ghost use Rattle.ct_condition.specs.Writes.{Writes};
ghost use Rattle.ct_operators.specs.Building.{HoldsWhere};
ghost use Rattle.ct_operators.specs.Tables.{AreRows, IsRow, value_of_rows};
ghost use Rattle.ct_operators.specs.Terms.{TermOfRow, TermOfRows};
ghost use Rattle.ct_query.specs.Assertions.{is_key, keep_apart};

use crate::comparing::apart;
use ct_arena::{Arena, Full, Site};
use ct_condition::{Interner, and};
use ct_operators::CTable;
use ct_word::{CRow, FALSE_PLACE, TRUE_PLACE};

/// The place of the condition that a row and none of others are worth different tuples that agree at these columns.
fn beside<N: Site, I: Interner<N>>(
    arena: &Arena<N>,
    pass: &mut I,
    row: &CRow,
    others: &[CRow],
    columns: &[u32],
) -> Result<u32, Full>
    requires row { IsRow (I.list pass.old) (length row.now.cells) row.now }
    requires others { All (IsRow (I.list pass.old) (length row.now.cells)) others.now }
    requires columns { All (λ k. k < length row.now.cells) columns.now }
    ensures holds { IfOk result (λ place. HoldsWhere (I.list pass.new) place (λ v. keep_apart columns.now (value_of_rows (I.list pass.old) v others.now) (value_of_rows (I.list pass.old) v (row.now ∷ [])))) }
    ensures terms { IfOk result (λ place. TermsFrom (I.list pass.new) place (λ t. TermOfRow (I.list pass.old) row.now t ⊎ TermOfRows (I.list pass.old) others.now t)) }
    ensures writes { Writes I.list I.made I.kept I.lent N.log.cap pass.old pass.new (length others.now * (length row.now.cells * 3 + 6)) (is_err result) }
{
    let _ = pass.words();
    let mut all = TRUE_PLACE;
    for other in others {
        // No valuation satisfies the word false, whatever rows follow.
        if all == FALSE_PLACE {
            return Ok(all);
        }
        let one = apart(arena, pass, other, row, columns)?;
        all = and(arena, pass, all, one)?;
    }
    Ok(all)
}

/// The place of the condition that columns are a key of a table: at every valuation it holds exactly where no two
/// different tuples of what the table is worth there agree at these columns. Each row is compared with those before it. At
/// most n times n times (2c + 3) words are made on n rows of c columns.
///
/// # Errors
/// `Full` where the log has no room for a word.
pub fn key<N: Site, I: Interner<N>>(
    arena: &Arena<N>,
    pass: &mut I,
    table: &CTable,
    columns: &[u32],
) -> Result<u32, Full>
    requires rows { AreRows (I.list pass.old) (length table.now.columns) table.now.rows }
    requires columns { All (λ k. k < length table.now.columns) columns.now }
    ensures holds { IfOk result (λ place. HoldsWhere (I.list pass.new) place (λ v. is_key columns.now (value_of_rows (I.list pass.old) v table.now.rows))) }
    ensures terms { IfOk result (λ place. TermsFrom (I.list pass.new) place (TermOfRows (I.list pass.old) table.now.rows)) }
    ensures writes { Writes I.list I.made I.kept I.lent N.log.cap pass.old pass.new (length table.now.rows * length table.now.rows * (2 * length table.now.columns + 3)) (is_err result) }
{
    let _ = pass.words();
    let rows = table.rows.as_slice();
    let mut all = TRUE_PLACE;
    for (i, row) in rows.iter().enumerate() {
        if all == FALSE_PLACE {
            return Ok(all);
        }
        let one = beside(arena, pass, row, &rows[..i], columns)?;
        all = and(arena, pass, all, one)?;
    }
    Ok(all)
}
