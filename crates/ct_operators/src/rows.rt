// Copies of rows and of the names of columns.

ghost use Rattle.std.specs.Prelude.{◌≡◌, [], ◌∷◌, ◌++◌, IfOk, OnOk};

use ct_word::{CRow, List, Text};
use std::alloc::AllocError;

/// The same cells under another condition.
///
/// # Errors
/// `AllocError` where there is no memory for the row.
pub fn under(row: &CRow, cond: u32) -> Result<CRow, AllocError>
    ensures { IfOk result (λ r. r ≡ record { cells = row.now.cells; cond = cond }) }
{
    Ok(CRow {
        cells: row.cells.clone()?,
        cond,
    })
}

/// Puts the same cells under another condition last.
pub(crate) fn push_under(to: &mut Vec<CRow>, row: &CRow, cond: u32) -> Result<(), AllocError>
    ensures { OnOk result (to.new.items ≡ to.old.items ++ record { cells = row.now.cells; cond = cond } ∷ []) }
{
    to.push(under(row, cond)?)?;
    Ok(())
}

/// Copies of rows, put after others.
pub(crate) fn copy_rows(to: &mut Vec<CRow>, rows: &[CRow]) -> Result<(), AllocError>
    ensures { OnOk result (to.new.items ≡ to.old.items ++ rows.now) }
{
    for row in rows {
        push_under(to, row, row.cond)?;
    }
    Ok(())
}

/// A copy of the names of columns.
///
/// # Errors
/// `AllocError` where there is no memory for it.
pub fn names(columns: &List<Text>) -> Result<List<Text>, AllocError>
    ensures { IfOk result (λ copy. copy ≡ columns.now) }
{
    columns.clone()
}
