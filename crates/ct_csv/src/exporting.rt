// Files of tables.

ghost use Rattle.std.specs.Prelude.{◌≡◌, ◌<◌, ◌^◌, All, length, map, IfOk, IfErr, IsTrue};
ghost use Rattle.ct_word.specs.declared.kinds.Class.TheVariants as class;
ghost use Rattle.ct_word.specs.WellFormed.{IsWellFormed, is_place_of};
ghost use Rattle.ct_csv.specs.Exported.{ArePrinted, CanBeExported, FormsAreExported, IsExported, WhyNoExport};

use crate::error::WideError;
use crate::measuring::{first_past, sizes};
use crate::underscores::least_free;
use crate::writing::file;
use ct_operators::CTable;
use ct_rewrite::{Normal, normal};
use ct_word::{CRow, Memory};
use std::alloc::Global;

/// The places of the conditions of rows.
fn conditions(alloc: Global, rows: &[CRow]) -> Result<Vec<u32>, Memory>
    ensures { IfOk result (λ ps. ps.items ≡ map (λ r. r.cond) rows.now) }
{
    let mut places = Vec::new(alloc);
    for row in rows {
        places.push(row.cond)?;
    }
    Ok(places)
}

/// The printed form of the conditions of rows.
fn printed(alloc: Global, words: &[u64], rows: &[CRow]) -> Result<Normal, Memory>
    requires short { length words.now < 2 ^ 28 }
    requires formed { IsWellFormed words.now }
    requires conditions { All (λ r. IsTrue (is_place_of words.now class.Cond r.cond)) rows.now }
    ensures { IfOk result (λ n. ArePrinted words.now rows.now n.nodes n.roots) }
{
    let places = conditions(alloc, rows)?;
    let forms = normal(alloc, words, places.as_slice())?;
    Ok(forms)
}

/// The CSV file of a table over the words of a log: its columns and `if`, and a record for each row
/// in its order, but for those whose condition is False as it is printed. A fresh null is named
/// `n`, so many underscores that no named null of the table begins so, its session, an underscore
/// and its number. A condition is printed as it is without names of nodes, and True is empty.
///
/// # Errors
/// `TooWide` for the first row whose condition has more than 65,536 bytes or more than 64
/// parentheses open at once, with the old names of nulls, whether the row would be left out or not;
/// it comes only where `wide` or `deep` of the row's condition is past the bound. No text is made
/// before. `Memory` where there is none.
pub fn export(alloc: Global, words: &[u64], table: &CTable) -> Result<Vec<u8>, WideError>
    requires short { length words.now < 2 ^ 28 }
    requires table { CanBeExported words.now table.now.columns table.now.rows }
    ensures ok { IfOk result (λ bytes. IsExported words.now table.now.columns table.now.rows bytes.items) }
    ensures error { IfErr result (λ e. WhyNoExport words.now table.now.rows e) }
{
    let rows = table.rows.as_slice();
    let printed = printed(alloc, words, rows)?;
    let nodes = printed.nodes.as_slice();
    let positions = printed.roots.as_slice();
    let sizes = sizes(alloc, nodes)?;
    if let Some(row) = first_past(sizes.as_slice(), positions) {
        return Err(WideError::TooWide { row });
    }
    let underscores = least_free(alloc, words, rows)?;
    let bytes = file(alloc, underscores, words, table, nodes, positions)?;
    Ok(bytes)
}

/// The law that what is written of a table, with printed forms of its conditions, is a file of it.
pub fn forms_are_exported()
    ensures { FormsAreExported }
{}
