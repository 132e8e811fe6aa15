// Scripts of CSV files.

ghost use Rattle.std.specs.Prelude.{◌≡◌, ℕ, List, map, drop, Some, IfOk, IfErr, IsTrue};
ghost use Rattle.csv.specs.Records.{fields_of};
ghost use Rattle.ct_word.specs.Names.{is_name};
ghost use Rattle.ct_lex.specs.Spelling.{lowered};
ghost use Rattle.ct_csv.specs.Csv.{AreEven};
ghost use Rattle.ct_csv.specs.Fields.{header};
ghost use Rattle.ct_csv.specs.Importing.{IsImported, HaveOneList, RefusesNoFile, RefusesForOne, SaysOneTable, TakesExports};
ghost use Rattle.ct_csv.specs.Refusing.{AreRows, Refuses, WhyNoFile};
ghost use Rattle.ct_csv.specs.Script.{script_of};

use crate::error::ImportError;
use crate::fields::columns;
use crate::lines::{push_create, push_inserts};
use crate::reading::records;
use csv::StringRecord;
use ct_word::Text;
use std::alloc::Global;

/// The script of records, under the name in lower case.
///
/// # Errors
/// `BadHeader`, `BadCell` and `Memory`, as `import` has them.
fn script(alloc: Global, name: &str, records: &[StringRecord]) -> Result<Text, ImportError>
    requires { AreEven (map fields_of records.now) }
    ensures ok { IfOk result (λ t. (columns : List (List ℕ)) × (header (map fields_of records.now) ≡ Some columns) × (t ≡ script_of (lowered name.now) columns (drop 1 (map fields_of records.now)))) }
    ensures rows { IfOk result (λ _. AreRows (map fields_of records.now)) }
    ensures error { IfErr result (λ e. WhyNoFile (map fields_of records.now) e) }
{
    let Some(first) = records.first() else {
        return Err(ImportError::BadHeader);
    };
    let columns = columns(alloc, first)?;
    let table = name.to_ascii_lowercase(alloc)?;
    let mut out = String::new(alloc);
    push_create(&mut out, table.as_str(), columns.as_slice())?;
    push_inserts(alloc, &mut out, table.as_str(), records)?;
    Ok(Text::from_string(out))
}

/// The script of the table that a CSV file has: a line that makes it, and a line for each record
/// below the first, which inserts its row. The table's name is printed in lower case.
///
/// # Errors
/// In this order: `NotCsv` exactly where the bytes are no text, the reader refuses a record for
/// another cause than memory, or a record has another number of fields than the first. `BadHeader`
/// exactly where there is no record, or the first is not one or more names and then `if`. `BadCell`
/// exactly where a field below is no cell, or the last of its record no condition without columns,
/// with the first such field. `Memory` where there is none.
pub fn import(alloc: Global, name: &str, bytes: &[u8]) -> Result<Text, ImportError>
    requires { IsTrue (is_name (lowered name.now)) }
    ensures ok { IfOk result (λ t. IsImported (lowered name.now) bytes.now t) }
    ensures error { IfErr result (λ e. Refuses bytes.now e) }
{
    let records = records(alloc, bytes)?;
    script(alloc, name, records.as_slice())
}

/// The law that bytes have no two lists of records.
pub fn records_are_one()
    ensures { HaveOneList }
{}

/// The law that no file is refused but for want of memory.
pub fn files_are_taken()
    ensures { RefusesNoFile }
{}

/// The law that bytes are refused for one cause, memory aside.
pub fn refusals_are_one()
    ensures { RefusesForOne }
{}

/// The law that bytes are a file of one table at most.
pub fn files_say_one_table()
    ensures { SaysOneTable }
{}

/// The law that what was exported is refused for want of memory alone, and is imported with its
/// columns and its rows, in order.
pub fn exports_are_taken()
    ensures { TakesExports }
{}
