// The records of CSV bytes.

ghost use Rattle.std.specs.Prelude.{◌≡◌, map, IfOk, IfErr};
ghost use Rattle.csv.specs.Records.{fields_of};
ghost use Rattle.ct_csv.specs.Csv.{IsCsv, cause_of};
ghost use Rattle.ct_csv.specs.Refusing.{Refuses};

use crate::error::ImportError;
use csv::{ErrorKind, ReaderBuilder, StringRecord};
use std::alloc::Global;

/// What a refusal of the reader says of the bytes. A reader over bytes at hand cannot fail, but no
/// contract says so, so `Io` is answered as want of memory.
fn cause(kind: &ErrorKind) -> ImportError
    ensures { result ≡ cause_of kind.now }
{
    match kind {
        ErrorKind::Utf8 { .. } => ImportError::NotCsv,
        ErrorKind::UnequalLengths { .. } => ImportError::NotCsv,
        _ => ImportError::Memory,
    }
}

/// The records of CSV bytes, in their order.
///
/// # Errors
/// `NotCsv` or `Memory`.
pub fn records(alloc: Global, bytes: &[u8]) -> Result<Vec<StringRecord>, ImportError>
    ensures ok { IfOk result (λ v. IsCsv bytes.now (map fields_of v.items)) }
    ensures error { IfErr result (λ e. Refuses bytes.now e) }
{
    if str::from_utf8(bytes).is_err() {
        return Err(ImportError::NotCsv);
    }
    let reader = ReaderBuilder::new()
        .has_headers(false)
        .from_reader(alloc, bytes);
    let mut records = Vec::new(alloc);
    for record in reader.into_records() {
        match record {
            Ok(record) => records.push(record)?,
            Err(error) => return Err(cause(error.kind())),
        }
    }
    Ok(records)
}
