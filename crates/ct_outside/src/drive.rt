// Reads of all scripts, and writes of all lines, in their order.

ghost use Rattle.std.specs.Prelude.{◌≡◌, ◌≢◌, ◌≤◌, ◌+◌, ◌∷◌, [], ℕ, length, take, OnOk, OnErr, IfOk, IfErr, IsErrOf};
ghost use Rattle.ct_outside.specs.Outside.{Rose, StillHolds, HoldsMore, Added, AddedFront, Called};
ghost use Rattle.ct_outside.specs.Reads.{UnlessMemory, UnlessFailed, names_of, bytes_in, IsOneMore, AreOfAll, AreBeforeFault};
ghost use Rattle.ct_outside.specs.Writes.{joined, FailedAtCall};
ghost use Rattle.ct_outside.specs.declared.scripts.ReadError.TheVariants as fault;

use crate::scripts::{ReadError, Scripts};
use crate::sinks::{Failed, Sink};
use ct_word::Text;
use std::alloc::Global;
use thiserror::Error;

/// A file was not read: the texts of the files before it, and why.
#[derive(Debug, Drop, Error)]
#[error("{fault}")]
pub struct Unread {
    pub texts: Vec<Vec<u8>>,
    pub fault: ReadError,
}

// Reads one more text, of at most limit bytes.
fn read_next<S: Scripts>(
    alloc: Global,
    scripts: &mut S,
    name: &str,
    limit: u32,
    texts: &mut Vec<Vec<u8>>,
) -> Result<(), ReadError>
    ensures later { S.faults scripts.old ≤ S.faults scripts.new }
    ensures failed { IsErrOf result fault.Failed → Rose (S.faults scripts.old) (S.faults scripts.new) }
    ensures quiet { UnlessFailed result (S.faults scripts.new ≡ S.faults scripts.old) }
    ensures held { StillHolds (S.held scripts.old) (S.held scripts.new) }
    ensures names { AddedFront (S.names scripts.old) (S.names scripts.new) (name.now ∷ []) }
    ensures asked { UnlessMemory result (Added (S.names scripts.old) (S.names scripts.new) (name.now ∷ [])) }
    ensures too_long { IsErrOf result fault.TooLong → HoldsMore (S.held scripts.old) name.now limit }
    ensures ok { OnOk result (IsOneMore (S.held scripts.old) name.now limit (bytes_in texts.old.items) (bytes_in texts.new.items)) }
    ensures err { OnErr result (texts.new.items ≡ texts.old.items) }
{
    let text = scripts.read(alloc, name, limit)?;
    // A source that tells nothing may give more than the limit.
    if text.len() > limit as usize {
        return Err(ReadError::TooLong);
    }
    texts.push(text)?;
    Ok(())
}

/// The texts of the files, in their order.
///
/// # Errors
/// The first file at fault decides: `Failed` only where the count of faults rose, `TooLong` where the source holds more
/// than `limit` bytes, and `Memory` for want of memory. The files before it were read, and no file after it was asked.
pub fn read_all<S: Scripts>(
    alloc: Global,
    scripts: &mut S,
    files: &[&str],
    limit: u32,
) -> Result<Vec<Vec<u8>>, Unread>
    ensures later { S.faults scripts.old ≤ S.faults scripts.new }
    ensures held { StillHolds (S.held scripts.old) (S.held scripts.new) }
    ensures names { AddedFront (S.names scripts.old) (S.names scripts.new) (names_of files.now) }
    ensures asked { OnOk result (Added (S.names scripts.old) (S.names scripts.new) (names_of files.now)) }
    ensures ok { IfOk result (λ texts. AreOfAll (S.held scripts.old) (names_of files.now) limit (bytes_in texts.items)) }
    ensures err { IfErr result (λ e. AreBeforeFault (S.held scripts.old) (names_of files.now) limit (bytes_in e.texts.items) e.fault) }
    ensures failed { IfErr result (λ e. e.fault ≡ fault.Failed → Rose (S.faults scripts.old) (S.faults scripts.new)) }
    ensures quiet { OnOk result (S.faults scripts.new ≡ S.faults scripts.old) }
    ensures quiet_err { IfErr result (λ e. e.fault ≢ fault.Failed → S.faults scripts.new ≡ S.faults scripts.old) }
    ensures last { IfErr result (λ e. e.fault ≢ fault.Memory → Added (S.names scripts.old) (S.names scripts.new) (take (length e.texts.items + 1) (names_of files.now))) }
{
    let mut texts = Vec::new(alloc);
    for name in files {
        if let Err(fault) = read_next(alloc, scripts, name, limit, &mut texts) {
            return Err(Unread { texts, fault });
        }
    }
    Ok(texts)
}

/// Writes the lines in their order, with one write for each.
///
/// # Errors
/// `Failed` where a write failed; the lines before its own were taken whole, and then a prefix of its own.
pub fn write_all<K: Sink>(out: &mut K, lines: &[Text]) -> Result<(), Failed>
    ensures later { K.faults out.old ≤ K.faults out.new }
    ensures failed { OnErr result (Rose (K.faults out.old) (K.faults out.new)) }
    ensures ok { OnOk result (Added (K.taken out.old) (K.taken out.new) (joined lines.now)) }
    ensures calls { OnOk result (Called (K.calls out.old) (K.calls out.new) (length lines.now)) }
    ensures err { OnErr result ((call : ℕ) × FailedAtCall (K.taken out.old) (K.taken out.new) lines.now call × Called (K.calls out.old) (K.calls out.new) call) }
{
    for line in lines {
        out.write(line.as_str().as_bytes())?;
    }
    Ok(())
}
