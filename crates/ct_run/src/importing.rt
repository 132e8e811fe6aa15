// The command `import`: a session for the script of a table that is in CSV, and then that of a file.

ghost use Rattle.std.specs.Prelude.{◌≡◌, ◌≤◌, ◌∷◌, ◌++◌, [], length, map, IfOk, IfErr, IsTrue, OnOk};
ghost use Rattle.ct_word.specs.Names.{is_name};
ghost use Rattle.ct_lex.specs.Spelling.{lowered};
ghost use Rattle.ct_outside.specs.Outside.{Rose, StillHolds, Added, AddedFront};
ghost use Rattle.ct_serve.specs.Lawful.{Lawful};
ghost use Rattle.ct_run.specs.Scripts.{SCRIPT_BYTES, IsScript};
ghost use Rattle.ct_run.specs.Imports.{IsTableOf, HoldsNoTable, IsBehind, IsServedBehind, IsUnreadBehind, IsNoScriptBehind, ImportPromise};
ghost use Rattle.ct_run.specs.declared.reading.Unserved.TheVariants as unserved;
ghost use Rattle.ct_csv.specs.declared.error.ImportError.TheVariants as fault;

use crate::ending::{Run, no_run};
use crate::files::status_of;
use crate::filling::CAPACITY;
use crate::printing::print_transcript;
use crate::reading::{SCRIPT_BYTES, Unserved, as_script, bytes_of};
use ct_csv::{ImportError, import};
use ct_outside::{Gate, Scripts, Sink};
use ct_serve::serve;
use ct_transcript::Transcript;
use ct_word::Text;
use std::alloc::Global;
use std::sync::Wait;
use std::thread::Threads;

/// Why no session ran, where bytes are refused for this.
fn unserved_by(why: ImportError) -> Unserved
    ensures script { result ≡ unserved.Script → why ≡ fault.Memory → ⊥ }
    ensures no_fault { result ≡ unserved.ReadFault → ⊥ }
{
    match why {
        ImportError::NotCsv => Unserved::Script,
        ImportError::BadHeader => Unserved::Script,
        ImportError::BadCell { .. } => Unserved::Script,
        ImportError::Memory => Unserved::Memory,
    }
}

/// The script of the table that a CSV file has, under this name.
///
/// # Errors
/// `ReadFault` only where the source failed, `Script` only where the file has too many bytes or is no table, `Memory` for
/// want of memory.
fn table_of<S: Scripts>(
    alloc: Global,
    source: &mut S,
    name: &str,
    csv: &str,
) -> Result<Text, Unserved>
    requires name { IsTrue (is_name (lowered name.now)) }
    requires low { lowered name.now ≡ name.now }
    ensures in_order { AddedFront (S.names source.old) (S.names source.new) (csv.now ∷ []) }
    ensures still { StillHolds (S.held source.old) (S.held source.new) }
    ensures later { S.faults source.old ≤ S.faults source.new }
    ensures ok { IfOk result (IsTableOf (S.held source.old) name.now csv.now) }
    ensures asked { OnOk result (Added (S.names source.old) (S.names source.new) (csv.now ∷ [])) }
    ensures rose { IfErr result (λ e. e ≡ unserved.ReadFault → Rose (S.faults source.old) (S.faults source.new)) }
    ensures unread { IfErr result (λ e. e ≡ unserved.ReadFault → Added (S.names source.old) (S.names source.new) (csv.now ∷ [])) }
    ensures none { IfErr result (λ e. e ≡ unserved.Script → HoldsNoTable (S.held source.old) csv.now) }
    ensures asked_none { IfErr result (λ e. e ≡ unserved.Script → Added (S.names source.old) (S.names source.new) (csv.now ∷ [])) }
{
    let bytes = bytes_of(alloc, source, csv, SCRIPT_BYTES)?;
    match import(alloc, name, bytes.as_slice()) {
        Ok(script) => Ok(script),
        Err(why) => Err(unserved_by(why)),
    }
}

/// The script that these bytes are behind another one.
///
/// # Errors
/// `Script` only where they are none there, `Memory` for want of memory.
fn behind(alloc: Global, imported: &Text, own: &[u8]) -> Result<Text, Unserved>
    requires short { length own.now ≤ SCRIPT_BYTES }
    ensures joined { IfOk result (λ script. script ≡ imported.now ++ own.now) }
    ensures script { IfOk result (λ script. IsScript script) }
    ensures none { IfErr result (λ e. e ≡ unserved.Script → IsScript (imported.now ++ own.now) → ⊥) }
    ensures no_fault { IfErr result (λ e. e ≡ unserved.ReadFault → ⊥) }
{
    let first = imported.as_str().as_bytes();
    if first.len() + own.len() > SCRIPT_BYTES as usize {
        return Err(Unserved::Script);
    }
    let mut bytes = Vec::from_slice(alloc, first)?;
    bytes.extend_from_slice(own)?;
    as_script(alloc, bytes)
}

/// The script of a table, and behind it that of a file. The table's file is read first.
///
/// # Errors
/// `ReadFault` only where the source failed, `Script` only where the first file is no table or the whole is no script,
/// `Memory` for want of memory.
fn script_of<S: Scripts>(
    alloc: Global,
    source: &mut S,
    name: &str,
    csv: &str,
    file: &str,
) -> Result<Text, Unserved>
    requires name { IsTrue (is_name (lowered name.now)) }
    requires low { lowered name.now ≡ name.now }
    ensures in_order { AddedFront (S.names source.old) (S.names source.new) (csv.now ∷ file.now ∷ []) }
    ensures ok { IfOk result (IsBehind (S.held source.old) name.now csv.now file.now) }
    ensures asked { OnOk result (Added (S.names source.old) (S.names source.new) (csv.now ∷ file.now ∷ [])) }
    ensures rose { IfErr result (λ e. e ≡ unserved.ReadFault → Rose (S.faults source.old) (S.faults source.new)) }
    ensures unread { IfErr result (λ e. e ≡ unserved.ReadFault → IsUnreadBehind name.now csv.now file.now (record { held = S.held source.old; faults = S.faults source.old; faults' = S.faults source.new; asked = S.names source.old; asked' = S.names source.new })) }
    ensures no_script { IfErr result (λ e. e ≡ unserved.Script → IsNoScriptBehind name.now csv.now file.now (record { held = S.held source.old; faults = S.faults source.old; faults' = S.faults source.new; asked = S.names source.old; asked' = S.names source.new })) }
{
    let imported = table_of(alloc, source, name, csv)?;
    let own = bytes_of(alloc, source, file, SCRIPT_BYTES)?;
    behind(alloc, &imported, own.as_slice())
}

/// The transcript of a file behind a table with this name, on a log of 262,144 words.
///
/// # Errors
/// As `script_of` has them.
fn served_behind<R: Threads + Wait + Sync, S: Scripts, G: Gate + Sync>(
    rt: &R,
    alloc: Global,
    name: &str,
    csv: &str,
    file: &str,
    source: &mut S,
    gate: &G,
) -> Result<Transcript, Unserved>
    requires name { IsTrue (is_name (lowered name.now)) }
    requires low { lowered name.now ≡ name.now }
    ensures in_order { AddedFront (S.names source.old) (S.names source.new) (csv.now ∷ file.now ∷ []) }
    ensures ok { IfOk result (IsServedBehind name.now csv.now file.now (record { held = S.held source.old; faults = S.faults source.old; faults' = S.faults source.new; asked = S.names source.old; asked' = S.names source.new })) }
    ensures rose { IfErr result (λ e. e ≡ unserved.ReadFault → Rose (S.faults source.old) (S.faults source.new)) }
    ensures unread { IfErr result (λ e. e ≡ unserved.ReadFault → IsUnreadBehind name.now csv.now file.now (record { held = S.held source.old; faults = S.faults source.old; faults' = S.faults source.new; asked = S.names source.old; asked' = S.names source.new })) }
    ensures no_script { IfErr result (λ e. e ≡ unserved.Script → IsNoScriptBehind name.now csv.now file.now (record { held = S.held source.old; faults = S.faults source.old; faults' = S.faults source.new; asked = S.names source.old; asked' = S.names source.new })) }
{
    let script = script_of(alloc, source, name, csv, file)?;
    let transcript = serve(rt, alloc, CAPACITY, &[script], gate)?;
    Ok(transcript)
}

/// Runs the session of a file behind a table with this name, on a log of 262,144 words, and writes the transcript.
pub(crate) fn import_table<R: Threads + Wait + Sync, S: Scripts, K: Sink, G: Gate + Sync>(
    rt: &R,
    alloc: Global,
    name: &str,
    csv: &str,
    file: &str,
    scripts: &mut S,
    out: &mut K,
    gate: &G,
) -> Run
    requires name { IsTrue (is_name (lowered name.now)) }
    requires low { lowered name.now ≡ name.now }
    ensures promise { ImportPromise name.now csv.now file.now (record { held = S.held scripts.old; faults = S.faults scripts.old; faults' = S.faults scripts.new; asked = S.names scripts.old; asked' = S.names scripts.new }) (record { faults = K.faults out.old; faults' = K.faults out.new; taken = K.taken out.old; taken' = K.taken out.new; calls = K.calls out.old; calls' = K.calls out.new }) result.status result.transcript }
    ensures names { AddedFront (S.names scripts.old) (S.names scripts.new) (csv.now ∷ file.now ∷ []) }
{
    let transcript = match served_behind(rt, alloc, name, csv, file, scripts, gate) {
        Ok(transcript) => transcript,
        Err(e) => return no_run(alloc, status_of(e)),
    };
    let status = print_transcript(rt, alloc, &transcript, out);
    Run { status, transcript }
}
