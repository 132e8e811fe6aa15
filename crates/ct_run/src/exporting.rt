// The command `export`: the session of a file, and then the CSV file of a table.

ghost use Rattle.std.specs.Prelude.{◌≡◌, ◌∷◌, [], map, IfOk, IfErr, OnOk};
ghost use Rattle.ct_outside.specs.Outside.{Rose, Added, AddedFront};
ghost use Rattle.ct_serve.specs.Lawful.{Lawful};
ghost use Rattle.ct_serve.specs.Within.{IsWithin};
ghost use Rattle.ct_serve.specs.TableFiles.{IsTableFile, WhyNoTable};
ghost use Rattle.ct_run.specs.Scripts.{AreScriptsOf, IsUnread, IsNoScript};
ghost use Rattle.ct_run.specs.Exports.{Exported, ExportPromise};
ghost use Rattle.ct_run.specs.declared.reading.Unserved.TheVariants as unserved;

use crate::ending::{Run, Status, no_run};
use crate::files::status_of;
use crate::filling::CAPACITY;
use crate::printing::write_once;
use crate::reading::{Unserved, scripts_of};
use ct_outside::{Gate, Scripts, Sink};
use ct_serve::{TableRun, serve_and_export};
use ct_session::ExportError;
use ct_word::Text;
use std::alloc::Global;
use std::sync::Wait;
use std::thread::Threads;

/// Executes the script of a file on a log of 262,144 words, and then exports a table.
///
/// # Errors
/// `ReadFault` only where the source failed, `Script` only where the file is no script, `Memory` for want of memory.
fn exported<R: Threads + Wait + Sync, S: Scripts, G: Gate + Sync>(
    rt: &R,
    alloc: Global,
    name: &Text,
    file: &str,
    source: &mut S,
    gate: &G,
) -> Result<TableRun, Unserved>
    ensures lawful { IfOk result (λ r. Lawful r.transcript 262144) }
    ensures within { IfOk result (λ r. IsWithin r.transcript 262144) }
    ensures scripts { IfOk result (λ r. AreScriptsOf (S.held source.old) (file.now ∷ []) (map (λ s. s.script) r.transcript.sessions)) }
    ensures table { IfOk result (λ r. IfOk r.table (λ f. IsTableFile r.transcript name.now f.1.items)) }
    ensures none { IfOk result (λ r. IfErr r.table (WhyNoTable r.transcript name.now)) }
    ensures in_order { AddedFront (S.names source.old) (S.names source.new) (file.now ∷ []) }
    ensures asked { OnOk result (Added (S.names source.old) (S.names source.new) (file.now ∷ [])) }
    ensures rose { IfErr result (λ e. e ≡ unserved.ReadFault → Rose (S.faults source.old) (S.faults source.new)) }
    ensures unread { IfErr result (λ e. e ≡ unserved.ReadFault → IsUnread (S.held source.old) (S.names source.old) (S.names source.new) (file.now ∷ [])) }
    ensures no_script { IfErr result (λ e. e ≡ unserved.Script → IsNoScript (S.held source.old) (S.names source.old) (S.names source.new) (file.now ∷ [])) }
{
    let mut scripts = scripts_of(alloc, source, &[file])?;
    let Some(script) = scripts.pop() else {
        unreachable!();
    };
    let exported = serve_and_export(rt, alloc, CAPACITY, script, name, gate)?;
    Ok(exported)
}

/// Writes the file of a table, with one call.
fn write_table<K: Sink>(exported: &TableRun, name: &Text, out: &mut K) -> Status
    requires table { IfOk exported.now.table (λ f. IsTableFile exported.now.transcript name.now f.1.items) }
    requires none { IfErr exported.now.table (WhyNoTable exported.now.transcript name.now) }
    ensures { Exported name.now (record { faults = K.faults out.old; faults' = K.faults out.new; taken = K.taken out.old; taken' = K.taken out.new; calls = K.calls out.old; calls' = K.calls out.new }) exported.now.transcript result }
{
    match &exported.table {
        Ok((_, bytes)) => match write_once(bytes.as_slice(), out) {
            Ok(()) => Status::Done,
            Err(_) => Status::WriteFault,
        },
        Err(ExportError::Memory) => Status::Memory,
        Err(_) => Status::Refused,
    }
}

/// Runs the session of a file, on a log of 262,144 words, and writes the CSV file of the table with this name.
pub(crate) fn export_table<R: Threads + Wait + Sync, S: Scripts, K: Sink, G: Gate + Sync>(
    rt: &R,
    alloc: Global,
    name: &Text,
    file: &str,
    scripts: &mut S,
    out: &mut K,
    gate: &G,
) -> Run
    ensures promise { ExportPromise name.now file.now (record { held = S.held scripts.old; faults = S.faults scripts.old; faults' = S.faults scripts.new; asked = S.names scripts.old; asked' = S.names scripts.new }) (record { faults = K.faults out.old; faults' = K.faults out.new; taken = K.taken out.old; taken' = K.taken out.new; calls = K.calls out.old; calls' = K.calls out.new }) result.status result.transcript }
    ensures names { AddedFront (S.names scripts.old) (S.names scripts.new) (file.now ∷ []) }
{
    let exported = match exported(rt, alloc, name, file, scripts, gate) {
        Ok(exported) => exported,
        Err(e) => return no_run(alloc, status_of(e)),
    };
    let status = write_table(&exported, name, out);
    let TableRun { transcript, table } = exported;
    drop(table);
    Run { status, transcript }
}
