// The sessions of files.

ghost use Rattle.std.specs.Prelude.{◌≡◌, ◌≤◌, ◌↔◌, length, map, IfOk, IfErr, OnOk};
ghost use Rattle.ct_outside.specs.Outside.{Rose, Added, AddedFront};
ghost use Rattle.ct_outside.specs.Reads.{names_of};
ghost use Rattle.ct_serve.specs.Lawful.{Lawful};
ghost use Rattle.ct_serve.specs.Within.{IsWithin};
ghost use Rattle.ct_run.specs.Scripts.{AreScriptsOf, IsUnread, IsNoScript};
ghost use Rattle.ct_run.specs.Runs.{RunPromise};
ghost use Rattle.ct_run.specs.declared.ending.Status.TheVariants as status;
ghost use Rattle.ct_run.specs.declared.reading.Unserved.TheVariants as unserved;

use crate::ending::{Run, Status, no_run};
use crate::printing::print_transcript;
use crate::reading::{Unserved, scripts_of};
use ct_outside::{Gate, Scripts, Sink};
use ct_serve::serve_by;
use ct_statement::Workers;
use ct_transcript::Transcript;
use std::alloc::Global;
use std::sync::Wait;
use std::thread::Threads;

/// The transcript of the sessions of files, on a log of this many words, with so many workers. The first file's session may
/// have to come to its end before the others begin.
///
/// # Errors
/// `ReadFault` only where the source failed. Where the source tells what it holds, the first file at fault decides, and
/// `Script` comes only where it is no script. `Memory` comes for want of memory.
pub(crate) fn served<R: Threads + Wait + Sync, S: Scripts, G: Gate + Sync>(
    rt: &R,
    alloc: Global,
    capacity: u32,
    files: &[&str],
    is_first_alone: bool,
    workers: Workers,
    source: &mut S,
    gate: &G,
) -> Result<Transcript, Unserved>
    requires least { 64 ≤ capacity }
    requires most { capacity ≤ 4194304 }
    requires some { 1 ≤ length files.now }
    requires most_files { length files.now ≤ 64 }
    ensures lawful { IfOk result (λ transcript. Lawful transcript capacity) }
    ensures within { IfOk result (λ transcript. IsWithin transcript capacity) }
    ensures scripts { IfOk result (λ transcript. AreScriptsOf (S.held source.old) (names_of files.now) (map (λ s. s.script) transcript.sessions)) }
    ensures in_order { AddedFront (S.names source.old) (S.names source.new) (names_of files.now) }
    ensures asked { OnOk result (Added (S.names source.old) (S.names source.new) (names_of files.now)) }
    ensures rose { IfErr result (λ e. e ≡ unserved.ReadFault → Rose (S.faults source.old) (S.faults source.new)) }
    ensures unread { IfErr result (λ e. e ≡ unserved.ReadFault → IsUnread (S.held source.old) (S.names source.old) (S.names source.new) (names_of files.now)) }
    ensures no_script { IfErr result (λ e. e ≡ unserved.Script → IsNoScript (S.held source.old) (S.names source.old) (S.names source.new) (names_of files.now)) }
{
    let scripts = scripts_of(alloc, source, files)?;
    let transcript = serve_by(
        rt,
        alloc,
        capacity,
        scripts.as_slice(),
        gate,
        is_first_alone,
        workers,
    )?;
    Ok(transcript)
}

/// How a run ends that served nothing.
pub(crate) fn status_of(e: Unserved) -> Status
    ensures read { (result ≡ status.ReadFault) ↔ (e ≡ unserved.ReadFault) }
    ensures script { (result ≡ status.Script) ↔ (e ≡ unserved.Script) }
    ensures done { (result ≡ status.Done → ⊥) × (result ≡ status.Refused → ⊥) × (result ≡ status.WriteFault → ⊥) × (result ≡ status.Words → ⊥) }
{
    match e {
        Unserved::ReadFault => Status::ReadFault,
        Unserved::Script => Status::Script,
        Unserved::Memory => Status::Memory,
    }
}

/// Runs the sessions of files on a log of this many words, with so many workers, where the first may have to come to its end
/// before the others begin, and writes their transcript.
pub(crate) fn run_files<R: Threads + Wait + Sync, S: Scripts, K: Sink, G: Gate + Sync>(
    rt: &R,
    alloc: Global,
    capacity: u32,
    files: &[&str],
    is_first_alone: bool,
    workers: Workers,
    scripts: &mut S,
    out: &mut K,
    gate: &G,
) -> Run
    requires least { 64 ≤ capacity }
    requires most { capacity ≤ 4194304 }
    requires some { 1 ≤ length files.now }
    requires most_files { length files.now ≤ 64 }
    ensures promise { RunPromise capacity (names_of files.now) (record { held = S.held scripts.old; faults = S.faults scripts.old; faults' = S.faults scripts.new; asked = S.names scripts.old; asked' = S.names scripts.new }) (record { faults = K.faults out.old; faults' = K.faults out.new; taken = K.taken out.old; taken' = K.taken out.new; calls = K.calls out.old; calls' = K.calls out.new }) result.status result.transcript }
    ensures names { AddedFront (S.names scripts.old) (S.names scripts.new) (names_of files.now) }
{
    let transcript = match served(
        rt,
        alloc,
        capacity,
        files,
        is_first_alone,
        workers,
        scripts,
        gate,
    ) {
        Ok(transcript) => transcript,
        Err(e) => return no_run(alloc, status_of(e)),
    };
    let status = print_transcript(rt, alloc, &transcript, out);
    Run { status, transcript }
}
