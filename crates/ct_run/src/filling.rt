// The command `fill`: sessions of generated scripts, and their summary.

ghost use Rattle.std.specs.Prelude.{◌≡◌, ◌≤◌, IfOk};
ghost use Rattle.ct_run.specs.Promise.{generated, IsGenerated, FillPromise};
ghost use Rattle.ct_run.specs.Runs.{Taking, Printed};
ghost use Rattle.ct_run.specs.Summary.{summary};

use crate::ending::{Run, Status, no_run};
use crate::printing::print;
use crate::summary::summary;
use ct_fill::script;
use ct_outside::{Gate, Sink};
use ct_serve::serve;
use ct_transcript::Transcript;
use ct_word::{Memory, Text};
use std::alloc::Global;
use std::sync::Wait;
use std::thread::Threads;

/// How many words of 64 bits the log has that no words of the command line ask for.
pub(crate) const CAPACITY: u32 = 262_144;

/// The scripts of the sessions 1 to 4.
fn generated(alloc: Global, n: u32) -> Result<Vec<Text>, Memory>
    ensures { IfOk result (λ scripts. scripts.items ≡ generated n) }
{
    let mut scripts = Vec::new(alloc);
    scripts.push(script(alloc, 1, n)?)?;
    scripts.push(script(alloc, 2, n)?)?;
    scripts.push(script(alloc, 3, n)?)?;
    scripts.push(script(alloc, 4, n)?)?;
    Ok(scripts)
}

fn filled<R: Threads + Wait + Sync, G: Gate + Sync>(
    rt: &R,
    alloc: Global,
    n: u32,
    gate: &G,
) -> Result<Transcript, Memory>
    requires { n ≤ 2000 }
    ensures { IfOk result (IsGenerated n) }
{
    let scripts = generated(alloc, n)?;
    serve(rt, alloc, CAPACITY, scripts.as_slice(), gate)
}

/// Writes the summary of a transcript, with one call for each line.
fn print_summary<K: Sink>(alloc: Global, n: u32, transcript: &Transcript, out: &mut K) -> Status
    ensures printed { Printed (record { faults = K.faults out.old; faults' = K.faults out.new; taken = K.taken out.old; taken' = K.taken out.new; calls = K.calls out.old; calls' = K.calls out.new }) (summary n transcript.now) transcript.now.sessions result }
{
    let Ok(text) = summary(alloc, n, transcript) else {
        return Status::Memory;
    };
    print(text.as_slice(), transcript.sessions.as_slice(), out)
}

/// Runs the sessions of the scripts that are made with `n`, on a log of 262,144 words, and writes the summary.
pub(crate) fn fill<R: Threads + Wait + Sync, K: Sink, G: Gate + Sync>(
    rt: &R,
    alloc: Global,
    n: u32,
    out: &mut K,
    gate: &G,
) -> Run
    requires { n ≤ 2000 }
    ensures promise { FillPromise n (record { faults = K.faults out.old; faults' = K.faults out.new; taken = K.taken out.old; taken' = K.taken out.new; calls = K.calls out.old; calls' = K.calls out.new }) result.status result.transcript }
{
    let Ok(transcript) = filled(rt, alloc, n, gate) else {
        return no_run(alloc, Status::Memory);
    };
    let status = print_summary(alloc, n, &transcript, out);
    Run { status, transcript }
}
