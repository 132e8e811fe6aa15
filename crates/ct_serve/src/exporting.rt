// A session alone on its log, and then the CSV file of a table.

ghost use Rattle.std.specs.Prelude.{◌≡◌, ◌≤◌, ◌∷◌, [], length, map, IfOk, IfErr};
ghost use Rattle.ct_lex.specs.Texts.{texts};
ghost use Rattle.ct_serve.specs.Lawful.{Lawful};
ghost use Rattle.ct_serve.specs.Within.{IsWithin};
ghost use Rattle.ct_serve.specs.TableFiles.{IsTableFile, WhyNoTable};

use crate::client::Client;
use crate::serving::closed;
use ct_arena::{Blank, Pass, Site};
use ct_keeper::Server;
use ct_outside::Gate;
use ct_session::ExportError;
use ct_transcript::{SessionLog, Transcript};
use ct_word::{List, Memory, Text};
use std::alloc::Global;
use std::marker::Brand;
use std::sync::Wait;
use std::thread::Threads;

/// A transcript, and what an export gave after the last statement: the version and the bytes of a table's CSV file, or why
/// there is none. No clause is on the version.
#[derive(Drop)]
pub struct TableRun {
    pub transcript: Transcript,
    pub table: Result<(u32, Vec<u8>), ExportError>,
}

/// The session of this pass alone, as lists have it.
fn alone<N: Site>(
    alloc: Global,
    pass: Pass<N>,
    log: SessionLog,
) -> Result<(Vec<Pass<N>>, List<SessionLog>), Memory>
    ensures passes { IfOk result (λ r. r.0.items ≡ pass ∷ []) }
    ensures logs { IfOk result (λ r. r.1 ≡ log ∷ []) }
{
    let mut passes = Vec::new(alloc);
    passes.push(pass)?;
    let mut logs = Vec::new(alloc);
    logs.push(log)?;
    Ok((passes, List::from_vec(logs)))
}

/// Executes a script in the session of a log of its own, and then exports a table.
fn exported_named<N: Site + Send + Sync, R: Threads + Wait + Sync, G: Gate + Sync>(
    rt: &R,
    alloc: Global,
    blank: Blank,
    script: Text,
    name: &Text,
    gate: &G,
) -> Result<TableRun, Memory>
    requires name { blank ≡ N.log }
    requires number { N.sessions ≡ 1 }
    requires few { length (texts script) ≤ 65535 }
    ensures lawful { IfOk result (λ r. Lawful r.transcript N.log.cap) }
    ensures within { IfOk result (λ r. IsWithin r.transcript N.log.cap) }
    ensures scripts { IfOk result (λ r. map (λ s. s.script) r.transcript.sessions ≡ script ∷ []) }
    ensures table { IfOk result (λ r. IfOk r.table (λ f. IsTableFile r.transcript name.now f.1.items)) }
    ensures none { IfOk result (λ r. IfErr r.table (WhyNoTable r.transcript name.now)) }
{
    let (server, mut passes) = Server::<N>::make(alloc, blank, 1)?;
    let Some(pass) = passes.pop() else {
        unreachable!();
    };
    let text = name.as_str();
    let mut client = Client::make(pass, script);
    let table = client.execute_and_export(rt, alloc, &server, text, gate);
    let Some((pass, log)) = client.finish() else {
        return Err(Memory);
    };
    let (passes, logs) = alone(alloc, pass, log)?;
    let transcript = closed(rt, alloc, server, passes, logs)?;
    Ok(TableRun { transcript, table })
}

/// Runs a session for a script, alone on a log that has room for `cap` words, from 64 to 4,194,304, and then exports the table
/// with this name after all of its commits. The script has at most 65,535 statements. The gate is called as `serve` says.
///
/// Where the table is an error, the commits make no table with this name, a row of it has too wide a condition for a file, or
/// memory was wanting.
///
/// # Errors
/// `Memory` where there is none for the log, or for the lists of statements and replies.
pub fn serve_and_export<R: Threads + Wait + Sync, G: Gate + Sync>(
    rt: &R,
    alloc: Global,
    cap: u32,
    script: Text,
    name: &Text,
    gate: &G,
) -> Result<TableRun, Memory>
    requires least { 64 ≤ cap }
    requires most { cap ≤ 4194304 }
    requires few { length (texts script) ≤ 65535 }
    ensures lawful { IfOk result (λ r. Lawful r.transcript cap) }
    ensures within { IfOk result (λ r. IsWithin r.transcript cap) }
    ensures scripts { IfOk result (λ r. map (λ s. s.script) r.transcript.sessions ≡ script ∷ []) }
    ensures table { IfOk result (λ r. IfOk r.table (λ f. IsTableFile r.transcript name.now f.1.items)) }
    ensures none { IfOk result (λ r. IfErr r.table (WhyNoTable r.transcript name.now)) }
{
    let blank = Blank::make(alloc, cap)?;
    exported_named::<Brand, R, G>(rt, alloc, blank, script, name, gate)
}
