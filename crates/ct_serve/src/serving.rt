// The sessions of a run, each on a thread of its own, and their transcript.

ghost use Rattle.std.specs.Prelude.{All, ◌≡◌, ◌<◌, ◌≤◌, ◌+◌, ◌^◌, ℕ, map, length, IfOk, slice_index_or, sum_by};
ghost use mathlib.Core.List.{IsPrefix};
ghost use Rattle.std.specs.List.{range_with_len, AllZip};
ghost use Rattle.ct_lex.specs.Texts.{texts};
ghost use Rattle.ct_keeper.specs.Served.{first_pass};
ghost use Rattle.ct_serve.specs.Lawful.{Lawful};
ghost use Rattle.ct_serve.specs.Within.{IsWithin};
ghost use Rattle.ct_serve.specs.Progress.{ClientView, IsReady, HasExecuted, HasRun, HasEnded};

use crate::client::Client;
use crate::history::history_of;
use crate::parts::parts_for;
use ct_arena::{Blank, Pass, Site};
use ct_keeper::Server;
use ct_outside::Gate;
use ct_statement::Workers;
use ct_transcript::{SessionLog, Transcript};
use ct_word::{List, Memory, Text};
use std::alloc::Global;
use std::marker::Brand;
use std::sync::Wait;
use std::thread;
use std::thread::Threads;

/// A client for each script, in their order, on the pass at the same place.
///
/// # Errors
/// `Memory` where there is none for a script or for the list of clients.
fn clients_of<N: Site>(
    alloc: Global,
    passes: Vec<Pass<N>>,
    scripts: &[Text],
) -> Result<Vec<Client<N>>, Memory>
    requires count { length passes.items ≡ length scripts.now }
    ensures passes { IfOk result (λ clients. map (λ c. c.pass) clients.items ≡ passes.items) }
    ensures scripts { IfOk result (λ clients. map (λ c. c.script) clients.items ≡ scripts.now) }
{
    let mut clients = Vec::new(alloc);
    for pass in passes {
        let script = scripts[clients.len()].clone()?;
        clients.push(Client::make(pass, script))?;
    }
    Ok(clients)
}

/// Executes the script of each client, on at most so many threads, that of the caller among them. Where no thread can be
/// made, one after another.
fn execute_on<N: Site + Send + Sync, R: Threads + Wait + Sync, G: Gate + Sync>(
    rt: &R,
    alloc: Global,
    server: &Server<N>,
    gate: &G,
    clients: &mut [Client<N>],
    threads: usize,
    workers: Workers,
)
    requires some { 0 < threads }
    requires ready { All IsReady clients.old }
    ensures count { length clients.new ≡ length clients.old }
    ensures each { (k : ℕ) (d : ClientView) → k < length clients.old → HasExecuted N.log.cap (slice_index_or clients.old k d) (slice_index_or clients.new k d) }
{
    let run = |_: usize, client: &mut Client<N>|
        requires { IsReady client.old }
        ensures { HasExecuted N.log.cap client.old client.new }
    { client.execute(rt, alloc, server, gate, workers) };
    thread::for_each_mut(rt, clients, threads, &run);
}

/// Executes the script of each client: where the first is to be alone, its script to the end, on this thread, and then all
/// others, each on a thread of its own.
fn execute_all<N: Site + Send + Sync, R: Threads + Wait + Sync, G: Gate + Sync>(
    rt: &R,
    alloc: Global,
    server: &Server<N>,
    gate: &G,
    clients: &mut [Client<N>],
    is_first_alone: bool,
    workers: Workers,
)
    requires some { 0 < length clients.old }
    requires ready { All IsReady clients.old }
    ensures count { length clients.new ≡ length clients.old }
    ensures each { (k : ℕ) (d : ClientView) → k < length clients.old → HasExecuted N.log.cap (slice_index_or clients.old k d) (slice_index_or clients.new k d) }
{
    let threads = clients.len();
    let (alone, others) = clients.split_at_mut(usize::from(is_first_alone));
    execute_on(rt, alloc, server, gate, alone, 1, workers);
    execute_on(rt, alloc, server, gate, others, threads, workers);
}

/// The passes and the logs of the sessions, in their order.
///
/// # Errors
/// `Memory` where it was wanting in a client, or is for the lists.
fn finished<N: Site>(
    alloc: Global,
    clients: Vec<Client<N>>,
) -> Result<(Vec<Pass<N>>, List<SessionLog>), Memory>
    requires run { All (HasRun N.log.cap) clients.items }
    ensures ended { IfOk result (λ r. AllZip (HasEnded N.log.cap) r.0.items r.1) }
    ensures numbers { IfOk result (λ r. map (λ p. p.session) r.0.items ≡ map (λ c. c.pass.session) clients.items) }
    ensures scripts { IfOk result (λ r. map (λ l. l.script) r.1 ≡ map (λ c. c.script) clients.items) }
{
    let mut passes = Vec::new(alloc);
    let mut logs = Vec::new(alloc);
    for client in clients {
        let Some((pass, log)) = client.finish() else {
            return Err(Memory);
        };
        passes.push(pass)?;
        logs.push(log)?;
    }
    Ok((passes, List::from_vec(logs)))
}

/// Ends the log of sessions that have ended, and gives the transcript. The history is read on threads.
///
/// # Errors
/// `Memory` where there is none for the history.
pub(crate) fn closed<N: Site, R: Threads + Sync>(
    rt: &R,
    alloc: Global,
    server: Server<N>,
    passes: Vec<Pass<N>>,
    logs: List<SessionLog>,
) -> Result<Transcript, Memory>
    requires some { 0 < N.sessions }
    requires numbers { map (λ p. p.session) passes.items ≡ range_with_len 1 N.sessions }
    requires ended { AllZip (HasEnded N.log.cap) passes.items logs }
    ensures lawful { IfOk result (λ transcript. Lawful transcript N.log.cap) }
    ensures within { IfOk result (λ transcript. IsWithin transcript N.log.cap) }
    ensures sessions { IfOk result (λ transcript. transcript.sessions ≡ logs) }
    ensures whole { IfOk result (λ transcript. length transcript.words ≡ 2 + sum_by (λ p. p.made) passes.items) }
    ensures seen { IfOk result (λ transcript. All (λ p. IsPrefix p.words transcript.words) passes.items) }
{
    let sessions = passes.len();
    let words = server.close(passes);
    let listed = words.words();
    let parts = parts_for(sessions, listed.len());
    let history = history_of(rt, alloc, listed, parts)?;
    Ok(Transcript {
        sessions: logs,
        history,
        words,
    })
}

/// Ends the sessions and the log, and gives the transcript.
///
/// # Errors
/// `Memory` where it was wanting in a client, or is for the history or the list of sessions.
fn end<N: Site, R: Threads + Sync>(
    rt: &R,
    alloc: Global,
    server: Server<N>,
    clients: Vec<Client<N>>,
) -> Result<Transcript, Memory>
    requires some { 0 < length clients.items }
    requires number { N.sessions ≡ length clients.items }
    requires numbers { map (λ c. c.pass.session) clients.items ≡ range_with_len 1 (length clients.items) }
    requires run { All (HasRun N.log.cap) clients.items }
    ensures lawful { IfOk result (λ transcript. Lawful transcript N.log.cap) }
    ensures within { IfOk result (λ transcript. IsWithin transcript N.log.cap) }
    ensures scripts { IfOk result (λ transcript. map (λ s. s.script) transcript.sessions ≡ map (λ c. c.script) clients.items) }
{
    let (passes, logs) = finished(alloc, clients)?;
    closed(rt, alloc, server, passes, logs)
}

fn serve_named<N: Site + Send + Sync, R: Threads + Wait + Sync, G: Gate + Sync>(
    rt: &R,
    alloc: Global,
    blank: Blank,
    scripts: &[Text],
    gate: &G,
    is_first_alone: bool,
    workers: Workers,
) -> Result<Transcript, Memory>
    requires name { blank ≡ N.log }
    requires number { N.sessions ≡ length scripts.now }
    requires least { 1 ≤ length scripts.now }
    requires most { length scripts.now ≤ 64 }
    requires few { All (λ script. length (texts script) ≤ 65535) scripts.now }
    ensures lawful { IfOk result (λ transcript. Lawful transcript N.log.cap) }
    ensures within { IfOk result (λ transcript. IsWithin transcript N.log.cap) }
    ensures scripts { IfOk result (λ transcript. map (λ s. s.script) transcript.sessions ≡ scripts.now) }
{
    let (server, passes) = Server::<N>::make(alloc, blank, scripts.len() as u32)?;
    let mut clients = clients_of(alloc, passes, scripts)?;
    execute_all(
        rt,
        alloc,
        &server,
        gate,
        clients.as_mut_slice(),
        is_first_alone,
        workers,
    );
    end(rt, alloc, server, clients)
}

/// Runs a session for each script as `serve_with` does. Where the first is to be alone, it comes to its end before the others
/// begin; no clause is on that.
///
/// # Errors
/// As `serve` has them.
pub fn serve_by<R: Threads + Wait + Sync, G: Gate + Sync>(
    rt: &R,
    alloc: Global,
    cap: u32,
    scripts: &[Text],
    gate: &G,
    is_first_alone: bool,
    workers: Workers,
) -> Result<Transcript, Memory>
    requires least { 64 ≤ cap }
    requires most { cap ≤ 4194304 }
    requires some { 1 ≤ length scripts.now }
    requires most_scripts { length scripts.now ≤ 64 }
    requires few { All (λ script. length (texts script) ≤ 65535) scripts.now }
    ensures lawful { IfOk result (λ transcript. Lawful transcript cap) }
    ensures within { IfOk result (λ transcript. IsWithin transcript cap) }
    ensures scripts { IfOk result (λ transcript. map (λ s. s.script) transcript.sessions ≡ scripts.now) }
{
    let blank = Blank::make(alloc, cap)?;
    serve_named::<Brand, R, G>(rt, alloc, blank, scripts, gate, is_first_alone, workers)
}

/// Runs a session for each script, from 1 to 64 of them, each on a thread of its own. Their log has room for `cap` words,
/// from 64 to 4,194,304. A script has at most 65,535 statements. The gate is called round each statement, on the session's
/// thread, with the number of the session and of the statement, from 1; it may wait. Where no thread can be made, sessions
/// run one after another, so gates that wait for one another may wait for ever. No clause is on the threads and on the gate.
///
/// The log has at most two words more than the sum of the bounds on the words of all statements.
///
/// # Errors
/// `Memory` where there is none for the log or for the lists of statements, replies and sessions. A statement that
/// wants memory is refused, and the run goes on.
pub fn serve<R: Threads + Wait + Sync, G: Gate + Sync>(
    rt: &R,
    alloc: Global,
    cap: u32,
    scripts: &[Text],
    gate: &G,
) -> Result<Transcript, Memory>
    requires least { 64 ≤ cap }
    requires most { cap ≤ 4194304 }
    requires some { 1 ≤ length scripts.now }
    requires most_scripts { length scripts.now ≤ 64 }
    requires few { All (λ script. length (texts script) ≤ 65535) scripts.now }
    ensures lawful { IfOk result (λ transcript. Lawful transcript cap) }
    ensures within { IfOk result (λ transcript. IsWithin transcript cap) }
    ensures scripts { IfOk result (λ transcript. map (λ s. s.script) transcript.sessions ≡ scripts.now) }
{
    serve_with(rt, alloc, cap, scripts, gate, 1)
}

/// Runs a session for each script as `serve` does, where so many workers decide the questions of a statement, from 1 to 16. No
/// clause is on their threads.
///
/// # Errors
/// As `serve` has them.
pub fn serve_with<R: Threads + Wait + Sync, G: Gate + Sync>(
    rt: &R,
    alloc: Global,
    cap: u32,
    scripts: &[Text],
    gate: &G,
    workers: u32,
) -> Result<Transcript, Memory>
    requires least { 64 ≤ cap }
    requires most { cap ≤ 4194304 }
    requires some { 1 ≤ length scripts.now }
    requires most_scripts { length scripts.now ≤ 64 }
    requires few { All (λ script. length (texts script) ≤ 65535) scripts.now }
    requires least_workers { 1 ≤ workers }
    requires most_workers { workers ≤ 16 }
    ensures lawful { IfOk result (λ transcript. Lawful transcript cap) }
    ensures within { IfOk result (λ transcript. IsWithin transcript cap) }
    ensures scripts { IfOk result (λ transcript. map (λ s. s.script) transcript.sessions ≡ scripts.now) }
{
    serve_by(rt, alloc, cap, scripts, gate, false, Workers::new(workers))
}
