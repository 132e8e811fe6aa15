// Writing lines, and how a run ends whose lines were written.

ghost use Rattle.std.specs.Prelude.{◌≡◌, ◌∷◌, [], OnOk, OnErr};
ghost use Rattle.std.specs.List.{list_any};
ghost use Rattle.ct_serve.specs.Sessions.{some_reply};
ghost use Rattle.ct_run.specs.Runs.{is_sought, IsOutcome, Taking, IsWritten, IsWriteFault, Printed, PrintedWhole};

use crate::ending::Status;
use ct_outside::{Failed, Sink, write_all};
use ct_serve::all_lines;
use ct_transcript::{Refusal, Reply, SessionLog, Transcript};
use ct_word::Text;
use std::alloc::Global;
use std::thread::Threads;

/// What is looked for among replies.
#[derive(Clone, Copy)]
pub(crate) enum Sought {
    Refusal,
    Memory,
}

pub(crate) fn is_sought(reply: &Reply, sought: Sought) -> bool
    ensures { result ≡ is_sought sought reply.now }
{
    match (reply, sought) {
        (Reply::Refused { .. }, Sought::Refusal) => true,
        (
            Reply::Refused {
                why: Refusal::Memory,
                ..
            },
            Sought::Memory,
        ) => true,
        _ => false,
    }
}

fn has_reply(log: &SessionLog, sought: Sought) -> bool
    ensures { result ≡ list_any (is_sought sought) log.now.replies }
{
    let mut replies = log.replies.as_slice().iter();
    replies.any(|reply| is_sought(reply, sought))
}

fn some_reply(logs: &[SessionLog], sought: Sought) -> bool
    ensures { result ≡ some_reply (is_sought sought) logs.now }
{
    logs.iter().any(|log| has_reply(log, sought))
}

/// How a run ends whose lines were written.
fn outcome(logs: &[SessionLog]) -> Status
    ensures { IsOutcome logs.now result }
{
    if some_reply(logs, Sought::Memory) {
        return Status::Memory;
    }
    if some_reply(logs, Sought::Refusal) {
        return Status::Refused;
    }
    Status::Done
}

/// Writes one text, with one call.
///
/// # Errors
/// `Failed` where the write failed; then a prefix of the text was taken.
pub(crate) fn write_once<K: Sink>(text: &[u8], out: &mut K) -> Result<(), Failed>
    ensures ok { OnOk result (IsWritten (record { faults = K.faults out.old; faults' = K.faults out.new; taken = K.taken out.old; taken' = K.taken out.new; calls = K.calls out.old; calls' = K.calls out.new }) (text.now ∷ [])) }
    ensures err { OnErr result (IsWriteFault (record { faults = K.faults out.old; faults' = K.faults out.new; taken = K.taken out.old; taken' = K.taken out.new; calls = K.calls out.old; calls' = K.calls out.new }) (text.now ∷ [])) }
{
    out.write(text)
}

/// Writes the lines of these sessions, with one call for each.
pub(crate) fn print<K: Sink>(lines: &[Text], logs: &[SessionLog], out: &mut K) -> Status
    ensures printed { Printed (record { faults = K.faults out.old; faults' = K.faults out.new; taken = K.taken out.old; taken' = K.taken out.new; calls = K.calls out.old; calls' = K.calls out.new }) lines.now logs.now result }
{
    match write_all(out, lines) {
        Ok(()) => outcome(logs),
        Err(_) => Status::WriteFault,
    }
}

/// Writes the lines of a transcript, which are made on threads, with one call for each.
pub(crate) fn print_transcript<R: Threads + Sync, K: Sink>(
    rt: &R,
    alloc: Global,
    transcript: &Transcript,
    out: &mut K,
) -> Status
    ensures printed { PrintedWhole (record { faults = K.faults out.old; faults' = K.faults out.new; taken = K.taken out.old; taken' = K.taken out.new; calls = K.calls out.old; calls' = K.calls out.new }) transcript.now result }
{
    let Ok(text) = all_lines(rt, alloc, transcript) else {
        return Status::Memory;
    };
    print(text.as_slice(), transcript.sessions.as_slice(), out)
}
