// The command `prove`: the certificate of a reply.

ghost use Rattle.std.specs.Prelude.{◌≡◌, ◌≤◌, ◌∷◌, [], map, IfOk, option_map};
ghost use Rattle.ct_outside.specs.Outside.{AddedFront};
ghost use Rattle.ct_run.specs.Runs.{Asking, Taking};
ghost use Rattle.ct_run.specs.Certificates.{Certified, ProvePromise};
ghost use Rattle.ct_run.specs.Certificates as certificates;

use crate::ending::{Run, Status, no_run};
use crate::files::{served, status_of};
use crate::filling::CAPACITY;
use crate::printing::{Sought, is_sought, write_once};
use ct_cert::write_parts;
use ct_derivation::Proof;
use ct_outside::{Gate, Scripts, Sink};
use ct_statement::Workers;
use ct_transcript::{CertainRow, Refusal, Reply, Transcript};
use ct_word::Memory;
use std::alloc::Global;
use std::sync::Wait;
use std::thread::Threads;

/// The proofs of certain rows, in their order.
fn proofs_in<'a>(alloc: Global, rows: &'a [CertainRow]) -> Result<Vec<&'a Proof>, Memory>
    ensures { IfOk result (λ proofs. map (λ p. p.now) proofs.items ≡ map (λ r. r.proof) rows.now) }
{
    let mut proofs = Vec::new(alloc);
    for row in rows {
        proofs.push(&row.proof)?;
    }
    Ok(proofs)
}

/// The proofs that a reply carries, where there is one.
fn proofs_at<'a>(alloc: Global, reply: Option<&'a Reply>) -> Result<Vec<&'a Proof>, Memory>
    ensures { IfOk result (λ proofs. map (λ p. p.now) proofs.items ≡ certificates.proofs_at (option_map (λ r. r.now) reply.entry)) }
{
    match reply {
        Some(Reply::Certain { rows, .. }) => proofs_in(alloc, rows.as_slice()),
        Some(
            Reply::Refused {
                why: Refusal::Inconsistent { proof },
                ..
            },
        ) => {
            let mut proofs = Vec::new(alloc);
            proofs.push(proof)?;
            Ok(proofs)
        }
        _ => Ok(Vec::new(alloc)),
    }
}

/// Whether there is a reply, and it is want of memory.
fn is_memory(reply: Option<&Reply>) -> bool
    ensures { result ≡ certificates.is_memory_at (option_map (λ r. r.now) reply.entry) }
{
    match reply {
        None => false,
        Some(reply) => is_sought(reply, Sought::Memory),
    }
}

/// Reply `k` of the first session, counted from 1, where it is there.
fn reply_at(transcript: &Transcript, k: u32) -> Option<&Reply>
    requires { 1 ≤ k }
    ensures { option_map (λ r. r.now) result ≡ certificates.reply_at transcript.now k }
{
    let session = transcript.sessions.as_slice().get(0)?;
    session.replies.as_slice().get(k as usize - 1)
}

/// Writes the certificate of a transcript's words and of the proofs that reply `k` carries.
#[tactic(auto, unfolding(crate::specs::Certificates::certificate_of))]
fn print_certificate<K: Sink>(alloc: Global, k: u32, transcript: &Transcript, out: &mut K) -> Status
    requires { 1 ≤ k }
    ensures { Certified k (record { faults = K.faults out.old; faults' = K.faults out.new; taken = K.taken out.old; taken' = K.taken out.new; calls = K.calls out.old; calls' = K.calls out.new }) transcript.now result }
{
    let reply = reply_at(transcript, k);
    if is_memory(reply) {
        return Status::Memory;
    }
    let Ok(proofs) = proofs_at(alloc, reply) else {
        return Status::Memory;
    };
    let Ok(text) = write_parts(alloc, transcript.words.words(), proofs.as_slice()) else {
        return Status::Memory;
    };
    if write_once(text.as_slice(), out).is_err() {
        return Status::WriteFault;
    }
    if proofs.is_empty() {
        Status::Refused
    } else {
        Status::Done
    }
}

/// Runs the session of a file, on a log of 262,144 words, and writes the certificate of reply `k`.
pub(crate) fn prove<R: Threads + Wait + Sync, S: Scripts, K: Sink, G: Gate + Sync>(
    rt: &R,
    alloc: Global,
    k: u32,
    file: &str,
    scripts: &mut S,
    out: &mut K,
    gate: &G,
) -> Run
    requires { 1 ≤ k }
    ensures promise { ProvePromise k file.now (record { held = S.held scripts.old; faults = S.faults scripts.old; faults' = S.faults scripts.new; asked = S.names scripts.old; asked' = S.names scripts.new }) (record { faults = K.faults out.old; faults' = K.faults out.new; taken = K.taken out.old; taken' = K.taken out.new; calls = K.calls out.old; calls' = K.calls out.new }) result.status result.transcript }
    ensures names { AddedFront (S.names scripts.old) (S.names scripts.new) (file.now ∷ []) }
{
    let one = Workers::new(1);
    let transcript = match served(rt, alloc, CAPACITY, &[file], false, one, scripts, gate) {
        Ok(transcript) => transcript,
        Err(e) => return no_run(alloc, status_of(e)),
    };
    let status = print_certificate(alloc, k, &transcript, out);
    Run { status, transcript }
}
