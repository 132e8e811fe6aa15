// Runs in memory. No function here says anything of what it answers: each test would carry along all that a run promises,
// and take minutes to prove. For the same reason what is owned is owned by few, and compared where it is borrowed.

use ct_outside::{Gate, MemScripts, MemSink, NoGate};
use ct_run::{Status, run};
use ct_word::{List, Memory, Text};
use std::alloc::{AllocError, Global};
use std::process::Abort;
use std::sync::Wait;
use std::test::Fail;
use std::thread::Threads;

/// What a run has beside its words: the bytes of the file `f`, the numbers of the reads that fail, and those of the
/// writes that fail, each after so many bytes.
#[derive(Clone, Copy)]
pub struct Given<'a> {
    pub script: &'a [u8],
    pub reads: &'a [u64],
    pub writes: &'a [(u64, u32)],
}

/// A file `f` of these bytes, where nothing fails.
pub fn faultless(script: &[u8]) -> Given<'_> {
    Given {
        script,
        reads: &[],
        writes: &[],
    }
}

/// How a run ended: with so many sessions, with a log of so many words, and with what is written.
#[derive(Drop)]
pub struct Ended {
    pub status: Status,
    pub sessions: usize,
    pub words: usize,
    pub out: MemSink,
}

/// The words of a text, between blanks.
pub fn words_of(alloc: Global, text: &str) -> Result<Vec<&str>, AllocError> {
    let mut words = Vec::new(alloc);
    for word in text.split_whitespace() {
        words.push(word)?;
    }
    Ok(words)
}

/// The file of this name.
pub fn file(alloc: Global, name: &str, script: &[u8]) -> Result<(Text, List<u8>), Memory> {
    let bytes = Vec::from_slice(alloc, script)?;
    Ok((Text::from_str(alloc, name)?, List::from_vec(bytes)))
}

/// The file `f`, and reads that fail.
fn source(alloc: Global, script: &[u8], fails: &[u64]) -> Result<MemScripts, Memory> {
    let fails = List::from_vec(Vec::from_slice(alloc, fails)?);
    let held = List::from_vec(Vec::from_array(alloc, [file(alloc, "f", script)?])?);
    Ok(MemScripts::make(alloc, held, fails))
}

/// A sink, and writes that fail.
pub fn sink(alloc: Global, fails: &[(u64, u32)]) -> Result<MemSink, AllocError> {
    let fails = List::from_vec(Vec::from_slice(alloc, fails)?);
    Ok(MemSink::make(alloc, fails))
}

/// Runs these words.
pub fn run_on<R: Threads + Wait + Sync, G: Gate + Sync>(
    rt: &R,
    alloc: Global,
    words: &[&str],
    mut scripts: MemScripts,
    mut out: MemSink,
    gate: &G,
) -> Ended {
    let ended = run(rt, alloc, words, &mut scripts, &mut out, gate);
    Ended {
        status: ended.status,
        sessions: ended.transcript.sessions.len(),
        words: ended.transcript.words.words().len(),
        out,
    }
}

/// Runs the words of this text, with this gate.
pub fn run_with<R: Threads + Wait + Sync, G: Gate + Sync>(
    rt: &R,
    alloc: Global,
    words: &str,
    given: Given<'_>,
    gate: &G,
) -> Result<Ended, Fail> {
    let words = words_of(alloc, words)?;
    let scripts = source(alloc, given.script, given.reads)?;
    let out = sink(alloc, given.writes)?;
    Ok(run_on(rt, alloc, words.as_slice(), scripts, out, gate))
}

/// A run has this status.
pub fn has_status(rt: &impl Abort, status: Status, wanted: Status) {
    assert_eq!(rt; status, wanted);
}

/// A run has this status, and wrote so many bytes, with which this text begins.
pub fn is_ended(rt: &impl Abort, ended: &Ended, status: Status, text: &str, length: usize) {
    has_status(rt, ended.status, status);
    assert_eq!(rt; ended.out.bytes().len(), length);
    assert!(rt; text.as_bytes().starts_with(ended.out.bytes()));
}

/// A run of these words has this status, and writes this.
pub fn ends<R: Threads + Wait + Abort + Sync>(
    rt: &R,
    alloc: Global,
    words: &str,
    given: Given<'_>,
    status: Status,
    written: &str,
) -> Result<(), Fail> {
    let ended = run_with(rt, alloc, words, given, &NoGate)?;
    is_ended(rt, &ended, status, written, written.len());
    Ok(())
}
