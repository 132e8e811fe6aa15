// Faults of sources and sinks, and the gate round each statement.

use crate::tests::memory::{Given, ends, faultless, run_with};
use ct_outside::Gate;
use ct_run::Status;
use std::alloc::Global;
use std::process::Abort;
use std::sync::Wait;
use std::sync::atomic::{AtomicU64, Ordering};
use std::test::Fail;
use std::thread::Threads;

/// What the empty script writes.
pub const EMPTY: &str = "session 1\nhistory\nend\n";

/// What the empty script writes where it is named twice.
const TWO: &str = "session 1\nsession 2\nhistory\nend\n";

/// Words, the reads and the writes that fail, how a run of an empty file `f` ends, and what it writes.
type Run = (
    &'static str,
    &'static [u64],
    &'static [(u64, u32)],
    Status,
    &'static str,
);

/// Runs of an empty script, words that are not understood, files that are not there, and reads and writes that fail.
const RUNS: [Run; 19] = [
    ("run f", &[], &[], Status::Done, EMPTY),
    ("run --arena 64 f", &[], &[], Status::Done, EMPTY),
    ("run f f", &[], &[], Status::Done, TWO),
    ("run --first f", &[], &[], Status::Done, EMPTY),
    ("run --first f f", &[], &[], Status::Done, TWO),
    ("run --workers 4 f", &[], &[], Status::Done, EMPTY),
    ("run f f --workers 16", &[], &[], Status::Done, TWO),
    ("", &[], &[], Status::Words, ""),
    ("run", &[], &[], Status::Words, ""),
    ("run --arena 63 f", &[], &[], Status::Words, ""),
    ("run --workers 0 f", &[], &[], Status::Words, ""),
    ("run --workers 17 f", &[], &[], Status::Words, ""),
    ("run g", &[], &[], Status::ReadFault, ""),
    ("run f g", &[], &[], Status::ReadFault, ""),
    ("run f", &[1], &[], Status::ReadFault, ""),
    ("run f f", &[2], &[], Status::ReadFault, ""),
    ("run --first f f", &[2], &[], Status::ReadFault, ""),
    ("run f", &[], &[(2, 0)], Status::WriteFault, "session 1\n"),
    (
        "run f",
        &[],
        &[(2, 3)],
        Status::WriteFault,
        "session 1\nhis",
    ),
];

#[test]
fn runs_end(rt: HostRuntime) -> Result<(), Fail> {
    for (words, reads, writes, status, written) in RUNS {
        let given = Given {
            script: b"",
            reads,
            writes,
        };
        ends(&rt, rt.alloc(), words, given, status, written)?;
    }
    Ok(())
}

/// How a run of so many words ends, each of which is `run`.
fn many_words_end(
    rt: &(impl Threads + Wait + Abort + Sync),
    alloc: Global,
    count: usize,
    status: Status,
) -> Result<(), Fail> {
    let words = "run ".repeat(alloc, count)?;
    ends(rt, alloc, words.as_str(), faultless(b""), status, "")
}

#[test]
fn sixty_four_files_are_the_most(rt: HostRuntime) -> Result<(), Fail> {
    many_words_end(&rt, rt.alloc(), 66, Status::Words)?;
    many_words_end(&rt, rt.alloc(), 65, Status::ReadFault)
}

/// What a script writes that is run twice, the second time after the first one's end.
const IN_TURN: &str = "\
session 1
1 committed 1
2 committed 2
session 2
1 refused TableExists
2 committed 3
history
1 by 1
  create table t (a)
2 by 1
  insert into t (1)
3 by 2
  insert into t (1)
end
";

#[test]
fn the_first_file_comes_to_its_end_first(rt: HostRuntime) -> Result<(), Fail> {
    let given = faultless(b"create table t (a); insert into t values (1)");
    for _ in 0..100 {
        let words = "run --first f f";
        ends(&rt, rt.alloc(), words, given, Status::Refused, IN_TURN)?;
    }
    Ok(())
}

/// Counts its calls, and how many of them did not come in their order.
#[derive(Drop)]
struct Counting {
    calls: AtomicU64,
    astray: AtomicU64,
}

impl Counting {
    /// A call of session 1 has this many calls before it.
    fn count(&self, session: u32, before: u64) {
        if session != 1 || self.calls.fetch_add(1, Ordering::SeqCst) != before {
            self.astray.fetch_add(1, Ordering::SeqCst);
        }
    }
}

impl Gate for Counting {
    fn before<R: Wait>(&self, _: &R, session: u32, statement: u32) {
        self.count(session, (2 * u64::from(statement)).saturating_sub(2));
    }

    fn after<R: Wait>(&self, _: &R, session: u32, statement: u32) {
        self.count(session, (2 * u64::from(statement)).saturating_sub(1));
    }
}

/// How many lines these bytes have.
fn lines_in(bytes: &[u8]) -> usize {
    bytes.iter().filter(|byte| **byte == b'\n').count()
}

/// A run under this gate has a line for each of 65,535 statements, none of which is one.
fn run_under<R: Threads + Wait + Abort + Sync>(
    rt: &R,
    alloc: Global,
    gate: &Counting,
) -> Result<(), Fail> {
    let script = "x;".repeat(alloc, 65_535)?;
    let ended = run_with(rt, alloc, "run f", faultless(script.as_bytes()), gate)?;
    assert!(rt; ended.status == Status::Refused && lines_in(ended.out.bytes()) == 65_538);
    Ok(())
}

/// Runs as many statements as a script may have.
fn run_gated(rt: &(impl Threads + Wait + Abort + Sync), alloc: Global) -> Result<(), Fail> {
    let gate = Counting {
        calls: AtomicU64::new(0),
        astray: AtomicU64::new(0),
    };
    run_under(rt, alloc, &gate)?;
    assert!(rt; gate.calls.load(Ordering::SeqCst) == 131_070);
    assert!(rt; gate.astray.load(Ordering::SeqCst) == 0);
    Ok(())
}

#[test]
fn the_greatest_script_with_its_gate(rt: HostRuntime) -> Result<(), Fail> {
    run_gated(&rt, rt.alloc())
}
