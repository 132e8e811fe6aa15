// A sink that fails at each line of a run in turn, and a source that fails at each of three files.

use crate::tests::memory::{Given, ends};
use ct_run::Status;
use std::alloc::{AllocError, Global};
use std::process::Abort;
use std::sync::Wait;
use std::test::Fail;
use std::thread::Threads;

const SCRIPT: &str =
    "create table t (a,b); insert into t values (1,?x); select * from t where b = 2";

/// What a run of it writes, line by line.
const LINES: [&str; 11] = [
    "session 1\n",
    "1 committed 1\n",
    "2 committed 2\n",
    "3 rows (a, b) at 2\n",
    "  (1, ?x) if ?x = 2\n",
    "history\n",
    "1 by 1\n",
    "  create table t (a, b)\n",
    "2 by 1\n",
    "  insert into t (1, ?x)\n",
    "end\n",
];

/// The first lines, and of the next one so many bytes.
fn front(alloc: Global, lines: usize, bytes: usize) -> Result<String, AllocError> {
    let mut text = String::new(alloc);
    for line in LINES.iter().take(lines) {
        text.push_str(line)?;
    }
    if let Some(line) = LINES.get(lines) {
        text.push_str(line.get(..bytes).unwrap_or(""))?;
    }
    Ok(text)
}

/// How a run of the script ends, and what it writes, where the write of this number fails after so many bytes.
fn write_fails(
    rt: &(impl Threads + Wait + Abort + Sync),
    alloc: Global,
    fails: (u64, u32),
    status: Status,
    written: &str,
) -> Result<(), Fail> {
    let given = Given {
        script: SCRIPT.as_bytes(),
        reads: &[],
        writes: &[fails],
    };
    ends(rt, alloc, "run f", given, status, written)
}

/// The write of the line after so many lines fails after no byte, one, and two.
fn line_fails(
    rt: &(impl Threads + Wait + Abort + Sync),
    alloc: Global,
    lines: usize,
) -> Result<(), Fail> {
    let write = u64::try_from(lines).unwrap_or(0).saturating_add(1);
    for bytes in 0..3u32 {
        let written = front(alloc, lines, usize::try_from(bytes).unwrap_or(0))?;
        write_fails(
            rt,
            alloc,
            (write, bytes),
            Status::WriteFault,
            written.as_str(),
        )?;
    }
    Ok(())
}

#[test]
fn each_write_fails(rt: HostRuntime) -> Result<(), Fail> {
    for lines in 0..LINES.len() {
        line_fails(&rt, rt.alloc(), lines)?;
    }
    Ok(())
}

/// A write that would fail after the last one is never made.
#[test]
fn no_write_fails(rt: HostRuntime) -> Result<(), Fail> {
    let written = front(rt.alloc(), LINES.len(), 0)?;
    write_fails(&rt, rt.alloc(), (12, 0), Status::Done, written.as_str())
}

/// The files, what each holds, the read that fails, and how the run ends: by the first fault that it comes to.
const READS: [(&str, &[u8], u64, Status); 6] = [
    ("run f f f", b"", 1, Status::ReadFault),
    ("run f f f", b"", 2, Status::ReadFault),
    ("run f f f", b"", 3, Status::ReadFault),
    ("run f f", b"\xff", 1, Status::ReadFault),
    ("run f f", b"\xff", 2, Status::Script),
    ("run f g", b"\xff", 2, Status::Script),
];

#[test]
fn each_read_fails(rt: HostRuntime) -> Result<(), Fail> {
    for (words, script, read, status) in READS {
        let given = Given {
            script,
            reads: &[read],
            writes: &[],
        };
        ends(&rt, rt.alloc(), words, given, status, "")?;
    }
    Ok(())
}
