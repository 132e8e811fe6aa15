// Runs in memory of `export`: a script, and a table after it in CSV.

use crate::tests::memory::{Given, ends, faultless};
use ct_run::Status;
use std::alloc::Global;
use std::process::Abort;
use std::sync::Wait;
use std::test::Fail;
use std::thread::Threads;

/// A script, and the file of its table `t`.
const FILES: [(&[u8], &str); 6] = [
    (
        b"create table t (a); insert into t values (1), (2); delete from t where a = ?x;",
        "a,if\n1,?x <> 1\n2,?x <> 2\n",
    ),
    (
        b"create table t (a); insert into t values (NULL), (?n_1);",
        "a,if\n?n__1_1,\n?n_1,\n",
    ),
    (b"create table t (a, b)", "a,b,if\n"),
    // No world has the row, and a refused statement changes nothing.
    (
        b"create table t (a); insert into t values ('x,\"') if ?x = 1; assert ?x = 2; select b from t",
        "a,if\n\"'x,\"\"'\",?x = 1\n",
    ),
    // What an open transaction has done is not there.
    (
        b"create table t (a); begin; insert into t values (1)",
        "a,if\n",
    ),
    (
        b"create table t (a); insert into t values (1), ('it''s') if ?x = 1 or ?y <> 'a'",
        "a,if\n1,?x = 1 or ?y <> 'a'\n'it''s',?x = 1 or ?y <> 'a'\n",
    ),
];

#[test]
fn files_of_tables(rt: HostRuntime) -> Result<(), Fail> {
    for (script, written) in FILES {
        let given = faultless(script);
        ends(&rt, rt.alloc(), "export T f", given, Status::Done, written)?;
    }
    Ok(())
}

/// An export of the first file of `FILES` to a sink that takes so many of its bytes, and then fails.
fn write_fails(
    rt: &(impl Threads + Wait + Abort + Sync),
    alloc: Global,
    taken: usize,
) -> Result<(), Fail> {
    let [(script, file), ..] = FILES;
    let given = Given {
        script,
        reads: &[],
        writes: &[(1, u32::try_from(taken).unwrap_or(u32::MAX))],
    };
    let written = file.get(..taken).unwrap_or("");
    ends(rt, alloc, "export t f", given, Status::WriteFault, written)
}

#[test]
fn a_write_fails_after_each_byte(rt: HostRuntime) -> Result<(), Fail> {
    for taken in 0..26usize {
        write_fails(&rt, rt.alloc(), taken)?;
    }
    Ok(())
}

/// Scripts after which there is no table `t`.
const NO_TABLES: [&[u8]; 4] = [
    b"",
    b"create table u (a)",
    b"begin; create table t (a)",
    b"create table t (a, a)",
];

#[test]
fn no_tables_are_exported(rt: HostRuntime) -> Result<(), Fail> {
    for script in NO_TABLES {
        let given = faultless(script);
        ends(&rt, rt.alloc(), "export t f", given, Status::Refused, "")?;
    }
    Ok(())
}

/// Words, the reads and the writes that fail, how an export of a table without rows ends, and what it writes.
type Run = (
    &'static str,
    &'static [u64],
    &'static [(u64, u32)],
    Status,
    &'static str,
);

const RUNS: [Run; 8] = [
    ("export t f", &[], &[], Status::Done, "a,if\n"),
    ("export t f", &[], &[(2, 0)], Status::Done, "a,if\n"),
    ("export t f", &[2], &[], Status::Done, "a,if\n"),
    ("export t f", &[1], &[], Status::ReadFault, ""),
    ("export t g", &[], &[], Status::ReadFault, ""),
    ("export t", &[], &[], Status::Words, ""),
    ("export t f f", &[], &[], Status::Words, ""),
    ("export 1a f", &[], &[], Status::Words, ""),
];

#[test]
fn exports_end(rt: HostRuntime) -> Result<(), Fail> {
    for (words, reads, writes, status, written) in RUNS {
        let given = Given {
            script: b"create table t (a)",
            reads,
            writes,
        };
        ends(&rt, rt.alloc(), words, given, status, written)?;
    }
    let no_text = faultless(b"\xff");
    ends(&rt, rt.alloc(), "export t f", no_text, Status::Script, "")
}
