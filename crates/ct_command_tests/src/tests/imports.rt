// Runs in memory of `import`: a table in CSV, and a script behind it.

use crate::tests::memory::{file, is_ended, run_on, sink, words_of};
use ct_outside::{MemScripts, NoGate};
use ct_run::Status;
use ct_word::{List, Memory};
use std::alloc::Global;
use std::process::Abort;
use std::sync::Wait;
use std::test::Fail;
use std::thread::Threads;

/// A table, and what a query of it writes.
const TABLE: &[u8] = b"a,if\n1,?x <> 1\n2,?x <> 2\n";

const QUERY: &[u8] = b"select * from t;";

const WRITTEN: &str = "session 1
1 committed 1
2 committed 2
3 committed 3
4 rows (a) at 3
  (1) if ?x <> 1
  (2) if ?x <> 2
history
1 by 1
  create table t (a)
2 by 1
  insert into t (1) if ?x <> 1
3 by 1
  insert into t (2) if ?x <> 2
end
";

/// The files `t` and `f`, and reads that fail.
fn source(alloc: Global, table: &[u8], script: &[u8], fails: &[u64]) -> Result<MemScripts, Memory> {
    let fails = List::from_vec(Vec::from_slice(alloc, fails)?);
    let files = [file(alloc, "t", table)?, file(alloc, "f", script)?];
    let held = List::from_vec(Vec::from_array(alloc, files)?);
    Ok(MemScripts::make(alloc, held, fails))
}

/// A table, a script, and the numbers of the reads that fail, and of the writes, each after so many bytes.
#[derive(Clone, Copy)]
struct Files<'a> {
    table: &'a [u8],
    script: &'a [u8],
    reads: &'a [u64],
    writes: &'a [(u64, u32)],
}

/// Files where nothing fails.
fn faultless<'a>(table: &'a [u8], script: &'a [u8]) -> Files<'a> {
    Files {
        table,
        script,
        reads: &[],
        writes: &[],
    }
}

/// A run of these words has this status, and writes this.
fn ends<R: Threads + Wait + Abort + Sync>(
    rt: &R,
    alloc: Global,
    words: &str,
    files: Files<'_>,
    status: Status,
    written: &str,
) -> Result<(), Fail> {
    let words = words_of(alloc, words)?;
    let scripts = source(alloc, files.table, files.script, files.reads)?;
    let out = sink(alloc, files.writes)?;
    let ended = run_on(rt, alloc, words.as_slice(), scripts, out, &NoGate);
    is_ended(rt, &ended, status, written, written.len());
    Ok(())
}

/// Words, and how an import of the table ends.
const WORDS: [(&str, Status); 12] = [
    ("import t t f", Status::Done),
    ("import T t f", Status::Done),
    ("import -- t t f", Status::Done),
    ("import", Status::Words),
    ("import t t", Status::Words),
    ("import t t f f", Status::Words),
    ("import select t f", Status::Words),
    ("import a-b t f", Status::Words),
    ("import 1a t f", Status::Words),
    ("import t g f", Status::ReadFault),
    ("import t t g", Status::ReadFault),
    ("import t g g", Status::ReadFault),
];

#[test]
fn words_of_an_import(rt: HostRuntime) -> Result<(), Fail> {
    for (words, status) in WORDS {
        let written = if status == Status::Done { WRITTEN } else { "" };
        let files = faultless(TABLE, QUERY);
        ends(&rt, rt.alloc(), words, files, status, written)?;
    }
    Ok(())
}

#[test]
fn faults_around_an_import(rt: HostRuntime) -> Result<(), Fail> {
    let files = faultless(TABLE, QUERY);
    let words = "import t t f";
    for reads in [&[1], &[2]] {
        let files = Files { reads, ..files };
        ends(&rt, rt.alloc(), words, files, Status::ReadFault, "")?;
    }
    let writes = &[(2, 3)];
    let files = Files { writes, ..files };
    let fault = Status::WriteFault;
    ends(&rt, rt.alloc(), words, files, fault, "session 1\n1 c")
}

/// Bytes that are no table.
const NO_TABLES: [&[u8]; 8] = [
    b"",
    b"if\n",
    b"a,b\n",
    b"select,if\n",
    b"a,if\nabc,\n",
    b"a,if\n1,a = 1\n",
    b"a,if\n1\n",
    b"a,if\n'\xff',\n",
];

#[test]
fn no_tables_are_imported(rt: HostRuntime) -> Result<(), Fail> {
    for table in NO_TABLES {
        // It is at fault before the other file is read.
        for words in ["import t t f", "import t t g"] {
            let files = faultless(table, QUERY);
            ends(&rt, rt.alloc(), words, files, Status::Script, "")?;
        }
    }
    Ok(())
}

/// That a text behind a table is no script.
fn is_no_script<R: Threads + Wait + Abort + Sync>(
    rt: &R,
    alloc: Global,
    script: &[u8],
) -> Result<(), Fail> {
    let files = faultless(TABLE, script);
    ends(rt, alloc, "import t t f", files, Status::Script, "")
}

#[test]
fn no_scripts_are_run_behind_a_table(rt: HostRuntime) -> Result<(), Fail> {
    let blanks = " ".repeat(rt.alloc(), 1_048_577)?;
    let longest = blanks.as_bytes();
    let long = " ".repeat(rt.alloc(), 1_048_576)?;
    let most = "x;".repeat(rt.alloc(), 65_533)?;
    is_no_script(&rt, rt.alloc(), b"\xff")?;
    is_no_script(&rt, rt.alloc(), longest)?;
    is_no_script(&rt, rt.alloc(), long.as_bytes())?;
    is_no_script(&rt, rt.alloc(), most.as_bytes())?;
    let files = faultless(longest, QUERY);
    ends(&rt, rt.alloc(), "import t t f", files, Status::Script, "")
}

#[test]
fn a_refusal_behind_a_table(rt: HostRuntime) -> Result<(), Fail> {
    let files = faultless(b"a,if\n", b"select b from t;");
    let written =
        "session 1\n1 committed 1\n2 refused UnknownColumn\nhistory\n1 by 1\n  create table t (a)\nend\n";
    let ended = Status::Refused;
    ends(&rt, rt.alloc(), "import t t f", files, ended, written)
}
