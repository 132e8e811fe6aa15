// Runs in memory whose statements have several workers.

use crate::tests::memory::{Ended, faultless, has_status, is_ended, run_with};
use ct_outside::NoGate;
use ct_run::Status;
use std::alloc::Global;
use std::process::Abort;
use std::sync::Wait;
use std::test::Fail;
use std::thread::Threads;

/// Each row is there in worlds of one kind. So the same world stands beside it, whoever decides.
const SCRIPT: &[u8] =
    b"create table t (a); insert into t values ('a text by which the log has more than 64 words') if ?x = 0;
      insert into t values (1) if ?x = 1; insert into t values (2) if ?x = 2; insert into t values (3) if ?x = 3;
      assert ?x = 1 or ?x = 2; possible select * from t; possible select * from t where a = 9;
      insert into t values (4) if ?x = 1; insert into t values (4) if ?x = 2; certain select * from t;
      certain select * from t where a = 9";

const WRITTEN: &str = "\
session 1
1 committed 1
2 committed 2
3 committed 3
4 committed 4
5 committed 5
6 committed 6
7 possible (a) at 6
  (1) in ?x = 1
  (2) in ?x = 2
8 possible (a) at 6
9 committed 7
10 committed 8
11 certain (a) at 8
  (4) absence refuted
12 certain (a) at 8
history
1 by 1
  create table t (a)
2 by 1
  insert into t ('a text by which the log has more than 64 words') if ?x = 0
3 by 1
  insert into t (1) if ?x = 1
4 by 1
  insert into t (2) if ?x = 2
5 by 1
  insert into t (3) if ?x = 3
6 by 1
  assert ?x = 1 or ?x = 2
7 by 1
  insert into t (4) if ?x = 1
8 by 1
  insert into t (4) if ?x = 2
end
";

/// Runs the script with so many workers on a log of this capacity.
fn run_by(
    rt: &(impl Threads + Wait + Abort + Sync),
    alloc: Global,
    workers: u32,
    capacity: usize,
) -> Result<Ended, Fail> {
    let words = format!(in alloc; "run --workers {workers} --arena {capacity} f")?;
    run_with(rt, alloc, words.as_str(), faultless(SCRIPT), &NoGate)
}

/// How many words the log of the script has where its statements have so many workers.
fn words_by(
    rt: &(impl Threads + Wait + Abort + Sync),
    alloc: Global,
    workers: u32,
) -> Result<usize, Fail> {
    let ended = run_by(rt, alloc, workers, 4_096)?;
    is_ended(rt, &ended, Status::Done, WRITTEN, WRITTEN.len());
    Ok(ended.words)
}

/// So many workers take more words than one, and find a log full that is large enough for one.
fn take_more(
    rt: &(impl Threads + Wait + Abort + Sync),
    alloc: Global,
    workers: u32,
    alone: usize,
) -> Result<(), Fail> {
    let words = words_by(rt, alloc, workers)?;
    assert!(rt; alone < words, "{words} words, and {alone} for one worker");
    let full = run_by(rt, alloc, workers, alone)?;
    has_status(rt, full.status, Status::Refused);
    Ok(())
}

/// One worker makes no word for a row that a known world shows. Several begin with the words of all questions. So the words tell
/// that the statements use their workers.
#[test]
fn statements_use_their_workers(rt: HostRuntime) -> Result<(), Fail> {
    let alone = words_by(&rt, rt.alloc(), 1)?;
    let enough = run_by(&rt, rt.alloc(), 1, alone)?;
    is_ended(&rt, &enough, Status::Done, WRITTEN, WRITTEN.len());
    for workers in [2, 3, 16] {
        take_more(&rt, rt.alloc(), workers, alone)?;
    }
    Ok(())
}
