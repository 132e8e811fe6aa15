// Sessions that run side by side: none waits for the end of another one's script, or of its statement.

use crate::tests::played::{ROOMY, served};
use ct_outside::{Gate, HoldGate};
use ct_transcript::{Reply, Transcript};
use ct_word::List;
use std::alloc::Global;
use std::process::Abort;
use std::sync::Wait;
use std::sync::atomic::{AtomicBool, AtomicU64, Ordering};
use std::test::Fail;
use std::thread;
use std::thread::Threads;

/// Pairs of statements, each a session and a number: the first of a pair is held until the second has ended.
const HELD: [((u32, u32), (u32, u32)); 2] = [((1, 1), (2, 1)), ((2, 2), (1, 1))];

/// Whether all replies are commits.
fn all_committed(transcript: &Transcript) -> bool {
    let mut logs = transcript.sessions.as_slice().iter();
    logs.all(|log| {
        let mut replies = log.replies.as_slice().iter();
        replies.all(|reply| matches!(reply, Reply::Committed { .. }))
    })
}

/// All statements of these scripts commit, and none that is held is let go before its turn.
fn commit_held(
    rt: &(impl Threads + Wait + Abort + Sync),
    alloc: Global,
    texts: &[&str],
) -> Result<(), Fail> {
    let holds = List::from_vec(Vec::from_array(alloc, HELD)?);
    let gate = HoldGate::make(alloc, holds)?;
    let transcript = served(rt, alloc, ROOMY, texts, &gate)?;
    assert!(rt; !gate.late(rt));
    assert!(rt; all_committed(&transcript) && transcript.history.as_slice().len() == 4);
    Ok(())
}

/// The first statement of session 1 waits for one of session 2, whose next statement waits for the first one of session 1.
/// So no session may wait for the other one's end.
#[test]
fn each_waits_for_the_other(rt: HostRuntime) -> Result<(), Fail> {
    let texts = [
        "create table a (x); create table b (x);",
        "create table c (x); create table d (x);",
    ];
    commit_held(&rt, rt.alloc(), &texts)
}

/// Holds session 2 until the question of session 1 has begun, and notes how many statements of session 2 ended before it.
#[derive(Drop)]
struct Noting {
    asked: AtomicBool,
    late: AtomicBool,
    ended: AtomicU64,
    before_the_answer: AtomicU64,
}

/// The number of the statement of session 1 that is the question.
const QUESTION: u32 = 3;

impl Noting {
    /// Looks until the question has begun, or lets the statement go.
    fn wait(&self) {
        for _ in 0..50_000_000u64 {
            if self.asked.load(Ordering::SeqCst) {
                return;
            }
            thread::yield_now();
        }
        self.late.store(true, Ordering::SeqCst);
    }
}

impl Gate for Noting {
    fn before<R: Wait>(&self, _: &R, session: u32, statement: u32) {
        if session == 2 && statement == 1 {
            self.wait();
        }
        if session == 1 && statement == QUESTION {
            self.asked.store(true, Ordering::SeqCst);
        }
    }

    fn after<R: Wait>(&self, _: &R, session: u32, statement: u32) {
        if session == 2 {
            self.ended.fetch_add(1, Ordering::SeqCst);
        }
        if session == 1 && statement == QUESTION {
            let ended = self.ended.load(Ordering::SeqCst);
            self.before_the_answer.store(ended, Ordering::SeqCst);
        }
    }
}

/// How often the scripts are run, at most, until one run has what is awaited.
const RUNS: u32 = 20;

/// How many statements of session 2, which begins as the question does, ended before the question was answered.
fn ended_during_the_question<R: Threads + Wait + Abort + Sync>(
    rt: &R,
    alloc: Global,
    texts: &[&str],
) -> Result<u64, Fail> {
    let gate = Noting {
        asked: AtomicBool::new(false),
        late: AtomicBool::new(false),
        ended: AtomicU64::new(0),
        before_the_answer: AtomicU64::new(0),
    };
    served(rt, alloc, ROOMY, texts, &gate)?;
    assert!(rt; !gate.late.load(Ordering::SeqCst));
    Ok(gate.before_the_answer.load(Ordering::SeqCst))
}

/// The question goes through a million pairs of rows, since no conjunct is an equality that could be looked up. In some run all
/// ten statements of session 2 end meanwhile: which runs those are the system's scheduler decides, and if statements waited for
/// the question there would be none.
#[test]
fn ten_statements_during_a_question(rt: HostRuntime) -> Result<(), Fail> {
    let texts = [
        "create table digit (n); insert into digit values (0), (1), (2), (3), (4), (5), (6), (7), (8), (9);
         select a.n from digit a, digit b, digit c, digit d, digit e, digit f where not a.n <> f.n;",
        "create table t (a); insert into t values (1); insert into t values (NULL); select * from t;
         assert ?x = 1; begin; insert into t values (?x); commit; certain select * from t; delete from t;",
    ];
    for _ in 0..RUNS {
        if ended_during_the_question(&rt, rt.alloc(), &texts)? == 10 {
            return Ok(());
        }
    }
    panic!(rt; "no run had ten statements during the question")
}
