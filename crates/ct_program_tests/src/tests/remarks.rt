// What is said of refusals that come of several sessions, and of want of memory.

use crate::tests::played::{ROOMY, ordered};
use ct_arena::Log;
use ct_remarks::{notes, remarks};
use ct_transcript::{Refusal, Reply, SessionLog, Transcript};
use ct_word::{List, Memory, Text};
use std::alloc::Global;
use std::process::Abort;
use std::test::Fail;

/// The names of the files.
const NAMES: [&str; 2] = ["one.sql", "two.sql"];

/// Appends lines, each with its end.
fn push_lines(text: &mut String, lines: &[Text]) -> Result<(), Memory> {
    for line in lines {
        text.push_str(line.as_str())?;
        text.push_str("\n")?;
    }
    Ok(())
}

/// The remarks and the notes on a transcript are these.
fn are_said(
    rt: &impl Abort,
    alloc: Global,
    transcript: &Transcript,
    names: &[&str],
    wanted: &str,
) -> Result<(), Fail> {
    let mut text = String::new(alloc);
    push_lines(&mut text, remarks(alloc, transcript, names)?.as_slice())?;
    push_lines(&mut text, notes(alloc, transcript, names)?.as_slice())?;
    assert_eq!(rt; text.as_str(), wanted);
    Ok(())
}

/// A transaction that conflicts on a table, and one that conflicts on what is asserted. Behind them the transaction is over.
#[test]
fn conflicts_name_the_commit(rt: HostRuntime) -> Result<(), Fail> {
    let scripts = [
        "create table t (a);\nbegin;\nselect * from t;\ncreate table u (a);\ncommit;\ncommit",
        "insert into t values (5);\nbegin;\nassert ?x = 1;\ncommit;\nassert ?x = 2;",
    ];
    let order = "1 1 1 1 2 1 1 2 2 2 2";
    let transcript = ordered(&rt, rt.alloc(), ROOMY, &scripts, order)?;
    let wanted =
        "one.sql:5:1: statement 5 refused Conflict: commit 2 has changed t; the transaction of statement 2 is \
        over: begin again: commit\none.sql:6:1: statement 6 refused NoTransaction: no transaction is open: write BEGIN \
        first: commit\ntwo.sql:5:1: statement 5 refused Inconsistent: no values satisfy it with what was asserted before, \
        in commit 3: assert ?x = 2\n";
    are_said(&rt, rt.alloc(), &transcript, &NAMES, wanted)
}

#[test]
fn conflicts_name_an_assertion(rt: HostRuntime) -> Result<(), Fail> {
    let scripts = [
        "begin; assert ?x = 1; commit",
        "begin; assert ?y = 2; commit; begin; assert ?y = 2",
    ];
    let transcript = ordered(&rt, rt.alloc(), ROOMY, &scripts, "1 2 1 2 1 2 2 2")?;
    let wanted =
        "two.sql:1:23: statement 3 refused Conflict: commit 1 has made an assertion; the transaction of \
        statement 1 is over: begin again: commit\ntwo.sql:1: note: the file ends within the transaction that begins here: \
        its changes are given up\n";
    are_said(&rt, rt.alloc(), &transcript, &NAMES, wanted)
}

/// A transcript of one session that was answered so.
fn answered(alloc: Global, script: &str, replies: Vec<Reply>) -> Result<Transcript, Memory> {
    let log = SessionLog {
        script: Text::from_str(alloc, script)?,
        replies: List::from_vec(replies),
    };
    let mut sessions = Vec::new(alloc);
    sessions.push(log)?;
    Ok(Transcript {
        sessions: List::from_vec(sessions),
        history: List::new(alloc),
        words: Log::empty(alloc),
    })
}

/// Want of memory comes as it comes, so its reply is made here. A session without a name has its number.
#[test]
fn memory_is_named(rt: HostRuntime) -> Result<(), Fail> {
    let alloc = rt.alloc();
    let mut replies = Vec::new(alloc);
    replies.push(Reply::Committed { at: 1 })?;
    replies.push(Reply::Refused {
        at: 1,
        why: Refusal::Memory,
    })?;
    let transcript = answered(alloc, "create table t (a); select * from t", replies)?;
    let wanted =
        "session 1:1:21: statement 2 refused Memory: give the program more memory, or run fewer files at once: \
        select * from t\n";
    are_said(&rt, alloc, &transcript, &[], wanted)
}
