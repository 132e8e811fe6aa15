// A log of 64 words that is full after one statement or another, by the letters of a text.

use crate::tests::played::{ROOMY, served};
use ct_outside::NoGate;
use ct_transcript::{Refusal, Reply, Transcript};
use std::alloc::{AllocError, Global};
use std::process::Abort;
use std::sync::Wait;
use std::test::Fail;
use std::thread::Threads;

/// The first statements of a creation, an insertion of a text of so many letters, one of a null, and a query.
fn script_of(alloc: Global, letters: usize, statements: usize) -> Result<String, AllocError> {
    let text = "x".repeat(alloc, letters)?;
    let insertion = format!(in alloc; "insert into t values ('{text}');")?;
    let all = [
        "create table t (a);",
        insertion.as_str(),
        "insert into t values (?y);",
        "select * from t where a = 2;",
    ];
    let mut script = String::new(alloc);
    for statement in all.iter().take(statements) {
        script.push_str(statement)?;
    }
    Ok(script)
}

/// How many words the log has after so many of the statements.
fn has_length(
    rt: &(impl Threads + Wait + Abort + Sync),
    alloc: Global,
    letters: usize,
    statements: usize,
    wanted: usize,
) -> Result<(), Fail> {
    let script = script_of(alloc, letters, statements)?;
    let transcript = served(rt, alloc, ROOMY, &[script.as_str()], &NoGate)?;
    assert_eq!(rt;
        transcript.words.words().len(),
        wanted,
        "{letters} letters, {statements} statements"
    );
    Ok(())
}

#[test]
fn words_of_each_statement(rt: HostRuntime) -> Result<(), Fail> {
    for letters in 0..=50usize {
        has_length(&rt, rt.alloc(), letters, 1, 11)?;
        has_length(&rt, rt.alloc(), letters, 2, letters.saturating_add(20))?;
        has_length(&rt, rt.alloc(), letters, 3, letters.saturating_add(28))?;
        has_length(&rt, rt.alloc(), letters, 4, letters.saturating_add(31))?;
    }
    Ok(())
}

/// What is answered from the second statement on to a text of these numbers of letters, on a log of 64 words. Where the
/// second one has filled the log, whether the query finds no row or no word is not looked at.
const ANSWERED: [(usize, usize, &[&str]); 4] = [
    (0, 34, &["committed 2", "committed 3", "rows at 3"]),
    (34, 37, &["committed 2", "committed 3", "refused Full"]),
    (37, 45, &["committed 2", "refused Full", "refused Full"]),
    (45, 51, &["refused Full", "refused Full"]),
];

/// What a reply says, of what is looked at here.
fn said(reply: &Reply) -> &'static str {
    match reply {
        Reply::Committed { at: 2 } => "committed 2",
        Reply::Committed { at: 3 } => "committed 3",
        Reply::Rows { at: 3, .. } => "rows at 3",
        Reply::Refused {
            why: Refusal::Full,
            ..
        } => "refused Full",
        _ => "another reply",
    }
}

/// The replies from the second one on say this.
fn is_answered(rt: &impl Abort, transcript: &Transcript, letters: usize, wanted: &[&str]) {
    for log in transcript.sessions.as_slice() {
        assert_eq!(rt; log.replies.as_slice().len(), 4);
        for (reply, wanted) in log.replies.as_slice().iter().skip(1).zip(wanted) {
            assert_eq!(rt; said(reply), *wanted, "{letters} letters");
        }
    }
}

/// A log of 64 words is full where a reply says so, and else as long as a larger one is.
fn fills(
    rt: &(impl Threads + Wait + Abort + Sync),
    alloc: Global,
    letters: usize,
    wanted: &[&str],
) -> Result<(), Fail> {
    let script = script_of(alloc, letters, 4)?;
    let transcript = served(rt, alloc, 64, &[script.as_str()], &NoGate)?;
    is_answered(rt, &transcript, letters, wanted);
    let length = letters.saturating_add(31).min(64);
    assert_eq!(rt; transcript.words.words().len(), length, "{letters} letters");
    Ok(())
}

#[test]
fn a_log_that_a_text_fills(rt: HostRuntime) -> Result<(), Fail> {
    for (from, to, wanted) in ANSWERED {
        for letters in from..to {
            fills(&rt, rt.alloc(), letters, wanted)?;
        }
    }
    Ok(())
}
