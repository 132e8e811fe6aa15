// Runs in memory whose words name the capacity of the log, and scripts that are none.

use crate::tests::memory::{ends, faultless, is_ended, run_with};
use crate::tests::runs::EMPTY;
use ct_outside::NoGate;
use ct_run::Status;
use std::alloc::{AllocError, Global};
use std::process::Abort;
use std::sync::Wait;
use std::test::Fail;
use std::thread::Threads;

/// A table, a text of 80 letters, which a log of 64 words has no room for, a query and one more row.
const WITH_A_LONG_TEXT: &str = "create table t (a); \
    insert into t values ('xxxxxxxxxxxxxxxxxxxxxxxxxxxxxxxxxxxxxxxxxxxxxxxxxxxxxxxxxxxxxxxxxxxxxxxxxxxxxxxx'); \
    select * from t; insert into t values (1);";

/// What that script writes where the log has no room for the text.
const REFUSED: &str = "\
session 1
1 committed 1
2 refused Full
3 rows (a) at 1
4 refused Full
history
1 by 1
  create table t (a)
end
";

/// What it writes where there is room.
const COMMITTED: &str = "\
session 1
1 committed 1
2 committed 2
3 rows (a) at 2
  ('xxxxxxxxxxxxxxxxxxxxxxxxxxxxxxxxxxxxxxxxxxxxxxxxxxxxxxxxxxxxxxxxxxxxxxxxxxxxxxxx')
4 committed 3
history
1 by 1
  create table t (a)
2 by 1
  insert into t ('xxxxxxxxxxxxxxxxxxxxxxxxxxxxxxxxxxxxxxxxxxxxxxxxxxxxxxxxxxxxxxxxxxxxxxxxxxxxxxxx')
3 by 1
  insert into t (1)
end
";

#[test]
fn a_text_past_the_capacity(rt: HostRuntime) -> Result<(), Fail> {
    let given = faultless(WITH_A_LONG_TEXT.as_bytes());
    let narrow = "run --arena 64 f";
    ends(&rt, rt.alloc(), narrow, given, Status::Refused, REFUSED)?;
    ends(&rt, rt.alloc(), "run f", given, Status::Done, COMMITTED)
}

/// A creation and 45 insertions of the same row.
fn filling_script(alloc: Global) -> Result<String, AllocError> {
    let mut script = String::from_str(alloc, "create table t (a);")?;
    script.push_str("insert into t values (1);".repeat(alloc, 45)?.as_str())?;
    Ok(script)
}

/// Adds the reply to the k-th statement, which is the k-th commit.
fn push_reply(alloc: Global, text: &mut String, k: u32) -> Result<(), AllocError> {
    text.push_str(format!(in alloc; "{k} committed {k}\n")?.as_str())
}

/// Adds the k-th commit, an insertion.
fn push_commit(alloc: Global, text: &mut String, k: u32) -> Result<(), AllocError> {
    text.push_str(format!(in alloc; "{k} by 1\n  insert into t (1)\n")?.as_str())
}

/// Adds the replies to a creation and 45 insertions of one row, on a log that has room for 44 of them.
fn push_replies(alloc: Global, text: &mut String) -> Result<(), AllocError> {
    for k in 1..46 {
        push_reply(alloc, text, k)?;
    }
    text.push_str("46 refused Full\n")
}

/// Adds the commits of these.
fn push_commits(alloc: Global, text: &mut String) -> Result<(), AllocError> {
    text.push_str("1 by 1\n  create table t (a)\n")?;
    for k in 2..46 {
        push_commit(alloc, text, k)?;
    }
    Ok(())
}

/// The whole text of a run of these.
fn text_of_the_last_word(alloc: Global) -> Result<String, AllocError> {
    let mut text = String::from_str(alloc, "session 1\n")?;
    push_replies(alloc, &mut text)?;
    text.push_str("history\n")?;
    push_commits(alloc, &mut text)?;
    text.push_str("end\n")?;
    Ok(text)
}

/// A log has so many words in the end.
fn has_words(rt: &impl Abort, words: usize, count: usize) {
    assert_eq!(rt; words, count);
}

/// A run of this script on a log of 64 words, which it fills.
fn fill_by_the_words(
    rt: &(impl Threads + Wait + Abort + Sync),
    alloc: Global,
    script: &str,
    written: &str,
) -> Result<(), Fail> {
    let given = faultless(script.as_bytes());
    let ended = run_with(rt, alloc, "run --arena 64 f", given, &NoGate)?;
    is_ended(rt, &ended, Status::Refused, written, written.len());
    has_words(rt, ended.words, 64);
    Ok(())
}

#[test]
fn the_last_word_by_the_words(rt: HostRuntime) -> Result<(), Fail> {
    let script = filling_script(rt.alloc())?;
    let written = text_of_the_last_word(rt.alloc())?;
    fill_by_the_words(&rt, rt.alloc(), script.as_str(), written.as_str())
}

/// How a run of a file of so many blanks ends.
fn blanks_end(
    rt: &(impl Threads + Wait + Abort + Sync),
    alloc: Global,
    count: usize,
    status: Status,
    written: &str,
) -> Result<(), Fail> {
    let blanks = " ".repeat(alloc, count)?;
    let given = faultless(blanks.as_bytes());
    ends(rt, alloc, "run f", given, status, written)
}

#[test]
fn files_that_are_no_scripts(rt: HostRuntime) -> Result<(), Fail> {
    let no_text = faultless(b"\xff");
    ends(&rt, rt.alloc(), "run f", no_text, Status::Script, "")?;
    blanks_end(&rt, rt.alloc(), 1_048_577, Status::Script, "")?;
    blanks_end(&rt, rt.alloc(), 1_048_576, Status::Done, EMPTY)
}
