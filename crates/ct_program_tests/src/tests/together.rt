// What sessions share: the names of nulls, the versions and the log. What each has for itself: its new nulls.

use crate::tests::played::{ROOMY, play, served};
use ct_outside::NoGate;
use ct_transcript::{Refusal, Reply, Transcript};
use std::alloc::{AllocError, Global};
use std::process::Abort;
use std::sync::Wait;
use std::test::Fail;
use std::thread::Threads;

/// Cases of what sessions share.
const CASES: [&str; 3] = [
    // New nulls of two sessions. A new null of one session differs in name from that of another one, and may have the
    // same value.
    "
        script create table t (a); insert into t values (NULL); select p.a, q.a from t p, t q where p.a = q.a;
        script insert into t values (NULL);

        order 1 1 2 1
        replies committed 1; committed 2; \
            rows (a, a) at 3 / (?1#1, ?1#1) / (?1#1, ?2#1) if ?1#1 = ?2#1 / (?2#1, ?1#1) if ?1#1 = ?2#1 / (?2#1, ?2#1)
        replies committed 3
        history by 1 / create table t (a); by 1 / insert into t (?1#1); by 2 / insert into t (?2#1)

        order 1 2 1 1
        replies committed 1; committed 3; \
            rows (a, a) at 3 / (?2#1, ?2#1) / (?2#1, ?1#1) if ?1#1 = ?2#1 / (?1#1, ?2#1) if ?1#1 = ?2#1 / (?1#1, ?1#1)
        replies committed 2
        history by 1 / create table t (a); by 2 / insert into t (?2#1); by 1 / insert into t (?1#1)
    ",
    // The same script twice. A named null is one null in all sessions, so that the same row comes twice.
    "
        script create table t (a); insert into t values (?x); select a from t;
        script create table t (a); insert into t values (?x); select a from t;

        order 1 2 1 2 1 2
        replies committed 1; committed 2; rows (a) at 3 / (?x)
        replies refused TableExists; committed 3; rows (a) at 3 / (?x)
        history by 1 / create table t (a); by 1 / insert into t (?x); by 2 / insert into t (?x)

        order 2 1 2 1 2 1
        replies refused TableExists; committed 3; rows (a) at 3 / (?x)
        replies committed 1; committed 2; rows (a) at 3 / (?x)
        history by 2 / create table t (a); by 2 / insert into t (?x); by 1 / insert into t (?x)
    ",
    // Versions rise. Outside a transaction each statement sees all commits so far, and within one the base.
    "
        script create table t (a); select * from t; begin; select * from t; commit; select * from t;
        script insert into t values (1); insert into t values (2); select * from t;

        order 1 2 1 1 2 1 1 1 2
        order 1 2 1 1 1 2 2 1 1
        replies committed 1; rows (a) at 2 / (1); begun at 2; rows (a) at 2 / (1); nothing to commit at 2; \
            rows (a) at 3 / (1) / (2)
        replies committed 2; committed 3; rows (a) at 3 / (1) / (2)
        history by 1 / create table t (a); by 2 / insert into t (1); by 2 / insert into t (2)
    ",
];

#[test]
fn names_and_versions_are_shared(rt: HostRuntime) -> Result<(), Fail> {
    for case in CASES {
        play(&rt, rt.alloc(), ROOMY, case)?;
    }
    Ok(())
}

/// A statement of session 1 takes all words of a log of 64. From then on nobody commits: the open transaction stays
/// open, and can be given up.
#[test]
fn one_session_fills_the_log(rt: HostRuntime) -> Result<(), Fail> {
    let case = "
        script create table t (a); \
            insert into t values ('xxxxxxxxxxxxxxxxxxxxxxxxxxxxxxxxxxxxxxxxxxxxxxxxxxxxxxxxxxxxxxxxxxxxxxxxxxxxxxxx'); \
            select a from t;
        script begin; insert into t values (1); commit; rollback; insert into t values (1); select a from t;

        order 1 2 2 1 2 2 2 2 1
        order 1 2 2 1 1 2 2 2 2
        replies committed 1; refused Full; rows (a) at 1
        replies begun at 1; pending at 1 plus 1; refused Full; rolled back; refused Full; rows (a) at 1
        history by 1 / create table t (a)
    ";
    play(&rt, rt.alloc(), 64, case)
}

/// The replies to the first session.
fn first_replies(transcript: &Transcript) -> &[Reply] {
    match transcript.sessions.as_slice().first() {
        Some(log) => log.replies.as_slice(),
        None => &[],
    }
}

/// Whether there are 46 replies, and the last but one is a commit, and the last one finds the log full.
fn is_last_refused(replies: &[Reply]) -> bool {
    replies.len() == 46
        && matches!(replies[44], Reply::Committed { at: 45 })
        && matches!(
            replies[45],
            Reply::Refused {
                at: 45,
                why: Refusal::Full
            }
        )
}

/// Numbers are these.
fn are(rt: &impl Abort, found: [usize; 2], wanted: [usize; 2]) {
    assert_eq!(rt; found, wanted);
}

/// How a session of a script of a creation and 45 insertions of the same row fills a log of 64 words: the first
/// insertion brings the log from 11 words to 21, and each later one adds its commit word alone.
fn fill_the_log(
    rt: &(impl Threads + Wait + Abort + Sync),
    alloc: Global,
    script: &str,
) -> Result<(), Fail> {
    let transcript = served(rt, alloc, 64, &[script], &NoGate)?;
    assert!(rt; is_last_refused(first_replies(&transcript)));
    let commits = transcript.history.as_slice().len();
    are(rt, [commits, transcript.words.words().len()], [45, 64]);
    Ok(())
}

#[test]
fn the_last_word_of_the_log(rt: HostRuntime) -> Result<(), Fail> {
    let alloc = rt.alloc();
    let insertions = "insert into t values (1);".repeat(alloc, 45)?;
    let script = format!(in alloc; "create table t (a);{insertions}")?;
    fill_the_log(&rt, alloc, script.as_str())
}

/// Adds a session to an order.
fn push_session(alloc: Global, order: &mut String, session: u32) -> Result<(), AllocError> {
    order.push_str(format!(in alloc; " {session}")?.as_str())
}

/// Adds the order of 64 sessions in which the last one comes first.
fn push_order(alloc: Global, case: &mut String) -> Result<(), AllocError> {
    case.push_str("\norder")?;
    for before in 0..64u32 {
        push_session(alloc, case, 64u32.saturating_sub(before))?;
    }
    case.push_str("\n")
}

/// A case of 64 sessions of one creation each, the last of which comes first.
fn from_the_last(alloc: Global) -> Result<String, AllocError> {
    let mut case = "script create table t (a)\n".repeat(alloc, 64)?;
    push_order(alloc, &mut case)?;
    case.push_str("replies refused TableExists\n".repeat(alloc, 63)?.as_str())?;
    case.push_str("replies committed 1\nhistory by 64 / create table t (a)\n")?;
    Ok(case)
}

#[test]
fn sixty_four_sessions_from_the_last(rt: HostRuntime) -> Result<(), Fail> {
    let case = from_the_last(rt.alloc())?;
    play(&rt, rt.alloc(), ROOMY, case.as_str())
}

/// How many of the creations that all sessions consist of were committed, and how many found that another one was.
fn outcomes(transcript: &Transcript) -> (u32, u32) {
    let (mut committed, mut late) = (0u32, 0u32);
    for log in transcript.sessions.as_slice() {
        for reply in log.replies.as_slice() {
            match reply {
                Reply::Committed { at: 1 } => committed = committed.saturating_add(1),
                Reply::Refused {
                    at: 1,
                    why: Refusal::TableExists | Refusal::Conflict { .. },
                } => late = late.saturating_add(1),
                _ => {}
            }
        }
    }
    (committed, late)
}

/// Of 64 creations one is committed, and the others find that it was.
fn one_is_committed(rt: &impl Abort, transcript: &Transcript) {
    let (committed, late) = outcomes(transcript);
    assert!(rt; committed == 1 && late == 63, "{committed} and {late}");
    assert!(rt; transcript.history.as_slice().len() == 1);
}

/// Of 64 sessions that nothing orders one has its creation committed. Another one that began before that conflicts.
#[test]
fn sixty_four_sessions_at_once(rt: HostRuntime) -> Result<(), Fail> {
    let scripts = ["create table t (a)"; 64];
    let transcript = served(&rt, rt.alloc(), ROOMY, &scripts, &NoGate)?;
    one_is_committed(&rt, &transcript);
    Ok(())
}

/// The version of a reply.
fn version(reply: &Reply) -> Option<u32> {
    match reply {
        Reply::Begun { at }
        | Reply::Pending { at, .. }
        | Reply::Committed { at }
        | Reply::Nothing { at }
        | Reply::Rows { at, .. }
        | Reply::Possible { at, .. }
        | Reply::Certain { at, .. }
        | Reply::Refused { at, .. } => Some(*at),
        Reply::RolledBack => None,
    }
}

/// Whether the versions never fall, from one reply to the next.
fn never_fall(replies: &[Reply]) -> bool {
    let mut seen = 0;
    for reply in replies {
        let at = version(reply).unwrap_or(seen);
        if at < seen {
            return false;
        }
        seen = at;
    }
    true
}

/// How many of the replies are commits.
fn commits(replies: &[Reply]) -> usize {
    replies
        .iter()
        .filter(|reply| matches!(reply, Reply::Committed { .. }))
        .count()
}

/// How many rounds of statements a session that runs freely has after its first statement.
const ROUNDS: u32 = 20;

/// Adds the statements of a round.
fn push_round(alloc: Global, text: &mut String, k: u32) -> Result<(), AllocError> {
    text.push_str(format!(in alloc; "insert into t values ({k}); select a from t;")?.as_str())?;
    text.push_str("begin; select a from t; insert into t values (NULL); commit; rollback;")
}

/// Insertions and questions in turn, and transactions, all on one table.
fn free_script(alloc: Global) -> Result<String, AllocError> {
    let mut text = String::from_str(alloc, "create table t (a);")?;
    for k in 0..ROUNDS {
        push_round(alloc, &mut text, k)?;
    }
    Ok(text)
}

/// The versions of each session never fall, and each commit of the history is one reply's.
fn each_commit_is_one_reply(rt: &impl Abort, transcript: &Transcript) {
    let mut committed = 0usize;
    for log in transcript.sessions.as_slice() {
        let replies = log.replies.as_slice();
        assert!(rt; never_fall(replies));
        committed = committed.saturating_add(commits(replies));
    }
    assert!(rt; transcript.history.as_slice().len() == committed);
}

/// Four sessions run freely. The versions of each never fall, and each commit of the history is one reply's.
#[test]
fn versions_of_a_session_never_fall(rt: HostRuntime) -> Result<(), Fail> {
    let text = free_script(rt.alloc())?;
    let transcript = served(&rt, rt.alloc(), ROOMY, &[text.as_str(); 4], &NoGate)?;
    each_commit_is_one_reply(&rt, &transcript);
    Ok(())
}
