// Runs of several sessions whose statements come in a given order.
//
// A case is a text. Each line of it is a word and what stands after it.
//
//   script    the statements of a session, one session after another
//   order     the session of each statement, by its number, as they come
//   replies   what a session is answered, one session after another
//   history   the commits
//
// The scripts come first, and after them one outcome or several, each behind a blank line: orders, the replies and, last,
// the history, which come of each of these orders. They are those of the transcript without their numbers: `; ` stands
// between two of them, and ` / ` between two lines of one.

ghost use Rattle.std.specs.Prelude.{All, ◌≤◌, IfOk, length};
ghost use Rattle.ct_lex.specs.Texts.{texts};

use ct_lex::split;
use ct_outside::{Gate, OrderGate};
use ct_serve::serve;
use ct_transcript::{Transcript, lines};
use ct_word::{List, Text};
use std::alloc::{AllocError, Global};
use std::process::Abort;
use std::sync::Wait;
use std::test::Fail;
use std::thread::Threads;

/// The capacity of the log of most runs.
pub const ROOMY: u32 = 4_096;

/// A script, which has at most 65,535 statements.
fn script(rt: &impl Abort, alloc: Global, text: &str) -> Result<Text, Fail>
    ensures { IfOk result (λ script. length (texts script) ≤ 65535) }
{
    let script = Text::from_str(alloc, text)?;
    let count = split(alloc, script.as_str())?.len();
    assert!(rt; count <= 65_535);
    Ok(script)
}

/// The scripts of these texts.
fn scripts_of(rt: &impl Abort, alloc: Global, all: &[&str]) -> Result<Vec<Text>, Fail>
    ensures { IfOk result (λ scripts. All (λ script. length (texts script) ≤ 65535) scripts.items) }
{
    let mut scripts = Vec::new(alloc);
    for text in all {
        scripts.push(script(rt, alloc, text)?)?;
    }
    Ok(scripts)
}

/// The transcript of the scripts of these texts, on a log of this capacity, with this gate.
pub fn served<R: Threads + Wait + Abort + Sync, G: Gate + Sync>(
    rt: &R,
    alloc: Global,
    cap: u32,
    texts: &[&str],
    gate: &G,
) -> Result<Transcript, Fail> {
    assert!(rt; 64 <= cap && cap <= 4_194_304);
    let scripts = scripts_of(rt, alloc, texts)?;
    assert!(rt; 1 <= scripts.len() && scripts.len() <= 64);
    let transcript = serve(rt, alloc, cap, scripts.as_slice(), gate)?;
    Ok(transcript)
}

/// Each session's statement of the order, numbered within the session from 1.
fn statements(alloc: Global, order: &str) -> Result<List<(u32, u32)>, Fail> {
    let mut numbered = Vec::new(alloc);
    for session in order.split(' ') {
        let session = session.parse::<u32>()?;
        let before = numbered.iter().filter(|(by, _)| *by == session).count();
        let number = u32::try_from(before).unwrap_or(0).saturating_add(1);
        numbered.push((session, number))?;
    }
    Ok(List::from_vec(numbered))
}

/// The text of a transcript.
pub fn text_of(alloc: Global, transcript: &Transcript) -> Result<String, Fail> {
    let mut text = String::new(alloc);
    for line in lines(alloc, transcript)? {
        text.push_str(line.as_str())?;
    }
    Ok(text)
}

/// Adds the lines of a reply or of a commit.
fn push_lines(text: &mut String, entry: &str) -> Result<(), AllocError> {
    for (before, line) in entry.split(" / ").enumerate() {
        text.push_str(if before > 0 { "  " } else { "" })?;
        text.push_str(line)?;
        text.push_str("\n")?;
    }
    Ok(())
}

/// Adds a part of a transcript: a line of its own, and then its replies or commits, numbered from 1.
fn push_part(
    alloc: Global,
    text: &mut String,
    head: &str,
    entries: &str,
) -> Result<(), AllocError> {
    text.push_str(head)?;
    for (before, entry) in entries.split("; ").enumerate() {
        text.push_str(format!(in alloc; "{} ", before.saturating_add(1))?.as_str())?;
        push_lines(text, entry)?;
    }
    Ok(())
}

/// A transcript has the text that is expected where statements come in this order.
fn is_expected(rt: &impl Abort, order: &str, text: &str, expected: &str) {
    assert_eq!(rt; text, expected, "{order}");
}

/// What stands after this word, line by line, where a line begins with it.
fn told<'a>(alloc: Global, lines: &'a str, word: &str) -> Result<Vec<&'a str>, AllocError> {
    let mut all = Vec::new(alloc);
    for line in lines.lines() {
        if let Some(rest) = line.trim().strip_prefix(word) {
            all.push(rest)?;
        }
    }
    Ok(all)
}

/// There are so many lines, apart from blank ones.
fn are_lines(rt: &impl Abort, lines: &str, count: usize) {
    let mut found = 0usize;
    for line in lines.lines() {
        if !line.trim().is_empty() {
            found = found.saturating_add(1);
        }
    }
    assert_eq!(rt; found, count, "{lines}");
}

/// The text of the transcript that an outcome with so many orders tells.
fn expected(
    rt: &impl Abort,
    alloc: Global,
    outcome: &str,
    orders: usize,
) -> Result<String, AllocError> {
    let all = told(alloc, outcome, "replies ")?;
    let mut text = String::new(alloc);
    for (before, replies) in all.iter().enumerate() {
        let head = format!(in alloc; "session {}\n", before.saturating_add(1))?;
        push_part(alloc, &mut text, head.as_str(), replies)?;
    }
    let (_, history) = outcome.split_once("history ").unwrap_or(("", ""));
    push_part(alloc, &mut text, "history\n", history.trim())?;
    text.push_str("end\n")?;
    are_lines(
        rt,
        outcome,
        orders.saturating_add(all.len()).saturating_add(1),
    );
    Ok(text)
}

/// The transcript of scripts on a log of this capacity, whose statements come in this order.
pub fn ordered<R: Threads + Wait + Abort + Sync>(
    rt: &R,
    alloc: Global,
    cap: u32,
    scripts: &[&str],
    order: &str,
) -> Result<Transcript, Fail> {
    let gate = OrderGate::make(alloc, statements(alloc, order)?)?;
    let transcript = served(rt, alloc, cap, scripts, &gate)?;
    assert!(rt; !gate.late(rt), "a statement was let go before its turn");
    Ok(transcript)
}

/// The text of the transcript of scripts on a log of this capacity, whose statements come in this order.
fn played<R: Threads + Wait + Abort + Sync>(
    rt: &R,
    alloc: Global,
    cap: u32,
    scripts: &[&str],
    order: &str,
) -> Result<String, Fail> {
    let transcript = ordered(rt, alloc, cap, scripts, order)?;
    text_of(alloc, &transcript)
}

/// Plays scripts in each of the orders of an outcome, and compares the transcripts.
fn play_outcome<R: Threads + Wait + Abort + Sync>(
    rt: &R,
    alloc: Global,
    cap: u32,
    scripts: &[&str],
    outcome: &str,
) -> Result<(), Fail> {
    let orders = told(alloc, outcome, "order ")?;
    assert!(rt; !orders.is_empty(), "an outcome without an order");
    let wanted = expected(rt, alloc, outcome, orders.len())?;
    for order in orders.as_slice() {
        let text = played(rt, alloc, cap, scripts, order)?;
        is_expected(rt, order, text.as_str(), wanted.as_str());
    }
    Ok(())
}

/// Plays the scripts of a case in each of its orders on a log of this capacity, and compares the transcripts.
pub fn play<R: Threads + Wait + Abort + Sync>(
    rt: &R,
    alloc: Global,
    cap: u32,
    case: &str,
) -> Result<(), Fail> {
    let (first, outcomes) = case.split_once("\n\n").ok_or("a case without an outcome")?;
    let scripts = told(alloc, first, "script ")?;
    are_lines(rt, first, scripts.len());
    for outcome in outcomes.split("\n\n") {
        play_outcome(rt, alloc, cap, scripts.as_slice(), outcome)?;
    }
    Ok(())
}
