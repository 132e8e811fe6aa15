//! `ctdb run [--arena N] [--first] [--workers N] FILE...` runs a session for each script, and writes their transcript: every
//! reply, then the history of commits. `ctdb fill N` runs four scripts that it makes, and writes what their sessions were
//! answered in one line each.
//! `ctdb prove K FILE` writes the certificate of reply K to a script, and `ctdb check FILE` judges a certificate.
//! `ctdb import NAME CSV FILE` runs a script behind that of a table that is in CSV, and `ctdb export NAME FILE` writes a table
//! after a script to CSV.
#![tactic(auto)]

mod saying;

use crate::saying::say;
use anyhow::Result;
use ct_outside::{FileScripts, Gate, NoGate, Scripts, StdSink};
use ct_progress::{CountGate, CountedScripts};
use ct_run::{Run, Status, notes, remarks, run};
use ct_words::{Asked, asked};
use std::alloc::Global;
use std::env;
use std::env::Env;
use std::fs::Files;
use std::io::{ErrorKind, IsTerminal, Print};
use std::process::ExitCode;
use std::sync::Wait;
use std::sync::atomic::AtomicU64;
use std::thread::Threads;
use std::time::Clock;

/// How many statements the four scripts have that `fill` makes with this number.
fn filled(number: u32) -> u64 {
    4 * (u64::from(number) + 6)
}

/// What the scripts are called that are asked for, one of a table and a file by both names.
fn names_of(alloc: Global, asked: &Asked<'_>) -> Result<Vec<String>> {
    let mut names = Vec::new(alloc);
    match asked {
        Asked::Run { files, .. } => {
            for file in files.iter() {
                names.push(String::from_str(alloc, file)?)?;
            }
        }
        Asked::Prove { file, .. } => names.push(String::from_str(alloc, file)?)?,
        Asked::Export { file, .. } => names.push(String::from_str(alloc, file)?)?,
        Asked::Import { csv, file, .. } => names.push(format!(in alloc; "{csv}+{file}")?)?,
        Asked::Fill { .. } => {}
        Asked::Check { .. } => {}
    }
    Ok(names)
}

/// How many statements are known before any file is read.
fn known_of(asked: &Asked<'_>) -> u64 {
    match asked {
        Asked::Fill { number } => filled(*number),
        _ => 0,
    }
}

/// What the scripts are called that the words ask for, and how many statements are known before any file is read.
fn asked_of(alloc: Global, words: &[&str]) -> Result<(Vec<String>, u64)> {
    let asked = match asked(alloc, words) {
        Ok(Some(asked)) => asked,
        Ok(None) => return Ok((Vec::new(alloc), 0)),
        Err(e) => return Err(e.into()),
    };
    let known = known_of(&asked);
    Ok((names_of(alloc, &asked)?, known))
}

/// The texts, as they are lent.
fn lent(alloc: Global, texts: &[String]) -> Result<Vec<&str>> {
    let mut all = Vec::new(alloc);
    for text in texts {
        all.push(text.as_str())?;
    }
    Ok(all)
}

/// The commands that end otherwise than a run does.
#[derive(Clone, Copy, PartialEq, Eq)]
enum Command {
    Check,
    Export,
    Other,
}

/// The command that the words begin with.
fn first_command(words: &[&str]) -> Command {
    match words.first() {
        Some(word) if *word == "check" => Command::Check,
        Some(word) if *word == "export" => Command::Export,
        _ => Command::Other,
    }
}

/// Says what there is to say of a run with a transcript: of refused statements, where there may be some, and what to note.
fn remark<R: AllocGlobal + Eprint>(
    rt: &R,
    command: Command,
    names: &[&str],
    ended: &Run,
    has_colours: bool,
) {
    // A table is exported whatever the replies are.
    let is_refused = matches!(ended.status, Status::Refused | Status::Memory);
    if is_refused || command == Command::Export {
        if let Ok(lines) = remarks(rt.alloc(), &ended.transcript, names) {
            say(rt, lines.as_slice(), has_colours);
        }
    }
    if let Ok(lines) = notes(rt.alloc(), &ended.transcript, names) {
        say(rt, lines.as_slice(), has_colours);
    }
}

/// Whether lines for a terminal are to have colours: where the variable NO_COLOR is empty or not there.
fn has_colours<R: AllocGlobal + Env>(rt: &R) -> bool {
    match env::var(rt, "NO_COLOR") {
        Ok(value) => value.is_empty(),
        Err(env::VarError::NotPresent) => true,
        Err(_) => false,
    }
}

/// Runs what the words ask for, with these scripts and under this gate.
fn run_under<R: Threads + Wait + Sync + AllocGlobal + Print, S: Scripts, G: Gate + Sync>(
    rt: &R,
    words: &[&str],
    scripts: &mut S,
    gate: &G,
) -> Run {
    let mut out = StdSink::make(rt);
    run(rt, rt.alloc(), words, scripts, &mut out, gate)
}

/// Runs what the words ask for, and shows on a terminal how many statements are done. So many are known before.
fn run_shown<R: Threads + Wait + Sync + AllocGlobal + Files + Print + Eprint + Clock>(
    rt: &R,
    words: &[&str],
    known: u64,
) -> Run {
    let all = AtomicU64::new(known);
    let mut scripts = CountedScripts::make(FileScripts::make(rt), &all);
    let gate = CountGate::make(rt, &all);
    let ended = run_under(rt, words, &mut scripts, &gate);
    gate.clear(rt);
    ended
}

/// Runs what the words of the command line ask for. With the status comes the command.
fn run_words<R: Threads + Wait + Sync + AllocGlobal + Env + Files + Print + Eprint + Clock>(
    rt: &R,
    is_terminal: bool,
) -> Result<(Status, Command)> {
    let args = match env::args(rt) {
        Ok(args) => args,
        // A word that is not UTF-8 is none that is understood.
        Err(e) if e.kind() == ErrorKind::InvalidData => return Ok((Status::Words, Command::Other)),
        Err(e) => return Err(e.into()),
    };
    let mut texts = Vec::new(rt.alloc());
    for word in args {
        texts.push(word)?;
    }
    let all = lent(rt.alloc(), texts.as_slice())?;
    let words = all.get(1..).unwrap_or(&[]);
    let (names, known) = asked_of(rt.alloc(), words)?;
    let names = lent(rt.alloc(), names.as_slice())?;
    let command = first_command(words);
    // Of a table only its file is read, and not how many statements its script has.
    let imports = matches!(words.first(), Some(word) if *word == "import");
    // A certificate has no statements to show.
    let ended = if is_terminal && command != Command::Check && !imports {
        run_shown(rt, words, known)
    } else {
        run_under(rt, words, &mut FileScripts::make(rt), &NoGate)
    };
    let has_colours = is_terminal && has_colours(rt);
    remark(rt, command, names.as_slice(), &ended, has_colours);
    Ok((ended.into_status(), command))
}

/// The number that a run ends with.
fn number(status: Status) -> u8 {
    match status {
        Status::Done => 0,
        Status::Refused => 1,
        Status::Words => 2,
        Status::ReadFault => 3,
        Status::WriteFault => 4,
        Status::Memory => 5,
        Status::Script => 6,
    }
}

/// What is said of a run of this command without a whole text.
fn fault(status: Status, command: Command) -> Option<&'static str> {
    match status {
        Status::Refused if command == Command::Export => Some(
            "no such table, or a condition too long for a file",
        ),
        Status::Done | Status::Refused => None,
        Status::Words => Some("words not understood"),
        Status::ReadFault => Some("read fault"),
        Status::WriteFault => Some("write fault"),
        Status::Memory => Some("out of memory"),
        Status::Script if command == Command::Check => Some("not a certificate"),
        Status::Script => Some("not a script"),
    }
}

fn main(rt: HostRuntime) -> ExitCode {
    let (status, command) = match run_words(&rt, rt.stderr().is_terminal()) {
        Ok(ended) => ended,
        Err(_) => (Status::Memory, Command::Other),
    };
    if let Some(fault) = fault(status, command) {
        let _ = eprintln!(rt; "ctdb: {fault}");
    }
    ExitCode::from(number(status))
}
