// What words ask for, with answers worked from how the words are to be read.

use ct_words::{Asked, asked};
use std::alloc::{AllocError, Global};
use std::process::Abort;
use std::test::Fail;

/// Words, and what they ask for.
const ASKED: [(&[&str], &str); 86] = [
    // No commands.
    (&[], "nothing"),
    (&["run"], "nothing"),
    (&["fill"], "nothing"),
    (&["Run", "f"], "nothing"),
    (&["fil", "3"], "nothing"),
    (&["--help"], "nothing"),
    (&["--version"], "nothing"),
    (&["-h"], "nothing"),
    (&["help"], "nothing"),
    (&["run", "--arena", "64"], "nothing"),
    (&["fill", "1", "2"], "nothing"),
    (&[""], "nothing"),
    (&["", "f"], "nothing"),
    // No numbers.
    (&["run", "--arena", "63", "f"], "nothing"),
    (&["run", "--arena", "4194305", "f"], "nothing"),
    (&["run", "--arena", "64x", "f"], "nothing"),
    (&["run", "--arena", "+64", "f"], "nothing"),
    (&["run", "--arena", " 64", "f"], "nothing"),
    (&["run", "--arena", "", "f"], "nothing"),
    (&["run", "--arena", "00000064", "f"], "nothing"),
    (&["run", "--arena", "9999999", "f"], "nothing"),
    (&["run", "--arena", "\u{ff16}\u{ff14}", "f"], "nothing"),
    (&["fill", "0"], "nothing"),
    (&["fill", "2001"], "nothing"),
    (&["fill", "00000003"], "nothing"),
    (&["fill", "1.5"], "nothing"),
    (&["fill", ""], "nothing"),
    // Runs and fills.
    (&["run", "--arena", "64", "f"], "run 64 [f]"),
    (&["run", "--arena", "0000064", "f"], "run 64 [f]"),
    (&["run", "--arena", "1048576", "f"], "run 1048576 [f]"),
    (&["run", "--arena", "4194304", "f"], "run 4194304 [f]"),
    (&["run", "f"], "run 262144 [f]"),
    (&["run", "f", "f"], "run 262144 [f] [f]"),
    (&["run", "g", "", "f"], "run 262144 [g] [] [f]"),
    (&["run", "--first", "f", "g"], "run first 262144 [f] [g]"),
    (&["run", "f", "--first", "g"], "run first 262144 [f] [g]"),
    (&["fill", "1"], "fill 1"),
    (&["fill", "2000"], "fill 2000"),
    (&["fill", "0003"], "fill 3"),
    // Words that are read as the crate `clap` reads such words: nothing else says how they are to be read. A value may
    // stand behind `=`, and an option behind a file. A file behind `--` may begin with `-`, and a lone `-` is a file.
    (&["run", "--arena=64", "f"], "run 64 [f]"),
    (&["run", "f", "--arena", "64"], "run 64 [f]"),
    (&["run", "f", "--arena", "64", "g"], "run 64 [f] [g]"),
    (&["run", "--", "-f"], "run 262144 [-f]"),
    (&["run", "--", "--arena", "64"], "run 262144 [--arena] [64]"),
    (&["run", "--", "--first"], "run 262144 [--first]"),
    (&["run", "-"], "run 262144 [-]"),
    // An option may not come twice, nor without a value, a flag not with one, and neither is shortened. Each other word that
    // begins with `-` is an option, and none is there but `--arena`, `--first` and `--workers`.
    (&["run", "--arena", "64", "--arena", "64", "f"], "nothing"),
    (&["run", "--arena"], "nothing"),
    (&["run", "f", "--arena"], "nothing"),
    (&["run", "--first"], "nothing"),
    (&["run", "--first", "f", "--first"], "nothing"),
    (&["run", "--first=true", "f"], "nothing"),
    (&["run", "--aren", "64", "f"], "nothing"),
    (&["run", "-f"], "nothing"),
    (&["run", "--help", "f"], "nothing"),
    (&["run", "--version", "f"], "nothing"),
    (&["run", "-h", "f"], "nothing"),
    (&["fill", "-1"], "nothing"),
    (&["fill", "--n", "3"], "nothing"),
    (&["fill", "--help"], "nothing"),
    // A certificate.
    (&["check", "f"], "check [f]"),
    (&["check", "--", "-f"], "check [-f]"),
    (&["check"], "nothing"),
    (&["check", "f", "g"], "nothing"),
    (&["check", "--arena", "64", "f"], "nothing"),
    (&["prove", "1", "f"], "prove 1 [f]"),
    (&["prove", "01", "f"], "prove 1 [f]"),
    (&["prove", "0065535", "1"], "prove 65535 [1]"),
    (&["prove", "65536", "f"], "nothing"),
    (&["prove", "0", "f"], "nothing"),
    (&["prove", "1.5", "f"], "nothing"),
    (&["prove", "1"], "nothing"),
    (&["prove", "1", "f", "g"], "nothing"),
    (&["prove", "f", "1"], "nothing"),
    // Tables from and to CSV: a name is read in lower case, and has to be one of the grammar.
    (&["import", "T", "c", "f"], "import t [c] [f]"),
    (&["import", "t_1", "--", "-c", "f"], "import t_1 [-c] [f]"),
    (&["import", "select", "c", "f"], "nothing"),
    (&["import", "", "c", "f"], "nothing"),
    (&["import", "a-b", "c", "f"], "nothing"),
    (&["import", "1a", "c", "f"], "nothing"),
    (&["import", "t", "c"], "nothing"),
    (&["import", "t", "c", "f", "g"], "nothing"),
    (&["export", "T", "f"], "export t [f]"),
    (&["export", "select", "f"], "nothing"),
    (&["export", "t"], "nothing"),
    (&["export", "t", "f", "g"], "nothing"),
];

/// The same of words with `--workers`.
const ASKED_WITH_WORKERS: [(&[&str], &str); 15] = [
    (&["run", "--workers", "1", "f"], "run 262144 [f]"),
    (&["run", "--workers", "04", "f"], "run 262144 by 4 [f]"),
    (
        &["run", "--workers", "16", "--arena", "64", "f"],
        "run 64 by 16 [f]",
    ),
    (
        &["run", "f", "--workers=2", "g", "--first"],
        "run first 262144 by 2 [f] [g]",
    ),
    (
        &["run", "--", "--workers", "4"],
        "run 262144 [--workers] [4]",
    ),
    (&["run", "--workers", "0", "f"], "nothing"),
    (&["run", "--workers", "17", "f"], "nothing"),
    (&["run", "--workers", "x", "f"], "nothing"),
    (&["run", "--workers", "f"], "nothing"),
    (&["run", "f", "--workers"], "nothing"),
    (&["run", "--workers", "", "f"], "nothing"),
    (&["run", "--workers", "4", "--workers", "4", "f"], "nothing"),
    (&["run", "--worker", "4", "f"], "nothing"),
    (&["fill", "--workers", "4", "3"], "nothing"),
    (&["prove", "--workers", "4", "1", "f"], "nothing"),
];

/// What words ask for, as a text: a run with its flag, its capacity, its workers where there are several, and its files, or a
/// number to fill with.
fn told(alloc: Global, asked: &Option<Asked>) -> Result<String, AllocError> {
    match asked {
        None => String::from_str(alloc, "nothing"),
        Some(Asked::Fill { number }) => format!(in alloc; "fill {number}"),
        Some(Asked::Check { file }) => format!(in alloc; "check [{file}]"),
        Some(Asked::Prove { reply, file }) => format!(in alloc; "prove {reply} [{file}]"),
        Some(Asked::Import { name, csv, file }) => {
            format!(in alloc; "import {} [{csv}] [{file}]", name.as_str())
        }
        Some(Asked::Export { name, file }) => {
            format!(in alloc; "export {} [{file}]", name.as_str())
        }
        Some(
            Asked::Run {
                capacity,
                files,
                is_first_alone,
                workers,
            },
        ) => {
            let first = if *is_first_alone { "first " } else { "" };
            let mut text = format!(in alloc; "run {first}{capacity}")?;
            if *workers != 1 {
                text.push_str(format!(in alloc; " by {workers}")?.as_str())?;
            }
            for file in files {
                text.push_str(format!(in alloc; " [{file}]")?.as_str())?;
            }
            Ok(text)
        }
    }
}

/// Words ask for this.
fn ask_for(rt: &impl Abort, alloc: Global, words: &[&str], wanted: &str) -> Result<(), Fail> {
    let asked = asked(alloc, words);
    let text = told(alloc, &asked?)?;
    assert_eq!(rt; text.as_str(), wanted);
    Ok(())
}

/// What each of these words ask for stands beside them.
fn ask_for_all(rt: &impl Abort, alloc: Global, all: &[(&[&str], &str)]) -> Result<(), Fail> {
    for (words, wanted) in all {
        ask_for(rt, alloc, words, wanted)?;
    }
    Ok(())
}

#[test]
fn words_ask(rt: HostRuntime) -> Result<(), Fail> {
    ask_for_all(&rt, rt.alloc(), &ASKED)
}

#[test]
fn words_ask_for_workers(rt: HostRuntime) -> Result<(), Fail> {
    ask_for_all(&rt, rt.alloc(), &ASKED_WITH_WORKERS)
}

/// The words of a text, between blanks.
fn words_of(alloc: Global, text: &str) -> Result<Vec<&str>, AllocError> {
    let mut words = Vec::new(alloc);
    for word in text.split_whitespace() {
        words.push(word)?;
    }
    Ok(words)
}

/// Behind this front so many files are run, with a capacity that stands in front of them in the answer, and one more asks for
/// nothing.
fn takes_files(
    rt: &impl Abort,
    alloc: Global,
    count: usize,
    front: &str,
    answer: &str,
) -> Result<(), Fail> {
    let files = " f".repeat(alloc, count)?;
    let mut most = format!(in alloc; "{front}{}", files.as_str())?;
    let wanted = format!(in alloc; "{answer}{}", " [f]".repeat(alloc, count)?.as_str())?;
    ask_for(
        rt,
        alloc,
        words_of(alloc, most.as_str())?.as_slice(),
        wanted.as_str(),
    )?;
    most.push_str(" f")?;
    ask_for(
        rt,
        alloc,
        words_of(alloc, most.as_str())?.as_slice(),
        "nothing",
    )
}

#[test]
fn at_most_64_files(rt: HostRuntime) -> Result<(), Fail> {
    takes_files(&rt, rt.alloc(), 64, "run", "run 262144")?;
    takes_files(&rt, rt.alloc(), 64, "run --first", "run first 262144")?;
    takes_files(&rt, rt.alloc(), 64, "run --arena 64", "run 64")?;
    takes_files(&rt, rt.alloc(), 64, "run --arena 1048576", "run 1048576")
}

#[test]
fn at_most_16_files_on_a_large_log(rt: HostRuntime) -> Result<(), Fail> {
    takes_files(&rt, rt.alloc(), 16, "run --arena 1048577", "run 1048577")?;
    takes_files(&rt, rt.alloc(), 16, "run --arena 4194304", "run 4194304")
}
