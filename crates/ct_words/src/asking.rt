// What the words ask for.

ghost use Rattle.std.specs.Prelude.{◌≡◌, IfOk, option_map};
ghost use Rattle.clap.specs.Words.{rows_of, found_of};
ghost use Rattle.ct_words.specs.Asked.{task, task_of, task_of_run, task_of_fill, task_of_check, task_of_prove, task_of_import, task_of_export, texts_of};
ghost use Rattle.ct_words.specs.Asked.{is_set, files_most, run_of, run_by, fill_of, fill_by, check_of, check_by, prove_of, prove_by, import_of, import_by, export_of, export_by, name_in};

use crate::commands::{
    check_command, export_command, fill_command, found, import_command, prove_command, run_command,
};
use crate::numbers::number_within;
use crate::task::Asked;
use clap::ArgMatches;
use ct_parse::name_of;
use ct_word::{Memory, Text};
use std::alloc::Global;

/// The fewest words of 64 bits that a log can have.
const CAPACITY_LEAST: u32 = 64;

/// The most words of 64 bits that a log can have.
const CAPACITY_MOST: u32 = 4_194_304;

/// The most workers of a statement.
const WORKERS_MOST: u32 = 16;

/// The most words of a log that is shared by as many sessions as a run can have.
const CAPACITY_SHARED: u32 = 1_048_576;

/// The most files that one run can name.
const FILES_MOST: usize = 64;

/// The most files that one run can name whose log has more words. Then the passes of its sessions take as much memory as those
/// of the most files with fewer words.
const FILES_ON_MORE: usize = 16;

/// The greatest number of `fill`.
const FILL_MOST: u32 = 2_000;

/// The greatest number of a reply, which is that of the statements of a script.
const REPLY_MOST: u32 = 65_535;

/// Whether this says that a flag stands.
fn is_set(flag: Option<&str>) -> bool
    ensures { result ≡ is_set (option_map (λ s. s.now) flag.entry) }
{
    match flag {
        Some(text) => text == "true",
        None => false,
    }
}

/// The most files that one run can name whose log has this many words.
fn files_most(capacity: u32) -> usize
    ensures { result ≡ files_most capacity }
{
    if capacity <= CAPACITY_SHARED {
        FILES_MOST
    } else {
        FILES_ON_MORE
    }
}

/// The run that these spell, or `None` where they spell none.
///
/// # Errors
/// `Memory` where there is none for the list of files.
fn run_of<'a>(
    alloc: Global,
    arena: Option<&str>,
    first: Option<&str>,
    workers: Option<&str>,
    files: Option<&[&'a str]>,
) -> Result<Option<Asked<'a>>, Memory>
    ensures { IfOk result (λ asked. option_map task_of asked ≡ run_of (option_map (λ s. s.now) arena.entry) (option_map (λ s. s.now) first.entry) (option_map (λ s. s.now) workers.entry) (option_map (λ s. texts_of s.now) files.entry)) }
{
    let Some(arena) = arena else {
        return Ok(None);
    };
    let Some(capacity) = number_within(arena, CAPACITY_LEAST, CAPACITY_MOST) else {
        return Ok(None);
    };
    let Some(workers) = workers else {
        return Ok(None);
    };
    let Some(workers) = number_within(workers, 1, WORKERS_MOST) else {
        return Ok(None);
    };
    let Some(files) = files else {
        return Ok(None);
    };
    if files.is_empty() || files.len() > files_most(capacity) {
        return Ok(None);
    }
    let files = Vec::from_slice(alloc, files)?;
    Ok(Some(Asked::Run {
        capacity,
        files,
        is_first_alone: is_set(first),
        workers,
    }))
}

/// The fill that this spells, or `None` where it spells none.
fn fill_of<'a>(number: Option<&str>) -> Option<Asked<'a>>
    ensures { option_map task_of result ≡ fill_of (option_map (λ s. s.now) number.entry) }
{
    let number = number_within(number?, 1, FILL_MOST)?;
    Some(Asked::Fill { number })
}

/// The check of this file, where there is one.
fn check_of<'a>(file: Option<&'a str>) -> Option<Asked<'a>>
    ensures { option_map task_of result ≡ check_of (option_map (λ s. s.now) file.entry) }
{
    let file = file?;
    Some(Asked::Check { file })
}

/// The certificate that these spell, or `None` where they spell none.
fn prove_of<'a>(reply: Option<&str>, file: Option<&'a str>) -> Option<Asked<'a>>
    ensures { option_map task_of result ≡ prove_of (option_map (λ s. s.now) reply.entry) (option_map (λ s. s.now) file.entry) }
{
    let reply = number_within(reply?, 1, REPLY_MOST)?;
    let file = file?;
    Some(Asked::Prove { reply, file })
}

/// The name that a word is, in lower case.
fn name_in(alloc: Global, word: &str) -> Result<Option<Text>, Memory>
    ensures { IfOk result (λ name. name ≡ name_in word.now) }
{
    name_of(alloc, word)
}

/// The import that these spell, or `None` where they spell none.
///
/// # Errors
/// `Memory` where there is none for the name.
fn import_of<'a>(
    alloc: Global,
    name: Option<&str>,
    csv: Option<&'a str>,
    file: Option<&'a str>,
) -> Result<Option<Asked<'a>>, Memory>
    ensures { IfOk result (λ asked. option_map task_of asked ≡ import_of (option_map (λ s. s.now) name.entry) (option_map (λ s. s.now) csv.entry) (option_map (λ s. s.now) file.entry)) }
{
    let Some(word) = name else {
        return Ok(None);
    };
    let Some(name) = name_in(alloc, word)? else {
        return Ok(None);
    };
    let (Some(csv), Some(file)) = (csv, file) else {
        return Ok(None);
    };
    Ok(Some(Asked::Import { name, csv, file }))
}

/// The export that these spell, or `None` where they spell none.
///
/// # Errors
/// `Memory` where there is none for the name.
fn export_of<'a>(
    alloc: Global,
    name: Option<&str>,
    file: Option<&'a str>,
) -> Result<Option<Asked<'a>>, Memory>
    ensures { IfOk result (λ asked. option_map task_of asked ≡ export_of (option_map (λ s. s.now) name.entry) (option_map (λ s. s.now) file.entry)) }
{
    let Some(word) = name else {
        return Ok(None);
    };
    let Some(name) = name_in(alloc, word)? else {
        return Ok(None);
    };
    let Some(file) = file else {
        return Ok(None);
    };
    Ok(Some(Asked::Export { name, file }))
}

fn run_by<'a>(alloc: Global, matches: &ArgMatches<'a>) -> Result<Option<Asked<'a>>, Memory>
    ensures { IfOk result (λ asked. option_map task_of asked ≡ run_by (rows_of (found_of matches.now))) }
{
    let first = matches.get_str("first");
    let workers = matches.get_str("workers");
    let files = matches.get_strs("file");
    run_of(alloc, matches.get_str("arena"), first, workers, files)
}

fn fill_by<'a>(matches: &ArgMatches<'a>) -> Option<Asked<'a>>
    ensures { option_map task_of result ≡ fill_by (rows_of (found_of matches.now)) }
{
    fill_of(matches.get_str("n"))
}

fn check_by<'a>(matches: &ArgMatches<'a>) -> Option<Asked<'a>>
    ensures { option_map task_of result ≡ check_by (rows_of (found_of matches.now)) }
{
    check_of(matches.get_str("file"))
}

fn prove_by<'a>(matches: &ArgMatches<'a>) -> Option<Asked<'a>>
    ensures { option_map task_of result ≡ prove_by (rows_of (found_of matches.now)) }
{
    prove_of(matches.get_str("reply"), matches.get_str("file"))
}

fn import_by<'a>(alloc: Global, matches: &ArgMatches<'a>) -> Result<Option<Asked<'a>>, Memory>
    ensures { IfOk result (λ asked. option_map task_of asked ≡ import_by (rows_of (found_of matches.now))) }
{
    let name = matches.get_str("name");
    import_of(alloc, name, matches.get_str("csv"), matches.get_str("file"))
}

fn export_by<'a>(alloc: Global, matches: &ArgMatches<'a>) -> Result<Option<Asked<'a>>, Memory>
    ensures { IfOk result (λ asked. option_map task_of asked ≡ export_by (rows_of (found_of matches.now))) }
{
    let name = matches.get_str("name");
    export_of(alloc, name, matches.get_str("file"))
}

/// What these words behind `run` ask for.
fn asked_of_run<'a>(alloc: Global, words: &'a [&'a str]) -> Result<Option<Asked<'a>>, Memory>
    ensures { IfOk result (λ asked. option_map task_of asked ≡ task_of_run (texts_of words.entry.now)) }
{
    match found(run_command(alloc)?, words)? {
        Some(matches) => run_by(alloc, &matches),
        None => Ok(None),
    }
}

/// What these words behind `fill` ask for.
fn asked_of_fill<'a>(alloc: Global, words: &'a [&'a str]) -> Result<Option<Asked<'a>>, Memory>
    ensures { IfOk result (λ asked. option_map task_of asked ≡ task_of_fill (texts_of words.entry.now)) }
{
    match found(fill_command(alloc)?, words)? {
        Some(matches) => Ok(fill_by(&matches)),
        None => Ok(None),
    }
}

/// What these words behind `check` ask for.
fn asked_of_check<'a>(alloc: Global, words: &'a [&'a str]) -> Result<Option<Asked<'a>>, Memory>
    ensures { IfOk result (λ asked. option_map task_of asked ≡ task_of_check (texts_of words.entry.now)) }
{
    match found(check_command(alloc)?, words)? {
        Some(matches) => Ok(check_by(&matches)),
        None => Ok(None),
    }
}

/// What these words behind `prove` ask for.
fn asked_of_prove<'a>(alloc: Global, words: &'a [&'a str]) -> Result<Option<Asked<'a>>, Memory>
    ensures { IfOk result (λ asked. option_map task_of asked ≡ task_of_prove (texts_of words.entry.now)) }
{
    match found(prove_command(alloc)?, words)? {
        Some(matches) => Ok(prove_by(&matches)),
        None => Ok(None),
    }
}

/// What these words behind `import` ask for.
fn asked_of_import<'a>(alloc: Global, words: &'a [&'a str]) -> Result<Option<Asked<'a>>, Memory>
    ensures { IfOk result (λ asked. option_map task_of asked ≡ task_of_import (texts_of words.entry.now)) }
{
    match found(import_command(alloc)?, words)? {
        Some(matches) => import_by(alloc, &matches),
        None => Ok(None),
    }
}

/// What these words behind `export` ask for.
fn asked_of_export<'a>(alloc: Global, words: &'a [&'a str]) -> Result<Option<Asked<'a>>, Memory>
    ensures { IfOk result (λ asked. option_map task_of asked ≡ task_of_export (texts_of words.entry.now)) }
{
    match found(export_command(alloc)?, words)? {
        Some(matches) => export_by(alloc, &matches),
        None => Ok(None),
    }
}

/// What the words after the program's name ask for, or `None` where they are not understood.
///
/// # Errors
/// `Memory` for want of memory.
pub fn asked<'a>(alloc: Global, words: &'a [&'a str]) -> Result<Option<Asked<'a>>, Memory>
    ensures { IfOk result (λ asked. option_map task_of asked ≡ task (texts_of words.entry.now)) }
{
    let Some((command, words)) = words.split_first() else {
        return Ok(None);
    };
    if *command == "run" {
        asked_of_run(alloc, words)
    } else if *command == "fill" {
        asked_of_fill(alloc, words)
    } else if *command == "check" {
        asked_of_check(alloc, words)
    } else if *command == "prove" {
        asked_of_prove(alloc, words)
    } else if *command == "import" {
        asked_of_import(alloc, words)
    } else if *command == "export" {
        asked_of_export(alloc, words)
    } else {
        Ok(None)
    }
}
