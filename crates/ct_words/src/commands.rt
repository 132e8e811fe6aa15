// The commands, and what they find in words.

ghost use Rattle.std.specs.Prelude.{◌≡◌, IfOk, false, true};
ghost use Rattle.clap.specs.Words.{app_of, rule_of, is_simple_and_free};
ghost use Rattle.ct_words.specs.Asked.{texts_of};
ghost use Rattle.ct_words.specs.Commands.{run_app, fill_app, check_app, prove_app, import_app, export_app, arena, first, workers, file, one, plain, rows_in};
ghost use Rattle.ct_words.specs.Commands as commands;

use clap::error::ErrorKind;
use clap::{Arg, ArgAction, ArgMatches, Command};
use ct_word::Memory;
use std::alloc::Global;

fn arena_arg<'a>(alloc: Global) -> Arg<'a>
    ensures rule { rule_of result ≡ arena }
    ensures local { result.global ≡ false }
{
    Arg::new(alloc, "arena")
        .long("arena")
        .action(ArgAction::Set)
        .default_value("262144")
}

fn first_arg<'a>(alloc: Global) -> Arg<'a>
    ensures rule { rule_of result ≡ first }
    ensures local { result.global ≡ false }
{
    Arg::new(alloc, "first")
        .long("first")
        .action(ArgAction::SetTrue)
}

fn workers_arg<'a>(alloc: Global) -> Arg<'a>
    ensures rule { rule_of result ≡ workers }
    ensures local { result.global ≡ false }
{
    Arg::new(alloc, "workers")
        .long("workers")
        .action(ArgAction::Set)
        .default_value("1")
}

fn file_arg<'a>(alloc: Global) -> Arg<'a>
    ensures rule { rule_of result ≡ file }
    ensures local { result.global ≡ false }
{
    Arg::new(alloc, "file")
        .required(true)
        .action(ArgAction::Append)
        .num_args(1..)
}

fn one_arg<'a>(alloc: Global, name: &'a str) -> Arg<'a>
    ensures rule { rule_of result ≡ one name.entry.now }
    ensures local { result.global ≡ false }
{
    Arg::new(alloc, name).required(true).action(ArgAction::Set)
}

fn plain_command<'a>(alloc: Global, name: &'a str) -> Command<'a>
    ensures { app_of result ≡ plain name.entry.now }
{
    Command::new(alloc, name)
        .no_binary_name(true)
        .disable_help_flag(true)
        .disable_version_flag(true)
}

/// The command of `run [--arena N] [--first] [--workers N] FILE...`.
///
/// # Errors
/// `Memory` where there is none for the command.
pub(crate) fn run_command<'a>(alloc: Global) -> Result<Command<'a>, Memory>
    ensures { IfOk result (λ command. app_of command ≡ run_app) }
{
    let plain = plain_command(alloc, "run");
    let with_arena = plain.arg(arena_arg(alloc))?;
    let with_first = with_arena.arg(first_arg(alloc))?;
    let with_workers = with_first.arg(workers_arg(alloc))?;
    let command = with_workers.arg(file_arg(alloc))?;
    Ok(command)
}

/// The command of `fill N`.
///
/// # Errors
/// `Memory` where there is none for the command.
pub(crate) fn fill_command<'a>(alloc: Global) -> Result<Command<'a>, Memory>
    ensures { IfOk result (λ command. app_of command ≡ fill_app) }
{
    let plain = plain_command(alloc, "fill");
    let command = plain.arg(one_arg(alloc, "n"))?;
    Ok(command)
}

/// The command of `check FILE`.
///
/// # Errors
/// `Memory` where there is none for the command.
pub(crate) fn check_command<'a>(alloc: Global) -> Result<Command<'a>, Memory>
    ensures { IfOk result (λ command. app_of command ≡ check_app) }
{
    let plain = plain_command(alloc, "check");
    let command = plain.arg(one_arg(alloc, "file"))?;
    Ok(command)
}

/// The command of `prove K FILE`.
///
/// # Errors
/// `Memory` where there is none for the command.
pub(crate) fn prove_command<'a>(alloc: Global) -> Result<Command<'a>, Memory>
    ensures { IfOk result (λ command. app_of command ≡ prove_app) }
{
    let plain = plain_command(alloc, "prove");
    let with_reply = plain.arg(one_arg(alloc, "reply"))?;
    let command = with_reply.arg(one_arg(alloc, "file"))?;
    Ok(command)
}

/// The command of `import NAME CSV FILE`.
///
/// # Errors
/// `Memory` where there is none for the command.
pub(crate) fn import_command<'a>(alloc: Global) -> Result<Command<'a>, Memory>
    ensures { IfOk result (λ command. app_of command ≡ import_app) }
{
    let plain = plain_command(alloc, "import");
    let with_name = plain.arg(one_arg(alloc, "name"))?;
    let with_csv = with_name.arg(one_arg(alloc, "csv"))?;
    let command = with_csv.arg(one_arg(alloc, "file"))?;
    Ok(command)
}

/// The command of `export NAME FILE`.
///
/// # Errors
/// `Memory` where there is none for the command.
pub(crate) fn export_command<'a>(alloc: Global) -> Result<Command<'a>, Memory>
    ensures { IfOk result (λ command. app_of command ≡ export_app) }
{
    let plain = plain_command(alloc, "export");
    let with_name = plain.arg(one_arg(alloc, "name"))?;
    let command = with_name.arg(one_arg(alloc, "file"))?;
    Ok(command)
}

/// What the command finds in the words, where it takes them.
///
/// # Errors
/// `Memory` for want of memory.
pub(crate) fn found<'a>(
    command: Command<'a>,
    words: &'a [&'a str],
) -> Result<Option<ArgMatches<'a>>, Memory>
    requires { is_simple_and_free (app_of command) ≡ true }
    ensures { IfOk result (λ matches. rows_in matches ≡ commands.found (app_of command.entry) (texts_of words.entry.now)) }
{
    let error = match command.try_get_matches_from(words) {
        Ok(matches) => return Ok(Some(matches)),
        Err(error) => error,
    };
    match error.kind() {
        ErrorKind::OutOfMemory => Err(Memory),
        _ => Ok(None),
    }
}
