// The top call.

ghost use Rattle.std.specs.Prelude.{◌≡◌};
ghost use Rattle.ct_outside.specs.Outside.{AddedFront};
ghost use Rattle.ct_words.specs.Asked.{task, texts_of};
ghost use Rattle.ct_run.specs.Promise.{Promise, files_in};

use crate::checking::check;
use crate::ending::{Run, Status, no_run};
use crate::exporting::export_table;
use crate::files::run_files;
use crate::filling::fill;
use crate::importing::import_table;
use crate::proving::prove;
use ct_outside::{Gate, Scripts, Sink};
use ct_statement::Workers;
use ct_words::{Asked, asked};
use std::alloc::Global;
use std::sync::Wait;
use std::thread::Threads;

/// Runs what the words ask for, as `asked` of `ct_words` understands them:
/// - `run [--arena N] [--first] [--workers N] FILE...` runs a session for each of 1 to 64 files, on a log of N words of 64
///   bits, from 64 to 4,194,304, or of 262,144 without `--arena`, and writes their transcript. Above 1,048,576 words there are
///   at most 16 files. A file that is named twice has two sessions. With `--first` the session of the first file comes to its
///   end before the others begin. The questions of a statement are decided by as many workers as `--workers` says, from 1 to
///   16, or by one. The source is asked for the files in their order, once for each name;
/// - `fill N`, with N from 1 to 2,000, runs the sessions of the four scripts that `ct_fill` makes with N, on a log of
///   262,144 words, and writes the summary of their transcript. The source is not asked, so neither `ReadFault` nor
///   `Script` comes;
/// - `prove K FILE`, with K from 1 to 65,535, runs the session of one file, on a log of 262,144 words, and writes the
///   certificate of the log's words and of the proofs that reply K carries;
/// - `import NAME CSV FILE` runs one session, on a log of 262,144 words, and writes its transcript. Its script is the one
///   that `import` of `ct_csv` makes of the first file, for a table with this name, and then that of the second;
/// - `export NAME FILE` runs the session of one file, on a log of 262,144 words, and writes the CSV file that
///   `export` of `ct_csv` makes of the table with this name after its last statement;
/// - `check FILE` reads a certificate of at most 67,108,864 bytes, and writes what `judge` of `ct_cert` says of it. No
///   session runs.
///
/// `run`, `import` and `fill` write each line by one call, `prove`, `check` and `export` all that they write. What is said here of what the
/// source holds and was asked is promised where it tells this, and so with what the sink took.
///
/// Sessions run on threads, so but for `--first` their commits come in any order. The gate is called round each statement, on its session's
/// thread, and may wait. No clause is on the threads and on the gate.
///
/// A script has at most 1,048,576 bytes, is in UTF-8, and has at most 65,535 statements. The status is
/// - `Words` exactly where the words are not understood; then the source is not asked;
/// - `ReadFault` only where the source failed, and counted it: at the last file that was asked. The files before that one
///   are scripts;
/// - `Script` only where one of the files is no script, and those before it are;
/// - `WriteFault` only where the sink failed, and counted it: the lines before the one at fault were written, and a
///   prefix of that one;
/// - `Done` where every reply was made and every line written, and no reply is a refusal;
/// - `Refused` where the same holds, but some reply is a refusal, and none is for want of memory;
/// - `Memory` for want of memory. It may come in place of any other. Either nothing was written, or every line was, and
///   some reply is for want of memory.
///
/// Of `prove`, `Done` says that there is a proof, and `Refused` that there is none; with `Memory` nothing was written, and
/// it comes where reply K is for want of memory, too. Of `check`, `Done` says that the certificate is accepted, `Refused`
/// that it is not, and `Script` that the file is too long or no certificate; its transcript is empty.
///
/// Of `import`, `ReadFault` and `Script` come where the first file cannot be read or is no table, before the second one is
/// read. `Script` comes, too, where the whole script is none, which has the limits of one script.
///
/// Of `export`, `Done` says that the file was written, whatever the replies are. `Refused` says that the history makes no such
/// table, or that a row of it has too wide a condition for a file; then nothing was written.
///
/// With `Words`, `ReadFault` and `Script` the transcript is empty, and nothing was written. With every other status but
/// `Memory` it is the lawful transcript of the scripts that the files hold, or that were made; with `Memory` it is one of
/// the two.
pub fn run<R: Threads + Wait + Sync, S: Scripts, K: Sink, G: Gate + Sync>(
    rt: &R,
    alloc: Global,
    words: &[&str],
    scripts: &mut S,
    out: &mut K,
    gate: &G,
) -> Run
    ensures promise { Promise (task (texts_of words.now)) (record { held = S.held scripts.old; faults = S.faults scripts.old; faults' = S.faults scripts.new; asked = S.names scripts.old; asked' = S.names scripts.new }) (record { faults = K.faults out.old; faults' = K.faults out.new; taken = K.taken out.old; taken' = K.taken out.new; calls = K.calls out.old; calls' = K.calls out.new }) result.status result.transcript }
    ensures names { AddedFront (S.names scripts.old) (S.names scripts.new) (files_in (task (texts_of words.now))) }
{
    match asked(alloc, words) {
        Ok(
            Some(
                Asked::Run {
                    capacity,
                    files,
                    is_first_alone,
                    workers,
                },
            ),
        ) => {
            let files = files.as_slice();
            let workers = Workers::new(workers);
            run_files(
                rt,
                alloc,
                capacity,
                files,
                is_first_alone,
                workers,
                scripts,
                out,
                gate,
            )
        }
        Ok(Some(Asked::Fill { number })) => fill(rt, alloc, number, out, gate),
        Ok(Some(Asked::Check { file })) => check(alloc, file, scripts, out),
        Ok(Some(Asked::Prove { reply, file })) => {
            prove(rt, alloc, reply, file, scripts, out, gate)
        }
        Ok(Some(Asked::Import { name, csv, file })) => {
            let name = name.as_str();
            import_table(rt, alloc, name, csv, file, scripts, out, gate)
        }
        Ok(Some(Asked::Export { name, file })) => {
            export_table(rt, alloc, &name, file, scripts, out, gate)
        }
        Ok(None) => no_run(alloc, Status::Words),
        Err(_) => no_run(alloc, Status::Memory),
    }
}
