// What is said on standard error of a run with a transcript.

use ct_word::{Memory, Text};
use std::alloc::Global;

const BOLD: &str = "\x1b[1m";

const RED: &str = "\x1b[31m";

const CYAN: &str = "\x1b[36m";

const PLAIN: &str = "\x1b[0m";

/// A line with its place in bold, and the name of a refusal, or the word `note`, in a colour.
///
/// # Errors
/// `Memory` where there is none for the text.
fn coloured(alloc: Global, line: &str) -> Result<String, Memory> {
    if let Some((place, behind)) = line.split_once(": statement ") {
        if let Some((number, said)) = behind.split_once(" refused ") {
            let (word, rest) = said.split_once(": ").unwrap_or((said, ""));
            let text = format!(in alloc;
                "{BOLD}{place}{PLAIN}: statement {number} {RED}refused {word}{PLAIN}: {rest}"
            )?;
            return Ok(text);
        }
    }
    if let Some((place, said)) = line.split_once(": note: ") {
        return Ok(format!(in alloc; "{BOLD}{place}{PLAIN}: {CYAN}note{PLAIN}: {said}")?);
    }
    Ok(String::from_str(alloc, line)?)
}

/// Writes lines to standard error, with colours where it is asked for them. Where one cannot be made or written, the rest is
/// left out.
pub fn say<R: AllocGlobal + Eprint>(rt: &R, lines: &[Text], has_colours: bool) {
    for line in lines {
        let line = line.as_str();
        let written = if has_colours {
            match coloured(rt.alloc(), line) {
                Ok(text) => eprintln!(rt; "{text}"),
                Err(Memory) => return,
            }
        } else {
            eprintln!(rt; "{line}")
        };
        if written.is_err() {
            return;
        }
    }
}
