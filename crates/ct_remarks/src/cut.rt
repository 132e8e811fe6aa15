// The beginning of a statement on one line.

use crate::pieces::{begins_comment, byte_at, is_blank, lead};
use ct_word::Memory;
use std::alloc::Global;

/// How many characters of a statement are repeated.
const LENGTH: usize = 60;

/// How many characters stand up to a place.
#[derive(Clone, Copy)]
struct Run {
    end: usize,
    characters: usize,
}

/// What is repeated as it stands from a place on: all up to a blank or a comment outside of texts, at most so many
/// characters.
fn run_from(text: &str, start: usize, most: usize) -> Run {
    let mut in_text = false;
    let mut characters: usize = 0;
    for at in start..text.len() {
        let byte = byte_at(text, at);
        let is_first = byte < 128 || byte > 191;
        let is_gap = is_blank(byte) || begins_comment(byte, byte_at(text, at.saturating_add(1)));
        if (is_gap && !in_text) || (is_first && characters >= most) {
            return Run {
                end: at,
                characters,
            };
        }
        in_text = in_text != (byte == b'\'');
        characters = characters.saturating_add(usize::from(is_first));
    }
    Run {
        end: text.len(),
        characters,
    }
}

/// The first characters of a statement, each run of blanks and comments as one blank, and none at the end.
///
/// # Errors
/// `Memory` where there is none for the text.
pub fn cut(alloc: Global, text: &str) -> Result<String, Memory> {
    let mut out = String::new(alloc);
    let mut start: usize = 0;
    let mut left = LENGTH;
    // Each round but the first one takes a character or more.
    for _ in 0..LENGTH + 2 {
        let run = run_from(text, start, left);
        out.push_str(text.get(start..run.end).unwrap_or(""))?;
        left = left.saturating_sub(run.characters);
        let behind = text.get(run.end..).unwrap_or("");
        let gap = lead(behind);
        if gap >= behind.len() {
            return Ok(out);
        }
        if left == 0 {
            break;
        }
        start = run.end.saturating_add(gap);
        if !out.is_empty() {
            out.push(' ')?;
            left = left.saturating_sub(1);
        }
    }
    out.push_str(" ..")?;
    Ok(out)
}
