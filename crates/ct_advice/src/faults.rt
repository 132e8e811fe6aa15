// The leftmost fault of a text that has no tokens.

/// What stands where no token can be read.
#[derive(Clone, Copy)]
pub enum Fault {
    /// A quote without its end.
    Open,
    /// A number that is out of range, of so many bytes.
    Number(usize),
    /// A character that begins nothing.
    Stray(char),
}

/// A fault, and its place in bytes from the beginning of the text.
#[derive(Clone, Copy)]
pub struct FaultAt {
    pub at: usize,
    pub fault: Fault,
}

fn begins_word(byte: u8) -> bool {
    matches!(byte, b'a'..=b'z' | b'A'..=b'Z' | b'_')
}

fn word_len(bytes: &[u8]) -> usize {
    bytes
        .iter()
        .take_while(|byte| begins_word(**byte) || byte.is_ascii_digit())
        .count()
}

fn comment_len(bytes: &[u8]) -> usize {
    bytes.iter().take_while(|byte| **byte != b'\n').count()
}

/// How long the number at the front is, which begins with a digit or a minus.
fn number_len(text: &str) -> Result<usize, Fault> {
    let digits = text
        .bytes()
        .skip(1)
        .take_while(|byte| byte.is_ascii_digit());
    let end = digits.count().saturating_add(1);
    match text.get(..end).unwrap_or("").parse::<i64>() {
        Ok(_) => Ok(end),
        Err(_) => Err(Fault::Number(end)),
    }
}

/// How long the text literal at the front is, with each doubled quote in it.
fn literal_len(bytes: &[u8]) -> Result<usize, Fault> {
    let mut is_open = true;
    for (i, byte) in bytes.iter().enumerate().skip(1) {
        if *byte == b'\'' {
            is_open = !is_open;
        } else if !is_open {
            return Ok(i);
        }
    }
    if is_open {
        Err(Fault::Open)
    } else {
        Ok(bytes.len())
    }
}

/// The fault of a text at whose front nothing begins.
fn stray(text: &str) -> Result<usize, Fault> {
    match text.chars().next() {
        Some(c) => Err(Fault::Stray(c)),
        None => Ok(0),
    }
}

/// How long what stands at the front is: a token, a blank or a comment.
fn front_len(text: &str) -> Result<usize, Fault> {
    let bytes = text.as_bytes();
    match bytes {
        [b'-', b'-', ..] => Ok(comment_len(bytes)),
        [b'-', next, ..] if next.is_ascii_digit() => number_len(text),
        [b'?', next, ..] if begins_word(*next) => Ok(word_len(
            bytes.get(1..).unwrap_or(&[]),
        ).saturating_add(1)),
        [b'<', b'>', ..] | [b'!', b'=', ..] => Ok(2),
        [
            b' ' | b'\t' | b'\n' | b'\r' | b'(' | b')' | b',' | b'.' | b'*' | b'=',
            ..
        ] => Ok(1),
        [b'\'', ..] => literal_len(bytes),
        [first, ..] if first.is_ascii_digit() => number_len(text),
        [first, ..] if begins_word(*first) => Ok(word_len(bytes)),
        _ => stray(text),
    }
}

/// The leftmost fault of a text, where it has one.
pub fn fault_in(text: &str) -> Option<FaultAt> {
    let mut at: usize = 0;
    // Each round but the last one goes on by a byte or more.
    for _ in 0..text.len() {
        match front_len(text.get(at..)?) {
            Ok(0) => return None,
            Ok(length) => at = at.saturating_add(length),
            Err(fault) => return Some(FaultAt { at, fault }),
        }
    }
    None
}
