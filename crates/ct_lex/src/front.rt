// The token, blank or comment at the front of a text.

ghost use Rattle.std.specs.Prelude.{◌≡◌, ◌<◌, ◌≢◌, ◌≤◌, length, true, false, IfOk, IfErr, IfSome, IfNone, nat_eq, slice_index, take, drop};
ghost use Rattle.std.specs.Str.{IsCharBoundary};
ghost use Rattle.ct_word.specs.Writable as writable;
ghost use Rattle.ct_lex.specs.Scan.{IsFront};
ghost use Rattle.ct_lex.specs.Spelling as spelling;
ghost use Rattle.ct_lex.specs.Tokens.{FaultsHere};
ghost use Rattle.ct_lex.specs.declared.token.Lexeme.TheVariants as lexeme;
ghost use Rattle.ct_lex.specs.declared.token.LexError.TheVariants as fault;

use crate::scan::{Class, begins_word, byte_at, is_blank, is_digit, run_len};
use crate::token::{LexError, Lexeme, Symbol};
use ct_word::{Memory, Text};
use std::alloc::Global;

/// What stands at the front of a text: a token, or none at a blank or a comment, and its length.
type Front = (Option<Lexeme>, usize);

/// The word at the front in lower case, and its length.
fn word(alloc: Global, text: &str) -> Result<(Text, usize), Memory>
    requires { spelling.begins_word (slice_index text.now 0) ≡ true }
    ensures cut { IfOk result (λ p. IsCharBoundary text.now p.1) }
    ensures lowered { IfOk result (λ p. p.0 ≡ spelling.lowered (take p.1 text.now)) }
    ensures spelled { IfOk result (λ p. spelling.is_spelling (take p.1 text.now) ≡ true) }
    ensures ends { IfOk result (λ p. spelling.starts spelling.is_word_byte (drop p.1 text.now) ≡ false) }
{
    let end = run_len(text, Class::Word);
    let name = text[..end].to_ascii_lowercase(alloc)?;
    Ok((Text::from_string(name), end))
}

/// The number at the front: a digit, or a minus and a digit, begins it.
fn number(text: &str, sign: usize) -> Result<Front, LexError>
    requires digit { writable.is_digit (slice_index text.now sign) ≡ true }
    requires sign { take sign text.now ≡ spelling.sign_text (nat_eq sign 1) }
    requires short { sign ≤ 1 }
    ensures ok { IfOk result (λ p. IsFront text.now p.1 p.0) }
    ensures fault { IfErr result (λ e. FaultsHere text.now e) }
{
    let end = sign + run_len(&text[sign..], Class::Digit);
    match text[..end].parse::<i64>() {
        Ok(n) => Ok((Some(Lexeme::Number(n)), end)),
        Err(_) => Err(LexError::NumberRange),
    }
}

/// The text literal at the front, each doubled quote in it once.
fn literal(alloc: Global, text: &str) -> Result<Front, LexError>
    requires { slice_index text.now 0 ≡ 39 }
    ensures ok { IfOk result (λ p. IsFront text.now p.1 p.0) }
    ensures fault { IfErr result (λ e. e ≢ fault.Memory → FaultsHere text.now e) }
{
    let mut kept = String::new(alloc);
    let mut from = 1;
    loop {
        let quote = from + run_len(&text[from..], Class::NotQuote);
        if quote == text.len() {
            return Err(LexError::OpenText);
        }
        kept.push_str(&text[from..quote])?;
        if byte_at(text, quote + 1) != b'\'' {
            return Ok((Some(Lexeme::Text(Text::from_string(kept))), quote + 1));
        }
        kept.push('\'')?;
        from = quote + 2;
    }
}

/// The null at the front: `?` directly before a word.
#[tactic(auto, using(crate::proofs::Fronts::null_front, crate::proofs::Fronts::stray_question))]
fn null(alloc: Global, text: &str) -> Result<Front, LexError>
    requires { slice_index text.now 0 ≡ 63 }
    ensures ok { IfOk result (λ p. IsFront text.now p.1 p.0) }
    ensures fault { IfErr result (λ e. e ≢ fault.Memory → FaultsHere text.now e) }
{
    if !begins_word(byte_at(text, 1)) {
        return Err(LexError::StrayByte);
    }
    let (name, length) = word(alloc, &text[1..])?;
    Ok((Some(Lexeme::Null(name)), 1 + length))
}

/// The number or the comment at the front, which begins with a minus.
#[tactic(auto, using(crate::proofs::Fronts::stray_minus))]
fn minus(text: &str) -> Result<Front, LexError>
    requires { slice_index text.now 0 ≡ 45 }
    ensures ok { IfOk result (λ p. IsFront text.now p.1 p.0) }
    ensures fault { IfErr result (λ e. FaultsHere text.now e) }
{
    let next = byte_at(text, 1);
    if next == b'-' {
        return Ok((None, run_len(text, Class::Comment)));
    }
    if is_digit(next) {
        return number(text, 1);
    }
    Err(LexError::StrayByte)
}

/// The symbol at the front, and its length.
#[tactic(auto, using(crate::proofs::Fronts::left_paren_front, crate::proofs::Fronts::right_paren_front, crate::proofs::Fronts::comma_front, crate::proofs::Fronts::dot_front, crate::proofs::Fronts::star_front, crate::proofs::Fronts::equal_front, crate::proofs::Fronts::unequal_front, crate::proofs::Fronts::not_equal_front))]
fn symbol(text: &str) -> Option<(Symbol, usize)>
    ensures some { IfSome result (λ p. IsFront text.now p.1 (Some (lexeme.Symbol p.0))) }
    ensures none { IfNone result (spelling.begins_symbol (slice_index text.now 0) (drop 1 text.now) ≡ false) }
{
    match (byte_at(text, 0), byte_at(text, 1)) {
        (b'(', _) => Some((Symbol::LeftParen, 1)),
        (b')', _) => Some((Symbol::RightParen, 1)),
        (b',', _) => Some((Symbol::Comma, 1)),
        (b'.', _) => Some((Symbol::Dot, 1)),
        (b'*', _) => Some((Symbol::Star, 1)),
        (b'=', _) => Some((Symbol::Equal, 1)),
        (b'<', b'>') | (b'!', b'=') => Some((Symbol::Unequal, 2)),
        _ => None,
    }
}

/// What stands at the front of a text that is not empty.
///
/// # Errors
/// The fault at the front, or `Memory` where there is none for the token.
#[tactic(auto, using(crate::proofs::Fronts::blank_front, crate::proofs::Fronts::word_front, crate::proofs::Fronts::stray_other))]
pub fn front(alloc: Global, text: &str) -> Result<Front, LexError>
    requires { 0 < length text.now }
    ensures ok { IfOk result (λ p. IsFront text.now p.1 p.0) }
    ensures fault { IfErr result (λ e. e ≢ fault.Memory → FaultsHere text.now e) }
{
    let first = byte_at(text, 0);
    if is_blank(first) {
        return Ok((None, 1));
    }
    if begins_word(first) {
        let (name, length) = word(alloc, text)?;
        return Ok((Some(Lexeme::Word(name)), length));
    }
    if is_digit(first) {
        return number(text, 0);
    }
    match first {
        b'\'' => literal(alloc, text),
        b'-' => minus(text),
        b'?' => null(alloc, text),
        _ => match symbol(text) {
            Some((symbol, length)) => Ok((Some(Lexeme::Symbol(symbol)), length)),
            None => Err(LexError::StrayByte),
        },
    }
}
