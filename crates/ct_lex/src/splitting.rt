// The statement texts of a script.

ghost use Rattle.std.specs.Prelude.{◌≡◌, ◌∷◌, ◌<◌, ◌&&◌, ℕ, List, [], length, map, nat_eq, take, drop, slice_index, IfOk};
ghost use Rattle.std.specs.Str.{IsCharBoundary};
ghost use Rattle.ct_lex.specs.Splitting.{Splits, SplitsTexts};
ghost use Rattle.ct_lex.specs.Texts as spec;

use crate::scan::{byte_at, is_blank};
use ct_word::Memory;
use std::alloc::Global;

/// Where a byte stands: in a text literal, in a comment, or in neither. A doubled quote is read as
/// the end of one literal and the start of another.
#[derive(Clone, Copy)]
pub enum Place {
    Plain,
    InText,
    InComment,
}

/// Whether a comment begins at this byte before the next one.
fn begins_comment(byte: u8, next: u8) -> bool
    ensures { result ≡ (nat_eq byte 45 && nat_eq next 45) }
{
    byte == b'-' && next == b'-'
}

/// Where the byte behind this one stands.
fn place_after(place: Place, byte: u8, next: u8) -> Place
    ensures { result ≡ spec.place_after place byte (next ∷ []) }
{
    match place {
        Place::Plain if byte == b'\'' => Place::InText,
        Place::Plain if begins_comment(byte, next) => Place::InComment,
        Place::InText if byte != b'\'' => Place::InText,
        Place::InComment if byte != b'\n' => Place::InComment,
        _ => Place::Plain,
    }
}

/// Whether a byte there ends a piece.
fn ends_piece(place: Place, byte: u8) -> bool
    ensures { result ≡ spec.ends_piece place byte }
{
    match place {
        Place::Plain => byte == b';',
        _ => false,
    }
}

/// How long the first piece is: up to a `;` outside text literals and comments, or all.
#[tactic(auto, using(crate::proofs::Pieces::goes_on, crate::proofs::Pieces::ends_at_semicolon, crate::proofs::Pieces::ends_at_end))]
pub fn piece_len(script: &str) -> usize
    ensures first { spec.pieces script.now ≡ take result script.now ∷ spec.pieces_behind (drop result script.now) }
    ensures cut { IsCharBoundary script.now result }
    ensures ends { result < length script.now → slice_index script.now result ≡ 59 }
{
    let mut place = Place::Plain;
    for at in 0..script.len() {
        let byte = byte_at(script, at);
        if ends_piece(place, byte) {
            return at;
        }
        place = place_after(place, byte, byte_at(script, at + 1));
    }
    script.len()
}

/// Whether a piece has more than blanks and comments.
fn has_token(piece: &str) -> bool
    ensures { result ≡ spec.has_token piece.now }
{
    let mut in_comment = false;
    for at in 0..piece.len() {
        let byte = byte_at(piece, at);
        if in_comment {
            in_comment = byte != b'\n';
        } else if begins_comment(byte, byte_at(piece, at + 1)) {
            in_comment = true;
        } else if !is_blank(byte) {
            return true;
        }
    }
    false
}

/// The statement texts of a script: what stands between the `;` outside text literals and
/// comments, without the pieces that have only blanks and comments.
///
/// # Errors
/// `Memory` where there is none for the list.
pub fn split(alloc: Global, script: &str) -> Result<Vec<&str>, Memory>
    ensures value { IfOk result (λ v. map (λ t. t.now) v.items ≡ spec.texts script.now) }

    // These are the pieces between the `;`, those with tokens, and there are no others.
    ensures splits { IfOk result (λ v. Splits script.now (map (λ t. t.now) v.items)) }
    ensures only { IfOk result (λ v. (ts : List (List ℕ)) → Splits script.now ts → ts ≡ map (λ t. t.now) v.items) }
{
    let mut texts = Vec::new(alloc);
    let mut rest = script;
    loop {
        let (piece, behind) = rest.split_at(piece_len(rest));
        if has_token(piece) {
            texts.push(piece)?;
        }
        if behind.is_empty() {
            return Ok(texts);
        }
        rest = &behind[1..];
    }
}

/// The law that the texts of a script are its pieces that have tokens.
pub fn texts_are_pieces()
    ensures { SplitsTexts }
{}
