// Where the statement texts of a script stand.

ghost use Rattle.std.specs.Prelude.{◌≡◌, ◌<◌, ◌≤◌, ◌+◌, ◌++◌, ◌^◌, length, map, if◌then◌else◌, IfOk, OnOk};
ghost use Rattle.ct_remarks.specs.Standing as spec;

use crate::pieces::{byte_at, lead};
use ct_lex::piece_len;
use ct_word::Memory;
use std::alloc::Global;

/// A place of a script, with its line and its column, which count from 1.
#[derive(Clone, Copy)]
pub struct Spot {
    pub at: usize,
    pub line: usize,
    pub column: usize,
}

/// A statement text with its place, and that of its first token.
#[derive(Clone, Copy)]
pub struct Placed<'a> {
    pub at: usize,
    pub first: usize,
    pub text: &'a str,
}

/// The place before a script.
pub const START: Spot = Spot {
    at: 0,
    line: 1,
    column: 1,
};

/// The spot behind this byte, which stands at the spot.
fn behind(spot: Spot, byte: u8) -> Spot
    requires line { spot.line ≤ spot.at + 1 }
    requires column { spot.column ≤ spot.at + 1 }
    requires room { spot.at + 2 < 2 ^ 64 }
    ensures at { result.at ≡ spot.at + 1 }
    ensures line { result.line ≡ (if spec.is_line_end byte then spot.line + 1 else spot.line) }
    ensures column { result.column ≡ spec.column_after spot.column byte }
{
    let at = spot.at + 1;
    if byte == b'\n' {
        let line = spot.line + 1;
        return Spot {
            at,
            line,
            column: 1,
        };
    }
    let is_inner = 128 <= byte && byte <= 191;
    let column = if is_inner {
        spot.column
    } else {
        spot.column + 1
    };
    Spot {
        at,
        line: spot.line,
        column,
    }
}

/// The spot at a place that does not stand before this spot.
fn moved(script: &str, spot: Spot, to: usize) -> Spot
    requires spot { spec.IsSpot script.now spot }
    requires order { spot.at ≤ to }
    requires within { to ≤ length script.now }
    requires room { to + 1 < 2 ^ 64 }
    ensures at { result.at ≡ to }
    ensures spot { spec.IsSpot script.now result }
{
    let mut now = spot;
    for at in spot.at..to {
        now = behind(now, byte_at(script, at));
    }
    now
}

/// The spot at a place of a script, from one that is known. Where that one stands before it, only what is between them is
/// read. Past the script it is that of its end.
pub fn spot_at(script: &str, known: Spot, to: usize) -> Spot
    requires { spec.IsSpot script.now known }
    ensures at { result.at ≡ to }
    ensures spot { spec.IsSpot script.now result }
{
    let end = to.min(script.len());
    let from = if known.at <= end { known } else { START };
    let Spot { line, column, .. } = moved(script, from, end);
    Spot {
        at: to,
        line,
        column,
    }
}

/// Adds the piece at this place, where it has a token.
fn push_piece<'a>(texts: &mut Vec<Placed<'a>>, at: usize, piece: &'a str) -> Result<(), Memory>
    requires room { at + length piece.now < 2 ^ 64 }
    ensures { OnOk result (map spec.placed_of texts.new.items ≡ map spec.placed_of texts.old.items ++ spec.placed_piece at piece.now) }
{
    let before = lead(piece);
    if before < piece.len() {
        texts.push(Placed {
            at,
            first: at + before,
            text: piece,
        })?;
    }
    Ok(())
}

/// The statement texts of a script with their places.
///
/// # Errors
/// `Memory` where there is none for the list.
#[tactic(auto, using(crate::proofs::Tokens::last_step, crate::proofs::Tokens::next_step))]
pub fn statement_texts(alloc: Global, script: &str) -> Result<Vec<Placed>, Memory>
    ensures { IfOk result (λ v. map spec.placed_of v.items ≡ spec.placed script.now) }
{
    let mut texts = Vec::new(alloc);
    let mut rest = script;
    let mut at = 0;
    loop {
        let (piece, behind) = rest.split_at(piece_len(rest));
        push_piece(&mut texts, at, piece)?;
        if behind.is_empty() {
            return Ok(texts);
        }
        rest = &behind[1..];
        at += piece.len() + 1;
    }
}
