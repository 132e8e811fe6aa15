// How far the text of a refused statement was read.

use ct_advice::{Fault, FaultAt, fault_in};
use ct_lex::{LexError, Token, tokens};
use ct_parse::{ParseError, statement, statement_place};
use ct_word::Memory;
use std::alloc::Global;

/// What was read of a text: its tokens, or those before the leftmost place where no token can be read. Where they spell no
/// statement `stop` is the position of the one at which reading stopped, or how many there are, where the text ended too
/// early. A character that begins no token is left out as a fault where reading stopped before it.
#[derive(Drop)]
pub struct Reading {
    pub fault: Option<FaultAt>,
    pub tokens: Vec<Token>,
    pub stop: usize,
}

/// The position of the token that starts at a place, or how many tokens there are.
fn token_at(tokens: &[Token], place: Option<u64>) -> usize {
    let Some(place) = place else {
        return tokens.len();
    };
    tokens.partition_point(|token| token.start < place)
}

/// The position of the token at which reading tokens as a statement stops, where `is_unspelled`, or how many there are.
fn stop_of(alloc: Global, tokens: &[Token], is_unspelled: bool) -> Result<usize, Memory> {
    if is_unspelled {
        Ok(token_at(tokens, statement_place(alloc, tokens)?))
    } else {
        Ok(tokens.len())
    }
}

/// Whether tokens nest too deep for a statement.
fn is_too_deep(alloc: Global, tokens: &[Token]) -> Result<bool, Memory> {
    match statement(alloc, tokens) {
        Err(ParseError::Memory) => Err(Memory),
        Err(ParseError::TooDeep) => Ok(true),
        _ => Ok(false),
    }
}

fn is_stray(fault: Option<FaultAt>) -> bool {
    match fault {
        Some(fault) => matches!(fault.fault, Fault::Stray(_)),
        None => false,
    }
}

impl Reading {
    /// Reads what stands before the leftmost fault of a text.
    ///
    /// # Errors
    /// `Memory` where there is none for the tokens or for what they spell.
    fn of_faulty(alloc: Global, text: &str, is_unspelled: bool) -> Result<Reading, Memory> {
        let fault = fault_in(text);
        let end = match fault {
            Some(fault) => fault.at,
            None => 0,
        };
        let tokens = match tokens(alloc, text.get(0..end).unwrap_or("")) {
            Ok(tokens) => tokens,
            Err(LexError::Memory) => return Err(Memory),
            Err(_) => Vec::new(alloc),
        };
        let stop = stop_of(alloc, &tokens, is_unspelled)?;
        let is_before = stop < tokens.len() && is_stray(fault) && !is_too_deep(alloc, &tokens)?;
        Ok(Reading {
            fault: if is_before { None } else { fault },
            tokens,
            stop,
        })
    }

    /// Reads a text, as a statement where `is_unspelled`.
    ///
    /// # Errors
    /// `Memory` where there is none for the tokens or for what they spell.
    pub fn of(alloc: Global, text: &str, is_unspelled: bool) -> Result<Reading, Memory> {
        let tokens = match tokens(alloc, text) {
            Ok(tokens) => tokens,
            Err(LexError::Memory) => return Err(Memory),
            Err(_) => return Reading::of_faulty(alloc, text, is_unspelled),
        };
        let stop = stop_of(alloc, &tokens, is_unspelled)?;
        Ok(Reading {
            fault: None,
            tokens,
            stop,
        })
    }

    /// The place where reading stopped, in bytes from the beginning of the text: at a fault, at the token that does not fit,
    /// or behind the last one.
    pub fn place(&self) -> Option<usize> {
        if let Some(fault) = self.fault {
            return Some(fault.at);
        }
        let place = match self.tokens.get(self.stop) {
            Some(token) => token.start,
            None => self.tokens.last()?.end,
        };
        Some(place as usize)
    }
}
