// The tokens of a text.

ghost use Rattle.std.specs.Prelude.{◌≡◌, ◌≢◌, ℕ, List, map, Ok, Err, IfOk, IfErr};
ghost use Rattle.ct_lex.specs.Reading.{read, ReadsTokens, ReadsFault};
ghost use Rattle.ct_lex.specs.Tokens.{Lexes, AreSlices, FaultsAt};
ghost use Rattle.ct_lex.specs.Written.{AreWritten, TokensAreWritten};
ghost use Rattle.ct_lex.specs.declared.token.LexError.TheVariants as fault;

use crate::front::front;
use crate::token::{LexError, Token};
use std::alloc::Global;

/// The tokens of a text, in its order.
///
/// # Errors
/// The leftmost fault of the text, or `Memory` where there is none for the tokens.
pub fn tokens(alloc: Global, text: &str) -> Result<Vec<Token>, LexError>
    ensures value { IfOk result (λ v. read text.now ≡ Ok v.items) }
    ensures error { IfErr result (λ e. e ≢ fault.Memory → (place : ℕ) × (read text.now ≡ Err (place, e))) }

    // By the token table: the bytes spell these tokens, or there is this fault.
    ensures ok { IfOk result (λ v. Lexes text.now v.items) }
    ensures slices { IfOk result (λ v. AreSlices text.now v.items) }
    ensures written { IfOk result (λ v. AreWritten (map (λ t. t.word) v.items)) }
    ensures fault { IfErr result (λ e. e ≢ fault.Memory → (place : ℕ) × FaultsAt text.now place e) }

    // There are no other tokens, and no other fault.
    ensures only { IfOk result (λ v. (ts : List Token) → Lexes text.now ts → ts ≡ v.items) }
    ensures clean { IfOk result (λ v. (place : ℕ) (e : LexError) → FaultsAt text.now place e → ⊥) }
    ensures leftmost { IfErr result (λ e. e ≢ fault.Memory → (place : ℕ) (f : LexError) → FaultsAt text.now place f → f ≡ e) }
    ensures none { IfErr result (λ e. e ≢ fault.Memory → (ts : List Token) → Lexes text.now ts → ⊥) }
{
    let mut tokens = Vec::new(alloc);
    let mut start = 0;
    while start < text.len() {
        let (lexeme, length) = front(alloc, &text[start..])?;
        let end = start + length;
        if let Some(word) = lexeme {
            tokens.push(Token {
                word,
                start: start as u64,
                end: end as u64,
            })?;
        }
        start = end;
    }
    Ok(tokens)
}

/// The law that words and nulls of the tokens of any text have names that are spelled as words, in
/// lower case.
pub fn tokens_are_written()
    ensures { TokensAreWritten }
{}

/// The law that a text whose bytes spell tokens is read as these and as no others.
pub fn tokens_are_read()
    ensures { ReadsTokens }
{}

/// The law that a text that has a fault is read as this one and as no other.
pub fn faults_are_read()
    ensures { ReadsFault }
{}
