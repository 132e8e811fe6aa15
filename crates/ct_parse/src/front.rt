// What stands at the front of tokens.

ghost use Rattle.std.specs.Prelude.{◌≡◌, ◌≢◌, ◌↔◌, ◌∷◌, ℕ, List, [], IfOk, IfErr, IfSome, IfNone, IsTrue};
ghost use Rattle.ct_lex.specs.declared.token.Lexeme.{Lexeme as LexemeValue};
ghost use Rattle.ct_lex.specs.declared.token.Lexeme.TheVariants as lexical;
ghost use Rattle.ct_lex.specs.declared.token.Symbol.TheVariants as symbols;
ghost use Rattle.ct_word.specs.Writable.{is_name};
ghost use Rattle.ct_parse.specs.Grammar.{said, IsName};
ghost use Rattle.ct_parse.specs.Ends.{Fails, at_name, at_word, EndsAnyhow};
ghost use Rattle.ct_parse.specs.Reads.{Reads, Never};
ghost use Rattle.ct_parse.specs.declared.error.Unread.TheVariants as unread;

use crate::boxed::Boxed;
use crate::error::Unread;
use crate::names::is_name;
use ct_lex::{Lexeme, Symbol, Token};
use ct_word::Text;
use std::alloc::Global;

/// What the first token says, and the rest.
pub fn front(tokens: &[Token]) -> Option<(&Lexeme, &[Token])>
    ensures some { IfSome result (λ p. said tokens.now ≡ p.0.now ∷ said p.1.now) }
    ensures none { IfNone result (said tokens.now ≡ []) }
{
    match tokens {
        [first, rest @ ..] => Some((&first.word, rest)),
        [] => None,
    }
}

fn says_word(lexeme: &Lexeme, word: &str) -> bool
    ensures { IsTrue result ↔ (lexeme.now ≡ lexical.Word word.now) }
{
    match lexeme {
        Lexeme::Word(text) => text.as_str() == word,
        _ => false,
    }
}

fn says_symbol(lexeme: &Lexeme, symbol: Symbol) -> bool
    ensures { IsTrue result ↔ (lexeme.now ≡ lexical.Symbol symbol) }
{
    match lexeme {
        Lexeme::Symbol(other) => *other == symbol,
        _ => false,
    }
}

/// The tokens behind this word, where it stands in front.
pub fn behind_word<'a>(tokens: &'a [Token], word: &str) -> Option<&'a [Token]>
    ensures some { IfSome result (λ r. said tokens.now ≡ lexical.Word word.now ∷ said r.now) }
    ensures none { IfNone result (Fails (at_word word.now (said tokens.now))) }
{
    let (first, rest) = front(tokens)?;
    if says_word(first, word) {
        Some(rest)
    } else {
        None
    }
}

/// The tokens behind this symbol, where it stands in front.
pub fn behind_symbol(tokens: &[Token], symbol: Symbol) -> Option<&[Token]>
    ensures some { IfSome result (λ r. said tokens.now ≡ lexical.Symbol symbol ∷ said r.now) }
    ensures none { IfNone result ((r : List LexemeValue) → said tokens.now ≡ lexical.Symbol symbol ∷ r → ⊥) }
{
    let (first, rest) = front(tokens)?;
    if says_symbol(first, symbol) {
        Some(rest)
    } else {
        None
    }
}

/// The tokens behind this word, which has to stand in front.
pub fn expect_word<'a>(tokens: &'a [Token], word: &str) -> Result<&'a [Token], Unread>
    ensures ok { IfOk result (λ r. said tokens.now ≡ lexical.Word word.now ∷ said r.now) }
    ensures none { IfErr result (λ e. e ≢ unread.Memory → Fails (at_word word.now (said tokens.now))) }
{
    behind_word(tokens, word).ok_or(Unread::NotSpelled(tokens.len()))
}

/// The tokens behind this symbol, which has to stand in front.
pub fn expect_symbol(tokens: &[Token], symbol: Symbol) -> Result<&[Token], Unread>
    ensures ok { IfOk result (λ r. said tokens.now ≡ lexical.Symbol symbol ∷ said r.now) }
    ensures none { IfErr result (λ e. e ≢ unread.Memory → (r : List LexemeValue) → said tokens.now ≡ lexical.Symbol symbol ∷ r → ⊥) }
{
    behind_symbol(tokens, symbol).ok_or(Unread::NotSpelled(tokens.len()))
}

/// The box of what stands in parentheses, where the one in front closes them, and the tokens behind.
pub fn closed<T: Drop>(
    alloc: Global,
    inner: T,
    tokens: &[Token],
) -> Result<(Boxed<T>, &[Token]), Unread>
    ensures ok { IfOk result (λ p. p.0 ≡ inner) }
    ensures behind { IfOk result (λ p. said tokens.now ≡ lexical.Symbol symbols.RightParen ∷ said p.1.now) }
    ensures none { IfErr result (λ e. e ≢ unread.Memory → (r : List LexemeValue) → said tokens.now ≡ lexical.Symbol symbols.RightParen ∷ r → ⊥) }
{
    let Some(rest) = behind_symbol(tokens, Symbol::RightParen) else {
        drop(inner);
        return Err(Unread::NotSpelled(tokens.len()));
    };
    Ok((Boxed::new(alloc, inner)?, rest))
}

/// The name that a lexeme is.
fn name_said(lexeme: &Lexeme) -> Option<&str>
    ensures some { IfSome result (λ t. lexeme.now ≡ lexical.Word t.now) }
    ensures name { IfSome result (λ t. IsTrue (is_name t.now)) }
    ensures none { IfNone result ((t : List ℕ) → IsTrue (is_name t) → lexeme.now ≡ lexical.Word t → ⊥) }
{
    match lexeme {
        Lexeme::Word(text) if is_name(text.as_str()) => Some(text.as_str()),
        _ => None,
    }
}

/// Whether a name stands in front.
pub fn is_at_name(tokens: &[Token]) -> bool
    ensures { result ≡ at_name (said tokens.now) }
{
    let Some((first, _)) = front(tokens) else {
        return false;
    };
    name_said(first).is_some()
}

/// The name in front, and the tokens behind it.
pub fn name(alloc: Global, tokens: &[Token]) -> Result<(Text, &[Token]), Unread>
    ensures ok { IfOk result (λ p. Reads IsName EndsAnyhow (said tokens.now) p.0 (said p.1.now)) }
    ensures none { IfErr result (λ e. e ≢ unread.Memory → Never IsName EndsAnyhow (said tokens.now)) }
{
    let Some((first, rest)) = front(tokens) else {
        return Err(Unread::NotSpelled(tokens.len()));
    };
    let Some(name) = name_said(first) else {
        return Err(Unread::NotSpelled(tokens.len()));
    };
    Ok((Text::from_str(alloc, name)?, rest))
}
