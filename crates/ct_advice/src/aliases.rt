// Aliases that SQL would read otherwise, and texts with a line end.

ghost use Rattle.std.specs.Prelude.{◌≡◌, All, Any, nat_eq, IfOk, IfSome, IfNone, IsFalse};
ghost use Rattle.std.specs.List.{list_any};
ghost use Rattle.ct_advice.specs.Tokens.{breaks, IsBrokenAt, IsWordAt};

use crate::tokens::{is_among_at, is_name_at, is_same, is_symbol_at, is_word_at, word, word_at};
use ct_lex::{Lexeme, Symbol, Token};
use ct_word::Memory;
use std::alloc::Global;

/// The words that begin a join or a clause of SQL which is not there.
const MISLEADING: [&str; 16] = [
    "left", "right", "full", "outer", "natural", "cross", "limit", "offset", "order", "group",
    "having", "fetch", "using", "window", "asc", "desc",
];

/// An alias without AS that begins a join or a clause in SQL: its place in bytes, itself, its table, and what is not there.
#[derive(Clone, Copy)]
pub struct BareAlias<'a> {
    pub start: u64,
    pub alias: &'a str,
    pub table: &'a str,
    pub said: &'static str,
}

fn is_misleading(word: &str) -> bool {
    !word.is_empty() && MISLEADING.iter().any(|other| is_same(other, word))
}

/// What is not there that such an alias begins in SQL, where JOIN follows it or not.
fn absent(alias: &str, is_join: bool) -> &'static str {
    match alias {
        "left" | "right" | "full" | "outer" if is_join =>
            "this is an inner join, and there are no outer joins",
        "left" | "right" | "full" | "outer" => "there are no outer joins",
        "natural" => "there is no NATURAL JOIN",
        "cross" => "leave CROSS out",
        "limit" | "offset" | "fetch" => "there is no LIMIT",
        "order" | "asc" | "desc" => "there is no ORDER BY",
        "group" | "having" => "there is no GROUP BY",
        "using" => "there is no USING",
        _ => "there are no windows",
    }
}

/// Whether the name of a table stands at this position of a FROM.
fn is_table_at(alloc: Global, tokens: &[Token], i: usize) -> Result<bool, Memory> {
    let Some(before) = i.checked_sub(1) else {
        return Ok(false);
    };
    let is_first = is_among_at(tokens, before, &["from", "join"])
        || is_symbol_at(tokens, before, Symbol::Comma);
    Ok(is_first && is_name_at(alloc, tokens, i)?)
}

/// The first such alias of a statement.
///
/// # Errors
/// `Memory` where there is none for what is looked at.
pub fn bare_alias<'a>(alloc: Global, tokens: &'a [Token]) -> Result<Option<BareAlias<'a>>, Memory>
    ensures { IfOk result (λ found. IfSome found (λ a. Any (IsWordAt a.alias.now a.start) tokens.entry.now)) }
{
    for (i, token) in tokens.iter().enumerate() {
        let alias = word(token);
        if i > 0 && is_misleading(alias) && is_table_at(alloc, tokens, i - 1)? {
            let is_join = is_word_at(tokens, i.saturating_add(1), "join");
            return Ok(Some(BareAlias {
                start: token.start,
                alias,
                table: word_at(tokens, i - 1),
                said: absent(alias, is_join),
            }));
        }
    }
    Ok(None)
}

/// Whether there is a line end among bytes.
fn has_line_end(bytes: &[u8]) -> bool
    ensures { result ≡ list_any (nat_eq 10) bytes.now }
{
    bytes.iter().any(|byte| *byte == b'\n')
}

/// Whether a lexeme is a text with a line end in it.
fn is_broken(lexeme: &Lexeme) -> bool
    ensures { result ≡ breaks lexeme.now }
{
    match lexeme {
        Lexeme::Text(text) => has_line_end(text.as_str().as_bytes()),
        _ => false,
    }
}

/// The place of the first text that has a line end in it.
pub fn broken_text(tokens: &[Token]) -> Option<u64>
    ensures some { IfSome result (λ place. Any (IsBrokenAt place) tokens.now) }
    ensures none { IfNone result (All (λ t. IsFalse (breaks t.word)) tokens.now) }
{
    for token in tokens {
        if is_broken(&token.word) {
            return Some(token.start);
        }
    }
    None
}
