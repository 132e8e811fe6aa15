// What the fields of a record say.

ghost use Rattle.std.specs.Prelude.{◌≡◌, ℕ, List, [], Some, slice_index_or, Ok, option_map, IfOk, IfErr, IfSome, IfNone};
ghost use Rattle.std.specs.List.{list_any};
ghost use Rattle.csv.specs.Records.{fields_of};
ghost use Rattle.ct_word.specs.Condition.{Condition};
ghost use Rattle.ct_lex.specs.Reading.{read};
ghost use Rattle.ct_lex.specs.Tokens.{AreSlices};
ghost use Rattle.ct_lex.specs.Written.{AreWritten, IsWritten};
ghost use Rattle.ct_lex.specs.declared.token.Token.{Token};
ghost use Rattle.ct_parse.specs.Grammar.{said};
ghost use Rattle.ct_csv.specs.Fields as spec;
ghost use Rattle.ct_csv.specs.Refusing.{IsCondition, IsUnnamed};

use crate::error::ImportError;
use csv::StringRecord;
use ct_lex::{LexError, Lexeme, Token, tokens};
use ct_parse::{ParseError, condition, name_of};
use ct_word::{Memory, Null, Term, Text, Value};
use std::alloc::Global;

/// The field at a position of a record, or an empty text past its end.
pub fn field(row: &StringRecord, k: usize) -> &str
    ensures { result.now ≡ slice_index_or (fields_of row.now) k [] }
{
    match row.get(k) {
        Some(text) => text,
        None => "",
    }
}

/// The name that a whole field is, in lower case.
fn name(alloc: Global, field: &str) -> Result<Option<Text>, Memory>
    ensures { IfOk result (λ o. o ≡ spec.field_name field.now) }
{
    name_of(alloc, field)
}

/// The columns that a first record names.
///
/// # Errors
/// `BadHeader` exactly where it names none, and `Memory`.
pub fn columns(alloc: Global, row: &StringRecord) -> Result<Vec<Text>, ImportError>
    ensures ok { IfOk result (λ names. spec.columns_of (fields_of row.now) ≡ Some names.items) }
    ensures error { IfErr result (λ e. IsUnnamed (fields_of row.now) e) }
{
    let last = row.len().saturating_sub(1);
    if last == 0 || field(row, last) != "if" {
        return Err(ImportError::BadHeader);
    }
    let mut names = Vec::new(alloc);
    for k in 0..last {
        match name(alloc, field(row, k))? {
            Some(name) => names.push(name)?,
            None => return Err(ImportError::BadHeader),
        }
    }
    Ok(names)
}

/// The tokens of a field, if it has no fault.
fn tokens_in(alloc: Global, field: &str) -> Result<Option<Vec<Token>>, Memory>
    ensures value { IfOk result (λ o. option_map (λ v. v.items) o ≡ spec.found (read field.now)) }
    ensures slices { IfOk result (λ o. IfSome o (λ v. AreSlices field.now v.items)) }
    ensures written { IfOk result (λ o. IfSome o (λ v. AreWritten (said v.items))) }
{
    match tokens(alloc, field) {
        Ok(found) => Ok(Some(found)),
        Err(LexError::Memory) => Err(Memory),
        Err(_) => Ok(None),
    }
}

/// The term of a number, a text or a marked null.
fn term(word: Lexeme) -> Option<Term>
    ensures { result ≡ spec.term_of word }
{
    match word {
        Lexeme::Number(number) => Some(Term::Value(Value::Int(number))),
        Lexeme::Text(text) => Some(Term::Value(Value::Text(text))),
        Lexeme::Null(name) => Some(Term::Null(Null::Named(name))),
        _ => None,
    }
}

/// The term of tokens, where they are one token.
fn term_alone(mut tokens: Vec<Token>) -> Option<Term>
    ensures { result ≡ spec.term_alone (Some tokens.items) }
{
    if tokens.len() > 1 {
        return None;
    }
    match tokens.pop() {
        Some(token) => term(token.word),
        None => None,
    }
}

/// The term of a cell's field, if it is one.
pub fn cell(alloc: Global, field: &str) -> Result<Option<Term>, Memory>
    ensures { IfOk result (λ o. o ≡ spec.cell_of field.now) }
{
    match tokens_in(alloc, field)? {
        Some(found) => Ok(term_alone(found)),
        None => Ok(None),
    }
}

/// Whether a token is a name.
fn is_name(alloc: Global, token: &Token) -> Result<bool, Memory>
    ensures { IfOk result (λ b. IsWritten token.now.word → b ≡ spec.is_name_word token.now.word) }
{
    match &token.word {
        Lexeme::Word(word) => Ok(name_of(alloc, word.as_str())?.is_some()),
        _ => Ok(false),
    }
}

/// Whether there is a name among tokens.
fn has_name(alloc: Global, tokens: &[Token]) -> Result<bool, Memory>
    requires { AreWritten (said tokens.now) }
    ensures { IfOk result (λ b. b ≡ list_any spec.is_name_word (said tokens.now)) }
{
    let mut rest = tokens;
    while let [token, after @ ..] = rest {
        if is_name(alloc, token)? {
            return Ok(true);
        }
        rest = after;
    }
    Ok(false)
}

/// The tokens of a condition's field, if it is one.
pub fn condition_tokens(alloc: Global, field: &str) -> Result<Option<Vec<Token>>, Memory>
    ensures some { IfOk result (λ o. IfSome o (λ v. (c : Condition) × spec.HasCondition field.now v.items c)) }
    ensures read { IfOk result (λ o. IfSome o (λ v. read field.now ≡ Ok v.items)) }
    ensures slices { IfOk result (λ o. IfSome o (λ v. AreSlices field.now v.items)) }
    ensures none { IfOk result (λ o. IfNone o (IsCondition field.now → ⊥)) }
{
    if field.is_empty() {
        return Ok(Some(Vec::new(alloc)));
    }
    let Some(found) = tokens_in(alloc, field)? else {
        return Ok(None);
    };
    if has_name(alloc, &found)? {
        return Ok(None);
    }
    match condition(alloc, &found) {
        Ok(_) => Ok(Some(found)),
        Err(ParseError::Memory) => Err(Memory),
        Err(_) => Ok(None),
    }
}
