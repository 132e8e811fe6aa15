// What an assertion says: a condition, whether a query has rows, or a key.

ghost use Rattle.std.specs.Prelude.{◌≡◌, ◌≢◌, ◌∷◌, List as ListValue, codes, IfOk, IfErr, IfSome, IfNone, IsTrue};
ghost use Rattle.ct_lex.specs.declared.token.Lexeme.{Lexeme};
ghost use Rattle.ct_lex.specs.declared.token.Lexeme.TheVariants as lexical;
ghost use Rattle.ct_parse.specs.Grammar.{said, IsStatement};
ghost use Rattle.ct_parse.specs.Ends.{Fails, at_name, EndsStatement};
ghost use Rattle.ct_parse.specs.Reads.{Reads, Never};
ghost use Rattle.ct_parse.specs.declared.error.Unread.TheVariants as unread;

use crate::conditions::condition;
use crate::error::Unread;
use crate::front::{behind_word, is_at_name, name};
use crate::queries::enclosed;
use crate::rows::in_parentheses;
use crate::tree::Statement;
use ct_lex::Token;
use ct_word::Text;
use std::alloc::Global;

/// The tokens behind NOT EXISTS, where both words stand in front.
fn behind_not_exists(tokens: &[Token]) -> Option<&[Token]>
    ensures some { IfSome result (λ r. said tokens.now ≡ lexical.Word (codes "not") ∷ lexical.Word (codes "exists") ∷ said r.now) }
    ensures none { IfNone result ((r : ListValue Lexeme) → said tokens.now ≡ lexical.Word (codes "not") ∷ lexical.Word (codes "exists") ∷ r → ⊥) }
{
    let tail = behind_word(tokens, "not")?;
    behind_word(tail, "exists")
}

/// The tokens behind the word `key`, where it stands in front and a name follows: of a condition that
/// begins with a column of that name, none follows.
fn behind_key(tokens: &[Token]) -> Option<&[Token]>
    ensures some { IfSome result (λ r. said tokens.now ≡ lexical.Word (codes "key") ∷ said r.now) }
    ensures named { IfSome result (λ r. IsTrue (at_name (said r.now))) }
    ensures none { IfNone result ((r : ListValue Lexeme) → said tokens.now ≡ lexical.Word (codes "key") ∷ r → Fails (at_name r)) }
{
    let tail = behind_word(tokens, "key")?;
    if is_at_name(tail) { Some(tail) } else { None }
}

/// A table and the columns of its key, behind ASSERT KEY.
fn key(alloc: Global, tokens: &[Token]) -> Result<(Statement, &[Token]), Unread>
    requires { IsTrue (at_name (said tokens.now)) }
    ensures ok { IfOk result (λ p. Reads IsStatement EndsStatement (lexical.Word (codes "assert") ∷ lexical.Word (codes "key") ∷ said tokens.now) p.0 (said p.1.now)) }
    ensures none { IfErr result (λ e. e ≢ unread.Memory → Never IsStatement EndsStatement (lexical.Word (codes "assert") ∷ lexical.Word (codes "key") ∷ said tokens.now)) }
{
    let (name, rest) = name(alloc, tokens)?;
    let ((first, others), rest) = in_parentheses::<Text>(alloc, rest)?;
    Ok((
        Statement::AssertKey {
            name,
            first,
            rest: others,
        },
        rest,
    ))
}

/// A statement that keeps some of the worlds, behind ASSERT.
pub fn assertion(alloc: Global, tokens: &[Token]) -> Result<(Statement, &[Token]), Unread>
    ensures ok { IfOk result (λ p. Reads IsStatement EndsStatement (lexical.Word (codes "assert") ∷ said tokens.now) p.0 (said p.1.now)) }
    ensures none { IfErr result (λ e. e ≢ unread.Memory → Never IsStatement EndsStatement (lexical.Word (codes "assert") ∷ said tokens.now)) }
{
    if let Some(tail) = behind_word(tokens, "exists") {
        let (query, rest) = enclosed(alloc, tail)?;
        return Ok((Statement::AssertExists { not: false, query }, rest));
    }
    if let Some(tail) = behind_not_exists(tokens) {
        let (query, rest) = enclosed(alloc, tail)?;
        return Ok((Statement::AssertExists { not: true, query }, rest));
    }
    if let Some(tail) = behind_key(tokens) {
        return key(alloc, tail);
    }
    let (found, rest) = condition(alloc, tokens)?;
    Ok((Statement::Assert(found), rest))
}
