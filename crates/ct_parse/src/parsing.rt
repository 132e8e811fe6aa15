// Statements from all of their tokens.

ghost use Rattle.std.specs.Prelude.{◌≡◌, ◌≢◌, [], IfOk, IfErr, IsTrue, IsFalse};
ghost use Rattle.ct_parse.specs.Grammar.{said};
ghost use Rattle.ct_parse.specs.Nest as spec;
ghost use Rattle.ct_parse.specs.Parses.{Spells};
ghost use Rattle.ct_parse.specs.declared.error.ParseError.TheVariants as fault;
ghost use Rattle.ct_parse.specs.declared.tree.Statement.{Statement as StatementValue};

use crate::error::ParseError;
use crate::nest::is_too_deep;
use crate::statements;
use crate::tree::Statement;
use ct_lex::Token;
use std::alloc::Global;

/// What is found, where no tokens are left behind it.
pub fn all_read<T: Drop>(found: T, rest: &[Token]) -> Result<T, ParseError>
    ensures ok { IfOk result (λ t. t ≡ found) }
    ensures none_left { IfOk result (λ _. said rest.now ≡ []) }
    ensures left { IfErr result (λ e. e ≡ fault.NotAStatement) }
    ensures some_left { IfErr result (λ _. said rest.now ≢ []) }
{
    if rest.is_empty() {
        Ok(found)
    } else {
        Err(ParseError::NotAStatement)
    }
}

/// The statement that tokens spell.
///
/// # Errors
/// `TooDeep` exactly where the tokens nest deeper than 64 or have more than 64 set operators; else
/// `NotAStatement` exactly where no statement spells them. `Memory` may come in place of any answer.
pub fn statement(alloc: Global, tokens: &[Token]) -> Result<Statement, ParseError>
    ensures ok { IfOk result (λ st. Spells (said tokens.now) st) }

    // Whatever spells the tokens is what is answered.
    ensures only { IfOk result (λ st. (other : StatementValue) → Spells (said tokens.now) other → other ≡ st) }
    ensures none { IfErr result (λ e. e ≡ fault.NotAStatement → (st : StatementValue) → Spells (said tokens.now) st → ⊥) }

    // The depth is tested first.
    ensures deep { IfErr result (λ e. e ≡ fault.TooDeep → IsTrue (spec.is_too_deep (said tokens.now))) }
    ensures not_deep { IfErr result (λ e. e ≡ fault.NotAStatement → IsFalse (spec.is_too_deep (said tokens.now))) }
    ensures shallow { IfOk result (λ _. IsFalse (spec.is_too_deep (said tokens.now))) }
{
    if is_too_deep(alloc, tokens)? {
        return Err(ParseError::TooDeep);
    }
    let (found, rest) = statements::statement(alloc, tokens)?;
    all_read(found, rest)
}
