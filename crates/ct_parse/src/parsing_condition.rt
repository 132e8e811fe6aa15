// Conditions from all of their tokens.

ghost use Rattle.std.specs.Prelude.{◌≡◌, IfOk, IfErr, IsTrue, IsFalse};
ghost use Rattle.ct_parse.specs.Grammar.{said};
ghost use Rattle.ct_parse.specs.Nest as spec;
ghost use Rattle.ct_parse.specs.Parses.{SpellsCondition};
ghost use Rattle.ct_parse.specs.declared.error.ParseError.TheVariants as fault;
ghost use Rattle.ct_parse.specs.declared.tree.Condition.{Condition as ConditionValue};

use crate::conditions;
use crate::error::ParseError;
use crate::nest::is_too_deep;
use crate::parsing::all_read;
use crate::tree::Condition;
use ct_lex::Token;
use std::alloc::Global;

/// The condition that tokens spell.
///
/// # Errors
/// `TooDeep` exactly where the tokens nest deeper than 64 or have more than 64 set operators; else
/// `NotAStatement` exactly where no condition spells them. `Memory` may come in place of any answer.
pub fn condition(alloc: Global, tokens: &[Token]) -> Result<Condition, ParseError>
    ensures ok { IfOk result (λ c. SpellsCondition (said tokens.now) c) }

    // Whatever spells the tokens is what is answered.
    ensures only { IfOk result (λ c. (other : ConditionValue) → SpellsCondition (said tokens.now) other → other ≡ c) }
    ensures none { IfErr result (λ e. e ≡ fault.NotAStatement → (c : ConditionValue) → SpellsCondition (said tokens.now) c → ⊥) }

    // The depth is tested first.
    ensures deep { IfErr result (λ e. e ≡ fault.TooDeep → IsTrue (spec.is_too_deep (said tokens.now))) }
    ensures not_deep { IfErr result (λ e. e ≡ fault.NotAStatement → IsFalse (spec.is_too_deep (said tokens.now))) }
    ensures shallow { IfOk result (λ _. IsFalse (spec.is_too_deep (said tokens.now))) }
{
    if is_too_deep(alloc, tokens)? {
        return Err(ParseError::TooDeep);
    }
    let (found, rest) = conditions::condition(alloc, tokens)?;
    all_read(found, rest)
}
