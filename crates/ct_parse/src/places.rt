// Where the reading of tokens stops.

ghost use Rattle.std.specs.Prelude.{◌≡◌, length, None, Ok, IfOk, IfErr, IfSome, IsErr, IsFalse};
ghost use Rattle.ct_parse.specs.Grammar.{said};
ghost use Rattle.ct_parse.specs.Nest as spec;
ghost use Rattle.ct_parse.specs.Parses.{Spells, SpellsCondition};
ghost use Rattle.ct_parse.specs.Places.{IsStart};
ghost use Rattle.ct_parse.specs.declared.error.Unread.TheVariants as unread;
ghost use Rattle.ct_parse.specs.declared.tree.Condition.{Condition};
ghost use Rattle.ct_parse.specs.declared.tree.Statement.{Statement};

use crate::error::Unread;
use crate::nest::depth_passed;
use crate::{conditions, statements};
use ct_lex::Token;
use ct_word::Memory;
use std::alloc::Global;

/// The place where the first of the last `left` tokens starts.
fn start_of(tokens: &[Token], left: usize) -> Option<u64>
    ensures start { IfSome result (λ place. IsStart tokens.now place) }
    ensures end { left ≡ 0 → result ≡ None }
{
    let read = tokens.len().checked_sub(left)?;
    Some(tokens.get(read)?.start)
}

/// How many tokens a reader has left, whether it has read its part or stopped within.
fn left_by<T: Drop>(read: Result<(T, &[Token]), Unread>) -> Result<usize, Memory>
    ensures ok { IfOk read.entry (λ p. result ≡ Ok (length p.1.now)) }
    ensures err { IfErr read.entry (λ e. e ≡ unread.Memory → IsErr result) }
{
    match read {
        Ok((found, rest)) => {
            drop(found);
            Ok(rest.len())
        }
        Err(Unread::NotSpelled(left)) => Ok(left),
        Err(Unread::Memory) => Err(Memory),
    }
}

/// The place where reading tokens as a statement stops: where the first token starts that does not
/// go on from those before it, or none at the end of the text. A statement is read up to its end.
/// Of tokens that nest too deep it is where the first starts that is too much.
///
/// # Errors
/// `Memory` where there is none for what is read.
pub fn statement_place(alloc: Global, tokens: &[Token]) -> Result<Option<u64>, Memory>
    ensures start { IfOk result (λ o. IfSome o (λ place. IsStart tokens.now place)) }
    ensures whole { IfOk result (λ o. IsFalse (spec.is_too_deep (said tokens.now)) → (st : Statement) → Spells (said tokens.now) st → o ≡ None) }
{
    if let Some(left) = depth_passed(alloc, tokens)? {
        return Ok(start_of(tokens, left));
    }
    let left = left_by(statements::statement(alloc, tokens))?;
    Ok(start_of(tokens, left))
}

/// The place where reading tokens as a condition stops, as `statement_place` has it.
///
/// # Errors
/// `Memory` where there is none for what is read.
pub fn condition_place(alloc: Global, tokens: &[Token]) -> Result<Option<u64>, Memory>
    ensures start { IfOk result (λ o. IfSome o (λ place. IsStart tokens.now place)) }
    ensures whole { IfOk result (λ o. IsFalse (spec.is_too_deep (said tokens.now)) → (c : Condition) → SpellsCondition (said tokens.now) c → o ≡ None) }
{
    if let Some(left) = depth_passed(alloc, tokens)? {
        return Ok(start_of(tokens, left));
    }
    let left = left_by(conditions::condition(alloc, tokens))?;
    Ok(start_of(tokens, left))
}
