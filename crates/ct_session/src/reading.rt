// How a text is read as a statement.

ghost use Rattle.std.specs.Prelude.{◌≡◌, ◌≢◌, IfOk, IfErr};
ghost use Rattle.ct_parse.specs.declared.tree.Statement.{Statement as StatementValue};
ghost use Rattle.ct_transcript.specs.declared.reply.Refusal.{Refusal as RefusalValue};
ghost use Rattle.ct_transcript.specs.declared.reply.Refusal.TheVariants as refusal;
ghost use Rattle.ct_transaction.specs.Statements.{IsTextFault, ReadsAs, grammatical_refusal, lexical_refusal};

use ct_lex::{LexError, tokens};
use ct_parse::{ParseError, Statement, statement};
use ct_transcript::Refusal;
use std::alloc::Global;

/// The refusal of a text without tokens.
fn lexical(e: LexError) -> Refusal
    ensures { result ≡ lexical_refusal e }
{
    match e {
        LexError::OpenText | LexError::StrayByte => Refusal::NotAStatement,
        LexError::NumberRange => Refusal::NumberRange,
        LexError::Memory => Refusal::Memory,
    }
}

/// The refusal of tokens that spell no statement.
fn grammatical(e: ParseError) -> Refusal
    ensures { result ≡ grammatical_refusal e }
{
    match e {
        ParseError::NotAStatement => Refusal::NotAStatement,
        ParseError::TooDeep => Refusal::TooDeep,
        ParseError::Memory => Refusal::Memory,
    }
}

/// The statement that a text is read as.
///
/// # Errors
/// The first that fits: `NumberRange` where the leftmost fault of the text is a number outside 64 bits signed, or
/// `NotAStatement` where it is an open text or a stray byte; `TooDeep` where the text nests deeper than 64 or has more
/// than 64 set operators; `NotAStatement` where its tokens spell no statement. `Memory` may come in place of any answer.
pub fn read(alloc: Global, text: &str) -> Result<Statement, Refusal>
    ensures ok { IfOk result (λ st. ReadsAs text.now st) }
    ensures fault { IfErr result (λ why. why ≢ refusal.Memory → IsTextFault text.now why) }

    // It is read as no other, and has no other fault.
    ensures only { IfOk result (λ st. (other : StatementValue) → ReadsAs text.now other → other ≡ st) }
    ensures clean { IfOk result (λ _. (why : RefusalValue) → IsTextFault text.now why → ⊥) }
    ensures none { IfErr result (λ why. why ≢ refusal.Memory → (other : StatementValue) → ReadsAs text.now other → ⊥) }
    ensures first { IfErr result (λ why. why ≢ refusal.Memory → (other : RefusalValue) → IsTextFault text.now other → other ≡ why) }
{
    let tokens = match tokens(alloc, text) {
        Ok(tokens) => tokens,
        Err(e) => return Err(lexical(e)),
    };
    match statement(alloc, tokens.as_slice()) {
        Ok(statement) => Ok(statement),
        Err(e) => Err(grammatical(e)),
    }
}
