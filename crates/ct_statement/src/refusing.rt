// The refusals of what is below.

ghost use Rattle.std.specs.Prelude.{◌≡◌};
ghost use Rattle.ct_statement.specs.Asking.{unanswered, unlisted};

use ct_algebra::EvalError;
use ct_certain::CertainError;
use ct_transcript::Refusal;

/// The refusal of a query that is not evaluated.
pub(crate) fn unanswered(e: EvalError) -> Refusal
    ensures { result ≡ unanswered e }
{
    match e {
        EvalError::TooLarge => Refusal::TooLarge,
        EvalError::Full => Refusal::Full,
        EvalError::Memory => Refusal::Memory,
    }
}

/// The refusal of a question whose rows are not listed.
pub(crate) fn unlisted(e: CertainError) -> Refusal
    ensures { result ≡ unlisted e }
{
    match e {
        CertainError::Full => Refusal::Full,
        CertainError::Memory => Refusal::Memory,
    }
}
