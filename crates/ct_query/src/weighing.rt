// What a predicate adds to the words of a query.

ghost use Rattle.std.specs.Prelude.{◌≡◌, map};
ghost use Rattle.ct_word.specs.Condition.{And, listed};
ghost use Rattle.ct_query.specs.Pred.{condition_of};
ghost use Rattle.ct_query.specs.Size.{stopped};
ghost use Rattle.ct_query.specs.Bounds as spec;

use crate::query::Pred;
use ct_word::{Null, Term, Value};

/// The number of characters.
fn characters(text: &str) -> u64
    ensures { result ≡ spec.characters text.now }
{
    text.as_bytes()
        .iter()
        .filter(|byte| **byte < 128 || **byte >= 192)
        .count() as u64
}

/// The words of a literal, which stop at the greatest `u64`; 0 for a column.
fn literal_words(term: &Term) -> u64
    ensures { result ≡ stopped (spec.literal_words term.now) }
{
    match term {
        Term::Column(_) => 0,
        Term::Null(Null::Fresh { .. }) | Term::Value(Value::Other(_)) => 1,
        Term::Value(Value::Int(_)) => 2,
        Term::Null(Null::Named(text)) | Term::Value(Value::Text(text)) => {
            characters(text.as_str()).saturating_add(2)
        }
    }
}

/// The words of all literals of a predicate, which stop at the greatest `u64`.
#[cycle(terms)]
#[tactic(auto, using(crate::proofs::Trees::and_is, crate::proofs::Trees::or_is))]
pub fn terms(pred: &Pred) -> u64
    ensures { result ≡ stopped (spec.terms (condition_of pred.now)) }
{
    match pred {
        Pred::True | Pred::False => 0,
        Pred::Same(left, right) => literal_words(left).saturating_add(literal_words(right)),
        Pred::Not(inner) => terms(inner),
        Pred::And(preds) | Pred::Or(preds) => terms_of_run(preds.as_slice()),
    }
}

/// The same of a run of AND or OR.
#[cycle(terms)]
fn terms_of_run(preds: &[Pred]) -> u64
    ensures { result ≡ stopped (spec.terms (And (listed (map condition_of preds.now)))) }
{
    let mut sum: u64 = 0;
    for pred in preds {
        sum = sum.saturating_add(terms(pred));
    }
    sum
}

/// The equalities, NOTs and connectives of a predicate, which stop at the greatest `u64`.
#[cycle(operations)]
#[tactic(auto, using(crate::proofs::Trees::and_is, crate::proofs::Trees::or_is))]
pub fn operations(pred: &Pred) -> u64
    ensures { result ≡ stopped (spec.ops (condition_of pred.now)) }
{
    match pred {
        Pred::True | Pred::False => 0,
        Pred::Same(_, _) => 1,
        Pred::Not(inner) => operations(inner).saturating_add(1),
        Pred::And(preds) | Pred::Or(preds) => operations_of_run(preds.as_slice()),
    }
}

/// The same of a run of AND or OR, which has a connective less than items.
#[cycle(operations)]
#[tactic(auto, using(crate::proofs::Trees::run_connectives))]
fn operations_of_run(preds: &[Pred]) -> u64
    ensures { result ≡ stopped (spec.ops (And (listed (map condition_of preds.now)))) }
{
    let mut sum = preds.len().saturating_sub(1) as u64;
    for pred in preds {
        sum = sum.saturating_add(operations(pred));
    }
    sum
}
