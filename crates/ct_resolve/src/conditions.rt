// Conditions with positions for the names of columns.

ghost use Rattle.std.specs.Prelude.{◌≡◌, ◌≢◌, ◌∷◌, map, IfOk, IfErr, Ok, Err};
ghost use Rattle.ct_word.specs.Condition.{Not};
ghost use Rattle.ct_query.specs.Pred.{condition_of};
ghost use Rattle.ct_parse.specs.declared.tree.Condition.{out-Condition};
ghost use Rattle.ct_resolve.specs.Found.{each};
ghost use Rattle.ct_resolve.specs.Conditions as spec;
ghost use Rattle.ct_resolve.specs.declared.error.ResolveError.TheVariants as fault;

use crate::error::ResolveError;
use crate::names::column_position;
use ct_parse::{Comparison, Condition, Conjunction, Factor};
use ct_query::{Heading, Pred};
use ct_word::{List, Null, Term, Value};
use std::alloc::Global;

/// A written term with a position for a column.
///
/// # Errors
/// The refusal of the column; `Memory` where there is none for a copy.
pub fn term(
    alloc: Global,
    scope: &[Heading],
    written: &ct_parse::Term,
) -> Result<Term, ResolveError>
    ensures ok { IfOk result (λ t. spec.term_at scope.now written.now ≡ Ok t) }
    ensures err { IfErr result (λ e. e ≢ fault.Memory → spec.term_at scope.now written.now ≡ Err e) }
{
    match written {
        ct_parse::Term::Number(number) => Ok(Term::Value(Value::Int(*number))),
        ct_parse::Term::Text(text) => Ok(Term::Value(Value::Text(text.clone()?))),
        ct_parse::Term::Null(name) => Ok(Term::Null(Null::Named(name.clone()?))),
        ct_parse::Term::Column(column) => Ok(Term::Column(column_position(scope, column)?)),
    }
}

/// That a predicate does not hold.
///
/// # Errors
/// `Memory` where there is none for the box.
fn negation(alloc: Global, pred: Pred) -> Result<Pred, ResolveError>
    ensures ok { IfOk result (λ p. condition_of p ≡ Not (condition_of pred)) }
    ensures err { IfErr result (λ e. e ≡ fault.Memory) }
{
    Ok(Pred::Not(Box::new(alloc, pred)?))
}

/// That two terms are equal, or that they are not.
///
/// # Errors
/// `Memory` where there is none for the box.
fn compared(alloc: Global, sign: Comparison, left: Term, right: Term) -> Result<Pred, ResolveError>
    ensures ok { IfOk result (λ p. condition_of p ≡ spec.compared sign left right) }
    ensures err { IfErr result (λ e. e ≡ fault.Memory) }
{
    let same = Pred::Same(left, right);
    match sign {
        Comparison::Equal => Ok(same),
        Comparison::Unequal => negation(alloc, same),
    }
}

/// A comparison, its left term first.
///
/// # Errors
/// The first refusal of a column from the left; `Memory` where there is none for the predicate.
fn comparison(
    alloc: Global,
    scope: &[Heading],
    left: &ct_parse::Term,
    sign: Comparison,
    right: &ct_parse::Term,
) -> Result<Pred, ResolveError>
    ensures ok { IfOk result (λ p. spec.comparison_of sign (spec.term_at scope.now left.now) (spec.term_at scope.now right.now) ≡ Ok (condition_of p)) }
    ensures err { IfErr result (λ e. e ≢ fault.Memory → spec.comparison_of sign (spec.term_at scope.now left.now) (spec.term_at scope.now right.now) ≡ Err e) }
{
    let left = term(alloc, scope, left)?;
    let right = term(alloc, scope, right)?;
    compared(alloc, sign, left, right)
}

/// A run of AND: one predicate stands alone, none is True. It takes no memory.
#[tactic(auto, using(crate::proofs::Trees::and_long))]
pub fn all_of(mut preds: Vec<Pred>) -> Pred
    ensures { condition_of result ≡ spec.and_of (map condition_of preds.items) }
{
    if preds.len() > 1 {
        return Pred::And(List::from_vec(preds));
    }
    match preds.pop() {
        Some(only) => only,
        None => Pred::True,
    }
}

/// A run of OR: one predicate stands alone, none is False. It takes no memory.
#[tactic(auto, using(crate::proofs::Trees::or_long))]
fn any_of(mut preds: Vec<Pred>) -> Pred
    ensures { condition_of result ≡ spec.or_of (map condition_of preds.items) }
{
    if preds.len() > 1 {
        return Pred::Or(List::from_vec(preds));
    }
    match preds.pop() {
        Some(only) => only,
        None => Pred::False,
    }
}

/// A NOT, a condition in parentheses, TRUE, FALSE or a comparison.
#[cycle(condition)]
#[tactic(auto, using(crate::proofs::Trees::not_is))]
fn factor(alloc: Global, scope: &[Heading], written: &Factor) -> Result<Pred, ResolveError>
    ensures ok { IfOk result (λ p. spec.factor_at scope.now written.now ≡ Ok (condition_of p)) }
    ensures err { IfErr result (λ e. e ≢ fault.Memory → spec.factor_at scope.now written.now ≡ Err e) }
{
    match written {
        Factor::Not(inner) => {
            let inner = factor(alloc, scope, inner.get())?;
            negation(alloc, inner)
        }
        Factor::Nested(inner) => condition(alloc, scope, inner.get()),
        Factor::True => Ok(Pred::True),
        Factor::False => Ok(Pred::False),
        Factor::Compare(left, sign, right) => comparison(alloc, scope, left, *sign, right),
    }
}

/// Factors joined by AND.
#[cycle(condition)]
fn conjunction(
    alloc: Global,
    scope: &[Heading],
    written: &Conjunction,
) -> Result<Pred, ResolveError>
    ensures ok { IfOk result (λ p. spec.conjunction_at scope.now written.now ≡ Ok (condition_of p)) }
    ensures err { IfErr result (λ e. e ≢ fault.Memory → spec.conjunction_at scope.now written.now ≡ Err e) }
{
    let first = factor(alloc, scope, &written.first)?;
    let mut found = Vec::new(alloc);
    found.push(first)?;
    for next in written.rest.as_slice() {
        let pred = factor(alloc, scope, next)?;
        found.push(pred)?;
    }
    Ok(all_of(found))
}

/// The conjunctions of a condition from the left.
#[cycle(condition)]
fn conjunctions(
    alloc: Global,
    scope: &[Heading],
    written: &Condition,
) -> Result<Vec<Pred>, ResolveError>
    ensures ok { IfOk result (λ v. each (spec.conjunction_at scope.now) ((out-Condition written.now).first ∷ (out-Condition written.now).rest) ≡ Ok (map condition_of v.items)) }
    ensures err { IfErr result (λ e. e ≢ fault.Memory → each (spec.conjunction_at scope.now) ((out-Condition written.now).first ∷ (out-Condition written.now).rest) ≡ Err e) }
{
    let first = conjunction(alloc, scope, &written.first)?;
    let mut found = Vec::new(alloc);
    found.push(first)?;
    for next in written.rest.as_slice() {
        let pred = conjunction(alloc, scope, next)?;
        found.push(pred)?;
    }
    Ok(found)
}

/// A condition with positions for the columns of the tables in scope, each under its visible name.
///
/// # Errors
/// The first refusal of a column from the left; `Memory` where there is none for the predicate.
#[cycle(condition)]
pub fn condition(
    alloc: Global,
    scope: &[Heading],
    written: &Condition,
) -> Result<Pred, ResolveError>
    ensures ok { IfOk result (λ p. spec.condition_at scope.now written.now ≡ Ok (condition_of p)) }
    ensures err { IfErr result (λ e. e ≢ fault.Memory → spec.condition_at scope.now written.now ≡ Err e) }
{
    let found = conjunctions(alloc, scope, written)?;
    Ok(any_of(found))
}
