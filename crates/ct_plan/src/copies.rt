// Copies of predicates, with their columns counted from another one on, and of queries.

ghost use Rattle.std.specs.Prelude.{◌≡◌, map, IfOk, box_value};
ghost use Rattle.ct_query.specs.Pred.{condition_of};
ghost use Rattle.ct_query.specs.Views.{query_of};
ghost use Rattle.ct_plan.specs.Columns as spec;

use ct_query::{Pred, Query};
use ct_word::{List, Memory, Term};
use std::alloc::Global;

/// A copy of a term, with a column counted from another one on.
fn term_from(term: &Term, from: u64) -> Result<Term, Memory>
    ensures { IfOk result (λ t. t ≡ spec.term_from from term.now) }
{
    match term {
        Term::Column(column) => Ok(Term::Column((*column as u64).saturating_sub(from) as u32)),
        Term::Null(null) => Ok(Term::Null(null.clone()?)),
        Term::Value(value) => Ok(Term::Value(value.clone()?)),
    }
}

/// A copy of a predicate, with its columns counted from another one on.
#[cycle(counted)]
pub fn counted(alloc: Global, pred: &Pred, from: u64) -> Result<Pred, Memory>
    ensures { IfOk result (λ p. condition_of p ≡ spec.counted_from from (condition_of pred.now)) }
{
    match pred {
        Pred::True => Ok(Pred::True),
        Pred::False => Ok(Pred::False),
        Pred::Same(left, right) => {
            let left = term_from(left, from)?;
            let right = term_from(right, from)?;
            Ok(Pred::Same(left, right))
        }
        Pred::Not(inner) => {
            let inner = counted(alloc, inner, from)?;
            Ok(Pred::Not(Box::new(alloc, inner)?))
        }
        Pred::And(preds) => {
            let copies = all_counted(alloc, preds.as_slice(), from)?;
            Ok(Pred::And(copies))
        }
        Pred::Or(preds) => {
            let copies = all_counted(alloc, preds.as_slice(), from)?;
            Ok(Pred::Or(copies))
        }
    }
}

/// The same of each predicate of a run.
#[cycle(counted)]
fn all_counted(alloc: Global, preds: &[Pred], from: u64) -> Result<List<Pred>, Memory>
    ensures { IfOk result (λ ps. map condition_of ps ≡ map (λ p. spec.counted_from from (condition_of p)) preds.now) }
{
    let mut copies = Vec::new(alloc);
    for pred in preds {
        let copy = counted(alloc, pred, from)?;
        copies.push(copy)?;
    }
    Ok(List::from_vec(copies))
}

/// A copy of a predicate.
///
/// # Errors
/// `Memory` where there is none for the copy.
#[tactic(auto, using(crate::proofs::Counted::counted_none))]
pub fn copied_pred(alloc: Global, pred: &Pred) -> Result<Pred, Memory>
    ensures { IfOk result (λ p. condition_of p ≡ condition_of pred.now) }
{
    counted(alloc, pred, 0)
}

/// A copy of a query in a box.
#[cycle(copied)]
fn boxed_copy(alloc: Global, query: &Query) -> Result<Box<Query>, Memory>
    ensures { IfOk result (λ p. query_of (box_value p) ≡ query_of query.now) }
{
    let copy = copied(alloc, query)?;
    Ok(Box::new(alloc, copy)?)
}

/// A copy of a query.
///
/// # Errors
/// `Memory` where there is none for the copy.
#[cycle(copied)]
pub fn copied(alloc: Global, q: &Query) -> Result<Query, Memory>
    ensures { IfOk result (λ p. query_of p ≡ query_of q.now) }
{
    match q {
        Query::Table(name) => Ok(Query::Table(name.clone()?)),
        Query::Select(pred, inner) => {
            let pred = copied_pred(alloc, pred)?;
            let inner = boxed_copy(alloc, inner)?;
            Ok(Query::Select(pred, inner))
        }
        Query::Project(columns, inner) => {
            let columns = Vec::from_slice(alloc, columns.as_slice())?;
            let inner = boxed_copy(alloc, inner)?;
            Ok(Query::Project(List::from_vec(columns), inner))
        }
        Query::Product(left, right) => {
            let left = boxed_copy(alloc, left)?;
            let right = boxed_copy(alloc, right)?;
            Ok(Query::Product(left, right))
        }
        Query::Union(left, right) => {
            let left = boxed_copy(alloc, left)?;
            let right = boxed_copy(alloc, right)?;
            Ok(Query::Union(left, right))
        }
        Query::Except(left, right) => {
            let left = boxed_copy(alloc, left)?;
            let right = boxed_copy(alloc, right)?;
            Ok(Query::Except(left, right))
        }
        Query::Intersect(left, right) => {
            let left = boxed_copy(alloc, left)?;
            let right = boxed_copy(alloc, right)?;
            Ok(Query::Intersect(left, right))
        }
    }
}
