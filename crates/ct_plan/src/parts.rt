// The conjuncts of a predicate, and those of each part of a product.

ghost use Rattle.std.specs.Prelude.{◌≡◌, [], ◌∷◌, ◌++◌, map, filter, if◌then◌else◌, IfOk, OnOk};
ghost use Rattle.ct_word.specs.Condition.{listed};
ghost use Rattle.ct_query.specs.Pred.{condition_of};
ghost use Rattle.ct_query.specs.Views.{query_of};
ghost use Rattle.ct_plan.specs.Columns.{is_of, is_across, counted_from};
ghost use Rattle.ct_plan.specs.Planned as spec;
ghost use Rattle.ct_plan.specs.declared.sides.Side.TheVariants as side;

use crate::columns::{is_across, is_of};
use crate::copies::{copied_pred, counted};
use crate::sides::Side;
use ct_query::{Pred, Query};
use ct_word::Memory;
use std::alloc::Global;

/// Adds copies of the conjuncts of a predicate.
#[cycle(conjuncts)]
#[tactic(auto, using(crate::proofs::Runs::and_conjuncts, crate::proofs::Runs::or_conjuncts))]
fn add_conjuncts(alloc: Global, pred: &Pred, to: &mut Vec<Pred>) -> Result<(), Memory>
    ensures { OnOk result (map condition_of to.new.items ≡ map condition_of to.old.items ++ spec.conjuncts (condition_of pred.now)) }
{
    match pred {
        Pred::True => Ok(()),
        Pred::And(preds) => add_all_conjuncts(alloc, preds.as_slice(), to),
        Pred::False | Pred::Same(_, _) | Pred::Not(_) | Pred::Or(_) => {
            let copy = copied_pred(alloc, pred)?;
            to.push(copy)?;
            Ok(())
        }
    }
}

/// Adds copies of the conjuncts of each predicate of a run.
#[cycle(conjuncts)]
fn add_all_conjuncts(alloc: Global, preds: &[Pred], to: &mut Vec<Pred>) -> Result<(), Memory>
    ensures { OnOk result (map condition_of to.new.items ≡ map condition_of to.old.items ++ spec.all_conjuncts (listed (map condition_of preds.now))) }
{
    for pred in preds {
        add_conjuncts(alloc, pred, to)?;
    }
    Ok(())
}

/// What the predicate of a selection is taken apart into: above a product its conjuncts, above another query itself.
pub fn taken_apart(alloc: Global, pred: &Pred, inner: &Query) -> Result<Vec<Pred>, Memory>
    ensures { IfOk result (λ v. map condition_of v.items ≡ spec.taken_apart (condition_of pred.now) (query_of inner.now)) }
{
    let mut apart = Vec::new(alloc);
    match inner {
        Query::Product(_, _) => add_conjuncts(alloc, pred, &mut apart)?,
        _ => {
            let copy = copied_pred(alloc, pred)?;
            apart.push(copy)?;
        }
    }
    Ok(apart)
}

/// Adds a copy of a predicate that is wanted, with its columns counted from another one on.
fn add_if(
    alloc: Global,
    wanted: bool,
    pred: &Pred,
    from: u64,
    to: &mut Vec<Pred>,
) -> Result<(), Memory>
    ensures { OnOk result (map condition_of to.new.items ≡ map condition_of to.old.items ++ (if wanted then counted_from from (condition_of pred.now) ∷ [] else [])) }
{
    if wanted {
        let copy = counted(alloc, pred, from)?;
        to.push(copy)?;
    }
    Ok(())
}

/// Those that are about the left part of a product with so many columns there, or have no columns.
pub fn left_part(alloc: Global, preds: &[Pred], left: u64) -> Result<Vec<Pred>, Memory>
    ensures { IfOk result (λ v. map condition_of v.items ≡ filter (is_of side.Left left) (map condition_of preds.now)) }
{
    let mut part = Vec::new(alloc);
    for pred in preds {
        let wanted = is_of(pred, Side::Left, left);
        add_if(alloc, wanted, pred, 0, &mut part)?;
    }
    Ok(part)
}

/// Those that are about the right part, or have no columns, with their columns counted from there.
pub fn right_part(alloc: Global, preds: &[Pred], left: u64) -> Result<Vec<Pred>, Memory>
    ensures { IfOk result (λ v. map condition_of v.items ≡ map (counted_from left) (filter (is_of side.Right left) (map condition_of preds.now))) }
{
    let mut part = Vec::new(alloc);
    for pred in preds {
        let wanted = is_of(pred, Side::Right, left);
        add_if(alloc, wanted, pred, left, &mut part)?;
    }
    Ok(part)
}

/// Those that are about both parts.
pub fn across_part(alloc: Global, preds: &[Pred], left: u64) -> Result<Vec<Pred>, Memory>
    ensures { IfOk result (λ v. map condition_of v.items ≡ filter (is_across left) (map condition_of preds.now)) }
{
    let mut part = Vec::new(alloc);
    for pred in preds {
        let wanted = is_across(pred, left);
        add_if(alloc, wanted, pred, 0, &mut part)?;
    }
    Ok(part)
}
