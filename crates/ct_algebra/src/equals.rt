// The columns that a predicate on pairs of rows asks to be equal.

ghost use Rattle.std.specs.Prelude.{◌≡◌, ◌<◌, ◌++◌, length, All, IfOk, OnOk, map};
ghost use Rattle.std.specs.Option.{option_to_list};
ghost use Rattle.ct_query.specs.Pred.{condition_of};
ghost use Rattle.ct_word.specs.Condition.{listed};
ghost use Rattle.ct_algebra.specs.Equals as spec;
ghost use Rattle.ct_algebra.specs.Equals.{column_of, differ_in};

use ct_condition::are_apart;
use ct_query::Pred;
use ct_word::Term;
use std::alloc::{AllocError, Global};

/// Two columns that are to be of one value: one of the left row of a pair, and one of the right row, counted from the
/// first of that row.
#[derive(Clone, Copy)]
pub(crate) struct Equal {
    pub left: usize,
    pub right: usize,
}

/// The position of a column.
fn column(t: &Term) -> Option<usize>
    ensures { result ≡ column_of t.now }
{
    match t {
        Term::Column(k) => Some(*k as usize),
        _ => None,
    }
}

/// Two columns of a pair whose left row has `width` cells, where one is of each row.
fn across(width: usize, a: Option<usize>, b: Option<usize>) -> Option<Equal>
    ensures { result ≡ spec.across width a b }
{
    let a = a?;
    let b = b?;
    let left = a.min(b);
    let right = a.max(b);
    if left < width && width <= right {
        return Some(Equal {
            left,
            right: right - width,
        });
    }
    None
}

/// The columns that an equality asks to be equal, where one is of each row.
#[tactic(auto, using(crate::proofs::Comparing::and_alone, crate::proofs::Comparing::or_alone))]
fn equal_in(width: usize, p: &Pred) -> Option<Equal>
    ensures { result ≡ spec.equal_in width (condition_of p.now) }
{
    match p {
        Pred::Same(s, t) => across(width, column(s), column(t)),
        Pred::True | Pred::False | Pred::Not(_) | Pred::And(_) | Pred::Or(_) => None,
    }
}

/// Puts these columns last, if there are any.
fn push_some(to: &mut Vec<Equal>, equal: Option<Equal>) -> Result<(), AllocError>
    ensures { OnOk result (to.new.items ≡ to.old.items ++ option_to_list equal) }
{
    if let Some(equal) = equal {
        to.push(equal)?;
    }
    Ok(())
}

/// Those of a run.
fn equals_in(alloc: Global, width: usize, list: &[Pred]) -> Result<Vec<Equal>, AllocError>
    ensures { IfOk result (λ out. out.items ≡ spec.equals_in width (listed (map condition_of list.now))) }
{
    let mut out = Vec::new(alloc);
    for p in list {
        push_some(&mut out, equal_in(width, p))?;
    }
    Ok(out)
}

/// The columns that a predicate on pairs whose left row has `width` cells asks to be equal: each part of its AND, or the
/// predicate itself, that is an equality of a column of each row.
#[tactic(auto, using(crate::proofs::Comparing::and_equals, crate::proofs::Comparing::or_equals))]
pub(crate) fn equals_of(alloc: Global, width: usize, p: &Pred) -> Result<Vec<Equal>, AllocError>
    ensures { IfOk result (λ out. out.items ≡ spec.equals_of width (condition_of p.now)) }
{
    let mut out = Vec::new(alloc);
    match p {
        Pred::And(list) => return equals_in(alloc, width, list.as_slice()),
        Pred::Same(s, t) => push_some(&mut out, across(width, column(s), column(t)))?,
        Pred::True | Pred::False | Pred::Not(_) | Pred::Or(_) => {}
    }
    Ok(out)
}

/// Whether two rows of these cells have different constants in columns that are to be equal.
pub(crate) fn differ_in(words: &[u64], equals: &[Equal], left: &[u32], right: &[u32]) -> bool
    requires left { All (λ e. e.left < length left.now) equals.now }
    requires right { All (λ e. e.right < length right.now) equals.now }
    ensures { result ≡ differ_in words.now equals.now left.now right.now }
{
    for equal in equals {
        if are_apart(words, left[equal.left], right[equal.right]) {
            return true;
        }
    }
    false
}
