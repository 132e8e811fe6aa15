// Derivations that are known, for questions with the same root.

ghost use Rattle.std.specs.Prelude.{◌≡◌, All, IfOk, IfSome};
ghost use Rattle.ct_certain.specs.Answered.{IsRefutation};

use ct_derivation::{Derivation, Step, Why};
use ct_rewrite::CertainRow;
use ct_word::{List, Memory};
use indexmap::IndexMap;
use std::alloc::{AllocError, Global};

/// Certain tuples with their proofs.
#[derive(Drop)]
pub struct Listed {
    pub rows: Vec<CertainRow>,
    /// Which row has the proof with this root; the last one, where several have it.
    pub roots: IndexMap<u32, usize>,
}

/// A reason once more.
fn copied_why(why: &Why) -> Result<Why, AllocError>
    ensures { IfOk result (λ w. w ≡ why.now) }
{
    Ok(match why {
        Why::Root => Why::Root,
        Why::Def(place, k) => Why::Def(*place, *k),
        Why::Path(places) => Why::Path(places.clone()?),
        Why::Rup(hints) => Why::Rup(hints.clone()?),
    })
}

/// A step once more.
fn copied_step(step: &Step) -> Result<Step, AllocError>
    ensures { IfOk result (λ s. s ≡ step.now) }
{
    let clause = step.clause.clone()?;
    let why = copied_why(&step.why)?;
    Ok(Step { clause, why })
}

/// A derivation once more.
///
/// # Errors
/// `Memory` where memory runs out.
pub fn copied_derivation(alloc: Global, derivation: &Derivation) -> Result<Derivation, Memory>
    ensures { IfOk result (λ d. d ≡ derivation.now) }
{
    let mut steps = Vec::new(alloc);
    for step in derivation.steps.as_slice() {
        steps.push(copied_step(step)?)?;
    }
    Ok(Derivation {
        steps: List::from_vec(steps),
    })
}

/// A copy of the derivation that a list has for a root, if it has one.
pub fn known(
    alloc: Global,
    words: &[u64],
    list: &Listed,
    root: u32,
) -> Result<Option<Derivation>, Memory>
    requires { All (λ r. IsRefutation words.now r.proof.root r.proof.derivation) list.now.rows.items }
    ensures { IfOk result (λ o. IfSome o (λ d. IsRefutation words.now root d)) }
{
    let _ = words;
    let Some(place) = list.roots.get(&root) else {
        return Ok(None);
    };
    match list.rows.get(*place) {
        Some(row) if row.proof.root == root => {
            let derivation = copied_derivation(alloc, &row.proof.derivation)?;
            Ok(Some(derivation))
        }
        _ => Ok(None),
    }
}
