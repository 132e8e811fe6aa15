// All pairs of places at which two sides may agree.

ghost use Rattle.std.specs.Prelude.{◌≡◌, ◌<◌, ◌^◌, ◌++◌, length, map, IfOk, OnOk};
ghost use Rattle.ct_join.specs.Pairs.{candidates};

use crate::index::Index;
use crate::keys::Key;
use ct_word::Memory;
use std::alloc::Global;

/// Adds the pairs of one left place.
fn add(pairs: &mut Vec<(u32, u32)>, left: u32, right: &[u32]) -> Result<(), Memory>
    ensures { OnOk result (pairs.new.items ≡ pairs.old.items ++ map (λ j. (left, j)) right.now) }
{
    for place in right {
        pairs.push((left, *place))?;
    }
    Ok(())
}

/// The pairs of a left and a right place whose keys are not two different constants, left places first.
///
/// It takes memory for all pairs. Where these are many, `Index::find` gives those of one left key after another.
///
/// # Errors
/// `Memory` where there is none for the pairs.
#[tactic(auto, using(crate::proofs::Filtered::one_more, crate::proofs::Filtered::candidates_are))]
pub fn pairs(alloc: Global, left: &[Key], right: &[Key]) -> Result<Vec<(u32, u32)>, Memory>
    requires left { length left.now < 2 ^ 32 }
    requires right { length right.now < 2 ^ 32 }
    ensures { IfOk result (λ v. v.items ≡ candidates left.now right.now) }
{
    let index = Index::make(alloc, right)?;
    let mut found = Vec::new(alloc);
    let mut pairs = Vec::new(alloc);
    for place in 0..left.len() {
        index.find(left[place], &mut found)?;
        add(&mut pairs, place as u32, found.as_slice())?;
    }
    Ok(pairs)
}
