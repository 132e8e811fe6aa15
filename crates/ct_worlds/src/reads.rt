// The nulls that were read in a walk, so that a null is read once for most equalities in which it stands.

ghost use Rattle.std.specs.Prelude.{◌≡◌, ℕ, List, IfOk, IfSome};
ghost use Rattle.ct_word.specs.Value.{World};
ghost use Rattle.ct_worlds.specs.Valuation.{AreRead, IsRead};

use ct_word::Memory;
use std::alloc::Global;

/// The place of a null and the number of its pair in a world, where one was read that goes to this slot.
pub(crate) type Read = Option<(u32, usize)>;

/// So many slots, of which none has a null.
#[tactic(auto, using(crate::proofs::Values::reads_more))]
pub(crate) fn no_reads(alloc: Global, count: usize) -> Result<Vec<Read>, Memory>
    ensures { (words : List ℕ) (v : World) → IfOk result (λ reads. AreRead words v reads.items) }
{
    let mut reads = Vec::with_capacity(alloc, count)?;
    for _ in 0..count {
        reads.push(None)?;
    }
    Ok(reads)
}

/// The slot of a place among so many.
pub(crate) fn slot_of(count: usize, place: u32) -> usize {
    if count == 0 {
        return 0;
    }
    place as usize % count
}

/// The number that was noted for a place, if one was and its slot still has it.
pub(crate) fn number_read(reads: &[Read], slot: usize, place: u32) -> Option<usize>
    ensures { (words : List ℕ) (v : World) → AreRead words v reads.now → IfSome result (λ k. IsRead words v (place, k)) }
{
    if slot < reads.len() {
        if let Some((own, number)) = reads[slot] {
            if own == place {
                return Some(number);
            }
        }
    }
    None
}

/// Notes the number of a null's pair in the slot of its place.
pub(crate) fn note_read(reads: &mut Vec<Read>, slot: usize, place: u32, number: usize)
    ensures { (words : List ℕ) (v : World) → AreRead words v reads.old.items → IsRead words v (place, number) → AreRead words v reads.new.items }
{
    if slot < reads.len() {
        reads[slot] = Some((place, number));
    }
}
