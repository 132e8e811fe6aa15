// Which slot cells fall into.

ghost use Rattle.std.specs.Prelude.{◌≡◌, ◌<◌};
ghost use Rattle.ct_rows.specs.Slots.{mix_of, hash_of, slot_of};

/// An odd number without a pattern in its bits, from SplitMix64.
const FACTOR: u64 = 0xBF58_476D_1CE4_E5B9;

/// The mix of the cells so far and one more.
#[tactic(auto, unfolding(crate::specs::Slots::mix_of))]
fn mix(mixed: u64, cell: u32) -> u64
    ensures { result ≡ mix_of mixed cell }
{
    let mixed = (mixed ^ cell as u64).wrapping_mul(FACTOR);
    mixed ^ (mixed >> 32)
}

/// The mix of cells.
fn hash(cells: &[u32]) -> u64
    ensures { result ≡ hash_of cells.now }
{
    cells.iter().fold(0, |mixed, cell| mix(mixed, *cell))
}

/// The slot of cells among so many.
#[tactic(auto, unfolding(crate::specs::Slots::slot_of))]
pub(crate) fn slot(cells: &[u32], slots: usize) -> usize
    requires some { 0 < slots }
    ensures is { result ≡ slot_of slots cells.now }
    ensures within { result < slots }
{
    (hash(cells) % slots as u64) as usize
}
