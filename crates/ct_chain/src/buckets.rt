// Which bucket a number falls into.

ghost use Rattle.std.specs.Prelude.{◌≡◌, ◌<◌, ◌≤◌, ◌^◌};
ghost use Rattle.ct_chain.specs.Bucket.{bucket_of};

/// Odd numbers without a pattern in their bits, from SplitMix64.
const FIRST: u64 = 0xBF58_476D_1CE4_E5B9;

const SECOND: u64 = 0x94D0_49BB_1331_11EB;

/// The bucket of a number, of so many. All its bits count, since the low bits of words are places and run in sequence.
#[tactic(auto, using(crate::proofs::Mixing::bucket_below), unfolding(crate::specs::Bucket::bucket_of))]
pub fn bucket(number: u64, buckets: usize) -> usize
    requires some { 0 < buckets }
    requires few { buckets ≤ 2 ^ 32 }
    ensures is { result ≡ bucket_of buckets number }
    ensures within { result < buckets }
{
    let mixed = (number ^ (number >> 32)).wrapping_mul(FIRST);
    let mixed = (mixed ^ (mixed >> 32)).wrapping_mul(SECOND);
    (((mixed >> 32) * buckets as u64) >> 32) as usize
}
