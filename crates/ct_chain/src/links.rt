// Linking places to the earlier ones of their bucket, and going along a bucket.

ghost use Rattle.std.specs.Prelude.{◌≡◌, ◌+◌, ◌-◌, ◌<◌, ◌≤◌, ◌^◌, length, replicate, vec_capacity, vec_len, MatchOption, Contains, Some, slice_get};
ghost use Rattle.ct_chain.specs.Linked.{IsLinked};

use crate::buckets::bucket;

/// Puts a place at the front of the bucket of its word.
#[tactic(auto, using(crate::proofs::Steps::link_step))]
pub fn link(words: &[u64], heads: &mut Vec<u32>, next: &mut Vec<u32>, place: u32)
    requires within { place < length words.now }
    requires small { length words.now < 2 ^ 32 }
    requires links { vec_len next.old ≡ length words.now }
    requires linked { IsLinked (vec_len heads.old) words.now heads.old.items next.old.items place }
    ensures linked { IsLinked (vec_len heads.old) words.now heads.new.items next.new.items (place + 1) }
    ensures heads { vec_len heads.new ≡ vec_len heads.old }
    ensures links { vec_len next.new ≡ vec_len next.old }
    ensures heads_room { vec_capacity heads.new ≡ vec_capacity heads.old }
    ensures next_room { vec_capacity next.new ≡ vec_capacity next.old }
{
    let b = bucket(words[place as usize], heads.len());
    next[place as usize] = heads[b];
    heads[b] = place + 1;
}

/// Makes so many buckets with no place in them.
pub fn empty(heads: &mut Vec<u32>, count: usize)
    requires { count ≤ vec_capacity heads.old }
    ensures heads { heads.new.items ≡ replicate count 0 }
    ensures room { vec_capacity heads.new ≡ vec_capacity heads.old }
{
    heads.clear();
    for _ in 0..count {
        heads.push_reserved(0);
    }
}

/// Links all places anew, into so many buckets.
pub fn relink(words: &[u64], heads: &mut Vec<u32>, next: &mut Vec<u32>, count: usize)
    requires some { 0 < count }
    requires few { count ≤ 2 ^ 32 }
    requires room { count ≤ vec_capacity heads.old }
    requires small { length words.now < 2 ^ 32 }
    requires links { vec_len next.old ≡ length words.now }
    ensures linked { IsLinked (vec_len heads.new) words.now heads.new.items next.new.items (length words.now) }
    ensures links { vec_len next.new ≡ vec_len next.old }
    ensures heads_room { vec_capacity heads.new ≡ vec_capacity heads.old }
    ensures next_room { vec_capacity next.new ≡ vec_capacity next.old }
{
    empty(heads, count);
    for place in 0..words.len() {
        link(words, heads, next, place as u32);
    }
}

/// Links the last place, in more buckets where it is one more than they are.
pub fn link_last(words: &[u64], heads: &mut Vec<u32>, next: &mut Vec<u32>, most: usize)
    requires some { 0 < length words.now }
    requires small { length words.now < 2 ^ 32 }
    requires links { vec_len next.old ≡ length words.now }
    requires linked { IsLinked (vec_len heads.old) words.now heads.old.items next.old.items (length words.now - 1) }
    requires most { 0 < most }
    requires few { most < 2 ^ 32 }
    requires room { most < vec_capacity heads.old }
    ensures linked { IsLinked (vec_len heads.new) words.now heads.new.items next.new.items (length words.now) }
    ensures links { vec_len next.new ≡ vec_len next.old }
    ensures heads_room { vec_capacity heads.new ≡ vec_capacity heads.old }
    ensures next_room { vec_capacity next.new ≡ vec_capacity next.old }
{
    if words.len() > heads.len() {
        relink(words, heads, next, most.min(2 * words.len()));
        return;
    }
    link(words, heads, next, words.len() as u32 - 1);
}

/// The place of a word, by going along its bucket from its last place on.
pub fn find_along(words: &[u64], heads: &[u32], next: &[u32], w: u64) -> Option<u32>
    requires links { length next.now ≡ length words.now }
    requires linked { IsLinked (length heads.now) words.now heads.now next.now (length words.now) }
    ensures { MatchOption result (¬ Contains words.now w) (λ place. slice_get words.now place ≡ Some w) }
{
    let mut at = heads[bucket(w, heads.len())];
    while at > 0 {
        let place = at - 1;
        if words[place as usize] == w {
            return Some(place);
        }
        at = next[place as usize];
    }
    None
}
