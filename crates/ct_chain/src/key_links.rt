// Linking places to the later ones of their bucket, and going along a bucket.

ghost use Rattle.std.specs.Prelude.{◌≡◌, ◌+◌, ◌<◌, ◌≤◌, ◌^◌, [], ◌∷◌, ◌++◌, length, vec_capacity, vec_len, MatchOption};
ghost use Rattle.ct_chain.specs.Seen.{IsNoneFrom, IsLeastFrom};
ghost use Rattle.ct_chain.specs.Keys.{AreAhead, AreKeysLinked, IsKeySought};

use crate::buckets::bucket;

/// Links the place of a key that comes after these.
#[tactic(auto, using(crate::proofs::Keys::key_first))]
pub fn link_key(
    keys: &[u32],
    heads: &mut Vec<u32>,
    tails: &mut Vec<u32>,
    next: &mut Vec<u32>,
    key: u32,
)
    requires few { length keys.now + 1 < 2 ^ 32 }
    requires room { vec_len next.old < vec_capacity next.old }
    requires linked { AreKeysLinked (vec_len heads.old) keys.now heads.old.items tails.old.items next.old.items }
    ensures linked { AreKeysLinked (vec_len heads.old) (keys.now ++ key ∷ []) heads.new.items tails.new.items next.new.items }
    ensures heads { vec_len heads.new ≡ vec_len heads.old }
    ensures room { vec_capacity next.new ≡ vec_capacity next.old }
{
    let b = bucket(key as u64, heads.len());
    let place = keys.len() as u32;
    let last = tails[b];
    next.push_reserved(u32::MAX);
    tails[b] = place + 1;
    if last == 0 {
        heads[b] = place;
        return;
    }
    next[last as usize - 1] = place;
}

/// Where a search for a key begins: behind the place before `from` where the key stands there, else at its bucket's first place.
fn first_from(keys: &[u32], heads: &[u32], next: &[u32], key: u32, from: u32) -> u32
    requires few { length keys.now < 2 ^ 32 }
    requires linked { AreAhead (length heads.now) keys.now heads.now next.now }
    ensures { IsKeySought (length heads.now) keys.now key from result }
{
    if 0 < from && from as usize <= keys.len() {
        let before = from as usize - 1;
        if keys[before] == key {
            return next[before];
        }
    }
    heads[bucket(key as u64, heads.len())]
}

/// The least place at or past `from` at which the key stands, by going along its bucket.
pub fn find_from(keys: &[u32], heads: &[u32], next: &[u32], key: u32, from: u32) -> Option<u32>
    requires few { length keys.now < 2 ^ 32 }
    requires linked { AreAhead (length heads.now) keys.now heads.now next.now }
    ensures { MatchOption result (IsNoneFrom keys.now key from) (λ place. IsLeastFrom keys.now key from place) }
{
    let mut at = first_from(keys, heads, next, key, from);
    while (at as usize) < keys.len() {
        if at >= from && keys[at as usize] == key {
            return Some(at);
        }
        at = next[at as usize];
    }
    None
}
