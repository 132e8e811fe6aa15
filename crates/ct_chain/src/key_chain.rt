// A list of keys, which may repeat.

ghost use Rattle.std.specs.Prelude.{◌≡◌, ◌+◌, ◌<◌, ◌≤◌, ◌^◌, [], ◌∷◌, ◌++◌, length, IfOk, MatchOption};
ghost use Rattle.ct_chain.specs.Seen.{IsNoneFrom, IsLeastFrom};

use crate::key_links::{find_from, link_key};
use ct_word::Memory;
use std::alloc::Global;
use std::marker::Model;

/// A list of keys in which the places of one key are found in their order, along one bucket.
///
/// Each bucket has its first and its last place, and each place has the next later one of its bucket.
#[derive(Drop)]
pub struct KeyChain {
    room: u32,
    keys: Vec<u32>,
    heads: Vec<u32>,
    tails: Vec<u32>,
    next: Vec<u32>,
}

impl Model for KeyChain {
    ghost use Rattle.std.specs.Prelude.{◌≤◌, ◌<◌, ◌^◌, length, vec_capacity};
    ghost use Rattle.ct_chain.specs.Seen.{Keyed};
    ghost use Rattle.ct_chain.specs.Keys.{AreKeysLinked};

    ghost Value = { Keyed };

    ghost view = { λ c. record { room = c.room; keys = c.keys.items } };

    ghost invariant = { λ c. AreKeysLinked (length c.heads.items) c.keys.items c.heads.items c.tails.items c.next.items × (length c.keys.items ≤ c.room) × (c.room < 2 ^ 32) × (c.room ≤ vec_capacity c.keys) × (c.room ≤ vec_capacity c.next) };
}

impl KeyChain {
    /// A list without keys that has room for so many.
    ///
    /// # Errors
    /// `Memory` where there is none for so many.
    #[tactic(auto, using(crate::proofs::Keys::no_keys))]
    pub fn make(alloc: Global, cap: u32) -> Result<KeyChain, Memory>
        ensures { IfOk result (λ chain. chain ≡ record { room = cap; keys = [] }) }
    {
        let buckets = (cap as usize).max(1);
        let keys = Vec::with_capacity(alloc, cap as usize)?;
        let next = Vec::with_capacity(alloc, cap as usize)?;
        let heads = vec![in alloc; u32::MAX; buckets]?;
        let tails = vec![in alloc; 0; buckets]?;
        Ok(KeyChain {
            room: cap,
            keys,
            heads,
            tails,
            next,
        })
    }

    /// Puts a key at the end. It takes no memory.
    pub fn push(&mut self, key: u32)
        requires { length self.old.keys < self.old.room }
        ensures { self.new ≡ record { room = self.old.room; keys = self.old.keys ++ key ∷ [] } }
    {
        let keys = self.keys.as_slice();
        link_key(keys, &mut self.heads, &mut self.tails, &mut self.next, key);
        self.keys.push_reserved(key);
    }

    /// The least place at or past `from` at which the key stands.
    ///
    /// From one past a place of the key, as in a walk over all its places, it is found at once.
    pub fn next_from(&self, key: u32, from: u32) -> Option<u32>
        ensures { MatchOption result (IsNoneFrom self.now.keys key from) (λ place. IsLeastFrom self.now.keys key from place) }
    {
        find_from(
            self.keys.as_slice(),
            self.heads.as_slice(),
            self.next.as_slice(),
            key,
            from,
        )
    }
}
