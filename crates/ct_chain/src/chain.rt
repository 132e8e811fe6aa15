// A list of words of which none stands twice.

ghost use Rattle.std.specs.Prelude.{◌≡◌, ◌+◌, ◌<◌, ◌≤◌, ◌^◌, [], ◌∷◌, ◌++◌, length, IfOk, Some, slice_get, MatchOption, Contains};
ghost use Rattle.ct_chain.specs.Seen.{AreDistinct};

use crate::links::{find_along, link_last};
use ct_word::Memory;
use std::alloc::Global;
use std::marker::Model;

/// A list of words with no word twice, in which a word is found along one bucket.
///
/// Each bucket has one more than the place of its last word, or 0, and each place has the same of the next earlier
/// word of its bucket. The buckets become more as the words do.
#[derive(Drop)]
pub struct Chain {
    room: u32,
    words: Vec<u64>,
    heads: Vec<u32>,
    next: Vec<u32>,
}

impl Model for Chain {
    ghost use Rattle.std.specs.Prelude.{◌≤◌, ◌<◌, vec_capacity};
    ghost use Rattle.ct_chain.specs.Seen.{Chained};
    ghost use Rattle.ct_chain.specs.Linked.{IsChain};

    ghost Value = { Chained };

    ghost view = { λ c. record { room = c.room; words = c.words.items } };

    ghost invariant = { λ c. IsChain c.room c.words.items c.heads.items c.next.items × (c.room ≤ vec_capacity c.words) × (c.room ≤ vec_capacity c.next) × (c.room < vec_capacity c.heads) };
}

impl Chain {
    /// A list without words that has room for so many.
    ///
    /// # Errors
    /// `Memory` where there is none for so many.
    pub fn make(alloc: Global, cap: u32) -> Result<Chain, Memory>
        ensures { IfOk result (λ chain. chain ≡ record { room = cap; words = [] }) }
    {
        let words = Vec::with_capacity(alloc, cap as usize)?;
        let next = Vec::with_capacity(alloc, cap as usize)?;
        let mut heads = Vec::with_capacity(alloc, cap as usize + 1)?;
        heads.push_reserved(0);
        Ok(Chain {
            room: cap,
            words,
            heads,
            next,
        })
    }

    /// The place of a word.
    pub fn find(&self, w: u64) -> Option<u32>
        ensures { MatchOption result (¬ Contains self.now.words w) (λ place. slice_get self.now.words place ≡ Some w) }
    {
        find_along(
            self.words.as_slice(),
            self.heads.as_slice(),
            self.next.as_slice(),
            w,
        )
    }

    /// Puts a word that does not stand in the list at its end. It takes no memory.
    #[tactic(auto, using(crate::proofs::Steps::linked_grows, crate::proofs::Steps::distinct_push))]
    pub fn push(&mut self, w: u64)
        requires room { length self.old.words < self.old.room }
        requires new { ¬ Contains self.old.words w }
        ensures { self.new ≡ record { room = self.old.room; words = self.old.words ++ w ∷ [] } }
    {
        self.words.push_reserved(w);
        self.next.push_reserved(0);
        let words = self.words.as_slice();
        link_last(words, &mut self.heads, &mut self.next, self.room as usize);
    }

    /// The word at a place.
    pub fn at(&self, i: u32) -> u64
        requires { i < length self.now.words }
        ensures { slice_get self.now.words i ≡ Some result }
    {
        self.words[i as usize]
    }

    /// The list.
    pub fn words(&self) -> &[u64]
        ensures words { result.now ≡ self.now.words }
        ensures distinct { AreDistinct self.now.words }
        ensures room { length self.now.words ≤ self.now.room }
    {
        self.words.as_slice()
    }

    /// The list. It takes no memory.
    pub fn into_words(self) -> Vec<u64>
        ensures { result.items ≡ self.words }
    {
        self.words
    }
}
