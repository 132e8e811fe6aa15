// A table of literals: those that are false in a test by unit propagation, or of a path's clause.

ghost use Rattle.std.specs.Prelude.{◌≡◌, ◌<◌, ◌≤◌, ◌++◌, ◌∷◌, [], ◌^◌, length, slice_index, IfOk};
ghost use Rattle.ct_derivation.specs.Literal.{has};
ghost use Rattle.ct_checker.specs.Added.{added};
ghost use Rattle.ct_checker.specs.Linked.{Linked, IsHead, bucket_of, number_of};

use crate::literals::is_same;
use ct_derivation::{Atom, Lit};
use ct_word::Memory;
use std::alloc::Global;
use std::marker::Model;

/// A prime past most lengths of logs, so that pairs of places seldom share a number.
const STRIDE: u64 = 1_000_003;

/// A table with room for so many marked literals, which is emptied in the time that its literals took.
///
/// The marked literals are listed, and each bucket of a hash has a chain through the list, from
/// its newest literal down. `clear` takes the heads of these chains away: a chain from an old head
/// would pass through literals of other buckets, and one such chain through all.
#[derive(Drop)]
pub struct Marks {
    room: u32,
    falses: Vec<Lit>,
    heads: Vec<u32>,
    next: Vec<u32>,
}

impl Model for Marks {
    ghost use Rattle.std.specs.Prelude.{◌≤◌, ◌<◌, ◌≡◌, vec_len, vec_capacity};
    ghost use Rattle.ct_checker.specs.Marked.{Marked};
    ghost use Rattle.ct_checker.specs.Linked.{Linked};

    ghost Value = { Marked };

    ghost view = { λ m. record { room = m.room; falses = m.falses.items } };

    ghost invariant = { λ m. (vec_len m.falses ≤ m.room) × (m.room ≤ vec_capacity m.falses) × (vec_len m.next ≡ m.room) × (0 < vec_len m.heads) × Linked m.falses.items m.heads.items m.next.items };
}

fn number(literal: &Lit) -> u64
    ensures value { result ≡ number_of literal.now.atom }
{
    match literal.atom {
        Atom::Node(p) => u64::from(p),
        Atom::Same(s, t) => u64::from(s) * STRIDE + u64::from(t),
    }
}

/// The bucket of a literal among so many.
#[tactic(auto, unfolding(crate::specs::Linked::bucket_of))]
fn bucket(literal: &Lit, buckets: usize) -> usize
    requires { 0 < buckets }
    ensures value { result ≡ bucket_of buckets literal.now }
    ensures within { result < buckets }
{
    (number(literal) % (buckets as u64)) as usize
}

/// The head of a literal's bucket.
fn head(heads: &[u32], literal: &Lit) -> u32
    requires { 0 < length heads.now }
    ensures { result ≡ slice_index heads.now (bucket_of (length heads.now) literal.now) }
{
    heads[bucket(literal, heads.len())]
}

/// Puts a literal in front of its bucket's chain.
fn link(falses: &[Lit], heads: &mut [u32], next: &mut [u32], literal: &Lit)
    requires linked { Linked falses.now heads.old next.old }
    requires buckets { 0 < length heads.old }
    requires room { length falses.now < length next.old }
    requires small { length falses.now < 2 ^ 32 }
    ensures { Linked (falses.now ++ literal.now ∷ []) heads.new next.new }
{
    let k = bucket(literal, heads.len());
    let place = falses.len();
    next[place] = heads[k];
    heads[k] = place as u32;
}

/// Puts no place at the head of each literal's bucket.
fn unlink(falses: &[Lit], heads: &mut [u32])
    requires { 0 < length heads.old }
    ensures { length heads.new ≡ length heads.old }
{
    for literal in falses {
        let k = bucket(literal, heads.len());
        heads[k] = u32::MAX;
    }
}

/// Walks a chain down from a place.
fn is_chained(falses: &[Lit], next: &[u32], first: u32, literal: &Lit) -> bool
    requires head { IsHead falses.now next.now first literal.now }
    requires long { length falses.now ≤ length next.now }
    ensures { result ≡ has falses.now literal.now }
{
    let mut place = first as usize;
    while place < falses.len() {
        if is_same(literal, &falses[place]) {
            return true;
        }
        let lower = next[place] as usize;
        if lower >= place {
            return false;
        }
        place = lower;
    }
    false
}

impl Marks {
    /// A table with room for so many literals, none of them marked.
    ///
    /// # Errors
    /// `Memory` where there is none for the table.
    #[tactic(auto, using(crate::proofs::Chains::none_linked))]
    pub fn make(alloc: Global, room: u32) -> Result<Marks, Memory>
        ensures { IfOk result (λ m. m ≡ record { room = room; falses = [] }) }
    {
        let falses = Vec::with_capacity(alloc, room as usize)?;
        let heads = vec![in alloc; 0; room as usize + 1]?;
        let next = vec![in alloc; 0; room as usize]?;
        Ok(Marks {
            room,
            falses,
            heads,
            next,
        })
    }

    /// Takes all marks away.
    #[tactic(auto, using(crate::proofs::Chains::none_linked))]
    pub(crate) fn clear(&mut self)
        ensures { self.new ≡ record { room = self.old.room; falses = [] } }
    {
        unlink(self.falses.as_slice(), self.heads.as_mut_slice());
        self.falses.clear();
    }

    /// Marks a literal.
    pub(crate) fn push(&mut self, literal: Lit)
        requires { length self.old.falses < self.old.room }
        ensures { self.new ≡ record { room = self.old.room; falses = self.old.falses ++ literal ∷ [] } }
    {
        link(
            self.falses.as_slice(),
            self.heads.as_mut_slice(),
            self.next.as_mut_slice(),
            &literal,
        );
        self.falses.push_reserved(literal);
    }

    /// Whether a literal is marked.
    #[tactic(auto, using(crate::proofs::Chains::head_of))]
    pub(crate) fn holds(&self, literal: &Lit) -> bool
        ensures { result ≡ has self.now.falses literal.now }
    {
        let first = head(self.heads.as_slice(), literal);
        is_chained(self.falses.as_slice(), self.next.as_slice(), first, literal)
    }

    /// Marks a literal, unless it is marked already.
    #[tactic(auto, unfolding(crate::specs::Added::added))]
    pub(crate) fn add(&mut self, literal: Lit)
        requires { length (added self.old.falses literal) ≤ self.old.room }
        ensures { self.new ≡ record { room = self.old.room; falses = added self.old.falses literal } }
    {
        if !self.holds(&literal) {
            self.push(literal);
        }
    }
}
