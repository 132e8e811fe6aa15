// What one session has seen of the log, and its appending to it.

ghost use Rattle.std.specs.Prelude.{◌≡◌, ◌+◌, ◌<◌, ◌≤◌, ◌^◌, ◌↔◌, [], ◌∷◌, ◌++◌, length, IfOk, OnOk, OnErr, IsErr, IsOk, IsTrue, Some, slice_get, Contains};
ghost use mathlib.Core.List.{IsPrefix};
ghost use Rattle.ct_word.specs.WellFormed.{IsWellFormed, is_plain_word};
ghost use Rattle.ct_arena.specs.Counts.{opening, AreNumbered};
ghost use Rattle.ct_arena.specs.Kept.{IsPass};
ghost use Rattle.ct_arena.specs.Seen.{CountsWord};

use crate::arenas::Arena;
use crate::following::{put, read_on};
use crate::full::Full;
use crate::sharing::Token;
use crate::sites::Site;
use crate::tally::Tally;
use ct_chain::Chain;
use std::marker::{Model, PhantomData};

/// What one session has seen of the log that N names, and how much of it is its own.
#[derive(Drop)]
pub struct Pass<N: Site> {
    pub(crate) token: Token,
    pub(crate) tally: Tally,
    pub(crate) seen: Chain,
    pub(crate) site: PhantomData<N>,
}

impl<N: Site> Model for Pass<N> {
    ghost use Rattle.ct_arena.specs.Seen.{Seen};
    ghost use Rattle.std.specs.Prelude.{◌≡◌};
    ghost use Rattle.ct_arena.specs.Kept.{IsPass};

    ghost Value = { Seen };

    ghost view = { λ p. record { session = p.tally.session; words = p.seen.words; made = p.tally.made; mine = p.tally.mine } };

    ghost invariant = { λ p. IsPass N.log p.token.table_id p.token.me p.tally p.seen.words × (p.seen.room ≡ N.log.cap) };
}

impl<N: Site> Pass<N> {
    pub(crate) fn from_parts(token: Token, tally: Tally, seen: Chain) -> Pass<N>
        requires { IsPass N.log token.table_id token.me tally seen.words × (seen.room ≡ N.log.cap) }
        ensures { result ≡ record { session = tally.session; words = seen.words; made = tally.made; mine = tally.mine } }
    {
        Pass {
            token,
            tally,
            seen,
            site: PhantomData,
        }
    }

    /// The number of the session, from 1.
    pub fn session(&self) -> u32
        ensures value { result ≡ self.now.session }
        ensures least { 1 ≤ result }
        ensures most { result ≤ 1023 }
    {
        self.tally.session
    }

    /// The words that the session has seen.
    pub fn words(&self) -> &[u64]
        ensures words { result.now ≡ self.now.words }
        ensures formed { IsWellFormed self.now.words }
        ensures room { length self.now.words ≤ N.log.cap }
        ensures small { length self.now.words < 2 ^ 28 }
        ensures begins { IsPrefix opening self.now.words }
        ensures numbered { AreNumbered self.now.session self.now.mine self.now.words }
        ensures counted { 2 + self.now.made ≤ length self.now.words }
    {
        self.seen.words()
    }

    /// How many words the session appended.
    pub fn made(&self) -> u32
        ensures { result ≡ self.now.made }
    {
        self.tally.made
    }

    /// How many commits are the session's.
    pub fn mine(&self) -> u32
        ensures { result ≡ self.now.mine }
    {
        self.tally.mine
    }

    /// The place of a word, which is appended where it does not stand in the log.
    ///
    /// # Errors
    /// `Full` where the words are as many as the capacity and the word is not among them.
    pub fn intern(&mut self, arena: &Arena<N>, w: u64) -> Result<u32, Full>
        requires { IsTrue (is_plain_word self.old.words w) }
        ensures stands { IfOk result (λ place. slice_get self.new.words place ≡ Some w) }
        ensures longer { IsPrefix self.old.words self.new.words }
        ensures formed { IsWellFormed self.new.words }
        ensures room { length self.new.words ≤ N.log.cap }
        ensures known { Contains self.old.words w → IsOk result × (self.new ≡ self.old) }
        ensures made { CountsWord self.old.made self.new.made self.new.words w }
        ensures mine { self.new.mine ≡ self.old.mine }
        ensures session { self.new.session ≡ self.old.session }
        ensures full { IsErr result ↔ ((length self.new.words ≡ N.log.cap) × ¬ Contains self.new.words w) }
        ensures err { OnErr result (self.new.made ≡ self.old.made) }
    {
        put(
            &arena.words,
            arena.cap,
            &mut self.token,
            &mut self.seen,
            &mut self.tally,
            0,
            w,
        )
    }

    /// Reads on to the first empty word.
    pub fn catch_up(&mut self, arena: &Arena<N>)
        ensures longer { IsPrefix self.old.words self.new.words }
        ensures formed { IsWellFormed self.new.words }
        ensures room { length self.new.words ≤ N.log.cap }
        ensures made { self.new.made ≡ self.old.made }
        ensures mine { self.new.mine ≡ self.old.mine }
        ensures session { self.new.session ≡ self.old.session }
    {
        read_on(&arena.words, arena.cap, &mut self.token, &mut self.seen);
    }
}
