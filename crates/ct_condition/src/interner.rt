// What interns words for one site.

ghost use Rattle.std.specs.Prelude.{◌≡◌, ◌≤◌, ◌<◌, ◌^◌, ◌↔◌, ◌+◌, OnErr, ℕ, List, [], ◌∷◌, length, IfOk, IsErr, IsOk, IsTrue, Some, slice_get, Contains};
ghost use Rattle.std.specs.Borrow.{GName};
ghost use mathlib.Core.List.{IsPrefix};
ghost use Rattle.ct_word.specs.WellFormed.{IsWellFormed, is_plain_word};
ghost use Rattle.ct_arena.specs.Counts.{opening};
ghost use Rattle.ct_arena.specs.Seen.{CountsWord};

use ct_arena::{Arena, Full, Pass, Site};

/// Puts words into the log that N names. A session's pass does, and the keeper's pass for its guest.
pub trait Interner<N: Site> {
    /// The words that it has seen.
    ghost list: { Self → List ℕ };

    /// How many words it appended.
    ghost made: { Self → ℕ };

    /// What interning leaves as it was: for a pass its session and the number of its commits.
    ghost kept: { Self → List ℕ };

    /// The references that it holds.
    ghost lent: { Self → List GName };

    /// The place of a word, which is appended where it does not stand in the log.
    ///
    /// # Errors
    /// `Full` where the words are as many as the capacity and the word is not among them.
    fn intern(&mut self, arena: &Arena<N>, w: u64) -> Result<u32, Full>
        requires { IsTrue (is_plain_word (list self.old) w) }
        ensures stands { IfOk result (λ place. slice_get (list self.new) place ≡ Some w) }
        ensures longer { IsPrefix (list self.old) (list self.new) }
        ensures formed { IsWellFormed (list self.new) }
        ensures room { length (list self.new) ≤ N.log.cap }
        ensures full { IsErr result ↔ ((length (list self.new) ≡ N.log.cap) × ¬ Contains (list self.new) w) }
        ensures known { Contains (list self.old) w → IsOk result × (list self.new ≡ list self.old) × (made self.new ≡ made self.old) }
        ensures made { CountsWord (made self.old) (made self.new) (list self.new) w }
        ensures err { OnErr result (made self.new ≡ made self.old) }
        ensures kept { kept self.new ≡ kept self.old }
        ensures lent { lent self.new ≡ lent self.old };

    fn words(&self) -> &[u64]
        ensures words { result.now ≡ list self.now }
        ensures formed { IsWellFormed (list self.now) }
        ensures room { length (list self.now) ≤ N.log.cap }
        ensures small { length (list self.now) < 2 ^ 28 }
        ensures begins { IsPrefix opening (list self.now) };
}

impl<N: Site> Interner<N> for Pass<N> {
    ghost list = { λ p. p.words };

    ghost made = { λ p. p.made };

    ghost kept = { λ p. p.session ∷ p.mine ∷ [] };

    ghost lent = { λ p. [] };

    fn intern(&mut self, arena: &Arena<N>, w: u64) -> Result<u32, Full> {
        Pass::intern(self, arena, w)
    }

    fn words(&self) -> &[u64] {
        Pass::words(self)
    }
}
