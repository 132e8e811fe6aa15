// A keeper at work for its guest.

ghost use Rattle.std.specs.Prelude.{◌≡◌, [], ◌∷◌, ◌++◌, Some, length};
ghost use Rattle.ct_condition.specs.CommitWords.{commit_words};
ghost use Rattle.ct_condition.specs.Tallies.{numbers_in};

use crate::interner::Interner;
use ct_arena::{Arena, Full, Guest, KeeperPass, Site};

/// The keeper's pass, which interns words for the guest that is entered. The words are then counted to the guest.
#[derive(Drop)]
pub struct Seated<'a, N: Site> {
    pub keeper: &'a mut KeeperPass<N>,
    pub guest: &'a mut Guest<N>,
    pub ghost entered: { keeper.now.guest ≡ Some guest.now },
}

impl<N: Site> Interner<N> for Seated<'_, N> {
    ghost list = { λ s. s.keeper.now.words };

    ghost made = { λ s. s.guest.now.made };

    ghost kept = { λ s. s.guest.now.session ∷ s.guest.now.mine ∷ s.keeper.now.enrolled ∷ length s.keeper.now.ended ∷ (numbers_in s.keeper.now.ended ++ commit_words s.keeper.now.words) };

    ghost lent = { λ s. s.keeper.ghost_name ∷ s.guest.ghost_name ∷ [] };

    fn intern(&mut self, arena: &Arena<N>, w: u64) -> Result<u32, Full> {
        self.keeper.intern(arena, self.guest, w)
    }

    fn words(&self) -> &[u64] {
        self.keeper.words()
    }
}
