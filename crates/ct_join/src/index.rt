// The keys of one side, prepared so that the partners of a key are found.

ghost use Rattle.std.specs.Prelude.{◌≡◌, ◌<◌, ◌^◌, length, IfOk, OnOk};
ghost use Rattle.ct_join.specs.Pairs.{partners};

use crate::finding::{add_null, find_all, find_constant, number_of};
use crate::keys::Key;
use ct_chain::KeyChain;
use ct_word::Memory;
use std::alloc::Global;
use std::marker::Model;

/// Keys among which the partners of another key are found, without a look at the keys that are none.
///
/// The constants are found along a `KeyChain`, and the nulls stand in a list of their own.
#[derive(Drop)]
pub struct Index<'a> {
    keys: &'a [Key],
    numbers: KeyChain,
    nulls: Vec<u32>,
}

impl<'a> Model for Index<'a> {
    ghost use Rattle.std.specs.Prelude.{List};
    ghost use Rattle.ct_join.specs.declared.keys.Key.{Key};
    ghost use Rattle.ct_join.specs.Indexed.{IsIndex};

    ghost Value = { List Key };

    ghost view = { λ x. x.keys.now };

    ghost invariant = { λ x. IsIndex x.keys.now x.numbers.keys x.nulls.items };
}

impl<'a> Index<'a> {
    /// The index of these keys. It takes 16 bytes for each key, and 4 more for each null.
    ///
    /// # Errors
    /// `Memory` where there is none for so many.
    #[tactic(auto, using(crate::proofs::Walk::none_indexed, crate::proofs::Walk::one_indexed, crate::proofs::Walk::all_indexed))]
    pub fn make(alloc: Global, keys: &'a [Key]) -> Result<Index<'a>, Memory>
        requires few { length keys.now < 2 ^ 32 }
        ensures { IfOk result (λ index. index ≡ keys.now) }
    {
        let mut numbers = KeyChain::make(alloc, keys.len() as u32)?;
        let mut nulls = Vec::new(alloc);
        for place in 0..keys.len() {
            // The chain has a number for each key, so that its places are those of the keys.
            numbers.push(number_of(keys[place]));
            add_null(&mut nulls, keys[place], place as u32)?;
        }
        Ok(Index {
            keys,
            numbers,
            nulls,
        })
    }

    /// Makes `found` the places of the keys that may be of one value with a key, in order.
    ///
    /// # Errors
    /// `Memory` where there is none for so many. What `found` has then is not said.
    pub fn find(&self, key: Key, found: &mut Vec<u32>) -> Result<(), Memory>
        ensures { OnOk result (found.new.items ≡ partners key self.now) }
    {
        found.clear();
        match key {
            Key::Constant(number) => find_constant(
                self.keys,
                &self.numbers,
                self.nulls.as_slice(),
                number,
                found,
            ),
            Key::Null => find_all(self.keys, found),
        }
    }
}
