// Positions of places, found by their places.

ghost use Rattle.std.specs.Prelude.{◌≡◌, [], ◌∷◌, ◌++◌, map, slice_index_or, OnOk, IfOk};
ghost use Rattle.ct_worlds.specs.Truths.{AreRising};
ghost use Rattle.ct_rewrite.specs.Below.{position_at};

use ct_word::Memory;
use std::alloc::Global;
use std::marker::Model;

/// Places that rise, and the positions of the first of them.
#[derive(Drop)]
pub struct Positions<'a> {
    places: &'a [u32],
    positions: Vec<u32>,
}

impl<'a> Model for Positions<'a> {
    ghost use Rattle.ct_worlds.specs.Truths.{AreRising};
    ghost use Rattle.ct_rewrite.specs.Below.{Placement};

    ghost Value = { Placement };

    ghost view = { λ p. record { places = p.places.now; positions = p.positions.items } };

    ghost invariant = { λ p. AreRising p.places.now };
}

/// The position with a number, 0 past the last one.
fn position_with(positions: &[u32], number: usize) -> u32
    ensures { result ≡ slice_index_or positions.now number 0 }
{
    if number < positions.len() {
        return positions[number];
    }
    0
}

impl<'a> Positions<'a> {
    /// Places without positions.
    pub fn new(alloc: Global, places: &'a [u32]) -> Positions<'a>
        requires rising { AreRising places.now }
        ensures places { result.places ≡ places.now }
        ensures positions { result.positions ≡ [] }
    {
        Positions {
            places,
            positions: Vec::new(alloc),
        }
    }

    /// Adds the position of the next place.
    pub fn push(&mut self, position: u32) -> Result<(), Memory>
        ensures places { self.new.places ≡ self.old.places }
        ensures positions { OnOk result (self.new.positions ≡ self.old.positions ++ position ∷ []) }
    {
        self.positions.push(position)?;
        Ok(())
    }

    /// The position of a place, 0 for none. It takes a logarithm of steps at most.
    pub fn at(&self, place: u32) -> u32
        ensures { result ≡ position_at self.now place }
    {
        match self.places.binary_search(&place) {
            Ok(number) => position_with(self.positions.as_slice(), number),
            Err(_) => 0,
        }
    }

    /// The positions of these places.
    pub fn of(&self, alloc: Global, places: &[u32]) -> Result<Vec<u32>, Memory>
        ensures { IfOk result (λ ks. ks.items ≡ map (position_at self.now) places.now) }
    {
        let mut positions = Vec::new(alloc);
        for place in places {
            positions.push(self.at(*place))?;
        }
        Ok(positions)
    }
}
