// The places that roots lead to.

ghost use Rattle.std.specs.Prelude.{ℕ, OnOk, IfOk, IsTrue};
ghost use Rattle.std.specs.List.{list_all};
ghost use Rattle.ct_worlds.specs.Truths.{AreRising};
ghost use Rattle.ct_rewrite.specs.Below.{has, has_in, AreAdded, IsClosedFrom, IsDownward};

use ct_word::Memory;
use std::alloc::Global;
use std::collections::BTreeSet;

/// Things at places, each over things at lower places.
pub trait Graph {
    ghost use Rattle.std.specs.Prelude.{ℕ, Bool, List};

    ghost is_in: { Self → ℕ → Bool };

    ghost parts: { Self → ℕ → List ℕ };

    /// Adds the places that the thing at a place names.
    fn add_parts(&self, place: u32, places: &mut BTreeSet<u32>) -> Result<(), Memory>
        requires { IsTrue (is_in self.now place) }
        ensures { OnOk result (AreAdded (has_in places.old) (has_in places.new) (parts self.now place)) };
}

/// Adds places to a set.
pub fn add(places: &mut BTreeSet<u32>, more: &[u32]) -> Result<(), Memory>
    ensures { OnOk result (AreAdded (has_in places.old) (has_in places.new) more.now) }
{
    for place in more {
        places.insert(*place)?;
    }
    Ok(())
}

/// The roots and the places that they lead to, each once and in their order, so that what a place names
/// comes before it.
pub fn below<G: Graph>(
    alloc: Global,
    graph: &G,
    bound: u32,
    roots: &[u32],
) -> Result<Vec<u32>, Memory>
    requires downward { IsDownward (G.is_in graph.now) (G.parts graph.now) bound }
    requires roots { IsTrue (list_all (G.is_in graph.now) roots.now) }
    ensures inside { IfOk result (λ ps. (k : ℕ) → IsTrue (has ps.items k) → IsTrue (G.is_in graph.now k)) }
    ensures roots { IfOk result (λ ps. IsTrue (list_all (has ps.items) roots.now)) }
    ensures closed { IfOk result (λ ps. IsClosedFrom (G.parts graph.now) 0 (has ps.items)) }
    ensures rising { IfOk result (λ ps. AreRising ps.items) }
{
    let mut waiting = BTreeSet::new(alloc);
    add(&mut waiting, roots)?;
    let mut passed = Vec::new(alloc);
    // The proof alone reads this: no place at or past it is left to be passed.
    let mut bound = bound;
    while let Some(place) = waiting.pop_last() {
        graph.add_parts(place, &mut waiting)?;
        passed.push(place)?;
        bound = place;
    }
    passed.reverse();
    Ok(passed)
}
