// Paths along true equalities, by breadth-first search.

ghost use Rattle.std.specs.Prelude.{◌≡◌, ◌<◌, ◌≤◌, ◌^◌, true, length, slice_index_or, OnOk, IfOk};
ghost use Rattle.ct_equality.specs.Terms.{is_among, is_end_of, terms_of};
ghost use Rattle.ct_equality.specs.Assigned.{IsLink, IsWalk, Joined, are_ordered};
ghost use Rattle.ct_equality.specs.Ends.{AreEnds};
ghost use Rattle.ct_equality.specs.Trees.{Extends, HasRoom, IsExplored, IsTree, LeadsInto};

use crate::ends::{Ends, true_ends};
use crate::terms::place_of;
use ct_chain::Chain;
use ct_derivation::Atom;
use ct_word::{List, Memory};
use std::alloc::{AllocError, Global};

/// Terms in the order in which a search met them, and for each the place in this list of the one
/// that it was met from.
#[derive(Drop)]
struct Tree {
    places: Vec<u32>,
    found: Chain,
    origins: Vec<u32>,
}

/// Adds a term that is joined with the one at `origin`, unless it is there.
fn reach(
    atoms: &[Atom],
    truth: &[bool],
    tree: &mut Tree,
    place: u32,
    origin: usize,
) -> Result<(), AllocError>
    requires tree { IsTree atoms.now truth.now tree.old.places.items tree.old.origins.items }
    requires room { HasRoom atoms.now tree.old.places.items tree.old.found.words tree.old.found.room }
    requires origin { origin < length tree.old.places.items }
    requires link { IsLink atoms.now truth.now place (slice_index_or tree.old.places.items origin 0) }
    ensures tree { OnOk result (IsTree atoms.now truth.now tree.new.places.items tree.new.origins.items) }
    ensures room { OnOk result (HasRoom atoms.now tree.new.places.items tree.new.found.words tree.new.found.room) }
    ensures extends { OnOk result (Extends tree.old.places.items tree.new.places.items) }
    ensures reached { OnOk result (is_among tree.new.places.items place ≡ true) }
{
    if let Some(_) = tree.found.find(place as u64) {
        return Ok(());
    }
    tree.found.push(place as u64);
    tree.places.push(place)?;
    tree.origins.push(origin as u32)?;
    Ok(())
}

/// Adds the terms that are joined with the one at a place of the tree.
fn grow(
    atoms: &[Atom],
    truth: &[bool],
    ends: &Ends,
    tree: &mut Tree,
    at: usize,
) -> Result<(), AllocError>
    requires few { length ends.now.keys.keys < 2 ^ 32 }
    requires ends { AreEnds atoms.now truth.now (length atoms.now) ends.now.keys.keys ends.now.others.items }
    requires tree { IsTree atoms.now truth.now tree.old.places.items tree.old.origins.items }
    requires room { HasRoom atoms.now tree.old.places.items tree.old.found.words tree.old.found.room }
    requires at { at < length tree.old.places.items }
    ensures tree { OnOk result (IsTree atoms.now truth.now tree.new.places.items tree.new.origins.items) }
    ensures room { OnOk result (HasRoom atoms.now tree.new.places.items tree.new.found.words tree.new.found.room) }
    ensures extends { OnOk result (Extends tree.old.places.items tree.new.places.items) }
    ensures reached { OnOk result (LeadsInto atoms.now truth.now (length atoms.now) (slice_index_or tree.old.places.items at 0) tree.new.places.items) }
{
    let place = tree.places[at];
    let mut from = 0;
    while let Some(i) = ends.keys.next_from(place, from) {
        reach(atoms, truth, tree, ends.others[i as usize], at)?;
        from = i + 1;
    }
    Ok(())
}

/// All terms of the class of a term, and how it is reached from each.
fn explore(
    alloc: Global,
    atoms: &[Atom],
    truth: &[bool],
    ends: &Ends,
    count: u32,
    root: u32,
) -> Result<Tree, Memory>
    requires few { length ends.now.keys.keys < 2 ^ 32 }
    requires ends { AreEnds atoms.now truth.now (length atoms.now) ends.now.keys.keys ends.now.others.items }
    requires count { length (terms_of atoms.now) ≤ count }
    requires root { is_end_of atoms.now root ≡ true }
    ensures tree { IfOk result (λ t. IsTree atoms.now truth.now t.places.items t.origins.items) }
    ensures found { IfOk result (λ t. t.found.words ≡ t.places.items) }
    ensures root { IfOk result (λ t. slice_index_or t.places.items 0 0 ≡ root) }
    ensures explored { IfOk result (λ t. IsExplored atoms.now truth.now (length t.places.items) t.places.items) }
{
    let mut tree = Tree {
        places: vec![in alloc; root]?,
        found: Chain::make(alloc, count)?,
        origins: vec![in alloc; 0]?,
    };
    tree.found.push(root as u64);
    let mut at = 0;
    while at < tree.places.len() {
        grow(atoms, truth, ends, &mut tree, at)?;
        at += 1;
    }
    Ok(tree)
}

/// The terms from one at a place of a tree back to its first.
fn walk(
    alloc: Global,
    atoms: &[Atom],
    truth: &[bool],
    tree: &Tree,
    from: u32,
) -> Result<List<u32>, AllocError>
    requires tree { IsTree atoms.now truth.now tree.now.places.items tree.now.origins.items }
    requires from { from < length tree.now.places.items }
    ensures { IfOk result (λ p. IsWalk atoms.now truth.now (slice_index_or tree.now.places.items from 0) (slice_index_or tree.now.places.items 0 0) p) }
{
    let mut at = from as usize;
    let mut path = vec![in alloc; tree.places[at]]?;
    while at > 0 {
        at = tree.origins[at] as usize;
        path.push(tree.places[at])?;
    }
    Ok(List::from_vec(path))
}

/// A shortest path along true equalities from one term of a class to another; that it is a shortest one is no clause.
pub fn path(
    alloc: Global,
    atoms: &[Atom],
    truth: &[bool],
    count: u32,
    s: u32,
    t: u32,
) -> Result<List<u32>, Memory>
    requires truths { length atoms.now ≡ length truth.now }
    requires ordered { are_ordered atoms.now ≡ true }
    requires count { length (terms_of atoms.now) ≤ count }
    requires end { is_end_of atoms.now t ≡ true }
    requires joined { Joined atoms.now truth.now s t }
    ensures { IfOk result (λ p. IsWalk atoms.now truth.now s t p) }
{
    let ends = true_ends(alloc, atoms, truth)?;
    let tree = explore(alloc, atoms, truth, &ends, count, t)?;
    let at = place_of(&tree.found, s);
    Ok(walk(alloc, atoms, truth, &tree, at)?)
}
