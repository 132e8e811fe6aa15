// The terms of a question.

ghost use Rattle.std.specs.Prelude.{◌≡◌, ◌+◌, ◌<◌, ◌≤◌, ◌||◌, ℕ, true, length, nat_eq, slice_get, Some, IfOk, OnOk};
ghost use Rattle.ct_chain.specs.Seen.{AreDistinct};
ghost use Rattle.ct_equality.specs.Terms.{is_among, is_end, is_end_of, terms_of};
ghost use Rattle.ct_equality.specs.Indexed.{AreMet};

use ct_chain::Chain;
use ct_derivation::Atom;
use ct_word::Memory;
use std::alloc::{AllocError, Global};

/// The places of terms in the order in which they were met, and the same in a list that tells
/// where a place stands.
#[derive(Drop)]
pub struct Terms {
    pub places: Vec<u32>,
    pub found: Chain,
}

/// Where a term stands that was met.
#[tactic(auto, using(crate::proofs::Indexed::is_there))]
pub fn place_of(found: &Chain, place: u32) -> u32
    requires { is_among found.now.words place ≡ true }
    ensures { slice_get found.now.words result ≡ Some place }
{
    match found.find(place as u64) {
        None => unreachable!(),
        Some(i) => i,
    }
}

/// Adds a term, once.
fn add(terms: &mut Terms, place: u32) -> Result<(), AllocError>
    requires met { AreMet terms.old.places.items terms.old.found.words }
    requires room { length terms.old.places.items < terms.old.found.room }
    ensures met { OnOk result (AreMet terms.new.places.items terms.new.found.words) }
    ensures room { terms.new.found.room ≡ terms.old.found.room }
    ensures count { OnOk result (length terms.new.places.items ≤ length terms.old.places.items + 1) }
    ensures among { OnOk result ((p : ℕ) → is_among terms.new.places.items p ≡ (is_among terms.old.places.items p || nat_eq p place)) }
{
    if let Some(_) = terms.found.find(place as u64) {
        return Ok(());
    }
    terms.found.push(place as u64);
    terms.places.push(place)?;
    Ok(())
}

/// Adds the terms of an equality.
fn add_ends(terms: &mut Terms, atom: &Atom) -> Result<(), AllocError>
    requires met { AreMet terms.old.places.items terms.old.found.words }
    requires room { length terms.old.places.items + 1 < terms.old.found.room }
    ensures met { OnOk result (AreMet terms.new.places.items terms.new.found.words) }
    ensures room { terms.new.found.room ≡ terms.old.found.room }
    ensures count { OnOk result (length terms.new.places.items ≤ length terms.old.places.items + 2) }
    ensures among { OnOk result ((p : ℕ) → is_among terms.new.places.items p ≡ (is_among terms.old.places.items p || is_end p atom.now)) }
{
    if let Atom::Same(s, t) = atom {
        add(terms, *s)?;
        add(terms, *t)?;
    }
    Ok(())
}

/// The terms of the equalities.
pub fn all_terms(alloc: Global, atoms: &[Atom]) -> Result<Terms, Memory>
    ensures met { IfOk result (λ t. AreMet t.places.items t.found.words) }
    ensures all { IfOk result (λ t. (p : ℕ) → is_among t.places.items p ≡ is_end_of atoms.now p) }
{
    if atoms.len() > 0x7fff_ffff {
        return Err(Memory);
    }
    let mut terms = Terms {
        places: Vec::new(alloc),
        found: Chain::make(alloc, 2 * atoms.len() as u32)?,
    };
    for atom in atoms {
        add_ends(&mut terms, atom)?;
    }
    Ok(terms)
}

/// The places of the terms of the equalities, ascending.
pub fn ascending(alloc: Global, atoms: &[Atom], places: &[u32]) -> Result<Vec<u32>, AllocError>
    requires distinct { AreDistinct places.now }
    requires all { (p : ℕ) → is_among places.now p ≡ is_end_of atoms.now p }
    ensures { IfOk result (λ v. v.items ≡ terms_of atoms.now) }
{
    let mut sorted = places.to_vec(alloc)?;
    sorted.sort_unstable();
    Ok(sorted)
}
