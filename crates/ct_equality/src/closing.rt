// The question whether an assignment of truths is one of equality.

ghost use Rattle.std.specs.Prelude.{◌≡◌, ◌<◌, ◌^◌, ℕ, true, length, IfOk};
ghost use Rattle.ct_word.specs.WellFormed.{IsWellFormed};
ghost use Rattle.ct_equality.specs.Terms.{is_among, is_end_of};
ghost use Rattle.ct_equality.specs.Members.{members_at};
ghost use Rattle.ct_equality.specs.Assigned.{are_plain};
ghost use Rattle.ct_equality.specs.Classes.{AreJoined};
ghost use Rattle.ct_equality.specs.Indexed.{AreIndexed, AreMet};
ghost use Rattle.ct_equality.specs.Valued.{ClosedOf};

use crate::classes::{Member, contradiction, members};
use crate::forest::{alone, clash, classes};
use crate::paths::path;
use crate::terms::{Terms, all_terms, ascending};
use crate::values::{number_classes, taken, world};
use ct_derivation::Atom;
use ct_word::{List, Memory, World};
use std::alloc::Global;

/// What an assignment of truths to equalities is.
#[derive(Drop)]
pub enum Closed {
    /// A valuation that gives each equality its truth.
    World(World),
    /// Terms along a path of true equalities, whose ends are two different constants or the
    /// terms of a false equality.
    Path(List<u32>),
}

/// The world where no constants are in one class, or a path between the terms of a false equality.
fn valued(
    alloc: Global,
    words: &[u64],
    atoms: &[Atom],
    truth: &[bool],
    terms: &Terms,
    members: &mut [Member],
) -> Result<Closed, Memory>
    requires formed { IsWellFormed words.now }
    requires few { length words.now < 2 ^ 28 }
    requires truths { length atoms.now ≡ length truth.now }
    requires plain { are_plain words.now atoms.now ≡ true }
    requires met { AreMet terms.now.places.items terms.now.found.words }
    requires all { (p : ℕ) → is_among terms.now.places.items p ≡ is_end_of atoms.now p }
    requires indexed { AreIndexed terms.now.found.words members.old }
    requires joined { AreJoined words.now atoms.now truth.now (length atoms.now) (members_at words.now terms.now.places.items) members.old }
    ensures { IfOk result (λ c. ClosedOf words.now atoms.now truth.now c) }
{
    if let Some((s, t)) = contradiction(&terms.found, atoms, truth, members) {
        return Ok(Closed::Path(path(alloc, atoms, truth, terms.places.len() as u32, s, t)?));
    }
    let places = ascending(alloc, atoms, terms.places.as_slice())?;
    let taken = taken(alloc, members)?;
    number_classes(
        words,
        &terms.found,
        places.as_slice(),
        taken.as_slice(),
        members,
    );
    Ok(Closed::World(world(alloc, words, &terms.found, places.as_slice(), members)?))
}

/// The answer for these terms.
fn settle(
    alloc: Global,
    words: &[u64],
    atoms: &[Atom],
    truth: &[bool],
    terms: &Terms,
) -> Result<Closed, Memory>
    requires formed { IsWellFormed words.now }
    requires few { length words.now < 2 ^ 28 }
    requires truths { length atoms.now ≡ length truth.now }
    requires plain { are_plain words.now atoms.now ≡ true }
    requires met { AreMet terms.now.places.items terms.now.found.words }
    requires all { (p : ℕ) → is_among terms.now.places.items p ≡ is_end_of atoms.now p }
    ensures { IfOk result (λ c. ClosedOf words.now atoms.now truth.now c) }
{
    let mut forest = alone(alloc, words, atoms, truth, terms.places.as_slice())?;
    if let Some((s, t)) = clash(words, &terms.found, atoms, truth, &mut forest) {
        return Ok(Closed::Path(path(alloc, atoms, truth, terms.places.len() as u32, s, t)?));
    }
    let classes = classes(forest);
    let mut members = members(alloc, words, terms.places.as_slice(), classes.as_slice())?;
    valued(alloc, words, atoms, truth, terms, members.as_mut_slice())
}

/// A valuation under which each equality among the atoms has its truth, or a path of terms whose
/// clause the truths make false. Each atom has the truth at its position; those of conditions are
/// not looked at. The equalities are of constants and nulls, the smaller place first.
///
/// Terms that true equalities join are a congruence class. A class with a constant has its value.
/// The others, in the order of their least nulls, have `@k` with the least k that no class before
/// has and that is not of a constant of the equalities. A path is a shortest one along true
/// equalities (no clause says so); its clause is a transitivity constraint (Bryant and Velev 2002).
///
/// # Errors
///
/// `Memory` where memory is wanting, or there are more than 2^31 - 1 atoms.
pub fn close(alloc: Global, words: &[u64], atoms: &[Atom], truth: &[bool]) -> Result<Closed, Memory>
    requires formed { IsWellFormed words.now }
    requires few { length words.now < 2 ^ 28 }
    requires truths { length atoms.now ≡ length truth.now }
    requires plain { are_plain words.now atoms.now ≡ true }
    ensures { IfOk result (λ c. ClosedOf words.now atoms.now truth.now c) }
{
    let terms = all_terms(alloc, atoms)?;
    settle(alloc, words, atoms, truth, &terms)
}
