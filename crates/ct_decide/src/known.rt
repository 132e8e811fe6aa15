// Paths of three terms whose equalities are atoms already.

ghost use Rattle.std.specs.Prelude.{◌≡◌, ◌≤◌, true, OnOk};
ghost use Rattle.ct_derivation.specs.Path.{pair_of};
ghost use Rattle.ct_decide.specs.Asking.{is_atom, IsAsking, IsKnown, left};

use crate::asking::{Aim, Asking, add_path, triangle};
use crate::paths::{are_constants, hinted, pair};
use ct_derivation::Atom;
use ct_word::{List, Memory, is_constant};
use std::alloc::Global;

/// How many neighbours of a term behind one are looked at: the constants of a null that has more
/// wait until they are asked for.
const WINDOW: usize = 16;

/// The paths from a constant over a term to all constants that the term has equalities with.
#[derive(Clone, Copy)]
pub struct Fan {
    pub first: u32,
    pub middle: u32,
    /// The constant whose path was added already.
    pub done: u32,
}

/// Whether the equality of two terms is an atom.
pub fn is_known(asking: &Asking, s: u32, t: u32) -> bool
    ensures { result ≡ true → is_atom asking.now.atoms.items (pair_of s t) ≡ true }
{
    match hinted(asking.atoms.as_slice(), &asking.pairs, pair(s, t)) {
        Some(_) => true,
        None => false,
    }
}

/// Whether the clause of a path of three terms is over the atoms, and was not added before.
fn are_known(words: &[u64], asking: &Asking, first: u32, middle: u32, last: u32) -> bool
    ensures { result ≡ true → IsKnown words.now asking.now.atoms.items first middle last }
{
    let has_ends = are_constants(words, first, last) || is_known(asking, first, last);
    !asking.triangles.contains(&triangle(first, middle, last))
        && has_ends
        && first != last
        && is_known(asking, first, middle)
        && is_known(asking, middle, last)
}

/// Adds the clause of a path of three terms, if it is over the atoms and was not added before.
pub fn add_known(
    alloc: Global,
    words: &[u64],
    aim: Aim,
    asking: &mut Asking,
    first: u32,
    middle: u32,
    last: u32,
) -> Result<(), Memory>
    requires { IsAsking words.now aim asking.old }
    ensures asking { OnOk result (IsAsking words.now aim asking.new) }
    ensures fewer { OnOk result (left asking.new ≤ left asking.old) }
{
    if !are_known(words, asking, first, middle, last) {
        return Ok(());
    }
    let path = vec![in alloc; first, middle, last]?;
    add_path(alloc, words, aim, asking, List::from_vec(path))
}

/// The constant that an atom says a term to be equal to.
fn constant_of(words: &[u64], atom: Option<&Atom>, term: u32) -> Option<u32> {
    match atom {
        Some(Atom::Same(s, t)) if *s == term && is_constant(words, *t) => Some(*t),
        Some(Atom::Same(s, t)) if *t == term && is_constant(words, *s) => Some(*s),
        _ => None,
    }
}

/// Adds the path of a fan to the constant that an atom says, if there is one.
fn add_rib(
    alloc: Global,
    words: &[u64],
    aim: Aim,
    asking: &mut Asking,
    fan: Fan,
    place: usize,
) -> Result<(), Memory>
    requires { IsAsking words.now aim asking.old }
    ensures asking { OnOk result (IsAsking words.now aim asking.new) }
    ensures fewer { OnOk result (left asking.new ≤ left asking.old) }
{
    match constant_of(words, asking.atoms.get(place), fan.middle) {
        Some(last) if last != fan.done => {
            add_known(alloc, words, aim, asking, fan.first, fan.middle, last)
        }
        _ => Ok(()),
    }
}

/// Adds the paths of a fan, but for the one that is done, where their clauses are over the atoms.
pub fn add_fan(
    alloc: Global,
    words: &[u64],
    aim: Aim,
    asking: &mut Asking,
    fan: Fan,
) -> Result<(), Memory>
    requires { IsAsking words.now aim asking.old }
    ensures asking { OnOk result (IsAsking words.now aim asking.new) }
    ensures fewer { OnOk result (left asking.new ≤ left asking.old) }
{
    for k in 0..asking.atoms.len() {
        add_rib(alloc, words, aim, asking, fan, k)?;
    }
    Ok(())
}

/// Each equality both ways, those of one term in a row.
fn neighbours(alloc: Global, atoms: &[Atom]) -> Result<Vec<(u32, u32)>, Memory> {
    let mut found = Vec::new(alloc);
    for atom in atoms {
        if let Atom::Same(s, t) = atom {
            found.push((*s, *t))?;
            found.push((*t, *s))?;
        }
    }
    found.sort()?;
    Ok(found)
}

/// The neighbours of a term, each behind the term itself.
fn beside(around: &[(u32, u32)], term: u32) -> &[(u32, u32)] {
    let from = around.partition_point(|pair| pair.0 < term);
    let to = around.partition_point(|pair| pair.0 <= term);
    match around.get(from..to) {
        Some(found) => found,
        None => &[],
    }
}

/// Adds the clause of a path between two constants, if it is over the atoms.
fn add_apart(
    alloc: Global,
    words: &[u64],
    aim: Aim,
    asking: &mut Asking,
    first: u32,
    middle: u32,
    last: u32,
) -> Result<(), Memory>
    requires { IsAsking words.now aim asking.old }
    ensures { OnOk result (IsAsking words.now aim asking.new) }
{
    if !are_constants(words, first, last) {
        return Ok(());
    }
    add_known(alloc, words, aim, asking, first, middle, last)
}

/// Adds the paths from one constant beside a term to the other ones behind it, up to so many
/// clauses.
fn add_around(
    alloc: Global,
    words: &[u64],
    aim: Aim,
    asking: &mut Asking,
    around: &[(u32, u32)],
    most: usize,
) -> Result<(), Memory>
    requires { IsAsking words.now aim asking.old }
    ensures { OnOk result (IsAsking words.now aim asking.new) }
{
    let Some((first, later)) = around.split_first() else {
        return Ok(());
    };
    for k in 0..later.len().min(WINDOW) {
        let next = later[k];
        if next.0 != first.0 || asking.origins.len() >= most {
            return Ok(());
        }
        add_apart(alloc, words, aim, asking, first.1, first.0, next.1)?;
    }
    Ok(())
}

/// Adds the paths between two terms over a third one that is beside both, up to so many clauses.
/// It goes over those that are beside one of the two, the one that has fewer.
fn add_between(
    alloc: Global,
    words: &[u64],
    aim: Aim,
    asking: &mut Asking,
    around: &[(u32, u32)],
    ends: Atom,
    most: usize,
) -> Result<(), Memory>
    requires { IsAsking words.now aim asking.old }
    ensures { OnOk result (IsAsking words.now aim asking.new) }
{
    let Atom::Same(s, t) = ends else {
        return Ok(());
    };
    let (by_s, by_t) = (beside(around, s), beside(around, t));
    let fewer = if by_s.len() <= by_t.len() { by_s } else { by_t };
    for k in 0..fewer.len() {
        if asking.origins.len() >= most {
            return Ok(());
        }
        add_known(alloc, words, aim, asking, s, fewer[k].1, t)?;
    }
    Ok(())
}

/// Adds the paths between two constants over a term that may be either, where both are near each
/// other in the order of places.
fn add_all_apart(
    alloc: Global,
    words: &[u64],
    aim: Aim,
    asking: &mut Asking,
    around: &[(u32, u32)],
    most: usize,
) -> Result<(), Memory>
    requires { IsAsking words.now aim asking.old }
    ensures { OnOk result (IsAsking words.now aim asking.new) }
{
    for k in 0..around.len() {
        add_around(alloc, words, aim, asking, &around[k..], most)?;
    }
    Ok(())
}

/// Adds the paths of three terms whose equalities are all atoms.
fn add_all_between(
    alloc: Global,
    words: &[u64],
    aim: Aim,
    asking: &mut Asking,
    around: &[(u32, u32)],
    most: usize,
) -> Result<(), Memory>
    requires { IsAsking words.now aim asking.old }
    ensures { OnOk result (IsAsking words.now aim asking.new) }
{
    for place in 0..asking.atoms.len() {
        let Some(ends) = asking.atoms.get(place) else {
            return Ok(());
        };
        let ends = *ends;
        add_between(alloc, words, aim, asking, around, ends, most)?;
    }
    Ok(())
}

/// Adds the paths of three terms whose clauses are over the atoms, at most four times as many
/// clauses as there are. The constants of a term that has many are not all joined with each other.
pub fn add_triangles(
    alloc: Global,
    words: &[u64],
    aim: Aim,
    asking: &mut Asking,
) -> Result<(), Memory>
    requires { IsAsking words.now aim asking.old }
    ensures { OnOk result (IsAsking words.now aim asking.new) }
{
    let around = neighbours(alloc, asking.atoms.as_slice())?;
    let most = asking.origins.len().saturating_mul(5);
    add_all_apart(alloc, words, aim, asking, around.as_slice(), most)?;
    add_all_between(alloc, words, aim, asking, around.as_slice(), most)
}
