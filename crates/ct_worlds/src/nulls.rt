// The nulls below conditions, and the parts of a world by them.

ghost use Rattle.std.specs.Prelude.{◌≡◌, ℕ, true, length, Contains, IfOk, IsTrue, OnOk};
ghost use Rattle.ct_word.specs.Reading.{term_at};
ghost use Rattle.ct_word.specs.Stands.{TermBelow};
ghost use Rattle.ct_word.specs.Value.{same_null};
ghost use Rattle.ct_word.specs.declared.values.Term.TheVariants as term;
ghost use Rattle.ct_word.specs.declared.kinds.Class.TheVariants as class;
ghost use Rattle.ct_word.specs.WellFormed.{IsWellFormed, is_place_of};
ghost use Rattle.ct_worlds.specs.Gathering.{has};
ghost use Rattle.ct_worlds.specs.Nulls.{AddsNulls, AreNulls, AreNullsBelow, HasNulls, HasTerms, IsNullBelow, KeepsNulls, has_null, part_of};
ghost use Rattle.ct_worlds.specs.Truths.{ArePartsFirst};

use crate::shape::{Shape, shape_at};
use ct_word::{List, Memory, Null, Term, World, is_constant, term_at};
use indexmap::IndexSet;
use std::alloc::Global;
use std::collections::BTreeSet;

/// The nulls below conditions, with their places.
#[derive(Drop)]
pub struct Nulls {
    /// The places of the nulls, and of other terms beside them.
    pub(crate) places: BTreeSet<u32>,
    /// The nulls there.
    pub(crate) listed: IndexSet<Null>,
}

/// Up to so many nulls one is compared with each. Among more it is found by its hash.
const FEW: usize = 8;

impl Nulls {
    /// How many nulls there are.
    pub fn count(&self) -> usize
        ensures { result ≡ length self.now.listed.keys }
    {
        self.listed.len()
    }

    /// Whether a place is noted: it is where it is the place of one of the nulls. Of the places of columns and of constants
    /// nothing is said.
    pub fn has_place(&self, place: u32) -> bool
        ensures { result ≡ has self.now.places place }
    {
        self.places.contains(&place)
    }

    /// Whether a null is one of these.
    pub fn has(&self, null: &Null) -> bool
        ensures { result ≡ has_null self.now.listed.keys null.now }
    {
        let listed = self.listed.as_slice();
        if listed.len() <= FEW {
            return has_one(listed, null);
        }
        self.listed.contains(null)
    }
}

/// Adds the null at the place of a term, if it is one.
fn add_term(alloc: Global, words: &[u64], place: u32, nulls: &mut Nulls) -> Result<(), Memory>
    requires formed { IsWellFormed words.now }
    requires term { IsTrue (is_place_of words.now class.Term place) }
    requires nulls { AreNulls words.now nulls.old }
    ensures nulls { OnOk result (AreNulls words.now nulls.new) }
    ensures kept { OnOk result (KeepsNulls nulls.old nulls.new) }
    ensures put { OnOk result (HasNulls words.now place nulls.new) }
    ensures only { OnOk result (AddsNulls (λ n. term_at words.now place ≡ term.Null n) nulls.old nulls.new) }
{
    if is_constant(words, place) {
        return Ok(());
    }
    let is_new = nulls.places.insert(place)?;
    if !is_new {
        return Ok(());
    }
    if let Term::Null(null) = term_at(alloc, words, place)? {
        nulls.listed.insert(null)?;
    }
    Ok(())
}

/// Adds the nulls of the equality at a place, if it is one.
fn add_terms(alloc: Global, words: &[u64], place: u32, nulls: &mut Nulls) -> Result<(), Memory>
    requires formed { IsWellFormed words.now }
    requires condition { IsTrue (is_place_of words.now class.Cond place) }
    requires nulls { AreNulls words.now nulls.old }
    ensures nulls { OnOk result (AreNulls words.now nulls.new) }
    ensures kept { OnOk result (KeepsNulls nulls.old nulls.new) }
    ensures put { OnOk result (HasTerms words.now place nulls.new) }
    ensures only { OnOk result (AddsNulls (λ n. TermBelow words.now place (term.Null n)) nulls.old nulls.new) }
{
    if let Shape::Equal(left, right) = shape_at(words, place) {
        add_term(alloc, words, left, nulls)?;
        add_term(alloc, words, right, nulls)?;
    }
    Ok(())
}

/// The nulls below the conditions at some places, each of which comes after those of its parts, as `below` lists them.
///
/// # Errors
/// `Memory` where there is none for the nulls.
pub fn nulls_below(alloc: Global, words: &[u64], places: &[u32]) -> Result<Nulls, Memory>
    requires formed { IsWellFormed words.now }
    requires places { ArePartsFirst words.now places.now }
    ensures nulls { IfOk result (AreNulls words.now) }
    ensures below { IfOk result (AreNullsBelow words.now places.now) }
    ensures only { IfOk result (λ nulls. (n : Null) → IsTrue (has_null nulls.listed.keys n) → IsNullBelow words.now places.now n) }
{
    let mut nulls = Nulls {
        places: BTreeSet::new(alloc),
        listed: IndexSet::new(alloc),
    };
    for place in places {
        add_terms(alloc, words, *place, &mut nulls)?;
    }
    Ok(nulls)
}

/// Whether two nulls are alike in what takes few steps to compare: the lengths and last bytes of names.
fn are_alike(a: &Null, b: &Null) -> bool
    ensures { a.now ≡ b.now → result ≡ true }
{
    match (a, b) {
        (Null::Named(s), Null::Named(t)) => {
            let (s, t) = (s.as_str().as_bytes(), t.as_str().as_bytes());
            s.len() == t.len() && (s.is_empty() || s[s.len() - 1] == t[s.len() - 1])
        }
        _ => true,
    }
}

/// Whether two nulls are the same.
fn are_same(a: &Null, b: &Null) -> bool
    ensures { result ≡ same_null a.now b.now }
{
    are_alike(a, b) && a == b
}

/// Whether a null is one of these.
fn has_one(listed: &[Null], null: &Null) -> bool
    ensures { result ≡ has_null listed.now null.now }
{
    for own in listed {
        if are_same(null, own) {
            return true;
        }
    }
    false
}

/// The pairs of a world with these nulls.
pub(crate) fn part_of(alloc: Global, world: &World, nulls: &Nulls) -> Result<World, Memory>
    ensures { IfOk result (λ w. w ≡ part_of nulls.now.listed.keys world.now) }
{
    let mut pairs = Vec::new(alloc);
    for pair in world.as_slice() {
        if nulls.has(&pair.0) {
            pairs.push(pair.clone()?)?;
        }
    }
    Ok(List::from_vec(pairs))
}
