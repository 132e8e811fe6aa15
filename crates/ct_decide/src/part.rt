// The clauses of a part of a question.

ghost use Rattle.std.specs.Prelude.{◌≡◌, true, false, length, slice_get, Some, IfOk, OnOk};
ghost use Rattle.ct_word.specs.WellFormed.{IsWellFormed};
ghost use Rattle.ct_derivation.specs.Definition.{definition};
ghost use Rattle.ct_derivation.specs.Literal.{yes_of, no_of};
ghost use Rattle.ct_derivation.specs.Variables.{is_clause};
ghost use Rattle.ct_cnf.specs.Encoding.{IsConditionBelow, origin_clause, through};
ghost use Rattle.ct_decide.specs.Asking.{IsPlaceOf};
ghost use Rattle.ct_decide.specs.Part.{key_of, AreConditionsBelow, IsAtomOf, AreAtomsOf, IsPart, AddsAtoms, IsNamed};

use crate::asking::{Aim, Posed};
use ct_derivation::{Atom, Lit, Why};
use ct_word::{Kind, List, Memory, kind, left, right};
use indexmap::IndexSet;
use std::alloc::Global;

/// The clauses of a part of a question, as they are gathered.
#[derive(Drop)]
pub struct Part {
    pub posed: Posed,
    /// The atoms once more, as keys by which their places are found.
    pub keys: IndexSet<(u64, u32)>,
}

/// The most variables that there are numbers for.
const LARGEST: usize = i32::MAX as usize;

/// A part without clauses.
pub fn blank(alloc: Global, words: &[u64], aim: Aim) -> Part
    requires { aim.whole ≡ false }
    ensures { IsPart words.now aim result }
{
    Part {
        posed: Posed {
            atoms: Vec::new(alloc),
            clauses: Vec::new(alloc),
            origins: Vec::new(alloc),
        },
        keys: IndexSet::new(alloc),
    }
}

/// The key of an atom: no other has the same.
fn key(atom: Atom) -> (u64, u32)
    ensures { result ≡ key_of atom }
{
    match atom {
        Atom::Node(p) => (0, p),
        Atom::Same(s, t) => (s as u64 + 1, t),
    }
}

/// The place of an atom, which is put in where it is not there.
fn place(words: &[u64], aim: Aim, part: &mut Part, atom: Atom) -> Result<usize, Memory>
    requires part { IsPart words.now aim part.old }
    requires of { IsAtomOf words.now aim.root atom }
    ensures part { OnOk result (IsPart words.now aim part.new) }
    ensures adds { OnOk result (AddsAtoms part.old part.new) }
    ensures place { IfOk result (λ k. IsPlaceOf part.new.posed.atoms.items atom k) }
{
    if part.posed.atoms.as_slice().len() >= LARGEST {
        return Err(Memory);
    }
    let (place, is_new) = part.keys.insert_full(key(atom))?;
    if is_new {
        part.posed.atoms.push(atom)?;
    }
    Ok(place)
}

/// A literal over variables.
fn literal(words: &[u64], aim: Aim, part: &mut Part, literal: Lit) -> Result<i32, Memory>
    requires part { IsPart words.now aim part.old }
    requires of { IsAtomOf words.now aim.root literal.atom }
    ensures part { OnOk result (IsPart words.now aim part.new) }
    ensures adds { OnOk result (AddsAtoms part.old part.new) }
    ensures named { IfOk result (λ l. IsNamed part.new.posed.atoms.items literal l) }
{
    let variable = (place(words, aim, part, literal.atom)? + 1) as i32;
    Ok(if literal.positive {
        variable
    } else {
        -variable
    })
}

/// A clause over variables.
fn clause(
    alloc: Global,
    words: &[u64],
    aim: Aim,
    part: &mut Part,
    literals: &[Lit],
) -> Result<Vec<i32>, Memory>
    requires part { IsPart words.now aim part.old }
    requires of { AreAtomsOf words.now aim.root literals.now }
    ensures part { OnOk result (IsPart words.now aim part.new) }
    ensures adds { OnOk result (AddsAtoms part.old part.new) }
    ensures within { IfOk result (λ c. is_clause (length part.new.posed.atoms.items) c.items ≡ true) }
    ensures clause { IfOk result (λ c. through part.new.posed.atoms.items c.items ≡ literals.now) }
{
    let mut clause = Vec::new(alloc);
    for k in 0..literals.len() {
        let next = literal(words, aim, part, literals[k])?;
        clause.push(next)?;
    }
    Ok(clause)
}

/// Adds a clause with its origin.
pub fn add_clause(
    alloc: Global,
    words: &[u64],
    aim: Aim,
    part: &mut Part,
    literals: &[Lit],
    why: Why,
) -> Result<(), Memory>
    requires part { IsPart words.now aim part.old }
    requires of { AreAtomsOf words.now aim.root literals.now }
    requires why { origin_clause words.now aim.root why ≡ Some literals.now }
    ensures { OnOk result (IsPart words.now aim part.new) }
{
    let clause = clause(alloc, words, aim, part, literals)?;
    part.posed.clauses.push(List::from_vec(clause))?;
    part.posed.origins.push(why)?;
    Ok(())
}

/// Adds clause k of those that define a condition by its fields.
pub fn add_definition(
    alloc: Global,
    words: &[u64],
    aim: Aim,
    part: &mut Part,
    p: u32,
    k: u8,
    literals: &[Lit],
) -> Result<(), Memory>
    requires formed { IsWellFormed words.now }
    requires part { IsPart words.now aim part.old }
    requires below { IsConditionBelow words.now aim.root p }
    requires defines { definition (slice_get words.now p) p k ≡ Some literals.now }
    ensures { OnOk result (IsPart words.now aim part.new) }
{
    add_clause(alloc, words, aim, part, literals, Why::Def(p, k))
}

/// That an atom holds.
pub fn yes(atom: Atom) -> Lit
    ensures { result ≡ yes_of atom }
{
    Lit {
        positive: true,
        atom,
    }
}

/// That an atom does not hold.
pub fn no(atom: Atom) -> Lit
    ensures { result ≡ no_of atom }
{
    Lit {
        positive: false,
        atom,
    }
}

/// The word at a place, if there is one.
pub fn word_at(words: &[u64], place: u32) -> Option<u64>
    ensures { result ≡ slice_get words.now place }
{
    words.get(place as usize).copied()
}

/// Adds the clauses that define a condition by its fields.
fn define(alloc: Global, words: &[u64], aim: Aim, part: &mut Part, p: u32) -> Result<(), Memory>
    requires formed { IsWellFormed words.now }
    requires part { IsPart words.now aim part.old }
    requires below { IsConditionBelow words.now aim.root p }
    ensures { OnOk result (IsPart words.now aim part.new) }
{
    let Some(word) = word_at(words, p) else {
        return Ok(());
    };
    let (left, right) = (left(word), right(word));
    let (is, is_not) = (yes(Atom::Node(p)), no(Atom::Node(p)));
    let (a, not_a) = (yes(Atom::Node(left)), no(Atom::Node(left)));
    let (b, not_b) = (yes(Atom::Node(right)), no(Atom::Node(right)));
    let same = Atom::Same(left, right);
    match kind(word) {
        Some(Kind::True) => add_definition(alloc, words, aim, part, p, 0, &[is]),
        Some(Kind::False) => add_definition(alloc, words, aim, part, p, 0, &[is_not]),
        Some(Kind::Equal) => {
            add_definition(alloc, words, aim, part, p, 0, &[is_not, yes(same)])?;
            add_definition(alloc, words, aim, part, p, 1, &[is, no(same)])
        }
        Some(Kind::Not) => {
            add_definition(alloc, words, aim, part, p, 0, &[is_not, not_a])?;
            add_definition(alloc, words, aim, part, p, 1, &[is, a])
        }
        Some(Kind::And) => {
            add_definition(alloc, words, aim, part, p, 0, &[is_not, a])?;
            add_definition(alloc, words, aim, part, p, 1, &[is_not, b])?;
            add_definition(alloc, words, aim, part, p, 2, &[is, not_a, not_b])
        }
        Some(Kind::Or) => {
            add_definition(alloc, words, aim, part, p, 0, &[is_not, a, b])?;
            add_definition(alloc, words, aim, part, p, 1, &[is, not_a])?;
            add_definition(alloc, words, aim, part, p, 2, &[is, not_b])
        }
        _ => Ok(()),
    }
}

/// Adds the clauses that define conditions by their fields.
pub fn define_all(
    alloc: Global,
    words: &[u64],
    aim: Aim,
    part: &mut Part,
    places: &[u32],
) -> Result<(), Memory>
    requires formed { IsWellFormed words.now }
    requires part { IsPart words.now aim part.old }
    requires below { AreConditionsBelow words.now aim.root places.now }
    ensures { OnOk result (IsPart words.now aim part.new) }
{
    for k in 0..places.len() {
        define(alloc, words, aim, part, places[k])?;
    }
    Ok(())
}
