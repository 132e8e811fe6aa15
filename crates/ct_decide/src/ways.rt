// The ANDs that lead from the root of a question to the conditions that are asked.

ghost use Rattle.std.specs.Prelude.{◌≡◌, ◌<◌, true, ℕ, length, IfOk, IfSome, OnOk, Contains};
ghost use Rattle.ct_word.specs.declared.kinds.Class.TheVariants as class;
ghost use Rattle.ct_word.specs.WellFormed.{IsWellFormed, is_place_of};
ghost use Rattle.ct_near.specs.Conjuncts.{IsAnd};
ghost use Rattle.ct_cnf.specs.Encoding.{IsConditionBelow};
ghost use Rattle.ct_decide.specs.Part.{IsPart, AddsTwo, AreConditionsBelow};

use crate::asking::Aim;
use crate::part::{Part, add_definition, no, word_at, yes};
use ct_derivation::Atom;
use ct_word::{Connective, Kind, Memory, kind, left, right};
use ct_worlds::{Shape, shape_at};
use indexmap::IndexSet;
use std::alloc::Global;

/// A set of places.
pub fn set_of(alloc: Global, places: &[u32]) -> Result<IndexSet<u32>, Memory> {
    let mut set = IndexSet::new(alloc);
    for place in places {
        set.insert(*place)?;
    }
    Ok(set)
}

/// Puts two places behind those of a run.
fn put_two(run: &mut IndexSet<u32>, left: u32, right: u32) -> Result<(), Memory>
    ensures { OnOk result (AddsTwo run.old.keys run.new.keys left right) }
{
    run.insert(left)?;
    run.insert(right)?;
    Ok(())
}

/// The parts of the And at a place, if there is one.
fn parts_of_and(words: &[u64], place: u32) -> Option<(u32, u32)>
    requires { place < length words.now }
    ensures { IfSome result (λ parts. IsAnd words.now place parts.0 parts.1) }
{
    match shape_at(words, place) {
        Shape::Joined(Connective::And, left, right) => Some((left, right)),
        _ => None,
    }
}

/// The ANDs that are led to from the root by ANDs alone, up to these leaves, each but the root
/// after one that names it. The contract says that they are conditions below the root, and no more.
pub fn ands_above(
    alloc: Global,
    words: &[u64],
    root: u32,
    leaves: &IndexSet<u32>,
) -> Result<Vec<u32>, Memory>
    requires formed { IsWellFormed words.now }
    requires condition { is_place_of words.now class.Cond root ≡ true }
    ensures { IfOk result (λ ps. AreConditionsBelow words.now root ps.items) }
{
    let mut run = IndexSet::new(alloc);
    let mut ands = Vec::new(alloc);
    run.insert(root)?;
    for k in 0..words.len() {
        let Some(place) = run.get_index(k).copied() else {
            return Ok(ands);
        };
        if leaves.contains(&place) {
            continue;
        }
        if let Some((left, right)) = parts_of_and(words, place) {
            ands.push(place)?;
            put_two(&mut run, left, right)?;
        }
    }
    Ok(ands)
}

/// Adds that an And holds only where those of its parts do that lead to what is asked.
fn add_way(
    alloc: Global,
    words: &[u64],
    aim: Aim,
    part: &mut Part,
    and: u32,
    asked: &mut IndexSet<u32>,
) -> Result<(), Memory>
    requires formed { IsWellFormed words.now }
    requires part { IsPart words.now aim part.old }
    requires below { IsConditionBelow words.now aim.root and }
    ensures { OnOk result (IsPart words.now aim part.new) }
{
    let Some(word) = word_at(words, and) else {
        return Ok(());
    };
    let Some(Kind::And) = kind(word) else {
        return Ok(());
    };
    let (left, right) = (left(word), right(word));
    let node = Atom::Node(and);
    if asked.contains(&left) {
        let literals = [no(node), yes(Atom::Node(left))];
        add_definition(alloc, words, aim, part, and, 0, &literals)?;
        asked.insert(and)?;
    }
    if asked.contains(&right) {
        let literals = [no(node), yes(Atom::Node(right))];
        add_definition(alloc, words, aim, part, and, 1, &literals)?;
        asked.insert(and)?;
    }
    Ok(())
}

/// The same of all these ANDs, the last one first. Those that lead to what is asked are put to it.
pub fn add_ways(
    alloc: Global,
    words: &[u64],
    aim: Aim,
    part: &mut Part,
    ands: &[u32],
    asked: &mut IndexSet<u32>,
) -> Result<(), Memory>
    requires formed { IsWellFormed words.now }
    requires part { IsPart words.now aim part.old }
    requires below { AreConditionsBelow words.now aim.root ands.now }
    ensures { OnOk result (IsPart words.now aim part.new) }
{
    for k in (0..ands.len()).rev() {
        add_way(alloc, words, aim, part, ands[k], asked)?;
    }
    Ok(())
}
