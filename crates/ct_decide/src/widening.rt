// What is next to a star.

ghost use Rattle.std.specs.Prelude.{◌≡◌, ◌<◌, ◌≤◌, true, length, OnOk};
ghost use Rattle.ct_decide.specs.Asking.{IsAsking, IsNext, left};

use crate::asking::{Aim, Asking};
use crate::known::{add_known, is_known};
use crate::paths::are_constants;
use crate::stars::add_end;
use ct_derivation::Atom;
use ct_word::Memory;
use std::alloc::Global;

/// Whether the links of a path of three terms are atoms.
fn is_next(asking: &Asking, first: u32, middle: u32, last: u32) -> bool
    ensures { result ≡ true → IsNext asking.now.atoms.items first middle last }
{
    first != last && is_known(asking, first, middle) && is_known(asking, middle, last)
}

/// Adds the clause of a path of three terms, where its links are atoms.
fn add_spoke(
    alloc: Global,
    words: &[u64],
    aim: Aim,
    asking: &mut Asking,
    first: u32,
    middle: u32,
    last: u32,
) -> Result<(), Memory>
    requires { IsAsking words.now aim asking.old }
    ensures asking { OnOk result (IsAsking words.now aim asking.new) }
    ensures fewer { OnOk result (left asking.new ≤ left asking.old) }
{
    if asking.atoms.len() >= asking.vars as usize {
        return Ok(());
    }
    if !is_next(asking, first, middle, last) {
        return Ok(());
    }
    add_end(words, aim, asking, first, last)?;
    add_known(alloc, words, aim, asking, first, middle, last)
}

/// Adds the paths of three terms from this one along an equality of the question, both ways.
fn add_spokes(
    alloc: Global,
    words: &[u64],
    aim: Aim,
    asking: &mut Asking,
    first: u32,
    place: usize,
) -> Result<(), Memory>
    requires { IsAsking words.now aim asking.old }
    ensures asking { OnOk result (IsAsking words.now aim asking.new) }
    ensures fewer { OnOk result (left asking.new ≤ left asking.old) }
{
    if let Some(Atom::Same(s, t)) = asking.atoms.get(place).copied() {
        add_spoke(alloc, words, aim, asking, first, s, t)?;
        add_spoke(alloc, words, aim, asking, first, t, s)?;
    }
    Ok(())
}

/// Adds the paths of three terms from the first term of a star along the equalities of the
/// question that are next to it. The search would take these ways in later rounds, one in each.
fn widen_first(
    alloc: Global,
    words: &[u64],
    aim: Aim,
    asking: &mut Asking,
    first: u32,
) -> Result<(), Memory>
    requires { IsAsking words.now aim asking.old }
    ensures asking { OnOk result (IsAsking words.now aim asking.new) }
    ensures fewer { OnOk result (left asking.new ≤ left asking.old) }
{
    for k in 0..asking.own {
        add_spokes(alloc, words, aim, asking, first, k)?;
    }
    Ok(())
}

/// Adds the paths of three terms from the last term of a path along its links, back to its first
/// one.
fn widen_last(
    alloc: Global,
    words: &[u64],
    aim: Aim,
    asking: &mut Asking,
    path: &[u32],
) -> Result<(), Memory>
    requires asking { IsAsking words.now aim asking.old }
    requires long { 2 < length path.now }
    ensures asking { OnOk result (IsAsking words.now aim asking.new) }
    ensures fewer { OnOk result (left asking.new ≤ left asking.old) }
{
    let last = path[path.len() - 1];
    for k in (2..path.len()).rev() {
        add_spoke(alloc, words, aim, asking, last, path[k - 1], path[k - 2])?;
    }
    Ok(())
}

/// Adds what is next to the star of a path. Where the path joins two constants, this is also the
/// star from its last term: a fan from there goes over its second one.
pub fn widen(
    alloc: Global,
    words: &[u64],
    aim: Aim,
    asking: &mut Asking,
    path: &[u32],
) -> Result<(), Memory>
    requires asking { IsAsking words.now aim asking.old }
    requires long { 2 < length path.now }
    ensures asking { OnOk result (IsAsking words.now aim asking.new) }
    ensures fewer { OnOk result (left asking.new ≤ left asking.old) }
{
    widen_first(alloc, words, aim, asking, path[0])?;
    if !are_constants(words, path[0], path[path.len() - 1]) {
        return Ok(());
    }
    widen_last(alloc, words, aim, asking, path)
}
