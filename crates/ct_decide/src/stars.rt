// The clauses that rule a path of terms out.

ghost use Rattle.std.specs.Prelude.{◌≡◌, ◌≢◌, ◌<◌, ◌≤◌, ◌+◌, ℕ, true, length, slice_index, IfOk, OnOk};
ghost use Rattle.ct_equality.specs.Assigned.{Gives};
ghost use Rattle.ct_derivation.specs.Path.{pair_of};
ghost use Rattle.ct_derivation.specs.Variables.{LARGEST};
ghost use Rattle.ct_cnf.specs.Encoding.{IsTermBelow};
ghost use Rattle.ct_decide.specs.Asking.{is_atom, IsAsking, IsPathOver, AddsAtom, AddsEnd, AddsTriangle, IsKept, RulesOut};

use crate::asking::{Aim, Asking, add_path, note, triangle};
use crate::known::{Fan, add_fan};
use crate::paths::{are_constants, find, hinted, pair};
use crate::widening::widen;
use ct_word::{List, Memory};
use std::alloc::Global;

/// Gives the equality of two terms a spare variable, unless it has one.
fn add_pair(words: &[u64], aim: Aim, asking: &mut Asking, s: u32, t: u32) -> Result<(), Memory>
    requires asking { IsAsking words.now aim asking.old }
    requires room { length asking.old.atoms.items < asking.old.solver.vars }
    requires first { IsTermBelow words.now aim.root s }
    requires second { IsTermBelow words.now aim.root t }
    requires differ { s ≢ t }
    ensures asking { OnOk result (IsAsking words.now aim asking.new) }
    ensures adds { OnOk result (AddsAtom asking.old asking.new) }
    ensures there { OnOk result (is_atom asking.new.atoms.items (pair_of s t) ≡ true) }
{
    let equality = pair(s, t);
    if find(asking.atoms.as_slice(), &asking.pairs, equality).is_none() {
        let place = asking.atoms.len();
        note(&mut asking.pairs, equality, place)?;
        asking.atoms.push(equality)?;
    }
    Ok(())
}

/// Gives the equality of two terms a variable, unless they are two constants: then it returns true.
pub fn add_end(words: &[u64], aim: Aim, asking: &mut Asking, s: u32, t: u32) -> Result<bool, Memory>
    requires asking { IsAsking words.now aim asking.old }
    requires room { length asking.old.atoms.items < asking.old.solver.vars }
    requires first { IsTermBelow words.now aim.root s }
    requires second { IsTermBelow words.now aim.root t }
    requires differ { s ≢ t }
    ensures asking { OnOk result (IsAsking words.now aim asking.new) }
    ensures adds { IfOk result (λ ended. AddsEnd words.now asking.old asking.new s t ended) }
{
    if are_constants(words, s, t) {
        return Ok(true);
    }
    add_pair(words, aim, asking, s, t)?;
    Ok(false)
}

/// Whether a model gives the equality of two terms this truth.
fn is_given(asking: &Asking, model: &[bool], truth: bool, s: u32, t: u32) -> bool
    ensures { result ≡ true → Gives asking.now.atoms.items model.now truth (pair_of s t) }
{
    match hinted(asking.atoms.as_slice(), &asking.pairs, pair(s, t)) {
        Some(place) => place < model.len() && model[place] == truth,
        None => false,
    }
}

/// Whether the clause of a path of three terms was added before, and a model makes it true. Each
/// clause that was added is true there, but the look-ups spare a proof of which these are.
fn was_added(
    asking: &Asking,
    model: &[bool],
    first: u32,
    middle: u32,
    last: u32,
    ended: bool,
) -> bool
    ensures { result ≡ true → IsKept asking.now.atoms.items model.now first middle last ended }
{
    asking.triangles.contains(&triangle(first, middle, last))
        && ((!ended && is_given(asking, model, true, first, last))
            || is_given(asking, model, false, first, middle)
            || is_given(asking, model, false, middle, last))
}

/// Adds the clause of a path of three terms, and says whether its ends are two constants. Where it
/// was added before, it is left out.
fn add_triangle(
    alloc: Global,
    words: &[u64],
    aim: Aim,
    asking: &mut Asking,
    model: &[bool],
    first: u32,
    middle: u32,
    last: u32,
) -> Result<bool, Memory>
    requires asking { IsAsking words.now aim asking.old }
    requires room { length asking.old.atoms.items < asking.old.solver.vars }
    requires left { is_atom asking.old.atoms.items (pair_of first middle) ≡ true }
    requires right { is_atom asking.old.atoms.items (pair_of middle last) ≡ true }
    requires differ { first ≢ last }
    ensures { IfOk result (λ ended. AddsTriangle words.now aim model.now asking.old asking.new first middle last ended) }
{
    let ended = add_end(words, aim, asking, first, last)?;
    if was_added(asking, model, first, middle, last, ended) {
        return Ok(ended);
    }
    let path = vec![in alloc; first, middle, last]?;
    add_path(alloc, words, aim, asking, List::from_vec(path))?;
    Ok(ended)
}

/// Adds the paths of three terms from the first term of a path along its links, up to its end or
/// to a second constant. So paths that have parts in common share clauses, where the clauses of
/// whole paths may be exponentially many.
fn add_star(
    alloc: Global,
    words: &[u64],
    aim: Aim,
    asking: &mut Asking,
    model: &[bool],
    path: &[u32],
) -> Result<(), Memory>
    requires asking { IsAsking words.now aim asking.old }
    requires over { IsPathOver words.now asking.old.atoms.items path.now }
    requires long { 2 < length path.now }
    requires room { length asking.old.atoms.items + length path.now ≤ asking.old.solver.vars }
    requires apart { (k : ℕ) → 0 < k → k < length path.now → slice_index path.now k ≢ slice_index path.now 0 }
    ensures asking { OnOk result (IsAsking words.now aim asking.new) }
    ensures out { OnOk result (RulesOut words.now path.now model.now asking.old asking.new) }
{
    let first = path[0];
    for k in 2..path.len() {
        if add_triangle(
            alloc,
            words,
            aim,
            asking,
            model,
            first,
            path[k - 1],
            path[k],
        )? {
            return Ok(());
        }
    }
    Ok(())
}

/// Whether no later term of a path is its first one.
fn is_apart(path: &[u32]) -> bool
    requires { 0 < length path.now }
    ensures { result ≡ true → (k : ℕ) → 0 < k → k < length path.now → slice_index path.now k ≢ slice_index path.now 0 }
{
    for k in 1..path.len() {
        if path[k] == path[0] {
            return false;
        }
    }
    true
}

/// Whether the links of a path rest on different decisions.
fn is_spread(asking: &Asking, path: &[u32]) -> bool
    requires { length asking.now.atoms.items ≤ LARGEST }
{
    let mut level = None;
    for k in 1..path.len() {
        if let Some(place) = hinted(
            asking.atoms.as_slice(),
            &asking.pairs,
            pair(path[k - 1], path[k]),
        ) {
            let next = asking.solver.level(place as u32 + 1);
            if level.is_some_and(|other: u32| other != next) {
                return true;
            }
            level = Some(next);
        }
    }
    false
}

/// Adds clauses that rule a path out: its own, or a star and what is next to it, where its links
/// rest on different decisions and there are variables enough.
fn add_clauses(
    alloc: Global,
    words: &[u64],
    aim: Aim,
    asking: &mut Asking,
    model: &[bool],
    path: List<u32>,
) -> Result<(), Memory>
    requires asking { IsAsking words.now aim asking.old }
    requires over { IsPathOver words.now asking.old.atoms.items path }
    ensures asking { OnOk result (IsAsking words.now aim asking.new) }
    ensures out { OnOk result (RulesOut words.now path model.now asking.old asking.new) }
{
    let places = path.as_slice();
    let has_room = asking.atoms.len() + places.len() <= asking.vars as usize;
    if places.len() > 3 && has_room && is_apart(places) && is_spread(asking, places) {
        add_star(alloc, words, aim, asking, model, places)?;
        widen(alloc, words, aim, asking, places)
    } else {
        add_path(alloc, words, aim, asking, path)
    }
}

/// The fans of a path that joins two constants, one from each of them. Which of the two terms next
/// to its ends may be many constants is not known here.
fn fans_of(words: &[u64], path: &[u32]) -> Option<(Fan, Fan)> {
    let length = path.len();
    if length < 3 || !are_constants(words, path[0], path[length - 1]) {
        return None;
    }
    let (first, last) = (path[0], path[length - 1]);
    let forward = Fan {
        first,
        middle: path[length - 2],
        done: last,
    };
    let backward = Fan {
        first: last,
        middle: path[1],
        done: first,
    };
    Some((forward, backward))
}

/// Adds clauses that rule a path out. Where it joins two constants, those from each of them to the
/// other constants of the term before the other one are added as well, where they are over the atoms:
/// each of them would be next.
pub fn rule_out(
    alloc: Global,
    words: &[u64],
    aim: Aim,
    asking: &mut Asking,
    model: &[bool],
    path: List<u32>,
) -> Result<(), Memory>
    requires asking { IsAsking words.now aim asking.old }
    requires over { IsPathOver words.now asking.old.atoms.items path }
    ensures asking { OnOk result (IsAsking words.now aim asking.new) }
    ensures out { OnOk result (RulesOut words.now path model.now asking.old asking.new) }
{
    let fans = fans_of(words, path.as_slice());
    add_clauses(alloc, words, aim, asking, model, path)?;
    match fans {
        Some((forward, backward)) => {
            add_fan(alloc, words, aim, asking, forward)?;
            add_fan(alloc, words, aim, asking, backward)
        }
        None => Ok(()),
    }
}
