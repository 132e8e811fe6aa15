// The derivation that the log of a solver gives, without what it does not need.

ghost use Rattle.std.specs.Prelude.{◌≡◌, ◌≤◌, ◌<◌, true, length, IfOk, slice_index_or};
ghost use Rattle.std.specs.List.{list_all};
ghost use Rattle.ct_trail.specs.Literal.{is_literal, is_clause};
ghost use Rattle.ct_trail.specs.Log.{entry_clause, clauses_in};
ghost use Rattle.ct_cnf.specs.Encoding.{named, through};
ghost use Rattle.ct_derivation.specs.Variables.{signed};
ghost use Rattle.ct_cut.specs.Translation.{entry_step, origin_count, origin_at, steps_of};
ghost use Rattle.ct_cut.specs.Cut.{cut, why_by, step_by, renumbered, all_hints, HaveEarlier, IsCutOf};

use crate::needed::{needed, numbers};
use ct_derivation::{Atom, Derivation, Lit, Step, Why};
use ct_trail::Entry;
use ct_word::{List, Memory};
use std::alloc::{AllocError, Global};

/// The literal over atoms.
fn literal(atoms: &[Atom], l: &i32) -> Lit
    requires { is_literal (length atoms.now) l.now ≡ true }
    ensures { result ≡ named atoms.now (signed l.now) }
{
    Lit {
        positive: *l > 0,
        atom: atoms[l.unsigned_abs() as usize - 1],
    }
}

/// The clause over atoms.
fn clause(alloc: Global, atoms: &[Atom], literals: &[i32]) -> Result<List<Lit>, AllocError>
    requires { is_clause (length atoms.now) literals.now ≡ true }
    ensures { IfOk result (λ c. c ≡ through atoms.now literals.now) }
{
    let mut clause = Vec::new(alloc);
    for l in literals {
        clause.push(literal(atoms, l))?;
    }
    Ok(List::from_vec(clause))
}

/// The number of a place; 0 for one that has none.
fn number(numbers: &[u32], place: u32) -> u32
    ensures { result ≡ slice_index_or numbers.now place 0 }
{
    match numbers.get(place as usize) {
        Some(number) => *number,
        None => 0,
    }
}

/// Hints by the numbers of what is kept.
fn renumbered(alloc: Global, numbers: &[u32], hints: &[u32]) -> Result<List<u32>, AllocError>
    ensures { IfOk result (λ hs. hs ≡ renumbered numbers.now hints.now) }
{
    let mut found = Vec::new(alloc);
    for h in hints {
        found.push(number(numbers, *h))?;
    }
    Ok(List::from_vec(found))
}

/// A reason once more, its hints by the numbers of what is kept.
fn reason(alloc: Global, numbers: &[u32], why: &Why) -> Result<Why, AllocError>
    ensures { IfOk result (λ w. w ≡ why_by numbers.now why.now) }
{
    Ok(match why {
        Why::Root => Why::Root,
        Why::Def(place, k) => Why::Def(*place, *k),
        Why::Path(places) => Why::Path(List::from_vec(places.as_slice().to_vec(alloc)?)),
        Why::Rup(hints) => Why::Rup(renumbered(alloc, numbers, hints.as_slice())?),
    })
}

/// The origin at a place once more, its hints by the numbers of what is kept.
fn origin(alloc: Global, origins: &[Why], place: usize, numbers: &[u32]) -> Result<Why, AllocError>
    ensures { IfOk result (λ w. w ≡ why_by numbers.now (origin_at origins.now place)) }
{
    match origins.get(place) {
        Some(why) => reason(alloc, numbers, why),
        None => Ok(Why::Root),
    }
}

/// An entry over the atoms; one that was added has the origin at this place.
fn step(
    alloc: Global,
    atoms: &[Atom],
    origins: &[Why],
    place: usize,
    numbers: &[u32],
    entry: &Entry,
) -> Result<Step, AllocError>
    requires { is_clause (length atoms.now) (entry_clause entry.now) ≡ true }
    ensures { IfOk result (λ s. s ≡ step_by numbers.now (entry_step atoms.now (origin_at origins.now place) entry.now)) }
{
    let clause = clause(alloc, atoms, entry.clause())?;
    let why = match entry {
        Entry::Added(_) => origin(alloc, origins, place, numbers)?,
        Entry::Learned(rup) => Why::Rup(renumbered(alloc, numbers, rup.hints.as_slice())?),
    };
    Ok(Step { clause, why })
}

/// How many origins an entry has.
fn origin_count(entry: &Entry) -> usize
    ensures { result ≡ origin_count entry.now }
{
    match entry {
        Entry::Added(_) => 1,
        Entry::Learned(_) => 0,
    }
}

/// The marked entries over the atoms.
fn steps(
    alloc: Global,
    atoms: &[Atom],
    origins: &[Why],
    marks: &[bool],
    numbers: &[u32],
    entries: &[Entry],
) -> Result<Vec<Step>, AllocError>
    requires within { list_all (is_clause (length atoms.now)) (clauses_in entries.now) ≡ true }
    requires marks { length entries.now ≤ length marks.now }
    ensures { IfOk result (λ v. v.items ≡ cut numbers.now marks.now (steps_of atoms.now origins.now entries.now)) }
{
    let mut steps = Vec::new(alloc);
    let mut next = 0;
    for k in 0..entries.len() {
        if marks[k] {
            let step = step(alloc, atoms, origins, next, numbers, &entries[k])?;
            steps.push(step)?;
        }
        next += origin_count(&entries[k]);
    }
    Ok(steps)
}

/// The derivation: the entries that the last one needs, over the atoms. What it does not need is
/// never translated.
pub fn derivation(
    alloc: Global,
    atoms: &[Atom],
    origins: &[Why],
    entries: &[Entry],
) -> Result<Derivation, Memory>
    requires within { list_all (is_clause (length atoms.now)) (clauses_in entries.now) ≡ true }
    requires some { 0 < length entries.now }
    requires earlier { HaveEarlier (all_hints entries.now) }
    ensures { IfOk result (λ d. IsCutOf atoms.now origins.now entries.now d) }
{
    let marks = needed(alloc, entries)?;
    let numbers = numbers(alloc, marks.as_slice())?;
    let steps = steps(
        alloc,
        atoms,
        origins,
        marks.as_slice(),
        numbers.as_slice(),
        entries,
    )?;
    Ok(Derivation {
        steps: List::from_vec(steps),
    })
}
