// Clauses of one literal, for literals that rest on no decision.

ghost use Rattle.std.specs.Prelude.{◌≡◌, ℕ, List, ◌≤◌, ◌<◌, ◌∷◌, [], true, length, IfOk, IfSome, OnOk};
ghost use Rattle.ct_derivation.specs.Propagation.{follows};
ghost use Rattle.ct_trail.specs.Literal.{Clause, numbered, has};
ghost use Rattle.ct_trail.specs.Log.{clauses_in};
ghost use Rattle.ct_trail.specs.Standing.{log_now, Advances};
ghost use Rattle.ct_trail.specs.Units.{IsAloneAt, IsUnitLesson};
ghost use Rattle.ct_sat.specs.Units.{Leads, Goes, MayHaveUnit};

use crate::guide::Guide;
use ct_trail::{Board, Entry, clause, is_same, is_within, opposite};
use ct_word::Memory;
use std::alloc::{AllocError, Global};

/// Literals that are known to be false where the first of them is, and the hints that tell.
#[derive(Drop)]
struct Way {
    known: Vec<i32>,
    hints: Vec<u32>,
}

/// Whether a literal is in a clause.
#[tactic(auto, unfolding(ct_trail::specs::Literal::has))]
fn is_in(clause: &[i32], l: &i32) -> bool
    ensures { result ≡ has clause.now l.now }
{
    for m in clause {
        if is_same(l, m) {
            return true;
        }
    }
    false
}

/// Whether the clause at a position has a literal alone.
fn is_alone(entries: &[Entry], position: u32, l: &i32) -> bool
    ensures { result ≡ true → IsAloneAt (clauses_in entries.now) position l.now }
{
    let position = position as usize;
    if position >= entries.len() {
        return false;
    }
    let clause = entries[position].clause();
    clause.len() == 1 && is_same(&clause[0], l)
}

impl Way {
    /// A literal that is taken as false.
    fn make(alloc: Global, literal: &i32) -> Result<Way, AllocError>
        ensures { IfOk result (λ w. (log : List Clause) → Leads log literal.now w) }
    {
        let mut known = Vec::new(alloc);
        known.push(*literal)?;
        Ok(Way {
            known,
            hints: Vec::new(alloc),
        })
    }

    /// Goes on to a literal whose opposite the clause at a position has alone; says whether that is so.
    fn go(&mut self, entries: &[Entry], literal: &i32, position: u32) -> Result<bool, AllocError>
        ensures { IfOk result (λ b. b ≡ true → Goes (clauses_in entries.now) self.old self.new literal.now) }
    {
        if is_in(self.known.as_slice(), literal) {
            return Ok(true);
        }
        if !is_within(0x7fff_ffff, literal) {
            return Ok(false);
        }
        let other = opposite(literal);
        if is_in(self.known.as_slice(), &other) || !is_alone(entries, position, &other) {
            return Ok(false);
        }
        self.known.push(*literal)?;
        self.hints.push(position)?;
        Ok(true)
    }
}

/// Goes on to a literal of a clause, by the reason of its opposite; says whether there is a way.
fn go_on(board: &Board, guide: &Guide, way: &mut Way, literal: &i32) -> Result<bool, AllocError>
    ensures { IfOk result (λ b. b ≡ true → Goes (log_now board.now) way.old way.new literal.now) }
{
    let Some(position) = guide.reason(board, *literal) else {
        return Ok(false);
    };
    way.go(board.entries(), literal, position)
}

/// The hints of the clause that has one literal alone, by its reason, each of whose other literals is false by a clause
/// of one literal. None where there are none.
fn hints_by(
    alloc: Global,
    board: &Board,
    guide: &Guide,
    literal: &i32,
    reason: u32,
) -> Result<Option<Vec<u32>>, AllocError>
    ensures { IfOk result (λ o. IfSome o (λ hs. follows numbered (log_now board.now) (literal.now ∷ []) hs.items ≡ true)) }
{
    let entries = board.entries();
    if reason as usize >= entries.len() {
        return Ok(None);
    }
    let literals = clause(entries, reason);
    let mut way = Way::make(alloc, literal)?;
    for l in literals {
        if !go_on(board, guide, &mut way, l)? {
            return Ok(None);
        }
    }
    way.hints.push(reason)?;
    let Way { known, hints } = way;
    drop(known);
    Ok(Some(hints))
}

/// The hints of the clause that has the literal at a place of the trail alone. None where it is a decision or rests on
/// a literal that has no such clause as its reason.
fn unit_hints(
    alloc: Global,
    board: &Board,
    guide: &Guide,
    place: usize,
) -> Result<Option<Vec<u32>>, AllocError>
    ensures { IfOk result (λ o. IfSome o (λ hs. IsUnitLesson (log_now board.now) board.now.trail place hs.items)) }
{
    let trail = board.trail();
    if place >= trail.len() {
        return Ok(None);
    }
    let Some(reason) = trail[place].reason else {
        return Ok(None);
    };
    hints_by(alloc, board, guide, &trail[place].literal, reason)
}

/// Gives the literal whose reason is the clause at a position a clause of its own, if it rests on no decision.
fn make_unit(alloc: Global, board: &mut Board, guide: &Guide, position: u32) -> Result<(), Memory>
    ensures unit { OnOk result (MayHaveUnit board.old board.new) }
    ensures advances { Advances board.old board.new }
{
    let Some(place) = guide.settled(board, position) else {
        return Ok(());
    };
    match unit_hints(alloc, board, guide, place)? {
        None => Ok(()),
        Some(hints) => board.make_unit(alloc, place, hints),
    }
}

/// The hint at a place of the clause that was learned at a position.
fn hint_at(entries: &[Entry], position: u32, place: usize) -> Option<u32> {
    match entries.get(position as usize)? {
        Entry::Added(_) => None,
        Entry::Learned(step) => step.hints.as_slice().get(place).copied(),
    }
}

/// Gives each literal that rests on no decision and that the clause learned at a position is due to a clause of its own,
/// so that later hints name that clause alone.
pub fn make_units(
    alloc: Global,
    board: &mut Board,
    guide: &Guide,
    position: u32,
) -> Result<(), Memory>
    ensures { Advances board.old board.new }
{
    for i in 0..usize::MAX {
        let Some(hint) = hint_at(board.entries(), position, i) else {
            return Ok(());
        };
        make_unit(alloc, board, guide, hint)?;
    }
    Ok(())
}
