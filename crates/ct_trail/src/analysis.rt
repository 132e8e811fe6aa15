// The way along the trail from a false clause to its first unique implication point.

ghost use Rattle.std.specs.Prelude.{◌≡◌, ℕ, ◌≤◌, ◌<◌, ◌+◌, ◌++◌, ◌∷◌, [], length, IfOk, IfSome, MatchOption};
ghost use Rattle.ct_trail.specs.Literal.{LARGEST};
ghost use Rattle.ct_trail.specs.Log.{clause_at, clauses_in};
ghost use Rattle.ct_trail.specs.Learning.{IsReturnOf};
ghost use Rattle.ct_trail.specs.Marks.{kept_of, reasons_of, IsClosed, Resolves};
ghost use Rattle.ct_trail.specs.Analysis.{ArePut, AreWithin, NoneKept, IsLastKept, IsDecision, IsPutAt, TurnOf};

use crate::learning::Return;
use crate::literal::opposite;
use crate::log::Entry;
use crate::marks::{Mark, are_marked, keeps, mark_of, replace};
use crate::trail::Put;
use std::alloc::{AllocError, Global};

/// What is to be done about the last literal that is kept.
#[derive(Clone, Copy)]
pub enum Turn {
    /// There is none.
    Over,
    /// It is alone past a decision: the search goes on before that.
    Back(Return),
    /// The literal at this place is to be resolved with the clause at this position.
    Resolve(usize, u32),
}

/// The last place before `end` whose literal is kept.
fn last_kept(trail: &[Put], marks: &[Mark], end: usize) -> Option<usize>
    requires vars { length marks.now ≤ LARGEST }
    requires trail { AreWithin (length marks.now) trail.now }
    requires end { end ≤ length trail.now }
    ensures { MatchOption result (NoneKept marks.now trail.now 0 end) (λ u. IsLastKept marks.now trail.now end u) }
{
    for place in (0..end).rev() {
        if keeps(marks, &trail[place].literal) {
            return Some(place);
        }
    }
    None
}

/// The place behind the last one before `end` whose literal is kept.
fn behind_kept(trail: &[Put], marks: &[Mark], end: usize) -> usize
    requires vars { length marks.now ≤ LARGEST }
    requires trail { AreWithin (length marks.now) trail.now }
    requires end { end ≤ length trail.now }
    ensures below { result ≤ end }
    ensures none { NoneKept marks.now trail.now result end }
{
    match last_kept(trail, marks, end) {
        None => 0,
        Some(place) => place + 1,
    }
}

/// The first decision from one place to before another.
fn decision(trail: &[Put], from: usize, to: usize) -> Option<usize>
    requires { to ≤ length trail.now }
    ensures from { IfSome result (λ d. from ≤ d) }
    ensures to { IfSome result (λ d. d < to) }
    ensures decided { IfSome result (λ d. IsDecision trail.now d) }
{
    for place in from..to {
        if trail[place].reason.is_none() {
            return Some(place);
        }
    }
    None
}

/// What is to be done about the literals before `end`. The last one that is kept is the only one
/// of its decision where a decision stands between it and the one before.
fn next_turn(trail: &[Put], marks: &[Mark], end: usize) -> Turn
    requires vars { length marks.now ≤ LARGEST }
    requires trail { AreWithin (length marks.now) trail.now }
    requires end { end ≤ length trail.now }
    ensures { TurnOf marks.now trail.now end result }
{
    let Some(place) = last_kept(trail, marks, end) else {
        return Turn::Over;
    };
    let low = behind_kept(trail, marks, place);
    let put = trail[place];
    let literal = opposite(&put.literal);
    match (decision(trail, low, place), put.reason) {
        (Some(cut), _) => Turn::Back(Return { cut, literal }),
        (None, None) => Turn::Back(Return {
            cut: place,
            literal,
        }),
        (None, Some(reason)) => Turn::Resolve(place, reason),
    }
}

/// The clause at a position of the log.
pub fn clause(entries: &[Entry], position: u32) -> &[i32]
    requires { position < length (clauses_in entries.now) }
    ensures { result.now ≡ clause_at (clauses_in entries.now) position }
{
    entries[position as usize].clause()
}

/// Has the other literals of its reason stand for the literal at a place.
fn resolve(entries: &[Entry], trail: &[Put], marks: &mut [Mark], place: usize, reason: u32)
    requires vars { length marks.old ≤ LARGEST }
    requires trail { ArePut (length marks.old) (clauses_in entries.now) trail.now }
    requires closed { IsClosed (clauses_in entries.now) trail.now marks.old }
    requires there { IsPutAt trail.now place reason }
    ensures resolves { Resolves (clauses_in entries.now) trail.now marks.old marks.new }
    ensures above { (end : ℕ) → NoneKept marks.old trail.now (place + 1) end → NoneKept marks.new trail.now place end }
{
    replace(marks, &trail[place].literal, clause(entries, reason));
}

/// Resolves literals from the end of the trail on, up to the first unique implication point.
pub fn resolve_all(entries: &[Entry], trail: &[Put], marks: &mut [Mark]) -> Option<Return>
    requires vars { length marks.old ≤ LARGEST }
    requires trail { ArePut (length marks.old) (clauses_in entries.now) trail.now }
    requires closed { IsClosed (clauses_in entries.now) trail.now marks.old }
    ensures resolves { Resolves (clauses_in entries.now) trail.now marks.old marks.new }
    ensures returns { IsReturnOf (length marks.old) trail.now (kept_of marks.new trail.now) result }
{
    let mut end = trail.len();
    loop {
        match next_turn(trail, marks, end) {
            Turn::Over => return None,
            Turn::Back(back) => return Some(back),
            Turn::Resolve(place, reason) => {
                resolve(entries, trail, marks, place, reason);
                end = place;
            }
        }
    }
}

/// Resolves the literal at a place if it is kept and the variables of its reason are marked, or it
/// stands before each decision.
fn shorten(entries: &[Entry], trail: &[Put], marks: &mut [Mark], place: usize, first: usize)
    requires vars { length marks.old ≤ LARGEST }
    requires trail { ArePut (length marks.old) (clauses_in entries.now) trail.now }
    requires closed { IsClosed (clauses_in entries.now) trail.now marks.old }
    requires place { place < length trail.now }
    ensures { Resolves (clauses_in entries.now) trail.now marks.old marks.new }
{
    if !keeps(marks, &trail[place].literal) {
        return;
    }
    if let Some(reason) = trail[place].reason {
        if place < first || are_marked(marks, clause(entries, reason)) {
            resolve(entries, trail, marks, place, reason);
        }
    }
}

/// Leaves out the literals that follow from the others, and those that rest on no decision.
pub fn shorten_all(entries: &[Entry], trail: &[Put], marks: &mut [Mark])
    requires vars { length marks.old ≤ LARGEST }
    requires trail { ArePut (length marks.old) (clauses_in entries.now) trail.now }
    requires closed { IsClosed (clauses_in entries.now) trail.now marks.old }
    ensures { Resolves (clauses_in entries.now) trail.now marks.old marks.new }
{
    let first = decision(trail, 0, trail.len()).unwrap_or(trail.len());
    for place in (0..trail.len()).rev() {
        shorten(entries, trail, marks, place, first);
    }
}

/// The opposites of the literals that are kept, the last one first.
pub fn kept(alloc: Global, trail: &[Put], marks: &[Mark]) -> Result<Vec<i32>, AllocError>
    requires vars { length marks.now ≤ LARGEST }
    requires trail { AreWithin (length marks.now) trail.now }
    ensures { IfOk result (λ c. c.items ≡ kept_of marks.now trail.now) }
{
    let mut clause = Vec::new(alloc);
    for place in (0..trail.len()).rev() {
        let literal = &trail[place].literal;
        if keeps(marks, literal) {
            clause.push(opposite(literal))?;
        }
    }
    Ok(clause)
}

/// The reasons of the literals that are resolved, and the false clause.
pub fn reasons(
    alloc: Global,
    trail: &[Put],
    marks: &[Mark],
    conflict: u32,
) -> Result<Vec<u32>, AllocError>
    requires vars { length marks.now ≤ LARGEST }
    requires trail { AreWithin (length marks.now) trail.now }
    ensures { IfOk result (λ hs. hs.items ≡ reasons_of marks.now trail.now ++ conflict ∷ []) }
{
    let mut hints = Vec::new(alloc);
    for put in trail {
        if let (Mark::Resolved, Some(reason)) = (mark_of(marks, &put.literal), put.reason) {
            hints.push(reason)?;
        }
    }
    hints.push(conflict)?;
    Ok(hints)
}
