// Unit propagation by watches.

ghost use Rattle.std.specs.Prelude.{IfOk};
ghost use Rattle.ct_trail.specs.Standing.{Advances};
ghost use Rattle.ct_sat.specs.Search.{ConflictOf};

use crate::guide::Guide;
use crate::watches::{END, clause_of};
use ct_trail::{Board, Look, Truth};
use ct_word::Memory;

/// Looks at the clause at k, and makes its last literal true; returns k where the clause is false.
fn settle(board: &mut Board, guide: &mut Guide, k: u32) -> Result<Option<u32>, Memory>
    ensures advances { Advances board.old board.new }
    ensures conflict { IfOk result (λ c. ConflictOf board.new c) }
{
    match board.look(k) {
        Look::Satisfied | Look::Undecided(_) => Ok(None),
        Look::Falsified => Ok(Some(k)),
        Look::Unit(l) => {
            board.put_unit(&l, k)?;
            guide.notice(board)?;
            Ok(None)
        }
    }
}

/// Looks at the clauses that are new in the log.
fn look_at_new(board: &mut Board, guide: &mut Guide) -> Result<Option<u32>, Memory>
    ensures advances { Advances board.old board.new }
    ensures conflict { IfOk result (λ c. ConflictOf board.new c) }
{
    for _ in guide.seen as usize..board.entries().len() {
        let k = guide.seen;
        guide.attach(board, k)?;
        if let Some(c) = settle(board, guide, k)? {
            return Ok(Some(c));
        }
        guide.seen = k.saturating_add(1);
    }
    Ok(None)
}

/// A literal of the clause at k that is not false and not `other`.
fn replacement(board: &Board, k: u32, other: i32) -> Option<i32> {
    let entry = board.entries().get(k as usize)?;
    for l in entry.clause() {
        if *l != other && board.truth(*l) != Truth::False {
            return Some(*l);
        }
    }
    None
}

/// A place in the row of a literal that became false: the watch before, which may be `END`, and the watch there.
#[derive(Clone, Copy)]
struct Step {
    falsified: i32,
    before: u32,
    watch: u32,
}

/// Moves a watch on, if its clause has a true literal or another one that is not false; returns the step to the next watch.
fn pass(board: &Board, guide: &mut Guide, step: Step) -> Option<Step> {
    let next = guide.watches.next(step.watch);
    let other = guide.watches.other(step.watch);
    let kept = Step {
        before: step.watch,
        watch: next,
        ..step
    };
    if board.truth(other) == Truth::True {
        return Some(kept);
    }
    let l = replacement(board, clause_of(step.watch), other)?;
    guide
        .watches
        .turn(step.before, step.watch, step.falsified, l);
    Some(Step {
        watch: next,
        ..step
    })
}

/// Moves a watch on, or looks at its clause, and goes on to the next watch.
fn visit(board: &mut Board, guide: &mut Guide, step: &mut Step) -> Result<Option<u32>, Memory>
    ensures advances { Advances board.old board.new }
    ensures conflict { IfOk result (λ c. ConflictOf board.new c) }
{
    if let Some(next) = pass(board, guide, *step) {
        *step = next;
        return Ok(None);
    }
    let watch = step.watch;
    step.before = watch;
    step.watch = guide.watches.next(watch);
    settle(board, guide, clause_of(watch))
}

/// Visits the clauses that watch a literal that became false.
fn visit_all(board: &mut Board, guide: &mut Guide, falsified: i32) -> Result<Option<u32>, Memory>
    ensures advances { Advances board.old board.new }
    ensures conflict { IfOk result (λ c. ConflictOf board.new c) }
{
    let mut step = Step {
        falsified,
        before: END,
        watch: guide.watches.first(falsified),
    };
    for _ in 0..guide.watches.len() {
        if step.watch == END {
            break;
        }
        if let Some(c) = visit(board, guide, &mut step)? {
            return Ok(Some(c));
        }
    }
    Ok(None)
}

/// The next literal of the trail that has not been propagated.
fn next_literal(board: &Board, guide: &mut Guide) -> Option<i32> {
    let put = board.trail().get(guide.propagated)?;
    guide.propagated = guide.propagated.saturating_add(1);
    Some(put.literal)
}

/// Propagates what follows; returns the position of a false clause.
pub fn propagate(board: &mut Board, guide: &mut Guide) -> Result<Option<u32>, Memory>
    ensures advances { Advances board.old board.new }
    ensures conflict { IfOk result (λ c. ConflictOf board.new c) }
{
    if let Some(c) = look_at_new(board, guide)? {
        return Ok(Some(c));
    }
    for _ in 0..=board.top() {
        let Some(l) = next_literal(board, guide) else {
            return Ok(None);
        };
        if let Some(c) = visit_all(board, guide, l.wrapping_neg())? {
            return Ok(Some(c));
        }
    }
    Ok(None)
}
