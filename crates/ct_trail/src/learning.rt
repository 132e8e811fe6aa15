// What is learned from a false clause.

ghost use Rattle.std.specs.Prelude.{◌≡◌, ◌≤◌, true, length, replicate, IfOk};
ghost use Rattle.ct_trail.specs.Literal.{LARGEST};
ghost use Rattle.ct_trail.specs.Log.{clause_at, clauses_in};
ghost use Rattle.ct_trail.specs.Look.{IsFalsifiedAt};
ghost use Rattle.ct_trail.specs.Trail.{truths_of};
ghost use Rattle.ct_trail.specs.declared.marks.Mark.TheVariants as mark;
ghost use Rattle.ct_trail.specs.Learning.{IsReturnOf, IsLesson};
ghost use Rattle.ct_trail.specs.Marks.{all_marked, kept_of, IsClosed};
ghost use Rattle.ct_trail.specs.Analysis.{ArePut};

use crate::analysis::{clause, kept, reasons, resolve_all, shorten_all};
use crate::log::Entry;
use crate::marks::{Mark, keep_all};
use crate::trail::Put;
use ct_word::Memory;
use std::alloc::{AllocError, Global};

/// Where the search goes on: the trail is cut at a decision, and then the literal is put.
#[derive(Clone, Copy)]
pub struct Return {
    /// The place of the decision on the trail.
    pub cut: usize,
    pub literal: i32,
}

/// A clause that follows from the log, with its hints in the order of propagation.
#[derive(Drop)]
pub struct Lesson {
    pub clause: Vec<i32>,
    pub hints: Vec<u32>,
    /// None where the clause is empty.
    pub back: Option<Return>,
}

/// No marks.
fn unmarked(alloc: Global, vars: usize) -> Result<Vec<Mark>, AllocError>
    ensures { IfOk result (λ marks. marks.items ≡ replicate vars mark.Clear) }
{
    vec![in alloc; Mark::Clear; vars]
}

/// Marks the variables that the clause at `conflict` leads to, and returns where the search goes on. The second walk
/// finds what the first one found, as only literals below it are left out in between.
fn analyse(entries: &[Entry], trail: &[Put], marks: &mut [Mark], conflict: u32) -> Option<Return>
    requires vars { length marks.old ≤ LARGEST }
    requires unmarked { marks.old ≡ replicate (length marks.old) mark.Clear }
    requires trail { ArePut (length marks.old) (clauses_in entries.now) trail.now }
    requires falsified { IsFalsifiedAt (truths_of (length marks.old) trail.now) (clauses_in entries.now) conflict }
    ensures marked { all_marked marks.new (clause_at (clauses_in entries.now) conflict) ≡ true }
    ensures closed { IsClosed (clauses_in entries.now) trail.now marks.new }
    ensures returns { IsReturnOf (length marks.old) trail.now (kept_of marks.new trail.now) result }
{
    keep_all(marks, clause(entries, conflict));
    resolve_all(entries, trail, marks);
    shorten_all(entries, trail, marks);
    resolve_all(entries, trail, marks)
}

/// What is learned from the clause at `conflict`, by marks of its own.
fn learn_by(
    alloc: Global,
    entries: &[Entry],
    trail: &[Put],
    marks: &mut [Mark],
    conflict: u32,
) -> Result<Lesson, Memory>
    requires vars { length marks.old ≤ LARGEST }
    requires unmarked { marks.old ≡ replicate (length marks.old) mark.Clear }
    requires trail { ArePut (length marks.old) (clauses_in entries.now) trail.now }
    requires falsified { IsFalsifiedAt (truths_of (length marks.old) trail.now) (clauses_in entries.now) conflict }
    ensures { IfOk result (λ l. IsLesson (length marks.old) (clauses_in entries.now) trail.now l) }
{
    let back = analyse(entries, trail, marks, conflict);
    let clause = kept(alloc, trail, marks)?;
    let hints = reasons(alloc, trail, marks, conflict)?;
    Ok(Lesson {
        clause,
        hints,
        back,
    })
}

/// What is learned from the clause at `conflict`, which is false; the trail has no variable past `top`.
pub fn learn_from(
    alloc: Global,
    entries: &[Entry],
    trail: &[Put],
    top: u32,
    conflict: u32,
) -> Result<Lesson, Memory>
    requires top { top ≤ LARGEST }
    requires trail { ArePut top (clauses_in entries.now) trail.now }
    requires falsified { IsFalsifiedAt (truths_of top trail.now) (clauses_in entries.now) conflict }
    ensures { IfOk result (λ l. IsLesson top (clauses_in entries.now) trail.now l) }
{
    let mut marks = unmarked(alloc, top as usize)?;
    learn_by(alloc, entries, trail, &mut marks, conflict)
}
