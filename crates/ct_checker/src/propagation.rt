// Reverse unit propagation along hints.

ghost use Rattle.std.specs.Prelude.{◌≡◌, ◌+◌, ◌≤◌, length, None, slice_get};
ghost use Rattle.ct_derivation.specs.Propagation as propagation;
ghost use Rattle.ct_derivation.specs.Accepts.{over_atoms, clauses_of};
ghost use Rattle.ct_checker.specs.Marked.{look_of};

use crate::literals::{is_same, opposite};
use crate::marks::Marks;
use ct_derivation::{Lit, Step};

/// What a clause is under the marked literals, which are false: falsified, one that forces its
/// last literal, or neither.
#[derive(Clone, Copy)]
pub enum Look {
    Unfit,
    Falsified,
    Forces(Lit),
}

#[tactic(auto, unfolding(ct_derivation::specs::Literal::has))]
fn examine(marks: &Marks, clause: &[Lit]) -> Look
    ensures { look_of result ≡ propagation.look over_atoms marks.now.falses None clause.now }
{
    let mut rest: Option<Lit> = None;
    for literal in clause {
        if !marks.holds(literal) {
            if marks.holds(&opposite(literal)) {
                return Look::Unfit;
            }
            match rest {
                None => rest = Some(*literal),
                Some(other) => {
                    if !is_same(&other, literal) {
                        return Look::Unfit;
                    }
                }
            }
        }
    }
    match rest {
        None => Look::Falsified,
        Some(literal) => Look::Forces(literal),
    }
}

fn examine_at(marks: &Marks, earlier: &[Step], hint: u32) -> Look
    ensures { look_of result ≡ propagation.look_at over_atoms marks.now.falses (slice_get (clauses_of earlier.now) hint) }
{
    match earlier.get(hint as usize) {
        None => Look::Unfit,
        Some(step) => examine(marks, step.clause.as_slice()),
    }
}

/// Marks the literals of a clause as false, and no others.
fn fill(marks: &mut Marks, clause: &[Lit])
    requires { length clause.now ≤ marks.old.room }
    ensures falses { marks.new.falses ≡ clause.now }
    ensures room { marks.new.room ≡ marks.old.room }
{
    marks.clear();
    for literal in clause {
        marks.push(*literal);
    }
}

fn meets(earlier: &[Step], clause: &[Lit], hints: &[u32], marks: &mut Marks) -> bool
    requires { length clause.now + length hints.now ≤ marks.old.room }
    ensures meets { result ≡ propagation.meets over_atoms (clauses_of earlier.now) clause.now hints.now }
    ensures room { marks.new.room ≡ marks.old.room }
{
    fill(marks, clause);
    for hint in hints {
        match examine_at(marks, earlier, *hint) {
            Look::Unfit => return false,
            Look::Falsified => return true,
            Look::Forces(literal) => marks.push(opposite(&literal)),
        }
    }
    false
}

/// Whether each hint names an earlier step.
fn are_hints(earlier: &[Step], hints: &[u32]) -> bool
    ensures { result ≡ propagation.are_hints (clauses_of earlier.now) hints.now }
{
    for hint in hints {
        if *hint as usize >= earlier.len() {
            return false;
        }
    }
    true
}

/// Whether the clause follows from the earlier steps by reverse unit propagation.
pub fn follows(earlier: &[Step], clause: &[Lit], hints: &[u32], marks: &mut Marks) -> bool
    requires { length clause.now + length hints.now ≤ marks.old.room }
    ensures follows { result ≡ propagation.follows over_atoms (clauses_of earlier.now) clause.now hints.now }
    ensures room { marks.new.room ≡ marks.old.room }
{
    are_hints(earlier, hints) && meets(earlier, clause, hints, marks)
}
