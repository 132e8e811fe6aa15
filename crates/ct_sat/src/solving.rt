// A verdict on clauses.

ghost use Rattle.std.specs.Prelude.{◌≡◌, false, map, ◌++◌, ◌∷◌, [], IfOk, OnOk};
ghost use Rattle.ct_trail.specs.declared.log.Entry.TheVariants as entry;
ghost use Rattle.ct_trail.specs.Log.{learned_in};
ghost use Rattle.ct_sat.specs.Verdict.{IsCnf, VerdictOf};

use crate::solver::Solver;
use crate::verdict::{Found, Verdict};
use ct_derivation::Cnf;
use ct_trail::{Entry, Rup};
use ct_word::{List, Memory};
use std::alloc::{AllocError, Global};

/// A copy of a clause.
fn copy(alloc: Global, clause: &List<i32>) -> Result<List<i32>, AllocError>
    ensures { IfOk result (λ c. c ≡ clause.now) }
{
    Ok(List::from_vec(Vec::from_slice(alloc, clause.as_slice())?))
}

/// A solver with the clauses.
fn make(alloc: Global, cnf: &Cnf) -> Result<Solver, Memory>
    requires { IsCnf cnf.now }
    ensures { IfOk result (λ s. s ≡ record { vars = cnf.now.vars; entries = map entry.Added cnf.now.clauses; failed = false }) }
{
    let mut solver = Solver::make(alloc, cnf.vars)?;
    for clause in cnf.clauses.as_slice() {
        solver.add(copy(alloc, clause)?)?;
    }
    Ok(solver)
}

/// Adds what was learned, of an entry.
fn add_step(steps: &mut Vec<Rup>, entry: Entry) -> Result<(), Memory>
    ensures { OnOk result (steps.new.items ≡ steps.old.items ++ learned_in (entry ∷ [])) }
{
    if let Entry::Learned(step) = entry {
        steps.push(step)?;
    }
    Ok(())
}

/// What was learned, of a log.
fn steps_of(alloc: Global, entries: Vec<Entry>) -> Result<Vec<Rup>, Memory>
    ensures { IfOk result (λ v. v.items ≡ learned_in entries.items) }
{
    let mut steps = Vec::new(alloc);
    for entry in entries {
        add_step(&mut steps, entry)?;
    }
    Ok(steps)
}

/// A model of the clauses, or a refutation of them.
///
/// It ends with one of both, or with `Memory`.
///
/// # Errors
///
/// `Memory` where memory is wanting.
pub fn solve(alloc: Global, cnf: &Cnf) -> Result<Verdict, Memory>
    requires { IsCnf cnf.now }
    ensures { IfOk result (λ v. VerdictOf cnf.now v) }
{
    let mut solver = make(alloc, cnf)?;
    match solver.step(alloc)? {
        Found::Model(model) => Ok(Verdict::Model(model)),
        Found::Refuted => {
            let steps = steps_of(alloc, solver.into_log())?;
            Ok(Verdict::Refuted(List::from_vec(steps)))
        }
    }
}
