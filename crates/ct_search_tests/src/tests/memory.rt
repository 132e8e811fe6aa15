// A solver that finds no memory: where `rt try --fail-alloc` refuses an allocation. Else this is a search like others.

ghost use Rattle.std.specs.Prelude.{◌≡◌};

use crate::tests::search::{is_clause, pigeons};
use ct_sat::{Cnf, Entry, Solver};
use ct_word::List;
use std::alloc::Global;
use std::test::Fail;

/// A solver with the number of the clauses that it took, and whether a call has found no memory.
#[derive(Drop)]
struct Asked {
    solver: Solver,
    taken: usize,
    refused: bool,
}

/// Adds a clause, where it is one over the variables. Whether the call was answered as the ones before it allow.
fn add(alloc: Global, asked: &mut Asked, vars: u32, clause: &[i32]) -> Result<bool, Fail>
    requires { asked.old.solver.vars ≡ vars }
    ensures { asked.new.solver.vars ≡ vars }
{
    let literals = clause.to_vec(alloc)?;
    if !is_clause(vars, literals.as_slice()) {
        return Err(Fail::new("no clause"));
    }
    let added = asked.solver.add(List::from_vec(literals)).is_ok();
    let was_refused = asked.refused;
    asked.refused = !added;
    if added {
        asked.taken = asked.taken.wrapping_add(1);
    }
    Ok(!(added && was_refused))
}

/// Asks for a step. Whether the call was answered as the ones before it allow.
fn step(alloc: Global, asked: &mut Asked) -> bool
    ensures { asked.new.solver.vars ≡ asked.old.solver.vars }
{
    let found = asked.solver.step(alloc).is_ok();
    let was_refused = asked.refused;
    asked.refused = !found;
    !(found && was_refused)
}

/// Whether the added clauses of a log are these, in their order.
fn are_added(entries: &[Entry], clauses: &[List<i32>]) -> bool {
    let mut rest = clauses;
    for entry in entries {
        if let Entry::Added(clause) = entry {
            match rest {
                [first, others @ ..] if clause.as_slice() == first.as_slice() => rest = others,
                _ => return false,
            }
        }
    }
    rest.is_empty()
}

/// Whether a solver that is asked after each clause refuses all once it has refused a call, and keeps what it took.
fn stays_refused(alloc: Global, cnf: &Cnf) -> Result<bool, Fail> {
    if cnf.vars > 99 {
        return Err(Fail::new("too many variables"));
    }
    let mut asked = Asked {
        solver: Solver::make(alloc, cnf.vars)?,
        taken: 0,
        refused: false,
    };
    let clauses = cnf.clauses.as_slice();
    for clause in clauses {
        let is_lawful = add(alloc, &mut asked, cnf.vars, clause.as_slice())?;
        if !is_lawful || !step(alloc, &mut asked) {
            return Ok(false);
        }
    }
    match clauses.get(..asked.taken) {
        Some(taken) => Ok(are_added(asked.solver.log(), taken)),
        None => Ok(false),
    }
}

#[test]
fn refuses_all_once_memory_is_refused(rt: HostRuntime) -> Result<(), Fail> {
    let alloc = rt.alloc();
    let is_lawful = stays_refused(alloc, &pigeons(alloc, 3, 2)?)?;
    assert!(rt; is_lawful);
    Ok(())
}
