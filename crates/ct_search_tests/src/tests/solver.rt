// A solver that is asked again.

ghost use Rattle.std.specs.Prelude.{◌≡◌, ◌≤◌};

use crate::tests::assignments::{all_hold_in, can_hold};
use crate::tests::search::{SETS, is_clause, make, pigeons};
use crate::tests::sets::random_set;
use ct_sat::{Cnf, Entry, Found, Solver};
use ct_word::List;
use std::alloc::Global;
use std::process::Abort;
use std::test::Fail;

/// Adds a clause, where it is one over the variables.
fn add(alloc: Global, solver: &mut Solver, vars: u32, clause: &[i32]) -> Result<(), Fail>
    requires { solver.old.vars ≡ vars }
    ensures { solver.new.vars ≡ vars }
{
    let literals = clause.to_vec(alloc)?;
    if !is_clause(vars, literals.as_slice()) {
        return Err(Fail::new("no clause"));
    }
    solver.add(List::from_vec(literals))?;
    Ok(())
}

/// Whether the last entry is learned and empty.
fn ends_refuted(entries: &[Entry]) -> bool {
    match entries.last() {
        Some(Entry::Learned(step)) => step.clause.is_empty(),
        _ => false,
    }
}

/// What a step finds: a model, or none where the last entry is learned and empty.
fn next(alloc: Global, solver: &mut Solver) -> Result<Option<List<bool>>, Fail>
    ensures { solver.new.vars ≡ solver.old.vars }
{
    let found = solver.step(alloc)?;
    if solver.missed() > 0 {
        return Err(Fail::new("the watches missed a clause"));
    }
    match found {
        Found::Model(model) => Ok(Some(model)),
        Found::Refuted if ends_refuted(solver.log()) => Ok(None),
        Found::Refuted => Err(Fail::new("no empty clause at the end")),
    }
}

/// Whether the model of one variable is there, and says true.
fn is_truth(model: &Option<List<bool>>) -> bool {
    match model {
        Some(model) => matches!(model.as_slice(), [true]),
        None => false,
    }
}

#[test]
fn is_asked_again(rt: HostRuntime) -> Result<(), Fail> {
    let alloc = rt.alloc();
    let mut solver = Solver::make(alloc, 1)?;
    add(alloc, &mut solver, 1, &[1])?;
    let first = next(alloc, &mut solver)?;
    let again = next(alloc, &mut solver)?;
    assert!(rt; is_truth(&first) && is_truth(&again));
    add(alloc, &mut solver, 1, &[-1])?;
    let refuted = next(alloc, &mut solver)?;
    let again = next(alloc, &mut solver)?;
    assert!(rt; refuted.is_none() && again.is_none());
    Ok(())
}

/// Whether what a step finds is right for clauses over few variables.
fn is_right(found: &Option<List<bool>>, clauses: &[List<i32>]) -> bool {
    match found {
        Some(model) => all_hold_in(model.as_slice(), clauses),
        None => !can_hold(clauses),
    }
}

/// Adds clauses one by one, with a step after each, and tells whether all was right, and whether there is a model at the
/// end.
fn one_by_one(alloc: Global, cnf: &Cnf) -> Result<bool, Fail> {
    if cnf.vars > 9 {
        return Err(Fail::new("too many variables"));
    }
    let clauses = cnf.clauses.as_slice();
    let mut solver = Solver::make(alloc, cnf.vars)?;
    let mut found = next(alloc, &mut solver)?;
    for k in 0..clauses.len() {
        add(alloc, &mut solver, cnf.vars, clauses[k].as_slice())?;
        found = next(alloc, &mut solver)?;
        if !is_right(&found, &clauses[..k + 1]) {
            return Err(Fail::new("a wrong answer"));
        }
    }
    Ok(found.is_some())
}

#[test]
fn takes_small_sets_one_by_one(rt: HostRuntime) -> Result<(), Fail> {
    let alloc = rt.alloc();
    for (vars, literals, expected) in SETS {
        let has_model = one_by_one(alloc, &make(alloc, vars, literals)?)?;
        assert_eq!(rt; has_model, expected);
    }
    Ok(())
}

#[test]
fn takes_random_sets_one_by_one(rt: HostRuntime) -> Result<(), Fail> {
    let alloc = rt.alloc();
    let mut state = 2;
    for _ in 0..500 {
        one_by_one(alloc, &random_set(alloc, &mut state)?)?;
    }
    Ok(())
}

/// What the first step finds once all clauses are added.
pub fn at_once(alloc: Global, cnf: &Cnf) -> Result<bool, Fail> {
    if cnf.vars > 99 {
        return Err(Fail::new("too many variables"));
    }
    let mut solver = Solver::make(alloc, cnf.vars)?;
    for clause in cnf.clauses.as_slice() {
        add(alloc, &mut solver, cnf.vars, clause.as_slice())?;
    }
    Ok(next(alloc, &mut solver)?.is_some())
}

/// So many pigeons fit into so many holes, or they do not.
fn fit(rt: &impl Abort, alloc: Global, count: u8, holes: u8, expected: bool) -> Result<(), Fail>
    requires count { count ≤ 9 }
    requires holes { holes ≤ 9 }
{
    let has_model = at_once(alloc, &pigeons(alloc, count, holes)?)?;
    assert_eq!(rt; has_model, expected);
    Ok(())
}

#[test]
fn learns_of_pigeons(rt: HostRuntime) -> Result<(), Fail> {
    fit(&rt, rt.alloc(), 5, 4, false)?;
    fit(&rt, rt.alloc(), 6, 5, false)?;
    fit(&rt, rt.alloc(), 6, 6, true)
}
