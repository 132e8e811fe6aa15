// Clauses that are made by chance, and the verdicts on them beside all assignments.

use crate::tests::assignments::{all_hold_in, can_hold};
use crate::tests::search::is_cnf;
use crate::tests::solver::at_once;
use ct_samples::{between, is_head, pick};
use ct_sat::{Cnf, Rup, Verdict, solve};
use ct_word::List;
use std::alloc::{AllocError, Global};
use std::test::Fail;

/// A literal over so many variables, at least one.
fn literal(state: &mut u64, vars: u32) -> i32 {
    let variable = if vars == 0 {
        1
    } else {
        pick(state, vars).wrapping_add(1)
    };
    let literal = i32::try_from(variable).unwrap_or(1);
    if is_head(state) {
        literal
    } else {
        literal.wrapping_neg()
    }
}

/// A clause of one to three literals, which may be the same or opposites.
fn clause(alloc: Global, state: &mut u64, vars: u32) -> Result<List<i32>, AllocError> {
    let mut clause = Vec::new(alloc);
    for _ in 0..between(state, 1, 2) {
        clause.push(literal(state, vars))?;
    }
    Ok(List::from_vec(clause))
}

/// Up to 40 clauses over one to eight variables.
pub fn random_set(alloc: Global, state: &mut u64) -> Result<Cnf, AllocError> {
    let vars = between(state, 1, 7);
    let mut clauses = Vec::new(alloc);
    for _ in 0..pick(state, 41) {
        clauses.push(clause(alloc, state, vars)?)?;
    }
    Ok(Cnf {
        vars,
        clauses: List::from_vec(clauses),
    })
}

/// Whether there is a last step, and its clause is empty.
fn ends_empty(steps: &[Rup]) -> bool {
    match steps.last() {
        Some(step) => step.clause.is_empty(),
        None => false,
    }
}

/// Whether a verdict is right on clauses over few variables.
fn is_right(verdict: &Verdict, clauses: &[List<i32>]) -> bool {
    match verdict {
        Verdict::Model(model) => all_hold_in(model.as_slice(), clauses),
        Verdict::Refuted(steps) => ends_empty(steps.as_slice()) && !can_hold(clauses),
    }
}

/// Whether clauses have a model, where the verdict says so and is right, and a solver that is asked once misses nothing.
fn verdict_on(alloc: Global, cnf: &Cnf) -> Result<bool, Fail> {
    if !is_cnf(cnf) {
        return Err(Fail::new("no clauses"));
    }
    let verdict = solve(alloc, cnf)?;
    if !is_right(&verdict, cnf.clauses.as_slice()) {
        return Err(Fail::new("a wrong verdict"));
    }
    let has_model = matches!(verdict, Verdict::Model(_));
    if at_once(alloc, cnf)? != has_model {
        return Err(Fail::new("another verdict by a solver"));
    }
    Ok(has_model)
}

/// How many of so many sets have a model.
fn count_models(alloc: Global, count: u32) -> Result<u32, Fail> {
    let mut state = 1;
    let mut models: u32 = 0;
    for _ in 0..count {
        let cnf = random_set(alloc, &mut state)?;
        if verdict_on(alloc, &cnf)? {
            models = models.wrapping_add(1);
        }
    }
    Ok(models)
}

#[test]
fn solves_random_sets(rt: HostRuntime) -> Result<(), Fail> {
    let models = count_models(rt.alloc(), 2000)?;
    // Of both kinds there are many.
    assert!(rt; 400 < models && models < 1600);
    Ok(())
}
