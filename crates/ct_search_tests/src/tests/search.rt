// Verdicts on small clause sets.

ghost use Rattle.std.specs.Prelude.{◌≡◌, true, ◌≤◌, ◌≤ℤ◌, pos};
ghost use Rattle.ct_trail.specs.Literal.{is_clause, is_literal};
ghost use Rattle.ct_sat.specs.Verdict.{IsCnf};

use ct_sat::{Cnf, Verdict, solve};
use ct_word::List;
use std::alloc::{AllocError, Global};
use std::process::Abort;
use std::test::Fail;

fn is_literal(vars: u32, l: i32) -> bool
    ensures { result ≡ is_literal vars l }
{
    l != 0 && l.unsigned_abs() <= vars
}

#[tactic(auto, unfolding(ct_trail::specs::Literal::is_clause))]
pub fn is_clause(vars: u32, clause: &[i32]) -> bool
    ensures { result ≡ is_clause vars clause.now }
{
    for l in clause {
        if !is_literal(vars, *l) {
            return false;
        }
    }
    true
}

/// Whether the clauses are as `solve` asks.
pub fn is_cnf(cnf: &Cnf) -> bool
    ensures { result ≡ true → IsCnf cnf.now }
{
    if cnf.vars > 0x7fff_ffff {
        return false;
    }
    for clause in cnf.clauses.as_slice() {
        if !is_clause(cnf.vars, clause.as_slice()) {
            return false;
        }
    }
    true
}

/// Each clause ends with a 0, as in the files of DIMACS.
pub fn make(alloc: Global, vars: u32, literals: &[i32]) -> Result<Cnf, AllocError> {
    let mut clauses = Vec::new(alloc);
    for clause in literals.split(|l| *l == 0) {
        clauses.push(List::from_vec(clause.to_vec(alloc)?))?;
    }
    clauses.pop();
    Ok(Cnf {
        vars,
        clauses: List::from_vec(clauses),
    })
}

/// Pigeon p is in hole h.
fn is_in(p: u8, h: u8) -> i32
    requires p { p ≤ 9 }
    requires h { h ≤ 9 }
    ensures low { pos 0 ≤ℤ result }
    ensures high { result ≤ℤ pos 99 }
{
    i32::from(10 * p + h)
}

/// Each pigeon is in a hole, and no two are in one.
pub fn pigeons(alloc: Global, count: u8, holes: u8) -> Result<Cnf, AllocError>
    requires count { count ≤ 9 }
    requires holes { holes ≤ 9 }
{
    let mut clauses: Vec<List<i32>> = Vec::new(alloc);
    for p in 0..count {
        let mut clause: Vec<i32> = Vec::new(alloc);
        for h in 0..holes {
            clause.push(is_in(p, h + 1))?;
            for q in 0..p {
                let apart = vec![in alloc; -is_in(p, h + 1), -is_in(q, h + 1)]?;
                clauses.push(List::from_vec(apart))?;
            }
        }
        clauses.push(List::from_vec(clause))?;
    }
    Ok(Cnf {
        vars: 99,
        clauses: List::from_vec(clauses),
    })
}

/// Whether the verdict is a model; none where the clauses are not as `solve` asks.
fn has_model(alloc: Global, cnf: &Cnf) -> Result<Option<bool>, Fail> {
    if !is_cnf(cnf) {
        return Ok(None);
    }
    let verdict = solve(alloc, cnf)?;
    Ok(Some(is_model(&verdict)))
}

fn is_model(verdict: &Verdict) -> bool {
    matches!(verdict, Verdict::Model(_))
}

/// Clauses over so many variables have a model, or none, as is expected.
fn decides(
    rt: &impl Abort,
    alloc: Global,
    vars: u32,
    literals: &[i32],
    expected: bool,
) -> Result<(), Fail> {
    let cnf = make(alloc, vars, literals)?;
    let found = has_model(alloc, &cnf)?;
    assert_eq!(rt; found, Some(expected));
    Ok(())
}

/// The corners of a triangle, with two colours.
const TWO_COLOURS: [i32; 18] = [1, 2, 0, -1, -2, 0, 2, 3, 0, -2, -3, 0, 1, 3, 0, -1, -3, 0];

/// The same with three colours.
const THREE_COLOURS: [i32; 39] = [
    1, 2, 3, 0, 4, 5, 6, 0, 7, 8, 9, 0, -1, -4, 0, -1, -7, 0, -4, -7, 0, -2, -5, 0, -2, -8, 0, -5,
    -8, 0, -3, -6, 0, -3, -9, 0, -6, -9, 0,
];

/// Variables, clauses over them, and whether those have a model: no clause, the empty clause, literals twice in a clause, a
/// clause with both signs, and others.
pub const SETS: [(u32, &[i32], bool); 15] = [
    (0, &[], true),
    (0, &[0], false),
    (2, &[], true),
    (1, &[0], false),
    (1, &[1, 0, 0], false),
    (1, &[1, 1, 0], true),
    (1, &[1, 1, 0, -1, -1, -1, 0], false),
    (1, &[1, -1, 0], true),
    (2, &[1, -1, 0, -1, 0, 1, 2, 2, 0], true),
    (2, &[-2, 1, 2, 0, -1, 0, 1, 2, 1, 0, -2, -2, 0], false),
    (1, &[1, 0, -1, 0], false),
    (2, &[1, 2, 0, -1, 2, 0, 1, -2, 0], true),
    (2, &[1, 2, 0, -1, 2, 0, 1, -2, 0, -1, -2, 0], false),
    (3, &TWO_COLOURS, false),
    (9, &THREE_COLOURS, true),
];

#[test]
fn decides_small_sets(rt: HostRuntime) -> Result<(), Fail> {
    for (vars, literals, expected) in SETS {
        decides(&rt, rt.alloc(), vars, literals, expected)?;
    }
    Ok(())
}

#[test]
fn keeps_pigeons_apart(rt: HostRuntime) -> Result<(), Fail> {
    let alloc = rt.alloc();
    assert_eq!(rt; has_model(alloc, &pigeons(alloc, 4, 3)?)?, Some(false));
    assert_eq!(rt; has_model(alloc, &pigeons(alloc, 4, 4)?)?, Some(true));
    assert_eq!(rt; has_model(alloc, &pigeons(alloc, 5, 4)?)?, Some(false));
    assert_eq!(rt; has_model(alloc, &pigeons(alloc, 6, 5)?)?, Some(false));
    Ok(())
}
