// The clauses of a small question, and how many a chain has.

ghost use Rattle.std.specs.Prelude.{◌≤◌, IfOk};
ghost use Rattle.ct_word.specs.WellFormed.{IsWellFormed};

use ct_cnf::{CnfError, Encoded, encode};
use ct_derivation::Atom;
use ct_samples::{add, is_place, log};
use ct_word::{Class, Kind, List};
use std::alloc::{AllocError, Global};
use std::test::Fail;

/// The encoding, where the root is a condition of a short log. A call of its own, for the measurements.
#[inline(never)]
fn encoded(alloc: Global, words: &[u64], root: u32) -> Result<Option<Encoded>, CnfError>
    requires { IsWellFormed words.now }
{
    if words.len() > 10_000 || !is_place(words, Class::Cond, root) {
        return Ok(None);
    }
    Ok(Some(encode(alloc, words, root)?))
}

/// The literals of clauses, with a 0 after each clause.
fn literals(alloc: Global, clauses: &[List<i32>]) -> Result<Vec<i32>, AllocError> {
    let mut literals = Vec::new(alloc);
    for clause in clauses {
        literals.extend_from_slice(clause.as_slice())?;
        literals.push(0)?;
    }
    Ok(literals)
}

/// So many nulls, each equal to the next one; the last word is the root.
fn chain(alloc: Global, nulls: u32) -> Result<Vec<u64>, AllocError>
    requires low { 3 ≤ nulls }
    requires high { nulls ≤ 1000 }
    ensures { IfOk result (λ words. IsWellFormed words.items) }
{
    let mut words = Vec::new(alloc);
    for number in 1..nulls + 1 {
        add(&mut words, Kind::FreshNull, 1, number)?;
    }
    for k in 1..nulls {
        add(&mut words, Kind::Equal, k - 1, k)?;
    }
    add(&mut words, Kind::And, nulls, nulls + 1)?;
    for k in 2..nulls - 1 {
        add(&mut words, Kind::And, nulls + k, 2 * nulls + k - 3)?;
    }
    Ok(words)
}

#[test]
fn writes_small_questions(rt: HostRuntime) -> Result<(), Fail> {
    // The first null is the second one, which is not the third; the last word is not asked for.
    let nulls = [
        (Kind::FreshNull, 1, 1),
        (Kind::FreshNull, 1, 2),
        (Kind::FreshNull, 1, 3),
        (Kind::Equal, 0, 1),
        (Kind::Equal, 1, 2),
        (Kind::Not, 4, 0),
        (Kind::And, 3, 5),
        (Kind::Equal, 0, 2),
    ];
    let words = log(rt.alloc(), &nulls)?;
    let Some(e) = encoded(rt.alloc(), words.as_slice(), 6)? else {
        return Err(Fail::new("no encoding"));
    };
    let atoms = [
        Atom::Node(3),
        Atom::Same(0, 1),
        Atom::Node(4),
        Atom::Same(1, 2),
        Atom::Node(5),
        Atom::Node(6),
    ];
    assert!(rt; e.atoms.as_slice() == atoms.as_slice());
    let clauses = literals(rt.alloc(), e.cnf.clauses.as_slice())?;
    let defined = [
        6, 0, -1, 2, 0, 1, -2, 0, -3, 4, 0, 3, -4, 0, -5, -3, 0, 5, 3, 0, -6, 1, 0, -6, 5, 0, 6,
        -1, -5, 0,
    ];
    assert!(rt; clauses.as_slice() == defined.as_slice());
    // Either of true and false.
    let words = log(
        rt.alloc(),
        &[(Kind::True, 0, 0), (Kind::False, 0, 0), (Kind::Or, 0, 1)],
    )?;
    let Some(e) = encoded(rt.alloc(), words.as_slice(), 2)? else {
        return Err(Fail::new("no encoding"));
    };
    let clauses = literals(rt.alloc(), e.cnf.clauses.as_slice())?;
    let defined = [3, 0, 1, 0, -2, 0, -3, 1, 2, 0, 3, -1, 0, 3, -2, 0];
    assert!(rt; clauses.as_slice() == defined.as_slice());
    Ok(())
}

#[test]
fn counts_clauses(rt: HostRuntime) -> Result<(), Fail> {
    let alloc = rt.alloc();
    for nulls in [64, 500, 1000] {
        let words = chain(alloc, nulls)?;
        let Some(e) = encoded(alloc, words.as_slice(), 3 * nulls - 4)? else {
            return Err(Fail::new("no encoding"));
        };
        // An equal word has two atoms, and each conjunction one.
        let (equals, conjunctions) = (nulls - 1, nulls - 2);
        assert_eq!(rt; e.cnf.vars, 2 * equals + conjunctions);
        let definitions = 2 * equals + 3 * conjunctions;
        assert_eq!(rt; e.cnf.clauses.len(), (1 + definitions) as usize);
    }
    Ok(())
}
