// Refutations of long chains.

ghost use Rattle.std.specs.Prelude.{◌≤◌, ◌*◌, IfOk};
ghost use Rattle.ct_derivation.specs.Accepts as accepted;

use ct_checker::{Marks, check, widest};
use ct_derivation::{Atom, Derivation, Lit, Step, Why};
use ct_word::{Kind, List, Memory, pack};
use std::alloc::{AllocError, Global};
use std::test::Fail;

/// That a condition holds, or that it does not.
fn node(positive: bool, place: u32) -> Lit {
    Lit {
        positive,
        atom: Atom::Node(place),
    }
}

/// That two terms are the same, or that they differ.
fn same(positive: bool, s: u32, t: u32) -> Lit {
    Lit {
        positive,
        atom: Atom::Same(s, t),
    }
}

/// Adds the step of a clause.
fn push(
    alloc: Global,
    steps: &mut Vec<Step>,
    literals: &[Lit],
    why: Why,
) -> Result<(), AllocError> {
    let clause = List::from_vec(literals.to_vec(alloc)?);
    steps.push(Step { clause, why })?;
    Ok(())
}

/// Adds the step of a clause of two literals that the k-th definition of a place gives.
fn push_definition(
    alloc: Global,
    steps: &mut Vec<Step>,
    literals: [Lit; 2],
    place: u32,
    k: u8,
) -> Result<(), AllocError> {
    push(alloc, steps, &literals, Why::Def(place, k))
}

/// Adds the step of a clause along a path over these places.
fn push_path(
    alloc: Global,
    steps: &mut Vec<Step>,
    literals: &[Lit],
    places: &[u32],
) -> Result<(), AllocError> {
    let path = List::from_vec(places.to_vec(alloc)?);
    push(alloc, steps, literals, Why::Path(path))
}

/// Adds the step of a clause that these steps give together.
fn push_resolved(
    alloc: Global,
    steps: &mut Vec<Step>,
    literals: &[Lit],
    hints: &[u32],
) -> Result<(), AllocError> {
    let hints = List::from_vec(hints.to_vec(alloc)?);
    push(alloc, steps, literals, Why::Rup(hints))
}

/// A table with room for the check of a derivation, which is not that wide here.
fn marks_for(alloc: Global, derivation: &Derivation) -> Result<Marks, Memory>
    ensures { IfOk result (λ m. accepted.widest derivation.now ≤ m.room) }
{
    let room = widest(derivation);
    if room > 20000 {
        return Err(Memory);
    }
    Marks::make(alloc, room as u32)
}

/// The nulls of a chain at 0, 2, 5, 8 and so on.
fn null(k: u32) -> u32
    requires { k ≤ 10000 }
    ensures { result ≤ 3 * k }
{
    if k == 0 { 0 } else { 3 * k - 1 }
}

/// `true`, so many equalities of a null and the next one, each in a conjunction with those before
/// it, and a last conjunction, at the end, which says that the first and the last null differ.
fn long_chain(alloc: Global, links: u32) -> Result<Vec<u64>, AllocError>
    requires { links ≤ 10000 }
{
    let mut words: Vec<u64> = Vec::new(alloc);
    words.push(pack(Kind::FreshNull, 1, 1))?;
    words.push(pack(Kind::True, 0, 0))?;
    for k in 1..links + 1 {
        words.push(pack(Kind::FreshNull, 1, k + 1))?;
        words.push(pack(Kind::Equal, null(k - 1), null(k)))?;
        words.push(pack(Kind::And, 3 * k - 2, 3 * k))?;
    }
    words.push(pack(Kind::Equal, 0, null(links)))?;
    words.push(pack(Kind::Not, 3 * links + 2, 0))?;
    words.push(pack(Kind::And, 3 * links + 1, 3 * links + 3))?;
    Ok(words)
}

/// Two neighbours of the chain differ, or its ends are equal.
fn wide_clause(alloc: Global, links: u32) -> Result<Vec<Lit>, AllocError>
    requires { links ≤ 10000 }
{
    let mut clause: Vec<Lit> = Vec::new(alloc);
    for k in 1..links + 1 {
        clause.push(same(false, null(k - 1), null(k)))?;
    }
    clause.push(same(true, 0, null(links)))?;
    Ok(clause)
}

fn numbers(alloc: Global, from: u32, to: u32) -> Result<Vec<u32>, AllocError> {
    let mut numbers: Vec<u32> = Vec::new(alloc);
    for k in from..to {
        numbers.push(k)?;
    }
    Ok(numbers)
}

/// Adds, for each null after the first two, the clause that goes from the first null over the one before it.
fn push_short_paths(alloc: Global, links: u32, steps: &mut Vec<Step>) -> Result<(), AllocError>
    requires { links ≤ 10000 }
{
    for k in 2..links + 1 {
        let (s, t) = (null(k - 1), null(k));
        let clause = [same(false, 0, s), same(false, s, t), same(true, 0, t)];
        push_path(alloc, steps, &clause, &[0, s, t])?;
    }
    Ok(())
}

/// The wide clause step by step, along paths from the first null over one other null.
fn by_short_paths(alloc: Global, links: u32, steps: &mut Vec<Step>) -> Result<(), AllocError>
    requires low { 1 ≤ links }
    requires high { links ≤ 10000 }
{
    push_short_paths(alloc, links, steps)?;
    let clause = wide_clause(alloc, links)?;
    let hints = numbers(alloc, 0, links - 1)?;
    push_resolved(alloc, steps, clause.as_slice(), hints.as_slice())
}

/// The places of the nulls of the chain.
fn nulls(alloc: Global, links: u32) -> Result<Vec<u32>, AllocError>
    requires { links ≤ 10000 }
{
    let mut places: Vec<u32> = Vec::new(alloc);
    for k in 0..links + 1 {
        places.push(null(k))?;
    }
    Ok(places)
}

/// The wide clause by one path along all nulls.
fn by_one_path(alloc: Global, links: u32, steps: &mut Vec<Step>) -> Result<(), AllocError>
    requires { links ≤ 10000 }
{
    let places = nulls(alloc, links)?;
    let clause = wide_clause(alloc, links)?;
    push_path(alloc, steps, clause.as_slice(), places.as_slice())
}

/// What a conjunction says: the one before it, and the condition in front of it.
fn push_conjunction(alloc: Global, steps: &mut Vec<Step>, place: u32) -> Result<(), AllocError>
    requires { 3 ≤ place }
{
    push_definition(
        alloc,
        steps,
        [node(false, place), node(true, place - 3)],
        place,
        0,
    )?;
    push_definition(
        alloc,
        steps,
        [node(false, place), node(true, place - 1)],
        place,
        1,
    )
}

/// What the last conjunction says, with the root.
fn push_root(alloc: Global, links: u32, steps: &mut Vec<Step>) -> Result<(), AllocError>
    requires { links ≤ 10000 }
{
    let end = 3 * links + 4;
    push(alloc, steps, &[node(true, end)], Why::Root)?;
    push_conjunction(alloc, steps, end)?;
    push_definition(
        alloc,
        steps,
        [node(false, end - 1), node(false, end - 2)],
        end - 1,
        0,
    )?;
    push_definition(
        alloc,
        steps,
        [node(true, end - 2), same(false, 0, null(links))],
        end - 2,
        1,
    )
}

/// What the conjunction says that has the equality of these two nulls in front of it.
fn push_link(
    alloc: Global,
    steps: &mut Vec<Step>,
    place: u32,
    s: u32,
    t: u32,
) -> Result<(), AllocError>
    requires { 3 ≤ place }
{
    push_conjunction(alloc, steps, place)?;
    push_definition(
        alloc,
        steps,
        [node(false, place - 1), same(true, s, t)],
        place - 1,
        0,
    )
}

/// What the conjunctions say, from the root down.
fn push_definitions(alloc: Global, links: u32, steps: &mut Vec<Step>) -> Result<(), AllocError>
    requires { links ≤ 10000 }
{
    push_root(alloc, links, steps)?;
    for k in 0..links {
        let (s, t) = (null(links - k - 1), null(links - k));
        push_link(alloc, steps, 3 * (links - k) + 1, s, t)?;
    }
    Ok(())
}

/// One step along all others, of which so many lead to the wide clause.
fn push_last(alloc: Global, links: u32, count: u32, steps: &mut Vec<Step>) -> Result<(), AllocError>
    requires links { links ≤ 10000 }
    requires low { 1 ≤ count }
    requires high { count ≤ 10000 }
{
    let mut hints = numbers(alloc, count, count + 3 * links + 5)?;
    hints.push(count - 1)?;
    push_resolved(alloc, steps, &[], hints.as_slice())
}

/// Whether a derivation is accepted. A call of its own, for the measurements.
#[inline(never)]
fn accepts(words: &[u64], root: u32, derivation: &Derivation, marks: &mut Marks) -> bool
    requires { accepted.widest derivation.now ≤ marks.old.room }
{
    check(words, root, derivation, marks)
}

/// Whether a chain is refuted by these steps.
fn is_refuted(alloc: Global, links: u32, derivation: &Derivation) -> Result<bool, Memory>
    requires { links ≤ 10000 }
{
    let words = long_chain(alloc, links)?;
    let mut marks = marks_for(alloc, derivation)?;
    Ok(accepts(words.as_slice(), 3 * links + 4, derivation, &mut marks))
}

/// Whether a chain is refuted by so many steps to the wide clause, and one step along all others.
fn refutes(alloc: Global, links: u32, count: u32, to_wide: Vec<Step>) -> Result<bool, Memory>
    requires links { links ≤ 10000 }
    requires low { 1 ≤ count }
    requires high { count ≤ 10000 }
{
    let mut steps = to_wide;
    push_definitions(alloc, links, &mut steps)?;
    push_last(alloc, links, count, &mut steps)?;
    let derivation = Derivation {
        steps: List::from_vec(steps),
    };
    is_refuted(alloc, links, &derivation)
}

#[test]
fn takes_short_paths(rt: HostRuntime) -> Result<(), Fail> {
    let alloc = rt.alloc();
    for links in [500, 1000, 2000, 4000] {
        let mut steps = Vec::new(alloc);
        by_short_paths(alloc, links, &mut steps)?;
        assert!(rt; refutes(alloc, links, links, steps)?);
    }
    Ok(())
}

#[test]
fn takes_one_path(rt: HostRuntime) -> Result<(), Fail> {
    let alloc = rt.alloc();
    for links in [500, 1000, 2000, 4000] {
        let mut steps = Vec::new(alloc);
        by_one_path(alloc, links, &mut steps)?;
        assert!(rt; refutes(alloc, links, 1, steps)?);
    }
    Ok(())
}
