// Equalities of nulls.

ghost use Rattle.std.specs.Prelude.{◌≡◌, ◌≤◌, IfOk};
ghost use Rattle.ct_word.specs.declared.kinds.Class.TheVariants as class;
ghost use Rattle.ct_word.specs.WellFormed.{has_class, IsWellFormed};
ghost use Rattle.ct_equality.specs.Assigned as assigned;

use ct_derivation::Atom;
use ct_equality::{Closed, close};
use ct_samples::{add, log};
use ct_word::{Class, Kind, Memory, Null, Value, class, kind};
use std::alloc::{AllocError, Global};
use std::process::Abort;
use std::test::Fail;

fn names_term(kind: Option<Kind>) -> bool
    ensures { result ≡ has_class kind class.Term }
{
    match kind {
        None => false,
        Some(kind) => matches!(class(kind), Class::Term),
    }
}

fn names_column(kind: Option<Kind>) -> bool
    ensures { result ≡ assigned.is_column_kind kind }
{
    matches!(kind, Some(Kind::Column))
}

fn is_plain_term(words: &[u64], place: u32) -> bool
    ensures { result ≡ assigned.is_plain_term words.now place }
{
    match words.get(place as usize) {
        None => false,
        Some(word) => names_term(kind(*word)) && !names_column(kind(*word)),
    }
}

fn is_plain_atom(words: &[u64], atom: &Atom) -> bool
    ensures { result ≡ assigned.is_plain_atom words.now atom.now }
{
    match atom {
        Atom::Node(_) => true,
        Atom::Same(s, t) => is_plain_term(words, *s) && is_plain_term(words, *t) && s < t,
    }
}

/// Whether the atoms are as `close` asks.
#[tactic(auto, unfolding(ct_equality::specs::Assigned::are_plain))]
fn are_plain(words: &[u64], atoms: &[Atom]) -> bool
    ensures { result ≡ assigned.are_plain words.now atoms.now }
{
    for atom in atoms {
        if !is_plain_atom(words, atom) {
            return false;
        }
    }
    true
}

fn nulls(alloc: Global, count: u32) -> Result<Vec<u64>, AllocError>
    requires { count ≤ 5000 }
    ensures { IfOk result (λ words. IsWellFormed words.items) }
{
    let mut words = Vec::new(alloc);
    for k in 0..count {
        add(&mut words, Kind::FreshNull, 1, k + 1)?;
    }
    Ok(words)
}

fn push_pairs(atoms: &mut Vec<Atom>, t: u32) -> Result<(), AllocError> {
    for s in 0..t {
        atoms.push(Atom::Same(s, t))?;
    }
    Ok(())
}

/// The equality of each null with each earlier one.
fn all_pairs(alloc: Global, count: u32) -> Result<Vec<Atom>, AllocError> {
    let mut atoms = Vec::new(alloc);
    for t in 0..count {
        push_pairs(&mut atoms, t)?;
    }
    Ok(atoms)
}

/// The equality of each null with the next one.
fn chain(alloc: Global, count: u32) -> Result<Vec<Atom>, AllocError> {
    let mut atoms = Vec::new(alloc);
    for t in 1..count {
        atoms.push(Atom::Same(t - 1, t))?;
    }
    Ok(atoms)
}

/// The answer for equalities of so many nulls; none where they are no question.
fn closed(
    alloc: Global,
    count: u32,
    atoms: &[Atom],
    truth: &[bool],
) -> Result<Option<Closed>, Memory>
    requires { count ≤ 5000 }
{
    let words = nulls(alloc, count)?;
    closed_over(alloc, words.as_slice(), atoms, truth)
}

/// The same over any words. A call of its own, for the measurements.
#[inline(never)]
fn closed_over(
    alloc: Global,
    words: &[u64],
    atoms: &[Atom],
    truth: &[bool],
) -> Result<Option<Closed>, Memory>
    requires { IsWellFormed words.now }
{
    if words.len() > 10000 || atoms.len() != truth.len() || !are_plain(words, atoms) {
        return Ok(None);
    }
    Ok(Some(close(alloc, words, atoms, truth)?))
}

/// The number of the last null's value.
fn last_number(answer: &Option<Closed>) -> Option<u32> {
    let Some(Closed::World(world)) = answer else {
        return None;
    };
    match world.as_slice().last() {
        Some((_, Value::Other(number))) => Some(*number),
        _ => None,
    }
}

/// Whether the only null is this number.
fn is_number(answer: &Option<Closed>, number: i64) -> bool {
    let Some(Closed::World(world)) = answer else {
        return false;
    };
    match world.as_slice() {
        [(_, Value::Int(n))] => *n == number,
        _ => false,
    }
}

/// The number of terms of a path.
fn path_length(answer: &Option<Closed>) -> Option<usize> {
    match answer {
        Some(Closed::Path(path)) => Some(path.len()),
        _ => None,
    }
}

/// Where so many nulls are all one, or all apart, the last one's value has this number.
fn has_last(
    rt: &impl Abort,
    alloc: Global,
    count: u32,
    are_one: bool,
    number: u32,
) -> Result<(), Fail>
    requires { count ≤ 5000 }
{
    let atoms = all_pairs(alloc, count)?;
    let truth = vec![in alloc; are_one; atoms.len()]?;
    let answer = closed(alloc, count, atoms.as_slice(), truth.as_slice())?;
    assert_eq!(rt; last_number(&answer), Some(number));
    Ok(())
}

#[test]
fn tells_nulls_apart(rt: HostRuntime) -> Result<(), Fail> {
    has_last(&rt, rt.alloc(), 32, false, 31)?;
    has_last(&rt, rt.alloc(), 64, false, 63)
}

#[test]
fn takes_nulls_as_one(rt: HostRuntime) -> Result<(), Fail> {
    has_last(&rt, rt.alloc(), 32, true, 0)?;
    has_last(&rt, rt.alloc(), 64, true, 0)
}

/// One class of 450 nulls, by 101,025 equalities.
#[test]
fn takes_many_pairs_as_one(rt: HostRuntime) -> Result<(), Fail> {
    has_last(&rt, rt.alloc(), 450, true, 0)
}

/// The equality of each null with the first one.
fn star(alloc: Global, count: u32) -> Result<Vec<Atom>, AllocError> {
    let mut atoms = Vec::new(alloc);
    for t in 1..count {
        atoms.push(Atom::Same(0, t))?;
    }
    Ok(atoms)
}

#[test]
fn takes_a_star_as_one(rt: HostRuntime) -> Result<(), Fail> {
    let alloc = rt.alloc();
    for count in [1000, 2000] {
        let atoms = star(alloc, count)?;
        let truth = vec![in alloc; true; atoms.len()]?;
        let answer = closed(alloc, count, atoms.as_slice(), truth.as_slice())?;
        assert_eq!(rt; last_number(&answer), Some(0));
    }
    Ok(())
}

/// One null, and the numbers from 0 on after it; a number of 256 is not there.
fn with_numbers(alloc: Global, count: u32) -> Result<Vec<u64>, AllocError>
    ensures { IfOk result (λ words. IsWellFormed words.items) }
{
    let mut words = Vec::new(alloc);
    add(&mut words, Kind::FreshNull, 1, 1)?;
    add(&mut words, Kind::NumberHigh, 0, 0)?;
    for k in 0..count {
        add(&mut words, Kind::Number, 1, k)?;
    }
    Ok(words)
}

fn is_among(places: &[u32], place: u32) -> bool {
    for other in places {
        if *other == place {
            return true;
        }
    }
    false
}

/// The answer where a null is each of the numbers at these places, and none of the others of 250.
fn closed_at(alloc: Global, words: &[u64], places: &[u32]) -> Result<Option<Closed>, Memory>
    requires { IsWellFormed words.now }
{
    let mut atoms = Vec::new(alloc);
    let mut truth = Vec::new(alloc);
    for k in 2..252 {
        atoms.push(Atom::Same(0, k))?;
        truth.push(is_among(places, k))?;
    }
    closed_over(alloc, words, atoms.as_slice(), truth.as_slice())
}

/// Two numbers are never one, and a null is one of them at most: else the path leads from one number to another.
#[test]
fn tells_numbers_apart(rt: HostRuntime) -> Result<(), Fail> {
    let alloc = rt.alloc();
    let words = with_numbers(alloc, 250)?;
    let words = words.as_slice();
    let pair = closed_over(alloc, words, &[Atom::Same(2, 3)], &[true])?;
    assert_eq!(rt; path_length(&pair), Some(2));
    let one = closed_at(alloc, words, &[251])?;
    assert!(rt; is_number(&one, 249));
    let two = closed_at(alloc, words, &[2, 251])?;
    assert_eq!(rt; path_length(&two), Some(3));
    Ok(())
}

#[test]
fn goes_along_a_chain(rt: HostRuntime) -> Result<(), Fail> {
    let alloc = rt.alloc();
    for count in [64, 1000, 2000] {
        let mut atoms = chain(alloc, count)?;
        let mut truth = vec![in alloc; true; atoms.len()]?;
        atoms.push(Atom::Same(0, count - 1))?;
        truth.push(false)?;
        let answer = closed(alloc, count, atoms.as_slice(), truth.as_slice())?;
        assert_eq!(rt; path_length(&answer), Some(count as usize));
    }
    Ok(())
}

#[test]
fn goes_the_shorter_way_round(rt: HostRuntime) -> Result<(), Fail> {
    let alloc = rt.alloc();
    let mut atoms = chain(alloc, 5)?;
    atoms.push(Atom::Same(0, 4))?;
    atoms.push(Atom::Same(0, 3))?;
    let truth = [true, true, true, true, true, false];
    let answer = closed(alloc, 5, atoms.as_slice(), &truth)?;
    assert_eq!(rt; path_length(&answer), Some(3));
    Ok(())
}

/// `?x`, `?y` and `?z`, at the places 4, 6 and 8.
const NAMED: [(Kind, u32, u32); 9] = [
    (Kind::True, 0, 0),
    (Kind::False, 0, 0),
    (Kind::TextEnd, 0, 0),
    (Kind::TextCharacter, 2, 120),
    (Kind::NamedNull, 3, 0),
    (Kind::TextCharacter, 2, 121),
    (Kind::NamedNull, 5, 0),
    (Kind::TextCharacter, 2, 122),
    (Kind::NamedNull, 7, 0),
];

/// The places along a path.
fn along(answer: &Option<Closed>) -> &[u32] {
    match answer {
        Some(Closed::Path(path)) => path.as_slice(),
        _ => &[],
    }
}

/// Whether the nulls are these three, with one value.
fn are_one(answer: &Option<Closed>, names: [&str; 3]) -> bool {
    let Some(Closed::World(world)) = answer else {
        return false;
    };
    match world.as_slice() {
        [
            (Null::Named(x), a),
            (Null::Named(y), b),
            (Null::Named(z), c),
        ] => { [x.as_str(), y.as_str(), z.as_str()] == names && a == b && b == c }
        _ => false,
    }
}

/// Where x is y and y is z, x is z: else the path leads from x to z, or back.
#[test]
fn takes_three_names_as_one(rt: HostRuntime) -> Result<(), Fail> {
    let alloc = rt.alloc();
    let words = log(alloc, &NAMED)?;
    let words = words.as_slice();
    let atoms = [Atom::Same(4, 6), Atom::Same(6, 8), Atom::Same(4, 8)];
    let apart = closed_over(alloc, words, &atoms, &[true, true, false])?;
    assert!(rt; matches!(along(&apart), [4, 6, 8] | [8, 6, 4]));
    let same = closed_over(alloc, words, &atoms, &[true, true, true])?;
    assert!(rt; are_one(&same, ["x", "y", "z"]));
    Ok(())
}
