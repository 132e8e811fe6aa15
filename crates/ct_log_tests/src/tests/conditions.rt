// Terms and conditions, the places that they are put at, and what a condition is worth.

ghost use Rattle.ct_query.specs.Pred.{condition_of};
ghost use Rattle.ct_query.specs.Fields.{AreFittingOn};

use crate::tests::changes::placed;
use crate::tests::checks::{counts, is};
use ct_arena::{Arena, Pass, Site};
use ct_condition::{all, and, eq, not, or, pred, put, text, value_at};
use ct_query::Pred;
use ct_samples::{is_place, log};
use ct_word::{Class, Kind, List, Null, Term, Value};
use std::alloc::Global;
use std::process::Abort;
use std::test::Fail;

/// The places of a number, of its equality with itself, of its negation, of what that gives with itself, and of the
/// conjunction of no conditions.
fn fold<N: Site>(arena: &Arena<N>, pass: &mut Pass<N>, x: i64) -> Result<[u32; 6], Fail> {
    let number = placed(arena, pass, Term::Value(Value::Int(x)))?;
    let same = eq(arena, pass, number, number)?;
    let never = not(arena, pass, same)?;
    let both = and(arena, pass, never, never)?;
    let either = or(arena, pass, both, both)?;
    let none = all(arena, pass, &[])?;
    Ok([number, same, never, both, either, none])
}

/// The first column is 1.
fn is_one() -> Pred
    ensures { AreFittingOn 0 (condition_of result) }
{
    Pred::Same(Term::Column(0), Term::Value(Value::Int(1)))
}

/// The place of that condition. Without a row the column is a term of its own.
fn first_is_one<N: Site>(arena: &Arena<N>, pass: &mut Pass<N>) -> Result<u32, Fail> {
    let one = is_one();
    let place = pred(arena, pass, &one, &[]);
    // What a condition is dropped by is read off its every variant, unless a call takes it.
    drop(one);
    Ok(place?)
}

/// The places of folded conditions.
fn are_folded(rt: &impl Abort, found: [u32; 6], wanted: [u32; 6]) {
    assert_eq!(rt; found, wanted);
}

/// The session puts eight words in all.
pub fn put_folded<N: Site>(
    rt: &impl Abort,
    arena: &Arena<N>,
    pass: &mut Pass<N>,
) -> Result<(), Fail> {
    are_folded(rt, fold(arena, pass, 1)?, [3, 0, 1, 1, 1, 0]);
    is(rt, text(arena, pass, "x")?, 5);
    is(rt, put(arena, pass, Kind::Column, 0, 0)?, 6);
    is(rt, first_is_one(arena, pass)?, 7);
    counts(rt, pass.words().len(), 8);
    Ok(())
}

/// `not ?1#1 = @3` at place 4, and `?1#2 = @3` at place 5, as a disjunction at place 6.
const EITHER: [(Kind, u32, u32); 7] = [
    (Kind::FreshNull, 1, 1),
    (Kind::FreshNull, 1, 2),
    (Kind::OtherValue, 3, 0),
    (Kind::Equal, 0, 2),
    (Kind::Not, 3, 0),
    (Kind::Equal, 1, 2),
    (Kind::Or, 4, 5),
];

/// Where the first null is this value, and the second is without one: @0.
fn holds(alloc: Global, value: u32) -> Result<bool, Fail> {
    let words = log(alloc, &EITHER)?;
    if words.len() > 1000 || !is_place(words.as_slice(), Class::Cond, 6) {
        return Err(Fail::new("no condition"));
    }
    let null = Null::Fresh {
        session: 1,
        number: 1,
    };
    let world = List::from_vec(Vec::from_array(alloc, [(null, Value::Other(value))])?);
    Ok(value_at(alloc, words.as_slice(), 6, &world)?)
}

#[test]
fn a_condition_has_its_truth(rt: HostRuntime) -> Result<(), Fail> {
    assert!(rt; holds(rt.alloc(), 1)?);
    assert!(rt; !holds(rt.alloc(), 3)?);
    Ok(())
}
