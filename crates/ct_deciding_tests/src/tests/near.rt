// Questions near the world without pairs, in which all nulls have one value.

ghost use Rattle.std.specs.Prelude.{◌≡◌, ◌≤◌, true, IfOk};
ghost use Rattle.ct_word.specs.declared.kinds.Class.TheVariants as class;
ghost use Rattle.ct_word.specs.Condition.{holds_at};
ghost use Rattle.ct_word.specs.Reading.{condition_at};
ghost use Rattle.ct_word.specs.WellFormed.{IsWellFormed, is_place_of};

use crate::tests::decision::passes;
use ct_decide::{DecideError, Decision, decide_near};
use ct_near::{conjuncts, run_beside};
use ct_samples::{add, is_place, log, no_columns};
use ct_word::{Class, Kind, List, Memory, World};
use ct_worlds::holds_below;
use std::alloc::{AllocError, Global};
use std::test::Fail;

/// `?1#1 = ?1#2 and ?1#3 = ?1#4` at place 8. At place 11 that and `not ?1#1 = ?1#5`, at place 13 that and `not ?1#1 = ?1#2`, and
/// at place 15 what place 11 says and `?1#2 = ?1#5`.
const NEAR: [(Kind, u32, u32); 16] = [
    (Kind::True, 0, 0),
    (Kind::FreshNull, 1, 1),
    (Kind::FreshNull, 1, 2),
    (Kind::FreshNull, 1, 3),
    (Kind::FreshNull, 1, 4),
    (Kind::FreshNull, 1, 5),
    (Kind::Equal, 1, 2),
    (Kind::Equal, 3, 4),
    (Kind::And, 6, 7),
    (Kind::Equal, 1, 5),
    (Kind::Not, 9, 0),
    (Kind::And, 8, 10),
    (Kind::Not, 6, 0),
    (Kind::And, 8, 12),
    (Kind::Equal, 2, 5),
    (Kind::And, 11, 14),
];

/// Whether a condition stands at a place, and holds in a world.
fn is_true(alloc: Global, words: &[u64], place: u32, world: &World) -> Result<bool, Memory>
    requires { IsWellFormed words.now }
    ensures { IfOk result (λ b. b ≡ true → (is_place_of words.now class.Cond place ≡ true) × (holds_at world.now (condition_at words.now place) ≡ true)) }
{
    if !is_place(words, Class::Cond, place) {
        return Ok(false);
    }
    holds_below(alloc, words, place, world)
}

/// The decision, where ANDs alone lead from the root to `global`, which holds in the world without pairs.
fn decided_near(
    alloc: Global,
    words: &[u64],
    root: u32,
    global: u32,
) -> Result<Option<Decision>, DecideError>
    requires { IsWellFormed words.now }
{
    if words.len() > 100_000 || !is_place(words, Class::Cond, root) || !no_columns(words) {
        return Ok(None);
    }
    let world: World = List::new(alloc);
    if !is_true(alloc, words, global, &world)? {
        return Ok(None);
    }
    let parts = conjuncts(alloc, words, global)?;
    let Some(own) = run_beside(alloc, words, root, global)? else {
        return Ok(None);
    };
    let decision = decide_near(alloc, words, root, global, &parts, own.as_slice(), &world)?;
    Ok(Some(decision))
}

/// How many nulls a world has that makes the root true; none where the root is refuted, and `check` accepts that.
fn nulls(alloc: Global, words: &[u64], root: u32, global: u32) -> Result<Option<usize>, Fail>
    requires { IsWellFormed words.now }
{
    match decided_near(alloc, words, root, global)? {
        Some(Decision::World(world)) if is_true(alloc, words, root, &world)? => {
            Ok(Some(world.len()))
        }
        Some(Decision::Refuted(derivation)) if passes(alloc, words, root, &derivation)? => Ok(None),
        _ => Err(Fail::new("no answer")),
    }
}

#[test]
fn a_few_are_decided(rt: HostRuntime) -> Result<(), Fail> {
    let words = log(rt.alloc(), &NEAR)?;
    // ?1#3 and ?1#4 are not asked.
    assert_eq!(rt; nulls(rt.alloc(), words.as_slice(), 11, 8)?, Some(3));
    assert_eq!(rt; nulls(rt.alloc(), words.as_slice(), 13, 8)?, None);
    assert_eq!(rt; nulls(rt.alloc(), words.as_slice(), 15, 8)?, None);
    Ok(())
}

/// A log, the place of `?x = ?a or ?x = ?b` for so many ?x, and that of the same where one of them differs from its ?a, or, where
/// `both`, from its ?b, too.
fn many(
    alloc: Global,
    count: u32,
    which: u32,
    both: bool,
) -> Result<(Vec<u64>, u32, u32), AllocError>
    requires { count ≤ 1000 }
    ensures { IfOk result (λ r. IsWellFormed r.0.items) }
{
    let mut words = Vec::new(alloc);
    let mut global = add(&mut words, Kind::True, 0, 0)?;
    let mut chosen = (0, 0);
    for number in 0..count {
        let x = add(&mut words, Kind::FreshNull, 1, 3 * number + 1)?;
        let a = add(&mut words, Kind::FreshNull, 1, 3 * number + 2)?;
        let b = add(&mut words, Kind::FreshNull, 1, 3 * number + 3)?;
        let is_a = add(&mut words, Kind::Equal, x, a)?;
        let is_b = add(&mut words, Kind::Equal, x, b)?;
        let either = add(&mut words, Kind::Or, is_a, is_b)?;
        global = add(&mut words, Kind::And, global, either)?;
        if number == which {
            chosen = (is_a, is_b);
        }
    }
    let not_a = add(&mut words, Kind::Not, chosen.0, 0)?;
    let mut root = add(&mut words, Kind::And, global, not_a)?;
    if both {
        let not_b = add(&mut words, Kind::Not, chosen.1, 0)?;
        root = add(&mut words, Kind::And, root, not_b)?;
    }
    Ok((words, global, root))
}

#[test]
fn one_of_many_is_decided(rt: HostRuntime) -> Result<(), Fail> {
    let alloc = rt.alloc();
    for which in [0, 1, 300, 599] {
        let (words, global, root) = many(alloc, 600, which, false)?;
        assert_eq!(rt; nulls(alloc, words.as_slice(), root, global)?, Some(3));
        let (words, global, root) = many(alloc, 600, which, true)?;
        assert_eq!(rt; nulls(alloc, words.as_slice(), root, global)?, None);
    }
    Ok(())
}
