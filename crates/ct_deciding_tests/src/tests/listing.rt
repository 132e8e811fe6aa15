// The possible rows and the certain tuples of tables whose rows have conditions.

ghost use Rattle.std.specs.Prelude.{◌≡◌, IfOk, IsTrue};
ghost use Rattle.ct_word.specs.Stands.{HasNoColumn};
ghost use Rattle.ct_word.specs.WellFormed.{is_place_of};
ghost use Rattle.ct_word.specs.declared.kinds.Class.TheVariants as class;
ghost use Rattle.ct_certain.specs.Certain.{IsKeptWorld};

use crate::tests::decision::passes;
use crate::tests::tables::{equal, filled, named, number};
use ct_arena::{Arena, Pass, Site};
use ct_certain::{CertainRow, PossibleRow, certain, possible};
use ct_condition::{and, not, worths};
use ct_samples::{is_place, no_columns};
use ct_word::{Class, List, Memory, Null, Value, World};
use std::alloc::Global;
use std::test::Fail;

/// Whether a row is the null x in the world in which x is a number.
fn shows_number(row: &PossibleRow, number: i64) -> bool {
    match row.world.as_slice() {
        [(Null::Named(name), Value::Int(n))] => name.as_str() == "x" && *n == number,
        _ => false,
    }
}

/// The place of the conjunction of two conditions.
pub fn both<N: Site>(arena: &Arena<N>, pass: &mut Pass<N>, c: u32, d: u32) -> Result<u32, Fail> {
    if !is_place(pass.words(), Class::Cond, c) {
        return Err("no condition on the left".into());
    }
    if !is_place(pass.words(), Class::Cond, d) {
        return Err("no condition on the right".into());
    }
    Ok(and(arena, pass, c, d)?)
}

/// The place of the word true, as a global condition.
fn always<N: Site>(pass: &Pass<N>) -> Result<u32, Fail>
    ensures place { IfOk result (λ p. IsTrue (is_place_of pass.now.words class.Cond p)) }
    ensures plain { IfOk result (λ p. HasNoColumn pass.now.words p) }
{
    let now = pass.words();
    if !is_place(now, Class::Cond, 0) {
        return Err("no condition".into());
    }
    if !no_columns(now) {
        return Err("a column".into());
    }
    Ok(0)
}

/// What the tables here are made of: the null x, the numbers 1 and 2, and that x is each of them.
#[derive(Clone, Copy)]
struct Parts {
    x: u32,
    one: u32,
    two: u32,
    is_one: u32,
    is_two: u32,
}

/// The places of a number, and of the equality of a term and it.
fn equal_to<N: Site>(
    arena: &Arena<N>,
    pass: &mut Pass<N>,
    x: u32,
    n: i64,
) -> Result<(u32, u32), Fail> {
    let number = number(arena, pass, n)?;
    let is = equal(arena, pass, x, number)?;
    Ok((number, is))
}

fn parts_of<N: Site>(alloc: Global, arena: &Arena<N>, pass: &mut Pass<N>) -> Result<Parts, Fail> {
    let x = named(alloc, arena, pass, "x")?;
    let (one, is_one) = equal_to(arena, pass, x, 1)?;
    let (two, is_two) = equal_to(arena, pass, x, 2)?;
    Ok(Parts {
        x,
        one,
        two,
        is_one,
        is_two,
    })
}

/// The possible rows of a table of one column with these cells, each under its condition.
fn possible_of<N: Site>(
    alloc: Global,
    arena: &Arena<N>,
    pass: &mut Pass<N>,
    cells: &[(u32, u32)],
) -> Result<List<PossibleRow>, Fail> {
    let table = filled(alloc, arena, pass, cells)?;
    let global = always(pass)?;
    Ok(possible(alloc, arena, pass, &table, global)?)
}

/// Whether there are three rows, the first and the last in the world in which x is 2, and the second in the one without
/// pairs.
fn are_shown(rows: &[PossibleRow]) -> bool {
    match rows {
        [first, second, third] => {
            shows_number(first, 2) && second.world.is_empty() && shows_number(third, 2)
        }
        _ => false,
    }
}

/// Of the rows (?x) if ?x = 2, (1), (2) if ?x = 1 and ?x = 2 and (3) if ?x = 2, all but the third one are possible.
pub fn shows_rows<N: Site>(
    alloc: Global,
    arena: &Arena<N>,
    pass: &mut Pass<N>,
) -> Result<bool, Fail> {
    let p = parts_of(alloc, arena, pass)?;
    let never = both(arena, pass, p.is_one, p.is_two)?;
    let three = number(arena, pass, 3)?;
    let cells = [
        (p.x, p.is_two),
        (p.one, 0),
        (p.two, never),
        (three, p.is_two),
    ];
    let list = possible_of(alloc, arena, pass, &cells)?;
    Ok(are_shown(list.as_slice()))
}

/// The place of the negation of a condition.
fn opposite<N: Site>(arena: &Arena<N>, pass: &mut Pass<N>, c: u32) -> Result<u32, Fail> {
    if !is_place(pass.words(), Class::Cond, c) {
        return Err("no condition".into());
    }
    Ok(not(arena, pass, c)?)
}

/// The world in which each null is `@0`, if the global condition holds there.
fn all_zero<N: Site>(alloc: Global, pass: &Pass<N>, global: u32) -> Result<World, Fail>
    requires { IsTrue (is_place_of pass.now.words class.Cond global) }
    ensures { IfOk result (λ v. IsKeptWorld pass.now.words global v) }
{
    let world = List::new(alloc);
    let all = worths(alloc, pass.words(), &world)?;
    if !all.holds(global) {
        return Err("the global condition".into());
    }
    Ok(world)
}

/// Whether `check` accepts the proof of each of these tuples.
fn are_accepted(alloc: Global, words: &[u64], list: &[CertainRow]) -> Result<bool, Memory> {
    for row in list {
        if !passes(alloc, words, row.proof.root, &row.proof.derivation)? {
            return Ok(false);
        }
    }
    Ok(true)
}

/// The certain tuples of a table of one column with these cells, each under its condition; `check` accepts each proof.
fn certain_of<N: Site>(
    alloc: Global,
    arena: &Arena<N>,
    pass: &mut Pass<N>,
    cells: &[(u32, u32)],
) -> Result<List<CertainRow>, Fail> {
    let table = filled(alloc, arena, pass, cells)?;
    let global = always(pass)?;
    let kept = all_zero(alloc, pass, global)?;
    let list = certain(alloc, arena, pass, &table, global, &kept)?;
    if !are_accepted(alloc, pass.words(), list.as_slice())? {
        return Err("a proof that is not accepted".into());
    }
    Ok(list)
}

/// Whether this is the tuple of one number.
fn is_number(row: &CertainRow, number: i64) -> bool {
    match row.tuple.as_slice() {
        [Value::Int(n)] => *n == number,
        _ => false,
    }
}

/// Whether these are the tuples of these numbers.
fn are_numbers(list: &[CertainRow], numbers: &[i64]) -> bool {
    if list.len() != numbers.len() {
        return false;
    }
    for place in 0..numbers.len() {
        if !is_number(&list[place], numbers[place]) {
            return false;
        }
    }
    true
}

/// Whether two tuples are certain by the same question.
fn have_one_question(list: &[CertainRow]) -> bool {
    match list {
        [first, second] => first.proof.root == second.proof.root,
        _ => false,
    }
}

/// Whether a table of one column with these cells, each under its condition, has the certain tuples of these numbers.
fn has_tuples<N: Site>(
    alloc: Global,
    arena: &Arena<N>,
    pass: &mut Pass<N>,
    cells: &[(u32, u32)],
    numbers: &[i64],
) -> Result<bool, Fail> {
    let list = certain_of(alloc, arena, pass, cells)?;
    Ok(are_numbers(list.as_slice(), numbers))
}

/// Of (?x) if ?x = 1 and (1) if not ?x = 1, the tuple (1) is certain, and of (?x) alone none. Of (1) and (2), each if
/// ?x = 1 and if not, both are certain, by the same question.
pub fn shows_tuples<N: Site>(
    alloc: Global,
    arena: &Arena<N>,
    pass: &mut Pass<N>,
) -> Result<bool, Fail> {
    let p = parts_of(alloc, arena, pass)?;
    let is_not = opposite(arena, pass, p.is_one)?;
    let cells = [(p.x, p.is_one), (p.one, is_not)];
    let in_each = has_tuples(alloc, arena, pass, &cells, &[1])?;
    let alone = has_tuples(alloc, arena, pass, &[(p.x, 0)], &[])?;
    let cells = [
        (p.one, p.is_one),
        (p.one, is_not),
        (p.two, p.is_one),
        (p.two, is_not),
    ];
    let both = certain_of(alloc, arena, pass, &cells)?;
    let both = both.as_slice();
    Ok(in_each && alone && are_numbers(both, &[1, 2]) && have_one_question(both))
}

/// Whether there are two rows, the first in a world of two nulls, and the second in the one in which x is 1.
fn is_second_shorter(rows: &[PossibleRow]) -> bool {
    match rows {
        [first, second] => first.world.len() == 2 && shows_number(second, 1),
        _ => false,
    }
}

/// Of (1) if ?x = 1 and ?y = 1 and (2) if ?x = 1, both are possible, the second one in a world without ?y.
pub fn shows_short_worlds<N: Site>(
    alloc: Global,
    arena: &Arena<N>,
    pass: &mut Pass<N>,
) -> Result<bool, Fail> {
    let p = parts_of(alloc, arena, pass)?;
    let y = named(alloc, arena, pass, "y")?;
    let other = equal(arena, pass, y, p.one)?;
    let all = both(arena, pass, p.is_one, other)?;
    let cells = [(p.one, all), (p.two, p.is_one)];
    let list = possible_of(alloc, arena, pass, &cells)?;
    Ok(is_second_shorter(list.as_slice()))
}
