// A world in the making.

ghost use Rattle.std.specs.Prelude.{◌≡◌, ◌⊎◌, ◌<◌, ◌≤◌, ◌^◌, All, Contains, IfOk, IfSome, IsTrue, OnOk, map};
ghost use Rattle.ct_word.specs.declared.kinds.Class.TheVariants as class;
ghost use Rattle.std.specs.List.{IsDistinct};
ghost use Rattle.ct_word.specs.Value.{other_zero, same_null};
ghost use Rattle.ct_word.specs.declared.values.Null.{Null};
ghost use Rattle.ct_word.specs.declared.values.Value.{Value};
ghost use Rattle.ct_word.specs.WellFormed.{IsWellFormed, is_place_of};
ghost use Rattle.ct_worlds.specs.Repaired.{Adds, Each, IsAt, IsDrawn, IsFrom, IsNullOf, IsNullSide, IsNullTerm, IsOf, IsOverTerms, IsSide, IsValueOf};

use crate::classes::{Classes, Side, no_classes};
use crate::reads::slot_of;
use crate::wishing::Wish;
use ct_word::{List, Memory, Null, Term, Value, World, term_at};
use indexmap::IndexSet;
use std::alloc::Global;

/// A world in the making: the nulls, in classes that have a value each.
#[derive(Drop)]
pub(crate) struct Draft {
    nulls: IndexSet<Null>,
    /// The values that nulls may have, each with a number.
    values: IndexSet<Value>,
    classes: Classes,
    /// The number of `@0`, once it is put in.
    zero: Option<usize>,
}

/// What two terms are in a draft, and whether they are to be equal or different.
#[derive(Clone, Copy)]
struct Link {
    first: Side,
    second: Side,
    is_equal: bool,
}

/// How many values `@k` there are at most among constants, and so in a draft.
const VALUES: u32 = 1 << 28;

/// The number of a null, which is put in with the value of this number where it is not there.
fn null_number(draft: &mut Draft, null: Null, number: usize) -> Result<usize, Memory>
    ensures values { OnOk result (draft.new.values.keys ≡ draft.old.values.keys) }
    ensures nulls { OnOk result (Adds (λ n. n ≡ null) draft.old.nulls.keys draft.new.nulls.keys) }
{
    let (at, is_new) = draft.nulls.insert_full(null)?;
    if is_new {
        draft.classes.add(number)?;
    }
    Ok(at)
}

/// The number of a value, which is put in where it is not there, and whether it was not.
fn put_value(draft: &mut Draft, value: Value) -> Result<(usize, bool), Memory>
    ensures values { OnOk result (Adds (λ x. x ≡ value) draft.old.values.keys draft.new.values.keys) }
    ensures nulls { draft.new.nulls.keys ≡ draft.old.nulls.keys }
{
    let number = draft.values.insert_full(value)?;
    Ok(number)
}

/// The number of a value, which is put in where it is not there.
fn value_number(draft: &mut Draft, value: Value) -> Result<usize, Memory>
    ensures values { OnOk result (Adds (λ x. x ≡ value) draft.old.values.keys draft.new.values.keys) }
    ensures nulls { draft.new.nulls.keys ≡ draft.old.nulls.keys }
{
    let (number, _) = put_value(draft, value)?;
    Ok(number)
}

/// The number of `@0`, which is put in where it is not there.
fn zero_number(draft: &mut Draft) -> Result<usize, Memory>
    ensures values { OnOk result (Adds (λ x. x ≡ other_zero) draft.old.values.keys draft.new.values.keys) }
    ensures nulls { draft.new.nulls.keys ≡ draft.old.nulls.keys }
{
    if let Some(number) = draft.zero {
        return Ok(number);
    }
    let number = value_number(draft, Value::Other(0))?;
    draft.zero = Some(number);
    Ok(number)
}

/// Puts in a null with its value, unless it is there.
fn put_pair(draft: &mut Draft, pair: &(Null, Value)) -> Result<(), Memory>
    ensures values { OnOk result (Adds (λ x. x ≡ pair.now.1) draft.old.values.keys draft.new.values.keys) }
    ensures nulls { OnOk result (Adds (λ n. n ≡ pair.now.0) draft.old.nulls.keys draft.new.nulls.keys) }
{
    let number = value_number(draft, pair.1.clone()?)?;
    null_number(draft, pair.0.clone()?, number)?;
    Ok(())
}

/// Puts in the nulls of a world with their values.
fn put_pairs(draft: &mut Draft, pairs: &[(Null, Value)]) -> Result<(), Memory>
    ensures values { OnOk result (Adds (IsValueOf pairs.now) draft.old.values.keys draft.new.values.keys) }
    ensures nulls { OnOk result (Adds (IsNullOf pairs.now) draft.old.nulls.keys draft.new.nulls.keys) }
{
    for pair in pairs {
        put_pair(draft, pair)?;
    }
    Ok(())
}

/// What the term at a place is in a draft.
fn side(alloc: Global, words: &[u64], place: u32, draft: &mut Draft) -> Result<Side, Memory>
    requires formed { IsWellFormed words.now }
    requires term { IsTrue (is_place_of words.now class.Term place) }
    ensures values { OnOk result (Adds (IsAt words.now place) draft.old.values.keys draft.new.values.keys) }
    ensures nulls { OnOk result (Adds (IsNullTerm words.now place) draft.old.nulls.keys draft.new.nulls.keys) }
{
    match term_at(alloc, words, place)? {
        Term::Value(value) => Ok(Side::Value(value_number(draft, value)?)),
        Term::Null(null) => {
            let zero = zero_number(draft)?;
            Ok(Side::Null(null_number(draft, null, zero)?))
        }
        Term::Column(_) => Ok(Side::Value(value_number(draft, Value::Other(0))?)),
    }
}

/// What the term at a place is in a draft, by the terms that were noted. Nothing rests on what is noted.
fn side_of(
    alloc: Global,
    words: &[u64],
    place: u32,
    draft: &mut Draft,
    sides: &mut Vec<Option<(u32, Side)>>,
) -> Result<Side, Memory>
    requires formed { IsWellFormed words.now }
    requires term { IsTrue (is_place_of words.now class.Term place) }
    ensures values { OnOk result (Adds (IsAt words.now place) draft.old.values.keys draft.new.values.keys) }
    ensures nulls { OnOk result (Adds (IsNullTerm words.now place) draft.old.nulls.keys draft.new.nulls.keys) }
{
    let slot = slot_of(sides.len(), place);
    if let Some(Some((own, side))) = sides.get(slot).copied() {
        if own == place {
            return Ok(side);
        }
    }
    let side = side(alloc, words, place, draft)?;
    if let Some(noted) = sides.get_mut(slot) {
        *noted = Some((place, side));
    }
    Ok(side)
}

/// So many slots, of which none has a term.
fn no_sides(alloc: Global, count: usize) -> Result<Vec<Option<(u32, Side)>>, Memory> {
    let mut sides = Vec::with_capacity(alloc, count)?;
    for _ in 0..count {
        sides.push(None)?;
    }
    Ok(sides)
}

/// What the terms of equalities are in a draft.
fn links(
    alloc: Global,
    words: &[u64],
    wishes: &[Wish],
    draft: &mut Draft,
) -> Result<Vec<Link>, Memory>
    requires formed { IsWellFormed words.now }
    requires terms { All (IsOverTerms words.now) wishes.now }
    ensures values { OnOk result (Adds (IsSide words.now wishes.now) draft.old.values.keys draft.new.values.keys) }
    ensures nulls { OnOk result (Adds (IsNullSide words.now wishes.now) draft.old.nulls.keys draft.new.nulls.keys) }
{
    let mut sides = no_sides(alloc, wishes.len())?;
    let mut links = Vec::with_capacity(alloc, wishes.len())?;
    for wish in wishes {
        let first = side_of(alloc, words, wish.left, draft, &mut sides)?;
        let second = side_of(alloc, words, wish.right, draft, &mut sides)?;
        let is_equal = wish.is_equal;
        links.push(Link {
            first,
            second,
            is_equal,
        })?;
    }
    Ok(links)
}

/// Gives the two sides of each equality that is to be true one value; false where that cannot be.
fn unite_all(classes: &mut Classes, links: &[Link]) -> bool {
    for link in links {
        if link.is_equal && !classes.unite(link.first, link.second) {
            return false;
        }
    }
    true
}

/// The number of the value `@k`, which is put in where it is not there, and whether it was not.
fn put_other(draft: &mut Draft, k: u32) -> Result<(usize, bool), Memory>
    requires { k < 2 ^ 28 }
    ensures values { OnOk result (Adds (IsFrom k) draft.old.values.keys draft.new.values.keys) }
    ensures nulls { draft.new.nulls.keys ≡ draft.old.nulls.keys }
{
    let number = put_value(draft, Value::Other(k))?;
    Ok(number)
}

/// The number of a value `@k` that no null has; none where all are taken. The next one is the least k that was not yet tried.
fn new_number(draft: &mut Draft, next: &mut u32) -> Result<Option<usize>, Memory>
    ensures values { OnOk result (Adds (IsFrom next.old) draft.old.values.keys draft.new.values.keys) }
    ensures next { OnOk result (next.old ≤ next.new) }
    ensures nulls { draft.new.nulls.keys ≡ draft.old.nulls.keys }
{
    let mut k = *next;
    while k < VALUES {
        let (number, is_new) = put_other(draft, k)?;
        k += 1;
        if is_new {
            *next = k;
            return Ok(Some(number));
        }
    }
    *next = k;
    Ok(None)
}

/// Gives the two sides of an equality that is to be false different values, but where they are in one class, which is not looked
/// for; false where both values are fixed, or no new value is left.
fn part(draft: &mut Draft, link: Link, next: &mut u32) -> Result<bool, Memory>
    ensures values { OnOk result (Adds (IsFrom next.old) draft.old.values.keys draft.new.values.keys) }
    ensures next { OnOk result (next.old ≤ next.new) }
    ensures nulls { draft.new.nulls.keys ≡ draft.old.nulls.keys }
{
    let (first, second) = (link.first, link.second);
    if link.is_equal || draft.classes.number_of(first) != draft.classes.number_of(second) {
        return Ok(true);
    }
    let free = draft.classes.free_chief(second);
    let Some(chief) = free.or(draft.classes.free_chief(first)) else {
        return Ok(false);
    };
    let Some(number) = new_number(draft, next)? else {
        return Ok(false);
    };
    draft.classes.give(chief, number, false);
    Ok(true)
}

/// Gives the two sides of each equality that is to be false different values, the new ones `@k` from this k on, but where they
/// are in one class; false where one cannot get another value.
fn part_all(draft: &mut Draft, links: &[Link], from: u32) -> Result<bool, Memory>
    ensures values { OnOk result (Adds (IsFrom from) draft.old.values.keys draft.new.values.keys) }
    ensures nulls { draft.new.nulls.keys ≡ draft.old.nulls.keys }
{
    let mut next = from;
    for link in links {
        if !part(draft, *link, &mut next)? {
            return Ok(false);
        }
    }
    Ok(true)
}

/// The value with a number; `@0` where there is none.
fn value_with(values: &IndexSet<Value>, number: usize) -> Result<Value, Memory>
    ensures { IfOk result (λ x. Contains values.now.keys x ⊎ (x ≡ other_zero)) }
{
    match values.get_index(number) {
        Some(value) => Ok(value.clone()?),
        None => Ok(Value::Other(0)),
    }
}

/// The nulls of a draft with their values.
fn pairs_of(alloc: Global, draft: &Draft) -> Result<Vec<(Null, Value)>, Memory>
    ensures once { IfOk result (λ ps. IsDistinct same_null (map (λ p. p.0) ps.items)) }
    ensures values { IfOk result (λ ps. Each (λ p. Contains draft.now.values.keys p.1 ⊎ (p.1 ≡ other_zero)) ps.items) }
    ensures nulls { IfOk result (λ ps. map (λ p. p.0) ps.items ≡ draft.now.nulls.keys) }
{
    let nulls = draft.nulls.as_slice();
    let mut pairs = Vec::with_capacity(alloc, nulls.len())?;
    for (at, null) in nulls.iter().enumerate() {
        let value = value_with(&draft.values, draft.classes.number(at))?;
        pairs.push((null.clone()?, value))?;
    }
    Ok(pairs)
}

/// Gives each null of the wishes a value, with which they come true but for sides of one class that are to differ: a constant of
/// theirs, `@0`, or `@k` from this k on; false where two values clash.
#[tactic(auto, using(crate::proofs::Drawing::adds_numbers, crate::proofs::Drawing::adds_still))]
fn fulfil(
    alloc: Global,
    words: &[u64],
    wishes: &[Wish],
    draft: &mut Draft,
    next: u32,
) -> Result<bool, Memory>
    requires formed { IsWellFormed words.now }
    requires terms { All (IsOverTerms words.now) wishes.now }
    ensures values { OnOk result (Adds (IsOf words.now wishes.now next) draft.old.values.keys draft.new.values.keys) }
    ensures nulls { OnOk result (Adds (IsNullSide words.now wishes.now) draft.old.nulls.keys draft.new.nulls.keys) }
{
    let links = links(alloc, words, wishes, draft)?;
    if !unite_all(&mut draft.classes, links.as_slice()) {
        return Ok(false);
    }
    let is_done = part_all(draft, links.as_slice(), next)?;
    Ok(is_done)
}

/// A draft without nulls, with room for so many, and for as many values.
fn blank(alloc: Global, count: usize) -> Result<Draft, Memory>
    ensures values { IfOk result (λ d. (x : Value) → Contains d.values.keys x → ⊥) }
    ensures nulls { IfOk result (λ d. (n : Null) → Contains d.nulls.keys n → ⊥) }
{
    let nulls = IndexSet::with_capacity(alloc, count)?;
    let values = IndexSet::with_capacity(alloc, count)?;
    Ok(Draft {
        nulls,
        values,
        classes: no_classes(alloc),
        zero: None,
    })
}

/// A world like another one, made so that wishes come true; whether they do is to be tried. Its new values are constants of theirs,
/// `@0`, and `@k` from this k on. None where two values clash.
pub(crate) fn drawn(
    alloc: Global,
    words: &[u64],
    wishes: &[Wish],
    world: &World,
    next: u32,
) -> Result<Option<World>, Memory>
    requires formed { IsWellFormed words.now }
    requires terms { All (IsOverTerms words.now) wishes.now }
    ensures { IfOk result (λ o. IfSome o (IsDrawn words.now wishes.now next world.now)) }
{
    let pairs = world.as_slice();
    let mut draft = blank(alloc, pairs.len().saturating_add(wishes.len()))?;
    put_pairs(&mut draft, pairs)?;
    if !fulfil(alloc, words, wishes, &mut draft, next)? {
        return Ok(None);
    }
    let pairs = pairs_of(alloc, &draft)?;
    Ok(Some(List::from_vec(pairs)))
}
