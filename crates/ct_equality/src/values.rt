// The values of classes.

ghost use Rattle.std.specs.Prelude.{◌≡◌, ◌<◌, ◌≤◌, ◌^◌, ◌++◌, ◌∷◌, [], ℕ, List, true, false, length, slice_index_or, IfOk, OnOk};
ghost use Rattle.std.specs.List.{list_all};
ghost use Rattle.ct_word.specs.declared.kinds.Class.TheVariants as class;
ghost use Rattle.ct_word.specs.WellFormed.{IsWellFormed, is_place_of};
ghost use Rattle.ct_word.specs.Reading.{term_at};
ghost use Rattle.ct_equality.specs.declared.classes.Member.{Member};
ghost use Rattle.ct_equality.specs.Terms.{AreAscending, is_among};
ghost use Rattle.ct_equality.specs.Members as listed;
ghost use Rattle.ct_equality.specs.Indexed.{AreIndexed, IsTable};
ghost use Rattle.ct_equality.specs.Valued.{AreNumbered, AreNumberedTo, HasValue, HaveValues, class_value, with_pair, world_of};

use crate::classes::{Member, class_of, number_of};
use ct_chain::Chain;
use ct_word::{List, Memory, Null, Term, Value, World, is_constant, term_at};
use std::alloc::{AllocError, Global};

/// Which numbers up to that of the terms are those of constants `@k`.
pub fn taken(alloc: Global, members: &[Member]) -> Result<Vec<bool>, AllocError>
    ensures { IfOk result (λ v. IsTable members.now 0 v.items) }
{
    let mut taken = vec![in alloc; false; members.len() + 1]?;
    for m in members {
        if let Some(number) = m.number {
            if (number as usize) < taken.len() {
                taken[number as usize] = true;
            }
        }
    }
    Ok(taken)
}

/// The least number at or past `from` that is not taken.
fn least_number(taken: &[bool], from: u32) -> u32
    requires short { length taken.now ≤ 2 ^ 28 }
    requires ends { (n : ℕ) → ((k : ℕ) → from ≤ k → k < n → slice_index_or taken.now k false ≡ true) → n < length taken.now }
    ensures past { from ≤ result }
    ensures within { result < length taken.now }
    ensures free { slice_index_or taken.now result false ≡ false }
    ensures least { (k : ℕ) → from ≤ k → k < result → slice_index_or taken.now k false ≡ true }
{
    let mut number = from;
    while taken[number as usize] {
        number += 1;
    }
    number
}

/// Gives a term a number.
fn give(found: &Chain, members: &mut [Member], place: u32, number: u32)
    requires indexed { AreIndexed found.now.words members.old }
    ensures { members.new ≡ listed.numbered place number members.old }
{
    if let Some(i) = found.find(place as u64) {
        members[i as usize].number = Some(number);
    }
}

/// Gives a term a number, `next` or a greater one, if a class without a constant goes by it.
/// Answers a number such that each below it is one that a term has.
fn number_class(
    words: &[u64],
    found: &Chain,
    taken: &[bool],
    members: &mut [Member],
    place: u32,
    next: u32,
) -> u32
    requires few { length members.old < 2 ^ 28 }
    requires indexed { AreIndexed found.now.words members.old }
    requires taken { IsTable members.old next taken.now }
    requires there { listed.is_listed members.old place ≡ true }
    requires below { (k : ℕ) → k < next → listed.is_taken members.old k ≡ true }
    ensures numbers { (first : List Member) (done : List ℕ) → AreNumbered words.now first members.old done → ((p : ℕ) → is_among done p ≡ true → p < place) → AreNumberedTo words.now first members.new (done ++ place ∷ []) result }
    ensures indexed { AreIndexed found.now.words members.new }
    ensures taken { (first : List Member) (done : List ℕ) → AreNumbered words.now first members.old done → ((p : ℕ) → is_among done p ≡ true → p < place) → IsTable members.new result taken.now }
{
    if is_constant(words, place) {
        return next;
    }
    if class_of(found, members, place) != place {
        return next;
    }
    let number = least_number(taken, next);
    give(found, members, place, number);
    number + 1
}

/// Gives each class without a constant the least number that no class before it has and that is
/// not the k of a constant `@k`. Classes are in the order of their least terms.
pub fn number_classes(
    words: &[u64],
    found: &Chain,
    terms: &[u32],
    taken: &[bool],
    members: &mut [Member],
)
    requires few { length members.old < 2 ^ 28 }
    requires indexed { AreIndexed found.now.words members.old }
    requires taken { IsTable members.old 0 taken.now }
    requires there { (p : ℕ) → is_among terms.now p ≡ true → listed.is_listed members.old p ≡ true }
    requires ascending { AreAscending terms.now }
    requires constants { AreNumbered words.now members.old members.old [] }
    ensures numbers { AreNumbered words.now members.old members.new terms.now }
    ensures indexed { AreIndexed found.now.words members.new }
{
    let mut next = 0;
    for place in terms {
        next = number_class(words, found, taken, members, *place, next);
    }
}

/// The value of a class that goes by this term.
fn class_value(
    alloc: Global,
    words: &[u64],
    found: &Chain,
    members: &[Member],
    class: u32,
) -> Result<Value, Memory>
    requires formed { IsWellFormed words.now }
    requires indexed { AreIndexed found.now.words members.now }
    requires value { HasValue words.now members.now class }
    ensures { IfOk result (λ x. x ≡ class_value words.now members.now class) }
{
    if let Some(number) = number_of(found, members, class) {
        return Ok(Value::Other(number));
    }
    match term_at(alloc, words, class)? {
        Term::Value(value) => Ok(value),
        _ => unreachable!(),
    }
}

/// Adds the null at a place, if there is one, with the value of its class.
fn add_pair(
    alloc: Global,
    words: &[u64],
    found: &Chain,
    members: &[Member],
    place: u32,
    pairs: &mut Vec<(Null, Value)>,
) -> Result<(), Memory>
    requires formed { IsWellFormed words.now }
    requires indexed { AreIndexed found.now.words members.now }
    requires term { is_place_of words.now class.Term place ≡ true }
    requires value { HasValue words.now members.now (listed.class_of members.now place) }
    ensures { OnOk result (pairs.new.items ≡ pairs.old.items ++ with_pair (term_at words.now place) (class_value words.now members.now (listed.class_of members.now place)) []) }
{
    if let Term::Null(null) = term_at(alloc, words, place)? {
        let value = class_value(
            alloc,
            words,
            found,
            members,
            class_of(found, members, place),
        )?;
        pairs.push((null, value))?;
    }
    Ok(())
}

/// The nulls among the terms, with the values of their classes.
pub fn world(
    alloc: Global,
    words: &[u64],
    found: &Chain,
    terms: &[u32],
    members: &[Member],
) -> Result<World, Memory>
    requires formed { IsWellFormed words.now }
    requires indexed { AreIndexed found.now.words members.now }
    requires terms { list_all (is_place_of words.now class.Term) terms.now ≡ true }
    requires values { HaveValues words.now members.now terms.now }
    ensures { IfOk result (λ v. v ≡ world_of words.now members.now terms.now) }
{
    let mut pairs = Vec::new(alloc);
    for place in terms {
        add_pair(alloc, words, found, members, *place, &mut pairs)?;
    }
    Ok(List::from_vec(pairs))
}
