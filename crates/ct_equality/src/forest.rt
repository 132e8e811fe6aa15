// The classes of terms while they are joined along the true equalities.

ghost use Rattle.std.specs.Prelude.{◌≡◌, ◌<◌, ◌^◌, ℕ, nat_lt, if◌then◌else◌, List, length, true, slice_index_or, set, IfOk, IfSome, IfNone};
ghost use Rattle.ct_equality.specs.declared.classes.Member.{Member};
ghost use Rattle.ct_equality.specs.Terms.{is_among, is_end, is_end_of};
ghost use Rattle.ct_equality.specs.Members as listed;
ghost use Rattle.ct_equality.specs.Joining.{clash_by, joined_by, kept_of, gone_of};
ghost use Rattle.ct_equality.specs.Assigned.{IsClash, are_plain};
ghost use Rattle.ct_equality.specs.Forest.{AreLow, IsWayUp, IsSound, IsForest, IsStep, IsJoining};
ghost use Rattle.ct_equality.specs.Indexed.{AreClassesAt};
ghost use Rattle.ct_chain.specs.Seen.{AreDistinct};

use crate::terms::place_of;
use ct_chain::Chain;
use ct_derivation::Atom;
use ct_word::is_constant;
use std::alloc::{AllocError, Global};

/// The classes of terms, which stand in the order in which they were met.
///
/// Each leads to an earlier one of its class, or is the first of its class and leads to itself.
/// With the first one stands the term by which the class goes.
#[derive(Drop)]
pub struct Forest {
    parents: Vec<u32>,
    chiefs: Vec<u32>,
}

/// Each term alone in its class.
pub fn alone(
    alloc: Global,
    words: &[u64],
    atoms: &[Atom],
    truth: &[bool],
    places: &[u32],
) -> Result<Forest, AllocError>
    requires few { length places.now < 2 ^ 32 }
    requires distinct { AreDistinct places.now }
    ensures { IfOk result (λ f. IsJoining words.now atoms.now truth.now 0 places.now f.parents.items f.chiefs.items) }
{
    let mut parents = Vec::with_capacity(alloc, places.len())?;
    for i in 0..places.len() {
        parents.push(i as u32)?;
    }
    Ok(Forest {
        parents,
        chiefs: places.to_vec(alloc)?,
    })
}

/// The first term of a class. Each term on the way is led to the one after the next.
fn first(parents: &mut [u32], place: u32) -> u32
    requires low { AreLow parents.old }
    requires within { place < length parents.old }
    ensures { IsWayUp parents.old parents.new place result }
{
    let mut at = place;
    while parents[at as usize] != at {
        let next = parents[parents[at as usize] as usize];
        parents[at as usize] = next;
        at = next;
    }
    at
}

/// The first term of a class.
fn find(parents: &mut Vec<u32>, place: u32) -> u32
    requires low { AreLow parents.old.items }
    requires within { place < length parents.old.items }
    ensures { IsWayUp parents.old.items parents.new.items place result }
{
    first(parents.as_mut_slice(), place)
}

/// The first terms of two classes become one, and the class goes by this term.
fn link(forest: &mut Forest, a: u32, b: u32, kept: u32)
    requires sound { IsSound forest.old.parents.items forest.old.chiefs.items }
    requires first { a < length forest.old.parents.items }
    requires second { b < length forest.old.parents.items }
    ensures parents { forest.new.parents.items ≡ set forest.old.parents.items (if nat_lt a b then b else a) (if nat_lt a b then a else b) }
    ensures chiefs { forest.new.chiefs.items ≡ set forest.old.chiefs.items (if nat_lt a b then a else b) kept }
{
    let (low, high) = if a < b { (a, b) } else { (b, a) };
    forest.parents[high as usize] = low;
    forest.chiefs[low as usize] = kept;
}

/// The term by which the joined class of two goes, its constant or otherwise the smaller one, and
/// the other one.
fn preferred(words: &[u64], a: u32, b: u32) -> (u32, u32)
    ensures kept { result.0 ≡ kept_of words.now a b }
    ensures gone { result.1 ≡ gone_of words.now a b }
{
    if is_constant(words, b) || (b < a && !is_constant(words, a)) {
        (b, a)
    } else {
        (a, b)
    }
}

/// Joins the classes of two terms. A class goes by its constant, and otherwise by its least term.
/// Two different constants are not joined but answered.
fn join(words: &[u64], forest: &mut Forest, s: u32, t: u32) -> Option<(u32, u32)>
    requires sound { IsSound forest.old.parents.items forest.old.chiefs.items }
    requires first { s < length forest.old.parents.items }
    requires second { t < length forest.old.parents.items }
    ensures sound { IsSound forest.new.parents.items forest.new.chiefs.items }
    ensures count { length forest.new.parents.items ≡ length forest.old.parents.items }
    ensures step { (us : List ℕ) (ms : List Member) → IsForest us ms forest.old.parents.items forest.old.chiefs.items → IsStep words.now us ms (listed.class_of ms (slice_index_or us s 0)) (listed.class_of ms (slice_index_or us t 0)) result forest.new.parents.items forest.new.chiefs.items }
{
    let first_s = find(&mut forest.parents, s);
    let first_t = find(&mut forest.parents, t);
    let a = forest.chiefs[first_s as usize];
    let b = forest.chiefs[first_t as usize];
    if a == b {
        return None;
    }
    let (kept, gone) = preferred(words, a, b);
    if is_constant(words, gone) {
        return Some((kept, gone));
    }
    link(forest, first_s, first_t, kept);
    None
}

/// Joins the terms of an equality, if it is true.
fn join_by(
    words: &[u64],
    found: &Chain,
    forest: &mut Forest,
    atom: Atom,
    is_true: bool,
) -> Option<(u32, u32)>
    requires sound { IsSound forest.old.parents.items forest.old.chiefs.items }
    requires count { length forest.old.parents.items ≡ length found.now.words }
    requires there { (p : ℕ) → is_end p atom ≡ true → is_among found.now.words p ≡ true }
    ensures sound { IsSound forest.new.parents.items forest.new.chiefs.items }
    ensures clash { (ms : List Member) → IsForest found.now.words ms forest.old.parents.items forest.old.chiefs.items → result ≡ clash_by words.now ms atom is_true }
    ensures joined { (ms : List Member) → IsForest found.now.words ms forest.old.parents.items forest.old.chiefs.items → IsForest found.now.words (joined_by words.now ms atom is_true) forest.new.parents.items forest.new.chiefs.items }
{
    if !is_true {
        return None;
    }
    let Atom::Same(s, t) = atom else {
        return None;
    };
    let i = place_of(found, s);
    let j = place_of(found, t);
    join(words, forest, i, j)
}

/// Joins the terms of the true equalities; two constants that they would bring into one class, if
/// there are any.
pub fn clash(
    words: &[u64],
    found: &Chain,
    atoms: &[Atom],
    truth: &[bool],
    forest: &mut Forest,
) -> Option<(u32, u32)>
    requires truths { length atoms.now ≡ length truth.now }
    requires plain { are_plain words.now atoms.now ≡ true }
    requires all { (p : ℕ) → is_among found.now.words p ≡ is_end_of atoms.now p }
    requires alone { IsJoining words.now atoms.now truth.now 0 found.now.words forest.old.parents.items forest.old.chiefs.items }
    ensures joined { IfNone result (IsJoining words.now atoms.now truth.now (length atoms.now) found.now.words forest.new.parents.items forest.new.chiefs.items) }
    ensures clash { IfSome result (λ c. IsClash words.now atoms.now truth.now c.0 c.1) }
{
    for k in 0..atoms.len() {
        if let Some(clash) = join_by(words, found, forest, atoms[k], truth[k]) {
            return Some(clash);
        }
    }
    None
}

/// For each term the one by which its class goes.
pub fn classes(forest: Forest) -> Vec<u32>
    requires sound { IsSound forest.parents.items forest.chiefs.items }
    ensures { (us : List ℕ) (ms : List Member) → IsForest us ms forest.parents.items forest.chiefs.items → AreClassesAt us ms result.items }
{
    let Forest { parents, chiefs } = forest;
    let mut classes = chiefs;
    for i in 0..classes.len() {
        classes[i] = classes[parents[i] as usize];
    }
    classes
}
