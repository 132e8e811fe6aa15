// Terms with their classes.

ghost use Rattle.std.specs.Prelude.{◌≡◌, ℕ, List, length, IfOk, IfSome, IfNone};
ghost use Rattle.ct_equality.specs.Members as listed;
ghost use Rattle.ct_equality.specs.Indexed.{AreIndexed, AreClassesAt, classed};
ghost use Rattle.ct_equality.specs.Classes.{IsApart, IsContradiction};

use crate::places::number_at;
use ct_chain::Chain;
use ct_derivation::Atom;
use std::alloc::{AllocError, Global};

/// A term, the term by which its class goes, and a number.
///
/// The constant `@k` has the number k. A null by which its class goes gets a number when all
/// classes are known.
#[derive(Clone, Copy)]
pub struct Member {
    pub place: u32,
    pub class: u32,
    pub number: Option<u32>,
}

/// The term by which a term's class goes.
pub fn class_of(found: &Chain, members: &[Member], place: u32) -> u32
    requires indexed { AreIndexed found.now.words members.now }
    ensures { result ≡ listed.class_of members.now place }
{
    match found.find(place as u64) {
        None => place,
        Some(i) => members[i as usize].class,
    }
}

/// The number of a term.
pub fn number_of(found: &Chain, members: &[Member], place: u32) -> Option<u32>
    requires indexed { AreIndexed found.now.words members.now }
    ensures { result ≡ listed.number_of members.now place }
{
    match found.find(place as u64) {
        None => None,
        Some(i) => members[i as usize].number,
    }
}

/// Each term with its class.
pub fn members(
    alloc: Global,
    words: &[u64],
    places: &[u32],
    classes: &[u32],
) -> Result<Vec<Member>, AllocError>
    requires count { length classes.now ≡ length places.now }
    ensures { (ms : List Member) → AreClassesAt places.now ms classes.now → IfOk result (λ v. v.items ≡ classed words.now ms places.now) }
{
    let mut members = Vec::with_capacity(alloc, places.len())?;
    for i in 0..places.len() {
        members.push(Member {
            place: places[i],
            class: classes[i],
            number: number_at(words, places[i]),
        })?;
    }
    Ok(members)
}

/// A false equality whose terms are in one class.
pub fn contradiction(
    found: &Chain,
    atoms: &[Atom],
    truth: &[bool],
    members: &[Member],
) -> Option<(u32, u32)>
    requires indexed { AreIndexed found.now.words members.now }
    requires truths { length atoms.now ≡ length truth.now }
    ensures none { IfNone result (IsApart atoms.now truth.now (length atoms.now) members.now) }
    ensures some { IfSome result (λ c. IsContradiction atoms.now truth.now members.now c.0 c.1) }
{
    for k in 0..atoms.len() {
        if let Atom::Same(s, t) = atoms[k] {
            if !truth[k] && class_of(found, members, s) == class_of(found, members, t) {
                return Some((s, t));
            }
        }
    }
    None
}
