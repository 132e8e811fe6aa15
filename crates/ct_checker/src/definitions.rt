// The clauses that define a condition.

ghost use Rattle.std.specs.Prelude.{◌≡◌, slice_get};
ghost use Rattle.ct_derivation.specs.Definition.{defining, definition};
ghost use Rattle.ct_derivation.specs.Accepts.{is_clause};

use crate::literals::{are_same_members, no, yes};
use ct_derivation::{Atom, Lit};
use ct_word::{Kind, kind, left, right};

/// Whether the clause is clause k of a condition at p with the fields a and b.
fn is_defining(kind: Option<Kind>, k: u8, p: u32, a: u32, b: u32, clause: &[Lit]) -> bool
    ensures { result ≡ is_clause (defining kind k p a b) clause.now }
{
    let node = Atom::Node(p);
    let left = Atom::Node(a);
    let right = Atom::Node(b);
    let pair = Atom::Same(a, b);
    match (kind, k) {
        (Some(Kind::True), 0) => are_same_members(clause, &[yes(node)]),
        (Some(Kind::False), 0) => are_same_members(clause, &[no(node)]),
        (Some(Kind::Equal), 0) => are_same_members(clause, &[no(node), yes(pair)]),
        (Some(Kind::Equal), 1) => are_same_members(clause, &[yes(node), no(pair)]),
        (Some(Kind::Not), 0) => are_same_members(clause, &[no(node), no(left)]),
        (Some(Kind::Not), 1) => are_same_members(clause, &[yes(node), yes(left)]),
        (Some(Kind::And), 0) => are_same_members(clause, &[no(node), yes(left)]),
        (Some(Kind::And), 1) => are_same_members(clause, &[no(node), yes(right)]),
        (Some(Kind::And), 2) => are_same_members(clause, &[yes(node), no(left), no(right)]),
        (Some(Kind::Or), 0) => are_same_members(clause, &[no(node), yes(left), yes(right)]),
        (Some(Kind::Or), 1) => are_same_members(clause, &[yes(node), no(left)]),
        (Some(Kind::Or), 2) => are_same_members(clause, &[yes(node), no(right)]),
        _ => false,
    }
}

/// Whether the clause is clause k of the condition at a place, which may lie past the words.
pub fn defines(words: &[u64], place: u32, k: u8, clause: &[Lit]) -> bool
    ensures { result ≡ is_clause (definition (slice_get words.now place) place k) clause.now }
{
    match words.get(place as usize) {
        None => false,
        Some(word) => is_defining(kind(*word), k, place, left(*word), right(*word), clause),
    }
}
