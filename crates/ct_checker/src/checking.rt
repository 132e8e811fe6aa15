// The check of a derivation.

ghost use Rattle.std.specs.Prelude.{◌≡◌, ◌≤◌, []};
ghost use Rattle.std.specs.List.{list_all};
ghost use Rattle.std.specs.Prelude.{IsTrue};
ghost use Rattle.ct_word.specs.WellFormed.{IsWellFormed};
ghost use Rattle.ct_derivation.specs.Accepts as accepted;
ghost use Rattle.ct_derivation.specs.Truth.{IsRefuted};

use crate::definitions::defines;
use crate::literals::{are_same_members, yes};
use crate::marks::Marks;
use crate::paths::joins;
use crate::places::is_of;
use crate::propagation::follows;
use ct_derivation::{Atom, Derivation, Lit, Step, Why};
use ct_word::Class;

#[tactic(auto, unfolding(ct_derivation::specs::Accepts::fits_lit, ct_derivation::specs::Accepts::fits_atom))]
fn fits(words: &[u64], literal: &Lit) -> bool
    ensures { result ≡ accepted.fits_lit words.now literal.now }
{
    match literal.atom {
        Atom::Node(p) => is_of(words, p, Class::Cond),
        Atom::Same(s, t) => is_of(words, s, Class::Term) && is_of(words, t, Class::Term) && s < t,
    }
}

fn all_fit(words: &[u64], clause: &[Lit]) -> bool
    ensures { result ≡ list_all (accepted.fits_lit words.now) clause.now }
{
    for literal in clause {
        if !fits(words, literal) {
            return false;
        }
    }
    true
}

#[tactic(auto, unfolding(ct_derivation::specs::Accepts::is_right, ct_derivation::specs::Accepts::gives))]
fn is_right(words: &[u64], root: u32, earlier: &[Step], step: &Step, marks: &mut Marks) -> bool
    requires { accepted.width step.now ≤ marks.old.room }
    ensures right { result ≡ accepted.is_right words.now root earlier.now step.now }
    ensures room { marks.new.room ≡ marks.old.room }
{
    let clause = step.clause.as_slice();
    if !all_fit(words, clause) {
        return false;
    }
    match &step.why {
        Why::Root => are_same_members(clause, &[yes(Atom::Node(root))]),
        Why::Def(place, k) => defines(words, *place, *k, clause),
        Why::Path(places) => joins(words, places.as_slice(), clause, marks),
        Why::Rup(hints) => follows(earlier, clause, hints.as_slice(), marks),
    }
}

fn are_right(words: &[u64], root: u32, steps: &[Step], marks: &mut Marks) -> bool
    requires { accepted.widest_of steps.now ≤ marks.old.room }
    ensures right { result ≡ accepted.all_right words.now root [] steps.now }
    ensures room { marks.new.room ≡ marks.old.room }
{
    for (i, step) in steps.iter().enumerate() {
        if !is_right(words, root, &steps[..i], step, marks) {
            return false;
        }
    }
    true
}

fn ends_empty(steps: &[Step]) -> bool
    ensures { result ≡ accepted.ends_empty steps.now }
{
    match steps.last() {
        None => false,
        Some(step) => step.clause.as_slice().is_empty(),
    }
}

fn width(step: &Step) -> usize
    ensures { result ≡ accepted.width step.now }
{
    let hints = match &step.why {
        Why::Rup(hints) => hints.as_slice().len(),
        _ => 0,
    };
    step.clause.as_slice().len() + hints
}

/// The greatest number, over the steps, of a clause's literals and its hints together: the room
/// that `check` needs.
pub fn widest(derivation: &Derivation) -> usize
    ensures { result ≡ accepted.widest derivation.now }
{
    let mut most = 0;
    for step in derivation.steps.as_slice() {
        let wide = width(step);
        if wide > most {
            most = wide;
        }
    }
    most
}

#[tactic(auto, unfolding(ct_derivation::specs::Accepts::accepts))]
fn is_accepted(words: &[u64], root: u32, derivation: &Derivation, marks: &mut Marks) -> bool
    requires { accepted.widest derivation.now ≤ marks.old.room }
    ensures exact { result ≡ accepted.accepts words.now root derivation.now }
    ensures room { marks.new.room ≡ marks.old.room }
{
    let steps = derivation.steps.as_slice();
    is_of(words, root, Class::Cond) && are_right(words, root, steps, marks) && ends_empty(steps)
}

/// Whether a derivation is accepted over the words and the root: each step has the clause that
/// its reason gives after the steps before it, and the last clause is empty. Any root and any
/// derivation may be given. Over well formed words the root of an accepted one is false at every
/// valuation. It takes no memory.
pub fn check(words: &[u64], root: u32, derivation: &Derivation, marks: &mut Marks) -> bool
    requires { accepted.widest derivation.now ≤ marks.old.room }
    ensures exact { result ≡ accepted.accepts words.now root derivation.now }
    ensures refuted { IsWellFormed words.now → IsTrue result → IsRefuted words.now root }
    ensures room { marks.new.room ≡ marks.old.room }
{
    is_accepted(words, root, derivation, marks)
}
