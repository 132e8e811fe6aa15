// A question near a known world.

ghost use Rattle.std.specs.Prelude.{◌<◌, ◌^◌, ◌≡◌, ℕ, length, IfOk, IfSome, IsTrue};
ghost use Rattle.ct_word.specs.declared.kinds.Class.TheVariants as class;
ghost use Rattle.ct_word.specs.Condition.{holds_at};
ghost use Rattle.ct_word.specs.Reading.{condition_at};
ghost use Rattle.ct_word.specs.WellFormed.{IsWellFormed, is_place_of};
ghost use Rattle.ct_worlds.specs.Shape.{IsEarlier};
ghost use Rattle.ct_near.specs.Conjuncts.{AreBeside, IsAnd};
ghost use Rattle.ct_workers.specs.Known.{HoldsIn, IsHeld, IsKnown};
ghost use Rattle.ct_workers.specs.Right.{IsQuestion, IsRight};

use ct_condition::Worths;
use ct_decide::{DecideError, Decision, decide, decide_near};
use ct_near::{Conjuncts, conjuncts, repaired_near, run_beside};
use ct_word::{Connective, Memory, World};
use ct_worlds::{Shape, shape_at};
use std::alloc::Global;

/// A world with what the places of the words are worth there.
#[derive(Drop)]
pub struct Known {
    pub world: World,
    pub worths: Worths,
}

/// A condition that holds in the last known world, with its conjuncts.
#[derive(Drop)]
pub struct Held {
    pub place: u32,
    pub conjuncts: Conjuncts,
}

/// The two conditions that the And at a place names, if there is one.
fn and_at(words: &[u64], place: u32) -> Option<(u32, u32)>
    requires condition { IsTrue (is_place_of words.now class.Cond place) }
    ensures { IfSome result (λ p. IsAnd words.now place p.0 p.1) }
{
    match shape_at(words, place) {
        Shape::Joined(Connective::And, left, right) => Some((left, right)),
        _ => None,
    }
}

/// The same, whose conditions are earlier ones.
fn parts(words: &[u64], place: u32) -> Option<(u32, u32)>
    requires formed { IsWellFormed words.now }
    requires condition { IsTrue (is_place_of words.now class.Cond place) }
    ensures { IfSome result (λ p. IsEarlier words.now place p.0 × IsEarlier words.now place p.1) }
{
    and_at(words, place)
}

/// Whether one of two conditions holds in a known world, and is not a single one beside an And, in which there may be more.
fn is_held(words: &[u64], known: &Known, one: u32, other: u32) -> bool
    requires known { IsKnown words.now known.now }
    requires one { IsTrue (is_place_of words.now class.Cond one) }
    requires other { IsTrue (is_place_of words.now class.Cond other) }
    ensures { IsTrue result → HoldsIn words.now known.now.world one }
{
    known.worths.holds(one) && (and_at(words, one).is_some() || and_at(words, other).is_none())
}

/// The one of two conditions that is an And, if there is one.
fn lower(words: &[u64], left: u32, right: u32) -> u32
    requires right { IsTrue (is_place_of words.now class.Cond right) }
    ensures { (p : ℕ) → IsEarlier words.now p left → IsEarlier words.now p right → IsEarlier words.now p result }
{
    if and_at(words, right).is_some() {
        right
    } else {
        left
    }
}

/// A condition that holds in a known world, and that the root leads to by ANDs, if there is one on the way down them. In a
/// world that was found for another question about the same assertions, it is mostly the And of these.
pub fn place_held(words: &[u64], known: &Known, root: u32) -> Option<u32>
    requires formed { IsWellFormed words.now }
    requires known { IsKnown words.now known.now }
    requires condition { IsTrue (is_place_of words.now class.Cond root) }
    ensures { IfSome result (HoldsIn words.now known.now.world) }
{
    let mut place = root;
    while let Some((left, right)) = parts(words, place) {
        if is_held(words, known, left, right) {
            return Some(left);
        }
        if is_held(words, known, right, left) {
            return Some(right);
        }
        place = lower(words, left, right);
    }
    None
}

/// A condition with its conjuncts, which are those that are at hand if it is the same one.
pub fn with_conjuncts(
    alloc: Global,
    words: &[u64],
    before: Option<Held>,
    place: u32,
) -> Result<Held, Memory>
    requires formed { IsWellFormed words.now }
    requires condition { IsTrue (is_place_of words.now class.Cond place) }
    requires before { IfSome before (IsHeld words.now) }
    ensures place { IfOk result (λ h. h.place ≡ place) }
    ensures held { IfOk result (IsHeld words.now) }
{
    if let Some(held) = before {
        if held.place == place {
            return Ok(held);
        }
    }
    let conjuncts = conjuncts(alloc, words, place)?;
    Ok(Held { place, conjuncts })
}

/// The decision of a question that leads to a condition that holds in a world, and to others beside it: that world with
/// changes where these are enough.
fn decide_beside(
    alloc: Global,
    words: &[u64],
    root: u32,
    held: &Held,
    own: &[u32],
    world: &World,
) -> Result<Decision, DecideError>
    requires formed { IsWellFormed words.now }
    requires few { length words.now < 2 ^ 28 }
    requires question { IsQuestion words.now root }
    requires held { IsHeld words.now held.now }
    requires beside { AreBeside words.now root held.now.place own.now }
    requires known { IsTrue (holds_at world.now (condition_at words.now held.now.place)) }
    ensures { IfOk result (IsRight words.now root) }
{
    let conjuncts = &held.conjuncts;
    if let Some(near) = repaired_near(alloc, words, conjuncts, held.place, own, world)? {
        return Ok(Decision::World(near));
    }
    decide_near(alloc, words, root, held.place, conjuncts, own, world)
}

/// The decision of a question where a condition holds in a world. Asked is the whole where the root does not lead to that
/// condition.
pub fn decide_by(
    alloc: Global,
    words: &[u64],
    root: u32,
    held: &Held,
    world: &World,
) -> Result<Decision, DecideError>
    requires formed { IsWellFormed words.now }
    requires few { length words.now < 2 ^ 28 }
    requires question { IsQuestion words.now root }
    requires held { IsHeld words.now held.now }
    requires known { IsTrue (holds_at world.now (condition_at words.now held.now.place)) }
    ensures { IfOk result (IsRight words.now root) }
{
    let Some(own) = run_beside(alloc, words, root, held.place)? else {
        return decide_whole(alloc, words, root);
    };
    decide_beside(alloc, words, root, held, own.as_slice(), world)
}

/// The decision of a question of which all is asked.
pub fn decide_whole(alloc: Global, words: &[u64], root: u32) -> Result<Decision, DecideError>
    requires formed { IsWellFormed words.now }
    requires few { length words.now < 2 ^ 28 }
    requires question { IsQuestion words.now root }
    ensures { IfOk result (IsRight words.now root) }
{
    decide(alloc, words, root)
}
