// The decision of a question near a known world.

ghost use Rattle.std.specs.Prelude.{◌≡◌, ◌<◌, ◌^◌, ◌++◌, ℕ, true, false, length, IfOk, IsTrue, Contains};
ghost use Rattle.ct_word.specs.declared.kinds.Class.TheVariants as class;
ghost use Rattle.ct_word.specs.Condition.{holds_at};
ghost use Rattle.ct_word.specs.Reading.{condition_at};
ghost use Rattle.ct_word.specs.Stands.{HasNoColumn};
ghost use Rattle.ct_word.specs.WellFormed.{IsWellFormed, is_place_of};
ghost use Rattle.ct_near.specs.Conjuncts.{AreBeside, AreConjuncts};
ghost use Rattle.ct_decide.specs.Asking.{IsAsking, FoundOf};
ghost use Rattle.ct_decide.specs.Decided.{DecisionNear, IsWholeOrNear};
ghost use Rattle.ct_decide.specs.Part.{AreConditionsBelow, part_of};

use crate::asking::{Aim, Asking, pose};
use crate::deciding::{Decision, decide, search};
use crate::error::DecideError;
use crate::part::{Part, add_clause, blank, define_all, yes};
use crate::ways::{add_ways, ands_above, set_of};
use ct_derivation::{Atom, Why};
use ct_near::{Conjuncts, joined_near, related};
use ct_word::{Memory, World};
use ct_worlds::below;
use std::alloc::{AllocError, Global};

/// Places, and then others.
fn both(alloc: Global, places: &[u32], others: &[u32]) -> Result<Vec<u32>, AllocError>
    ensures { IfOk result (λ ps. ps.items ≡ places.now ++ others.now) }
{
    let mut all = places.to_vec(alloc)?;
    all.extend_from_slice(others)?;
    Ok(all)
}

/// The question whether conditions below the root can hold, and what leads to them: the ANDs that
/// are high go down from the root, and the deep ones from one of these.
fn begin_part(
    alloc: Global,
    words: &[u64],
    aim: Aim,
    asked: &[u32],
    deep: &[u32],
    high: &[u32],
) -> Result<Asking, Memory>
    requires formed { IsWellFormed words.now }
    requires condition { is_place_of words.now class.Cond aim.root ≡ true }
    requires part { aim.whole ≡ false }
    requires asked { AreConditionsBelow words.now aim.root asked.now }
    requires deep { AreConditionsBelow words.now aim.root deep.now }
    requires high { AreConditionsBelow words.now aim.root high.now }
    ensures { IfOk result (λ a. IsAsking words.now aim a) }
{
    let mut part = blank(alloc, words, aim);
    let conditions = below(alloc, words, asked)?;
    define_all(alloc, words, aim, &mut part, conditions.as_slice())?;
    let mut leading = set_of(alloc, asked)?;
    add_ways(alloc, words, aim, &mut part, deep, &mut leading)?;
    add_ways(alloc, words, aim, &mut part, high, &mut leading)?;
    let root = [yes(Atom::Node(aim.root))];
    add_clause(alloc, words, aim, &mut part, &root, Why::Root)?;
    let Part { posed, .. } = part;
    pose(alloc, words, aim, posed)
}

/// The ANDs of the run that the conjuncts end: none where none of these is asked.
fn deep<'a>(conjuncts: &'a Conjuncts, asked: &[u32]) -> &'a [u32]
    ensures { (p : ℕ) → Contains result.now p → Contains conjuncts.now.ands.items p }
{
    if asked.is_empty() {
        return &[];
    }
    conjuncts.ands()
}

/// The decision of the part of a question that is its own conditions and the conjuncts that have
/// to do with them.
fn decide_part(
    alloc: Global,
    words: &[u64],
    root: u32,
    global: u32,
    conjuncts: &Conjuncts,
    own: &[u32],
) -> Result<Decision, Memory>
    requires formed { IsWellFormed words.now }
    requires few { length words.now < 2 ^ 28 }
    requires condition { is_place_of words.now class.Cond root ≡ true }
    requires columns { HasNoColumn words.now root }
    requires conjuncts { AreConjuncts words.now global conjuncts.now }
    requires beside { AreBeside words.now root global own.now }
    ensures { IfOk result (λ d. FoundOf words.now (part_of root) d) }
{
    let aim = Aim { root, whole: false };
    let others = related(alloc, words, conjuncts, own)?;
    let asked = both(alloc, own, others.as_slice())?;
    let mut leaves = set_of(alloc, own)?;
    leaves.insert(global)?;
    let high = ands_above(alloc, words, root, &leaves)?;
    let deep = deep(conjuncts, others.as_slice());
    let asking = begin_part(alloc, words, aim, asked.as_slice(), deep, high.as_slice())?;
    search(alloc, words, aim, asking)
}

/// Whether the condition at `root` holds at some valuation, where the root is a run of ANDs with
/// `global` and `own` as its ends, as `run_beside` gives them, and `global` holds at a known world.
/// Asked are the conditions `own` and those conjuncts of `global` that share a null with one that
/// is asked. A world that is found for these gives the other nulls the values of the known one;
/// where the conditions that are asked don't hold there, the whole is asked. No clause says what is
/// asked. A world is one of the question alone, as `decide` has it, or it differs from the known one
/// only at nulls that `own` reaches through conjuncts of `global`; no clause says which of the two.
/// Each value of the answer is one of the
/// known world, a constant that stands below the root, or `@k` with k below 2^28, and each null one
/// of the known world or one that stands below the root. No null stands twice, where none does in
/// the known world. A derivation is as `decide` has it.
///
/// # Errors
///
/// `Memory` where memory is wanting.
pub fn decide_near(
    alloc: Global,
    words: &[u64],
    root: u32,
    global: u32,
    conjuncts: &Conjuncts,
    own: &[u32],
    world: &World,
) -> Result<Decision, DecideError>
    requires formed { IsWellFormed words.now }
    requires few { length words.now < 2 ^ 28 }
    requires condition { is_place_of words.now class.Cond root ≡ true }
    requires columns { HasNoColumn words.now root }
    requires conjuncts { AreConjuncts words.now global conjuncts.now }
    requires beside { AreBeside words.now root global own.now }
    requires known { IsTrue (holds_at world.now (condition_at words.now global)) }
    ensures decided { IfOk result (λ d. DecisionNear words.now root world.now d) }
    ensures kept { IfOk result (λ d. IsWholeOrNear words.now root global own.now world.now d) }
{
    match decide_part(alloc, words, root, global, conjuncts, own)? {
        Decision::Refuted(derivation) => Ok(Decision::Refuted(derivation)),
        Decision::World(found) => {
            match joined_near(alloc, words, conjuncts, global, own, &found, world)? {
                Some(near) => Ok(Decision::World(near)),
                None => Ok(decide(alloc, words, root)?),
            }
        }
    }
}
