// What a worker knows, and its answer to a question.

ghost use Rattle.std.specs.Prelude.{◌≡◌, ◌<◌, ◌^◌, ℕ, List, true, length, All, IfOk, IfSome, OnOk};
ghost use Rattle.ct_word.specs.Condition.{holds_at};
ghost use Rattle.ct_word.specs.Reading.{condition_at};
ghost use Rattle.ct_word.specs.WellFormed.{IsWellFormed};
ghost use Rattle.ct_workers.specs.Known.{AreRight, IsHeld, IsKnown, IsWorker};
ghost use Rattle.ct_workers.specs.Right.{IsQuestion, IsRight};

use crate::asking::{Held, Known, decide_by, decide_whole, place_held, with_conjuncts};
use crate::copies::{copied, copied_world};
use ct_condition::worths;
use ct_decide::{DecideError, Decision};
use ct_word::{Memory, World};
use indexmap::IndexMap;
use std::alloc::Global;

/// A root with its decision.
#[derive(Drop)]
pub struct Answer {
    pub root: u32,
    pub decision: Decision,
}

/// What a worker has found.
#[derive(Drop)]
pub struct Worker {
    /// The first worlds that it found.
    pub worlds: Vec<Known>,
    /// The condition near which it asked last.
    pub held: Option<Held>,
    /// Where its row has the answer to a root.
    pub places: IndexMap<u32, usize>,
}

/// The most worlds that a worker knows. Each has a byte for every word, for which all words are gone over.
const MOST_WORLDS: usize = 2;

/// A worker that has found nothing.
pub fn beginner(alloc: Global) -> Worker
    ensures { (words : List ℕ) → IsWorker words result }
{
    Worker {
        worlds: Vec::new(alloc),
        held: None,
        places: IndexMap::new(alloc),
    }
}

/// The first known world in which the root holds.
fn shown(words: &[u64], worlds: &[Known], root: u32) -> Result<Option<World>, Memory>
    requires question { IsQuestion words.now root }
    requires worlds { All (IsKnown words.now) worlds.now }
    ensures { IfOk result (λ o. IfSome o (λ v. holds_at v (condition_at words.now root) ≡ true)) }
{
    let _ = words;
    for known in worlds {
        if known.worths.holds(root) {
            let world = copied_world(&known.world)?;
            return Ok(Some(world));
        }
    }
    Ok(None)
}

/// The decision that a row has for the root.
fn repeated(
    alloc: Global,
    words: &[u64],
    places: &IndexMap<u32, usize>,
    row: &[Option<Answer>],
    root: u32,
) -> Result<Option<Decision>, Memory>
    requires row { AreRight words.now row.now }
    ensures { IfOk result (λ o. IfSome o (IsRight words.now root)) }
{
    let _ = words;
    let Some(place) = places.get(&root) else {
        return Ok(None);
    };
    match row.get(*place) {
        Some(Some(answer)) if answer.root == root => {
            let decision = copied(alloc, &answer.decision)?;
            Ok(Some(decision))
        }
        _ => Ok(None),
    }
}

/// A decision for which nothing is searched: by a known world, or the one that a row has for the root.
fn known(
    alloc: Global,
    words: &[u64],
    worker: &Worker,
    row: &[Option<Answer>],
    root: u32,
) -> Result<Option<Decision>, Memory>
    requires question { IsQuestion words.now root }
    requires worker { IsWorker words.now worker.now }
    requires row { AreRight words.now row.now }
    ensures { IfOk result (λ o. IfSome o (IsRight words.now root)) }
{
    if let Some(world) = shown(words, worker.worlds.as_slice(), root)? {
        return Ok(Some(Decision::World(world)));
    }
    repeated(alloc, words, &worker.places, row, root)
}

/// The decision of a question, near the newest known world where there is one.
fn searched(
    alloc: Global,
    words: &[u64],
    worlds: &[Known],
    before: &mut Option<Held>,
    root: u32,
) -> Result<Decision, DecideError>
    requires formed { IsWellFormed words.now }
    requires few { length words.now < 2 ^ 28 }
    requires question { IsQuestion words.now root }
    requires worlds { All (IsKnown words.now) worlds.now }
    requires before { IfSome before.old (IsHeld words.now) }
    ensures right { IfOk result (IsRight words.now root) }
    ensures after { IfSome before.new (IsHeld words.now) }
{
    let Some(last) = worlds.last() else {
        return decide_whole(alloc, words, root);
    };
    let Some(place) = place_held(words, last, root) else {
        return decide_whole(alloc, words, root);
    };
    let held = with_conjuncts(alloc, words, before.take(), place)?;
    let decision = decide_by(alloc, words, root, &held, &last.world);
    *before = Some(held);
    decision
}

/// Puts the world of a decision among the known ones, while there is room.
fn learn(
    alloc: Global,
    words: &[u64],
    worlds: &mut Vec<Known>,
    decision: &Decision,
) -> Result<(), Memory>
    requires formed { IsWellFormed words.now }
    requires few { length words.now < 2 ^ 28 }
    requires worlds { All (IsKnown words.now) worlds.old.items }
    ensures { OnOk result (All (IsKnown words.now) worlds.new.items) }
{
    let Decision::World(found) = decision else {
        return Ok(());
    };
    if worlds.len() >= MOST_WORLDS {
        return Ok(());
    }
    let world = copied_world(found)?;
    let worths = worths(alloc, words, &world)?;
    worlds.push(Known { world, worths })?;
    Ok(())
}

/// The decision of a root, and what the worker knows after it, where the row has its answers so far.
///
/// # Errors
/// `Memory` where there is none for the question or for what is kept.
pub fn decision_for(
    alloc: Global,
    words: &[u64],
    worker: &mut Worker,
    row: &[Option<Answer>],
    root: u32,
) -> Result<Decision, DecideError>
    requires formed { IsWellFormed words.now }
    requires few { length words.now < 2 ^ 28 }
    requires question { IsQuestion words.now root }
    requires worker { IsWorker words.now worker.old }
    requires row { AreRight words.now row.now }
    ensures right { IfOk result (IsRight words.now root) }
    ensures worker { OnOk result (IsWorker words.now worker.new) }
{
    if let Some(decision) = known(alloc, words, worker, row, root)? {
        worker.places.insert(root, row.len())?;
        return Ok(decision);
    }
    let worlds = worker.worlds.as_slice();
    let decision = searched(alloc, words, worlds, &mut worker.held, root)?;
    learn(alloc, words, &mut worker.worlds, &decision)?;
    worker.places.insert(root, row.len())?;
    Ok(decision)
}
