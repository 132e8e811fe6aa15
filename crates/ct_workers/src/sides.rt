// Questions that workers decide side by side.

ghost use Rattle.std.specs.Prelude.{◌≡◌, ◌<◌, ◌≤◌, ◌^◌, ℕ, length, map, All, IfOk, Ok, slice_index_or, vec_len};
ghost use Rattle.std.specs.List.{AllZip};
ghost use Rattle.ct_word.specs.WellFormed.{IsWellFormed};
ghost use Rattle.ct_workers.specs.Right.{IsQuestion, IsRight};
ghost use Rattle.ct_workers.specs.Rows.{AreRows, HasWorked};
ghost use Rattle.ct_workers.specs.declared.sides.Slot.{Slot};

use crate::dealing::put_back;
use crate::gates::WorkGate;
use crate::known::Answer;
use crate::working::work;
use ct_decide::{DecideError, Decision};
use ct_word::{List, Memory};
use std::alloc::Global;
use std::thread;
use std::thread::Threads;

/// The answers of one worker, which stay none until it has worked.
#[derive(Drop)]
pub(crate) struct Slot {
    row: Result<Vec<Option<Answer>>, DecideError>,
}

/// A slot for each of so many workers.
///
/// # Errors
/// `Memory` where there is none for them.
fn slots_for(alloc: Global, count: usize) -> Result<Vec<Slot>, Memory>
    ensures { IfOk result (λ slots. vec_len slots ≡ count) }
{
    let mut slots = Vec::new(alloc);
    for _ in 0..count {
        slots.push(Slot {
            row: Ok(Vec::new(alloc)),
        })?;
    }
    Ok(slots)
}

/// Has a worker for each slot decide its questions: one in so many, from the one with the number of the slot on. The step is
/// also the most threads. Each is on a thread of its own where one can be made, and else they work one after another.
fn work_all<R: Threads + Sync, G: WorkGate + Sync>(
    rt: &R,
    alloc: Global,
    words: &[u64],
    roots: &[u32],
    gate: &G,
    step: usize,
    slots: &mut [Slot],
)
    requires formed { IsWellFormed words.now }
    requires few { length words.now < 2 ^ 28 }
    requires questions { All (IsQuestion words.now) roots.now }
    requires step { 0 < step }
    ensures count { length slots.new ≡ length slots.old }
    ensures each { (k : ℕ) (d : Slot) → k < length slots.old → HasWorked words.now roots.now step k (slice_index_or slots.new k d) }
{
    let run = |first: usize, slot: &mut Slot|
        requires { IsWellFormed words.now × (length words.now < 2 ^ 28) × All (IsQuestion words.now) roots.now × (0 < step) }
        ensures { HasWorked words.entry.now roots.entry.now step first slot.new }
    { slot.row = work(alloc, words, roots, first, step, gate) };
    thread::for_each_mut(rt, slots, step, &run);
}

/// The answers of all workers.
///
/// # Errors
/// `Memory` where it was wanting in a worker, or is for the list.
fn rows_of(alloc: Global, slots: Vec<Slot>) -> Result<Vec<Vec<Option<Answer>>>, DecideError>
    ensures { IfOk result (λ rows. map (λ s. s.row) slots.items ≡ map Ok rows.items) }
{
    let mut rows = Vec::new(alloc);
    for slot in slots {
        let Slot { row } = slot;
        rows.push(row?)?;
    }
    Ok(rows)
}

/// The decisions alone.
///
/// # Errors
/// `Memory` where there is none for the list.
fn decisions(alloc: Global, answers: Vec<Answer>) -> Result<List<Decision>, Memory>
    ensures { IfOk result (λ list. list ≡ map (λ a. a.decision) answers.items) }
{
    let mut list = Vec::new(alloc);
    for answer in answers {
        let Answer { decision, .. } = answer;
        list.push(decision)?;
    }
    Ok(List::from_vec(list))
}

/// The decisions of all workers, in the order of their roots.
///
/// # Errors
/// `Memory` where there is none for the lists.
fn decisions_of(
    alloc: Global,
    words: &[u64],
    roots: &[u32],
    rows: Vec<Vec<Option<Answer>>>,
) -> Result<List<Decision>, DecideError>
    requires some { 0 < vec_len rows }
    requires rows { AreRows (λ r. r.items) words.now roots.now (vec_len rows) rows.items }
    ensures { IfOk result (λ list. AllZip (IsRight words.now) roots.now list) }
{
    let _ = words;
    let answers = put_back(alloc, rows, roots.len())?;
    let list = decisions(alloc, answers)?;
    Ok(list)
}

/// A decision for each root, in their order: a world at which it holds, or a derivation that it holds at none. They are made
/// by at most so many workers, from 1 to 16, and by at most as many as there are roots, each on a thread of its own where one
/// can be made. The gate is called round each question, on the worker's thread. Where no thread can be made, one worker is done
/// before the next one begins, so a gate that waits for another question may wait for ever. A worker knows the first
/// two worlds that it found, and answers by one of them where it can, so which right decision a root gets depends on how many
/// workers there are. Each root is the place of a condition below which no column stands. No clause is on the threads.
///
/// # Errors
/// `Memory` where there is none for a question, for what a worker keeps or for the list. A worker asks no further question
/// then.
pub fn decide_all<R: Threads + Sync, G: WorkGate + Sync>(
    rt: &R,
    alloc: Global,
    words: &[u64],
    roots: &[u32],
    workers: u32,
    gate: &G,
) -> Result<List<Decision>, DecideError>
    requires formed { IsWellFormed words.now }
    requires few { length words.now < 2 ^ 28 }
    requires questions { All (IsQuestion words.now) roots.now }
    requires least { 1 ≤ workers }
    requires most { workers ≤ 16 }
    ensures decided { IfOk result (λ list. AllZip (IsRight words.now) roots.now list) }
{
    if roots.is_empty() {
        return Ok(List::new(alloc));
    }
    let count = roots.len().min(workers as usize);
    let mut slots = slots_for(alloc, count)?;
    work_all(rt, alloc, words, roots, gate, count, slots.as_mut_slice());
    let rows = rows_of(alloc, slots)?;
    decisions_of(alloc, words, roots, rows)
}
