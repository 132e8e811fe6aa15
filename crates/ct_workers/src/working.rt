// The questions of one worker, one after another.

ghost use Rattle.std.specs.Prelude.{◌≡◌, ◌<◌, ◌≤◌, ◌+◌, ◌^◌, length, All, IfOk, OnOk, slice_index_or};
ghost use Rattle.ct_word.specs.WellFormed.{IsWellFormed};
ghost use Rattle.ct_workers.specs.Known.{AreRight, IsRightAnswer, IsWorker};
ghost use Rattle.ct_workers.specs.Right.{IsQuestion};
ghost use Rattle.ct_workers.specs.Rows.{IsRow};

use crate::gates::WorkGate;
use crate::known::{Answer, Worker, beginner, decision_for};
use ct_decide::DecideError;
use std::alloc::Global;

/// The number of the next question of a worker, or one that no question has.
fn next(number: usize, step: usize, count: usize) -> usize
    requires step { 0 < step }
    requires within { number < count }
    ensures further { number < result }
    ensures here { result < count → result ≡ number + step }
    ensures past { count ≤ result → count ≤ number + step }
{
    if step < count - number {
        number + step
    } else {
        count
    }
}

/// The answer to the question of a number, of which the gate is told.
fn told<G: WorkGate>(
    alloc: Global,
    words: &[u64],
    roots: &[u32],
    number: usize,
    worker: &mut Worker,
    row: &[Option<Answer>],
    gate: &G,
) -> Result<Answer, DecideError>
    requires formed { IsWellFormed words.now }
    requires few { length words.now < 2 ^ 28 }
    requires questions { All (IsQuestion words.now) roots.now }
    requires within { number < length roots.now }
    requires worker { IsWorker words.now worker.old }
    requires row { AreRight words.now row.now }
    ensures root { IfOk result (λ a. a.root ≡ slice_index_or roots.now number 0) }
    ensures right { IfOk result (IsRightAnswer words.now) }
    ensures worker { OnOk result (IsWorker words.now worker.new) }
{
    let root = roots[number];
    let question = number.min(u32::MAX as usize) as u32;
    gate.before(question);
    let decision = decision_for(alloc, words, worker, row, root);
    gate.after(question);
    let decision = decision?;
    Ok(Answer { root, decision })
}

/// The answers to the first question of a worker, and to each that is so many further on.
///
/// # Errors
/// `Memory` where there is none for a question or for what is kept. Later questions are not asked then.
pub fn work<G: WorkGate>(
    alloc: Global,
    words: &[u64],
    roots: &[u32],
    first: usize,
    step: usize,
    gate: &G,
) -> Result<Vec<Option<Answer>>, DecideError>
    requires formed { IsWellFormed words.now }
    requires few { length words.now < 2 ^ 28 }
    requires questions { All (IsQuestion words.now) roots.now }
    requires step { 0 < step }
    ensures { IfOk result (λ row. IsRow words.now roots.now step first row.items) }
{
    let mut worker = beginner(alloc);
    let mut row = Vec::new(alloc);
    let mut number = first;
    while number < roots.len() {
        let answer = told(
            alloc,
            words,
            roots,
            number,
            &mut worker,
            row.as_slice(),
            gate,
        )?;
        row.push(Some(answer))?;
        number = next(number, step, roots.len());
    }
    Ok(row)
}
