// Which entries of a log a refutation needs.

ghost use Rattle.std.specs.Prelude.{◌≡◌, ◌<◌, IfOk, false, replicate, length};
ghost use Rattle.ct_cut.specs.Marks.{with_marks};
ghost use Rattle.ct_cut.specs.Cut.{entry_hints, all_hints, HaveEarlier, AreNeeded, ranks};

use ct_trail::Entry;
use ct_word::Memory;
use std::alloc::{AllocError, Global};

/// The hints of an entry.
fn hints(entry: &Entry) -> &[u32]
    ensures { result.now ≡ entry_hints entry.now }
{
    match entry {
        Entry::Added(_) => &[],
        Entry::Learned(step) => step.hints.as_slice(),
    }
}

/// Marks the places that hints name.
fn mark_hints(marks: &mut Vec<bool>, hints: &[u32])
    ensures { marks.new.items ≡ with_marks marks.old.items hints.now }
{
    for h in hints {
        let place = *h as usize;
        if place < marks.len() {
            marks[place] = true;
        }
    }
}

/// No marks.
fn unmarked(alloc: Global, count: usize) -> Result<Vec<bool>, AllocError>
    ensures { IfOk result (λ marks. marks.items ≡ replicate count false) }
{
    vec![in alloc; false; count]
}

/// Marks the entries that the last one follows from: one walk from it down, as hints name earlier
/// ones.
pub fn needed(alloc: Global, entries: &[Entry]) -> Result<Vec<bool>, AllocError>
    requires some { 0 < length entries.now }
    requires earlier { HaveEarlier (all_hints entries.now) }
    ensures { IfOk result (λ marks. AreNeeded (all_hints entries.now) 0 marks.items) }
{
    let mut marks = unmarked(alloc, entries.len())?;
    marks[entries.len() - 1] = true;
    for k in (0..entries.len()).rev() {
        if marks[k] {
            mark_hints(&mut marks, hints(&entries[k]));
        }
    }
    Ok(marks)
}

/// For each place how many are marked before it: its number among those that are kept. There are
/// fewer than 2^32 of these, or it is `Memory`.
pub fn numbers(alloc: Global, marks: &[bool]) -> Result<Vec<u32>, Memory>
    ensures { IfOk result (λ v. v.items ≡ ranks 0 marks.now) }
{
    let mut numbers = Vec::new(alloc);
    let mut count: usize = 0;
    for marked in marks {
        numbers.push(u32::try_from(count).map_err(|_| Memory)?)?;
        if *marked {
            count += 1;
        }
    }
    Ok(numbers)
}
