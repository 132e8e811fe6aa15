// A look at all added clauses of a log.

ghost use Rattle.std.specs.Prelude.{◌≡◌, true, ◌≤◌, length, IfOk};
ghost use Rattle.std.specs.List.{list_all};
ghost use Rattle.ct_trail.specs.Literal.{is_clause, LARGEST};
ghost use Rattle.ct_trail.specs.Log.{entry_clause, clauses_in};
ghost use Rattle.ct_trail.specs.Standing.{AddedLook, ScanOf};

use crate::assignment::Truth;
use crate::log::Entry;
use crate::look::{Look, look_at};
use ct_word::Memory;

/// What the added clauses of a log are under an assignment.
#[derive(Clone, Copy)]
pub enum Scan {
    /// Each is true.
    Satisfied,
    /// The clause at this position is false. Which one it is, and that it was added, is no clause of the contract.
    Falsified(u32),
    /// The clause at this position is false but for this open literal. Again no clause says which one it is.
    Unit(u32, i32),
    /// In the first clause that is not true this literal is open, and so is another. The contract says only that it is open.
    Undecided(i32),
}

/// A position of the log as a hint.
///
/// # Errors
/// `Memory` where it is 2^32 or more.
pub fn hint(k: usize) -> Result<u32, Memory>
    ensures { IfOk result (λ h. h ≡ k) }
{
    u32::try_from(k).map_err(|_| Memory)
}

/// A look at an entry; a learned clause is passed over.
fn look_at_added(truths: &[Truth], entry: &Entry) -> Look
    requires vars { length truths.now ≤ LARGEST }
    requires within { is_clause (length truths.now) (entry_clause entry.now) ≡ true }
    ensures { AddedLook truths.now entry.now result }
{
    match entry {
        Entry::Added(clause) => look_at(truths, clause.as_slice()),
        Entry::Learned(_) => Look::Satisfied,
    }
}

/// Looks at the added clauses, up to the first that is not true. They have no variable past `top`.
pub fn scan_added(truths: &[Truth], entries: &[Entry], top: u32) -> Result<Scan, Memory>
    requires vars { length truths.now ≤ LARGEST }
    requires top { top ≤ length truths.now }
    requires within { list_all (is_clause top) (clauses_in entries.now) ≡ true }
    ensures { IfOk result (λ s. ScanOf truths.now entries.now top s) }
{
    for k in 0..entries.len() {
        match look_at_added(truths, &entries[k]) {
            Look::Satisfied => {}
            Look::Falsified => return Ok(Scan::Falsified(hint(k)?)),
            Look::Unit(l) => return Ok(Scan::Unit(hint(k)?, l)),
            Look::Undecided(l) => return Ok(Scan::Undecided(l)),
        }
    }
    Ok(Scan::Satisfied)
}
