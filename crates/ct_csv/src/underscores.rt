// How many underscores the new names of fresh nulls have.

ghost use Rattle.std.specs.Prelude.{◌≡◌, ◌≤◌, ◌+◌, drop, length, Some, IfOk, IsTrue, All};
ghost use Rattle.ct_word.specs.Reading.{term_at};
ghost use Rattle.ct_csv.specs.Underscores.{IsFreeWith};
ghost use Rattle.ct_word.specs.declared.kinds.Class.TheVariants as class;
ghost use Rattle.ct_word.specs.WellFormed.{IsWellFormed, is_place_of};
ghost use Rattle.ct_operators.specs.Terms.{TermOfRows};
ghost use Rattle.ct_csv.specs.Renaming.{IsLeastFree};
ghost use Rattle.ct_csv.specs.Underscores as spec;

use ct_tidy::nulls_below;
use ct_word::{CRow, Memory, Null, Term, term_at};
use std::alloc::Global;

/// The place behind the underscores that stand from a place on.
fn end_of_run(bytes: &[u8], from: usize) -> usize
    requires { from ≤ length bytes.now }
    ensures { result ≡ from + spec.run_of (drop from bytes.now) }
{
    let mut end = from;
    while end < bytes.len() && bytes[end] == b'_' {
        end += 1;
    }
    end
}

/// The least number of underscores from 1 on such that a name does not begin with `n` and so many.
fn free_of_name(name: &str) -> usize
    ensures { result ≡ spec.free_of_name name.now }
{
    let bytes = name.as_bytes();
    if bytes.is_empty() || bytes[0] != b'n' {
        return 1;
    }
    end_of_run(bytes, 1)
}

/// The same of the name of a null, 1 where it has none.
fn free_of(null: &Null) -> usize
    ensures { result ≡ spec.free_of null.now }
{
    match null {
        Null::Named(name) => free_of_name(name.as_str()),
        Null::Fresh { .. } => 1,
    }
}

/// The greatest of a number and those of nulls.
fn free_of_all(nulls: &[Null], from: usize) -> usize
    ensures { result ≡ spec.free_of_all from nulls.now }
{
    let mut free = from;
    for null in nulls {
        free = free.max(free_of(null));
    }
    free
}

/// The greatest of a number and that of a term.
fn free_with_term(alloc: Global, words: &[u64], place: u32, from: usize) -> Result<usize, Memory>
    requires formed { IsWellFormed words.now }
    requires term { IsTrue (is_place_of words.now class.Term place) }
    ensures { IfOk result (λ j. j ≡ spec.free_of_all from (spec.null_in (term_at words.now place))) }
{
    match term_at(alloc, words, place)? {
        Term::Null(null) => Ok(from.max(free_of(&null))),
        _ => Ok(from),
    }
}

/// The greatest of a number and those of the terms at these places.
fn free_with_terms(
    alloc: Global,
    words: &[u64],
    places: &[u32],
    from: usize,
) -> Result<usize, Memory>
    requires formed { IsWellFormed words.now }
    requires terms { All (λ p. IsTrue (is_place_of words.now class.Term p)) places.now }
    ensures { IfOk result (λ j. j ≡ spec.free_of_terms words.now from places.now) }
{
    let mut free = from;
    for place in places {
        free = free_with_term(alloc, words, *place, free)?;
    }
    Ok(free)
}

/// The greatest of a number and those of the nulls below a condition.
fn free_with_condition(
    alloc: Global,
    words: &[u64],
    cond: u32,
    from: usize,
) -> Result<usize, Memory>
    requires formed { IsWellFormed words.now }
    requires cond { IsTrue (is_place_of words.now class.Cond cond) }
    ensures { IfOk result (IsFreeWith words.now cond from) }
{
    let nulls = nulls_below(alloc, words, cond, &[])?;
    Ok(free_of_all(nulls.as_slice(), from))
}

/// Whether a condition is the last one.
fn is_last(last: Option<u32>, cond: u32) -> bool
    ensures { IsTrue result → last ≡ Some cond }
{
    match last {
        Some(place) => place == cond,
        None => false,
    }
}

/// The least number of underscores from 1 on such that no named null of the rows begins with `n` and so many. A condition that
/// a row has as the one before it is gone over once.
pub fn least_free(alloc: Global, words: &[u64], rows: &[CRow]) -> Result<usize, Memory>
    requires formed { IsWellFormed words.now }
    requires conditions { All (λ r. IsTrue (is_place_of words.now class.Cond r.cond)) rows.now }
    requires cells { All (λ r. All (λ p. IsTrue (is_place_of words.now class.Term p)) r.cells) rows.now }
    ensures { IfOk result (λ j. IsLeastFree j (TermOfRows words.now rows.now)) }
{
    let mut free = 1;
    let mut last = None;
    for row in rows {
        if !is_last(last, row.cond) {
            free = free_with_condition(alloc, words, row.cond, free)?;
            last = Some(row.cond);
        }
        free = free_with_terms(alloc, words, row.cells.as_slice(), free)?;
    }
    Ok(free)
}
