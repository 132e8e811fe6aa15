// One row of the possible ones.

ghost use Rattle.std.specs.Prelude.{◌≡◌, ◌≤◌, ◌++◌, length, map, take, All, IfOk, IsTrue, OnOk};
ghost use Rattle.ct_word.specs.declared.kinds.Class.TheVariants as class;
ghost use Rattle.ct_word.specs.Reading.{term_at};
ghost use Rattle.ct_word.specs.WellFormed.{IsWellFormed, is_place_of};
ghost use Rattle.ct_condition.specs.Writes.{Writes};
ghost use Rattle.ct_certain.specs.Answered.{AreOf, IsAnswer, IsPool};
ghost use Rattle.ct_certain.specs.Faults.{is_full};
ghost use Rattle.ct_certain.specs.Own.{IsOwnAnswer};
ghost use Rattle.ct_certain.specs.Possible.{listed};

use crate::error::CertainError;
use crate::pool::{Pool, approach, find, is_never, learn, near_of};
use crate::settling::reach;
use ct_arena::{Arena, Site};
use ct_condition::Interner;
use ct_rewrite::PossibleRow;
use ct_word::{CRow, List, Memory, Term, World, term_at};
use std::alloc::Global;

/// The words that a pass had when it had so many. They stand first, since words only grow.
fn first_words<N: Site, I: Interner<N>>(pass: &I, count: usize) -> &[u64]
    requires { count ≤ length (I.list pass.now) }
    ensures { result.now ≡ take count (I.list pass.now) }
{
    &pass.words()[..count]
}

/// A world that shows a row, if there is one, near the one near which others are made, which is looked for first. One word is
/// made for it at most. The row, and what the pool knows, are of the words that the pass had when it had so many.
fn look_for<N: Site, I: Interner<N>>(
    alloc: Global,
    arena: &Arena<N>,
    pass: &mut I,
    count: usize,
    global: u32,
    pool: &mut Pool,
    row: &CRow,
) -> Result<Option<World>, CertainError>
    requires count { count ≤ length (I.list pass.old) }
    requires asked { AreOf (take count (I.list pass.old)) global row.now }
    requires pool { IsPool (take count (I.list pass.old)) global pool.old }
    ensures answer { IfOk result (λ o. IsAnswer (take count (I.list pass.old)) global row.now o) }
    ensures pool { OnOk result (IsPool (take count (I.list pass.old)) global pool.new) }
    ensures writes { Writes I.list I.made I.kept I.lent N.log.cap pass.old pass.new 1 (is_full result) }
{
    let _ = pass.words();
    approach(alloc, first_words::<N, I>(pass, count), global, pool)?;
    let near = near_of(pool);
    reach(alloc, arena, pass, global, row, near.as_ref())
}

/// What a row needs of a world that shows it, if there is one: a known one, or one that is looked for, and known from then on.
///
/// # Errors
/// `Full` only where the log has as many words as its capacity, `Memory` where memory runs out.
pub fn show<N: Site, I: Interner<N>>(
    alloc: Global,
    arena: &Arena<N>,
    pass: &mut I,
    count: usize,
    global: u32,
    rows: &[CRow],
    pool: &mut Pool,
    row: &CRow,
) -> Result<Option<World>, CertainError>
    requires count { count ≤ length (I.list pass.old) }
    requires asked { AreOf (take count (I.list pass.old)) global row.now }
    requires pool { IsPool (take count (I.list pass.old)) global pool.old }
    ensures answer { IfOk result (λ o. IsOwnAnswer (take count (I.list pass.old)) global row.now o) }
    ensures pool { OnOk result (IsPool (take count (I.list pass.old)) global pool.new) }
    ensures writes { Writes I.list I.made I.kept I.lent N.log.cap pass.old pass.new 1 (is_full result) }
{
    let _ = pass.words();
    if is_never(&pool.never, row) {
        return Ok(None);
    }
    let words = first_words::<N, I>(pass, count);
    if let Some(part) = find(alloc, words, global, rows, pool, row)? {
        return Ok(Some(part));
    }
    match look_for(alloc, arena, pass, count, global, pool, row)? {
        None => {
            pool.never.insert(row.cond)?;
            Ok(None)
        }
        Some(world) => {
            let words = first_words::<N, I>(pass, count);
            learn(alloc, words, global, pool, row.cond, &world)?;
            Ok(Some(world))
        }
    }
}

/// The terms at these places.
fn terms(alloc: Global, words: &[u64], places: &[u32]) -> Result<List<Term>, Memory>
    requires formed { IsWellFormed words.now }
    requires places { All (λ p. IsTrue (is_place_of words.now class.Term p)) places.now }
    ensures { IfOk result (λ ts. ts ≡ map (term_at words.now) places.now) }
{
    let mut terms = Vec::new(alloc);
    for place in places {
        let term = term_at(alloc, words, *place)?;
        terms.push(term)?;
    }
    Ok(List::from_vec(terms))
}

/// Puts the cells of a row last in a list, with the world that was found for it, if one was.
///
/// # Errors
/// `Memory` where memory runs out.
pub fn list_row(
    alloc: Global,
    words: &[u64],
    list: &mut Vec<PossibleRow>,
    row: &CRow,
    found: Option<World>,
) -> Result<(), Memory>
    requires formed { IsWellFormed words.now }
    requires cells { All (λ p. IsTrue (is_place_of words.now class.Term p)) row.now.cells }
    ensures { OnOk result (list.new.items ≡ list.old.items ++ listed words.now row.now found) }
{
    match found {
        None => Ok(()),
        Some(world) => {
            let cells = terms(alloc, words, row.cells.as_slice())?;
            list.push(PossibleRow { cells, world })?;
            Ok(())
        }
    }
}
