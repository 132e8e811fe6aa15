// The worlds that strike candidates out.

ghost use Rattle.std.specs.Prelude.{◌≡◌, ◌<◌, ◌^◌, length, All, IfOk, OnOk, IsTrue};
ghost use Rattle.ct_word.specs.declared.kinds.Class.TheVariants as class;
ghost use Rattle.ct_word.specs.WellFormed.{IsWellFormed, is_place_of};
ghost use Rattle.ct_operators.specs.Tables.{IsRow};
ghost use Rattle.ct_certain.specs.Missing.{IsSeen, is_in_each};

use crate::tuples::tuples;
use ct_condition::worths;
use ct_tidy::spread;
use ct_word::{CRow, List, Memory, Value, World};
use indexmap::IndexSet;
use std::alloc::Global;

/// The tuples that a table has in one world at which the global condition holds.
#[derive(Drop)]
pub struct Seen {
    pub tuples: IndexSet<List<Value>>,
}

/// The most worlds whose tuples are kept, besides the kept one: each is a set that may be as large as the table. The first
/// two count.
const MOST_WORLDS: usize = 16;

/// Whether a tuple is there in all of these worlds.
pub fn is_everywhere(pool: &[Seen], tuple: &List<Value>) -> bool
    ensures { result ≡ is_in_each pool.now tuple.now }
{
    for seen in pool {
        if !seen.tuples.contains(tuple) {
            return false;
        }
    }
    true
}

/// Keeps the tuples in a world, if the global condition holds there and there is room for one more.
pub fn see(
    alloc: Global,
    words: &[u64],
    global: u32,
    rows: &[CRow],
    world: &World,
    pool: &mut Vec<Seen>,
) -> Result<(), Memory>
    requires formed { IsWellFormed words.now }
    requires small { length words.now < 2 ^ 28 }
    requires global { IsTrue (is_place_of words.now class.Cond global) }
    requires rows { All (λ r. IsRow words.now (length r.cells) r) rows.now }
    requires pool { All (IsSeen words.now global rows.now) pool.old.items }
    ensures { OnOk result (All (IsSeen words.now global rows.now) pool.new.items) }
{
    if pool.len() >= MOST_WORLDS {
        return Ok(());
    }
    let worths = worths(alloc, words, world)?;
    if !worths.holds(global) {
        return Ok(());
    }
    let tuples = tuples(alloc, words, world, &worths, rows)?;
    drop(worths);
    pool.push(Seen { tuples })?;
    Ok(())
}

/// The tuples in worlds that are known before any tuple is asked for, besides the kept one: the one in which each null is
/// `@0`, if the kept one has pairs, and one in which the nulls differ. One in which the global condition fails is left out, and
/// no clause says which are there.
///
/// # Errors
/// `Memory` where memory runs out.
pub fn see_first(
    alloc: Global,
    words: &[u64],
    global: u32,
    rows: &[CRow],
    kept: &World,
) -> Result<Vec<Seen>, Memory>
    requires formed { IsWellFormed words.now }
    requires small { length words.now < 2 ^ 28 }
    requires global { IsTrue (is_place_of words.now class.Cond global) }
    requires rows { All (λ r. IsRow words.now (length r.cells) r) rows.now }
    ensures { IfOk result (λ pool. All (IsSeen words.now global rows.now) pool.items) }
{
    let mut pool = Vec::new(alloc);
    if !kept.as_slice().is_empty() {
        let empty = List::new(alloc);
        see(alloc, words, global, rows, &empty, &mut pool)?;
    }
    let apart = spread(alloc, words, global, rows)?;
    see(alloc, words, global, rows, &apart, &mut pool)?;
    Ok(pool)
}
