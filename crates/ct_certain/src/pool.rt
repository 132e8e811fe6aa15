// The worlds that are known, each at which the global condition holds.

ghost use Rattle.std.specs.Prelude.{◌≡◌, ◌<◌, ◌^◌, length, All, IfOk, IfSome, OnOk, IsTrue, None, ℕ, List};
ghost use Rattle.ct_word.specs.declared.kinds.Class.TheVariants as class;
ghost use Rattle.ct_word.specs.Stands.{TermBelow};
ghost use Rattle.ct_word.specs.WellFormed.{IsWellFormed, is_place_of};
ghost use Rattle.ct_rewrite.specs.Tidy.{IsTidy};
ghost use Rattle.ct_tidy.specs.Nulls.{AreNullsOf};
ghost use Rattle.ct_certain.specs.Answered.{AreOf, IsAnswer, IsFound, IsKnown, IsNearOwn, IsNever, IsPool};
ghost use Rattle.ct_certain.specs.Own.{IsShownBy};
ghost use Rattle.ct_certain.specs.Possible.{is_shown};

use crate::settling::{Near, make};
use ct_condition::{Worths, worths};
use ct_near::{Conjuncts, conjuncts};
use ct_tidy::{copied, cut, nulls_below, spread, tidy};
use ct_word::{CRow, List, Memory, Null, World};
use indexmap::{IndexMap, IndexSet};
use std::alloc::Global;

/// A world, with what the places of the words are worth there.
#[derive(Drop)]
pub struct Known {
    pub world: World,
    pub worths: Worths,
}

/// What is known of the rows of a table.
#[derive(Drop)]
pub struct Pool {
    /// A world at which the global condition holds, and whose nulls stand below it, if there is one yet. Others are made
    /// near it.
    pub near: Option<Known>,
    /// Further ones at which it holds, in which any row is looked for.
    pub worlds: Vec<Known>,
    /// Those that were found for a row, by its condition. Their nulls stand below that or the global condition.
    pub found: IndexMap<u32, World>,
    /// Conditions of rows that hold at no valuation together with the global one.
    pub never: IndexSet<u32>,
    /// The nulls below the global condition.
    pub nulls: IndexSet<Null>,
    /// The conjuncts of the global condition.
    pub conjuncts: Conjuncts,
    /// The conditions that several rows have; none as long as each row was shown by the world without pairs.
    pub repeated: Option<IndexSet<u32>>,
}

/// The most further worlds in which any row is looked for, one after another. Each has a byte for every word.
const MOST_WORLDS: usize = 2;

/// A world with what the places are worth there, if the global condition holds.
fn weigh(alloc: Global, words: &[u64], global: u32, world: World) -> Result<Option<Known>, Memory>
    requires formed { IsWellFormed words.now }
    requires small { length words.now < 2 ^ 28 }
    requires global { IsTrue (is_place_of words.now class.Cond global) }
    requires tidy { IsTidy world }
    ensures { IfOk result (λ o. IfSome o (λ k. IsKnown words.now global k × (k.world ≡ world))) }
{
    let worths = worths(alloc, words, &world)?;
    if !worths.holds(global) {
        return Ok(None);
    }
    Ok(Some(Known { world, worths }))
}

/// Puts a world among those in which any row is looked for, if the global condition holds there.
fn keep(
    alloc: Global,
    words: &[u64],
    global: u32,
    worlds: &mut Vec<Known>,
    world: World,
) -> Result<(), Memory>
    requires formed { IsWellFormed words.now }
    requires small { length words.now < 2 ^ 28 }
    requires global { IsTrue (is_place_of words.now class.Cond global) }
    requires tidy { IsTidy world }
    requires known { All (IsKnown words.now global) worlds.old.items }
    ensures { OnOk result (All (IsKnown words.now global) worlds.new.items) }
{
    if let Some(known) = weigh(alloc, words, global, world)? {
        worlds.push(known)?;
    }
    Ok(())
}

/// What is known before any row is asked for.
///
/// # Errors
/// `Memory` where memory runs out.
pub fn start(alloc: Global, words: &[u64], global: u32) -> Result<Pool, Memory>
    requires formed { IsWellFormed words.now }
    requires small { length words.now < 2 ^ 28 }
    requires global { IsTrue (is_place_of words.now class.Cond global) }
    ensures { IfOk result (λ pool. IsPool words.now global pool) }
{
    let nulls = nulls_below(alloc, words, global, &[])?;
    let conjuncts = conjuncts(alloc, words, global)?;
    // The world in which each null is `@0`.
    let near = weigh(alloc, words, global, List::new(alloc))?;
    Ok(Pool {
        near,
        worlds: Vec::new(alloc),
        found: IndexMap::new(alloc),
        never: IndexSet::new(alloc),
        nulls,
        conjuncts,
        repeated: None,
    })
}

/// Whether it is known that no world shows a row.
pub fn is_never(never: &IndexSet<u32>, row: &CRow) -> bool
    ensures { (words : List ℕ) (global : ℕ) → All (IsNever words global) never.now.keys → IsTrue result → IsAnswer words global row.now None }
{
    never.contains(&row.cond)
}

/// A world in order at which the global condition may hold: the first known one, or one that is made of that without pairs.
fn first_world(
    alloc: Global,
    words: &[u64],
    global: u32,
    worlds: &[Known],
) -> Result<Option<World>, Memory>
    requires formed { IsWellFormed words.now }
    requires small { length words.now < 2 ^ 28 }
    requires global { IsTrue (is_place_of words.now class.Cond global) }
    requires known { All (IsKnown words.now global) worlds.now }
    ensures { IfOk result (λ o. IfSome o IsTidy) }
{
    let Some(known) = worlds.first() else {
        return make(alloc, words, global);
    };
    let world = copied(&known.world)?;
    Ok(Some(world))
}

/// Looks for a world near which others are made, if there is none yet.
pub fn approach(alloc: Global, words: &[u64], global: u32, pool: &mut Pool) -> Result<(), Memory>
    requires formed { IsWellFormed words.now }
    requires small { length words.now < 2 ^ 28 }
    requires global { IsTrue (is_place_of words.now class.Cond global) }
    requires pool { IsPool words.now global pool.old }
    ensures { OnOk result (IsPool words.now global pool.new) }
{
    if pool.near.is_some() {
        return Ok(());
    }
    let Some(world) = first_world(alloc, words, global, pool.worlds.as_slice())? else {
        return Ok(());
    };
    let none = IndexSet::new(alloc);
    let part = cut(alloc, &world, &pool.nulls, &none)?;
    pool.near = weigh(alloc, words, global, part)?;
    Ok(())
}

/// The world near which others are made, with the conjuncts of the global condition.
pub fn near_of(pool: &Pool) -> Option<Near<'_>>
    ensures { (words : List ℕ) (global : ℕ) → IsPool words global pool.now → IfSome result (IsNearOwn words global) }
{
    let known = pool.near.as_ref()?;
    Some(Near {
        conjuncts: &pool.conjuncts,
        world: &known.world,
    })
}

/// The world near which others are made, where it shows a row. A row needs all of it.
fn shown_near(words: &[u64], global: u32, pool: &Pool, row: &CRow) -> Result<Option<World>, Memory>
    requires asked { AreOf words.now global row.now }
    requires pool { IsPool words.now global pool.now }
    ensures { IfOk result (λ o. IfSome o (IsShownBy words.now global row.now)) }
{
    let _ = words;
    let _ = global;
    match &pool.near {
        Some(near) if near.worths.holds(row.cond) => {
            let world = copied(&near.world)?;
            Ok(Some(world))
        }
        _ => Ok(None),
    }
}

/// The world that was found for the condition of a row. The row needs all of it.
fn noted(words: &[u64], global: u32, pool: &Pool, row: &CRow) -> Result<Option<World>, Memory>
    requires asked { AreOf words.now global row.now }
    requires pool { IsPool words.now global pool.now }
    ensures { IfOk result (λ o. IfSome o (IsShownBy words.now global row.now)) }
{
    let _ = words;
    let _ = global;
    let Some(found) = pool.found.get(&row.cond) else {
        return Ok(None);
    };
    let world = copied(found)?;
    Ok(Some(world))
}

/// The part of a world that the global condition and a row need, of which the nulls of the first are given.
fn own_part(
    alloc: Global,
    words: &[u64],
    global: u32,
    nulls: &IndexSet<Null>,
    row: &CRow,
    world: &World,
) -> Result<World, Memory>
    requires formed { IsWellFormed words.now }
    requires asked { AreOf words.now global row.now }
    requires nulls { AreNullsOf (TermBelow words.now global) nulls.now.keys }
    requires tidy { IsTidy world.now }
    requires shown { IsTrue (is_shown words.now global row.now world.now) }
    ensures { IfOk result (λ part. IsShownBy words.now global row.now part) }
{
    let _ = global;
    let own = nulls_below(alloc, words, row.cond, row.cells.as_slice())?;
    cut(alloc, world, nulls, &own)
}

/// The part that a row needs of a further world that shows it.
fn part_of_one(
    alloc: Global,
    words: &[u64],
    global: u32,
    pool: &Pool,
    row: &CRow,
) -> Result<Option<World>, Memory>
    requires formed { IsWellFormed words.now }
    requires asked { AreOf words.now global row.now }
    requires pool { IsPool words.now global pool.now }
    ensures { IfOk result (λ o. IfSome o (IsShownBy words.now global row.now)) }
{
    for known in &pool.worlds {
        if known.worths.holds(row.cond) {
            let part = own_part(alloc, words, global, &pool.nulls, row, &known.world)?;
            return Ok(Some(part));
        }
    }
    Ok(None)
}

/// What a row needs of a known world that shows it.
fn look(
    alloc: Global,
    words: &[u64],
    global: u32,
    pool: &Pool,
    row: &CRow,
) -> Result<Option<World>, Memory>
    requires formed { IsWellFormed words.now }
    requires asked { AreOf words.now global row.now }
    requires pool { IsPool words.now global pool.now }
    ensures { IfOk result (λ o. IfSome o (IsShownBy words.now global row.now)) }
{
    if let Some(world) = shown_near(words, global, pool, row)? {
        return Ok(Some(world));
    }
    if let Some(world) = noted(words, global, pool, row)? {
        return Ok(Some(world));
    }
    part_of_one(alloc, words, global, pool, row)
}

/// The conditions that several rows have.
fn repeated(alloc: Global, rows: &[CRow]) -> Result<IndexSet<u32>, Memory> {
    let mut seen = IndexSet::new(alloc);
    let mut repeated = IndexSet::new(alloc);
    for row in rows {
        if !seen.insert(row.cond)? {
            repeated.insert(row.cond)?;
        }
    }
    Ok(repeated)
}

/// Puts a world in which the nulls of the table differ into the pool, if the global condition holds there, and notes which
/// conditions several rows have.
fn prepare(
    alloc: Global,
    words: &[u64],
    global: u32,
    rows: &[CRow],
    pool: &mut Pool,
) -> Result<(), Memory>
    requires formed { IsWellFormed words.now }
    requires small { length words.now < 2 ^ 28 }
    requires global { IsTrue (is_place_of words.now class.Cond global) }
    requires pool { IsPool words.now global pool.old }
    ensures { OnOk result (IsPool words.now global pool.new) }
{
    pool.repeated = Some(repeated(alloc, rows)?);
    let apart = spread(alloc, words, global, rows)?;
    let world = tidy(alloc, apart)?;
    keep(alloc, words, global, &mut pool.worlds, world)
}

/// What a row needs of a known world that shows it. The world in which the nulls of the table differ is made for the first
/// row that the one without pairs does not show.
///
/// # Errors
/// `Memory` where memory runs out.
pub fn find(
    alloc: Global,
    words: &[u64],
    global: u32,
    rows: &[CRow],
    pool: &mut Pool,
    row: &CRow,
) -> Result<Option<World>, Memory>
    requires formed { IsWellFormed words.now }
    requires small { length words.now < 2 ^ 28 }
    requires asked { AreOf words.now global row.now }
    requires pool { IsPool words.now global pool.old }
    ensures part { IfOk result (λ o. IfSome o (IsShownBy words.now global row.now)) }
    ensures pool { OnOk result (IsPool words.now global pool.new) }
{
    if let Some(part) = look(alloc, words, global, pool, row)? {
        return Ok(Some(part));
    }
    if pool.repeated.is_some() {
        return Ok(None);
    }
    prepare(alloc, words, global, rows, pool)?;
    look(alloc, words, global, pool, row)
}

/// Whether several rows have a condition.
fn is_repeated(pool: &Pool, cond: u32) -> bool {
    match &pool.repeated {
        Some(repeated) => repeated.contains(&cond),
        None => false,
    }
}

/// Puts a world among those in which any row is looked for, while there is room.
fn keep_too(
    alloc: Global,
    words: &[u64],
    global: u32,
    worlds: &mut Vec<Known>,
    world: &World,
) -> Result<(), Memory>
    requires formed { IsWellFormed words.now }
    requires small { length words.now < 2 ^ 28 }
    requires global { IsTrue (is_place_of words.now class.Cond global) }
    requires tidy { IsTidy world.now }
    requires known { All (IsKnown words.now global) worlds.old.items }
    ensures { OnOk result (All (IsKnown words.now global) worlds.new.items) }
{
    if worlds.len() >= MOST_WORLDS {
        return Ok(());
    }
    let copy = copied(world)?;
    keep(alloc, words, global, worlds, copy)
}

/// Notes a world for the rows under the condition that it was found for, if there are several.
fn note(words: &[u64], global: u32, pool: &mut Pool, cond: u32, world: &World) -> Result<(), Memory>
    requires pool { IsPool words.now global pool.old }
    requires found { IsFound words.now global cond world.now }
    ensures { OnOk result (IsPool words.now global pool.new) }
{
    let _ = words;
    let _ = global;
    if !is_repeated(pool, cond) {
        return Ok(());
    }
    let copy = copied(world)?;
    pool.found.insert(cond, copy)?;
    Ok(())
}

/// Puts a world that was found for a condition into the pool.
///
/// # Errors
/// `Memory` where memory runs out.
pub fn learn(
    alloc: Global,
    words: &[u64],
    global: u32,
    pool: &mut Pool,
    cond: u32,
    world: &World,
) -> Result<(), Memory>
    requires formed { IsWellFormed words.now }
    requires small { length words.now < 2 ^ 28 }
    requires global { IsTrue (is_place_of words.now class.Cond global) }
    requires pool { IsPool words.now global pool.old }
    requires found { IsFound words.now global cond world.now }
    ensures { OnOk result (IsPool words.now global pool.new) }
{
    keep_too(alloc, words, global, &mut pool.worlds, world)?;
    note(words, global, pool, cond, world)
}
