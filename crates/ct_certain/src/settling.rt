// Questions, and their answers.

ghost use Rattle.std.specs.Prelude.{◌≡◌, ◌<◌, ◌^◌, true, false, length, IfOk, IfSome, IsTrue};
ghost use Rattle.ct_word.specs.declared.kinds.Class.TheVariants as class;
ghost use Rattle.ct_word.specs.Condition.{holds_at};
ghost use Rattle.ct_word.specs.Reading.{condition_at};
ghost use Rattle.ct_word.specs.Stands.{HasNoColumn};
ghost use Rattle.ct_word.specs.WellFormed.{IsWellFormed, is_place_of};
ghost use Rattle.ct_condition.specs.Writes.{Writes};
ghost use Rattle.ct_near.specs.Conjuncts.{AreBeside};
ghost use Rattle.ct_rewrite.specs.Tidy.{IsTidy};
ghost use Rattle.ct_decide.specs.Decided.{DecisionNear, DecisionOf};
ghost use Rattle.ct_certain.specs.Answered.{AreOf, IsAnswer, IsFound, IsNear, IsNearOwn, IsSettled, IsSettledOwn};
ghost use Rattle.ct_certain.specs.Faults.{is_full};

use crate::error::CertainError;
use ct_arena::{Arena, Site};
use ct_condition::{Interner, and};
use ct_decide::{Decision, decide, decide_near};
use ct_near::{Conjuncts, repaired_near, run_beside};
use ct_tidy::tidy;
use ct_word::{CRow, List, Memory, World};
use ct_worlds::repaired;
use std::alloc::Global;

/// A world at which the global condition holds, with the conjuncts of that condition.
#[derive(Drop)]
pub struct Near<'a> {
    pub conjuncts: &'a Conjuncts,
    pub world: &'a World,
}

/// A world at which the condition at a place holds, or a derivation that there is none.
fn settle(alloc: Global, words: &[u64], root: u32) -> Result<Decision, CertainError>
    requires formed { IsWellFormed words.now }
    requires few { length words.now < 2 ^ 28 }
    requires condition { is_place_of words.now class.Cond root ≡ true }
    requires columns { HasNoColumn words.now root }
    ensures decided { IfOk result (λ d. DecisionOf words.now root d) }
    ensures room { is_full result ≡ false }
{
    Ok(decide(alloc, words, root)?)
}

/// The same, where a known world is near: of the conjuncts of the global condition those are asked about first that have to do
/// with the rest of the question. No clause says which. The rest are the places `own`, beside the global condition; there are
/// none where the root does not lead to that condition by ANDs, and the whole is asked.
fn settle_beside(
    alloc: Global,
    words: &[u64],
    root: u32,
    global: u32,
    own: Option<&Vec<u32>>,
    near: &Near<'_>,
) -> Result<Decision, CertainError>
    requires formed { IsWellFormed words.now }
    requires few { length words.now < 2 ^ 28 }
    requires condition { is_place_of words.now class.Cond root ≡ true }
    requires columns { HasNoColumn words.now root }
    requires own { IfSome own (λ o. AreBeside words.now root global o.now.items) }
    requires near { IsNear words.now global near.now }
    ensures decided { IfOk result (λ d. DecisionNear words.now root near.now.world.now d) }
    ensures room { is_full result ≡ false }
{
    let Some(own) = own else {
        return settle(alloc, words, root);
    };
    Ok(decide_near(
        alloc,
        words,
        root,
        global,
        near.conjuncts,
        own.as_slice(),
        near.world,
    )?)
}

/// A world at which the condition at a place holds, by a change of a known one; none where that is not enough.
fn changed(
    alloc: Global,
    words: &[u64],
    root: u32,
    global: u32,
    own: Option<&Vec<u32>>,
    near: &Near<'_>,
) -> Result<Option<World>, Memory>
    requires formed { IsWellFormed words.now }
    requires few { length words.now < 2 ^ 28 }
    requires condition { is_place_of words.now class.Cond root ≡ true }
    requires own { IfSome own (λ o. AreBeside words.now root global o.now.items) }
    requires near { IsNear words.now global near.now }
    ensures { IfOk result (λ o. IfSome o (λ v. holds_at v (condition_at words.now root) ≡ true)) }
{
    let Some(own) = own else {
        return repaired(alloc, words, &[root], near.world);
    };
    repaired_near(
        alloc,
        words,
        near.conjuncts,
        global,
        own.as_slice(),
        near.world,
    )
}

/// A world at which the condition at a place holds, by a change of a near one where that is enough, or a derivation that there
/// is none.
///
/// # Errors
/// `Memory` where memory runs out.
pub fn settle_near(
    alloc: Global,
    words: &[u64],
    root: u32,
    global: u32,
    near: &Near<'_>,
) -> Result<Decision, CertainError>
    requires formed { IsWellFormed words.now }
    requires few { length words.now < 2 ^ 28 }
    requires condition { is_place_of words.now class.Cond root ≡ true }
    requires columns { HasNoColumn words.now root }
    requires near { IsNear words.now global near.now }
    ensures settled { IfOk result (λ d. IsSettled words.now root d) }
    ensures room { is_full result ≡ false }
{
    let own = run_beside(alloc, words, root, global)?;
    if let Some(world) = changed(alloc, words, root, global, own.as_ref(), near)? {
        return Ok(Decision::World(world));
    }
    settle_beside(alloc, words, root, global, own.as_ref(), near)
}

/// A world in order at which the global condition may hold, by a change of the one without pairs; none where that is not
/// enough.
pub fn make(alloc: Global, words: &[u64], global: u32) -> Result<Option<World>, Memory>
    requires formed { IsWellFormed words.now }
    requires few { length words.now < 2 ^ 28 }
    requires global { IsTrue (is_place_of words.now class.Cond global) }
    ensures { IfOk result (λ o. IfSome o IsTidy) }
{
    let empty = List::new(alloc);
    let Some(found) = repaired(alloc, words, &[global], &empty)? else {
        return Ok(None);
    };
    let world = tidy(alloc, found)?;
    Ok(Some(world))
}

/// A world in order at which the global condition holds and a row is shown, by a change of a near one; none where that is not
/// enough, or none is near.
fn change(
    alloc: Global,
    words: &[u64],
    global: u32,
    row: &CRow,
    near: Option<&Near<'_>>,
) -> Result<Option<World>, Memory>
    requires formed { IsWellFormed words.now }
    requires few { length words.now < 2 ^ 28 }
    requires asked { AreOf words.now global row.now }
    requires near { IfSome near (λ n. IsNearOwn words.now global n.now) }
    ensures { IfOk result (λ o. IfSome o (IsFound words.now global row.now.cond)) }
{
    let Some(near) = near else {
        return Ok(None);
    };
    let own = [row.cond];
    let Some(found) = repaired_near(alloc, words, near.conjuncts, global, &own, near.world)? else {
        return Ok(None);
    };
    let world = tidy(alloc, found)?;
    Ok(Some(world))
}

/// A decision near a world, where one is near. Its nulls stand below the question or the global condition.
fn settle_by(
    alloc: Global,
    words: &[u64],
    root: u32,
    global: u32,
    near: Option<&Near<'_>>,
) -> Result<Decision, CertainError>
    requires formed { IsWellFormed words.now }
    requires few { length words.now < 2 ^ 28 }
    requires condition { is_place_of words.now class.Cond root ≡ true }
    requires columns { HasNoColumn words.now root }
    requires near { IfSome near (λ n. IsNearOwn words.now global n.now) }
    ensures settled { IfOk result (λ d. IsSettledOwn words.now root global d) }
    ensures room { is_full result ≡ false }
{
    let Some(near) = near else {
        return settle(alloc, words, root);
    };
    let own = run_beside(alloc, words, root, global)?;
    settle_beside(alloc, words, root, global, own.as_ref(), near)
}

/// A world in order at which the global condition holds and a row is shown, if there is one. One word is made for it at
/// most.
fn ask<N: Site, I: Interner<N>>(
    alloc: Global,
    arena: &Arena<N>,
    pass: &mut I,
    global: u32,
    row: &CRow,
    near: Option<&Near<'_>>,
) -> Result<Option<World>, CertainError>
    requires asked { AreOf (I.list pass.old) global row.now }
    requires near { IfSome near (λ n. IsNearOwn (I.list pass.old) global n.now) }
    ensures answer { IfOk result (λ o. IsAnswer (I.list pass.old) global row.now o) }
    ensures writes { Writes I.list I.made I.kept I.lent N.log.cap pass.old pass.new 1 (is_full result) }
{
    let _ = pass.words();
    let root = and(arena, pass, global, row.cond)?;
    let now = pass.words();
    let decision = settle_by(alloc, now, root, global, near)?;
    match decision {
        Decision::World(found) => {
            let world = tidy(alloc, found)?;
            Ok(Some(world))
        }
        Decision::Refuted(_) => Ok(None),
    }
}

/// A world in order at which the global condition holds and a row is shown, if there is one: by a change of a near one, or by
/// a question. Its nulls stand below the global condition or the row's. One word is made for it at most.
///
/// # Errors
/// `Full` only where the log has as many words as its capacity, `Memory` where memory runs out.
pub fn reach<N: Site, I: Interner<N>>(
    alloc: Global,
    arena: &Arena<N>,
    pass: &mut I,
    global: u32,
    row: &CRow,
    near: Option<&Near<'_>>,
) -> Result<Option<World>, CertainError>
    requires asked { AreOf (I.list pass.old) global row.now }
    requires near { IfSome near (λ n. IsNearOwn (I.list pass.old) global n.now) }
    ensures answer { IfOk result (λ o. IsAnswer (I.list pass.old) global row.now o) }
    ensures writes { Writes I.list I.made I.kept I.lent N.log.cap pass.old pass.new 1 (is_full result) }
{
    if let Some(world) = change(alloc, pass.words(), global, row, near)? {
        return Ok(Some(world));
    }
    ask(alloc, arena, pass, global, row, near)
}
