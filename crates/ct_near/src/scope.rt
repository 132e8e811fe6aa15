// What a change near a known world looks at.

ghost use Rattle.std.specs.Prelude.{◌≡◌, ℕ, true, Contains, IfOk};
ghost use Rattle.ct_near.specs.Conjuncts.{AreChosen, AreConjuncts};
ghost use Rattle.ct_near.specs.Near.{IsScope, IsScopeOf};
ghost use Rattle.ct_word.specs.declared.kinds.Class.TheVariants as class;
ghost use Rattle.ct_word.specs.WellFormed.{IsWellFormed, is_place_of};
ghost use Rattle.ct_worlds.specs.Nulls.{AreNulls};

use crate::index::Conjuncts;
use crate::relating::{asked, chosen, uncovered};
use ct_word::Memory;
use ct_worlds::{Nulls, below, nulls_below};
use std::alloc::Global;

/// Conditions with what stands below them.
#[derive(Drop)]
pub(crate) struct Scope {
    /// The places of the conditions.
    pub(crate) conditions: Vec<u32>,
    /// The places of all conditions below them.
    pub(crate) places: Vec<u32>,
    /// The nulls there.
    pub(crate) nulls: Nulls,
}

/// The conjuncts that are asked, and further conditions, with what stands below them.
fn scope_with(
    alloc: Global,
    words: &[u64],
    conjuncts: &Conjuncts,
    is_asked: &[bool],
    own: &[u32],
) -> Result<Scope, Memory>
    requires formed { IsWellFormed words.now }
    requires conjuncts { (p : ℕ) → Contains conjuncts.now.places.items p → is_place_of words.now class.Cond p ≡ true }
    requires own { (p : ℕ) → Contains own.now p → is_place_of words.now class.Cond p ≡ true }
    ensures is { IfOk result (IsScope words.now) }
    ensures chosen { IfOk result (λ s. AreChosen conjuncts.now.places.items is_asked.now own.now s.conditions.items) }
    ensures nulls { IfOk result (λ s. AreNulls words.now s.nulls) }
{
    let conditions = chosen(alloc, conjuncts.places(), is_asked, own)?;
    let places = below(alloc, words, conditions.as_slice())?;
    let nulls = nulls_below(alloc, words, places.as_slice())?;
    Ok(Scope {
        conditions,
        places,
        nulls,
    })
}

/// The scope of further conditions: they, and the conjuncts that share a null with them, or with another such conjunct. Were
/// one of these not asked at first, then it would be asked here.
pub(crate) fn scope_of(
    alloc: Global,
    words: &[u64],
    conjuncts: &Conjuncts,
    root: u32,
    own: &[u32],
) -> Result<Scope, Memory>
    requires formed { IsWellFormed words.now }
    requires conjuncts { AreConjuncts words.now root conjuncts.now }
    requires own { (p : ℕ) → Contains own.now p → is_place_of words.now class.Cond p ≡ true }
    ensures { IfOk result (IsScopeOf words.now root conjuncts.now own.now) }
{
    let mut is_asked = asked(alloc, words, conjuncts, own)?;
    let mut scope = scope_with(alloc, words, conjuncts, is_asked.as_slice(), own)?;
    while let Some(conjunct) = uncovered(&conjuncts.index, is_asked.as_slice(), &scope.nulls) {
        is_asked[conjunct] = true;
        scope = scope_with(alloc, words, conjuncts, is_asked.as_slice(), own)?;
    }
    Ok(scope)
}
