// Worlds made so that conditions hold.

ghost use Rattle.std.specs.Prelude.{◌≡◌, ◌<◌, ◌^◌, ℕ, true, length, All, IfOk, IfSome, Contains};
ghost use Rattle.std.specs.List.{list_all};
ghost use Rattle.ct_word.specs.declared.kinds.Class.TheVariants as class;
ghost use Rattle.ct_word.specs.Condition.{holds_at};
ghost use Rattle.ct_word.specs.Reading.{condition_at};
ghost use Rattle.ct_word.specs.WellFormed.{IsWellFormed, is_place_of};
ghost use Rattle.ct_worlds.specs.Below.{AreBelow};
ghost use Rattle.ct_worlds.specs.Repaired.{IsChanged, IsRepaired, IsWishBelow};
ghost use Rattle.ct_worlds.specs.Nulls.{AreNullsBelow};
ghost use Rattle.ct_worlds.specs.Truths.{found_in, AreRising};

use crate::drafts::drawn;
use crate::gathering::below;
use crate::holding::{KnownTruths, holds, truths_in};
use crate::nulls::{Nulls, nulls_below};
use crate::wishing::{Wish, wishes};
use ct_word::{Memory, World};
use std::alloc::Global;

/// Whether all these conditions hold, by the truths that are kept.
fn are_true(truths: &KnownTruths<'_>, conditions: &[u32]) -> bool
    requires rising { AreRising truths.now.places.now }
    ensures { result ≡ list_all (found_in truths.now) conditions.now }
{
    for condition in conditions {
        if !holds(truths, *condition) {
            return false;
        }
    }
    true
}

/// Whether conditions hold in a world. The places are those of the conditions below them, and the nulls those below these.
/// It goes over the pairs of the world once.
///
/// # Errors
/// `Memory` where there is none for the conditions, and the pairs of the nulls.
pub fn all_hold(
    alloc: Global,
    words: &[u64],
    conditions: &[u32],
    places: &[u32],
    nulls: &Nulls,
    world: &World,
) -> Result<bool, Memory>
    requires formed { IsWellFormed words.now }
    requires conditions { (c : ℕ) → Contains conditions.now c → is_place_of words.now class.Cond c ≡ true }
    requires places { AreBelow words.now conditions.now places.now }
    requires nulls { AreNullsBelow words.now places.now nulls.now }
    ensures { IfOk result (λ b. b ≡ list_all (λ c. holds_at world.now (condition_at words.now c)) conditions.now) }
{
    let truths = truths_in(alloc, words, places, nulls, world)?;
    Ok(are_true(&truths, conditions))
}

/// The equalities that have to be true or false so that conditions hold, by what holds in a world at present.
fn wishes_in(
    alloc: Global,
    words: &[u64],
    conditions: &[u32],
    places: &[u32],
    nulls: &Nulls,
    world: &World,
) -> Result<Vec<Wish>, Memory>
    requires formed { IsWellFormed words.now }
    requires places { AreBelow words.now conditions.now places.now }
    requires nulls { AreNullsBelow words.now places.now nulls.now }
    ensures { IfOk result (λ ws. All (IsWishBelow words.now conditions.now) ws.items) }
{
    let truths = truths_in(alloc, words, places, nulls, world)?;
    wishes(alloc, words, conditions, places, &truths)
}

/// A world made from another one so that conditions hold, as `repaired` makes it, but that it is not tried whether they do. Each of
/// its values is one of the other world, a constant below the conditions, `@0`, or `@k` for a k from `next` on. The places are those of the conditions below these, and the nulls those below them.
///
/// # Errors
/// `Memory` where there is none for the world and the conditions.
pub fn changed(
    alloc: Global,
    words: &[u64],
    conditions: &[u32],
    places: &[u32],
    nulls: &Nulls,
    world: &World,
    next: u32,
) -> Result<Option<World>, Memory>
    requires formed { IsWellFormed words.now }
    requires places { AreBelow words.now conditions.now places.now }
    requires nulls { AreNullsBelow words.now places.now nulls.now }
    ensures { IfOk result (λ o. IfSome o (IsChanged words.now conditions.now next world.now)) }
{
    let wishes = wishes_in(alloc, words, conditions, places, nulls, world)?;
    drawn(alloc, words, wishes.as_slice(), world, next)
}

/// A world in which conditions hold, made from another one: it gives no null twice, each null is one of the other world or
/// stands below the conditions, and each value is one of the other world, a constant that stands below the conditions, or
/// `@k` with k below 2^28. How it chooses is no clause: it means to choose which equalities have to be true and which false by
/// what holds in the world at present where it can, to give nulls that are to be equal one value, and nulls that are to be
/// different a value `@k` that no other has, where they had one value. It tries no other choice: None does not say that there
/// is no such world.
///
/// # Errors
/// `Memory` where there is none for the world and what stands below the conditions.
pub fn repaired(
    alloc: Global,
    words: &[u64],
    conditions: &[u32],
    world: &World,
) -> Result<Option<World>, Memory>
    requires formed { IsWellFormed words.now }
    requires few { length words.now < 2 ^ 28 }
    requires conditions { (c : ℕ) → Contains conditions.now c → is_place_of words.now class.Cond c ≡ true }
    ensures { IfOk result (λ o. IfSome o (IsRepaired words.now conditions.now world.now)) }
{
    let below = below(alloc, words, conditions)?;
    let places = below.as_slice();
    let nulls = nulls_below(alloc, words, places)?;
    let Some(made) = changed(alloc, words, conditions, places, &nulls, world, 0)? else {
        return Ok(None);
    };
    if !all_hold(alloc, words, conditions, places, &nulls, &made)? {
        return Ok(None);
    }
    Ok(Some(made))
}
