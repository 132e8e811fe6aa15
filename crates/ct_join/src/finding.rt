// Going over the places of keys that may be of one value with another key.

ghost use Rattle.std.specs.Prelude.{◌≡◌, ◌<◌, ◌≤◌, ◌+◌, ◌^◌, [], ◌∷◌, ◌++◌, length, get_or, OnOk};
ghost use Rattle.ct_join.specs.Pairs.{partners};
ghost use Rattle.ct_join.specs.Indexed as spec;
ghost use Rattle.ct_join.specs.Indexed.{IsIndex, IsNext, has_number, is_null, places_from};
ghost use Rattle.ct_join.specs.declared.keys.Key.TheVariants as key;

use crate::keys::Key;
use ct_chain::KeyChain;
use ct_word::Memory;

/// The number that stands for a key in a chain: 0 for a null, which a constant may have too.
pub fn number_of(key: Key) -> u32
    ensures { result ≡ spec.number_of key }
{
    match key {
        Key::Constant(number) => number,
        Key::Null => 0,
    }
}

/// Adds the place of a key that is a null.
pub fn add_null(nulls: &mut Vec<u32>, key: Key, place: u32) -> Result<(), Memory>
    ensures { OnOk result (nulls.new.items ≡ nulls.old.items ++ places_from is_null place (key ∷ [])) }
{
    if let Key::Null = key {
        nulls.push(place)?;
    }
    Ok(())
}

/// The first place at or past `from` with this number; the count of the keys where there is none.
fn number_from(keys: &[Key], numbers: &KeyChain, nulls: &[u32], number: u32, from: u32) -> u32
    requires indexed { IsIndex keys.now numbers.now.keys nulls.now }
    requires within { from ≤ length keys.now }
    ensures { IsNext (has_number number) keys.now from result }
{
    match numbers.next_from(number, from) {
        Some(place) => place,
        None => keys.len() as u32,
    }
}

/// The first place past `place` with this number, where `first` is the first one at or past it.
#[tactic(auto, using(crate::proofs::Walk::next_later))]
fn number_past(
    keys: &[Key],
    numbers: &KeyChain,
    nulls: &[u32],
    number: u32,
    first: u32,
    place: u32,
) -> u32
    requires indexed { IsIndex keys.now numbers.now.keys nulls.now }
    requires within { place < length keys.now }
    requires first { IsNext (has_number number) keys.now place first }
    ensures { IsNext (has_number number) keys.now (place + 1) result }
{
    if first > place {
        return first;
    }
    number_from(keys, numbers, nulls, number, place + 1)
}

/// The number at a place of the list, or another one past its end.
fn null_at(nulls: &[u32], index: usize, end: u32) -> u32
    ensures { result ≡ get_or nulls.now index end }
{
    if index < nulls.len() {
        nulls[index]
    } else {
        end
    }
}

/// Adds the places of a constant and of the nulls, which are two lists in order, as one in order.
#[tactic(auto, using(crate::proofs::Walk::walk_begins))]
pub fn find_constant(
    keys: &[Key],
    numbers: &KeyChain,
    nulls: &[u32],
    number: u32,
    found: &mut Vec<u32>,
) -> Result<(), Memory>
    requires indexed { IsIndex keys.now numbers.now.keys nulls.now }
    ensures { OnOk result (found.new.items ≡ found.old.items ++ partners (key.Constant number) keys.now) }
{
    let end = keys.len() as u32;
    let mut constant = number_from(keys, numbers, nulls, number, 0);
    let mut index = 0;
    let mut at = 0;
    while at < end {
        let null = null_at(nulls, index, end);
        let place = constant.min(null);
        if place == end {
            return Ok(());
        }
        found.push(place)?;
        constant = number_past(keys, numbers, nulls, number, constant, place);
        if null == place {
            index += 1;
        }
        at = place + 1;
    }
    Ok(())
}

/// Adds all places.
pub fn find_all(keys: &[Key], found: &mut Vec<u32>) -> Result<(), Memory>
    requires few { length keys.now < 2 ^ 32 }
    ensures { OnOk result (found.new.items ≡ found.old.items ++ partners key.Null keys.now) }
{
    for place in 0..keys.len() as u32 {
        found.push(place)?;
    }
    Ok(())
}
