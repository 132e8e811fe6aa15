// Lists of words beside a plain search, and a list of keys.

ghost use Rattle.std.specs.Prelude.{◌≡◌};

use crate::tests::checks::{is, place_of};
use ct_chain::{Chain, KeyChain};
use std::alloc::Global;
use std::process::Abort;
use std::test::Fail;

/// The inverses of the odd numbers by which a word is mixed before its bucket is taken, modulo 2^64.
const FIRST_INVERSE: u64 = 0x96DE_1B17_3F11_9089;

const SECOND_INVERSE: u64 = 0x3196_42B2_D24D_8EC3;

/// How many of the words fall into one bucket.
const CROWD: u64 = 2000;

/// The j-th word that falls into one bucket, however many buckets there are: a bucket is taken from the upper half of
/// the mixed word, and these have the same.
fn crowded(j: u64) -> u64 {
    let mixed = (0x0123_4567_0000_0000 ^ (j & 0xffff)).wrapping_mul(SECOND_INVERSE);
    let mixed = (mixed ^ (mixed >> 32)).wrapping_mul(FIRST_INVERSE);
    mixed ^ (mixed >> 32)
}

/// The k-th word: a square, or else one of the first 2,000, which fall into one bucket, or a part of a number, as a log
/// has them.
fn word(is_square: bool, k: u64) -> u64 {
    if is_square {
        k.wrapping_mul(k)
    } else if k < CROWD {
        crowded(k)
    } else {
        0x0300_0000_0000_0000 ^ (k & 0xfff_ffff)
    }
}

/// Puts the first words into a list, as far as there is room.
fn fill(chain: &mut Chain, squares: bool, room: u32, count: u32)
    requires { chain.old.room ≡ room }
    ensures { chain.new.room ≡ room }
{
    for k in 0..count {
        let w = word(squares, k as u64);
        if chain.words().len() < room as usize && chain.find(w).is_none() {
            chain.push(w);
        }
    }
}

/// A place was found where it was expected, or none was.
fn is_found(rt: &impl Abort, found: Option<u32>, wanted: Option<u32>) {
    assert!(rt; found == wanted);
}

/// A list with this room has the first words, and finds them, and no others, where a plain search does.
fn compare(rt: &impl Abort, chain: &Chain, squares: bool, room: u32, count: u32) {
    is(rt, chain.words().len() as u64, room as u64);
    for k in 0..count {
        let w = word(squares, k as u64);
        let place = (k < room).then_some(k);
        is_found(rt, place_of(chain.words(), w), place);
        is_found(rt, chain.find(w), place);
        if (k as usize) < chain.words().len() {
            is(rt, chain.at(k), w);
        }
    }
    is_found(rt, chain.find(2), None);
    // Words of the same bucket that are not in the list.
    for j in CROWD..2 * CROWD {
        is_found(rt, chain.find(crowded(j)), None);
    }
}

/// A list with this room is filled, and is as it should be.
fn keeps(rt: &impl Abort, alloc: Global, squares: bool, room: u32, count: u32) -> Result<(), Fail> {
    let mut chain = Chain::make(alloc, room)?;
    fill(&mut chain, squares, room, count);
    compare(rt, &chain, squares, room, count);
    is(rt, chain.into_words().as_slice().len() as u64, room as u64);
    Ok(())
}

#[test]
fn words_are_found(rt: HostRuntime) -> Result<(), Fail> {
    for room in [0, 1, 63, 64, 65, 2000] {
        keeps(&rt, rt.alloc(), true, room, 2000)?;
    }
    for room in [0, 1, 63, 64, 65, 20_000] {
        keeps(&rt, rt.alloc(), false, room, 20_000)?;
    }
    Ok(())
}

/// Keys, places from which each is looked for, and its next place from there on.
const NEXT: [(u32, u32, Option<u32>); 8] = [
    (7, 0, Some(0)),
    (7, 1, Some(2)),
    (7, 3, Some(4)),
    (7, 5, None),
    (u32::MAX, 1, Some(1)),
    (u32::MAX, 2, None),
    (4, 0, None),
    (7, u32::MAX, None),
];

/// The key 7 stands at the places 0, 2 and 4, between two other keys.
#[test]
fn places_of_a_key_come_in_order(rt: HostRuntime) -> Result<(), Fail> {
    let mut keys = KeyChain::make(rt.alloc(), 5)?;
    keys.push(7);
    keys.push(u32::MAX);
    keys.push(7);
    keys.push(3);
    keys.push(7);
    for (key, from, place) in NEXT {
        is_found(&rt, keys.next_from(key, from), place);
    }
    Ok(())
}
