// What tests look for in a whole log.

use ct_arena::{Full, Pass, Site};
use std::alloc::Global;
use std::process::Abort;
use std::test::Fail;

/// A call was answered this place. Comparisons stand in functions of their own, which keeps the tests short to prove.
pub fn has_place(rt: &impl Abort, found: Result<u32, Full>, place: u32) {
    match found {
        Ok(found) => is(rt, found as u64, place as u64),
        Err(Full) => panic!(rt; "the log is full"),
    }
}

/// A number is this one.
pub fn is(rt: &impl Abort, found: u64, wanted: u64) {
    assert_eq!(rt; found, wanted);
}

/// A session has made so many words, and so many commits.
pub fn has_made<N: Site>(rt: &impl Abort, pass: &Pass<N>, words: u32, commits: u32) {
    is(rt, pass.made() as u64, words as u64);
    is(rt, pass.mine() as u64, commits as u64);
}

/// Whether a word stands at a place.
pub fn stands(words: &[u64], place: u32, w: u64) -> bool {
    words.get(place as usize) == Some(&w)
}

/// The place of a word, by a plain search.
pub fn place_of(words: &[u64], w: u64) -> Option<u32> {
    for place in 0..words.len() {
        if words[place] == w {
            return u32::try_from(place).ok();
        }
    }
    None
}

/// The log begins with the words true and false, and has no word twice.
pub fn no_word_twice(rt: &impl Abort, alloc: Global, words: &[u64]) -> Result<(), Fail> {
    assert!(rt; stands(words, 0, 0x0a_0000000_0000000));
    assert!(rt; stands(words, 1, 0x0b_0000000_0000000));
    let mut all = words.to_vec(alloc)?;
    all.sort_unstable();
    for k in 1..all.len() {
        assert!(rt; all[k - 1] < all[k]);
    }
    Ok(())
}
