// Comparisons in functions of their own, which keeps the tests short to prove.

use std::process::Abort;

/// A number is this one.
pub fn is(rt: &impl Abort, found: u32, wanted: u32) {
    assert_eq!(rt; found, wanted);
}

/// There are so many.
pub fn counts(rt: &impl Abort, found: usize, wanted: usize) {
    assert_eq!(rt; found, wanted);
}

/// A log has these words.
pub fn has_words(rt: &impl Abort, words: &[u64], wanted: &[u64]) {
    assert_eq!(rt; words, wanted);
}
