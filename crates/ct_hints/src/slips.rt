// Keywords that are misspelt.

use crate::grammar::{STARTS, is_comparison_at};
use crate::words::of_word;
use ct_advice::{Part, is_among_at, is_name_at, is_same, is_symbol_at, part_before, word_at};
use ct_lex::{Symbol, Token};
use ct_word::Memory;
use std::alloc::Global;

/// A keyword, and the word that stands where it is meant, one character off.
#[derive(Clone, Copy)]
pub struct Slip<'a> {
    pub word: &'a str,
    pub keyword: &'static str,
}

/// The keywords behind which a name may be read where one of them is misspelt.
const WITHIN: [&str; 8] = [
    "from",
    "where",
    "select",
    "join",
    "inner",
    "union",
    "except",
    "intersect",
];

/// The keywords that may stand behind a comparison.
const BEHIND: [&str; 8] = [
    "and",
    "or",
    "union",
    "except",
    "intersect",
    "where",
    "join",
    "inner",
];

/// How many bytes two texts have in common, from their beginnings on.
fn common(one: &[u8], other: &[u8]) -> usize {
    one.iter()
        .zip(other)
        .take_while(|(a, b)| **a == **b)
        .count()
}

/// How many bytes two texts have in common, from their ends on.
fn common_end(one: &[u8], other: &[u8]) -> usize {
    one.iter()
        .rev()
        .zip(other.iter().rev())
        .take_while(|(a, b)| **a == **b)
        .count()
}

/// Whether the first two bytes of one text are those of the other in turn.
fn is_swapped(one: &[u8], other: &[u8]) -> bool {
    match (one, other) {
        ([a, b, ..], [c, d, ..]) => *a == *d && *b == *c,
        _ => false,
    }
}

/// Whether a word becomes another one by one character that is left out, added or replaced, or by two that change places.
fn is_one_off(word: &str, other: &str) -> bool {
    let (word, other) = (word.as_bytes(), other.as_bytes());
    let (longer, shorter) = (word.len().max(other.len()), word.len().min(other.len()));
    if longer > shorter.saturating_add(1) {
        return false;
    }
    let start = common(word, other);
    let same = start.saturating_add(common_end(word, other));
    if same.saturating_add(1) >= longer {
        return true;
    }
    let (Some(word), Some(other)) = (word.get(start..), other.get(start..)) else {
        return false;
    };
    longer == shorter && same.saturating_add(2) >= longer && is_swapped(word, other)
}

/// The keywords that may be meant at a position within a condition.
fn wanted_in_condition(tokens: &[Token], i: usize) -> &'static [&'static str] {
    let before = i.saturating_sub(1);
    let next = i.saturating_add(1);
    let begins = ["where", "on", "assert", "if", "and", "or", "not"];
    if is_among_at(tokens, before, &begins) || is_symbol_at(tokens, before, Symbol::LeftParen) {
        return if word_at(tokens, next).is_empty() {
            &[]
        } else {
            &["not"]
        };
    }
    let is_term = is_comparison_at(tokens, before)
        || is_comparison_at(tokens, next)
        || is_symbol_at(tokens, next, Symbol::Dot);
    if is_term { &[] } else { &BEHIND }
}

/// The keywords that may be meant at a position.
fn wanted(tokens: &[Token], i: usize) -> &'static [&'static str] {
    match (i, word_at(tokens, 0)) {
        (0, _) => &STARTS,
        (1, "insert") => &["into"],
        (1, "create") => &["table"],
        (1, "delete") => &["from"],
        (2, "update") => &["set"],
        (1, "select") => &["distinct", "from"],
        (1, "possible" | "certain") => &["select"],
        (3, "insert") => &["values", "select"],
        (_, "create") => &[],
        _ if of_word(tokens, i).is_some() => &[],
        _ => match part_before(tokens, i) {
            Part::Condition => wanted_in_condition(tokens, i),
            Part::Before if i > 4 => &["if"],
            _ => &WITHIN,
        },
    }
}

/// Whether a word is a keyword with more behind it, as certainly.
fn goes_on(word: &str, keyword: &str) -> bool {
    keyword.len() > 5 && common(word.as_bytes(), keyword.as_bytes()) == keyword.len()
}

/// The first of these keywords that a word is one character off, or that goes on in it.
fn meant(word: &str, keywords: &[&'static str]) -> Option<&'static str> {
    for keyword in keywords {
        if (is_one_off(word, keyword) || goes_on(word, keyword)) && !is_same(word, keyword) {
            return Some(*keyword);
        }
    }
    None
}

/// The keyword that a name at a position is one character off.
fn slip_at<'a>(alloc: Global, tokens: &'a [Token], i: usize) -> Result<Option<Slip<'a>>, Memory> {
    let word = word_at(tokens, i);
    match meant(word, wanted(tokens, i)) {
        Some(keyword) if is_name_at(alloc, tokens, i)? => Ok(Some(Slip { word, keyword })),
        _ => Ok(None),
    }
}

/// The keyword that is misspelt where reading stopped, at the token at `stop` or by the one before it.
///
/// # Errors
/// `Memory` where there is none for what is looked at.
pub fn find_slip<'a>(
    alloc: Global,
    tokens: &'a [Token],
    stop: usize,
) -> Result<Option<Slip<'a>>, Memory> {
    if let Some(found) = slip_at(alloc, tokens, stop)? {
        return Ok(Some(found));
    }
    match stop.checked_sub(1) {
        Some(before) => slip_at(alloc, tokens, before),
        None => Ok(None),
    }
}
