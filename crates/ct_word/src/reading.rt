// What places of a log stand for.

ghost use Rattle.std.specs.Prelude.{◌≡◌, ◌<◌, ◌+◌, ◌*◌, [], length, slice_get, IfOk, IsTrue};
ghost use Rattle.ct_word.specs.declared.kinds.Class.TheVariants as class;
ghost use Rattle.ct_word.specs.WellFormed.{IsWellFormed, is_place_of, fits, Scalar};
ghost use Rattle.ct_word.specs.Reading.{term_at, meanings, as_high, int_of_bits};
ghost use Rattle.ct_word.specs.Constant.{is_constant, is_constant_word};
ghost use Rattle.ct_word.specs.WordAt.{IsWordAt, text_at, backwards};

use crate::kinds::Kind;
use crate::memory::Memory;
use crate::texts::Text;
use crate::values::{Null, Term, Value};
use crate::words::{kind, left, right};
use std::alloc::Global;

/// A word taken apart.
#[derive(Clone, Copy)]
pub struct Word {
    pub kind: Kind,
    pub left: u32,
    pub right: u32,
}

/// The kind and the fields of the word at a place.
pub fn word_at(words: &[u64], place: u32) -> Word
    requires formed { IsWellFormed words.now }
    requires within { place < length words.now }
    ensures { IsWordAt words.now place result }
{
    let word = words[place as usize];
    let Some(kind) = kind(word) else {
        unreachable!()
    };
    Word {
        kind,
        left: left(word),
        right: right(word),
    }
}

/// The text that a place stands for.
///
/// # Errors
/// `Memory` where there is none for the text.
pub fn text_at(alloc: Global, words: &[u64], place: u32) -> Result<Text, Memory>
    requires formed { IsWellFormed words.now }
    requires text { IsTrue (is_place_of words.now class.Text place) }
    ensures { IfOk result (λ t. t ≡ text_at words.now place) }
{
    let mut characters = Vec::new(alloc);
    let mut rest = place;
    loop {
        let word = word_at(words, rest);
        match word.kind {
            Kind::TextCharacter => characters.push(character(word.right))?,
            _ => break,
        }
        rest = word.left;
    }
    spelled(alloc, characters)
}

/// The character with this number.
fn character(number: u32) -> char
    requires { IsTrue (fits [] Scalar number) }
    ensures { result ≡ number }
{
    match char::from_u32(number) {
        Some(character) => character,
        None => unreachable!(),
    }
}

/// The text of these characters, the last one first.
fn spelled(alloc: Global, mut characters: Vec<char>) -> Result<Text, Memory>
    ensures { IfOk result (λ t. t ≡ backwards characters.items) }
{
    let mut text = String::new(alloc);
    while let Some(character) = characters.pop() {
        text.push(character)?;
    }
    Ok(Text::from_string(text))
}

/// The number of a number word, whose left field names the word of its high bits.
fn number(words: &[u64], word: Word) -> i64
    requires formed { IsWellFormed words.now }
    requires high { IsTrue (is_place_of words.now class.High word.left) }
    requires low { word.right < 256 }
    ensures { result ≡ int_of_bits (as_high (slice_get (meanings words.now) word.left) * 256 + word.right) }
{
    let high = word_at(words, word.left);
    let bits = (high.left as u64) * 0x10_0000_0000 + (high.right as u64) * 256 + word.right as u64;
    bits.cast_signed()
}

/// The term that a place stands for.
///
/// # Errors
/// `Memory` where there is none for its text.
pub fn term_at(alloc: Global, words: &[u64], place: u32) -> Result<Term, Memory>
    requires formed { IsWellFormed words.now }
    requires term { IsTrue (is_place_of words.now class.Term place) }
    ensures { IfOk result (λ t. t ≡ term_at words.now place) }
{
    let word = word_at(words, place);
    match word.kind {
        Kind::Number => Ok(Term::Value(Value::Int(number(words, word)))),
        Kind::TextConstant => Ok(Term::Value(Value::Text(text_at(alloc, words, word.left)?))),
        Kind::NamedNull => Ok(Term::Null(Null::Named(text_at(alloc, words, word.left)?))),
        Kind::FreshNull => Ok(Term::Null(Null::Fresh {
            session: word.left,
            number: word.right,
        })),
        Kind::OtherValue => Ok(Term::Value(Value::Other(word.left))),
        Kind::Column => Ok(Term::Column(word.left)),
        _ => unreachable!(),
    }
}

/// Whether a place, which may lie past the words, is one of a constant.
#[tactic(auto, unfolding(crate::specs::Constant::is_constant))]
pub fn is_constant(words: &[u64], place: u32) -> bool
    ensures word { result ≡ is_constant_word (slice_get words.now place) }
    ensures place { result ≡ is_constant words.now place }
{
    match words.get(place as usize) {
        None => false,
        Some(word) => kind(*word).is_some_and(Kind::is_constant),
    }
}
