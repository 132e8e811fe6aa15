// Which commit was the last to change what is read.

ghost use Rattle.std.specs.Prelude.{◌≡◌, ◌≢◌, ◌<◌, ◌^◌, ◌++◌, [], List, ℕ, length, take, MatchOption, IsTrue, encode_utf8};
ghost use Rattle.std.specs.List.{list_any};
ghost use Rattle.ct_word.specs.declared.kinds.Class.TheVariants as class;
ghost use Rattle.ct_word.specs.Reading.{change_list_at, commits_of};
ghost use Rattle.ct_word.specs.Value.{same_text};
ghost use Rattle.ct_word.specs.WellFormed.{IsWellFormed, is_place_of, fits, Scalar};
ghost use Rattle.ct_word.specs.WordAt.{text_at};
ghost use Rattle.ct_query.specs.Reads.{writes, last};
ghost use Rattle.ct_history.specs.Places.{change_at};

use crate::items::is_longer;
use crate::words::{ChangeWord, change_word};
use ct_query::Read;
use ct_word::{Kind, word_at};

/// What is left of a text without this character at its end; none where it ends otherwise.
fn without_last(text: &str, number: u32) -> Option<&str>
    requires { IsTrue (fits [] Scalar number) }
    ensures { MatchOption result ((front : List ℕ) → text.now ≢ front ++ encode_utf8 number) (λ front. text.now ≡ front.now ++ encode_utf8 number) }
{
    match char::from_u32(number) {
        Some(character) => text.strip_suffix(character),
        None => unreachable!(),
    }
}

/// Whether a place stands for this text.
fn is_text(words: &[u64], place: u32, text: &str) -> bool
    requires formed { IsWellFormed words.now }
    requires text { IsTrue (is_place_of words.now class.Text place) }
    ensures { result ≡ same_text (text_at words.now place) text.now }
{
    let mut at = place;
    let mut rest = text;
    loop {
        let word = word_at(words, at);
        match word.kind {
            Kind::TextCharacter => match without_last(rest, word.right) {
                Some(front) => rest = front,
                None => return false,
            },
            _ => return rest.is_empty(),
        }
        at = word.left;
    }
}

/// Whether the change at a place writes what is read.
fn change_writes(words: &[u64], place: u32, read: &Read) -> bool
    requires formed { IsWellFormed words.now }
    requires place { IsTrue (is_place_of words.now class.Change place) }
    ensures { result ≡ writes (change_at words.now place) read.now }
{
    match (change_word(words, place), read) {
        (ChangeWord::Assert { .. }, Read::Worlds) => true,
        (ChangeWord::Create { name, .. }, Read::Table(table))
        | (ChangeWord::Insert { name, .. }, Read::Table(table))
        | (ChangeWord::Delete { name, .. }, Read::Table(table))
        | (ChangeWord::Update { name, .. }, Read::Table(table)) => is_text(
            words,
            name,
            table.as_str(),
        ),
        _ => false,
    }
}

/// Whether a change of the list at a place writes what is read.
fn list_writes(words: &[u64], place: u32, read: &Read) -> bool
    requires formed { IsWellFormed words.now }
    requires place { IsTrue (is_place_of words.now class.ChangeList place) }
    ensures { result ≡ list_any (λ x. writes x read.now) (change_list_at words.now place) }
{
    let mut rest = place;
    loop {
        let word = word_at(words, rest);
        if !is_longer(word.kind) {
            return false;
        }
        if change_writes(words, word.right, read) {
            return true;
        }
        rest = word.left;
    }
}

/// The number of the last of the first `upto` commits of a log that changes a table, or, for the
/// worlds, that has an assertion; commits are counted from 1, and 0 means none. Where the log has
/// fewer commits, all are asked. It takes no memory.
pub fn last(words: &[u64], upto: u32, table: &Read) -> u32
    requires formed { IsWellFormed words.now }
    requires short { length words.now < 2 ^ 28 }
    ensures { result ≡ last (take upto (commits_of words.now)) table.now }
{
    let mut seen = 0;
    let mut found = 0;
    for place in 0..words.len() as u32 {
        if seen == upto {
            break;
        }
        let word = word_at(words, place);
        match word.kind {
            Kind::Commit => {
                seen += 1;
                if list_writes(words, word.right, table) {
                    found = seen;
                }
            }
            _ => {}
        }
    }
    found
}
