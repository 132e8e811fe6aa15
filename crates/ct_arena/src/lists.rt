// Words that one list of the same log has, and another has not yet.

ghost use Rattle.std.specs.Prelude.{◌≡◌, ◌≤◌, length, vec_capacity};
ghost use mathlib.Core.List.{IsPrefix};
ghost use Rattle.ct_word.specs.WellFormed.{IsWellFormed};
ghost use Rattle.ct_arena.specs.Sharing.{longer};

use ct_chain::Chain;

/// Puts the words that a longer list has more at the end of a session's list.
pub fn follow(list: &mut Chain, ahead: &[u64])
    requires room { length ahead.now ≤ list.old.room }
    requires formed { IsWellFormed ahead.now }
    requires longer { IsPrefix list.old.words ahead.now }
    ensures { list.new ≡ record { room = list.old.room; words = ahead.now } }
{
    let from = list.words().len();
    for place in from..ahead.len() {
        list.push(ahead[place]);
    }
}

/// Makes a session's list the longer of itself and another list of the log.
pub fn take_longer(list: &mut Chain, other: &[u64])
    requires room { length other.now ≤ list.old.room }
    requires formed { IsWellFormed other.now }
    requires front { IsPrefix list.old.words (longer other.now list.old.words) }
    ensures room { list.new.room ≡ list.old.room }
    ensures words { list.new.words ≡ longer other.now list.old.words }
{
    if list.words().len() < other.len() {
        follow(list, other);
    }
}

/// Puts the words that a session's list has more at the end of the keeper's.
pub fn note(words: &mut Vec<u64>, ahead: &[u64])
    requires room { length ahead.now ≤ vec_capacity words.old }
    requires longer { IsPrefix words.old.items ahead.now }
    ensures words { words.new.items ≡ ahead.now }
    ensures room { vec_capacity words.new ≡ vec_capacity words.old }
{
    for place in words.len()..ahead.len() {
        words.push_reserved(ahead[place]);
    }
}
