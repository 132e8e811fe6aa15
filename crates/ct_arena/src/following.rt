// Reading on in the shared log, and putting words at its end.

ghost use Rattle.std.specs.Prelude.{◌≡◌, ◌+◌, ◌<◌, ◌≤◌, ◌^◌, ◌↔◌, ◌⊎◌, [], true, length, if◌then◌else◌, Some, IfOk, OnErr, IsOk, IsErr, slice_get, vec_capacity, Contains};
ghost use mathlib.Core.List.{IsPrefix};
ghost use Rattle.ct_word.specs.Reading.{commits_of};
ghost use Rattle.ct_word.specs.WellFormed.{is_commit_word};
ghost use Rattle.ct_arena.specs.Counts.{IsLog};
ghost use Rattle.ct_arena.specs.Own.{IsOwn, IsWhole, IsNextWord, IsOutcome, with_seen, with_guest};

use crate::full::Full;
use crate::sharing::{Token, Words, exchange, look, read};
use crate::tally::Tally;
use ct_chain::Chain;

/// Reads on to the end of the log.
pub fn read_on(words: &Words, cap: u32, token: &mut Token, seen: &mut Chain)
    requires table { token.old.table_id ≡ words.now.shared.table_id }
    requires room { words.now.shared.table_id.words ≡ words.now.shared.key }
    requires cap { cap ≡ words.now.shared.key }
    requires some { 0 < cap }
    requires chain { seen.old.room ≡ cap }
    requires seat { token.old.me ≡ (with_seen token.old.me.0 seen.old.words, []) }
    requires log { IsLog cap seen.old.words }
    ensures table { token.new.table_id ≡ token.old.table_id }
    ensures chain { seen.new.room ≡ cap }
    ensures seat { token.new.me ≡ (with_seen token.old.me.0 seen.new.words, []) }
    ensures longer { IsPrefix seen.old.words seen.new.words }
    ensures log { IsLog cap seen.new.words }
    ensures own { (t : Tally) → token.old.me.0.guest ≡ Some t → IsOwn cap t seen.old.words → IsOwn cap t seen.new.words }
    ensures commits { token.old.me.0.keeps ≡ true → commits_of seen.new.words ≡ commits_of seen.old.words }
    ensures whole { token.old.me.0.keeps ≡ true → token.old.me.0.room ≡ cap → IsWhole token.old.me.0 seen.new.words }
{
    for place in seen.words().len() as u32..cap {
        let found = read(words, token, place as usize);
        if found == 0 {
            return;
        }
        seen.push(found);
    }
    look(words, token);
}

/// Reads on to the end of the log, into a plain list.
pub fn read_rest(words: &Words, cap: u32, token: &mut Token, seen: &mut Vec<u64>)
    requires table { token.old.table_id ≡ words.now.shared.table_id }
    requires room { words.now.shared.table_id.words ≡ words.now.shared.key }
    requires cap { cap ≡ words.now.shared.key }
    requires some { 0 < cap }
    requires list { cap ≤ vec_capacity seen.old }
    requires seat { token.old.me ≡ (with_seen token.old.me.0 seen.old.items, []) }
    requires log { IsLog cap seen.old.items }
    ensures longer { IsPrefix seen.old.items seen.new.items }
    ensures log { IsLog cap seen.new.items }
    ensures commits { token.old.me.0.keeps ≡ true → commits_of seen.new.items ≡ commits_of seen.old.items }
    ensures whole { token.old.me.0.keeps ≡ true → token.old.me.0.room ≡ cap → IsWhole token.old.me.0 seen.new.items }
{
    for place in seen.len() as u32..cap {
        let found = read(words, token, place as usize);
        if found == 0 {
            return;
        }
        seen.push_reserved(found);
    }
    look(words, token);
}

/// The place of a word, which is put at the end of the log and counted where it does not stand there.
pub fn put(
    words: &Words,
    cap: u32,
    token: &mut Token,
    seen: &mut Chain,
    tally: &mut Tally,
    commits: u32,
    w: u64,
) -> Result<u32, Full>
    requires table { token.old.table_id ≡ words.now.shared.table_id }
    requires room { words.now.shared.table_id.words ≡ words.now.shared.key }
    requires cap { cap ≡ words.now.shared.key }
    requires small { cap < 2 ^ 28 }
    requires chain { seen.old.room ≡ cap }
    requires seat { token.old.me ≡ (with_seen (with_guest token.old.me.0 tally.old) seen.old.words, []) }
    requires own { IsOwn cap tally.old seen.old.words }
    requires next { IsNextWord token.old.me.0.keeps tally.old seen.old.words w }
    requires commits { commits ≡ (if is_commit_word w then 1 else 0) }
    requires number { tally.old.mine + commits < 2 ^ 32 }
    ensures table { token.new.table_id ≡ token.old.table_id }
    ensures chain { seen.new.room ≡ cap }
    ensures seat { token.new.me ≡ (with_seen (with_guest token.old.me.0 tally.new) seen.new.words, []) }
    ensures own { IsOwn cap tally.new seen.new.words }
    ensures outcome { IsOutcome token.old.me.0.keeps tally.old tally.new seen.old.words seen.new.words w }
    ensures stands { IfOk result (λ place. slice_get seen.new.words place ≡ Some w) }
    ensures known { Contains seen.old.words w → IsOk result × (seen.new ≡ seen.old) × (tally.new ≡ tally.old) }
    ensures full { IsErr result ↔ ((length seen.new.words ≡ cap) × ¬ Contains seen.new.words w) }
    ensures err { OnErr result (tally.new ≡ tally.old) }
    ensures last { IfOk result (λ place. (tally.new ≡ tally.old) ⊎ (length seen.new.words ≡ place + 1)) }
{
    if let Some(place) = seen.find(w) {
        return Ok(place);
    }
    for place in seen.words().len() as u32..cap {
        let found = exchange(words, token, place as usize, w);
        if found == 0 {
            seen.push(w);
            tally.made += 1;
            tally.mine += commits;
            return Ok(place);
        }
        seen.push(found);
        if found == w {
            return Ok(place);
        }
    }
    Err(Full)
}
