// The clauses that define conditions by their fields.

ghost use Rattle.std.specs.Prelude.{◌≡◌, ◌<◌, ◌++◌, ◌∷◌, [], ℕ, length, slice_index_or, OnOk, Contains};
ghost use Rattle.std.specs.List.{flat_map};
ghost use Rattle.ct_derivation.specs.declared.steps.Why.TheVariants as why;
ghost use Rattle.ct_cnf.specs.Lists.{AreNumbers, HasNumberedFields, entry, word_entries, definition_entries};

use crate::entries::{Entry, add, no, yes};
use crate::numbers::Numbers;
use ct_derivation::Why;
use ct_word::{Kind, Memory, kind, left, right};
use std::alloc::Global;

/// Adds two clauses that define the condition at p.
fn add_two(
    alloc: Global,
    p: u32,
    first: &[i32],
    second: &[i32],
    entries: &mut Vec<Entry>,
) -> Result<(), Memory>
    ensures { OnOk result (entries.new.items ≡ entries.old.items ++ entry first.now (why.Def p 0) ∷ entry second.now (why.Def p 1) ∷ []) }
{
    add(alloc, entries, first, Why::Def(p, 0))?;
    add(alloc, entries, second, Why::Def(p, 1))
}

/// Adds three clauses that define the condition at p.
fn add_three(
    alloc: Global,
    p: u32,
    first: &[i32],
    second: &[i32],
    third: &[i32],
    entries: &mut Vec<Entry>,
) -> Result<(), Memory>
    ensures { OnOk result (entries.new.items ≡ entries.old.items ++ entry first.now (why.Def p 0) ∷ entry second.now (why.Def p 1) ∷ entry third.now (why.Def p 2) ∷ []) }
{
    add_two(alloc, p, first, second, entries)?;
    add(alloc, entries, third, Why::Def(p, 2))
}

/// Adds the clauses of the condition at p, whose word this is. The variable of an equality is the
/// one after that of its equal word.
#[tactic(auto, unfolding(crate::specs::Lists::equal_entries, crate::specs::Lists::not_entries, crate::specs::Lists::and_entries, crate::specs::Lists::or_entries))]
fn define(
    alloc: Global,
    numbers: &Numbers,
    p: u32,
    word: u64,
    entries: &mut Vec<Entry>,
) -> Result<(), Memory>
    requires numbers { AreNumbers numbers.now }
    requires listed { Contains numbers.now.conditions p }
    requires fields { HasNumberedFields numbers.now word }
    ensures { OnOk result (entries.new.items ≡ entries.old.items ++ word_entries numbers.now p word) }
{
    let node = numbers.node(p);
    let (is, is_not) = (yes(node), no(node));
    let (left, right) = (left(word), right(word));
    match kind(word) {
        Some(Kind::True) => add(alloc, entries, &[is], Why::Def(p, 0)),
        Some(Kind::False) => add(alloc, entries, &[is_not], Why::Def(p, 0)),
        Some(Kind::Equal) => {
            let same = node + 1;
            add_two(alloc, p, &[is_not, yes(same)], &[is, no(same)], entries)
        }
        Some(Kind::Not) => {
            let a = numbers.node(left);
            add_two(alloc, p, &[is_not, no(a)], &[is, yes(a)], entries)
        }
        Some(Kind::And) => {
            let (a, b) = (numbers.node(left), numbers.node(right));
            let both = [is, no(a), no(b)];
            add_three(
                alloc,
                p,
                &[is_not, yes(a)],
                &[is_not, yes(b)],
                &both,
                entries,
            )
        }
        Some(Kind::Or) => {
            let (a, b) = (numbers.node(left), numbers.node(right));
            let either = [is_not, yes(a), yes(b)];
            add_three(alloc, p, &either, &[is, no(a)], &[is, no(b)], entries)
        }
        _ => Ok(()),
    }
}

/// Adds the clauses of all conditions.
#[tactic(auto, unfolding(crate::specs::Lists::definition_entries))]
pub fn add_definitions(
    alloc: Global,
    words: &[u64],
    numbers: &Numbers,
    entries: &mut Vec<Entry>,
) -> Result<(), Memory>
    requires numbers { AreNumbers numbers.now }
    requires within { (p : ℕ) → Contains numbers.now.conditions p → p < length words.now }
    requires fields { (p : ℕ) → Contains numbers.now.conditions p → HasNumberedFields numbers.now (slice_index_or words.now p 0) }
    ensures { OnOk result (entries.new.items ≡ entries.old.items ++ flat_map (definition_entries words.now numbers.now) numbers.now.conditions) }
{
    for p in numbers.conditions.as_slice() {
        define(alloc, numbers, *p, words[*p as usize], entries)?;
    }
    Ok(())
}
