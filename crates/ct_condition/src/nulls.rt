// The pairs of a world, found by what the words of a log say of their nulls.

ghost use Rattle.std.specs.Prelude.{◌≡◌, ◌+◌, ℕ, List, IfOk, OnOk, Some};
ghost use Rattle.ct_word.specs.WordAt.{backwards};
ghost use Rattle.ct_condition.specs.Nulls.{AreNulls, Grows, HasMark, beginning, longer, pair_with};

use ct_word::{Memory, Null, World};
use indexmap::{IndexMap, IndexSet};
use std::alloc::Global;

/// The nulls of a world.
///
/// A name in the log is a chain of characters. Each beginning of a name of the world has a number, that of the empty one
/// is 0. So a pass over the words finds a name by one step for each of its characters, and reads none as a whole.
#[derive(Drop)]
pub(crate) struct Nulls {
    /// The other beginnings in the order of their numbers: that of the one without the last character, and this character.
    pub(crate) steps: IndexSet<(usize, u32)>,
    /// The number of the first pair with a null, by the mark of the null.
    pub(crate) pairs: IndexMap<(u64, u64), usize>,
}

/// The number of a beginning with one more character; none where no name of the world begins so.
pub(crate) fn longer(nulls: &Nulls, number: usize, character: u32) -> Option<usize>
    ensures { result ≡ longer nulls.now.steps.keys (Some number) character }
{
    // As there are fewer than 2^63 of them, one more is a number, too.
    let _ = nulls.steps.len();
    match nulls.steps.get_index_of(&(number, character)) {
        Some(at) => Some(at + 1),
        None => None,
    }
}

/// The number of the first pair with the null whose name has this number.
pub(crate) fn named(nulls: &Nulls, number: usize) -> Option<usize>
    ensures { result ≡ pair_with nulls.now.pairs.entries 0 number }
{
    nulls.pairs.get(&(0, number as u64)).copied()
}

/// The number of the first pair with the null that a session drew.
pub(crate) fn fresh(nulls: &Nulls, session: u32, number: u32) -> Option<usize>
    ensures { result ≡ pair_with nulls.now.pairs.entries (session + 1) number }
{
    nulls
        .pairs
        .get(&(session as u64 + 1, number as u64))
        .copied()
}

/// The number of a name, whose beginnings are put in where they are not there yet.
fn number(steps: &mut IndexSet<(usize, u32)>, name: &str) -> Result<usize, Memory>
    ensures number { IfOk result (λ k. (cs : List ℕ) × (name.now ≡ backwards cs) × (beginning steps.new.keys cs ≡ Some k)) }
    ensures grows { OnOk result (Grows steps.old.keys steps.new.keys) }
{
    let mut last = 0;
    for character in name.chars() {
        let (at, _) = steps.insert_full((last, character as u32))?;
        // As there are fewer than 2^63 of them, one more is a number, too.
        let _ = steps.len();
        last = at + 1;
    }
    Ok(last)
}

/// The mark of a null: 0 and the number of its name, or its session, one more, and its number there.
fn mark(steps: &mut IndexSet<(usize, u32)>, null: &Null) -> Result<(u64, u64), Memory>
    ensures mark { IfOk result (λ m. HasMark steps.new.keys null.now m) }
    ensures grows { OnOk result (Grows steps.old.keys steps.new.keys) }
{
    match null {
        Null::Named(name) => {
            let number = number(steps, name.as_str())?;
            Ok((0, number as u64))
        }
        Null::Fresh { session, number } => Ok((*session as u64 + 1, *number as u64)),
    }
}

/// The nulls of a world.
pub(crate) fn nulls_of(alloc: Global, world: &World) -> Result<Nulls, Memory>
    ensures { IfOk result (λ all. AreNulls all.steps.keys all.pairs.entries 0 world.now) }
{
    let listed = world.as_slice();
    let mut steps = IndexSet::new(alloc);
    let mut pairs = IndexMap::new(alloc);
    let mut next = listed.len();
    while next > 0 {
        next -= 1;
        let mark = mark(&mut steps, &listed[next].0)?;
        pairs.insert(mark, next)?;
    }
    Ok(Nulls { steps, pairs })
}
