// The words of changes, taken apart.

ghost use Rattle.std.specs.Prelude.{IsTrue};
ghost use Rattle.ct_word.specs.declared.kinds.Class.TheVariants as class;
ghost use Rattle.ct_word.specs.WellFormed.{IsWellFormed, is_place_of};
ghost use Rattle.ct_history.specs.Places.{IsBodyOf, IsChangeOf};

use ct_word::{Kind, word_at};

/// A change, by the places of its parts.
#[derive(Clone, Copy)]
pub(crate) enum ChangeWord {
    Create { name: u32, columns: u32 },
    Insert { name: u32, rows: u32 },
    Delete { name: u32, cond: u32 },
    Update { name: u32, sets: u32, cond: u32 },
    Assert { cond: u32 },
}

/// The places of the sets and of the condition of the update whose body stands at a place.
fn update_body(words: &[u64], place: u32) -> (u32, u32)
    requires formed { IsWellFormed words.now }
    requires place { IsTrue (is_place_of words.now class.UpdateBody place) }
    ensures { IsBodyOf words.now place result.0 result.1 }
{
    let word = word_at(words, place);
    (word.left, word.right)
}

/// The parts of the change at a place.
pub(crate) fn change_word(words: &[u64], place: u32) -> ChangeWord
    requires formed { IsWellFormed words.now }
    requires place { IsTrue (is_place_of words.now class.Change place) }
    ensures { IsChangeOf words.now place result }
{
    let word = word_at(words, place);
    match word.kind {
        Kind::Create => ChangeWord::Create {
            name: word.left,
            columns: word.right,
        },
        Kind::Insert => ChangeWord::Insert {
            name: word.left,
            rows: word.right,
        },
        Kind::Delete => ChangeWord::Delete {
            name: word.left,
            cond: word.right,
        },
        Kind::Update => {
            let (sets, cond) = update_body(words, word.right);
            ChangeWord::Update {
                name: word.left,
                sets,
                cond,
            }
        }
        Kind::Assert => ChangeWord::Assert { cond: word.left },
        _ => unreachable!(),
    }
}
