// The items of a list in the log.

ghost use Rattle.std.specs.Prelude.{◌≡◌, IfOk, IsTrue};
ghost use Rattle.ct_word.specs.WellFormed.{IsWellFormed};
ghost use Rattle.ct_history.specs.Items.{AreItems, is_longer, is_place_of_list};

use ct_word::{Kind, Memory, word_at};
use std::alloc::Global;

/// Whether a word of this kind puts one more item behind a list.
pub(crate) fn is_longer(kind: Kind) -> bool
    ensures { result ≡ is_longer kind }
{
    matches!(
        kind,
        Kind::RowCell | Kind::Rows | Kind::Names | Kind::Sets | Kind::Changes
    )
}

/// The places of the items of a list of cells, rows, names, sets or changes, in order.
pub(crate) fn items(alloc: Global, words: &[u64], place: u32) -> Result<Vec<u32>, Memory>
    requires formed { IsWellFormed words.now }
    requires list { IsTrue (is_place_of_list words.now place) }
    ensures { IfOk result (λ v. AreItems words.now place v.items) }
{
    let mut items = Vec::new(alloc);
    let mut rest = place;
    loop {
        let word = word_at(words, rest);
        if !is_longer(word.kind) {
            break;
        }
        items.push(word.right)?;
        rest = word.left;
    }
    items.reverse();
    Ok(items)
}
