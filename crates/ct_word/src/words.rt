// Packing words, and reading their kinds and fields.

ghost use Rattle.std.specs.Prelude.{◌≡◌, ℕ, ◌^◌, ◌<◌, Some, slice_get};
ghost use Rattle.ct_word.specs.Word.{code_of, word_of, kind_of, left_of, right_of};
ghost use Rattle.ct_word.specs.WellFormed.{class_of};

use crate::kinds::{Class, Kind};

/// All kinds, in the order of their codes, which begin at 1.
const KINDS: [Kind; 34] = [
    Kind::TextEnd,
    Kind::TextCharacter,
    Kind::NumberHigh,
    Kind::Number,
    Kind::TextConstant,
    Kind::NamedNull,
    Kind::FreshNull,
    Kind::OtherValue,
    Kind::Column,
    Kind::True,
    Kind::False,
    Kind::Equal,
    Kind::Not,
    Kind::And,
    Kind::Or,
    Kind::RowEnd,
    Kind::RowCell,
    Kind::ConditionalRow,
    Kind::RowsEnd,
    Kind::Rows,
    Kind::NamesEnd,
    Kind::Names,
    Kind::Create,
    Kind::Insert,
    Kind::Delete,
    Kind::Assert,
    Kind::ChangesEnd,
    Kind::Changes,
    Kind::Commit,
    Kind::Set,
    Kind::SetsEnd,
    Kind::Sets,
    Kind::UpdateBody,
    Kind::Update,
];

/// The number of a kind, from 1 to 34.
fn code(kind: Kind) -> u64
    ensures { result ≡ code_of kind }
{
    kind as u64
}

/// The word of a kind with two fields.
pub fn pack(kind: Kind, a: u32, b: u32) -> u64
    requires left { a < 2 ^ 28 }
    requires right { b < 2 ^ 28 }
    ensures word { result ≡ word_of kind a b }
    ensures kind { kind_of result ≡ Some kind }
    ensures left { left_of result ≡ a }
    ensures right { right_of result ≡ b }
{
    code(kind) * 0x100_0000_0000_0000 + (a as u64) * 0x1000_0000 + b as u64
}

#[tactic(auto, unfolding(crate::specs::Word::kind_with))]
fn entry(kinds: &[Kind], at: usize) -> Option<Kind>
    ensures { result ≡ slice_get kinds.now at }
{
    kinds.get(at).copied()
}

/// The kind of a word; none where its top eight bits name no kind.
pub fn kind(w: u64) -> Option<Kind>
    ensures { result ≡ kind_of w }
{
    let code = w / 0x100_0000_0000_0000;
    if code == 0 {
        return None;
    }
    entry(&KINDS, code as usize - 1)
}

/// The left field of a word, below 2^28.
pub fn left(w: u64) -> u32
    ensures value { result ≡ left_of w }
    ensures fits { result < 2 ^ 28 }
{
    (w / 0x1000_0000 % 0x1000_0000) as u32
}

/// The right field of a word, below 2^28.
pub fn right(w: u64) -> u32
    ensures value { result ≡ right_of w }
    ensures fits { result < 2 ^ 28 }
{
    (w % 0x1000_0000) as u32
}

/// The class of what a word of this kind stands for.
pub fn class(kind: Kind) -> Class
    ensures { result ≡ class_of kind }
{
    match kind {
        Kind::TextEnd | Kind::TextCharacter => Class::Text,
        Kind::NumberHigh => Class::High,
        Kind::Number
        | Kind::TextConstant
        | Kind::NamedNull
        | Kind::FreshNull
        | Kind::OtherValue
        | Kind::Column => Class::Term,
        Kind::True | Kind::False | Kind::Equal | Kind::Not | Kind::And | Kind::Or => Class::Cond,
        Kind::RowEnd | Kind::RowCell => Class::Row,
        Kind::ConditionalRow => Class::CondRow,
        Kind::RowsEnd | Kind::Rows => Class::RowList,
        Kind::NamesEnd | Kind::Names => Class::NameList,
        Kind::Create | Kind::Insert | Kind::Delete | Kind::Assert | Kind::Update => Class::Change,
        Kind::ChangesEnd | Kind::Changes => Class::ChangeList,
        Kind::Commit => Class::Commit,
        Kind::Set => Class::Set,
        Kind::SetsEnd | Kind::Sets => Class::SetList,
        Kind::UpdateBody => Class::UpdateBody,
    }
}
