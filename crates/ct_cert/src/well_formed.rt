// The test of words: whether each may follow those before it.

ghost use Rattle.std.specs.Prelude.{◌≡◌, ◌<◌, ◌^◌, [], Some, length, IfOk, IsTrue, Contains};
ghost use Rattle.ct_word.specs.Word as word;
ghost use Rattle.ct_word.specs.WellFormed as formed;
ghost use Rattle.ct_cert.specs.Fields.{field_of};
ghost use Rattle.ct_cert.specs.Judgement as judged;

use ct_chain::Chain;
use ct_word::{Class, Kind, Memory, class, kind, left, right};
use std::alloc::Global;

/// What is asked of a field of a word.
#[derive(Clone, Copy)]
pub enum Field {
    Zero,
    Any,
    Byte,
    /// A number that a character can have.
    Scalar,
    Session,
    Positive,
    /// The place of an earlier word of a class.
    PlaceOf(Class),
}

/// What is asked of the left and the right field of a word of this kind.
fn fields(kind: Kind) -> (Field, Field)
    ensures left { field_of result.0 ≡ (formed.fields_of kind).0 }
    ensures right { field_of result.1 ≡ (formed.fields_of kind).1 }
{
    match kind {
        Kind::TextEnd | Kind::True | Kind::False => (Field::Zero, Field::Zero),
        Kind::RowEnd | Kind::RowsEnd | Kind::NamesEnd => (Field::Zero, Field::Zero),
        Kind::SetsEnd | Kind::ChangesEnd => (Field::Zero, Field::Zero),
        Kind::TextCharacter => (Field::PlaceOf(Class::Text), Field::Scalar),
        Kind::NumberHigh => (Field::Any, Field::Any),
        Kind::Number => (Field::PlaceOf(Class::High), Field::Byte),
        Kind::TextConstant | Kind::NamedNull => (Field::PlaceOf(Class::Text), Field::Zero),
        Kind::FreshNull => (Field::Session, Field::Positive),
        Kind::OtherValue | Kind::Column => (Field::Any, Field::Zero),
        Kind::Equal => (Field::PlaceOf(Class::Term), Field::PlaceOf(Class::Term)),
        Kind::Not | Kind::Assert => (Field::PlaceOf(Class::Cond), Field::Zero),
        Kind::And | Kind::Or => (Field::PlaceOf(Class::Cond), Field::PlaceOf(Class::Cond)),
        Kind::RowCell => (Field::PlaceOf(Class::Row), Field::PlaceOf(Class::Term)),
        Kind::ConditionalRow => (Field::PlaceOf(Class::Row), Field::PlaceOf(Class::Cond)),
        Kind::Rows => (
            Field::PlaceOf(Class::RowList),
            Field::PlaceOf(Class::CondRow),
        ),
        Kind::Names => (Field::PlaceOf(Class::NameList), Field::PlaceOf(Class::Text)),
        Kind::Create => (Field::PlaceOf(Class::Text), Field::PlaceOf(Class::NameList)),
        Kind::Insert => (Field::PlaceOf(Class::Text), Field::PlaceOf(Class::RowList)),
        Kind::Delete => (Field::PlaceOf(Class::Text), Field::PlaceOf(Class::Cond)),
        Kind::Changes => (
            Field::PlaceOf(Class::ChangeList),
            Field::PlaceOf(Class::Change),
        ),
        Kind::Commit => (Field::Any, Field::PlaceOf(Class::ChangeList)),
        Kind::Set => (Field::Any, Field::PlaceOf(Class::Term)),
        Kind::Sets => (Field::PlaceOf(Class::SetList), Field::PlaceOf(Class::Set)),
        Kind::UpdateBody => (Field::PlaceOf(Class::SetList), Field::PlaceOf(Class::Cond)),
        Kind::Update => (
            Field::PlaceOf(Class::Text),
            Field::PlaceOf(Class::UpdateBody),
        ),
    }
}

/// Whether the right field of a word of this kind is a greater place than the left one.
fn is_ordered(kind: Kind) -> bool
    ensures { result ≡ formed.is_ordered kind }
{
    matches!(kind, Kind::Equal | Kind::And | Kind::Or)
}

fn has_class(kind: Option<Kind>, of: Class) -> bool
    ensures { result ≡ formed.has_class kind of }
{
    match kind {
        None => false,
        Some(kind) => class(kind) == of,
    }
}

/// Whether a place, which may lie past the words, is one of a class.
fn is_of(words: &[u64], place: u32, of: Class) -> bool
    ensures { result ≡ formed.is_place_of words.now of place }
{
    match words.get(place as usize) {
        None => false,
        Some(word) => has_class(kind(*word), of),
    }
}

/// Whether a field is as the table asks, after these words.
fn fits(before: &[u64], field: Field, n: u32) -> bool
    ensures { result ≡ formed.fits before.now (field_of field) n }
{
    match field {
        Field::Zero => n == 0,
        Field::Any => true,
        Field::Byte => n < 256,
        Field::Scalar => n < 0xD800 || (0xE000 <= n && n < 0x11_0000),
        Field::Session => 1 <= n && n <= 1023,
        Field::Positive => 1 <= n,
        Field::PlaceOf(of) => is_of(before, n, of),
    }
}

/// Whether a word is one of the table, after these words.
fn is_formed(before: &[u64], w: u64) -> bool
    ensures { result ≡ formed.is_formed_as (word.kind_of w) before.now (word.left_of w) (word.right_of w) }
{
    let Some(kind) = kind(w) else {
        return false;
    };
    let (a, b) = (left(w), right(w));
    let (on_left, on_right) = fields(kind);
    fits(before, on_left, a) && fits(before, on_right, b) && (!is_ordered(kind) || a < b)
}

#[tactic(auto, unfolding(ct_word::specs::WellFormed::is_word_after))]
fn is_word_after(chain: &Chain, w: u64) -> bool
    ensures value { result ≡ formed.is_word_after chain.now.words w }
    ensures new { IsTrue result → ¬ Contains chain.now.words w }
{
    is_formed(chain.words(), w) && chain.find(w).is_none()
}

/// The first place whose word may not follow the words before it.
pub fn bad_word(alloc: Global, words: &[u64]) -> Result<Option<u32>, Memory>
    requires { length words.now < 2 ^ 28 }
    ensures { IfOk result (λ place. place ≡ judged.bad_word [] words.now) }
{
    let mut chain = Chain::make(alloc, words.len() as u32)?;
    for (i, word) in words.iter().enumerate() {
        if !is_word_after(&chain, *word) {
            return Ok(Some(i as u32));
        }
        chain.push(*word);
    }
    Ok(None)
}
