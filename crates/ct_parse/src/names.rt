// Names and keywords.

ghost use Rattle.std.specs.Prelude.{◌≡◌, ◌||◌, ℕ, List, map, IfOk, IfSome, IfNone};
ghost use Rattle.std.specs.List.{list_all, list_any};
ghost use Rattle.ct_word.specs.Value.{same_text};
ghost use Rattle.ct_word.specs.Writable as writable;
ghost use Rattle.ct_parse.specs.Names.{SpellsName};

use ct_word::{Memory, Text};
use std::alloc::Global;

/// The words that are no names.
const KEYWORDS: [&str; 34] = [
    "and",
    "as",
    "assert",
    "begin",
    "certain",
    "commit",
    "create",
    "delete",
    "distinct",
    "except",
    "exists",
    "false",
    "from",
    "if",
    "inner",
    "insert",
    "intersect",
    "into",
    "join",
    "not",
    "null",
    "on",
    "or",
    "possible",
    "rollback",
    "select",
    "set",
    "table",
    "true",
    "union",
    "update",
    "values",
    "where",
    "worlds",
];

fn is_letter(byte: u8) -> bool
    ensures { result ≡ writable.is_letter byte }
{
    (b'a' <= byte && byte <= b'z') || byte == b'_'
}

fn goes_on(byte: u8) -> bool
    ensures { result ≡ (writable.is_letter byte || writable.is_digit byte) }
{
    is_letter(byte) || (b'0' <= byte && byte <= b'9')
}

fn all_go_on(bytes: &[u8]) -> bool
    ensures { result ≡ list_all (λ c. writable.is_letter c || writable.is_digit c) bytes.now }
{
    bytes.iter().all(|byte| goes_on(*byte))
}

fn is_word(text: &str) -> bool
    ensures { result ≡ writable.is_word text.now }
{
    let bytes = text.as_bytes();
    !bytes.is_empty() && is_letter(bytes[0]) && all_go_on(&bytes[1..])
}

fn contains(words: &[&str], word: &str) -> bool
    ensures { result ≡ list_any (same_text word.now) (map (λ w. w.now) words.now) }
{
    let mut rest = words;
    while let [other, after @ ..] = rest {
        if word == *other {
            return true;
        }
        rest = after;
    }
    false
}

fn is_keyword(word: &str) -> bool
    ensures { result ≡ list_any (same_text word.now) writable.keywords }
{
    contains(&KEYWORDS, word)
}

/// Whether a text is a word that is no keyword.
pub fn is_name(text: &str) -> bool
    ensures { result ≡ writable.is_name text.now }
{
    is_word(text) && !is_keyword(text)
}

/// The name that the whole text spells, in lower case. There is none beside a blank or a comment.
///
/// # Errors
/// `Memory` where there is none for the name.
pub fn name_of(alloc: Global, text: &str) -> Result<Option<Text>, Memory>
    ensures some { IfOk result (λ o. IfSome o (λ n. SpellsName text.now n)) }
    ensures only { IfOk result (λ o. IfSome o (λ n. (other : List ℕ) → SpellsName text.now other → other ≡ n)) }
    ensures none { IfOk result (λ o. IfNone o ((n : List ℕ) → SpellsName text.now n → ⊥)) }
{
    let lowered = Text::from_string(text.to_ascii_lowercase(alloc)?);
    if is_name(lowered.as_str()) {
        Ok(Some(lowered))
    } else {
        Ok(None)
    }
}
