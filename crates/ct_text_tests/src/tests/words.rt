// Words of a small log, as their hexadecimal digits are printed.

use ct_word::{Class, Kind, List, Null, Term, Text, Value, class, kind, left, pack, right};
use std::test::Fail;

/// Whether a word of this kind with these fields is this one, and has them.
fn is_word_of(k: Kind, a: u32, b: u32, word: u64) -> bool {
    if a >= 0x1000_0000 || b >= 0x1000_0000 {
        return false;
    }
    pack(k, a, b) == word && kind(word) == Some(k) && left(word) == a && right(word) == b
}

fn has_no_kind(word: u64) -> bool {
    kind(word).is_none()
}

#[test]
fn words_of_a_created_table(rt: HostRuntime) -> Result<(), Fail> {
    let words = [
        (Kind::True, 0, 0, 0x0a00_0000_0000_0000),
        (Kind::TextCharacter, 2, 0x74, 0x0200_0000_2000_0074),
        (Kind::Names, 4, 5, 0x1600_0000_4000_0005),
        (Kind::Create, 3, 6, 0x1700_0000_3000_0006),
        (Kind::Commit, 0x4_0000, 9, 0x1d00_4000_0000_0009),
        (Kind::Update, 3, 6, 0x2200_0000_3000_0006),
    ];
    for (k, a, b, word) in words {
        assert!(rt; is_word_of(k, a, b, word), "{word:x}");
    }
    assert!(rt; has_no_kind(0));
    assert!(rt; has_no_kind(0x2300_0000_0000_0000));
    assert_eq!(rt; class(Kind::Column), Class::Term);
    Ok(())
}

#[test]
fn copies_are_what_they_copy(rt: HostRuntime) -> Result<(), Fail> {
    let name = Text::from_str(rt.alloc(), "x")?;
    let null = Term::Null(Null::Named(name));
    let copy = null.clone()?;
    assert!(rt; copy == null);
    assert!(rt; copy != Term::Value(Value::Other(0)));
    let texts: Vec<Text> = Vec::new(rt.alloc());
    assert!(rt; List::from_vec(texts).is_empty());
    Ok(())
}
