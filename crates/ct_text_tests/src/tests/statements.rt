// One script, from its texts to statements with positions for names. What texts are refused for, and what others ask
// for, is in the scripts of tests/.

use ct_lex::{Token, split, tokens};
use ct_parse::{ParseError, condition, condition_place, name_of, statement, statement_place};
use ct_query::{Heading, Schema};
use ct_resolve::{ResolveError, resolve};
use ct_word::{List, Text};
use std::alloc::Global;
use std::test::Fail;

/// Texts, and where each of their tokens starts and ends.
const SPANS: [(&str, &[(u64, u64)]); 9] = [
    (" \t\r\n-- a comment", &[]),
    ("SELECT _a1", &[(0, 6), (7, 10)]),
    ("a-- b\r c\nd", &[(0, 1), (9, 10)]),
    ("007 -0 5-3", &[(0, 3), (4, 6), (7, 8), (8, 10)]),
    ("'it''s'''", &[(0, 9)]),
    ("'\u{e9};--'a", &[(0, 7), (7, 8)]),
    ("?X1 ?Select", &[(0, 3), (4, 11)]),
    ("(),.*", &[(0, 1), (1, 2), (2, 3), (3, 4), (4, 5)]),
    ("= <> !=", &[(0, 1), (2, 4), (5, 7)]),
];

/// Whether tokens start and end at these places.
fn stand_at(found: &[Token], spans: &[(u64, u64)]) -> bool {
    if found.len() != spans.len() {
        return false;
    }
    for (token, span) in found.iter().zip(spans) {
        if token.start != span.0 || token.end != span.1 {
            return false;
        }
    }
    true
}

/// Whether the tokens of a text start and end at these places.
fn are_spelled(alloc: Global, text: &str, spans: &[(u64, u64)]) -> Result<bool, Fail> {
    let found = tokens(alloc, text)?;
    Ok(stand_at(found.as_slice(), spans))
}

#[test]
fn tokens_stand_where_they_are_spelled(rt: HostRuntime) -> Result<(), Fail> {
    for (text, spans) in SPANS {
        assert!(rt; are_spelled(rt.alloc(), text, spans)?, "{text}");
    }
    Ok(())
}

/// The name of a table and its columns.
fn heading(alloc: Global, name: &str, columns: &[&str]) -> Result<Heading, Fail> {
    let mut found = Vec::new(alloc);
    for column in columns {
        found.push(Text::from_str(alloc, column)?)?;
    }
    Ok(Heading {
        name: Text::from_str(alloc, name)?,
        columns: List::from_vec(found),
    })
}

/// The table `t` of the columns `a` and `b`, and the table `key` of the column `key`.
fn schema(alloc: Global) -> Result<Schema, Fail> {
    let tables = [
        heading(alloc, "t", &["a", "b"])?,
        heading(alloc, "key", &["key"])?,
    ];
    Ok(Schema {
        tables: List::from_vec(Vec::from_array(alloc, tables)?),
    })
}

/// Why a text has no statement over those tables, after so many nulls of session 1; none where it has one.
fn refusal(alloc: Global, fresh: u32, text: &str) -> Result<Option<ResolveError>, Fail> {
    let schema = schema(alloc)?;
    let words = tokens(alloc, text)?;
    let spelled = statement(alloc, words.as_slice())?;
    let found = resolve(alloc, &schema, 1, fresh, &spelled);
    let refusal = match &found {
        Ok(_) => None,
        Err(error) => Some(*error),
    };
    // What a tree is dropped by is read off its every variant, unless a call takes it.
    drop(found);
    drop(spelled);
    Ok(refusal)
}

/// Whether a script has these texts.
fn are_its_texts(alloc: Global, script: &str, wanted: &[&str]) -> Result<bool, Fail> {
    let texts = split(alloc, script)?;
    Ok(texts.as_slice() == wanted)
}

/// The texts of `begin; select b as c from t; -- no text;`, and of a line after it.
const TEXTS: [&str; 3] = [
    "begin",
    " select b as c from t",
    "insert into t values (null, ';')",
];

#[test]
fn a_script_is_read_text_by_text(rt: HostRuntime) -> Result<(), Fail> {
    let script = "begin; select b as c from t; -- no text;\n;insert into t values (null, ';')";
    assert!(rt; are_its_texts(rt.alloc(), script, &TEXTS)?);
    for text in TEXTS {
        assert!(rt; refusal(rt.alloc(), 0, text)?.is_none());
    }
    Ok(())
}

/// Nulls are numbered below 2^28.
#[test]
fn the_last_null_has_its_number(rt: HostRuntime) -> Result<(), Fail> {
    let both = "insert into t values (null, null)";
    assert!(rt; refusal(rt.alloc(), 268_435_453, both)?.is_none());
    assert!(rt; refusal(rt.alloc(), 268_435_454, both)? == Some(ResolveError::Memory));
    Ok(())
}

/// Texts, and why each has no statement over those tables, where it has none. Several things are wrong with the first,
/// and the leftmost counts.
const CHANGES: [(&str, Option<ResolveError>); 22] = [
    (
        "update u set a = 1, c = d, a = 3 where c = 4",
        Some(ResolveError::UnknownTable),
    ),
    (
        "update t set a = 1, c = 2, a = 3 where c = 4",
        Some(ResolveError::UnknownColumn),
    ),
    (
        "update t set a = 1, b = d, a = 3 where c = 4",
        Some(ResolveError::UnknownColumn),
    ),
    (
        "update t set a = 1, b = u.b, a = 3",
        Some(ResolveError::UnknownColumn),
    ),
    (
        "update t set a = 1, b = 2, a = 3 where c = 4",
        Some(ResolveError::DuplicateName),
    ),
    (
        "update t set a = 1, b = 2 where c = 4",
        Some(ResolveError::UnknownColumn),
    ),
    ("update t set a = t.b, b = ?x where t.a = 1", None),
    ("update t set c = 1", Some(ResolveError::UnknownColumn)),
    (
        "update t set a = 1, a = 2",
        Some(ResolveError::DuplicateName),
    ),
    ("update key set key = key where key.key = 'set'", None),
    ("assert exists (select a from t where b = ?x)", None),
    (
        "assert exists (select a from u where c = 1)",
        Some(ResolveError::UnknownTable),
    ),
    (
        "assert not exists (select c from t)",
        Some(ResolveError::UnknownColumn),
    ),
    (
        "assert not exists (select a from t union select a, b from t)",
        Some(ResolveError::ColumnCount),
    ),
    ("assert key t (b, a)", None),
    ("assert key key (key)", None),
    ("assert key u (a, a)", Some(ResolveError::UnknownTable)),
    ("assert key t (a, a, c)", Some(ResolveError::UnknownColumn)),
    ("assert key t (b, a, b)", Some(ResolveError::DuplicateName)),
    ("assert key = 1", Some(ResolveError::UnknownColumn)),
    ("assert key.key <> 1", Some(ResolveError::UnknownColumn)),
    ("assert not key = 1", Some(ResolveError::UnknownColumn)),
];

#[test]
fn the_first_fault_of_a_change_counts(rt: HostRuntime) -> Result<(), Fail> {
    for (text, wanted) in CHANGES {
        assert!(rt; refusal(rt.alloc(), 0, text)? == wanted, "{text}");
    }
    Ok(())
}

#[test]
fn an_update_may_be_long(rt: HostRuntime) -> Result<(), Fail> {
    let sets = ", b = 2".repeat(rt.alloc(), 4_999)?;
    let text = format!(in rt.alloc(); "update t set a = 1{}", sets.as_str())?;
    let found = refusal(rt.alloc(), 0, text.as_str())?;
    assert!(rt; found == Some(ResolveError::DuplicateName));
    let parts = " or b <> 'x'".repeat(rt.alloc(), 49_999)?;
    let text = format!(in rt.alloc(); "update t set a = 1 where a = 1{}", parts.as_str())?;
    assert!(rt; refusal(rt.alloc(), 0, text.as_str())?.is_none());
    Ok(())
}

/// The tokens of a text. Nothing is said of them, which keeps a test of one text short to prove.
fn tokens_of(alloc: Global, text: &str) -> Result<Vec<Token>, Fail> {
    Ok(tokens(alloc, text)?)
}

#[test]
fn a_condition_is_read_to_its_end(rt: HostRuntime) -> Result<(), Fail> {
    let words = tokens_of(rt.alloc(), "a = 1 or not (b = 'x' and c <> d)")?;
    drop(condition(rt.alloc(), words.as_slice())?);
    let part = words.as_slice().get(..4).unwrap_or(&[]);
    assert!(rt; condition(rt.alloc(), part).err() == Some(ParseError::NotAStatement));
    Ok(())
}

/// Texts that are near an update or an assertion, and are no statements.
const NO_STATEMENTS: [&str; 18] = [
    "update t",
    "update t set",
    "update t set a",
    "update t set a =",
    "update t set a = 1,",
    "update t set a = null",
    "update t set a = not b",
    "update t set a <> 1",
    "update t set t.a = 1",
    "update t set a = 1 if true",
    "update t set a = 1 where",
    "assert exists select a from t",
    "assert not not exists (select a from t)",
    "assert not exists (select a from t) and 1 = 1",
    "assert (exists (select a from t))",
    "assert key t ()",
    "assert key t (t.a)",
    "assert not key t (a)",
];

#[test]
fn others_are_no_statements(rt: HostRuntime) -> Result<(), Fail> {
    for text in NO_STATEMENTS {
        let words = tokens_of(rt.alloc(), text)?;
        let found = statement(rt.alloc(), words.as_slice()).err();
        assert!(rt; found == Some(ParseError::NotAStatement), "{text}");
    }
    Ok(())
}

/// Texts, and where reading each as a statement stops. The last nests 65 deep.
const STATEMENT_PLACES: [(&str, Option<u64>); 10] = [
    ("select a from t where a = 1", None),
    ("select a b from t", Some(9)),
    ("insert into t values (1, 2", None),
    ("select a from t left outer join u on true", Some(21)),
    ("update t set a = null", Some(17)),
    ("update t set t.a = 1", Some(14)),
    ("assert key key (key)", None),
    ("assert not not exists (select * from t)", Some(15)),
    ("assert not exists (select * from t) and 1 = 1", Some(36)),
    (
        "assert (((((((((((((((((((((((((((((((((((((((((((((((((((((((((((((((((",
        Some(71),
    ),
];

/// Texts, and where reading each as a condition stops.
const CONDITION_PLACES: [(&str, Option<u64>); 3] = [
    ("a = 1 or", None),
    ("a = 1 b", Some(6)),
    ("not (a = ?x) and or b", Some(17)),
];

/// Where reading a text as a statement stops.
fn statement_stops(alloc: Global, text: &str) -> Result<Option<u64>, Fail> {
    let words = tokens_of(alloc, text)?;
    Ok(statement_place(alloc, words.as_slice())?)
}

/// Where reading a text as a condition stops.
fn condition_stops(alloc: Global, text: &str) -> Result<Option<u64>, Fail> {
    let words = tokens_of(alloc, text)?;
    Ok(condition_place(alloc, words.as_slice())?)
}

#[test]
fn reading_stops_where_a_text_goes_wrong(rt: HostRuntime) -> Result<(), Fail> {
    for (text, place) in STATEMENT_PLACES {
        assert!(rt; statement_stops(rt.alloc(), text)? == place, "{text}");
    }
    for (text, place) in CONDITION_PLACES {
        assert!(rt; condition_stops(rt.alloc(), text)? == place, "{text}");
    }
    Ok(())
}

/// Texts, and the name that each spells.
const NAMES: [(&str, Option<&str>); 7] = [
    ("Left_1", Some("left_1")),
    ("_", Some("_")),
    ("", None),
    ("a b", None),
    (" a", None),
    ("1a", None),
    ("SELECT", None),
];

/// Whether a text spells this name, or none.
fn is_named(alloc: Global, text: &str, name: Option<&str>) -> Result<bool, Fail> {
    match (name_of(alloc, text)?, name) {
        (Some(found), Some(name)) => Ok(found.as_str() == name),
        (None, None) => Ok(true),
        _ => Ok(false),
    }
}

#[test]
fn a_name_is_the_whole_text(rt: HostRuntime) -> Result<(), Fail> {
    for (text, name) in NAMES {
        assert!(rt; is_named(rt.alloc(), text, name)?, "{text}");
    }
    Ok(())
}
