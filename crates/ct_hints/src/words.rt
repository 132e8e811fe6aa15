// Words of SQL that are not there, and what to write instead of them.

use ct_advice::{is_among_at, is_number_at, is_same, is_symbol_at, is_word_at};
use ct_lex::{Symbol, Token};

/// Words, what has to follow one of them, and what is said of the two. A number has to follow for `1`, and anything may for
/// an empty text.
type Hint = (&'static [&'static str], &'static str, &'static str);

pub const ORDER: &str = "there is no order of values: write a = 1 or a = 2, where they are few";

const COUNT: &str =
    "nothing is counted, summed or grouped: how many rows there are depends on the gaps";

const GROUP: &str =
    "nothing is counted, summed or grouped: without a count leave GROUP BY out, as an answer has each row once";

pub const NULL: &str =
    "a null is a value that nobody knows: look for ? in the answer, or ask with CERTAIN what is known";

const OUTER: &str =
    "there are no outer joins: ask for the join, and by EXCEPT for the rows without a partner";

pub const JOIN: &str = "write join u on t.a = u.a, or from t, u";

const ORDER_BY: &str = "there is no ORDER BY: rows keep the order of their tables";

const PATTERNS: &str = "there are no patterns: write a = 'x' or a = 'y', where they are few";

const UNION_ALL: &str =
    "write union: an answer is a set; a column with a number of its own keeps equal rows apart";

const SETS: &str = "leave the word out: an answer is a set, and has each row once";

const EXISTS: &str = "write a join for EXISTS, as select t.a from t, u where t.a = u.b";

const ANY: &str =
    "write a join for = ANY, and for <> ALL write EXCEPT, with the key alone on both sides";

const NOT_EXISTS: &str =
    "write EXCEPT for NOT EXISTS, with the key alone on both sides, as select a from t except select b from u, and join other columns on afterwards";

/// What to write instead of NOT IN with a query.
pub const NOT_IN_QUERY: &str =
    "write EXCEPT for NOT IN, with the key alone on both sides, as select a from t except select b from u, and join other columns on afterwards";

pub const WITHIN_QUERY: &str = "there are no queries within queries: name all tables in one FROM";

const CREATION: &str = "write create table t (a): a name that is taken is refused with TableExists";

/// What to write instead of create table t as select .., with AS or without.
pub const FROM_QUERY: &str = "write create table t (a), and then insert into t select ..";

const LOCKS: &str =
    "nothing is locked or set: each commit is checked against what its transaction read";

pub const CASES: &str = "there are no functions and no CASE";

const UPSERT: &str =
    "write update t set a = 1 where b = 2 for rows that are there, and insert into t values (..) for others";

const DROP: &str = "a table stays: there is no DROP; delete from t takes all of its rows";

const ALTER: &str = "a table keeps its columns: there is no ALTER";

const LIMITED: &str = "there is no LIMIT: an answer has all of its rows";

const TOP: &str = "there is no TOP and no LIMIT: an answer has all of its rows";

/// What is said of ON CONFLICT, and of INSERT OR IGNORE.
pub const CONFLICT: &str =
    "there is no ON CONFLICT and no ON DUPLICATE KEY: columns have no keys, and equal rows may be inserted";

const DEFAULTS: &str =
    "columns have no defaults: write all cells, and NULL where nobody knows the value";

const DISTINCT_ON: &str = "there is no DISTINCT ON: an answer has each row once";

const COLLATE: &str = "texts are equal where all of their characters are: leave COLLATE out";

const XOR: &str = "write (a = 1 or b = 2) and not (a = 1 and b = 2) for XOR";

/// What is said of TRUE and FALSE in the place of a value.
pub const TRUTH: &str = "TRUE and FALSE are no values: write a number or a text, as 1 or 'yes'";

const LISTS: &str =
    "no statement shows tables or columns: the history at the end of a transcript has each CREATE";

const NOTHING: &str = "there is nothing like it: leave it out";

const ENDS: &str = "leave it out: a run ends where its files end";

const LOADS: &str =
    "no statement reads or writes files: write the rows as insert into t values (..), (..)";

const ROWS: &str = "write select * from t, or insert into t values (..)";

const WITHIN: [Hint; 44] = [
    (&["order"], "", ORDER_BY),
    (&["limit", "offset", "fetch"], "", LIMITED),
    (&["top"], "1", TOP),
    (&["top"], "(", TOP),
    (&["group"], "", GROUP),
    (&["having"], "", COUNT),
    (&["count", "sum", "min", "max", "avg"], "(", COUNT),
    (&["is"], "null", NULL),
    (
        &["is"],
        "not distinct",
        "write a = b for IS NOT DISTINCT FROM",
    ),
    (&["is"], "not", NULL),
    (&["is"], "distinct", "write a <> b for IS DISTINCT FROM"),
    (&["is"], "true", TRUTH),
    (&["is"], "false", TRUTH),
    (&["is"], "", "write = for IS"),
    (&["in"], "", "write a = 1 or a = 2 for IN"),
    (&["isnull", "notnull"], "", NULL),
    (&["coalesce", "ifnull"], "(", NULL),
    (&["like", "ilike", "glob", "regexp"], "", PATTERNS),
    (&["similar"], "to", PATTERNS),
    (&["between"], "", ORDER),
    (&["not"], "like", PATTERNS),
    (&["not"], "ilike", PATTERNS),
    (&["not"], "between", ORDER),
    (&["left", "right", "full", "outer"], "join", OUTER),
    (&["left", "right", "full"], "outer", OUTER),
    (&["natural", "cross"], "join", JOIN),
    (&["using"], "(", JOIN),
    (&["union"], "all", UNION_ALL),
    (&["except", "intersect"], "all", SETS),
    (&["union", "except", "intersect"], "distinct", SETS),
    (&["not"], "exists", NOT_EXISTS),
    (&["exists"], "(", EXISTS),
    (&["any", "some", "all"], "(select", ANY),
    (&["if"], "not", CREATION),
    (&["as"], "select", FROM_QUERY),
    (&["for"], "", LOCKS),
    (&["with"], "", WITHIN_QUERY),
    (&["case"], "when", CASES),
    (&["on"], "conflict", CONFLICT),
    (&["on"], "duplicate", CONFLICT),
    (&["default"], "", DEFAULTS),
    (&["distinct"], "on", DISTINCT_ON),
    (&["collate"], "", COLLATE),
    (&["xor"], "", XOR),
];

const FIRST: [Hint; 16] = [
    (&["replace", "merge", "upsert"], "", UPSERT),
    (&["drop"], "", DROP),
    (&["alter", "rename"], "", ALTER),
    (&["truncate"], "", "write delete from t"),
    (&["start"], "", "write begin"),
    (&["end"], "", "write commit"),
    (&["abort"], "", "write rollback"),
    (
        &["begin", "commit", "rollback"],
        "",
        "BEGIN, COMMIT and ROLLBACK stand alone",
    ),
    (&["savepoint", "release"], "", "there are no savepoints"),
    (&["set", "lock"], "", LOCKS),
    (&["with"], "", WITHIN_QUERY),
    (&["values", "table"], "", ROWS),
    (&["show", "list", "describe", "desc"], "", LISTS),
    (&["copy", "load"], "", LOADS),
    (&["exit", "quit"], "", ENDS),
    (
        &[
            "explain", "analyze", "vacuum", "reindex", "pragma", "use", "attach", "grant",
            "revoke", "comment",
        ],
        "",
        NOTHING,
    ),
];

fn is_next(tokens: &[Token], i: usize, next: &str) -> bool {
    match next {
        "" => true,
        "(" => is_symbol_at(tokens, i, Symbol::LeftParen),
        "(select" => is_symbol_at(tokens, i, Symbol::LeftParen)
            && is_word_at(tokens, i.saturating_add(1), "select"),
        "not distinct" => is_word_at(tokens, i, "not")
            && is_word_at(tokens, i.saturating_add(1), "distinct"),
        "1" => is_number_at(tokens, i),
        _ => is_word_at(tokens, i, next),
    }
}

fn said(hints: &[Hint], tokens: &[Token], i: usize) -> Option<&'static str> {
    for (words, next, said) in hints {
        if is_among_at(tokens, i, words) && is_next(tokens, i.saturating_add(1), next) {
            return Some(*said);
        }
    }
    None
}

/// What is said of the word at a position within a statement.
pub fn of_word(tokens: &[Token], i: usize) -> Option<&'static str> {
    said(&WITHIN, tokens, i)
}

/// What is said of the first word of a text.
pub fn of_first_word(tokens: &[Token]) -> Option<&'static str> {
    said(&FIRST, tokens, 0)
}

/// The part of docs/SQL.md that has more on what is said of a form that is not there.
pub fn part_of(said: &str) -> &'static str {
    let partners = [OUTER, ANY, NOT_EXISTS, NOT_IN_QUERY];
    if partners.iter().any(|other| is_same(other, said)) {
        "Rows without a partner"
    } else {
        "What is not there"
    }
}
