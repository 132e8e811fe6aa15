// Updates, and assertions over queries and keys, beside other sessions; updates beside deletions and insertions.

use crate::tests::played::{ROOMY, play, served, text_of};
use ct_outside::NoGate;
use std::alloc::Global;
use std::process::Abort;
use std::sync::Wait;
use std::test::Fail;
use std::thread::Threads;

const CASES: [&str; 7] = [
    // Nothing is in a table. An assertion over a query has read the query's tables, also those without a row.
    "
        script create table t (a); insert into t values (1);
        script begin; assert not exists (select * from t); commit;

        order 1 2 2 1 2
        replies committed 1; committed 2
        replies begun at 1; pending at 1 plus 1; refused Conflict t was 1 now 2 at 2
        history by 1 / create table t (a); by 1 / insert into t (1)

        order 1 2 2 2 1
        replies committed 1; committed 3
        replies begun at 1; pending at 1 plus 1; committed 2
        history by 1 / create table t (a); by 2 / assert true; by 1 / insert into t (1)

        order 1 1 2 2 2
        replies committed 1; committed 2
        replies begun at 2; refused Inconsistent; nothing to commit at 2
        history by 1 / create table t (a); by 1 / insert into t (1)
    ",
    // A key. It has read its table, and then the worlds.
    "
        script create table t (a, b); insert into t values (1, ?x); assert ?y = 1;
        script begin; insert into t values (1, 2); assert key t (a); commit;

        order 1 2 2 2 1 1 2
        order 1 2 2 1 2 1 2
        replies committed 1; committed 2; committed 3
        replies begun at 1; pending at 1 plus 1; pending at 1 plus 2; refused Conflict t was 1 now 2 at 3
        history by 1 / create table t (a, b); by 1 / insert into t (1, ?x); by 1 / assert ?y = 1

        order 1 1 2 2 2 1 2
        replies committed 1; committed 2; committed 3
        replies begun at 2; pending at 2 plus 1; pending at 2 plus 2; refused Conflict worlds was 0 now 3 at 3
        history by 1 / create table t (a, b); by 1 / insert into t (1, ?x); by 1 / assert ?y = 1
    ",
    // An update of what an assertion is about. It changes the table, and is no assertion.
    "
        script create table t (a); insert into t values (?x); begin; assert exists (select * from t where a = 1); commit;
        script begin; update t set a = 2 where a = 1; commit;

        order 1 1 1 2 1 2 2 1
        replies committed 1; committed 2; begun at 2; pending at 2 plus 1; refused Conflict t was 2 now 3 at 3
        replies begun at 2; pending at 2 plus 1; committed 3
        history by 1 / create table t (a); by 1 / insert into t (?x); by 2 / update t set $1 = 2 where $1 = 1

        order 1 1 1 2 1 2 1 2
        replies committed 1; committed 2; begun at 2; pending at 2 plus 1; committed 3
        replies begun at 2; pending at 2 plus 1; committed 4
        history by 1 / create table t (a); by 1 / insert into t (?x); by 1 / assert ?x = 1; \
            by 2 / update t set $1 = 2 where $1 = 1
    ",
    // Updates never conflict. An update reads nothing, so both sessions commit, in either order, and the later update sees
    // the rows of the other one.
    "
        script create table t (a, b); insert into t values (1, 1); insert into t values (2, 2); begin; \
            update t set b = 2 where a = 1; commit; select * from t;
        script begin; update t set a = 3 where b = 2; commit;

        order 1 1 1 1 2 1 2 1 2 1
        replies committed 1; committed 2; committed 3; begun at 3; pending at 3 plus 1; committed 4; \
            rows (a, b) at 5 / (3, 2)
        replies begun at 3; pending at 3 plus 1; committed 5
        history by 1 / create table t (a, b); by 1 / insert into t (1, 1); by 1 / insert into t (2, 2); \
            by 1 / update t set $2 = 2 where $1 = 1; by 2 / update t set $1 = 3 where $2 = 2

        order 1 1 1 1 2 1 2 2 1 1
        replies committed 1; committed 2; committed 3; begun at 3; pending at 3 plus 1; committed 5; \
            rows (a, b) at 5 / (1, 2) / (3, 2)
        replies begun at 3; pending at 3 plus 1; committed 4
        history by 1 / create table t (a, b); by 1 / insert into t (1, 1); by 1 / insert into t (2, 2); \
            by 2 / update t set $1 = 3 where $2 = 2; by 1 / update t set $2 = 2 where $1 = 1
    ",
    // An update of no row. Whoever has read the table conflicts with it all the same.
    "
        script create table t (a); create table u (a); begin; select * from t; insert into u values (1); commit;
        script update t set a = 1 where false;

        order 1 1 1 1 2 1 1
        order 1 1 1 2 1 1 1
        replies committed 1; committed 2; begun at 2; rows (a) at 2; pending at 2 plus 1; \
            refused Conflict t was 1 now 3 at 3
        replies committed 3
        history by 1 / create table t (a); by 1 / create table u (a); by 2 / update t set $1 = 1 where false

        order 1 1 1 1 1 1 2
        replies committed 1; committed 2; begun at 2; rows (a) at 2; pending at 2 plus 1; committed 3
        replies committed 4
        history by 1 / create table t (a); by 1 / create table u (a); by 1 / insert into u (1); \
            by 2 / update t set $1 = 1 where false
    ",
    // A transaction that looks at what it has updated. The update is no read, and the query behind it is one.
    "
        script create table t (a); insert into t values (1); begin; update t set a = 2; select * from t; commit;
        script update t set a = 3;

        order 1 1 1 1 2 1 1
        replies committed 1; committed 2; begun at 2; pending at 2 plus 1; rows (a) at 2 plus 1 / (2); \
            refused Conflict t was 2 now 3 at 3
        replies committed 3
        history by 1 / create table t (a); by 1 / insert into t (1); by 2 / update t set $1 = 3 where true
    ",
    // Updates that are given up. Each sees what the deletion and the updates before it have made, and nobody else does.
    "
        script create table t (a, b); insert into t values (1, 1); insert into t values (2, ?x); begin; \
            delete from t where b = 1; update t set b = 2 where b = 3; update t set a = b where b = 2; select * from t; \
            rollback; select * from t;
        script select * from t;

        order 1 1 1 1 1 1 1 2 1 1 1
        replies committed 1; committed 2; committed 3; begun at 3; pending at 3 plus 1; pending at 3 plus 2; \
            pending at 3 plus 3; rows (a, b) at 3 plus 3 / (2, ?x) if ?x <> 1 and ?x <> 2 and ?x <> 3 / \
            (?x, ?x) if ?x <> 1 and ?x = 2 and ?x <> 3 / (2, 2) if ?x <> 1 and ?x = 3; rolled back; \
            rows (a, b) at 3 / (1, 1) / (2, ?x)
        replies rows (a, b) at 3 / (1, 1) / (2, ?x)
        history by 1 / create table t (a, b); by 1 / insert into t (1, 1); by 1 / insert into t (2, ?x)
    ",
];

#[test]
fn updates_and_assertions_beside_others(rt: HostRuntime) -> Result<(), Fail> {
    for case in CASES {
        play(&rt, rt.alloc(), ROOMY, case)?;
    }
    Ok(())
}

/// The rows of tables without nulls.
const TABLES: [&str; 9] = [
    "(1, 5)",
    "(5, 5)",
    "(1, 5), (1, 7)",
    "(1, 5), (5, 1), (7, 7)",
    "(5, 5), (5, 7), (7, 5), (7, 7)",
    "(1, 5), (2, 5), (3, 7), (7, 5)",
    "(1, 2), (2, 1), (2, 3), (3, 1)",
    "('5', 5), (5, '5'), ('a', 'b')",
    "(1, 1), (2, 2), (3, 5), (4, 5), (5, 5), (5, 7)",
];

/// The sets and the condition of updates, and the columns of the rows that each makes, where `n` is 7.
const UPDATES: [(&str, &str, &str); 4] = [
    ("b = 7", "b = 5", "a, n"),
    ("a = b, b = a", "a <> 5", "b, a"),
    ("a = b", "not (a = b or b = 7)", "b, b"),
    ("b = 7, a = 7", "a = 1 or b = 1", "n, n"),
];

/// What is said of the queries for rows that one of both tables has alone: there are none.
const ALIKE: &str = "13 committed 8\n14 rows (a, b) at 8\n15 rows (a, b) at 8\nhistory\n";

/// Two tables of these rows. One is updated; in the other one what would change is deleted, and what comes of it inserted.
fn is_both(
    rt: &(impl Threads + Wait + Abort + Sync),
    alloc: Global,
    rows: &str,
    (sets, condition, made): (&str, &str, &str),
) -> Result<(), Fail> {
    let script = format!(in alloc;
        "create table one (n); insert into one values (7); create table t (a, b); create table u (a, b);
         create table made (a, b); insert into t values {rows}; insert into u values {rows};
         begin; update t set {sets} where {condition}; insert into made select {made} from u, one where {condition};
         delete from u where {condition}; insert into u select * from made; commit;
         select * from t except select * from u; select * from u except select * from t;"
    )?;
    let transcript = served(rt, alloc, ROOMY, &[script.as_str()], &NoGate)?;
    let text = text_of(alloc, &transcript)?;
    assert!(rt; text.contains(ALIKE), "{text}");
    Ok(())
}

#[test]
fn updates_beside_deletions_and_insertions(rt: HostRuntime) -> Result<(), Fail> {
    for rows in TABLES {
        for update in UPDATES {
            is_both(&rt, rt.alloc(), rows, update)?;
        }
    }
    Ok(())
}
