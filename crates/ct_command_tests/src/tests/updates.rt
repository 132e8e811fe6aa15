// Runs in memory of updates, and of assertions over queries and keys.

use crate::tests::memory::{ends, faultless, run_with};
use ct_outside::NoGate;
use ct_run::Status;
use std::test::Fail;

/// Scripts, the status of a run of each, and what it writes.
const RUNS: [(&str, Status, &str); 4] = [
    // Where it depends on a null whether a row is replaced, both rows are there.
    (
        "create table t (a, b); insert into t values (1, ?x), (2, 5); update t set b = 7 where b = 5; select * from t;",
        Status::Done,
        "session 1\n1 committed 1\n2 committed 2\n3 committed 3\n\
            4 rows (a, b) at 3\n  (1, ?x) if ?x <> 5\n  (1, 7) if ?x = 5\n  (2, 7)\nhistory\n\
            1 by 1\n  create table t (a, b)\n2 by 1\n  insert into t (1, ?x); (2, 5)\n\
            3 by 1\n  update t set $2 = 7 where $2 = 5\nend\n",
    ),
    // All new values are taken from the old row.
    (
        "create table t (a, b); insert into t values (1, 2); update t set a = b, b = a; select * from t;
         update t set a = 1, a = 2; update t set c = 1; update t set a = null; select * from t;",
        Status::Refused,
        "session 1\n1 committed 1\n2 committed 2\n3 committed 3\n4 rows (a, b) at 3\n  (2, 1)\n\
            5 refused DuplicateName\n6 refused UnknownColumn\n7 refused NotAStatement\n8 rows (a, b) at 3\n  (2, 1)\n\
            history\n1 by 1\n  create table t (a, b)\n2 by 1\n  insert into t (1, 2)\n\
            3 by 1\n  update t set $1 = $2, $2 = $1 where true\nend\n",
    ),
    // A key, and queries that have no row and one.
    (
        "create table t (a, b); insert into t values (1, ?x), (1, 2); assert key t (a); select * from t;
         assert not exists (select * from t where a = 3); assert exists (select * from t where b = 9);",
        Status::Refused,
        "session 1\n1 committed 1\n2 committed 2\n3 committed 3\n\
            4 rows (a, b) at 3\n  worlds where ?x = 2\n  (1, ?x)\n  (1, 2)\n5 committed 4\n6 refused Inconsistent\n\
            history\n1 by 1\n  create table t (a, b)\n2 by 1\n  insert into t (1, ?x); (1, 2)\n3 by 1\n  assert ?x = 2\n\
            4 by 1\n  assert true\nend\n",
    ),
    // A table of no rows, and a key of all columns.
    (
        "create table t (a, b); assert key t (a); assert not exists (select * from t); assert exists (select * from t);
         update t set a = b; insert into t values (1, ?x), (1, 2); assert key t (b, a); select * from t",
        Status::Refused,
        "session 1\n1 committed 1\n2 committed 2\n3 committed 3\n4 refused Inconsistent\n5 committed 4\n\
            6 committed 5\n7 committed 6\n8 rows (a, b) at 6\n  (1, ?x)\n  (1, 2)\nhistory\n\
            1 by 1\n  create table t (a, b)\n2 by 1\n  assert true\n3 by 1\n  assert true\n\
            4 by 1\n  update t set $1 = $2 where true\n5 by 1\n  insert into t (1, ?x); (1, 2)\n6 by 1\n  assert true\n\
            end\n",
    ),
];

#[test]
fn updates_and_assertions(rt: HostRuntime) -> Result<(), Fail> {
    for (script, status, written) in RUNS {
        let given = faultless(script.as_bytes());
        ends(&rt, rt.alloc(), "run f", given, status, written)?;
    }
    Ok(())
}

/// Keys of a table of 4,097 rows, and of the 512 that are left of it.
const MANY_ROWS: &str =
    "create table digit (n); insert into digit values (0), (1), (2), (3), (4), (5), (6), (7);
    create table t (a, b, c, d); insert into t select p.n, q.n, r.n, s.n from digit p, digit q, digit r, digit s;
    insert into t values (8, 8, 8, 8); assert key t (a, b, c, d); assert exists (select a from t where a = 8);
    delete from t where a <> 0; assert key t (a, b, c, d); assert key t (d, c);";

/// What a run of it writes first.
const MANY_ROWS_ANSWERED: &str =
    "session 1\n1 committed 1\n2 committed 2\n3 committed 3\n4 committed 4\n5 committed 5\n\
    6 refused TooLarge\n7 committed 6\n8 committed 7\n9 committed 8\n10 refused Inconsistent\nhistory\n";

#[test]
fn keys_of_many_rows(rt: HostRuntime) -> Result<(), Fail> {
    let given = faultless(MANY_ROWS.as_bytes());
    let ended = run_with(&rt, rt.alloc(), "run f", given, &NoGate)?;
    let written = ended.out.bytes();
    assert!(rt; written.starts_with(MANY_ROWS_ANSWERED.as_bytes()));
    Ok(())
}
