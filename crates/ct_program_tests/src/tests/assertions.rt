// Assertions beside assertions, questions and changes of other sessions.

use crate::tests::played::{ROOMY, play};
use std::test::Fail;

const CASES: [&str; 6] = [
    // Two assertions. Of two transactions with an assertion each the second to commit has read the worlds before the
    // first one changed them. What its statements assert afterwards is judged by both.
    "
        script begin; assert ?x = 1; commit;
        script begin; assert ?y = 2; commit; assert ?y = 2; assert ?x = 2;

        order 1 2 1 2 1 2 2 2
        replies begun at 0; pending at 0 plus 1; committed 1
        replies begun at 0; pending at 0 plus 1; refused Conflict worlds was 0 now 1 at 1; committed 2; refused Inconsistent
        history by 1 / assert ?x = 1; by 2 / assert ?y = 2

        order 2 1 2 1 2 1 2 2
        replies begun at 0; pending at 0 plus 1; refused Conflict worlds was 0 now 1 at 1
        replies begun at 0; pending at 0 plus 1; committed 1; committed 2; committed 3
        history by 2 / assert ?y = 2; by 2 / assert ?y = 2; by 2 / assert ?x = 2
    ",
    // Contradicting assertions. An assertion outside a transaction contradicts one within a transaction: whichever
    // comes first stays.
    "
        script begin; assert ?x = 1; commit;
        script assert ?x = 2;

        order 1 1 2 1
        replies begun at 0; pending at 0 plus 1; refused Conflict worlds was 0 now 1 at 1
        replies committed 1
        history by 2 / assert ?x = 2

        order 2 1 1 1
        replies begun at 1; refused Inconsistent; nothing to commit at 1
        replies committed 1
        history by 2 / assert ?x = 2

        order 1 1 1 2
        replies begun at 0; pending at 0 plus 1; committed 1
        replies refused Inconsistent
        history by 1 / assert ?x = 1
    ",
    // Assertion that says nothing. An assertion of what is true anyway is one all the same.
    "
        script begin; assert ?x = 1; commit;
        script assert 1 = 1;

        order 1 1 2 1
        replies begun at 0; pending at 0 plus 1; refused Conflict worlds was 0 now 1 at 1
        replies committed 1
        history by 2 / assert true

        order 1 1 1 2
        replies begun at 0; pending at 0 plus 1; committed 1
        replies committed 2
        history by 1 / assert ?x = 1; by 2 / assert true
    ",
    // A transaction that only asks. A transaction that only asks has nothing to commit, so it never conflicts. It sees
    // no later assertion.
    "
        script create table t (a); insert into t values (?x); begin; certain select a from t; commit; \
            certain select a from t;
        script assert ?x = 1;

        order 1 1 1 1 2 1 1
        order 1 1 1 2 1 1 1
        replies committed 1; committed 2; begun at 2; certain (a) at 2; nothing to commit at 2; \
            certain (a) at 3 / (1) absence refuted
        replies committed 3
        history by 1 / create table t (a); by 1 / insert into t (?x); by 2 / assert ?x = 1

        order 1 1 2 1 1 1 1
        replies committed 1; committed 2; begun at 3; certain (a) at 3 / (1) absence refuted; nothing to commit at 3; \
            certain (a) at 3 / (1) absence refuted
        replies committed 3
        history by 1 / create table t (a); by 1 / insert into t (?x); by 2 / assert ?x = 1
    ",
    // A transaction that asks and changes. A query has read the worlds too, so a transaction that asks and then changes
    // something conflicts with an assertion.
    "
        script create table t (a); create table u (a); insert into t values (?x); begin; select a from t; \
            insert into u values (1); commit; select a from u;
        script assert ?x = 1;

        order 1 1 1 1 1 2 1 1 1
        replies committed 1; committed 2; committed 3; begun at 3; rows (a) at 3 / (?x); pending at 3 plus 1; \
            refused Conflict worlds was 0 now 4 at 4; rows (a) at 4 / worlds where ?x = 1
        replies committed 4
        history by 1 / create table t (a); by 1 / create table u (a); by 1 / insert into t (?x); by 2 / assert ?x = 1

        order 1 1 1 2 1 1 1 1 1
        replies committed 1; committed 2; committed 3; begun at 4; rows (a) at 4 / worlds where ?x = 1 / (?x); \
            pending at 4 plus 1; committed 5; rows (a) at 5 / worlds where ?x = 1 / (1)
        replies committed 4
        history by 1 / create table t (a); by 1 / create table u (a); by 1 / insert into t (?x); by 2 / assert ?x = 1; \
            by 1 / insert into u (1)
    ",
    // A transaction that reads nothing. A transaction that reads nothing commits beside an assertion, and the assertion
    // beside it, in either order.
    "
        script create table t (a); begin; insert into t values (1); commit;
        script begin; assert ?x = 1; commit;

        order 1 1 2 1 2 1 2
        replies committed 1; begun at 1; pending at 1 plus 1; committed 2
        replies begun at 1; pending at 1 plus 1; committed 3
        history by 1 / create table t (a); by 1 / insert into t (1); by 2 / assert ?x = 1

        order 1 1 2 1 2 2 1
        replies committed 1; begun at 1; pending at 1 plus 1; committed 3
        replies begun at 1; pending at 1 plus 1; committed 2
        history by 1 / create table t (a); by 2 / assert ?x = 1; by 1 / insert into t (1)
    ",
];

#[test]
fn assertions_beside_others(rt: HostRuntime) -> Result<(), Fail> {
    for case in CASES {
        play(&rt, rt.alloc(), ROOMY, case)?;
    }
    Ok(())
}
