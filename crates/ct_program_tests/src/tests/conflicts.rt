// Which commits are refused since another session has changed what was read, and which never are.

use crate::tests::played::{ROOMY, play};
use std::test::Fail;

const CASES: [&str; 7] = [
    // Insertions never conflict. An insertion reads nothing, so two sessions that insert into one table both commit, in
    // either order.
    "
        script create table t (a); insert into t values (1); select * from t;
        script begin; insert into t values (2); commit;

        order 1 2 2 1 2 1
        replies committed 1; committed 2; rows (a) at 3 / (1) / (2)
        replies begun at 1; pending at 1 plus 1; committed 3
        history by 1 / create table t (a); by 1 / insert into t (1); by 2 / insert into t (2)

        order 1 2 2 2 1 1
        replies committed 1; committed 3; rows (a) at 3 / (2) / (1)
        replies begun at 1; pending at 1 plus 1; committed 2
        history by 1 / create table t (a); by 2 / insert into t (2); by 1 / insert into t (1)
    ",
    // A table that was read changes. What a transaction sees is its base, and what it read may change only after its
    // commit.
    "
        script create table t (a); create table u (a); begin; select * from t; insert into u values (1); commit; \
            select * from u;
        script insert into t values (5);

        order 1 1 1 1 2 1 1 1
        order 1 1 1 2 1 1 1 1
        replies committed 1; committed 2; begun at 2; rows (a) at 2; pending at 2 plus 1; \
            refused Conflict t was 1 now 3 at 3; rows (a) at 3
        replies committed 3
        history by 1 / create table t (a); by 1 / create table u (a); by 2 / insert into t (5)

        order 1 1 1 1 1 1 2 1
        replies committed 1; committed 2; begun at 2; rows (a) at 2; pending at 2 plus 1; committed 3; rows (a) at 4 / (1)
        replies committed 4
        history by 1 / create table t (a); by 1 / create table u (a); by 1 / insert into u (1); by 2 / insert into t (5)
    ",
    // One name twice. Of one statement of two sessions the second finds the name taken.
    "
        script create table t (a)
        script create table t (a)

        order 1 2
        replies committed 1
        replies refused TableExists
        history by 1 / create table t (a)

        order 2 1
        replies refused TableExists
        replies committed 1
        history by 2 / create table t (a)
    ",
    // One name in two transactions. Of two transactions that create one name the second to commit conflicts on the
    // name.
    "
        script begin; create table t (a); commit; select * from t;
        script begin; create table t (b); commit; select * from t;

        order 1 2 1 2 1 2 2 1
        replies begun at 0; pending at 0 plus 1; committed 1; rows (a) at 1
        replies begun at 0; pending at 0 plus 1; refused Conflict t was 0 now 1 at 1; rows (a) at 1
        history by 1 / create table t (a)

        order 2 1 2 1 2 1 1 2
        replies begun at 0; pending at 0 plus 1; refused Conflict t was 0 now 1 at 1; rows (b) at 1
        replies begun at 0; pending at 0 plus 1; committed 1; rows (b) at 1
        history by 2 / create table t (b)
    ",
    // Blind writes of three sessions. Three transactions that change one table and read nothing all commit, whichever
    // comes first.
    "
        script create table t (a); begin; insert into t values (1); commit; select * from t;
        script begin; insert into t values (2); commit;
        script begin; delete from t where a = 1; insert into t values (3); commit;

        order 1 1 2 3 1 2 3 3 1 2 3 1
        replies committed 1; begun at 1; pending at 1 plus 1; committed 2; rows (a) at 4 / (2) / (3)
        replies begun at 1; pending at 1 plus 1; committed 3
        replies begun at 1; pending at 1 plus 1; pending at 1 plus 2; committed 4
        history by 1 / create table t (a); by 1 / insert into t (1); by 2 / insert into t (2); \
            by 3 / delete from t where $1 = 1 / insert into t (3)

        order 1 3 2 1 3 3 2 1 3 2 1 1
        replies committed 1; begun at 1; pending at 1 plus 1; committed 4; rows (a) at 4 / (3) / (2) / (1)
        replies begun at 1; pending at 1 plus 1; committed 3
        replies begun at 1; pending at 1 plus 1; pending at 1 plus 2; committed 2
        history by 1 / create table t (a); by 3 / delete from t where $1 = 1 / insert into t (3); \
            by 2 / insert into t (2); by 1 / insert into t (1)
    ",
    // Disjoint reads. Two transactions that read and change tables of their own both commit.
    "
        script create table x (a); create table y (a); begin; select a from x; insert into x values (1); commit;
        script begin; select a from y; insert into y values (2); commit;

        order 1 1 1 2 1 2 1 2 1 2
        replies committed 1; committed 2; begun at 2; rows (a) at 2; pending at 2 plus 1; committed 3
        replies begun at 2; rows (a) at 2; pending at 2 plus 1; committed 4
        history by 1 / create table x (a); by 1 / create table y (a); by 1 / insert into x (1); by 2 / insert into y (2)

        order 1 1 2 1 2 1 2 1 2 1
        replies committed 1; committed 2; begun at 2; rows (a) at 2; pending at 2 plus 1; committed 4
        replies begun at 2; rows (a) at 2; pending at 2 plus 1; committed 3
        history by 1 / create table x (a); by 1 / create table y (a); by 2 / insert into y (2); by 1 / insert into x (1)
    ",
    // Insertion from a query. An insertion from a query has read its source, and conflicts with what comes into the
    // source meanwhile.
    "
        script create table t (a); create table u (a); begin; insert into u select a from t; commit; select a from u;
        script insert into t values (1);

        order 1 1 1 1 2 1 1
        replies committed 1; committed 2; begun at 2; pending at 2 plus 1; refused Conflict t was 1 now 3 at 3; \
            rows (a) at 3
        replies committed 3
        history by 1 / create table t (a); by 1 / create table u (a); by 2 / insert into t (1)

        order 1 1 2 1 1 1 1
        replies committed 1; committed 2; begun at 3; pending at 3 plus 1; committed 4; rows (a) at 4 / (1)
        replies committed 3
        history by 1 / create table t (a); by 1 / create table u (a); by 2 / insert into t (1); by 1 / insert into u (1)

        order 1 1 1 1 1 2 1
        replies committed 1; committed 2; begun at 2; pending at 2 plus 1; committed 3; rows (a) at 4
        replies committed 4
        history by 1 / create table t (a); by 1 / create table u (a); by 1 / insert into u nothing; by 2 / insert into t (1)
    ",
];

#[test]
fn conflicts_are_found(rt: HostRuntime) -> Result<(), Fail> {
    for case in CASES {
        play(&rt, rt.alloc(), ROOMY, case)?;
    }
    Ok(())
}
