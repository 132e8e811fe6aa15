// The anomalies that weaker levels of isolation allow. Each case has one order in which some level would show it.

use crate::tests::played::{ROOMY, play};
use std::test::Fail;

const CASES: [&str; 8] = [
    // Lost update. Both transactions read the counter and add its successor: the second one is refused, reads again,
    // and commits.
    "
        script create table t (n); insert into t values (1); begin; select n from t; insert into t values (2); commit;
        script begin; select n from t; insert into t values (2); commit; begin; select n from t; insert into t values (3); \
            commit;

        order 1 1 1 2 1 2 1 2 1 2 2 2 2 2
        replies committed 1; committed 2; begun at 2; rows (n) at 2 / (1); pending at 2 plus 1; committed 3
        replies begun at 2; rows (n) at 2 / (1); pending at 2 plus 1; refused Conflict t was 2 now 3 at 3; begun at 3; \
            rows (n) at 3 / (1) / (2); pending at 3 plus 1; committed 4
        history by 1 / create table t (n); by 1 / insert into t (1); by 1 / insert into t (2); by 2 / insert into t (3)

        order 1 1 2 1 2 1 2 1 2 1 2 2 2 2
        replies committed 1; committed 2; begun at 2; rows (n) at 2 / (1); pending at 2 plus 1; \
            refused Conflict t was 2 now 3 at 3
        replies begun at 2; rows (n) at 2 / (1); pending at 2 plus 1; committed 3; begun at 3; rows (n) at 3 / (1) / (2); \
            pending at 3 plus 1; committed 4
        history by 1 / create table t (n); by 1 / insert into t (1); by 2 / insert into t (2); by 2 / insert into t (3)
    ",
    // Write skew. Each of two transactions writes the table that the other one reads: one of them is refused.
    "
        script create table x (a); create table y (a); begin; select a from x; insert into y values (1); commit;
        script begin; select a from y; insert into x values (1); commit;

        order 1 1 1 2 1 2 1 2 1 2
        replies committed 1; committed 2; begun at 2; rows (a) at 2; pending at 2 plus 1; committed 3
        replies begun at 2; rows (a) at 2; pending at 2 plus 1; refused Conflict y was 2 now 3 at 3
        history by 1 / create table x (a); by 1 / create table y (a); by 1 / insert into y (1)

        order 1 1 2 1 2 1 2 1 2 1
        replies committed 1; committed 2; begun at 2; rows (a) at 2; pending at 2 plus 1; \
            refused Conflict x was 1 now 3 at 3
        replies begun at 2; rows (a) at 2; pending at 2 plus 1; committed 3
        history by 1 / create table x (a); by 1 / create table y (a); by 2 / insert into x (1)
    ",
    // Phantom. A row that the predicate of a query would find comes meanwhile. The query had no row, and is a read all
    // the same.
    "
        script create table t (a); create table u (a); insert into t values (1); begin; select a from t where a = 2; \
            insert into u values (0); commit;
        script insert into t values (2);

        order 1 1 1 1 1 2 1 1
        replies committed 1; committed 2; committed 3; begun at 3; rows (a) at 3; pending at 3 plus 1; \
            refused Conflict t was 3 now 4 at 4
        replies committed 4
        history by 1 / create table t (a); by 1 / create table u (a); by 1 / insert into t (1); by 2 / insert into t (2)

        order 1 1 1 2 1 1 1 1
        replies committed 1; committed 2; committed 3; begun at 4; rows (a) at 4 / (2); pending at 4 plus 1; committed 5
        replies committed 4
        history by 1 / create table t (a); by 1 / create table u (a); by 1 / insert into t (1); by 2 / insert into t (2); \
            by 1 / insert into u (0)
    ",
    // Read only anomaly. Session 2 takes from `x` by what it saw of both accounts, session 1 pays into `y`, and session
    // 3 only reads. Where session 3 sees the payment and no withdrawal, session 2 can't have come first, so it is
    // refused.
    "
        script create table x (n); create table y (n); begin; select n from y; insert into y values (20); commit;
        script begin; select n from x; select n from y; insert into x values (-11); commit;
        script begin; select n from x; select n from y; commit;

        order 1 1 2 2 2 1 1 1 1 3 3 3 3 2 2
        replies committed 1; committed 2; begun at 2; rows (n) at 2; pending at 2 plus 1; committed 3
        replies begun at 2; rows (n) at 2; rows (n) at 2; pending at 2 plus 1; refused Conflict y was 2 now 3 at 3
        replies begun at 3; rows (n) at 3; rows (n) at 3 / (20); nothing to commit at 3
        history by 1 / create table x (n); by 1 / create table y (n); by 1 / insert into y (20)

        order 1 1 2 2 2 1 1 2 2 3 3 3 3 1 1
        replies committed 1; committed 2; begun at 2; rows (n) at 2; pending at 2 plus 1; committed 4
        replies begun at 2; rows (n) at 2; rows (n) at 2; pending at 2 plus 1; committed 3
        replies begun at 3; rows (n) at 3 / (-11); rows (n) at 3; nothing to commit at 3
        history by 1 / create table x (n); by 1 / create table y (n); by 2 / insert into x (-11); by 1 / insert into y (20)
    ",
    // Read skew. Of two changes of one commit a transaction sees both or none, whichever table it asks before and
    // after.
    "
        script create table x (a); create table y (a); begin; select a from x; select a from y; commit;
        script begin; insert into x values (1); insert into y values (2); commit;

        order 1 1 1 1 2 2 2 2 1 1
        replies committed 1; committed 2; begun at 2; rows (a) at 2; rows (a) at 2; nothing to commit at 2
        replies begun at 2; pending at 2 plus 1; pending at 2 plus 2; committed 3
        history by 1 / create table x (a); by 1 / create table y (a); by 2 / insert into x (1) / insert into y (2)

        order 1 1 2 2 2 2 1 1 1 1
        replies committed 1; committed 2; begun at 3; rows (a) at 3 / (1); rows (a) at 3 / (2); nothing to commit at 3
        replies begun at 2; pending at 2 plus 1; pending at 2 plus 2; committed 3
        history by 1 / create table x (a); by 1 / create table y (a); by 2 / insert into x (1) / insert into y (2)
    ",
    // Dirty read. Changes that are rolled back later are never seen.
    "
        script create table t (a); select * from t; select * from t;
        script begin; insert into t values (1); rollback;

        order 1 2 2 1 2 1
        order 1 1 2 2 1 2
        replies committed 1; rows (a) at 1; rows (a) at 1
        replies begun at 1; pending at 1 plus 1; rolled back
        history by 1 / create table t (a)
    ",
    // Intermediate read. Changes that the same transaction replaces later are never seen, and its last ones only after
    // its commit.
    "
        script create table t (a); select * from t; select * from t; select * from t;
        script begin; insert into t values (1); delete from t where a = 1; insert into t values (2); commit;

        order 1 2 2 1 2 1 2 2 1
        order 1 2 2 1 2 2 1 2 1
        replies committed 1; rows (a) at 1; rows (a) at 1; rows (a) at 2 / (2)
        replies begun at 1; pending at 1 plus 1; pending at 1 plus 2; pending at 1 plus 3; committed 2
        history by 1 / create table t (a); by 2 / insert into t (1) / delete from t where $1 = 1 / insert into t (2)
    ",
    // Repeated read. A query that is repeated in a transaction is answered alike, whatever is committed meanwhile.
    "
        script create table t (a); insert into t values (1); begin; select * from t; select * from t; select * from t; \
            commit;
        script insert into t values (2); delete from t where a = 1;

        order 1 1 1 1 2 1 2 1 1
        order 1 1 1 2 2 1 1 1 1
        replies committed 1; committed 2; begun at 2; rows (a) at 2 / (1); rows (a) at 2 / (1); rows (a) at 2 / (1); \
            nothing to commit at 2
        replies committed 3; committed 4
        history by 1 / create table t (a); by 1 / insert into t (1); by 2 / insert into t (2); \
            by 2 / delete from t where $1 = 1
    ",
];

#[test]
fn no_anomaly_is_shown(rt: HostRuntime) -> Result<(), Fail> {
    for case in CASES {
        play(&rt, rt.alloc(), ROOMY, case)?;
    }
    Ok(())
}
