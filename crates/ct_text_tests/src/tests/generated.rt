// Generated scripts, with lines worked from their description.

use ct_fill::script;
use ct_word::Text;
use std::alloc::Global;
use std::test::Fail;

/// The script of session 2 with nine rows, after which the nulls come round again.
const NINE: &str = "create table f2 (a, b);
insert into f2 values (1, ?f2_1);
insert into f2 values (2, ?f2_2);
insert into f2 values (3, ?f2_3);
insert into f2 values (4, ?f2_4);
insert into f2 values (5, ?f2_5);
insert into f2 values (6, ?f2_6);
insert into f2 values (7, ?f2_7);
insert into f2 values (8, ?f2_0);
insert into f2 values (9, ?f2_1);
insert into f2 values (0, 0);
delete from f2 where b = 3;
select a from f2 where b = 1;
possible select a from f2 where b = 1;
certain select a from f2;
";

/// The last lines of the script of session 4 with 2,000 rows.
const LAST: &str = "insert into f4 values (1999, ?f4_7);
insert into f4 values (2000, ?f4_0);
insert into f4 values (0, 0);
delete from f4 where b = 3;
select a from f4 where b = 1;
possible select a from f4 where b = 1;
certain select a from f4;
";

/// A script. Nothing is said of it, which keeps the tests short to prove.
fn made(alloc: Global, session: u32, rows: u32) -> Result<Text, Fail> {
    Ok(script(alloc, session, rows)?)
}

#[test]
fn scripts_are_as_described(rt: HostRuntime) -> Result<(), Fail> {
    let nine = made(rt.alloc(), 2, 9)?;
    assert_eq!(rt; nine.as_str(), NINE);
    drop(nine);
    let longest = made(rt.alloc(), 4, 2000)?;
    assert_eq!(rt; longest.as_str().len(), 73_070);
    assert!(rt; longest.as_str().ends_with(LAST));
    Ok(())
}
