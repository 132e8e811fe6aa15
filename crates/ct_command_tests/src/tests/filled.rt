// Runs in memory on a log that fills at each of its words in turn, by updates and by assertions over queries and keys.

use crate::tests::memory::{Ended, faultless, run_with};
use ct_outside::NoGate;
use std::alloc::Global;
use std::process::Abort;
use std::sync::Wait;
use std::test::Fail;
use std::thread::Threads;

/// Scripts that have a query of all rows, which makes no word, behind each change: updates and each assertion over a table,
/// outside a transaction and in one; and updates that double the rows.
const SCRIPTS: [&str; 2] = [
    "create table t (a, b); insert into t values (1, ?x), ('one', ?y); select * from t;
     update t set b = a, a = ?z where b = 2; select * from t; assert not exists (select * from t where b = 3);
     select * from t; assert exists (select b from t where a <> 'two'); select * from t; assert key t (b); select * from t;
     begin; update t set a = 'ten'; select * from t; assert exists (select * from t where b = ?w); select * from t;
     update t set a = 4, b = 5 where b <> a; select * from t; assert key t (a, b); select * from t; commit;
     select * from t; rollback; select * from t",
    "create table t (a, b, c, d, e); insert into t values (0, 0, 0, 0, 0); select * from t;
     update t set a = 1 where ?a = 1; select * from t; update t set b = 1 where ?b = 1; select * from t;
     update t set c = 1 where ?c = 1; select * from t; update t set d = 1 where ?d = 1; select * from t;
     update t set e = 1 where ?e = 1; select * from t",
];

/// Runs a script on a log of this capacity.
fn run_on_log(
    rt: &(impl Threads + Wait + Abort + Sync),
    alloc: Global,
    capacity: usize,
    script: &str,
) -> Result<Ended, Fail> {
    let words = format!(in alloc; "run --arena {capacity} f")?;
    let given = faultless(script.as_bytes());
    run_with(rt, alloc, words.as_str(), given, &NoGate)
}

/// The script with `none` in the place of each statement that found the log full, where a run of it wrote this.
fn without_full(alloc: Global, script: &str, written: &[u8]) -> Result<String, Fail> {
    let written = str::from_utf8(written)?;
    let mut text = String::new(alloc);
    for (before, statement) in script.split(';').enumerate() {
        let full = format!(in alloc; "\n{} refused Full\n", before.saturating_add(1))?;
        let is_full = written.contains(full.as_str());
        text.push_str(if is_full { "none" } else { statement })?;
        text.push_str(";")?;
    }
    Ok(text)
}

/// Two runs write the same, but for what is full in the small log, and no statement in the large one.
fn are_alike(rt: &impl Abort, alloc: Global, small: &[u8], large: &[u8]) -> Result<(), Fail> {
    let large = str::from_utf8(large)?;
    let wanted = large.replace(alloc, "refused NotAStatement", "refused Full")?;
    assert_eq!(rt; str::from_utf8(small)?, wanted.as_str());
    Ok(())
}

/// On a log of this capacity a script is answered as on a large one where each statement that finds the log full is none.
/// There is one, unless the log has as many words as it needs. At the end it has as many words as its capacity.
fn is_answered(
    rt: &(impl Threads + Wait + Abort + Sync),
    alloc: Global,
    script: &str,
    capacity: usize,
    is_enough: bool,
) -> Result<(), Fail> {
    let small = run_on_log(rt, alloc, capacity, script)?;
    assert_eq!(rt; small.words, capacity);
    let rest = without_full(alloc, script, small.out.bytes())?;
    assert!(rt;
        rest.contains("none;") != is_enough,
        "a log of {capacity} words"
    );
    let large = run_on_log(rt, alloc, 4_096, rest.as_str())?;
    are_alike(rt, alloc, small.out.bytes(), large.out.bytes())
}

/// A script on logs of all capacities, up to the words that it needs.
fn fill_at_each_word(
    rt: &(impl Threads + Wait + Abort + Sync),
    alloc: Global,
    script: &str,
) -> Result<(), Fail> {
    let need = run_on_log(rt, alloc, 4_096, script)?.words;
    assert!(rt; 96 < need && need < 1_024, "{need} words");
    for capacity in 64..=need {
        is_answered(rt, alloc, script, capacity, capacity == need)?;
    }
    Ok(())
}

#[test]
fn a_log_that_fills_at_each_word(rt: HostRuntime) -> Result<(), Fail> {
    for script in SCRIPTS {
        fill_at_each_word(&rt, rt.alloc(), script)?;
    }
    Ok(())
}
