// Hostile scripts: as deep and as long as they may be, and past that, faults side by side, and scripts that break off.

use crate::tests::memory::{ends, faultless, run_with};
use crate::tests::runs::EMPTY;
use ct_lex::split;
use ct_outside::NoGate;
use ct_run::Status;
use std::alloc::{AllocError, Global};
use std::process::Abort;
use std::sync::Wait;
use std::test::Fail;
use std::thread::Threads;

/// A script of a text that is repeated between two others, how a run of it ends, and what the run writes.
#[derive(Clone, Copy)]
struct Hostile<'a> {
    before: &'a str,
    text: &'a str,
    times: usize,
    after: &'a str,
    status: Status,
    written: &'a str,
}

/// What a run of one refused statement writes.
const TOO_DEEP: &str = "session 1\n1 refused TooDeep\nhistory\nend\n";

const NO_STATEMENT: &str = "session 1\n1 refused NotAStatement\nhistory\nend\n";

/// A table of one row.
const ONE_ROW: &str = "create table t (a); insert into t values (1);";

/// Conditions of as many NOTs and parentheses as there may be, and of one more.
const CONDITIONS: [Hostile; 5] = [
    Hostile {
        before: "assert ",
        text: "not ",
        times: 64,
        after: "true",
        status: Status::Done,
        written: "session 1\n1 committed 1\nhistory\n1 by 1\n  assert true\nend\n",
    },
    Hostile {
        before: "assert ",
        text: "not ",
        times: 63,
        after: "true",
        status: Status::Refused,
        written: "session 1\n1 refused Inconsistent\nhistory\nend\n",
    },
    Hostile {
        before: "assert ",
        text: "not ",
        times: 65,
        after: "true",
        status: Status::Refused,
        written: TOO_DEEP,
    },
    Hostile {
        before: "assert ",
        text: "(",
        times: 64,
        after: "",
        status: Status::Refused,
        written: NO_STATEMENT,
    },
    Hostile {
        before: "assert ",
        text: "(",
        times: 65,
        after: "",
        status: Status::Refused,
        written: TOO_DEEP,
    },
];

/// Queries of as many set operators as there may be, and of one more; two faults in one text; a semicolon in a text.
const STATEMENTS: [Hostile; 5] = [
    Hostile {
        before: ONE_ROW,
        text: "select * from t union ",
        times: 64,
        after: "select * from t",
        status: Status::Done,
        written: "session 1\n1 committed 1\n2 committed 2\n3 rows (a) at 2\n  (1)\nhistory\n\
            1 by 1\n  create table t (a)\n2 by 1\n  insert into t (1)\nend\n",
    },
    Hostile {
        before: ONE_ROW,
        text: "select * from t union ",
        times: 65,
        after: "select * from t",
        status: Status::Refused,
        written: "session 1\n1 committed 1\n2 committed 2\n3 refused TooDeep\nhistory\n\
            1 by 1\n  create table t (a)\n2 by 1\n  insert into t (1)\nend\n",
    },
    Hostile {
        before: "assert 99999999999999999999 = 'open",
        text: "",
        times: 0,
        after: "",
        status: Status::Refused,
        written: "session 1\n1 refused NumberRange\nhistory\nend\n",
    },
    Hostile {
        before: "assert # 99999999999999999999",
        text: "",
        times: 0,
        after: "",
        status: Status::Refused,
        written: NO_STATEMENT,
    },
    Hostile {
        before: ONE_ROW,
        text: "insert into t values (';')",
        times: 1,
        after: "",
        status: Status::Done,
        written: "session 1\n1 committed 1\n2 committed 2\n3 committed 3\nhistory\n\
            1 by 1\n  create table t (a)\n2 by 1\n  insert into t (1)\n3 by 1\n  insert into t (';')\nend\n",
    },
];

/// One statement more than a script may have, and as many bytes without a statement.
const LONG: [Hostile; 2] = [
    Hostile {
        before: "",
        text: "rollback;",
        times: 65_536,
        after: "",
        status: Status::Script,
        written: "",
    },
    Hostile {
        before: "",
        text: ";",
        times: 1_048_576,
        after: "",
        status: Status::Done,
        written: EMPTY,
    },
];

/// A run of the script ends as it says.
fn is_answered(
    rt: &(impl Threads + Wait + Abort + Sync),
    alloc: Global,
    hostile: Hostile<'_>,
) -> Result<(), Fail> {
    let repeated = hostile.text.repeat(alloc, hostile.times)?;
    let script = format!(in alloc; "{}{repeated}{}", hostile.before, hostile.after)?;
    let given = faultless(script.as_bytes());
    ends(rt, alloc, "run f", given, hostile.status, hostile.written)
}

#[test]
fn deep_conditions(rt: HostRuntime) -> Result<(), Fail> {
    for hostile in CONDITIONS {
        is_answered(&rt, rt.alloc(), hostile)?;
    }
    Ok(())
}

#[test]
fn deep_queries_and_faults(rt: HostRuntime) -> Result<(), Fail> {
    for hostile in STATEMENTS {
        is_answered(&rt, rt.alloc(), hostile)?;
    }
    Ok(())
}

#[test]
fn long_scripts(rt: HostRuntime) -> Result<(), Fail> {
    for hostile in LONG {
        is_answered(&rt, rt.alloc(), hostile)?;
    }
    Ok(())
}

#[test]
fn a_text_that_is_none(rt: HostRuntime) -> Result<(), Fail> {
    let given = faultless(b"create table t (a); insert into t values ('\xc3\x28');");
    ends(&rt, rt.alloc(), "run f", given, Status::Script, "")
}

/// Adds the reply to the k-th ROLLBACK, where no transaction is open.
fn push_refused(alloc: Global, text: &mut String, k: u32) -> Result<(), AllocError> {
    text.push_str(format!(in alloc; "{k} refused NoTransaction\n")?.as_str())
}

/// What as many ROLLBACKs write as a script may have statements.
fn all_refused(alloc: Global) -> Result<String, AllocError> {
    let mut text = String::from_str(alloc, "session 1\n")?;
    for k in 1..65_536 {
        push_refused(alloc, &mut text, k)?;
    }
    text.push_str("history\nend\n")?;
    Ok(text)
}

#[test]
fn as_many_statements_as_there_may_be(rt: HostRuntime) -> Result<(), Fail> {
    let written = all_refused(rt.alloc())?;
    let hostile = Hostile {
        before: "",
        text: "rollback;",
        times: 65_535,
        after: "",
        status: Status::Refused,
        written: written.as_str(),
    };
    is_answered(&rt, rt.alloc(), hostile)
}

/// Two tables with nulls, a join of them, and an assertion between questions.
const SUPPLIES: &str = "create table supplies (part, supplier); \
    insert into supplies values ('bolt', 'Acme'), ('nut', ?s), ('gear', NULL); \
    create table reward (supplier); insert into reward values ('Acme'), ('Bolton'); \
    select part from supplies, reward where supplies.supplier = reward.supplier; \
    certain select part from supplies, reward where supplies.supplier = reward.supplier; \
    assert ?s = 'Acme' or ?s = 'Bolton'; \
    certain select part from supplies, reward where supplies.supplier = reward.supplier; \
    possible select part from supplies, reward where supplies.supplier = reward.supplier;";

/// How many replies there are in what a run of one file writes: the lines before the history that begin with a number.
fn replies_in(written: &str) -> usize {
    let (replies, _) = written.split_once("history\n").unwrap_or(("", ""));
    replies
        .lines()
        .filter(|line| line.starts_with(|c: char| c.is_ascii_digit()))
        .count()
}

/// What a run of a script writes has a reply for each of so many texts, and none for want of memory.
fn has_replies(rt: &impl Abort, written: &[u8], texts: usize) -> Result<(), Fail> {
    let written = str::from_utf8(written)?;
    assert_eq!(rt; replies_in(written), texts);
    assert!(rt; !written.contains("refused Memory"));
    Ok(())
}

/// A script that breaks off is answered text by text.
fn front_is_answered(
    rt: &(impl Threads + Wait + Abort + Sync),
    alloc: Global,
    front: &str,
) -> Result<(), Fail> {
    let given = faultless(front.as_bytes());
    let ended = run_with(rt, alloc, "run --arena 4096 f", given, &NoGate)?;
    assert!(rt; matches!(ended.status, Status::Done | Status::Refused));
    has_replies(rt, ended.out.bytes(), split(alloc, front)?.len())
}

/// The script breaks off at each of its bytes, the first and the last one too.
#[test]
fn each_front_of_a_script(rt: HostRuntime) -> Result<(), Fail> {
    for length in 0..=SUPPLIES.len() {
        front_is_answered(&rt, rt.alloc(), SUPPLIES.get(..length).unwrap_or(""))?;
    }
    Ok(())
}
