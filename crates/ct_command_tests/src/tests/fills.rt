// Runs in memory of generated scripts: their summary, and a sink that fails at one of its lines.

use crate::tests::memory::{Given, ends, faultless, is_ended, run_with};
use ct_outside::NoGate;
use ct_run::Status;
use std::test::Fail;

/// The summary of the scripts that are made with 1.
const ONE: &str = "\
fill 1
session 1: 7 statements, 0 refused, 1 rows, 1 possible, 1 certain
session 2: 7 statements, 0 refused, 1 rows, 1 possible, 1 certain
session 3: 7 statements, 0 refused, 1 rows, 1 possible, 1 certain
session 4: 7 statements, 0 refused, 1 rows, 1 possible, 1 certain
commits 16
";

/// The summary of those that are made with 3.
const THREE: &str = "\
fill 3
session 1: 9 statements, 0 refused, 3 rows, 3 possible, 1 certain
session 2: 9 statements, 0 refused, 3 rows, 3 possible, 1 certain
session 3: 9 statements, 0 refused, 3 rows, 3 possible, 1 certain
session 4: 9 statements, 0 refused, 3 rows, 3 possible, 1 certain
commits 24
";

/// The summary of those that are made with 8.
const EIGHT: &str = "\
fill 8
session 1: 14 statements, 0 refused, 8 rows, 8 possible, 1 certain
session 2: 14 statements, 0 refused, 8 rows, 8 possible, 1 certain
session 3: 14 statements, 0 refused, 8 rows, 8 possible, 1 certain
session 4: 14 statements, 0 refused, 8 rows, 8 possible, 1 certain
commits 44
";

/// The summary of those that are made with 100.
const HUNDRED: &str = "\
fill 100
session 1: 106 statements, 0 refused, 100 rows, 100 possible, 1 certain
session 2: 106 statements, 0 refused, 100 rows, 100 possible, 1 certain
session 3: 106 statements, 0 refused, 100 rows, 100 possible, 1 certain
session 4: 106 statements, 0 refused, 100 rows, 100 possible, 1 certain
commits 412
";

#[test]
fn generated_scripts(rt: HostRuntime) -> Result<(), Fail> {
    let runs = [
        ("fill 1", ONE),
        ("fill 8", EIGHT),
        ("fill 100", HUNDRED),
        ("fill 100", HUNDRED),
    ];
    for (words, summary) in runs {
        ends(
            &rt,
            rt.alloc(),
            words,
            faultless(b""),
            Status::Done,
            summary,
        )?;
    }
    Ok(())
}

/// Words, the writes that fail, each after so many of its bytes, how a run whose first read would fail ends, and how much
/// it writes of the summary of 3.
type Front = (&'static str, &'static [(u64, u32)], Status, usize);

/// Whole summaries, some that are cut off, and words that ask for none.
const FRONTS: [Front; 12] = [
    ("fill 3", &[], Status::Done, 282),
    ("fill 0003", &[(7, 0)], Status::Done, 282),
    ("fill 3", &[(1, 0)], Status::WriteFault, 0),
    ("fill 3", &[(2, 0)], Status::WriteFault, 7),
    ("fill 3", &[(3, 1)], Status::WriteFault, 74),
    ("fill 3", &[(4, 0)], Status::WriteFault, 139),
    ("fill 3", &[(5, 0)], Status::WriteFault, 205),
    ("fill 3", &[(6, 2)], Status::WriteFault, 273),
    ("fill 0", &[], Status::Words, 0),
    ("fill 2001", &[], Status::Words, 0),
    ("fill", &[], Status::Words, 0),
    ("fill 3 f", &[], Status::Words, 0),
];

#[test]
fn summaries_beside_faults(rt: HostRuntime) -> Result<(), Fail> {
    for (words, writes, status, length) in FRONTS {
        let given = Given {
            script: b"",
            reads: &[1],
            writes,
        };
        let ended = run_with(&rt, rt.alloc(), words, given, &NoGate)?;
        is_ended(&rt, &ended, status, THREE, length);
    }
    Ok(())
}
