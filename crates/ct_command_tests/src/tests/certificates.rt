// Runs in memory of `prove` and `check`: the certificate of a reply, and what is said of a certificate.

use crate::tests::memory::{Ended, Given, faultless, has_status, is_ended, run_with};
use ct_outside::NoGate;
use ct_run::Status;
use std::alloc::{AllocError, Global};
use std::process::Abort;
use std::sync::Wait;
use std::test::Fail;
use std::thread::Threads;

/// The word false is refuted by the clause that defines it.
const FALSE: &str = "ct-certificate 1
words 2
0a00000000000000
0b00000000000000
proofs 1
proof 1 3
+n1 : root
-n1 : def 1 0
: rup 0 1
end
";

/// Its words.
const WORDS: &str = "2\n0a00000000000000\n0b00000000000000\n";

/// Its proof.
const PROOF: &str = "1\nproof 1 3\n+n1 : root\n-n1 : def 1 0\n: rup 0 1\n";

/// The proof twice.
const TWO: &str = "2\nproof 1 3\n+n1 : root\n-n1 : def 1 0\n: rup 0 1\n\
    proof 1 3\n+n1 : root\n-n1 : def 1 0\n: rup 0 1\n";

/// The proof, and another one without a step.
const ONE_MORE: &str = "2\nproof 1 3\n+n1 : root\n-n1 : def 1 0\n: rup 0 1\nproof 1 0\n";

/// A text in that certificate, another one in its place, and what `check` writes then, which is nothing where it is no
/// certificate. First come a missing hint, a word of another kind and a missing last line.
const CHANGES: [(&str, &str, &str); 19] = [
    ("", "", "accepted 1\n"),
    ("rup 0 1", "rup 0", "rejected proof 1\n"),
    ("0b0", "0c0", "rejected words at 1\n"),
    ("end\n", "", ""),
    // Bytes that no certificate has.
    ("proofs 1\n", "proofs 1\r\n", ""),
    ("proofs 1\n", "proofs 1\n-- one\n", ""),
    ("+n1 :", "+n\u{661} :", ""),
    // No words, and words with an earlier condition, with their own place, with one past the end, and with fields that are
    // equal, in order and exchanged.
    (WORDS, "0\n", "rejected proof 1\n"),
    ("0b0000000", "0d0000000", "rejected proof 1\n"),
    ("0b0000000", "0d0000001", "rejected words at 1\n"),
    ("0b0000000", "0d0000002", "rejected words at 1\n"),
    ("0b0", "0e0", "rejected words at 1\n"),
    ("0b0", "0f0", "rejected words at 1\n"),
    (
        WORDS,
        "3\n0a00000000000000\n0b00000000000000\n0e00000000000001\n",
        "accepted 1\n",
    ),
    (
        WORDS,
        "3\n0a00000000000000\n0b00000000000000\n0e00000010000000\n",
        "rejected words at 2\n",
    ),
    // A path of one place, a hint to a later step, a proof twice, and a second one that is none.
    (": rup 0 1", ": path 0", "rejected proof 1\n"),
    ("-n1 : def 1 0", "-n1 : rup 2", "rejected proof 1\n"),
    (PROOF, TWO, "accepted 2\n"),
    (PROOF, ONE_MORE, "rejected proof 2\n"),
];

/// How a check ends that writes this.
fn status_of(written: &str) -> Status {
    if written.is_empty() {
        Status::Script
    } else if written.starts_with("accepted") {
        Status::Done
    } else {
        Status::Refused
    }
}

/// No session ran.
fn is_idle(rt: &impl Abort, ended: &Ended) {
    assert!(rt; ended.sessions == 0 && ended.words == 0);
}

/// `check` of a file of these bytes writes this.
fn says<R: Threads + Wait + Abort + Sync>(
    rt: &R,
    alloc: Global,
    file: &[u8],
    written: &str,
) -> Result<(), Fail> {
    let ended = run_with(rt, alloc, "check f", faultless(file), &NoGate)?;
    is_ended(rt, &ended, status_of(written), written, written.len());
    is_idle(rt, &ended);
    Ok(())
}

/// The certificate with the first `old` in it changed to `new`.
fn changed(alloc: Global, old: &str, new: &str) -> Result<String, Fail> {
    let (front, behind) = FALSE.split_once(old).ok_or("no such text")?;
    Ok(format!(in alloc; "{front}{new}{behind}")?)
}

#[test]
fn what_check_says(rt: HostRuntime) -> Result<(), Fail> {
    for (old, new, written) in CHANGES {
        let text = changed(rt.alloc(), old, new)?;
        says(&rt, rt.alloc(), text.as_bytes(), written)?;
    }
    for bytes in [b"".as_slice(), b"\xff"] {
        says(&rt, rt.alloc(), bytes, "")?;
    }
    Ok(())
}

/// Words, the reads and the writes that fail, how a run ends then, and how much it writes.
type Fault = (
    &'static str,
    &'static [u64],
    &'static [(u64, u32)],
    Status,
    usize,
);

/// Checks of that certificate. What is said of it has 11 bytes.
const CHECKS: [Fault; 6] = [
    ("check f", &[2], &[(2, 0)], Status::Done, 11),
    ("check f", &[1], &[], Status::ReadFault, 0),
    ("check f", &[], &[(1, 0)], Status::WriteFault, 0),
    ("check f", &[], &[(1, 4)], Status::WriteFault, 4),
    ("check f", &[], &[(1, 11)], Status::WriteFault, 11),
    ("check f f", &[], &[], Status::Words, 0),
];

#[test]
fn checks_beside_faults(rt: HostRuntime) -> Result<(), Fail> {
    for (words, reads, writes, status, length) in CHECKS {
        let given = Given {
            script: FALSE.as_bytes(),
            reads,
            writes,
        };
        let ended = run_with(&rt, rt.alloc(), words, given, &NoGate)?;
        is_ended(&rt, &ended, status, "accepted 1\n", length);
        is_idle(&rt, &ended);
    }
    Ok(())
}

/// The certificate of the log of a script without statements.
const EMPTY: &str =
    "ct-certificate 1\nwords 2\n0a00000000000000\n0b00000000000000\nproofs 0\nend\n";

/// Certificates for such a script, which have 72 bytes.
const PROVES: [Fault; 7] = [
    ("prove 1 f", &[2], &[(2, 0)], Status::Refused, 72),
    ("prove 01 f", &[], &[], Status::Refused, 72),
    ("prove 1 f", &[1], &[], Status::ReadFault, 0),
    ("prove 1 f", &[], &[(1, 0)], Status::WriteFault, 0),
    ("prove 1 f", &[], &[(1, 30)], Status::WriteFault, 30),
    ("prove 1 f", &[], &[(1, 72)], Status::WriteFault, 72),
    ("prove 1 f f", &[], &[], Status::Words, 0),
];

#[test]
fn certificates_beside_faults(rt: HostRuntime) -> Result<(), Fail> {
    for (words, reads, writes, status, length) in PROVES {
        let given = Given {
            script: b"",
            reads,
            writes,
        };
        let ended = run_with(&rt, rt.alloc(), words, given, &NoGate)?;
        is_ended(&rt, &ended, status, EMPTY, length);
    }
    Ok(())
}

/// These words write a certificate for this script and end so, and `check` says this of it.
fn proves<R: Threads + Wait + Abort + Sync>(
    rt: &R,
    alloc: Global,
    words: &str,
    script: &str,
    status: Status,
    said: &str,
) -> Result<(), Fail> {
    let ended = run_with(rt, alloc, words, faultless(script.as_bytes()), &NoGate)?;
    has_status(rt, ended.status, status);
    says(rt, alloc, ended.out.bytes(), said)
}

/// The certificate of reply `k` to this script has so many proofs, and is accepted.
fn has_proofs<R: Threads + Wait + Abort + Sync>(
    rt: &R,
    alloc: Global,
    script: &str,
    k: u32,
    proofs: u32,
) -> Result<(), Fail> {
    let words = format!(in alloc; "prove {k} f")?;
    let said = format!(in alloc; "accepted {proofs}\n")?;
    let status = if proofs == 0 {
        Status::Refused
    } else {
        Status::Done
    };
    proves(rt, alloc, words.as_str(), script, status, said.as_str())
}

/// So many proofs belong to each reply to this script, and to the one past its end.
fn have_proofs<R: Threads + Wait + Abort + Sync>(
    rt: &R,
    alloc: Global,
    script: &str,
    counts: &[u32],
) -> Result<(), Fail> {
    for (before, proofs) in counts.iter().enumerate() {
        let k = u32::try_from(before).unwrap_or(0).saturating_add(1);
        has_proofs(rt, alloc, script, k, *proofs)?;
    }
    Ok(())
}

/// A statement of each kind of reply: a list of certain rows has a proof for each, and a refused assertion has one.
const KINDS: &str =
    "create table t (a); insert into t values (1), (?x); select * from t; possible select * from t; \
    certain select * from t; certain select * from t where a = 2; assert 1 = 2; begin; insert into t values (2); \
    certain select * from t; rollback; commit; begin; commit; x; certain select * from u";

#[test]
fn replies_with_proofs(rt: HostRuntime) -> Result<(), Fail> {
    let chain = "assert ?x = ?y; assert ?y = ?z; assert ?x <> ?z;";
    have_proofs(&rt, rt.alloc(), chain, &[0, 0, 1, 0])?;
    let counts = [0, 0, 0, 0, 1, 0, 1, 0, 0, 2, 0, 0, 0, 0, 0, 0, 0];
    have_proofs(&rt, rt.alloc(), KINDS, &counts)
}

/// Insertions of the numbers below 500, and which of these are certain.
fn many_rows(alloc: Global) -> Result<String, AllocError> {
    let mut script = String::from_str(alloc, "create table t (a); insert into t values (0)")?;
    for k in 1..500u32 {
        script.push_str(format!(in alloc; ", ({k})")?.as_str())?;
    }
    script.push_str("; certain select * from t")?;
    Ok(script)
}

#[test]
fn five_hundred_proofs(rt: HostRuntime) -> Result<(), Fail> {
    let script = many_rows(rt.alloc())?;
    has_proofs(&rt, rt.alloc(), script.as_str(), 3, 500)
}

/// The third statement is asked again, once the log is full by a text of more letters than it has words.
fn around_a_full_log(alloc: Global) -> Result<String, AllocError> {
    let letters = "x".repeat(alloc, 262_144)?;
    format!(in alloc;
        "create table t (a); insert into t values (1); certain select * from t; \
        insert into t values ('{letters}'); certain select * from t; assert 1 = 2"
    )
}

#[test]
fn a_full_log_keeps_its_proofs(rt: HostRuntime) -> Result<(), Fail> {
    let script = around_a_full_log(rt.alloc())?;
    has_proofs(&rt, rt.alloc(), script.as_str(), 5, 1)
}
