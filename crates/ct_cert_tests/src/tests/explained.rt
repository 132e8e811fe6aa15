// The certificate of docs/CERTIFICATES.md, and the changes that the page lists.

use super::saying::{changed, said, say_all};
use std::alloc::Global;
use std::process::Abort;
use std::test::Fail;

/// ?x = 1 and ?x = 2.
const BOTH: &str = "ct-certificate 1
words 11
0a00000000000000
0b00000000000000
0100000000000000
0200000020000078
0600000030000000
0300000000000000
0400000050000001
0400000050000002
0c00000040000006
0c00000040000007
0e00000080000009
proofs 1
proof 10 7
+n10 : root
-n10 +n8 : def 10 0
-n10 +n9 : def 10 1
-n8 +s4,6 : def 8 0
-n9 +s4,7 : def 9 0
-s4,6 -s4,7 : path 6 4 7
: rup 0 1 2 3 4 5
end
";

/// A chain of three nulls.
const CHAIN: &str = "ct-certificate 1
words 15
0a00000000000000
0b00000000000000
0100000000000000
0200000020000078
0600000030000000
0200000020000079
0600000050000000
020000002000007a
0600000070000000
0c00000040000006
0c00000060000008
0c00000040000008
0d000000b0000000
0e0000009000000a
0e000000c000000d
proofs 1
proof 14 11
+n14 : root
-n14 +n12 : def 14 0
-n14 +n13 : def 14 1
-n12 -n11 : def 12 0
-n13 +n9 : def 13 0
-n13 +n10 : def 13 1
-n9 +s4,6 : def 9 0
-n10 +s6,8 : def 10 0
+n11 -s4,8 : def 11 1
-s4,6 -s6,8 +s4,8 : path 4 6 8
: rup 0 1 2 3 4 5 6 7 8 9
end
";

/// A text in the first one, another in its place, and what is said then.
const CASES: [(&str, &str, &str); 64] = [
    ("", "", "accepted 1"),
    ("path 6 4 7", "path 7 4 6", "accepted 1"),
    (
        "-s4,6 -s4,7 : path",
        "-s4,7 -s4,6 -s4,7 : path",
        "accepted 1",
    ),
    ("rup 0 1 2 3 4 5", "rup 0 2 1 4 3 5", "accepted 1"),
    ("rup 0 1 2 3 4 5", "rup 0 1 2 3 4 5 0 5", "accepted 1"),
    ("rup 0 1 2 3 4 5", "rup 0 1 2 3 4 5 6", "rejected proof 1"),
    (
        "rup 0 1 2 3 4 5",
        "rup 0 1 2 3 4 5 4294967295",
        "rejected proof 1",
    ),
    (
        "rup 0 1 2 3 4 5",
        "rup 0 1 2 3 4 5 4294967296",
        "not a certificate",
    ),
    ("rup 0 1 2 3 4 5", "rup 0 1 2 3 4", "rejected proof 1"),
    ("rup 0 1 2 3 4 5", "rup", "rejected proof 1"),
    ("rup 0 1 2 3 4 5", "rup 0 0 1 2 3 4 5", "rejected proof 1"),
    ("rup 0 1 2 3 4 5", "rup 0 1 2 5 3 4", "rejected proof 1"),
    ("-n8 +s4,6", "-n8 +s6,4", "rejected proof 1"),
    ("-n8 +s4,6", "-n8 +s4,4", "rejected proof 1"),
    ("-n8 +s4,6", "-n8 +s4,5", "rejected proof 1"),
    ("-n8 +s4,6", "-n4 +s4,6", "rejected proof 1"),
    ("-n8 +s4,6", "+s4,6", "rejected proof 1"),
    (
        "-n8 +s4,6 : def 8 0",
        "-n8 +s4,6 : def 8 2",
        "rejected proof 1",
    ),
    (
        "-n8 +s4,6 : def 8 0",
        "-n8 +s4,6 : def 8 256",
        "not a certificate",
    ),
    (
        "-s4,6 -s4,7 : path 6 4 7",
        "-s4,6 -s4,7 +s6,7 : path 6 4 7",
        "rejected proof 1",
    ),
    ("path 6 4 7", "path 6 4 4 7", "rejected proof 1"),
    ("path 6 4 7", "path 6 4 6 4 7", "accepted 1"),
    ("path 6 4 7", "path 6 4 7 4 6", "rejected proof 1"),
    ("path 6 4 7", "path", "rejected proof 1"),
    ("path 6 4 7", "path ", "not a certificate"),
    ("proof 10 7", "proof 9 7", "rejected proof 1"),
    ("proof 10 7", "proof 7 7", "rejected proof 1"),
    ("proof 10 7", "proof 11 7", "rejected proof 1"),
    ("proof 10 7", "proof 10 6", "not a certificate"),
    ("proof 10 7", "proof 10 8", "not a certificate"),
    ("proof 10 7", "proof 10 07", "not a certificate"),
    (
        "0c00000040000006",
        "0c00000060000004",
        "rejected words at 8",
    ),
    (
        "0c00000040000006",
        "0c00000040000004",
        "rejected words at 8",
    ),
    (
        "0c00000040000006",
        "0c00000040000005",
        "rejected words at 8",
    ),
    (
        "0c00000040000006",
        "0c00000040000009",
        "rejected words at 8",
    ),
    (
        "0400000050000002",
        "0400000050000001",
        "rejected words at 7",
    ),
    (
        "0400000050000002",
        "0400000050000102",
        "rejected words at 7",
    ),
    (
        "0600000030000000",
        "0600000030000001",
        "rejected words at 4",
    ),
    (
        "0600000030000000",
        "0700000000000001",
        "rejected words at 4",
    ),
    (
        "0600000030000000",
        "0700004000000001",
        "rejected words at 4",
    ),
    (
        "0600000030000000",
        "0700000010000000",
        "rejected words at 4",
    ),
    ("0600000030000000", "0800000030000000", "accepted 1"),
    (
        "0200000020000078",
        "020000002000d800",
        "rejected words at 3",
    ),
    (
        "0200000020000078",
        "0200000020110000",
        "rejected words at 3",
    ),
    (
        "0a00000000000000",
        "0000000000000000",
        "rejected words at 0",
    ),
    (
        "0a00000000000000",
        "1e00000000000000",
        "rejected words at 0",
    ),
    ("0b00000000000000", "0B00000000000000", "not a certificate"),
    ("0b00000000000000", "0b0000000000000", "not a certificate"),
    ("0b00000000000000", "0x0b000000000000", "not a certificate"),
    ("ct-certificate 1", "ct-certificate 2", "not a certificate"),
    ("proof 10 7", "proof 10 7 ", "not a certificate"),
    (
        "proof 10 7\n+n10",
        "proof 10 7\n\n+n10",
        "not a certificate",
    ),
    ("end\n", "", "not a certificate"),
    ("end\n", "end\nend\n", "not a certificate"),
    (
        "0c00000040000006",
        "0c00000040000008",
        "rejected words at 8",
    ),
    (
        "0c00000040000006",
        "0c0000004fffffff",
        "rejected words at 8",
    ),
    (
        "0e00000080000009",
        "0e00000090000008",
        "rejected words at 10",
    ),
    (
        "0e00000080000009",
        "0e00000080000008",
        "rejected words at 10",
    ),
    (
        "0e00000080000009",
        "0f00000090000008",
        "rejected words at 10",
    ),
    (
        "0e00000080000009",
        "0f00000080000008",
        "rejected words at 10",
    ),
    ("0e00000080000009", "0f00000080000009", "rejected proof 1"),
    ("0600000030000000", "0900000030000000", "accepted 1"),
    (
        "-s4,6 -s4,7 : path",
        "-s4,7 -s4,6 -s4,7 -s4,7 -s4,7 -s4,7 -s4,7 -s4,7 -s4,7 -s4,7 -s4,7 -s4,7 -s4,7 -s4,7 -s4,7 -s4,7 -s4,6 -s4,7 : path",
        "accepted 1",
    ),
    (
        "-s4,6 -s4,7 : path",
        "-s4,7 -s4,7 -s4,7 -s4,7 -s4,7 -s4,7 -s4,7 -s4,7 -s4,7 -s4,7 -s4,7 -s4,7 -s4,7 -s4,7 -s4,7 -s4,7 -s4,7 -s4,7 : path",
        "rejected proof 1",
    ),
];

/// The same for the chain.
const ALONG: [(&str, &str, &str); 6] = [
    ("", "", "accepted 1"),
    ("path 4 6 8", "path 8 6 4", "accepted 1"),
    ("path 4 6 8", "path 4 8", "rejected proof 1"),
    (" +s4,8 : path", " : path", "rejected proof 1"),
    (
        "rup 0 1 2 3 4 5 6 7 8 9",
        "rup 0 1 2 4 5 6 7 8 9",
        "rejected proof 1",
    ),
    (
        "-s4,6 -s6,8 +s4,8 : path 4 6 8",
        "-s4,6 -s6,8 +s4,8 +s4,6 : path 4 6 8",
        "rejected proof 1",
    ),
];

#[test]
fn says_what_the_page_says(rt: HostRuntime) -> Result<(), Fail> {
    say_all(&rt, rt.alloc(), BOTH, &CASES)
}

/// The certificate with another last step, and so many steps, is rejected.
fn wants_more(rt: &impl Abort, alloc: Global, steps: &str, count: &str) -> Result<(), Fail> {
    let fewer = changed(alloc, BOTH, steps, "")?;
    let found = said(
        alloc,
        changed(alloc, fewer.as_str(), "proof 10 7", count)?.as_bytes(),
    )?;
    assert!(rt; found.as_str() == "rejected proof 1");
    Ok(())
}

/// The steps of the certificate.
const STEPS: &str = "+n10 : root
-n10 +n8 : def 10 0
-n10 +n9 : def 10 1
-n8 +s4,6 : def 8 0
-n9 +s4,7 : def 9 0
-s4,6 -s4,7 : path 6 4 7
: rup 0 1 2 3 4 5
";

#[test]
fn wants_a_last_step_without_literals(rt: HostRuntime) -> Result<(), Fail> {
    wants_more(&rt, rt.alloc(), ": rup 0 1 2 3 4 5\n", "proof 10 6")?;
    wants_more(&rt, rt.alloc(), STEPS, "proof 10 0")
}

#[test]
fn goes_along_a_chain(rt: HostRuntime) -> Result<(), Fail> {
    say_all(&rt, rt.alloc(), CHAIN, &ALONG)
}
