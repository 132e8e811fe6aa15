// A certificate of two words, its changes and its beginnings; what is read is written again.

use super::saying::{said, say_all};
use ct_cert::{read, write};
use std::alloc::Global;
use std::process::Abort;
use std::test::Fail;

/// The word false is refuted by the clause that defines it.
const FALSE: &str = "ct-certificate 1
words 2
0a00000000000000
0b00000000000000
proofs 1
proof 1 3
+n1 : root
-n1 : def 1 0
: rup 0 1
end
";

/// Every kind of literal and reason, with numbers at the ends of their types.
const ODD: &str = "ct-certificate 1
words 3
0000000000000000
ffffffffffffffff
0123456789abcdef
proofs 2
proof 4294967295 4
+n0 -s4294967295,0 : path
: path 0 4294967295 7
-n10 : def 4294967295 255
+s0,0 +s0,0 : rup
proof 0 0
end
";

/// A text in the certificate of `false`, another in its place, and what is said then.
const CASES: [(&str, &str, &str); 78] = [
    ("", "", "accepted 1"),
    ("rup 0 1", "rup 0", "rejected proof 1"),
    ("rup 0 1", "rup 1 0", "accepted 1"),
    ("rup 0 1", "rup 0 1 0", "accepted 1"),
    ("rup 0 1", "rup 0 1 2", "rejected proof 1"),
    ("rup 0 1", "rup 0 1 4294967295", "rejected proof 1"),
    ("rup 0 1", "rup 2 1", "rejected proof 1"),
    ("rup 0 1", "rup", "rejected proof 1"),
    ("rup 0 1", "path", "rejected proof 1"),
    (
        "0b00000000000000",
        "0c00000000000000",
        "rejected words at 1",
    ),
    (
        "0b00000000000000",
        "0a00000000000000",
        "rejected words at 1",
    ),
    (
        "0b00000000000000",
        "0000000000000000",
        "rejected words at 1",
    ),
    (
        "0b00000000000000",
        "ff00000000000000",
        "rejected words at 1",
    ),
    (
        "0b00000000000000",
        "1e00000000000000",
        "rejected words at 1",
    ),
    (
        "0b00000000000000",
        "0b00000000000001",
        "rejected words at 1",
    ),
    (
        "0a00000000000000",
        "0b00000000000000",
        "rejected words at 1",
    ),
    (
        "0a00000000000000",
        "0000000000000000",
        "rejected words at 0",
    ),
    (
        "0a00000000000000\n0b",
        "0700000000000000\n0b",
        "rejected words at 0",
    ),
    ("0a00000000000000\n0b", "0700000010000001\n0b", "accepted 1"),
    ("0a00000000000000\n0b", "0100000000000000\n0b", "accepted 1"),
    (
        "words 2\n0a00000000000000\n0b00000000000000\nproofs 1\nproof 1 3\n+n1 : root\n-n1 : def 1 0\n: rup 0 1\n",
        "words 0\nproofs 0\n",
        "accepted 0",
    ),
    ("proof 1 3", "proof 0 3", "rejected proof 1"),
    ("proof 1 3", "proof 2 3", "rejected proof 1"),
    ("proof 1 3", "proof 4294967295 3", "rejected proof 1"),
    ("def 1 0", "def 1 1", "rejected proof 1"),
    ("def 1 0", "def 1 255", "rejected proof 1"),
    ("def 1 0", "def 1 256", "not a certificate"),
    ("def 1 0", "def 4294967296 0", "not a certificate"),
    ("def 1 0", "def 1 00", "not a certificate"),
    ("+n1 : root", "+n1 +n1 : root", "accepted 1"),
    ("+n1 : root", "+n1 -n1 : root", "rejected proof 1"),
    ("+n1 : root", "-n1 : root", "rejected proof 1"),
    ("+n1 : root", "+n01 : root", "not a certificate"),
    ("+n1 : root", "n1 : root", "not a certificate"),
    ("+n1 : root", "+n1: root", "not a certificate"),
    ("+n1 : root", "+n1  : root", "not a certificate"),
    ("+n1 : root", "+n1 :root", "not a certificate"),
    ("+n1 : root", "+n1 : Root", "not a certificate"),
    ("+n1 : root", "+n1 : root ", "not a certificate"),
    ("+n1 : root", "+s1,1 : root", "rejected proof 1"),
    ("+n1 : root", "+n4294967296 : root", "not a certificate"),
    (
        "+n1 : root",
        "+n18446744073709551617 : root",
        "not a certificate",
    ),
    ("+n1 : root", "+n-0 : root", "not a certificate"),
    ("+n1 : root", "+n+1 : root", "not a certificate"),
    (": rup 0 1", ": rup 0  1", "not a certificate"),
    (": rup 0 1", ": rup 0\t1", "not a certificate"),
    ("proof 1 3", "proof 1 2", "not a certificate"),
    ("proof 1 3", "proof 1 4", "not a certificate"),
    (
        "proof 1 3",
        "proof 1 18446744073709551615",
        "not a certificate",
    ),
    ("proofs 1", "proofs 0", "not a certificate"),
    ("proofs 1", "proofs 2", "not a certificate"),
    ("words 2", "words 1", "not a certificate"),
    ("words 2", "words 3", "not a certificate"),
    ("words 2", "words 02", "not a certificate"),
    ("words 2", "words 18446744073709551618", "not a certificate"),
    ("0b00000000000000", "0B00000000000000", "not a certificate"),
    ("0b00000000000000", "b00000000000000", "not a certificate"),
    ("0b00000000000000", "0b000000000000000", "not a certificate"),
    ("0b00000000000000", "0x0b000000000000", "not a certificate"),
    ("ct-certificate 1", "ct-certificate 2", "not a certificate"),
    ("end\n", "", "not a certificate"),
    ("end\n", "end\n\n", "not a certificate"),
    (
        "ct-certificate 1\n",
        "ct-certificate 1\r\n",
        "not a certificate",
    ),
    (
        "ct-certificate 1\n",
        "\nct-certificate 1\n",
        "not a certificate",
    ),
    (
        "ct-certificate 1\n",
        "\u{feff}ct-certificate 1\n",
        "not a certificate",
    ),
    ("words 2\n", "words 2\n# two words\n", "not a certificate"),
    ("words 2\n", "words +2\n", "not a certificate"),
    ("+n1 : root", "s1,1 : root", "not a certificate"),
    ("+n1 : root", "n1: root", "not a certificate"),
    ("+n1 : root", "+n1+n1 : root", "not a certificate"),
    ("+n1 : root", "+n1 : root -- so", "not a certificate"),
    ("+n1 : root", "+n1 : ro\u{f6}t", "not a certificate"),
    ("def 1 0", "def 1", "not a certificate"),
    ("rup 0 1", "rup 0 -1", "not a certificate"),
    ("rup 0 1", "rup 00 1", "not a certificate"),
    ("rup 0 1", "path 1", "rejected proof 1"),
    (
        "proofs 1\nproof 1 3\n+n1 : root\n-n1 : def 1 0\n: rup 0 1\n",
        "proofs 2\nproof 1 3\n+n1 : root\n-n1 : def 1 0\n: rup 0 1\nproof 1 3\n+n1 : root\n-n1 : def 1 0\n: rup 0 1\n",
        "accepted 2",
    ),
    (
        "proofs 1\nproof 1 3\n+n1 : root\n-n1 : def 1 0\n: rup 0 1\n",
        "proofs 2\nproof 1 3\n+n1 : root\n-n1 : def 1 0\n: rup 0 1\nproof 1 3\n+n1 : root\n-n1 : def 1 0\n: rup 0\n",
        "rejected proof 2",
    ),
];

/// Clauses that repeat a literal twenty times.
const LONG: &str = "ct-certificate 1
words 2
0a00000000000000
0b00000000000000
proofs 1
proof 1 4
+n1 +n1 +n1 +n1 +n1 +n1 +n1 +n1 +n1 +n1 +n1 +n1 +n1 +n1 +n1 +n1 +n1 +n1 +n1 +n1 : root
-n1 -n1 -n1 -n1 -n1 -n1 -n1 -n1 -n1 -n1 -n1 -n1 -n1 -n1 -n1 -n1 -n1 -n1 -n1 -n1 : def 1 0
+n1 +n1 +n1 +n1 +n1 +n1 +n1 +n1 +n1 +n1 +n1 +n1 +n1 +n1 +n1 +n1 +n1 +n1 +n1 +n1 : rup 0
: rup 2 1
end
";

/// The same for these.
const OF_LONG: [(&str, &str, &str); 9] = [
    ("", "", "accepted 1"),
    (" : root", " -n1 : root", "rejected proof 1"),
    (" : root", " +n0 : root", "rejected proof 1"),
    (" : root", " +s1,0 : root", "rejected proof 1"),
    (" : def 1 0", " +n1 : def 1 0", "rejected proof 1"),
    (
        "+n1 : rup 0\n: rup 2 1",
        "-n1 : rup 0\n: rup 0 1",
        "accepted 1",
    ),
    (
        "+n1 : rup 0\n: rup 2 1",
        "-n1 : rup 0\n: rup 2 1",
        "rejected proof 1",
    ),
    (": rup 2 1", ": rup 2 2 1", "rejected proof 1"),
    (": rup 2 1", ": rup 1 2", "accepted 1"),
];

/// Texts that are those of no certificate.
const NONE: [&str; 5] = [
    "",
    "\n",
    "end\n",
    "ct-certificate 1\n",
    "ct-certificate 1\nwords 18446744073709551615\n",
];

#[test]
fn says_what_certificates_are(rt: HostRuntime) -> Result<(), Fail> {
    say_all(&rt, rt.alloc(), FALSE, &CASES)
}

#[test]
fn takes_a_clause_as_a_set(rt: HostRuntime) -> Result<(), Fail> {
    say_all(&rt, rt.alloc(), LONG, &OF_LONG)
}

/// What is read of a text is written as the text.
fn stays(rt: &impl Abort, alloc: Global, text: &str) -> Result<(), Fail> {
    let cert = read(alloc, text.as_bytes())?;
    let again = write(alloc, &cert)?;
    assert!(rt; again.as_slice() == text.as_bytes());
    Ok(())
}

#[test]
fn writes_what_it_read(rt: HostRuntime) -> Result<(), Fail> {
    stays(&rt, rt.alloc(), FALSE)?;
    stays(&rt, rt.alloc(), ODD)?;
    stays(&rt, rt.alloc(), LONG)?;
    stays(
        &rt,
        rt.alloc(),
        "ct-certificate 1\nwords 0\nproofs 0\nend\n",
    )
}

/// No certificate has this text.
fn is_none(rt: &impl Abort, alloc: Global, text: &[u8]) -> Result<(), Fail> {
    let found = said(alloc, text)?;
    assert!(rt; found.as_str() == "not a certificate");
    Ok(())
}

#[test]
fn refuses_other_bytes(rt: HostRuntime) -> Result<(), Fail> {
    for text in &NONE {
        is_none(&rt, rt.alloc(), text.as_bytes())?;
    }
    let bytes = FALSE.as_bytes();
    for count in 0..bytes.len() {
        is_none(&rt, rt.alloc(), &bytes[..count])?;
    }
    Ok(())
}
