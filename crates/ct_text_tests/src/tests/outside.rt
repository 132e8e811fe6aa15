// The faults, the limits and the trusted edge, each once.

use ct_outside::{
    FileScripts, Gate, MemScripts, MemSink, NoGate, ReadError, Scripts, Sink, StdSink, read_all,
    write_all,
};
use ct_word::{List, Text};
use std::alloc::{AllocError, Global};
use std::fs;
use std::test::Fail;

fn bytes_of(alloc: Global, text: &str) -> Result<List<u8>, AllocError> {
    Ok(List::from_vec(Vec::from_slice(alloc, text.as_bytes())?))
}

fn list<T: Drop, const N: usize>(alloc: Global, items: [T; N]) -> Result<List<T>, AllocError> {
    Ok(List::from_vec(Vec::from_array(alloc, items)?))
}

// A script with its name.
fn named(alloc: Global, name: &str, text: &str) -> Result<(Text, List<u8>), Fail> {
    Ok((Text::from_str(alloc, name)?, bytes_of(alloc, text)?))
}

// A source of two scripts whose third call fails.
fn two_scripts(alloc: Global) -> Result<MemScripts, Fail> {
    let held = list(alloc, [named(alloc, "a", "xyz")?, named(alloc, "b", "")?])?;
    Ok(MemScripts::make(alloc, held, list(alloc, [3])?))
}

/// Whether a script is read as this text, or where a fault is expected, with this fault.
fn is_read_as(
    alloc: Global,
    scripts: &mut MemScripts,
    (name, limit): (&str, u32),
    text: &str,
    fault: Option<ReadError>,
) -> bool {
    match scripts.read(alloc, name, limit) {
        Ok(found) => fault.is_none() && found.as_slice() == text.as_bytes(),
        Err(found) => fault == Some(found),
    }
}

#[test]
fn reads_within_the_limit(rt: HostRuntime) -> Result<(), Fail> {
    let mut scripts = two_scripts(rt.alloc())?;
    let cases = [
        (("a", 3), "xyz", None),
        (("a", 2), "", Some(ReadError::TooLong)),
        (("a", 3), "", Some(ReadError::Failed)),
        (("c", 3), "", Some(ReadError::Failed)),
        (("b", 0), "", None),
    ];
    for (call, text, fault) in cases {
        assert!(rt; is_read_as(rt.alloc(), &mut scripts, call, text, fault));
    }
    Ok(())
}

/// A sink whose calls of these numbers fail, each after so many bytes.
fn sink(alloc: Global, fails: &[(u64, u32)]) -> Result<MemSink, AllocError> {
    Ok(MemSink::make(alloc, List::from_vec(Vec::from_slice(alloc, fails)?)))
}

/// Whether bytes are written. Nothing is said of the sink, which keeps the tests short to prove.
fn is_written(out: &mut MemSink, bytes: &str) -> bool {
    out.write(bytes.as_bytes()).is_ok()
}

#[test]
fn a_failing_write_takes_a_prefix(rt: HostRuntime) -> Result<(), Fail> {
    let mut out = sink(rt.alloc(), &[(2, 1), (3, 9)])?;
    let writes = [("ab", true), ("cd", false), ("ef", false), ("gh", true)];
    for (bytes, is_ok) in writes {
        assert!(rt; is_written(&mut out, bytes) == is_ok);
    }
    assert!(rt; out.bytes() == "abcefgh".as_bytes());
    Ok(())
}

/// Whether lines are written. Nothing is said of the sink here either.
fn are_written(out: &mut MemSink, lines: &[Text]) -> bool {
    write_all(out, lines).is_ok()
}

/// Two lines of four bytes.
fn two_lines(alloc: Global) -> Result<List<Text>, Fail> {
    let lines = [
        Text::from_str(alloc, "one\n")?,
        Text::from_str(alloc, "two\n")?,
    ];
    Ok(list(alloc, lines)?)
}

#[test]
fn lines_up_to_the_failing_one(rt: HostRuntime) -> Result<(), Fail> {
    let mut out = sink(rt.alloc(), &[(3, 2)])?;
    let lines = two_lines(rt.alloc())?;
    assert!(rt; are_written(&mut out, lines.as_slice()));
    assert!(rt; !are_written(&mut out, lines.as_slice()));
    assert!(rt; out.bytes() == "one\ntwo\non".as_bytes());
    Ok(())
}

/// How many files are read, and the fault of the next one.
fn all_read(
    alloc: Global,
    scripts: &mut MemScripts,
    files: &[&str],
    limit: u32,
) -> (usize, Option<ReadError>) {
    match read_all(alloc, scripts, files, limit) {
        Ok(texts) => (texts.len(), None),
        Err(unread) => (unread.texts.len(), Some(unread.fault)),
    }
}

#[test]
fn files_up_to_the_one_at_fault(rt: HostRuntime) -> Result<(), Fail> {
    let mut scripts = two_scripts(rt.alloc())?;
    let whole = all_read(rt.alloc(), &mut scripts, &["b", "a"], 3);
    assert_eq!(rt; whole, (2, None));
    let none = all_read(rt.alloc(), &mut scripts, &["a", "c"], 3);
    assert_eq!(rt; none, (0, Some(ReadError::Failed)));
    Ok(())
}

#[test]
fn scripts_from_files(rt: HostRuntime) -> Result<(), Fail> {
    let name = "ct_outside_test.sql";
    fs::write(&rt, name, "xyz")?;
    let mut scripts = FileScripts::make(&rt);
    let whole = scripts.read(rt.alloc(), name, 3);
    let long = scripts.read(rt.alloc(), name, 2);
    fs::remove_file(&rt, name)?;
    let gone = scripts.read(rt.alloc(), name, 3);
    assert!(rt; whole.is_ok_and(|text| text.as_slice() == "xyz".as_bytes()));
    assert!(rt; matches!(long, Err(ReadError::TooLong)));
    assert!(rt; matches!(gone, Err(ReadError::Failed)));
    Ok(())
}

#[test]
fn lines_to_standard_output(rt: HostRuntime) -> Result<(), Fail> {
    NoGate.before(&rt, 1, 1);
    let written = StdSink::make(&rt).write(b"a line\n");
    NoGate.after(&rt, 1, 1);
    assert!(rt; written.is_ok());
    Ok(())
}
