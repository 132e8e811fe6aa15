// What is said of a text, and texts with one change.

use ct_cert::{CertError, Judgement, judge, read};
use std::alloc::{AllocError, Global};
use std::process::Abort;
use std::test::Fail;

/// What is said of a text: the line that `check` writes, without its end, or that it is no certificate.
pub(super) fn said(alloc: Global, text: &[u8]) -> Result<String, CertError> {
    let cert = match read(alloc, text) {
        Ok(cert) => cert,
        Err(CertError::NotACertificate) => return written(format!(in alloc; "not a certificate")),
        Err(CertError::Memory) => return Err(CertError::Memory),
    };
    if cert.words.len() > 10_000 {
        return written(format!(in alloc; "too many words to be tried here"));
    }
    let count = cert.proofs.len();
    written(match judge(alloc, &cert)? {
        Judgement::Accepted => format!(in alloc; "accepted {count}"),
        Judgement::BadWords { place } => format!(in alloc; "rejected words at {place}"),
        Judgement::Rejected { proof } => format!(in alloc; "rejected proof {proof}"),
    })
}

fn written(text: Result<String, AllocError>) -> Result<String, CertError> {
    text.map_err(|_| CertError::Memory)
}

/// The text with the first `old` in it changed to `new`.
pub(super) fn changed(
    alloc: Global,
    text: &str,
    old: &str,
    new: &str,
) -> Result<String, CertError> {
    let mut out = String::new(alloc);
    match text.split_once(old) {
        None => out.push_str("no such text").map_err(|_| CertError::Memory)?,
        Some((front, behind)) => {
            out.push_str(front).map_err(|_| CertError::Memory)?;
            out.push_str(new).map_err(|_| CertError::Memory)?;
            out.push_str(behind).map_err(|_| CertError::Memory)?;
        }
    }
    Ok(out)
}

/// Of the text with one change this is said.
fn say(
    rt: &impl Abort,
    alloc: Global,
    text: &str,
    change: (&str, &str),
    wanted: &str,
) -> Result<(), Fail> {
    let (old, new) = change;
    let text = changed(alloc, text, old, new)?;
    let found = said(alloc, text.as_bytes())?;
    assert!(rt;
        found.as_str() == wanted,
        "{old} to {new}: {found:?} and not {wanted:?}"
    );
    Ok(())
}

/// Of the text with each of these changes that is said which stands beside it.
pub(super) fn say_all(
    rt: &impl Abort,
    alloc: Global,
    text: &str,
    cases: &[(&str, &str, &str)],
) -> Result<(), Fail> {
    for (old, new, wanted) in cases {
        say(rt, alloc, text, (old, new), wanted)?;
    }
    Ok(())
}
