// The command `check`: what is said of the certificate of a file.

ghost use Rattle.std.specs.Prelude.{◌≡◌, ◌<◌, ◌^◌, ◌∷◌, [], length, IfOk, IfErr};
ghost use Rattle.ct_outside.specs.Outside.{Rose, Added, AddedFront};
ghost use Rattle.ct_run.specs.Runs.{Asking, Taking};
ghost use Rattle.ct_run.specs.Certificates.{IsCertificateOf, IsOfNoCertificate, Judged, CheckPromise};
ghost use Rattle.ct_run.specs.Certificates as certificates;
ghost use Rattle.ct_run.specs.declared.reading.Unserved.TheVariants as unserved;

use crate::ending::{Run, Status, no_run};
use crate::files::status_of;
use crate::printing::write_once;
use crate::reading::{Unserved, bytes_of};
use ct_cert::{CertError, Certificate, Judgement, judge, read};
use ct_outside::{Scripts, Sink};
use ct_word::{Memory, Text};
use std::alloc::Global;

/// The greatest number of bytes of a certificate that is checked.
const CERTIFICATE_BYTES: u32 = 0x400_0000;

/// The certificate of the file.
///
/// # Errors
/// `ReadFault` only where the source failed, `Script` only where the file has too many bytes or is no certificate, `Memory`
/// for want of memory.
fn certificate_of<S: Scripts>(
    alloc: Global,
    source: &mut S,
    file: &str,
) -> Result<Certificate, Unserved>
    ensures in_order { AddedFront (S.names source.old) (S.names source.new) (file.now ∷ []) }
    ensures ok { IfOk result (IsCertificateOf file.now (record { held = S.held source.old; faults = S.faults source.old; faults' = S.faults source.new; asked = S.names source.old; asked' = S.names source.new })) }
    ensures rose { IfErr result (λ e. e ≡ unserved.ReadFault → Rose (S.faults source.old) (S.faults source.new)) }
    ensures unread { IfErr result (λ e. e ≡ unserved.ReadFault → Added (S.names source.old) (S.names source.new) (file.now ∷ [])) }
    ensures none { IfErr result (λ e. e ≡ unserved.Script → IsOfNoCertificate file.now (record { held = S.held source.old; faults = S.faults source.old; faults' = S.faults source.new; asked = S.names source.old; asked' = S.names source.new })) }
{
    let bytes = bytes_of(alloc, source, file, CERTIFICATE_BYTES)?;
    match read(alloc, bytes.as_slice()) {
        Ok(cert) => Ok(cert),
        Err(CertError::NotACertificate) => Err(Unserved::Script),
        Err(CertError::Memory) => Err(Unserved::Memory),
    }
}

/// The line of a judgement of a certificate with so many proofs.
fn verdict(alloc: Global, proofs: usize, judgement: Judgement) -> Result<Text, Memory>
    ensures { IfOk result (λ line. line ≡ certificates.verdict proofs judgement) }
{
    let line = match judgement {
        Judgement::Accepted => format!(in alloc; "accepted {proofs}\n")?,
        Judgement::BadWords { place } => format!(in alloc; "rejected words at {place}\n")?,
        Judgement::Rejected { proof } => format!(in alloc; "rejected proof {proof}\n")?,
    };
    Ok(Text::from_string(line))
}

/// Writes what is said of a certificate.
fn print_verdict<K: Sink>(alloc: Global, cert: &Certificate, out: &mut K) -> Status
    requires few { length cert.now.words < 2 ^ 28 }
    ensures { Judged cert.now (record { faults = K.faults out.old; faults' = K.faults out.new; taken = K.taken out.old; taken' = K.taken out.new; calls = K.calls out.old; calls' = K.calls out.new }) result }
{
    let Ok(judgement) = judge(alloc, cert) else {
        return Status::Memory;
    };
    let Ok(line) = verdict(alloc, cert.proofs.len(), judgement) else {
        return Status::Memory;
    };
    if write_once(line.as_str().as_bytes(), out).is_err() {
        return Status::WriteFault;
    }
    match judgement {
        Judgement::Accepted => Status::Done,
        _ => Status::Refused,
    }
}

/// Reads the certificate of a file, and writes what is said of it.
pub(crate) fn check<S: Scripts, K: Sink>(
    alloc: Global,
    file: &str,
    scripts: &mut S,
    out: &mut K,
) -> Run
    ensures promise { CheckPromise file.now (record { held = S.held scripts.old; faults = S.faults scripts.old; faults' = S.faults scripts.new; asked = S.names scripts.old; asked' = S.names scripts.new }) (record { faults = K.faults out.old; faults' = K.faults out.new; taken = K.taken out.old; taken' = K.taken out.new; calls = K.calls out.old; calls' = K.calls out.new }) result.status result.transcript }
    ensures names { AddedFront (S.names scripts.old) (S.names scripts.new) (file.now ∷ []) }
{
    match certificate_of(alloc, scripts, file) {
        Ok(cert) => no_run(alloc, print_verdict(alloc, &cert, out)),
        Err(e) => no_run(alloc, status_of(e)),
    }
}
