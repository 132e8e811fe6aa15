// Reading a certificate: any bytes are read as one, and its text is compared with them.

ghost use Rattle.std.specs.Prelude.{◌≡◌, ◌≢◌, IfOk, IsErrOf};
ghost use Rattle.ct_cert.specs.Text.{cert_text};
ghost use Rattle.ct_cert.specs.Ranges.{IsCertificate};
ghost use Rattle.ct_cert.specs.Reading.{cert_in};
ghost use Rattle.ct_cert.specs.declared.certificate.Certificate.{Certificate};
ghost use Rattle.ct_cert.specs.declared.certificate.CertError.TheVariants as fault;

use crate::certificate::{CertError, Certificate};
use crate::entries::many;
use crate::fronts::{behind, number};
use crate::writing::write;
use ct_derivation::Proof;
use ct_word::Memory;
use std::alloc::Global;

/// A certificate, which is right where the bytes are the text of one.
#[tactic(auto, unfolding(crate::specs::Reading::cert_in))]
fn certificate(alloc: Global, bytes: &[u8]) -> Result<Certificate, Memory>
    ensures { IfOk result (λ c. c ≡ cert_in bytes.now) }
{
    let (count, rest) = number(behind(bytes, 23));
    let (words, rest) = many::<u64>(alloc, count, behind(rest, 1))?;
    let (count, rest) = number(behind(rest, 7));
    let (proofs, _) = many::<Proof>(alloc, count, behind(rest, 1))?;
    Ok(Certificate { words, proofs })
}

/// The certificate whose text the bytes are.
///
/// # Errors
/// `NotACertificate` exactly where no certificate has these bytes as its text, `Memory` where
/// there is none.
pub fn read(alloc: Global, bytes: &[u8]) -> Result<Certificate, CertError>
    ensures ok { IfOk result (λ c. cert_text c ≡ bytes.now) }
    ensures fits { IfOk result IsCertificate }
    ensures none { IsErrOf result fault.NotACertificate → (c : Certificate) → IsCertificate c → cert_text c ≢ bytes.now }
{
    let cert = certificate(alloc, bytes)?;
    let text = write(alloc, &cert)?;
    if text.as_slice() == bytes {
        Ok(cert)
    } else {
        Err(CertError::NotACertificate)
    }
}
