// Certificates, and why bytes are not read as one.

ghost use Rattle.std.specs.Prelude.{◌≡◌};
ghost use Rattle.ct_cert.specs.declared.certificate.CertError.TheVariants as fault;

use ct_derivation::Proof;
use ct_word::{List, Memory};
use thiserror::Error;

/// A list of words with proofs over them. Nothing is asked of either.
#[derive(Drop)]
pub struct Certificate {
    pub words: List<u64>,
    pub proofs: List<Proof>,
}

/// Why bytes are not read as a certificate.
#[derive(Clone, Copy, Debug, PartialEq, Eq, Error)]
pub enum CertError {
    /// No certificate has these bytes as its text.
    #[error("not a certificate")]
    NotACertificate,
    #[error("out of memory")]
    Memory,
}

impl From<Memory> for CertError {
    ghost from_gives = { λ _ e. e ≡ fault.Memory };

    fn from(_: Memory) -> Self {
        CertError::Memory
    }
}
