// What is said of a certificate.

/// What is said of a certificate.
#[derive(Clone, Copy, Debug, PartialEq, Eq)]
pub enum Judgement {
    /// The words are well formed and each proof is accepted over them.
    Accepted,
    /// The word at this place, from 0, may not follow the words before it; each earlier one may.
    BadWords { place: u32 },
    /// The words are well formed, and this proof, counted from 1, is the first that is not accepted.
    Rejected { proof: u32 },
}
