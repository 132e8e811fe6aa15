// What the texts of certificates are like, and what judgements say.

ghost use Rattle.std.specs.Prelude.{◌≡◌, ℕ};
ghost use Rattle.ct_cert.specs.Text.{cert_text};
ghost use Rattle.ct_cert.specs.Ranges.{IsCertificate};
ghost use Rattle.ct_cert.specs.Judgement.{judgement, IsSound, IsFirstBadWord, IsFirstBadProof};
ghost use Rattle.ct_cert.specs.declared.judgement.Judgement.TheVariants as judged;
ghost use Rattle.ct_cert.specs.declared.certificate.Certificate.{Certificate};

/// A text is that of one certificate. So `read` gives what `write` wrote.
pub fn texts_are_of_one()
    ensures { (c d : Certificate) → IsCertificate c → IsCertificate d → cert_text c ≡ cert_text d → c ≡ d }
{}

/// Where the judgement is `Accepted` the words are well formed and the root of each proof is false
/// at every valuation. Otherwise it names the first word or proof that is bad.
pub fn judgements_say()
    ensures accepted { (c : Certificate) → judgement c ≡ judged.Accepted → IsSound c }
    ensures words { (c : Certificate) (place : ℕ) → judgement c ≡ judged.BadWords place → IsFirstBadWord c.words place }
    ensures proofs { (c : Certificate) (number : ℕ) → judgement c ≡ judged.Rejected number → IsFirstBadProof c number }
{}
