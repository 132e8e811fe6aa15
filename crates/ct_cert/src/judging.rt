// The judgement of a certificate.

ghost use Rattle.std.specs.Prelude.{◌≡◌, ◌<◌, ◌^◌, length, IfOk};
ghost use Rattle.ct_derivation.specs.Accepts.{accepts};
ghost use Rattle.ct_cert.specs.Judgement as judged;
ghost use Rattle.ct_cert.specs.declared.judgement.Judgement.TheVariants as judgement;

use crate::certificate::Certificate;
use crate::judgement::Judgement;
use crate::repeats::{has_long_clause, slim};
use crate::small::small;
use crate::well_formed::bad_word;
use ct_checker::{Marks, check, widest};
use ct_derivation::{Derivation, Proof};
use ct_word::Memory;
use std::alloc::Global;

/// Whether a derivation is accepted, as it stands.
fn is_accepted(
    alloc: Global,
    words: &[u64],
    root: u32,
    derivation: &Derivation,
) -> Result<bool, Memory>
    ensures { IfOk result (λ b. b ≡ accepts words.now root derivation.now) }
{
    let mut marks = Marks::make(alloc, small(widest(derivation))?)?;
    Ok(check(words, root, derivation, &mut marks))
}

/// Whether a proof is accepted.
#[tactic(auto, using(crate::proofs::Alike::accepts_alike))]
fn is_proof(alloc: Global, words: &[u64], proof: &Proof) -> Result<bool, Memory>
    ensures { IfOk result (λ b. b ≡ accepts words.now proof.now.root proof.now.derivation) }
{
    if has_long_clause(&proof.derivation) {
        let slim = slim(alloc, &proof.derivation)?;
        return is_accepted(alloc, words, proof.root, &slim);
    }
    is_accepted(alloc, words, proof.root, &proof.derivation)
}

/// The number of the first proof that is not accepted, counted from 1.
fn bad_proof(alloc: Global, words: &[u64], proofs: &[Proof]) -> Result<Option<usize>, Memory>
    ensures { IfOk result (λ n. n ≡ judged.bad_proof words.now 1 proofs.now) }
{
    for (i, proof) in proofs.iter().enumerate() {
        if !is_proof(alloc, words, proof)? {
            return Ok(Some(i + 1));
        }
    }
    Ok(None)
}

/// Whether the words of a certificate are well formed and each of its proofs is accepted over
/// them. Any certificate may be given. Where it is accepted, the root of each proof is false at
/// every valuation.
///
/// # Errors
/// `Memory` where there is none for the test: 16 bytes for each word, or, for one proof at a time,
/// 20 for each literal and hint of its widest step, and a copy of it where a clause has more than
/// 16 literals. So it is also where a step has 2^32 of them, or the number of the first proof that
/// is not accepted has more than 32 bits.
#[tactic(auto, unfolding(crate::specs::Judgement::judgement))]
pub fn judge(alloc: Global, cert: &Certificate) -> Result<Judgement, Memory>
    requires few { length cert.now.words < 2 ^ 28 }
    ensures exact { IfOk result (λ j. j ≡ judged.judgement cert.now) }
    ensures sound { IfOk result (λ j. j ≡ judgement.Accepted → judged.IsSound cert.now) }
{
    let words = cert.words.as_slice();
    if let Some(place) = bad_word(alloc, words)? {
        return Ok(Judgement::BadWords { place });
    }
    match bad_proof(alloc, words, cert.proofs.as_slice())? {
        None => Ok(Judgement::Accepted),
        Some(number) => Ok(Judgement::Rejected {
            proof: small(number)?,
        }),
    }
}
