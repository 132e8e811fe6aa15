// Writing a certificate.

ghost use Rattle.std.specs.Prelude.{◌≡◌, true, ◌++◌, length, map, flat_map, codes, decimal, IfOk, OnOk};
ghost use Rattle.std.specs.List.{list_all};
ghost use Rattle.ct_cert.specs.Text as text;
ghost use Rattle.ct_cert.specs.Ranges as ranges;
ghost use Rattle.ct_cert.specs.Written.{Appends};

use crate::certificate::Certificate;
use ct_derivation::{Atom, Lit, Proof, Step, Why};
use ct_word::Memory;
use std::alloc::Global;
use std::fmt::Write;

fn push_items(out: &mut String, items: &[u32]) -> Result<(), Memory>
    ensures text { Appends result out.old out.new (flat_map text.item_text items.now) }
    ensures fits { OnOk result (list_all ranges.is_place items.now ≡ true) }
{
    for item in items {
        write!(out, " {item}")?;
    }
    Ok(())
}

fn push_literal(out: &mut String, literal: &Lit) -> Result<(), Memory>
    ensures text { Appends result out.old out.new (text.lit_text literal.now) }
    ensures fits { ranges.lit_fits literal.now ≡ true }
{
    let sign = if literal.positive { "+" } else { "-" };
    match literal.atom {
        Atom::Node(p) => Ok(write!(out, "{sign}n{p} ")?),
        Atom::Same(s, t) => Ok(write!(out, "{sign}s{s},{t} ")?),
    }
}

fn push_clause(out: &mut String, clause: &[Lit]) -> Result<(), Memory>
    ensures text { Appends result out.old out.new (flat_map text.lit_text clause.now) }
    ensures fits { OnOk result (list_all ranges.lit_fits clause.now ≡ true) }
{
    for literal in clause {
        push_literal(out, literal)?;
    }
    Ok(())
}

fn push_why(out: &mut String, why: &Why) -> Result<(), Memory>
    ensures text { Appends result out.old out.new (text.why_text why.now) }
    ensures fits { OnOk result (ranges.why_fits why.now ≡ true) }
{
    match why {
        Why::Root => Ok(out.push_str("root")?),
        Why::Def(p, k) => {
            let (place, number) = (*p, *k);
            Ok(write!(out, "def {place} {number}")?)
        }
        Why::Path(places) => {
            out.push_str("path")?;
            push_items(out, places.as_slice())
        }
        Why::Rup(hints) => {
            out.push_str("rup")?;
            push_items(out, hints.as_slice())
        }
    }
}

fn push_step(out: &mut String, step: &Step) -> Result<(), Memory>
    ensures text { Appends result out.old out.new (text.step_text step.now) }
    ensures fits { OnOk result (ranges.step_fits step.now ≡ true) }
{
    push_clause(out, step.clause.as_slice())?;
    out.push_str(": ")?;
    push_why(out, &step.why)?;
    Ok(out.push_str("\n")?)
}

fn push_steps(out: &mut String, steps: &[Step]) -> Result<(), Memory>
    ensures text { Appends result out.old out.new (flat_map text.step_text steps.now) }
    ensures fits { OnOk result (list_all ranges.step_fits steps.now ≡ true) }
{
    for step in steps {
        push_step(out, step)?;
    }
    Ok(())
}

fn push_proof(out: &mut String, proof: &Proof) -> Result<(), Memory>
    ensures text { Appends result out.old out.new (text.proof_text proof.now) }
    ensures fits { OnOk result (ranges.proof_fits proof.now ≡ true) }
{
    let root = proof.root;
    let steps = proof.derivation.steps.as_slice();
    let count = steps.len();
    write!(out, "proof {root} {count}\n")?;
    push_steps(out, steps)
}

#[tactic(auto, using(crate::proofs::Numbers::hex_written))]
fn push_word(out: &mut String, word: u64) -> Result<(), Memory>
    ensures text { Appends result out.old out.new (text.word_text word) }
    ensures fits { ranges.is_word word ≡ true }
{
    Ok(write!(out, "{word:016x}\n")?)
}

fn push_words(out: &mut String, words: &[u64]) -> Result<(), Memory>
    ensures text { Appends result out.old out.new (flat_map text.word_text words.now) }
    ensures fits { OnOk result (list_all ranges.is_word words.now ≡ true) }
{
    for word in words {
        push_word(out, *word)?;
    }
    Ok(())
}

fn push_proofs(out: &mut String, proofs: &[&Proof]) -> Result<(), Memory>
    ensures text { Appends result out.old out.new (flat_map text.proof_text (map (λ p. p.now) proofs.now)) }
    ensures fits { OnOk result (list_all ranges.proof_fits (map (λ p. p.now) proofs.now) ≡ true) }
{
    for proof in proofs {
        push_proof(out, proof)?;
    }
    Ok(())
}

/// The text of the certificate of these words and proofs.
///
/// # Errors
/// `Memory` where there is none for the text.
#[tactic(auto, unfolding(crate::specs::Text::cert_text))]
pub fn write_parts(alloc: Global, words: &[u64], proofs: &[&Proof]) -> Result<Vec<u8>, Memory>
    ensures text { IfOk result (λ t. t.items ≡ text.cert_text (record { words = words.now; proofs = map (λ p. p.now) proofs.now })) }
    ensures fits { IfOk result (λ t. ranges.IsCertificate (record { words = words.now; proofs = map (λ p. p.now) proofs.now })) }
{
    let mut out = String::new(alloc);
    let count = words.len();
    write!(out, "ct-certificate 1\nwords {count}\n")?;
    push_words(&mut out, words)?;
    let count = proofs.len();
    write!(out, "proofs {count}\n")?;
    push_proofs(&mut out, proofs)?;
    out.push_str("end\n")?;
    Ok(out.into_bytes())
}

/// The text of a certificate.
///
/// # Errors
/// `Memory` where there is none for the text.
pub fn write(alloc: Global, cert: &Certificate) -> Result<Vec<u8>, Memory>
    ensures text { IfOk result (λ t. t.items ≡ text.cert_text cert.now) }
    ensures fits { IfOk result (λ t. ranges.IsCertificate cert.now) }
{
    let mut proofs = Vec::new(alloc);
    for proof in cert.proofs.as_slice() {
        proofs.push(proof)?;
    }
    write_parts(alloc, cert.words.as_slice(), &proofs)
}
