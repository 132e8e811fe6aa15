// What stands in the lists of a certificate's text, read whatever the bytes are.

ghost use Rattle.std.specs.Prelude.{◌≡◌, ℕ, Bool, List, IfOk, length};
ghost use Rattle.ct_cert.specs.Reading as reading;

use crate::fronts::{behind, byte_at, clause_number, number, place, value};
use ct_derivation::{Atom, Derivation, Lit, Proof, Step, Why};
use ct_word::{List, Memory};
use std::alloc::Global;

/// What stands in lists, one behind the other.
pub trait Entry {
    ghost use Rattle.std.specs.Prelude.{ℕ, Bool, List};

    ghost starting: { ℕ → Bool };

    ghost reading: { List ℕ → Self × List ℕ };

    /// Whether one may start with this byte.
    fn starts(byte: u8) -> bool
        ensures { result ≡ starting byte };

    /// The one in front, and the bytes behind it.
    fn read(alloc: Global, bytes: &[u8]) -> Result<(Self, &[u8]), Memory>
        ensures item { IfOk result (λ p. p.0 ≡ (reading bytes.now).0) }
        ensures rest { IfOk result (λ p. p.1.now ≡ (reading bytes.now).1) };
}

fn begins<T: Entry>(bytes: &[u8]) -> bool
    ensures { result ≡ reading.begins T.starting bytes.now }
{
    match bytes.first() {
        Some(byte) => T::starts(*byte),
        None => false,
    }
}

/// At most so many, as long as the bytes begin as one does, and the bytes behind them.
pub fn many<T: Entry + Drop>(
    alloc: Global,
    most: u64,
    bytes: &[u8],
) -> Result<(List<T>, &[u8]), Memory>
    ensures items { IfOk result (λ p. p.0 ≡ (reading.many T.starting T.reading most bytes.now).0) }
    ensures rest { IfOk result (λ p. p.1.now ≡ (reading.many T.starting T.reading most bytes.now).1) }
{
    let mut items = Vec::new(alloc);
    let mut rest = bytes;
    for _ in 0..most {
        if !begins::<T>(rest) {
            return Ok((List::from_vec(items), rest));
        }
        let (item, behind) = T::read(alloc, rest)?;
        items.push(item)?;
        rest = behind;
    }
    Ok((List::from_vec(items), rest))
}

/// A word, on a line.
impl Entry for u64 {
    ghost starting = { reading.starts_anyhow };

    ghost reading = { reading.word_in };

    fn starts(_: u8) -> bool {
        true
    }

    #[tactic(auto, unfolding(crate::specs::Reading::word_in))]
    fn read(_: Global, bytes: &[u8]) -> Result<(u64, &[u8]), Memory> {
        let digits = &bytes[..bytes.len().min(16)];
        Ok((value(16, digits), behind(bytes, 17)))
    }
}

/// A place or a hint, behind a blank.
impl Entry for u32 {
    ghost starting = { reading.starts_item };

    ghost reading = { reading.item_in };

    fn starts(byte: u8) -> bool {
        byte == b' '
    }

    #[tactic(auto, unfolding(crate::specs::Reading::item_in))]
    fn read(_: Global, bytes: &[u8]) -> Result<(u32, &[u8]), Memory> {
        Ok(place(behind(bytes, 1)))
    }
}

#[tactic(auto, unfolding(crate::specs::Reading::atom_in))]
fn atom(bytes: &[u8]) -> (Atom, &[u8])
    ensures item { result.0 ≡ (reading.atom_in bytes.now).0 }
    ensures rest { result.1.now ≡ (reading.atom_in bytes.now).1 }
{
    let (p, rest) = place(behind(bytes, 1));
    if byte_at(bytes, 0) != b's' {
        return (Atom::Node(p), rest);
    }
    let (q, rest) = place(behind(rest, 1));
    (Atom::Same(p, q), rest)
}

/// A literal with the blank behind it.
impl Entry for Lit {
    ghost starting = { reading.starts_lit };

    ghost reading = { reading.lit_in };

    fn starts(byte: u8) -> bool {
        byte == b'+' || byte == b'-'
    }

    #[tactic(auto, unfolding(crate::specs::Reading::lit_in))]
    fn read(_: Global, bytes: &[u8]) -> Result<(Lit, &[u8]), Memory> {
        let positive = byte_at(bytes, 0) == b'+';
        let (atom, rest) = atom(behind(bytes, 1));
        Ok((Lit { positive, atom }, behind(rest, 1)))
    }
}

#[tactic(auto, unfolding(crate::specs::Reading::items_in))]
fn items(alloc: Global, bytes: &[u8]) -> Result<(List<u32>, &[u8]), Memory>
    ensures item { IfOk result (λ p. p.0 ≡ (reading.items_in bytes.now).0) }
    ensures rest { IfOk result (λ p. p.1.now ≡ (reading.items_in bytes.now).1) }
{
    many::<u32>(alloc, bytes.len() as u64, bytes)
}

#[tactic(auto, unfolding(crate::specs::Reading::why_in))]
fn why(alloc: Global, bytes: &[u8]) -> Result<(Why, &[u8]), Memory>
    ensures item { IfOk result (λ p. p.0 ≡ (reading.why_in bytes.now).0) }
    ensures rest { IfOk result (λ p. p.1.now ≡ (reading.why_in bytes.now).1) }
{
    let first = byte_at(bytes, 0);
    if first == b'd' {
        let (p, rest) = place(behind(bytes, 4));
        let (k, rest) = clause_number(behind(rest, 1));
        return Ok((Why::Def(p, k), rest));
    }
    if first == b'p' {
        let (places, rest) = items(alloc, behind(bytes, 4))?;
        return Ok((Why::Path(places), rest));
    }
    if byte_at(bytes, 1) == b'o' {
        return Ok((Why::Root, behind(bytes, 4)));
    }
    let (hints, rest) = items(alloc, behind(bytes, 3))?;
    Ok((Why::Rup(hints), rest))
}

/// A step, on a line.
impl Entry for Step {
    ghost starting = { reading.starts_anyhow };

    ghost reading = { reading.step_in };

    fn starts(_: u8) -> bool {
        true
    }

    #[tactic(auto, unfolding(crate::specs::Reading::step_in))]
    fn read(alloc: Global, bytes: &[u8]) -> Result<(Step, &[u8]), Memory> {
        let (clause, rest) = many::<Lit>(alloc, bytes.len() as u64, bytes)?;
        let (why, rest) = why(alloc, behind(rest, 2))?;
        Ok((Step { clause, why }, behind(rest, 1)))
    }
}

/// A proof, on its lines.
impl Entry for Proof {
    ghost starting = { reading.starts_anyhow };

    ghost reading = { reading.proof_in };

    fn starts(_: u8) -> bool {
        true
    }

    #[tactic(auto, unfolding(crate::specs::Reading::proof_in))]
    fn read(alloc: Global, bytes: &[u8]) -> Result<(Proof, &[u8]), Memory> {
        let (root, rest) = place(behind(bytes, 6));
        let (count, rest) = number(behind(rest, 1));
        let (steps, rest) = many::<Step>(alloc, count, behind(rest, 1))?;
        let derivation = Derivation { steps };
        Ok((Proof { root, derivation }, rest))
    }
}
