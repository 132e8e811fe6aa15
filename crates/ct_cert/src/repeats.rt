// Derivations in whose long clauses no literal stands twice.
//
// A hint costs the literals of the clause that it names. Were one that is repeated counted each time, then many hints to a
// clause that repeats one many times would cost the square of the text.

ghost use Rattle.std.specs.Prelude.{◌≡◌, ◌+◌, ◌<◌, ◌≤◌, true, Some, length, map, nat_lt, slice_get, IfOk, IsTrue};
ghost use Rattle.std.specs.List.{list_any, AllZip, IsDistinct};
ghost use Rattle.ct_derivation.specs.declared.literals.Lit.{Lit};
ghost use Rattle.ct_derivation.specs.Literal.{same_lit, has};
ghost use Rattle.ct_cert.specs.Alike.{Alike, AreAlike, is_long};
ghost use Rattle.ct_cert.specs.Numbered.{AreLow, IsLow, IsNoted, IsOnce, number_of, pair_of};

use crate::small::small;
use ct_chain::Chain;
use ct_derivation::{Atom, Derivation, Lit, Step, Why};
use ct_word::{List, Memory};
use std::alloc::Global;

/// A clause of so many literals may repeat them: that costs a factor and no more.
const FEW: usize = 16;

/// Whether a derivation has a long clause.
pub fn has_long_clause(derivation: &Derivation) -> bool
    ensures { result ≡ list_any is_long derivation.now.steps }
{
    for step in derivation.steps.as_slice() {
        if step.clause.len() > FEW {
            return true;
        }
    }
    false
}

/// A number for an atom. Two over places below 2^31 have different ones.
fn pair(atom: Atom) -> u64
    ensures { result ≡ pair_of atom }
{
    match atom {
        Atom::Node(place) => u64::from(place) * 0x1_0000_0000 + 0x8000_0000,
        Atom::Same(s, t) => u64::from(s) * 0x1_0000_0000 + u64::from(t),
    }
}

/// A number for a literal. Two over places below 2^31 have different ones.
fn number(literal: &Lit) -> u64
    ensures { IsLow literal.now.atom → result ≡ number_of literal.now }
{
    pair(literal.atom)
        .wrapping_mul(2)
        .wrapping_add(u64::from(literal.positive))
}

#[tactic(auto, unfolding(ct_derivation::specs::Literal::same_lit))]
fn is_same(literal: &Lit, other: &Lit) -> bool
    ensures { result ≡ same_lit literal.now other.now }
{
    literal.positive == other.positive
        && match (literal.atom, other.atom) {
            (Atom::Node(p), Atom::Node(q)) => p == q,
            (Atom::Same(s, t), Atom::Same(p, q)) => s == p && t == q,
            _ => false,
        }
}

/// Whether a literal stands at a place, which may lie past the end.
fn stands_at(kept: &[Lit], place: u32, literal: &Lit) -> bool
    ensures among { IsTrue result → has kept.now literal.now ≡ true }
    ensures same { (other : Lit) → slice_get kept.now place ≡ Some other → result ≡ same_lit literal.now other }
{
    match kept.get(place as usize) {
        Some(other) => is_same(literal, other),
        None => false,
    }
}

/// Whether a literal is among those kept, whose numbers have been noted in their order. Else its number is noted.
fn is_repeated(noted: &mut Chain, kept: &[Lit], literal: &Lit) -> bool
    requires { length noted.old.words < noted.old.room }
    ensures repeated { IsTrue result → has kept.now literal.now ≡ true }
    ensures room { noted.new.room ≡ noted.old.room }
    ensures more { length noted.new.words ≤ length noted.old.words + 1 }
    ensures noted { AreLow kept.now → IsLow literal.now.atom → noted.old.words ≡ map number_of kept.now → IsNoted literal.now kept.now result noted.new.words }
{
    let number = number(literal);
    match noted.find(number) {
        Some(place) => stands_at(kept, place, literal),
        None => {
            noted.push(number);
            false
        }
    }
}

/// The literals of a clause, each once where all are over places below 2^31.
fn distinct(alloc: Global, clause: &[Lit]) -> Result<List<Lit>, Memory>
    ensures alike { IfOk result (λ ls. Alike clause.now ls) }
    ensures once { IfOk result (λ ls. AreLow clause.now → IsDistinct same_lit ls) }
{
    let mut noted = Chain::make(alloc, small(clause.len())?)?;
    let mut kept = Vec::new(alloc);
    for literal in clause {
        if !is_repeated(&mut noted, kept.as_slice(), literal) {
            kept.push(*literal)?;
        }
    }
    Ok(List::from_vec(kept))
}

/// A clause once more, with each literal once where it is long.
fn slim_clause(alloc: Global, clause: &List<Lit>) -> Result<List<Lit>, Memory>
    ensures alike { IfOk result (λ ls. Alike clause.now ls) }
    ensures once { IfOk result (λ ls. nat_lt 16 (length clause.now) ≡ true → AreLow clause.now → IsDistinct same_lit ls) }
{
    if clause.len() > FEW {
        distinct(alloc, clause.as_slice())
    } else {
        Ok(clause.clone()?)
    }
}

/// A reason once more.
fn copied(why: &Why) -> Result<Why, Memory>
    ensures { IfOk result (λ w. w ≡ why.now) }
{
    Ok(match why {
        Why::Root => Why::Root,
        Why::Def(place, k) => Why::Def(*place, *k),
        Why::Path(places) => Why::Path(places.clone()?),
        Why::Rup(hints) => Why::Rup(hints.clone()?),
    })
}

/// A step once more, with each literal once where its clause is long.
fn slim_step(alloc: Global, step: &Step) -> Result<Step, Memory>
    ensures alike { IfOk result (λ s. AreAlike step.now s) }
    ensures once { IfOk result (λ s. IsOnce step.now s) }
{
    let clause = slim_clause(alloc, &step.clause)?;
    let why = copied(&step.why)?;
    Ok(Step { clause, why })
}

/// A derivation once more, with each literal of a long clause once where all are over places below 2^31.
pub fn slim(alloc: Global, derivation: &Derivation) -> Result<Derivation, Memory>
    ensures alike { IfOk result (λ d. AllZip AreAlike derivation.now.steps d.steps) }
    ensures once { IfOk result (λ d. AllZip IsOnce derivation.now.steps d.steps) }
{
    let mut steps = Vec::new(alloc);
    for step in derivation.steps.as_slice() {
        steps.push(slim_step(alloc, step)?)?;
    }
    Ok(Derivation {
        steps: List::from_vec(steps),
    })
}
