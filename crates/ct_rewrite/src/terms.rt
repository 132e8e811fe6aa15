// Two terms of an equality.

ghost use Rattle.std.specs.Prelude.{◌≡◌, ℕ, ◌+◌, false, IfOk, IsTrue};
ghost use Rattle.ct_word.specs.declared.values.Term.{Term};
ghost use Rattle.ct_word.specs.Condition.{Same, SameTruth};
ghost use Rattle.ct_rewrite.specs.Joining.{AreDifferentConstants};
ghost use Rattle.ct_rewrite.specs.Order.{is_before};
ghost use Rattle.ct_rewrite.specs.Rules.{are_constants};

use crate::order::compare_terms;
use ct_word::{Memory, Term};
use std::cmp::Ordering;

/// Whether two terms are one.
pub fn are_same(s: &Term, t: &Term) -> bool
    ensures same { IsTrue result → s.now ≡ t.now }
    ensures apart { result ≡ false → s.now ≡ t.now → ⊥ }
{
    s == t
}

/// Whether two terms are different constants.
pub fn are_different_constants(s: &Term, t: &Term) -> bool
    ensures differ { IsTrue result → AreDifferentConstants s.now t.now }
    ensures one { result ≡ false → IsTrue (are_constants s.now t.now) → s.now ≡ t.now }
{
    match (s, t) {
        (Term::Value(a), Term::Value(b)) => a != b,
        _ => false,
    }
}

/// Copies of two terms.
///
/// # Errors
/// `Memory` where there is none for them.
pub fn copies(s: &Term, t: &Term) -> Result<(Term, Term), Memory>
    ensures { IfOk result (λ p. (p.0 ≡ s.now) × (p.1 ≡ t.now)) }
{
    let first = s.clone()?;
    Ok((first, t.clone()?))
}

/// Two terms, the smaller one first.
pub fn in_order(s: Term, t: Term) -> (Term, Term)
    ensures truth { SameTruth (Same result.0 result.1) (Same s t) }
    ensures both { (f : Term → ℕ) → f result.0 + f result.1 ≡ f s + f t }
    ensures order { (s ≡ t → ⊥) → IsTrue (is_before result.0 result.1) }
    ensures constants { are_constants result.0 result.1 ≡ are_constants s t }
{
    match compare_terms(&t, &s) {
        Ordering::Less => (t, s),
        _ => (s, t),
    }
}
