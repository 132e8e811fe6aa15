// What accepted derivations and satisfied clauses show.

ghost use Rattle.std.specs.Prelude.{◌≡◌, ℕ, Bool, true, List};
ghost use mathlib.Core.List.{IsPrefix};
ghost use Rattle.ct_word.specs.Later.{Later};
ghost use Rattle.ct_word.specs.Value.{World};
ghost use Rattle.ct_word.specs.Condition.{holds_at};
ghost use Rattle.ct_word.specs.Reading.{condition_at};
ghost use Rattle.ct_word.specs.WellFormed.{IsWellFormed};
ghost use Rattle.ct_derivation.specs.declared.literals.Atom.{Atom};
ghost use Rattle.ct_derivation.specs.declared.literals.Atom.TheVariants as atom;
ghost use Rattle.ct_derivation.specs.Accepts.{Accepts};
ghost use Rattle.ct_derivation.specs.Models.{IsModel};
ghost use Rattle.ct_derivation.specs.Truth.{IsRefuted};

use crate::steps::Derivation;

/// Soundness: the root of an accepted derivation is false at every valuation.
pub fn refuted(words: &[u64], root: u32, derivation: &Derivation)
    requires words { IsWellFormed words.now }
    requires accepted { Accepts words.now root derivation.now }
    ensures { IsRefuted words.now root }
{}

/// A derivation that is accepted over words is accepted over every longer list of words.
pub fn still_accepted(words: &[u64], root: u32, derivation: &Derivation)
    requires { Accepts words.now root derivation.now }
    ensures longer { (longer : List ℕ) → IsPrefix words.now longer → Accepts longer root derivation.now }
    ensures later { Later words.now (λ longer. Accepts longer root derivation.now) }
{}

/// An assignment that satisfies the defining clauses of some conditions, closed under their
/// fields, and gives each equality among them its truth, gives each of them its truth.
pub fn conditions_by_clauses(words: &[u64])
    requires { IsWellFormed words.now }
    ensures { (v : World) (t : Atom → Bool) (below : ℕ → Bool) → IsModel words.now v t below → (p : ℕ) → below p ≡ true → t (atom.Node p) ≡ holds_at v (condition_at words.now p) }
{}
