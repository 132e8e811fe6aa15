// One word.

ghost use Rattle.std.specs.Prelude.{◌≡◌, ◌≤◌, ◌<◌, ◌^◌, ◌↔◌, length, IfOk, IsErr, IsOk, OnErr, IsTrue, Some, false, slice_get, Contains, is_err};
ghost use mathlib.Core.List.{IsPrefix};
ghost use Rattle.ct_word.specs.declared.kinds.Class.TheVariants as class;
ghost use Rattle.ct_word.specs.Reading.{by_kind, meanings};
ghost use Rattle.ct_word.specs.Stands.{StandsAt};
ghost use Rattle.ct_word.specs.Word.{word_of};
ghost use Rattle.ct_arena.specs.Seen.{CountsWord};
ghost use Rattle.ct_condition.specs.Terms.{TermsFrom, AtOrUnder};
ghost use Rattle.ct_word.specs.WellFormed.{IsWellFormed, is_formed_as, is_place_of, class_of, has_class};
ghost use Rattle.ct_condition.specs.Writes.{Writes};

use crate::interner::Interner;
use ct_arena::{Arena, Full, Site};
use ct_word::{Kind, pack};

/// The place of the word of a kind, with fields as the table of kinds asks.
///
/// # Errors
/// `Full` where the log has no room for the word.
pub fn put<N: Site, I: Interner<N>>(
    arena: &Arena<N>,
    pass: &mut I,
    kind: Kind,
    a: u32,
    b: u32,
) -> Result<u32, Full>
    requires left { a < 2 ^ 28 }
    requires right { b < 2 ^ 28 }
    requires formed { IsTrue (is_formed_as (Some kind) (I.list pass.old) a b) }
    requires plain { has_class (Some kind) class.Commit ≡ false }
    ensures word { IfOk result (λ place. slice_get (I.list pass.new) place ≡ Some (word_of kind a b)) }
    ensures stands { IfOk result (λ place. StandsAt (I.list pass.new) place (by_kind (Some kind) (meanings (I.list pass.new)) a b)) }
    ensures place { IfOk result (λ place. IsTrue (is_place_of (I.list pass.new) (class_of kind) place)) }
    ensures small { IfOk result (λ place. place < 2 ^ 28) }
    ensures terms { IfOk result (λ place. TermsFrom (I.list pass.new) place (AtOrUnder (I.list pass.new) place kind a b)) }
    ensures writes { Writes I.list I.made I.kept I.lent N.log.cap pass.old pass.new 1 (is_err result) }
    ensures longer { IsPrefix (I.list pass.old) (I.list pass.new) }
    ensures formed { IsWellFormed (I.list pass.new) }
    ensures room { length (I.list pass.new) ≤ N.log.cap }
    ensures full { IsErr result ↔ ((length (I.list pass.new) ≡ N.log.cap) × ¬ Contains (I.list pass.new) (word_of kind a b)) }
    ensures known { Contains (I.list pass.old) (word_of kind a b) → IsOk result × (I.list pass.new ≡ I.list pass.old) × (I.made pass.new ≡ I.made pass.old) }
    ensures made { CountsWord (I.made pass.old) (I.made pass.new) (I.list pass.new) (word_of kind a b) }
    ensures err { OnErr result (I.made pass.new ≡ I.made pass.old) }
    ensures kept { I.kept pass.new ≡ I.kept pass.old }
    ensures lent { I.lent pass.new ≡ I.lent pass.old }
{
    let place = pass.intern(arena, pack(kind, a, b))?;
    Ok(place)
}
