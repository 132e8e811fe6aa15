// Texts.

ghost use Rattle.std.specs.Prelude.{ℕ, ◌≡◌, ◌≤◌, ◌+◌, ◌<◌, ◌^◌, length, IfOk, IsOk, OnErr, IsTrue, is_err};
ghost use mathlib.Core.List.{IsPrefix};
ghost use Rattle.ct_word.specs.Reading.{IsText};
ghost use Rattle.ct_word.specs.Stands.{StandsAt};
ghost use Rattle.ct_word.specs.WellFormed.{IsWellFormed, is_place_of};
ghost use Rattle.ct_query.specs.Bounds.{characters};
ghost use Rattle.ct_word.specs.declared.kinds.Class.TheVariants as class;
ghost use Rattle.ct_condition.specs.Terms.{TermsFrom};
ghost use Rattle.ct_condition.specs.Writes.{Writes};

use crate::interner::Interner;
use crate::packed::put;
use ct_arena::{Arena, Full, Site};
use ct_word::Kind;

/// The place of a text.
///
/// # Errors
/// `Full` where the log has no room for a word of it.
pub fn text<N: Site, I: Interner<N>>(
    arena: &Arena<N>,
    pass: &mut I,
    text: &str,
) -> Result<u32, Full>
    ensures stands { IfOk result (λ place. StandsAt (I.list pass.new) place (IsText text.now)) }
    ensures place { IfOk result (λ place. IsTrue (is_place_of (I.list pass.new) class.Text place)) }
    ensures small { IfOk result (λ place. place < 2 ^ 28) }
    ensures terms { IfOk result (λ place. TermsFrom (I.list pass.new) place (λ t. ⊥)) }
    ensures writes { Writes I.list I.made I.kept I.lent N.log.cap pass.old pass.new (characters text.now + 1) (is_err result) }
    ensures longer { IsPrefix (I.list pass.old) (I.list pass.new) }
    ensures full { OnErr result (length (I.list pass.new) ≡ N.log.cap) }
    ensures formed { IsWellFormed (I.list pass.new) }
    ensures known { (p : ℕ) → StandsAt (I.list pass.old) p (IsText text.now) → IsOk result × (I.list pass.new ≡ I.list pass.old) × (I.made pass.new ≡ I.made pass.old) }
    ensures made { I.made pass.new ≤ I.made pass.old + (characters text.now + 1) }
    ensures err { OnErr result (I.made pass.new < I.made pass.old + (characters text.now + 1)) }
    ensures kept { I.kept pass.new ≡ I.kept pass.old }
    ensures lent { I.lent pass.new ≡ I.lent pass.old }
{
    let mut place = put(arena, pass, Kind::TextEnd, 0, 0)?;
    for character in text.chars() {
        place = put(arena, pass, Kind::TextCharacter, place, character as u32)?;
    }
    Ok(place)
}
