// Whether a row is worth the tuple of another, as a condition.

ghost use Rattle.std.specs.Prelude.{◌≡◌, true, false, ◌≤◌, ◌<◌, ◌+◌, ◌-◌, ◌*◌, ◌&&◌, ◌∷◌, ◌++◌, length, All, IfOk, OnOk, IsTrue, is_err};
ghost use Rattle.ct_word.specs.declared.kinds.Class.TheVariants as class;
ghost use Rattle.ct_word.specs.Condition.{holds_at};
ghost use Rattle.ct_word.specs.Reading.{condition_at};
ghost use Rattle.ct_word.specs.Value.{World};
ghost use Rattle.ct_word.specs.WellFormed.{IsWellFormed, is_place_of};
ghost use Rattle.ct_condition.specs.Terms.{TermsFrom, BelowSome};
ghost use Rattle.ct_condition.specs.Writes.{Writes};
ghost use Rattle.ct_operators.specs.Tables.{IsRow};
ghost use Rattle.ct_operators.specs.Building.{HoldsWhere};
ghost use Rattle.ct_operators.specs.Matching.{same_worth};

use ct_arena::{Arena, Full, Site};
use ct_condition::{Interner, and, are_apart, eq};
use ct_word::{CRow, FALSE_PLACE, TRUE_PLACE};

/// Whether two lists of cells differ in a constant. They are then worth different tuples in each world.
fn differ(words: &[u64], left: &[u32], right: &[u32]) -> bool
    requires formed { IsWellFormed words.now }
    ensures { result ≡ true → (v : World) → same_worth words.now left.now right.now v ≡ false }
{
    for (s, t) in left.iter().zip(right) {
        if are_apart(words, *s, *t) {
            return true;
        }
    }
    false
}

/// The place of the condition that two lists of cells are worth the same.
fn cells_equal<N: Site, I: Interner<N>>(
    arena: &Arena<N>,
    pass: &mut I,
    left: &[u32],
    right: &[u32],
) -> Result<u32, Full>
    requires left { All (λ p. IsTrue (is_place_of (I.list pass.old) class.Term p)) left.now }
    requires right { All (λ p. IsTrue (is_place_of (I.list pass.old) class.Term p)) right.now }
    requires lengths { length left.now ≡ length right.now }
    ensures holds { IfOk result (λ place. HoldsWhere (I.list pass.new) place (same_worth (I.list pass.old) left.now right.now)) }
    ensures terms { IfOk result (λ place. TermsFrom (I.list pass.new) place (BelowSome (I.list pass.old) (left.now ++ right.now))) }
    ensures writes { Writes I.list I.made I.kept I.lent N.log.cap pass.old pass.new (2 * length left.now) (is_err result) }
    ensures spare { OnOk result (I.made pass.new ≤ I.made pass.old + (2 * length left.now - 1)) }
    ensures none { length left.now ≡ 0 → IfOk result (λ place. place ≡ 0) }
{
    let _ = pass.words();
    let mut all = TRUE_PLACE;
    for (s, t) in left.iter().zip(right) {
        let same = eq(arena, pass, *s, *t)?;
        all = and(arena, pass, all, same)?;
    }
    Ok(all)
}

/// The place of the condition that a row is shown and is worth what these cells are.
pub(crate) fn shown_as<N: Site, I: Interner<N>>(
    arena: &Arena<N>,
    pass: &mut I,
    cells: &[u32],
    other: &CRow,
) -> Result<u32, Full>
    requires cells { All (λ p. IsTrue (is_place_of (I.list pass.old) class.Term p)) cells.now }
    requires other { IsRow (I.list pass.old) (length cells.now) other.now }
    ensures holds { IfOk result (λ place. HoldsWhere (I.list pass.new) place (λ v. holds_at v (condition_at (I.list pass.old) other.now.cond) && same_worth (I.list pass.old) other.now.cells cells.now v)) }
    ensures terms { IfOk result (λ place. TermsFrom (I.list pass.new) place (BelowSome (I.list pass.old) (other.now.cond ∷ (other.now.cells ++ cells.now)))) }
    ensures writes { Writes I.list I.made I.kept I.lent N.log.cap pass.old pass.new (2 * length cells.now) (is_err result) }
{
    let theirs = other.cells.as_slice();
    // Where they differ in a constant, no word has to be looked for.
    if differ(pass.words(), theirs, cells) {
        return Ok(FALSE_PLACE);
    }
    let same = cells_equal(arena, pass, theirs, cells)?;
    and(arena, pass, other.cond, same)
}
