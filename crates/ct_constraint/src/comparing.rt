// Whether two rows are worth different tuples that agree at some columns.

ghost use Rattle.std.specs.Prelude.{◌≡◌, ◌≤◌, ◌<◌, ◌+◌, ◌*◌, ◌++◌, ◌∷◌, ◌&&◌, ◌||◌, ◌⊎◌, [], true, false, not, nat_eq, length, All, IfOk, IsTrue, is_err};
ghost use Rattle.ct_word.specs.declared.kinds.Class.TheVariants as class;
ghost use Rattle.ct_word.specs.Value.{World};
ghost use Rattle.ct_word.specs.WellFormed.{IsWellFormed, is_place_of};
ghost use Rattle.ct_condition.specs.Folding.{are_apart};
ghost use Rattle.ct_condition.specs.Terms.{TermsFrom, BelowEither, BelowSome};
ghost use Rattle.ct_condition.specs.Truth.{HasTruth, truth_at};
ghost use Rattle.ct_condition.specs.Writes.{Writes};
ghost use Rattle.ct_operators.specs.Building.{HoldsWhere};
ghost use Rattle.ct_operators.specs.Placing.{tuple_of};
ghost use Rattle.ct_operators.specs.Tables.{IsRow, value_of_rows};
ghost use Rattle.ct_operators.specs.Terms.{TermOfRow};
ghost use Rattle.ct_query.specs.Assertions.{agree, clash, keep_apart};
ghost use Rattle.ct_constraint.specs.Comparing.{MayAgree, is_in, same_below};

use ct_arena::{Arena, Full, Site};
use ct_condition::{Interner, and, are_apart, eq, not};
use ct_word::{CRow, TRUE_PLACE};

/// Whether two lists of cells differ in a constant at one of these columns. They then agree there in no world.
fn differ_at(words: &[u64], left: &[u32], right: &[u32], columns: &[u32]) -> bool
    requires formed { IsWellFormed words.now }
    requires left { All (λ k. k < length left.now) columns.now }
    requires right { All (λ k. k < length right.now) columns.now }
    ensures differ { result ≡ true → (v : World) → agree columns.now (tuple_of words.now left.now v) (tuple_of words.now right.now v) ≡ false }
    ensures may { result ≡ false → MayAgree words.now left.now right.now columns.now }
{
    for column in columns {
        let k = *column as usize;
        if are_apart(words, left[k], right[k]) {
            return true;
        }
    }
    false
}

/// Whether a position is one of these columns.
fn is_among(columns: &[u32], k: usize) -> bool
    ensures { result ≡ is_in columns.now k }
{
    columns.iter().any(|column| *column as usize == k)
}

/// Whether a position is one of these columns, where that is asked. It is not of cells that are the same term, nor of those
/// that are different constants.
fn is_asked_among(words: &[u64], s: u32, t: u32, columns: &[u32], k: usize) -> bool
    ensures { result ≡ (not (nat_eq s t) && (not (are_apart words.now s t) && is_in columns.now k)) }
{
    s != t && !are_apart(words, s, t) && is_among(columns, k)
}

/// The place of a condition, joined with another one where that counts.
fn and_if<N: Site, I: Interner<N>>(
    arena: &Arena<N>,
    pass: &mut I,
    counts: bool,
    c: u32,
    d: u32,
) -> Result<u32, Full>
    requires left { IsTrue (is_place_of (I.list pass.old) class.Cond c) }
    requires right { IsTrue (is_place_of (I.list pass.old) class.Cond d) }
    ensures truth { IfOk result (λ place. HasTruth (I.list pass.new) place (λ v row. truth_at (I.list pass.old) c v row && (not counts || truth_at (I.list pass.old) d v row))) }
    ensures terms { IfOk result (λ place. TermsFrom (I.list pass.new) place (BelowEither (I.list pass.old) c d)) }
    ensures writes { Writes I.list I.made I.kept I.lent N.log.cap pass.old pass.new 1 (is_err result) }
{
    let _ = pass.words();
    if counts {
        and(arena, pass, c, d)
    } else {
        Ok(c)
    }
}

/// The places of the conditions that two lists of cells are worth the same at each of these columns, and at each other
/// one. A position is only looked for among the columns where its cells may or may not be worth the same.
fn compared<N: Site, I: Interner<N>>(
    arena: &Arena<N>,
    pass: &mut I,
    left: &[u32],
    right: &[u32],
    columns: &[u32],
) -> Result<(u32, u32), Full>
    requires left { All (λ p. IsTrue (is_place_of (I.list pass.old) class.Term p)) left.now }
    requires right { All (λ p. IsTrue (is_place_of (I.list pass.old) class.Term p)) right.now }
    requires lengths { length left.now ≡ length right.now }
    requires may { MayAgree (I.list pass.old) left.now right.now columns.now }
    ensures inside { IfOk result (λ p. HoldsWhere (I.list pass.new) p.0 (λ v. same_below (length left.now) (is_in columns.now) (tuple_of (I.list pass.old) left.now v) (tuple_of (I.list pass.old) right.now v))) }
    ensures outside { IfOk result (λ p. HoldsWhere (I.list pass.new) p.1 (λ v. same_below (length left.now) (λ k. not (is_in columns.now k)) (tuple_of (I.list pass.old) left.now v) (tuple_of (I.list pass.old) right.now v))) }
    ensures inside_terms { IfOk result (λ p. TermsFrom (I.list pass.new) p.0 (BelowSome (I.list pass.old) (left.now ++ right.now))) }
    ensures outside_terms { IfOk result (λ p. TermsFrom (I.list pass.new) p.1 (BelowSome (I.list pass.old) (left.now ++ right.now))) }
    ensures writes { Writes I.list I.made I.kept I.lent N.log.cap pass.old pass.new (length left.now * 3) (is_err result) }
{
    let _ = pass.words();
    let mut inside = TRUE_PLACE;
    let mut outside = TRUE_PLACE;
    for k in 0..left.len() {
        let is_key = is_asked_among(pass.words(), left[k], right[k], columns, k);
        let same = eq(arena, pass, left[k], right[k])?;
        inside = and_if(arena, pass, is_key, inside, same)?;
        outside = and_if(arena, pass, !is_key, outside, same)?;
    }
    Ok((inside, outside))
}

/// The place of the condition that two lists of cells are worth different tuples that agree at these columns.
fn clashing<N: Site, I: Interner<N>>(
    arena: &Arena<N>,
    pass: &mut I,
    left: &[u32],
    right: &[u32],
    columns: &[u32],
) -> Result<u32, Full>
    requires left { All (λ p. IsTrue (is_place_of (I.list pass.old) class.Term p)) left.now }
    requires right { All (λ p. IsTrue (is_place_of (I.list pass.old) class.Term p)) right.now }
    requires lengths { length left.now ≡ length right.now }
    requires columns { All (λ k. k < length left.now) columns.now }
    requires may { MayAgree (I.list pass.old) left.now right.now columns.now }
    ensures holds { IfOk result (λ place. HoldsWhere (I.list pass.new) place (λ v. clash columns.now (tuple_of (I.list pass.old) left.now v) (tuple_of (I.list pass.old) right.now v))) }
    ensures terms { IfOk result (λ place. TermsFrom (I.list pass.new) place (BelowSome (I.list pass.old) (left.now ++ right.now))) }
    ensures writes { Writes I.list I.made I.kept I.lent N.log.cap pass.old pass.new (length left.now * 3 + 2) (is_err result) }
{
    let (inside, outside) = compared(arena, pass, left, right, columns)?;
    let other = not(arena, pass, outside)?;
    and(arena, pass, inside, other)
}

/// The place of the condition that two rows are not both shown, or are not worth different tuples that agree at these
/// columns.
pub(crate) fn apart<N: Site, I: Interner<N>>(
    arena: &Arena<N>,
    pass: &mut I,
    left: &CRow,
    right: &CRow,
    columns: &[u32],
) -> Result<u32, Full>
    requires left { IsRow (I.list pass.old) (length left.now.cells) left.now }
    requires right { IsRow (I.list pass.old) (length left.now.cells) right.now }
    requires columns { All (λ k. k < length left.now.cells) columns.now }
    ensures holds { IfOk result (λ place. HoldsWhere (I.list pass.new) place (λ v. keep_apart columns.now (value_of_rows (I.list pass.old) v (left.now ∷ [])) (value_of_rows (I.list pass.old) v (right.now ∷ [])))) }
    ensures terms { IfOk result (λ place. TermsFrom (I.list pass.new) place (λ t. TermOfRow (I.list pass.old) left.now t ⊎ TermOfRow (I.list pass.old) right.now t)) }
    ensures writes { Writes I.list I.made I.kept I.lent N.log.cap pass.old pass.new (length left.now.cells * 3 + 5) (is_err result) }
{
    let mine = left.cells.as_slice();
    let theirs = right.cells.as_slice();
    // Where they differ in a constant, no word has to be looked for.
    if differ_at(pass.words(), mine, theirs, columns) {
        return Ok(TRUE_PLACE);
    }
    let clash = clashing(arena, pass, mine, theirs, columns)?;
    let one = and(arena, pass, right.cond, clash)?;
    let both = and(arena, pass, left.cond, one)?;
    not(arena, pass, both)
}
