// Which rows stay, and the condition that a row does.

ghost use Rattle.std.specs.Prelude.{◌≡◌, false, ◌⊎◌, ◌+◌, ◌*◌, ◌&&◌, not, length, All, IfOk, OnOk, IsTrue, is_err};
ghost use Rattle.ct_word.specs.declared.kinds.Class.TheVariants as class;
ghost use Rattle.ct_word.specs.Condition.{holds_at};
ghost use Rattle.ct_word.specs.Reading.{condition_at};
ghost use Rattle.ct_word.specs.WellFormed.{is_place_of};
ghost use Rattle.ct_condition.specs.Terms.{TermsFrom, BelowSome};
ghost use Rattle.ct_condition.specs.Writes.{Writes};
ghost use Rattle.ct_operators.specs.Tables.{IsRow};
ghost use Rattle.ct_operators.specs.Building.{HoldsWhere};
ghost use Rattle.ct_operators.specs.Placing.{tuple_of};
ghost use Rattle.ct_operators.specs.Matching.{is_among};
ghost use Rattle.ct_operators.specs.Others.{others_of, AreAmong};
ghost use Rattle.ct_operators.specs.Judging.{passes, parts_in, Beside, FitsTest, first_words, test_words, is_apart};
ghost use Rattle.ct_operators.specs.Terms.{TermOfRow, TermOfRows};

use crate::matching::shown_as;
use crate::others::Others;
use crate::placing::on_row;
use ct_arena::{Arena, Full, Site};
use ct_condition::{Interner, and, not, or, pred};
use ct_query::Pred;
use ct_word::{CRow, FALSE_PLACE};

/// Which rows stay.
#[derive(Clone, Copy)]
pub(crate) enum Test<'a> {
    /// Those for which a predicate holds.
    Holds(&'a Pred),
    /// Those for which the condition at a place does not hold. With it come the places of the conditions below it, each
    /// after its parts.
    Fails(u32, &'a [u32]),
    /// Those that are worth one of these rows.
    Among(Others<'a>),
    /// Those that are worth none of these rows.
    Apart(Others<'a>),
}

/// The place of the condition that one of these rows is shown and is worth what the cells are.
fn among<N: Site, I: Interner<N>>(
    arena: &Arena<N>,
    pass: &mut I,
    cells: &[u32],
    others: Others<'_>,
) -> Result<u32, Full>
    requires cells { All (λ p. IsTrue (is_place_of (I.list pass.old) class.Term p)) cells.now }
    requires others { All (IsRow (I.list pass.old) (length cells.now)) (others_of others) }
    requires among { AreAmong others }
    ensures holds { IfOk result (λ place. HoldsWhere (I.list pass.new) place (is_among (I.list pass.old) (others_of others.entry) cells.now)) }
    ensures terms { IfOk result (λ place. TermsFrom (I.list pass.new) place (λ t. BelowSome (I.list pass.old) cells.now t ⊎ TermOfRows (I.list pass.old) (others_of others.entry) t)) }
    ensures writes { Writes I.list I.made I.kept I.lent N.log.cap pass.old pass.new (length (others_of others.entry) * (2 * length cells.now + 1)) (is_err result) }
{
    let _ = pass.words();
    let mut any = FALSE_PLACE;
    for index in 0..others.len() {
        let there = shown_as(arena, pass, cells, others.nth(index))?;
        any = or(arena, pass, any, there)?;
    }
    Ok(any)
}

/// The place of the condition that a row is shown, and none of the others is worth the same.
fn alone<N: Site, I: Interner<N>>(
    arena: &Arena<N>,
    pass: &mut I,
    row: &CRow,
    others: Others<'_>,
) -> Result<u32, Full>
    requires row { IsRow (I.list pass.old) (length row.now.cells) row.now }
    requires others { All (IsRow (I.list pass.old) (length row.now.cells)) (others_of others) }
    requires among { AreAmong others }
    ensures holds { IfOk result (λ place. HoldsWhere (I.list pass.new) place (λ v. holds_at v (condition_at (I.list pass.old) row.now.cond) && not (is_among (I.list pass.old) (others_of others.entry) row.now.cells v))) }
    ensures terms { IfOk result (λ place. TermsFrom (I.list pass.new) place (λ t. TermOfRow (I.list pass.old) row.now t ⊎ TermOfRows (I.list pass.old) (others_of others.entry) t)) }
    ensures writes { Writes I.list I.made I.kept I.lent N.log.cap pass.old pass.new (length (others_of others.entry) * (2 * length row.now.cells + 2)) (is_err result) }
{
    let _ = pass.words();
    let mut cond = row.cond;
    for index in 0..others.len() {
        // No valuation satisfies the word false, whatever rows follow.
        if cond == FALSE_PLACE {
            return Ok(cond);
        }
        let there = shown_as(arena, pass, row.cells.as_slice(), others.nth(index))?;
        let absent = not(arena, pass, there)?;
        cond = and(arena, pass, cond, absent)?;
    }
    Ok(cond)
}

/// The place of the condition that what the cells are worth passes a test. `judged` says of a row itself that it is
/// worth none of others.
fn passing<N: Site, I: Interner<N>>(
    arena: &Arena<N>,
    pass: &mut I,
    test: Test<'_>,
    cells: &[u32],
    put: &mut [u32],
) -> Result<u32, Full>
    requires cells { All (λ p. IsTrue (is_place_of (I.list pass.old) class.Term p)) cells.now }
    requires fits { FitsTest (I.list pass.old) (length cells.now) test }
    requires other { is_apart test ≡ false }
    requires long { length put.old ≡ length (parts_in test) }
    ensures holds { IfOk result (λ place. HoldsWhere (I.list pass.new) place (λ v. passes (I.list pass.old) test.entry v (tuple_of (I.list pass.old) cells.now v))) }
    ensures terms { IfOk result (λ place. TermsFrom (I.list pass.new) place (λ t. BelowSome (I.list pass.old) cells.now t ⊎ Beside (I.list pass.old) cells.now test.entry t)) }
    ensures writes { Writes I.list I.made I.kept I.lent N.log.cap pass.old pass.new (first_words (I.list pass.old) test.entry + test_words (I.list pass.old) (length cells.now) test.entry) (is_err result) }
    ensures placed { OnOk result (first_words (I.list pass.new) test.entry ≡ 0) }
    ensures long { length put.new ≡ length put.old }
{
    match test {
        Test::Holds(p) => pred(arena, pass, p, cells),
        Test::Fails(cond, places) => {
            let gone = on_row(arena, pass, cond, places, put, cells)?;
            not(arena, pass, gone)
        }
        Test::Among(others) => among(arena, pass, cells, others),
        Test::Apart(_) => unreachable!(),
    }
}

/// The place of the condition that a row is shown and passes a test. In `put` is room for a place for each that comes with
/// the test.
pub(crate) fn judged<N: Site, I: Interner<N>>(
    arena: &Arena<N>,
    pass: &mut I,
    test: Test<'_>,
    row: &CRow,
    put: &mut [u32],
) -> Result<u32, Full>
    requires row { IsRow (I.list pass.old) (length row.now.cells) row.now }
    requires fits { FitsTest (I.list pass.old) (length row.now.cells) test }
    requires long { length put.old ≡ length (parts_in test) }
    ensures holds { IfOk result (λ place. HoldsWhere (I.list pass.new) place (λ v. holds_at v (condition_at (I.list pass.old) row.now.cond) && passes (I.list pass.old) test.entry v (tuple_of (I.list pass.old) row.now.cells v))) }
    ensures terms { IfOk result (λ place. TermsFrom (I.list pass.new) place (λ t. TermOfRow (I.list pass.old) row.now t ⊎ Beside (I.list pass.old) row.now.cells test.entry t)) }
    ensures writes { Writes I.list I.made I.kept I.lent N.log.cap pass.old pass.new (first_words (I.list pass.old) test.entry + (test_words (I.list pass.old) (length row.now.cells) test.entry + 1)) (is_err result) }
    ensures placed { OnOk result (first_words (I.list pass.new) test.entry ≡ 0) }
    ensures long { length put.new ≡ length put.old }
{
    let _ = pass.words();
    if let Test::Apart(others) = test {
        return alone(arena, pass, row, others);
    }
    let place = passing(arena, pass, test, row.cells.as_slice(), put)?;
    and(arena, pass, row.cond, place)
}
