// Whether a table has a row.

ghost use Rattle.std.specs.Prelude.{◌≡◌, ◌*◌, not, length, IfOk, is_err};
ghost use Rattle.ct_condition.specs.Terms.{TermsFrom};
ghost use Rattle.ct_condition.specs.Writes.{Writes};
ghost use Rattle.ct_operators.specs.Building.{HoldsWhere};
ghost use Rattle.ct_operators.specs.Tables.{AreRows, value_of_rows};
ghost use Rattle.ct_operators.specs.Terms.{TermOfRows};
ghost use Rattle.ct_query.specs.Assertions.{has_member};

use ct_arena::{Arena, Full, Site};
use ct_condition::{Interner, not, or};
use ct_operators::CTable;
use ct_word::FALSE_PLACE;

/// The place of the condition that a table has a member: at every valuation it holds exactly where what the table is
/// worth there has a tuple. It is the word false where there are no rows. At most as many words are made as there are rows.
///
/// # Errors
/// `Full` where the log has no room for a word.
pub fn some<N: Site, I: Interner<N>>(
    arena: &Arena<N>,
    pass: &mut I,
    table: &CTable,
) -> Result<u32, Full>
    requires rows { AreRows (I.list pass.old) (length table.now.columns) table.now.rows }
    ensures holds { IfOk result (λ place. HoldsWhere (I.list pass.new) place (λ v. has_member (value_of_rows (I.list pass.old) v table.now.rows))) }
    ensures terms { IfOk result (λ place. TermsFrom (I.list pass.new) place (TermOfRows (I.list pass.old) table.now.rows)) }
    ensures none { length table.now.rows ≡ 0 → IfOk result (λ place. place ≡ 1) }
    ensures writes { Writes I.list I.made I.kept I.lent N.log.cap pass.old pass.new (length table.now.rows) (is_err result) }
{
    let _ = pass.words();
    let mut any = FALSE_PLACE;
    for row in table.rows.as_slice() {
        any = or(arena, pass, any, row.cond)?;
    }
    Ok(any)
}

/// The place of the condition that a table has no member: at every valuation it holds exactly where what the table is
/// worth there has no tuple. At most twice as many words are made as there are rows.
///
/// # Errors
/// `Full` where the log has no room for a word.
pub fn empty<N: Site, I: Interner<N>>(
    arena: &Arena<N>,
    pass: &mut I,
    table: &CTable,
) -> Result<u32, Full>
    requires rows { AreRows (I.list pass.old) (length table.now.columns) table.now.rows }
    ensures holds { IfOk result (λ place. HoldsWhere (I.list pass.new) place (λ v. not (has_member (value_of_rows (I.list pass.old) v table.now.rows)))) }
    ensures terms { IfOk result (λ place. TermsFrom (I.list pass.new) place (TermOfRows (I.list pass.old) table.now.rows)) }
    ensures writes { Writes I.list I.made I.kept I.lent N.log.cap pass.old pass.new (2 * length table.now.rows) (is_err result) }
{
    let any = some(arena, pass, table)?;
    not(arena, pass, any)
}
