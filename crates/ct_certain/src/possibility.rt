// The possible rows of a table.

ghost use Rattle.std.specs.Prelude.{◌≡◌, ◌≤◌, ◌<◌, ◌+◌, length, All, IfOk, IsErrOf, IsTrue};
ghost use mathlib.Core.List.{IsPrefix};
ghost use Rattle.ct_word.specs.declared.kinds.Class.TheVariants as class;
ghost use Rattle.ct_word.specs.Stands.{HasNoColumn};
ghost use Rattle.ct_word.specs.WellFormed.{IsWellFormed, is_place_of};
ghost use Rattle.ct_condition.specs.Writes.{Writes};
ghost use Rattle.ct_operators.specs.Tables.{AreRows};
ghost use Rattle.ct_certain.specs.Answered.{AreOf, IsPool};
ghost use Rattle.ct_certain.specs.Faults.{is_full};
ghost use Rattle.ct_certain.specs.Own.{IsOwn};
ghost use Rattle.ct_certain.specs.Possible.{ListsPossible};
ghost use Rattle.ct_certain.specs.declared.error.CertainError.TheVariants as fault;

use crate::error::CertainError;
use crate::pool::{Pool, start};
use crate::showing::{list_row, show};
use ct_arena::{Arena, Pass, Site};
use ct_condition::Interner;
use ct_operators::CTable;
use ct_rewrite::PossibleRow;
use ct_word::{CRow, List};
use std::alloc::Global;

/// The possible rows among these.
fn each_possible<N: Site, I: Interner<N>>(
    alloc: Global,
    arena: &Arena<N>,
    pass: &mut I,
    global: u32,
    rows: &[CRow],
    pool: &mut Pool,
) -> Result<List<PossibleRow>, CertainError>
    requires rows { All (AreOf (I.list pass.old) global) rows.now }
    requires pool { IsPool (I.list pass.old) global pool.old }
    ensures lists { IfOk result (λ list. ListsPossible (I.list pass.old) global rows.now list) }
    ensures own { IfOk result (λ list. All (IsOwn (I.list pass.old) global rows.now) list) }
    ensures writes { Writes I.list I.made I.kept I.lent N.log.cap pass.old pass.new (length rows.now) (is_full result) }
{
    let count = pass.words().len();
    let mut list = Vec::new(alloc);
    for row in rows {
        let found = show(alloc, arena, pass, count, global, rows, pool, row)?;
        list_row(alloc, pass.words(), &mut list, row, found)?;
    }
    Ok(List::from_vec(list))
}

/// The rows of a table that are shown at some valuation at which the global condition holds, in their order, each with
/// such a valuation, whose nulls stand below the global condition or the row. At most as many words are made as there
/// are rows.
///
/// # Errors
/// `Full` only where the log has as many words as its capacity, `Memory` where memory runs out.
pub fn possible<N: Site>(
    alloc: Global,
    arena: &Arena<N>,
    pass: &mut Pass<N>,
    table: &CTable,
    global: u32,
) -> Result<List<PossibleRow>, CertainError>
    requires global { IsTrue (is_place_of pass.old.words class.Cond global) }
    requires plain { HasNoColumn pass.old.words global }
    requires rows { AreRows pass.old.words (length table.now.columns) table.now.rows }
    ensures lists { IfOk result (λ list. ListsPossible pass.old.words global table.now.rows list) }
    ensures own { IfOk result (λ list. All (IsOwn pass.old.words global table.now.rows) list) }
    ensures longer { IsPrefix pass.old.words pass.new.words }
    ensures formed { IsWellFormed pass.new.words }
    ensures room { length pass.new.words ≤ N.log.cap }
    ensures full { IsErrOf result fault.Full → length pass.new.words ≡ N.log.cap }
    ensures rises { pass.old.made ≤ pass.new.made }
    ensures made { pass.new.made ≤ pass.old.made + length table.now.rows }
    ensures fewer { IsErrOf result fault.Full → pass.new.made < pass.old.made + length table.now.rows }
    ensures session { pass.new.session ≡ pass.old.session }
    ensures mine { pass.new.mine ≡ pass.old.mine }
{
    let mut pool = start(alloc, pass.words(), global)?;
    each_possible(alloc, arena, pass, global, table.rows.as_slice(), &mut pool)
}
