// The questions whether rows are possible, and the rows that right decisions of them list.

ghost use Rattle.std.specs.Prelude.{◌≡◌, ℕ, List, length, All, IfOk, IsTrue};
ghost use Rattle.std.specs.List.{AllZip};
ghost use Rattle.ct_word.specs.declared.kinds.Class.TheVariants as class;
ghost use Rattle.ct_word.specs.Stands.{HasNoColumn};
ghost use Rattle.ct_word.specs.WellFormed.{IsWellFormed, is_place_of};
ghost use Rattle.ct_condition.specs.Writes.{Writes, PassWrites};
ghost use Rattle.ct_operators.specs.Tables.{AreRows};
ghost use Rattle.ct_certain.specs.Answered.{AreOf, IsSettled};
ghost use Rattle.ct_certain.specs.Faults.{is_full};
ghost use Rattle.ct_certain.specs.Own.{IsOwn, IsOwnAnswer};
ghost use Rattle.ct_certain.specs.Possible.{ListsPossible};
ghost use Rattle.ct_questions.specs.Roots.{AreRowRoots, IsRowRoot};

use ct_arena::{Arena, Pass, Site};
use ct_certain::{CertainError, PossibleRow, list_row};
use ct_condition::{Interner, and};
use ct_decide::Decision;
use ct_operators::CTable;
use ct_tidy::{cut, nulls_below, tidy};
use ct_word::{CRow, List, Memory, World};
use indexmap::IndexSet;
use std::alloc::Global;

/// The roots of the questions whether rows are shown.
fn row_roots<N: Site, I: Interner<N>>(
    alloc: Global,
    arena: &Arena<N>,
    pass: &mut I,
    rows: &[CRow],
    global: u32,
) -> Result<List<u32>, CertainError>
    requires { All (AreOf (I.list pass.old) global) rows.now }
    ensures roots { IfOk result (AllZip (IsRowRoot (I.list pass.old) (I.list pass.new) global) rows.now) }
    ensures writes { Writes I.list I.made I.kept I.lent N.log.cap pass.old pass.new (length rows.now) (is_full result) }
{
    let _ = pass.words();
    let mut roots = Vec::new(alloc);
    for row in rows {
        let root = and(arena, pass, global, row.cond)?;
        roots.push(root)?;
    }
    Ok(List::from_vec(roots))
}

/// The roots of the questions whether the rows of a table are possible, one for each row in their order. A root holds exactly
/// where the global condition and the row's hold. At most as many words are made as there are rows. A root that
/// stands in the log already takes none, which no clause says.
///
/// # Errors
/// `Full` only where the log has as many words as its capacity, `Memory` where there is none for the list.
pub fn possible_questions<N: Site>(
    alloc: Global,
    arena: &Arena<N>,
    pass: &mut Pass<N>,
    table: &CTable,
    global: u32,
) -> Result<List<u32>, CertainError>
    requires global { IsTrue (is_place_of pass.old.words class.Cond global) }
    requires plain { HasNoColumn pass.old.words global }
    requires rows { AreRows pass.old.words (length table.now.columns) table.now.rows }
    ensures roots { IfOk result (AreRowRoots pass.old.words pass.new.words global table.now.rows) }
    ensures writes { PassWrites N.log.cap pass.old pass.new (length table.now.rows) (is_full result) }
{
    row_roots(alloc, arena, pass, table.rows.as_slice(), global)
}

/// What a row needs of the world at which its root holds, where the decision of the root has one.
fn shown(
    alloc: Global,
    words: &[u64],
    row: &CRow,
    root: u32,
    decision: &Decision,
) -> Result<Option<World>, Memory>
    requires formed { IsWellFormed words.now }
    requires root { IsTrue (is_place_of words.now class.Cond root) }
    requires cells { All (λ p. IsTrue (is_place_of words.now class.Term p)) row.now.cells }
    requires right { IsSettled words.now root decision.now }
    ensures { (old : List ℕ) (global : ℕ) → IsRowRoot old words.now global row.now root → IfOk result (IsOwnAnswer old global row.now) }
{
    match decision {
        Decision::Refuted(_) => Ok(None),
        Decision::World(world) => {
            let own = nulls_below(alloc, words, root, row.cells.as_slice())?;
            let none = IndexSet::new(alloc);
            let part = cut(alloc, world, &own, &none)?;
            let world = tidy(alloc, part)?;
            Ok(Some(world))
        }
    }
}

/// The possible rows of a table, by right decisions of their questions: one root and one decision for each row. Each is listed
/// with the world of its decision, in order and cut to the nulls that stand below the global condition or the row.
///
/// # Errors
/// `Memory` where there is none for the list.
pub fn possible_list(
    alloc: Global,
    words: &[u64],
    table: &CTable,
    roots: &[u32],
    decisions: &[Decision],
) -> Result<List<PossibleRow>, Memory>
    requires formed { IsWellFormed words.now }
    requires rows { AreRows words.now (length table.now.columns) table.now.rows }
    requires roots { All (λ p. IsTrue (is_place_of words.now class.Cond p)) roots.now }
    requires count { length roots.now ≡ length table.now.rows }
    requires right { AllZip (IsSettled words.now) roots.now decisions.now }
    ensures lists { (old : List ℕ) (global : ℕ) → AreRowRoots old words.now global table.now.rows roots.now → IfOk result (ListsPossible old global table.now.rows) }
    ensures own { (old : List ℕ) (global : ℕ) → AreRowRoots old words.now global table.now.rows roots.now → IfOk result (All (IsOwn old global table.now.rows)) }
{
    let mut list = Vec::new(alloc);
    let rows = table.rows.as_slice();
    for number in 0..rows.len() {
        let row = &rows[number];
        let found = shown(alloc, words, row, roots[number], &decisions[number])?;
        list_row(alloc, words, &mut list, row, found)?;
    }
    Ok(List::from_vec(list))
}
