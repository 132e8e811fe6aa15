// The certain tuples of a table.

ghost use Rattle.std.specs.Prelude.{◌≡◌, ◌≤◌, ◌<◌, ◌+◌, ◌*◌, ◌^◌, ◌++◌, [], ◌∷◌, length, All, IfOk, OnOk, IsErrOf, IsTrue};
ghost use mathlib.Core.List.{IsPrefix};
ghost use Rattle.ct_word.specs.declared.kinds.Class.TheVariants as class;
ghost use Rattle.ct_word.specs.Stands.{HasNoColumn};
ghost use Rattle.ct_word.specs.WellFormed.{IsWellFormed, is_place_of};
ghost use Rattle.ct_condition.specs.Writes.{Writes};
ghost use Rattle.ct_operators.specs.Tables.{AreRows};
ghost use Rattle.ct_certain.specs.Answered.{IsNear, IsRefutation};
ghost use Rattle.ct_certain.specs.Certain.{IsCutProof, IsKeptWorld, ListsCertain};
ghost use Rattle.ct_certain.specs.Faults.{is_full};
ghost use Rattle.ct_certain.specs.Missing.{AreListed, IsAskedOf, IsSeen, IsSure, Takes};
ghost use Rattle.ct_certain.specs.declared.error.CertainError.TheVariants as fault;

use crate::absence::ask_tuple;
use crate::derivations::Listed;
use crate::error::CertainError;
use crate::settling::Near;
use crate::striking::{Seen, is_everywhere, see, see_first};
use crate::sure::sure_tuples;
use crate::tuples::kept_tuples;
use ct_arena::{Arena, Pass, Site};
use ct_condition::Interner;
use ct_decide::Decision;
use ct_derivation::{Derivation, Proof};
use ct_near::conjuncts;
use ct_operators::CTable;
use ct_rewrite::CertainRow;
use ct_word::{List, Memory, Value, World};
use indexmap::{IndexMap, IndexSet};
use std::alloc::Global;

/// Puts a tuple with its proof last in a list.
fn list_tuple(
    list: &mut Listed,
    tuple: &List<Value>,
    root: u32,
    derivation: Derivation,
) -> Result<(), Memory>
    ensures { OnOk result (list.new.rows.items ≡ list.old.rows.items ++ (record { tuple = tuple.now; proof = record { root = root; derivation = derivation } }) ∷ []) }
{
    let tuple = tuple.clone()?;
    let place = list.rows.len();
    list.rows.push(CertainRow {
        tuple,
        proof: Proof { root, derivation },
    })?;
    list.roots.insert(root, place)?;
    Ok(())
}

/// Lists a tuple if it is certain. It is asked for only where no known world lacks it; a world that lacks it is known
/// from then on, while there is room for it.
fn try_tuple<N: Site, I: Interner<N>>(
    alloc: Global,
    arena: &Arena<N>,
    pass: &mut I,
    table: &CTable,
    global: u32,
    near: &Near<'_>,
    sure: &IndexSet<List<Value>>,
    pool: &mut Vec<Seen>,
    list: &mut Listed,
    tuple: &List<Value>,
) -> Result<(), CertainError>
    requires asked { IsAskedOf (I.list pass.old) (I.list pass.old) global (length table.now.columns) table.now.rows tuple.now }
    requires near { IsNear (I.list pass.old) global near.now }
    requires sure { All (IsSure (I.list pass.old) table.now.rows) sure.now.keys }
    requires pool { All (IsSeen (I.list pass.old) global table.now.rows) pool.old.items }
    requires listed { All (λ r. IsRefutation (I.list pass.old) r.proof.root r.proof.derivation) list.old.rows.items }
    ensures pool { OnOk result (All (IsSeen (I.list pass.new) global table.now.rows) pool.new.items) }
    ensures takes { OnOk result (Takes (I.list pass.old) (I.list pass.new) global table.now.rows tuple.now list.old.rows.items list.new.rows.items) }
    ensures writes { Writes I.list I.made I.kept I.lent N.log.cap pass.old pass.new (length table.now.rows * (2 * length table.now.columns + 2) + length table.now.columns + 1) (is_full result) }
{
    let _ = pass.words();
    if !is_everywhere(pool.as_slice(), tuple) {
        return Ok(());
    }
    let (root, decision) = ask_tuple(alloc, arena, pass, table, global, near, sure, list, tuple)?;
    match decision {
        Decision::World(world) => {
            let words = pass.words();
            see(alloc, words, global, table.rows.as_slice(), &world, pool)?;
            Ok(())
        }
        Decision::Refuted(derivation) => {
            list_tuple(list, tuple, root, derivation)?;
            Ok(())
        }
    }
}

/// The certain tuples among candidates, in the order of these.
fn each_certain<N: Site, I: Interner<N>>(
    alloc: Global,
    arena: &Arena<N>,
    pass: &mut I,
    table: &CTable,
    global: u32,
    near: &Near<'_>,
    sure: &IndexSet<List<Value>>,
    pool: &mut Vec<Seen>,
    candidates: &[List<Value>],
) -> Result<List<CertainRow>, CertainError>
    requires near { IsNear (I.list pass.old) global near.now }
    requires sure { All (IsSure (I.list pass.old) table.now.rows) sure.now.keys }
    requires pool { All (IsSeen (I.list pass.old) global table.now.rows) pool.old.items }
    requires few { length candidates.now ≤ length table.now.rows }
    requires asked { All (IsAskedOf (I.list pass.old) (I.list pass.old) global (length table.now.columns) table.now.rows) candidates.now }
    ensures lists { IfOk result (λ list. AreListed (I.list pass.old) (I.list pass.new) global table.now.rows candidates.now list) }
    ensures writes { Writes I.list I.made I.kept I.lent N.log.cap pass.old pass.new (length table.now.rows * (length table.now.rows * (2 * length table.now.columns + 2) + length table.now.columns + 1)) (is_full result) }
{
    let _ = pass.words();
    let mut list = Listed {
        rows: Vec::new(alloc),
        roots: IndexMap::new(alloc),
    };
    for tuple in candidates {
        try_tuple(
            alloc, arena, pass, table, global, near, sure, pool, &mut list, tuple,
        )?;
    }
    Ok(List::from_vec(list.rows))
}

/// The tuples that a table has at every valuation at which the global condition holds, each once, in the order of the
/// rows at a valuation that is kept, each with a proof that it is missing at none, which is cut. At most
/// `r (r (2k + 2) + k + 1)` words are made, where the table has r rows and k columns.
///
/// # Errors
/// `Full` only where the log has as many words as its capacity, `Memory` where memory runs out.
pub fn certain<N: Site>(
    alloc: Global,
    arena: &Arena<N>,
    pass: &mut Pass<N>,
    table: &CTable,
    global: u32,
    kept: &World,
) -> Result<List<CertainRow>, CertainError>
    requires global { IsTrue (is_place_of pass.old.words class.Cond global) }
    requires plain { HasNoColumn pass.old.words global }
    requires rows { AreRows pass.old.words (length table.now.columns) table.now.rows }
    requires kept { IsKeptWorld pass.old.words global kept.now }
    ensures lists { IfOk result (λ list. ListsCertain pass.old.words pass.new.words global table.now.rows kept.now list) }
    ensures cut { IfOk result (λ list. All (λ r. IsCutProof pass.new.words r.proof) list) }
    ensures longer { IsPrefix pass.old.words pass.new.words }
    ensures formed { IsWellFormed pass.new.words }
    ensures room { length pass.new.words ≤ N.log.cap }
    ensures full { IsErrOf result fault.Full → length pass.new.words ≡ N.log.cap }
    ensures rises { pass.old.made ≤ pass.new.made }
    ensures made { pass.new.made ≤ pass.old.made + length table.now.rows * (length table.now.rows * (2 * length table.now.columns + 2) + length table.now.columns + 1) }
    ensures fewer { IsErrOf result fault.Full → pass.new.made < pass.old.made + length table.now.rows * (length table.now.rows * (2 * length table.now.columns + 2) + length table.now.columns + 1) }
    ensures session { pass.new.session ≡ pass.old.session }
    ensures mine { pass.new.mine ≡ pass.old.mine }
{
    let words = pass.words();
    let rows = table.rows.as_slice();
    let candidates = kept_tuples(alloc, words, rows, kept)?;
    let sure = sure_tuples(alloc, words, rows)?;
    let mut pool = see_first(alloc, words, global, rows, kept)?;
    let conjuncts = conjuncts(alloc, words, global)?;
    let near = Near {
        conjuncts: &conjuncts,
        world: kept,
    };
    each_certain(
        alloc,
        arena,
        pass,
        table,
        global,
        &near,
        &sure,
        &mut pool,
        candidates.as_slice(),
    )
}
