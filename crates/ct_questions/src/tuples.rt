// The questions whether tuples are certain, and the tuples that right decisions of them list.

ghost use Rattle.std.specs.Prelude.{◌≡◌, ◌≤◌, ◌+◌, ◌*◌, ◌++◌, [], ◌∷◌, ℕ, List, length, filter, All, IfOk, OnOk, IsTrue};
ghost use Rattle.std.specs.List.{AllZip};
ghost use Rattle.ct_word.specs.declared.kinds.Class.TheVariants as class;
ghost use Rattle.ct_word.specs.declared.values.CRow.{CRow};
ghost use Rattle.ct_word.specs.Stands.{HasNoColumn};
ghost use Rattle.ct_word.specs.Value.{World, same_tuple};
ghost use Rattle.ct_word.specs.WellFormed.{IsWellFormed, is_place_of};
ghost use Rattle.ct_condition.specs.Writes.{Writes, PassWrites};
ghost use Rattle.ct_operators.specs.Tables.{AreRows, firsts, value_of_rows};
ghost use Rattle.ct_certain.specs.Answered.{IsSettled};
ghost use Rattle.ct_certain.specs.Certain.{IsCutProof, IsKeptWorld, ListsCertain};
ghost use Rattle.ct_certain.specs.Faults.{is_full};
ghost use Rattle.ct_certain.specs.Missing.{IsAskedOf, IsSure, is_in_each};
ghost use Rattle.ct_questions.specs.Candidates.{AreCandidates, IsCandidate, proof_of, tuples_of};

use ct_arena::{Arena, Pass, Site};
use ct_certain::{
    CertainError, CertainRow, Seen, copied_derivation, is_everywhere, kept_tuples, missing_root,
    see_first, sure_tuples,
};
use ct_condition::Interner;
use ct_decide::Decision;
use ct_derivation::Proof;
use ct_operators::CTable;
use ct_word::{List, Memory, Value, World};
use indexmap::IndexSet;
use std::alloc::{AllocError, Global};

/// A tuple that may be certain, with the root of the question whether it is missing.
#[derive(Drop)]
pub struct Candidate {
    pub tuple: List<Value>,
    pub root: u32,
}

/// A tuple once more.
fn copied_tuple(tuple: &List<Value>) -> Result<List<Value>, AllocError>
    ensures { IfOk result (λ t. t ≡ tuple.now) }
{
    tuple.clone()
}

/// Puts a tuple with its root last in a list, if it is there in all of these worlds.
fn add_candidate<N: Site, I: Interner<N>>(
    alloc: Global,
    arena: &Arena<N>,
    pass: &mut I,
    table: &CTable,
    global: u32,
    known: &[Seen],
    sure: &IndexSet<List<Value>>,
    tuple: &List<Value>,
    list: &mut Vec<Candidate>,
) -> Result<(), CertainError>
    requires asked { IsAskedOf (I.list pass.old) (I.list pass.old) global (length table.now.columns) table.now.rows tuple.now }
    requires sure { All (IsSure (I.list pass.old) table.now.rows) sure.now.keys }
    ensures tuples { OnOk result (tuples_of list.new.items ≡ tuples_of list.old.items ++ filter (is_in_each known.now) (tuple.now ∷ [])) }
    ensures roots { (words : List ℕ) → IsAskedOf words (I.list pass.old) global (length table.now.columns) table.now.rows tuple.now → All (IsCandidate words (I.list pass.old) global table.now.rows) list.old.items → OnOk result (All (IsCandidate words (I.list pass.new) global table.now.rows) list.new.items) }
    ensures writes { Writes I.list I.made I.kept I.lent N.log.cap pass.old pass.new (length table.now.rows * (2 * length table.now.columns + 2) + length table.now.columns + 1) (is_full result) }
{
    let _ = pass.words();
    if !is_everywhere(known, tuple) {
        return Ok(());
    }
    let root = missing_root(alloc, arena, pass, table, global, sure, tuple)?;
    let tuple = copied_tuple(tuple)?;
    list.push(Candidate { tuple, root })?;
    Ok(())
}

/// The tuples among these that are there in all of some worlds, with their roots.
fn candidates_in<N: Site, I: Interner<N>>(
    alloc: Global,
    arena: &Arena<N>,
    pass: &mut I,
    table: &CTable,
    global: u32,
    known: &[Seen],
    sure: &IndexSet<List<Value>>,
    tuples: &[List<Value>],
) -> Result<List<Candidate>, CertainError>
    requires few { length tuples.now ≤ length table.now.rows }
    requires sure { All (IsSure (I.list pass.old) table.now.rows) sure.now.keys }
    requires asked { All (IsAskedOf (I.list pass.old) (I.list pass.old) global (length table.now.columns) table.now.rows) tuples.now }
    ensures tuples { IfOk result (λ list. tuples_of list ≡ filter (is_in_each known.now) tuples.now) }
    ensures roots { IfOk result (All (IsCandidate (I.list pass.old) (I.list pass.new) global table.now.rows)) }
    ensures writes { Writes I.list I.made I.kept I.lent N.log.cap pass.old pass.new (length table.now.rows * (length table.now.rows * (2 * length table.now.columns + 2) + length table.now.columns + 1)) (is_full result) }
{
    let _ = pass.words();
    let mut list = Vec::new(alloc);
    for tuple in tuples {
        add_candidate(
            alloc, arena, pass, table, global, known, sure, tuple, &mut list,
        )?;
    }
    Ok(List::from_vec(list))
}

/// The tuples that a table has at the kept world, each once, in the order of its rows, with the roots of the questions whether
/// they are missing: a root holds exactly where the global condition holds and the table lacks the tuple. At most
/// `r (r (2k + 2) + k + 1)` words are made, where the table has r rows and k columns.
///
/// # Errors
/// `Full` only where the log has as many words as its capacity, `Memory` where there is none for the list.
pub fn certain_questions<N: Site>(
    alloc: Global,
    arena: &Arena<N>,
    pass: &mut Pass<N>,
    table: &CTable,
    global: u32,
    kept: &World,
) -> Result<List<Candidate>, CertainError>
    requires global { IsTrue (is_place_of pass.old.words class.Cond global) }
    requires plain { HasNoColumn pass.old.words global }
    requires rows { AreRows pass.old.words (length table.now.columns) table.now.rows }
    requires kept { IsKeptWorld pass.old.words global kept.now }
    ensures candidates { IfOk result (AreCandidates pass.old.words pass.new.words global table.now.rows kept.now) }
    ensures all { IfOk result (λ list. tuples_of list ≡ firsts same_tuple (value_of_rows pass.old.words kept.now table.now.rows)) }
    ensures writes { PassWrites N.log.cap pass.old pass.new (length table.now.rows * (length table.now.rows * (2 * length table.now.columns + 2) + length table.now.columns + 1)) (is_full result) }
{
    let rows = table.rows.as_slice();
    let tuples = kept_tuples(alloc, pass.words(), rows, kept)?;
    let sure = sure_tuples(alloc, pass.words(), rows)?;
    candidates_in(
        alloc,
        arena,
        pass,
        table,
        global,
        &[],
        &sure,
        tuples.as_slice(),
    )
}

/// The same without the tuples that a known world lacks, for which no word is made: the one in which each null is `@0`, and one
/// in which the nulls differ, where the global condition holds there.
///
/// # Errors
/// As for `certain_questions`.
pub fn certain_left<N: Site>(
    alloc: Global,
    arena: &Arena<N>,
    pass: &mut Pass<N>,
    table: &CTable,
    global: u32,
    kept: &World,
) -> Result<List<Candidate>, CertainError>
    requires global { IsTrue (is_place_of pass.old.words class.Cond global) }
    requires plain { HasNoColumn pass.old.words global }
    requires rows { AreRows pass.old.words (length table.now.columns) table.now.rows }
    requires kept { IsKeptWorld pass.old.words global kept.now }
    ensures candidates { IfOk result (AreCandidates pass.old.words pass.new.words global table.now.rows kept.now) }
    ensures writes { PassWrites N.log.cap pass.old pass.new (length table.now.rows * (length table.now.rows * (2 * length table.now.columns + 2) + length table.now.columns + 1)) (is_full result) }
{
    let rows = table.rows.as_slice();
    let tuples = kept_tuples(alloc, pass.words(), rows, kept)?;
    let known = see_first(alloc, pass.words(), global, rows, kept)?;
    let sure = sure_tuples(alloc, pass.words(), rows)?;
    candidates_in(
        alloc,
        arena,
        pass,
        table,
        global,
        known.as_slice(),
        &sure,
        tuples.as_slice(),
    )
}

/// Puts a candidate with the derivation of its decision last in a list, if that has one.
fn list_candidate(
    alloc: Global,
    list: &mut Vec<CertainRow>,
    candidate: &Candidate,
    decision: &Decision,
) -> Result<(), Memory>
    ensures { OnOk result (list.new.items ≡ list.old.items ++ proof_of candidate.now decision.now) }
{
    match decision {
        Decision::World(_) => Ok(()),
        Decision::Refuted(derivation) => {
            let tuple = copied_tuple(&candidate.tuple)?;
            let derivation = copied_derivation(alloc, derivation)?;
            let root = candidate.root;
            list.push(CertainRow {
                tuple,
                proof: Proof { root, derivation },
            })?;
            Ok(())
        }
    }
}

/// The certain tuples among candidates, in their order, by right decisions of their questions: one decision for each candidate.
/// Each is listed with the derivation that it is missing nowhere, which is cut.
///
/// # Errors
/// `Memory` where there is none for the list.
pub fn certain_list(
    alloc: Global,
    words: &[u64],
    candidates: &[Candidate],
    decisions: &[Decision],
) -> Result<List<CertainRow>, Memory>
    requires formed { IsWellFormed words.now }
    requires right { AllZip (λ c d. IsSettled words.now c.root d) candidates.now decisions.now }
    ensures lists { (old : List ℕ) (global : ℕ) (rs : List CRow) (kept : World) → AreCandidates old words.now global rs kept candidates.now → IfOk result (ListsCertain old words.now global rs kept) }
    ensures cut { IfOk result (All (λ r. IsCutProof words.now r.proof)) }
{
    let _ = words;
    let mut list = Vec::new(alloc);
    for number in 0..candidates.len() {
        list_candidate(alloc, &mut list, &candidates[number], &decisions[number])?;
    }
    Ok(List::from_vec(list))
}
