// The questions about the rows of a table, decided by one worker after another question, or by several at once.

ghost use Rattle.std.specs.Prelude.{◌≡◌, ◌<◌, ◌≤◌, ◌+◌, ◌*◌, ◌^◌, ℕ, List, length, map, All, IfOk, IsTrue};
ghost use Rattle.ct_word.specs.declared.kinds.Class.TheVariants as class;
ghost use Rattle.ct_word.specs.declared.values.CRow.{CRow};
ghost use Rattle.ct_word.specs.Stands.{HasNoColumn};
ghost use Rattle.ct_word.specs.Value.{World as WorldValue};
ghost use Rattle.ct_word.specs.WellFormed.{IsWellFormed, is_place_of};
ghost use Rattle.ct_operators.specs.Tables.{AreRows};
ghost use Rattle.ct_condition.specs.Writes.{PassWrites};
ghost use Rattle.ct_certain.specs.Certain.{IsKeptWorld, ListsCertain};
ghost use Rattle.ct_certain.specs.Possible.{ListsPossible};
ghost use Rattle.ct_certain.specs.Faults.{is_full};
ghost use Rattle.ct_questions.specs.Candidates.{AreCandidates};
ghost use Rattle.ct_questions.specs.Roots.{AreRowRoots};

use ct_arena::{Arena, Pass, Site};
use ct_certain::{CertainError, certain as certain_in_turn, possible as possible_in_turn};
use ct_decide::DecideError;
use ct_questions::{Candidate, certain_left, certain_list, possible_list, possible_questions};
use ct_rewrite::{CertainRow, PossibleRow};
use ct_table::CTable;
use ct_word::{List, Memory, World};
use ct_workers::{NoWorkGate, decide_all};
use std::alloc::Global;
use std::marker::Model;
use std::thread::Threads;

/// How many workers decide the questions of a statement, from 1 to 16. Contracts see it as the number.
#[derive(Clone, Copy)]
pub struct Workers {
    count: u32,
}

impl Model for Workers {
    ghost use Rattle.std.specs.Prelude.{ℕ, ◌≤◌};

    ghost Value = { ℕ };

    ghost view = { λ w. w.count };

    ghost invariant = { λ w. (1 ≤ w.count) × (w.count ≤ 16) };

    ghost inverse = { λ n. record { count = n } };
}

impl Workers {
    /// So many workers.
    pub fn new(count: u32) -> Workers
        requires least { 1 ≤ count }
        requires most { count ≤ 16 }
        ensures { result ≡ count }
    {
        Workers { count }
    }

    /// The number of workers.
    pub fn count(&self) -> u32
        ensures value { result ≡ self.now }
        ensures least { 1 ≤ result }
        ensures most { result ≤ 16 }
    {
        self.count
    }
}

/// The possible rows of a table, by decisions of workers about the roots of their questions.
///
/// # Errors
/// `Memory` where there is none for a question or the list.
fn possible_decided<R: Threads + Sync>(
    rt: &R,
    alloc: Global,
    words: &[u64],
    table: &CTable,
    roots: &[u32],
    workers: Workers,
) -> Result<List<PossibleRow>, Memory>
    requires formed { IsWellFormed words.now }
    requires few { length words.now < 2 ^ 28 }
    requires rows { AreRows words.now (length table.now.columns) table.now.rows }
    requires roots { (old : List ℕ) × (global : ℕ) × AreRowRoots old words.now global table.now.rows roots.now }
    ensures { (old : List ℕ) (global : ℕ) → AreRowRoots old words.now global table.now.rows roots.now → IfOk result (ListsPossible old global table.now.rows) }
{
    let decisions = match decide_all(rt, alloc, words, roots, workers.count(), &NoWorkGate) {
        Ok(decisions) => decisions,
        Err(DecideError::Memory) => return Err(Memory),
    };
    possible_list(alloc, words, table, roots, decisions.as_slice())
}

/// The possible rows of a table, whose questions are decided side by side.
///
/// # Errors
/// As `possible` has them.
fn possible_beside<N: Site, R: Threads + Sync>(
    rt: &R,
    alloc: Global,
    arena: &Arena<N>,
    pass: &mut Pass<N>,
    table: &CTable,
    global: u32,
    workers: Workers,
) -> Result<List<PossibleRow>, CertainError>
    requires global { IsTrue (is_place_of pass.old.words class.Cond global) }
    requires plain { HasNoColumn pass.old.words global }
    requires rows { AreRows pass.old.words (length table.now.columns) table.now.rows }
    ensures lists { IfOk result (λ list. ListsPossible pass.old.words global table.now.rows list) }
    ensures writes { PassWrites N.log.cap pass.old pass.new (length table.now.rows) (is_full result) }
{
    let roots = possible_questions(alloc, arena, pass, table, global)?;
    let words = pass.words();
    match possible_decided(rt, alloc, words, table, roots.as_slice(), workers) {
        Ok(list) => Ok(list),
        Err(Memory) => Err(CertainError::Memory),
    }
}

/// The rows of a table that are possible, as `possible` of `ct_certain` lists them, decided by so many workers. Which world a
/// row has depends on their number. One worker asks for a row what it did not find out for those before it; several make the
/// words of all questions first.
///
/// # Errors
/// As `possible` has them.
pub(crate) fn possible<N: Site, R: Threads + Sync>(
    rt: &R,
    alloc: Global,
    arena: &Arena<N>,
    pass: &mut Pass<N>,
    table: &CTable,
    global: u32,
    workers: Workers,
) -> Result<List<PossibleRow>, CertainError>
    requires global { IsTrue (is_place_of pass.old.words class.Cond global) }
    requires plain { HasNoColumn pass.old.words global }
    requires rows { AreRows pass.old.words (length table.now.columns) table.now.rows }
    ensures lists { IfOk result (λ list. ListsPossible pass.old.words global table.now.rows list) }
    ensures writes { PassWrites N.log.cap pass.old pass.new (length table.now.rows) (is_full result) }
{
    if workers.count() == 1 {
        possible_in_turn(alloc, arena, pass, table, global)
    } else {
        possible_beside(rt, alloc, arena, pass, table, global, workers)
    }
}

/// The roots of candidates.
///
/// # Errors
/// `Memory` where there is none for the list.
fn roots_of(alloc: Global, candidates: &[Candidate]) -> Result<Vec<u32>, Memory>
    ensures { IfOk result (λ roots. roots.items ≡ map (λ c. c.root) candidates.now) }
{
    let mut roots = Vec::new(alloc);
    for candidate in candidates {
        roots.push(candidate.root)?;
    }
    Ok(roots)
}

/// The certain tuples among candidates, by decisions of workers about their roots.
///
/// # Errors
/// `Memory` where there is none for a question or the list.
fn certain_decided<R: Threads + Sync>(
    rt: &R,
    alloc: Global,
    words: &[u64],
    candidates: &[Candidate],
    workers: Workers,
) -> Result<List<CertainRow>, Memory>
    requires formed { IsWellFormed words.now }
    requires few { length words.now < 2 ^ 28 }
    requires candidates { (old : List ℕ) × (global : ℕ) × (rs : List CRow) × (kept : WorldValue) × AreCandidates old words.now global rs kept candidates.now }
    ensures { (old : List ℕ) (global : ℕ) (rs : List CRow) (kept : WorldValue) → AreCandidates old words.now global rs kept candidates.now → IfOk result (ListsCertain old words.now global rs kept) }
{
    let roots = roots_of(alloc, candidates)?;
    let count = workers.count();
    let decisions = match decide_all(rt, alloc, words, roots.as_slice(), count, &NoWorkGate) {
        Ok(decisions) => decisions,
        Err(DecideError::Memory) => return Err(Memory),
    };
    certain_list(alloc, words, candidates, decisions.as_slice())
}

/// The certain tuples of a table, whose questions are decided side by side.
///
/// # Errors
/// As `certain` has them.
fn certain_beside<N: Site, R: Threads + Sync>(
    rt: &R,
    alloc: Global,
    arena: &Arena<N>,
    pass: &mut Pass<N>,
    table: &CTable,
    global: u32,
    kept: &World,
    workers: Workers,
) -> Result<List<CertainRow>, CertainError>
    requires global { IsTrue (is_place_of pass.old.words class.Cond global) }
    requires plain { HasNoColumn pass.old.words global }
    requires rows { AreRows pass.old.words (length table.now.columns) table.now.rows }
    requires kept { IsKeptWorld pass.old.words global kept.now }
    ensures lists { IfOk result (λ list. ListsCertain pass.old.words pass.new.words global table.now.rows kept.now list) }
    ensures writes { PassWrites N.log.cap pass.old pass.new (length table.now.rows * (length table.now.rows * (2 * length table.now.columns + 2) + length table.now.columns + 1)) (is_full result) }
{
    let candidates = certain_left(alloc, arena, pass, table, global, kept)?;
    let words = pass.words();
    match certain_decided(rt, alloc, words, candidates.as_slice(), workers) {
        Ok(list) => Ok(list),
        Err(Memory) => Err(CertainError::Memory),
    }
}

/// The certain tuples of a table, as `certain` of `ct_certain` lists them, decided by so many workers. One worker leaves out a
/// tuple that a world lacks which it found for those before it; several leave out those that are lacking in a world that is
/// known before all questions, and make the words of the others first.
///
/// # Errors
/// As `certain` has them.
pub(crate) fn certain<N: Site, R: Threads + Sync>(
    rt: &R,
    alloc: Global,
    arena: &Arena<N>,
    pass: &mut Pass<N>,
    table: &CTable,
    global: u32,
    kept: &World,
    workers: Workers,
) -> Result<List<CertainRow>, CertainError>
    requires global { IsTrue (is_place_of pass.old.words class.Cond global) }
    requires plain { HasNoColumn pass.old.words global }
    requires rows { AreRows pass.old.words (length table.now.columns) table.now.rows }
    requires kept { IsKeptWorld pass.old.words global kept.now }
    ensures lists { IfOk result (λ list. ListsCertain pass.old.words pass.new.words global table.now.rows kept.now list) }
    ensures writes { PassWrites N.log.cap pass.old pass.new (length table.now.rows * (length table.now.rows * (2 * length table.now.columns + 2) + length table.now.columns + 1)) (is_full result) }
{
    if workers.count() == 1 {
        certain_in_turn(alloc, arena, pass, table, global, kept)
    } else {
        certain_beside(rt, alloc, arena, pass, table, global, kept, workers)
    }
}
