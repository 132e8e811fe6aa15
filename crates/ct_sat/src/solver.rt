// A search that is asked again as clauses are added.

ghost use Rattle.std.specs.Prelude.{◌≡◌, ◌≤◌, [], ◌∷◌, ◌++◌, true, false, length, is_err, IfOk, IsErr, OnOk, OnErr};
ghost use Rattle.ct_trail.specs.Literal.{is_clause, LARGEST};
ghost use Rattle.ct_trail.specs.declared.log.Entry.TheVariants as entry;
ghost use Rattle.ct_trail.specs.Log.{IsLog};
ghost use Rattle.ct_sat.specs.Log.{Learns, AnswersFound};

use crate::guide::Guide;
use crate::search::search;
use crate::verdict::Found;
use ct_trail::{Board, Entry, hint};
use ct_word::{List, Memory};
use std::alloc::Global;
use std::marker::Model;

/// A search over numbered variables. Clauses are added between its steps, and what it learned stays.
#[derive(Drop)]
pub struct Solver {
    board: Board,
    guide: Guide,
    failed: bool,
}

impl Model for Solver {
    ghost use Rattle.ct_sat.specs.Log.{State};

    ghost Value = { State };

    ghost view = { λ s. record { vars = s.board.vars; entries = s.board.entries; failed = s.failed } };
}

/// Adds a clause, for which the guide makes room first.
fn add(board: &mut Board, guide: &mut Guide, clause: List<i32>) -> Result<u32, Memory>
    requires { is_clause board.old.vars clause ≡ true }
    ensures vars { board.new.vars ≡ board.old.vars }
    ensures added { OnOk result (board.new.entries ≡ board.old.entries ++ entry.Added clause ∷ []) }
    ensures position { IfOk result (λ k. k ≡ length board.old.entries) }
    ensures refused { OnErr result (board.new.entries ≡ board.old.entries) }
{
    let place = hint(board.entries().len())?;
    guide.reach(clause.as_slice())?;
    board.add(clause)?;
    Ok(place)
}

impl Solver {
    /// A search over the variables from 1 to `vars`, without clauses.
    ///
    /// # Errors
    /// `Memory` where there is none for what it keeps of each variable.
    pub fn make(alloc: Global, vars: u32) -> Result<Solver, Memory>
        requires { vars ≤ LARGEST }
        ensures { IfOk result (λ s. s ≡ record { vars = vars; entries = []; failed = false }) }
    {
        let board = Board::make(alloc, vars)?;
        Ok(Solver {
            board,
            guide: Guide::make(alloc),
            failed: false,
        })
    }

    /// Adds a clause, and returns its position in the log. The next step looks at it.
    ///
    /// # Errors
    /// `Memory` where memory is wanting, or was at an earlier call, or the log has 2^32 entries. The log stays as it was.
    pub fn add(&mut self, clause: List<i32>) -> Result<u32, Memory>
        requires { is_clause self.old.vars clause ≡ true }
        ensures added { OnOk result (self.new ≡ record { vars = self.old.vars; entries = self.old.entries ++ entry.Added clause ∷ []; failed = false }) }
        ensures position { IfOk result (λ k. k ≡ length self.old.entries) }
        ensures refused { OnErr result (self.new ≡ record { vars = self.old.vars; entries = self.old.entries; failed = true }) }
        ensures again { self.old.failed ≡ true → IsErr result }
    {
        if self.failed {
            return Err(Memory);
        }
        let added = add(&mut self.board, &mut self.guide, clause);
        self.failed = added.is_err();
        added
    }

    /// Searches for a model of the added clauses, or learns the empty clause. It only lengthens the log, by what it learns.
    ///
    /// # Errors
    /// `Memory` where memory is wanting, or was at an earlier call, or an entry past 2^32 would have to be learned or named. Every
    /// later call of `add` and `step` returns it too.
    pub fn step(&mut self, alloc: Global) -> Result<Found, Memory>
        ensures learns { Learns self.old self.new }
        ensures found { IfOk result (λ f. AnswersFound self.new f) }
        ensures failed { self.new.failed ≡ is_err result }
        ensures again { self.old.failed ≡ true → IsErr result }
    {
        if self.failed {
            return Err(Memory);
        }
        let found = search(alloc, &mut self.board, &mut self.guide);
        self.failed = found.is_err();
        found
    }

    /// The added and the learned clauses, in the order in which they came. A learned one follows, along its hints, from
    /// entries before it, and has no variable past those of the added ones.
    pub fn log(&self) -> &[Entry]
        ensures entries { result.now ≡ self.now.entries }
        ensures log { IsLog self.now.vars self.now.entries }
    {
        self.board.entries()
    }

    /// The same log, of which the caller becomes the owner.
    pub fn into_log(self) -> Vec<Entry>
        ensures entries { result.items ≡ self.entries }
        ensures log { IsLog self.vars self.entries }
    {
        self.board.into_entries()
    }

    /// On how many decisions the truth of a variable rests, as far as the solver remembers. Nothing rests on this number.
    pub fn level(&self, variable: u32) -> u32 {
        self.guide.level(variable)
    }

    /// How often a false clause, or one with one literal left, was found only by a look at all clauses. It is 0 as long as
    /// the watches miss nothing. Nothing rests on this number.
    pub fn missed(&self) -> u64 {
        self.guide.missed
    }
}
