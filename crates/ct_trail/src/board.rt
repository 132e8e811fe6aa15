// The log of a search and its trail, of which its proof speaks.

ghost use Rattle.std.specs.Prelude.{◌≡◌, ◌≤◌, ◌<◌, ℕ, [], ◌∷◌, ◌++◌, true, false, length, map, replicate, Some, None, IfOk, OnOk, OnErr, ◌-◌, slice_get};
ghost use Rattle.ct_trail.specs.Literal.{is_literal, is_clause, LARGEST};
ghost use Rattle.ct_trail.specs.declared.trail.Put.{Put};
ghost use Rattle.ct_trail.specs.Assignment.{is_true, truth_of, assigned, IsOpen};
ghost use Rattle.ct_trail.specs.declared.log.Entry.TheVariants as entry;
ghost use Rattle.ct_trail.specs.Log.{clause_at};
ghost use Rattle.ct_trail.specs.Look.{IsFalsifiedAt, IsUnitAt};
ghost use Rattle.ct_trail.specs.Trail.{IsPutBy};
ghost use Rattle.ct_trail.specs.Learning.{IsReturn};
ghost use Rattle.ct_trail.specs.Units.{HasUnit, IsUnitLesson};
ghost use Rattle.ct_trail.specs.Standing.{truths_now, log_now, can_decide, decided, extended, shortened, worth_of, Learned, SeenAt, ScanOf, IsStanding, Advances, IsTakenBack};

use crate::assignment::{Truth, assign, look_up, reopen, truth_of};
use crate::learning::{Lesson, Return, learn_from};
use crate::literal::{greater, is_within, variable};
use crate::log::{Entry, Rup};
use crate::look::{Look, look_at};
use crate::scan::{Scan, hint, scan_added};
use crate::trail::{Put, set_reason};
use ct_word::{List, Memory};
use std::alloc::{AllocError, Global};
use std::marker::Model;

/// The log of a search, and the literals that are true.
#[derive(Drop)]
pub struct Board {
    vars: u32,
    /// The greatest variable of the added clauses.
    top: u32,
    entries: Vec<Entry>,
    trail: Vec<Put>,
    /// What the trail gives.
    truths: Vec<Truth>,
}

impl Model for Board {
    ghost use Rattle.std.specs.Prelude.{◌≡◌};
    ghost use Rattle.ct_trail.specs.Trail.{truths_of};
    ghost use Rattle.ct_trail.specs.Standing.{Standing, IsStanding};

    ghost Value = { Standing };

    ghost view = { λ b. record { vars = b.vars; top = b.top; entries = b.entries.items; trail = b.trail.items } };

    ghost invariant = { λ b. IsStanding (record { vars = b.vars; top = b.top; entries = b.entries.items; trail = b.trail.items }) × (b.truths.items ≡ truths_of b.vars b.trail.items) };
}

/// The assignment without truths.
fn unassigned(alloc: Global, vars: usize) -> Result<Vec<Truth>, AllocError>
    ensures { IfOk result (λ v. v.items ≡ replicate vars Truth.Open) }
{
    vec![in alloc; Truth::Open; vars]
}

/// The greatest variable of a clause, or 0.
fn greatest(clause: &[i32]) -> u32
    requires { is_clause LARGEST clause.now ≡ true }
    ensures within { is_clause result clause.now ≡ true }
    ensures least { (k : ℕ) → is_clause k clause.now ≡ true → result ≤ k }
{
    let mut top = 0;
    for l in clause {
        top = greater(top, variable(l));
    }
    top
}

/// Makes a literal true, at the end of the trail.
fn put_last(
    trail: &mut Vec<Put>,
    truths: &mut Vec<Truth>,
    literal: &i32,
    reason: Option<u32>,
) -> Result<(), Memory>
    requires vars { length truths.old.items ≤ LARGEST }
    requires within { is_literal (length truths.old.items) literal.now ≡ true }
    ensures trail { OnOk result (trail.new.items ≡ trail.old.items ++ record { literal = literal.now; reason = reason } ∷ []) }
    ensures truths { OnOk result (truths.new.items ≡ assigned truths.old.items literal.now) }
    ensures trail_err { OnErr result (trail.new.items ≡ trail.old.items) }
    ensures truths_err { OnErr result (truths.new.items ≡ truths.old.items) }
{
    trail.push(Put {
        literal: *literal,
        reason,
    })?;
    assign(truths.as_mut_slice(), literal);
    Ok(())
}

/// The literal at a place of the trail.
fn literal_at(trail: &[Put], place: usize) -> i32
    requires { place < length trail.now }
    ensures { (p : Put) → slice_get trail.now place ≡ Some p → result ≡ p.literal }
{
    trail[place].literal
}

/// Takes the truth of the last literal of the trail back.
fn take_last(trail: &mut Vec<Put>, truths: &mut Vec<Truth>)
    requires vars { length truths.old.items ≤ LARGEST }
    requires within { (p : Put) → slice_get trail.old.items (length trail.old.items - 1) ≡ Some p → is_literal (length truths.old.items) p.literal ≡ true }
    ensures { IsTakenBack trail.old.items truths.old.items trail.new.items truths.new.items }
{
    if let Some(last) = trail.pop() {
        reopen(truths.as_mut_slice(), &last.literal);
    }
}

impl Board {
    /// A board over the variables from 1 to `vars`, without clauses.
    ///
    /// # Errors
    /// `Memory` where there is none for the truths of the variables.
    pub fn make(alloc: Global, vars: u32) -> Result<Board, Memory>
        requires { vars ≤ LARGEST }
        ensures { IfOk result (λ b. b ≡ record { vars = vars; top = 0; entries = []; trail = [] }) }
    {
        let truths = unassigned(alloc, vars as usize)?;
        Ok(Board {
            vars,
            top: 0,
            entries: Vec::new(alloc),
            trail: Vec::new(alloc),
            truths,
        })
    }

    /// The added and the learned clauses, in the order in which they came.
    pub fn entries(&self) -> &[Entry]
        ensures entries { result.now ≡ self.now.entries }
        ensures standing { IsStanding self.now }
    {
        self.entries.as_slice()
    }

    /// The same entries, of which the caller becomes the owner.
    pub fn into_entries(self) -> Vec<Entry>
        ensures entries { result.items ≡ self.entries }
        ensures standing { IsStanding self }
    {
        self.entries
    }

    /// The literals that are true, in the order in which they became so.
    pub fn trail(&self) -> &[Put]
        ensures { result.now ≡ self.now.trail }
    {
        self.trail.as_slice()
    }

    /// The greatest variable of the added clauses, or 0.
    pub fn top(&self) -> u32
        ensures { result ≡ self.now.top }
    {
        self.top
    }

    /// The truth of a literal; open where it has no variable of the board.
    pub fn truth(&self, l: i32) -> Truth
        ensures { result ≡ truth_of (truths_now self.now) l }
    {
        truth_of(self.truths.as_slice(), &l)
    }

    /// What the clause at a position is; satisfied where there is none.
    pub fn look(&self, k: u32) -> Look
        ensures { SeenAt self.now k result }
    {
        let k = k as usize;
        if k >= self.entries.len() {
            return Look::Satisfied;
        }
        look_at(self.truths.as_slice(), self.entries[k].clause())
    }

    /// Looks at the added clauses, up to the first that is not true.
    ///
    /// # Errors
    /// `Memory` where that one is false or a unit, at a position of 2^32 or more.
    pub fn scan(&self) -> Result<Scan, Memory>
        ensures { IfOk result (λ s. ScanOf (truths_now self.now) self.now.entries self.now.top s) }
    {
        scan_added(self.truths.as_slice(), self.entries.as_slice(), self.top)
    }

    /// The model of the truths: a variable without a truth is false.
    ///
    /// # Errors
    /// `AllocError` where there is no memory for it.
    pub fn model(&self, alloc: Global) -> Result<Vec<bool>, AllocError>
        ensures model { IfOk result (λ v. v.items ≡ map is_true (truths_now self.now)) }
        ensures vars { length (truths_now self.now) ≡ self.now.vars }
    {
        self.truths.iter().map(|t| *t == Truth::True).collect(alloc)
    }

    /// Adds a clause at the end of the log.
    ///
    /// # Errors
    /// `Memory` where memory is wanting. The board stays as it was.
    pub fn add(&mut self, clause: List<i32>) -> Result<(), Memory>
        requires { is_clause self.old.vars clause ≡ true }
        ensures vars { self.new.vars ≡ self.old.vars }
        ensures ok { OnOk result (self.new.entries ≡ self.old.entries ++ entry.Added clause ∷ []) }
        ensures trail { OnOk result (self.new.trail ≡ self.old.trail) }
        ensures err { OnErr result (self.new ≡ self.old) }
    {
        let top = greater(self.top, greatest(clause.as_slice()));
        self.entries.push(Entry::Added(clause))?;
        self.top = top;
        Ok(())
    }

    /// Makes an open literal true: a decision, or the last literal of the clause that is its reason.
    ///
    /// # Errors
    /// `Memory` where memory is wanting. The board stays as it was.
    pub fn put(&mut self, literal: &i32, reason: Option<u32>) -> Result<(), Memory>
        requires by { IsPutBy (log_now self.old) (truths_now self.old) literal.now reason }
        requires within { is_literal self.old.top literal.now ≡ true }
        ensures is { OnOk result (self.new ≡ extended self.old literal.now reason) }
        ensures worth { OnOk result (worth_of self.old < worth_of self.new) }
        ensures err { OnErr result (self.new ≡ self.old) }
    {
        put_last(&mut self.trail, &mut self.truths, literal, reason)?;
        Ok(())
    }

    /// Makes the last literal of the clause at k true.
    ///
    /// # Errors
    /// `Memory` where memory is wanting. The board stays as it was.
    pub fn put_unit(&mut self, literal: &i32, k: u32) -> Result<(), Memory>
        requires { IsUnitAt (truths_now self.old) literal.now (log_now self.old) k }
        ensures is { OnOk result (self.new ≡ extended self.old literal.now (Some k)) }
        ensures worth { OnOk result (worth_of self.old < worth_of self.new) }
        ensures err { OnErr result (self.new ≡ self.old) }
    {
        let _ = &self.trail;
        self.put(literal, Some(k))
    }

    /// Makes a literal true, unless it has a truth, or a variable past those of the added clauses; says whether it did.
    ///
    /// # Errors
    /// `Memory` where memory is wanting. The board stays as it was.
    pub fn decide(&mut self, literal: &i32) -> Result<bool, Memory>
        ensures is { OnOk result (self.new ≡ decided self.old literal.now) }
        ensures told { IfOk result (λ b. b ≡ can_decide self.old literal.now) }
        ensures err { OnErr result (self.new ≡ self.old) }
        ensures advances { Advances self.old self.new }
        ensures worth { IfOk result (λ b. b ≡ true → worth_of self.old < worth_of self.new) }
    {
        if !self.is_open(literal) {
            return Ok(false);
        }
        self.put(literal, None)?;
        Ok(true)
    }

    /// Whether a literal has a variable up to the greatest of the added clauses, and no truth.
    fn is_open(&self, literal: &i32) -> bool
        ensures is { result ≡ can_decide self.now literal.now }
        ensures without_truth { result ≡ true → IsOpen (truths_now self.now) literal.now }
        ensures within { result ≡ true → is_literal self.now.top literal.now ≡ true }
    {
        if !is_within(self.top, literal) {
            return false;
        }
        match look_up(self.truths.as_slice(), literal) {
            Truth::Open => true,
            Truth::True | Truth::False => false,
        }
    }

    /// Takes the last literal of the trail back.
    fn take_back(&mut self)
        ensures { self.new ≡ shortened self.old (length self.old.trail - 1) }
    {
        take_last(&mut self.trail, &mut self.truths);
    }

    /// Takes the literals of the trail from a place on back.
    pub fn cut(&mut self, n: usize)
        ensures { self.new ≡ shortened self.old n }
    {
        while self.trail().len() > n {
            self.take_back();
        }
    }

    /// Learns from the clause at k, which is false, and returns where the search goes on; None where the empty clause was
    /// learned.
    ///
    /// # Errors
    /// `Memory` where memory is wanting. The board stays as it was.
    pub fn learn(&mut self, alloc: Global, k: u32) -> Result<Option<Return>, Memory>
        requires { IsFalsifiedAt (truths_now self.old) (log_now self.old) k }
        ensures ok { IfOk result (λ back. Learned self.old self.new back) }
        ensures err { OnErr result (self.new ≡ self.old) }
    {
        let lesson = learn_from(
            alloc,
            self.entries.as_slice(),
            self.trail.as_slice(),
            self.top,
            k,
        )?;
        let Lesson {
            clause,
            hints,
            back,
        } = lesson;
        let clause = List::from_vec(clause);
        let hints = List::from_vec(hints);
        self.entries.push(Entry::Learned(Rup { clause, hints }))?;
        Ok(back)
    }

    /// Cuts the trail, and makes the last literal of the clause at k true.
    ///
    /// # Errors
    /// `Memory` where memory is wanting. The trail is cut.
    pub fn go_back(&mut self, back: Return, k: u32) -> Result<(), Memory>
        requires place { k < length self.old.entries }
        requires returns { IsReturn self.old.vars self.old.trail (clause_at (log_now self.old) k) back }
        ensures worth { OnOk result (worth_of self.old < worth_of self.new) }
        ensures is { OnOk result (self.new ≡ extended (shortened self.old back.cut) back.literal (Some k)) }
        ensures err { OnErr result (self.new ≡ shortened self.old back.cut) }
    {
        let _ = &self.trail;
        self.cut(back.cut);
        self.put_unit(&back.literal, k)
    }

    /// Learns the clause that has the literal at a place of the trail alone, which becomes the literal's reason.
    ///
    /// # Errors
    /// `Memory` where memory is wanting, or the log has 2^32 entries. The board stays as it was.
    pub fn make_unit(&mut self, alloc: Global, place: usize, hints: Vec<u32>) -> Result<(), Memory>
        requires { IsUnitLesson (log_now self.old) self.old.trail place hints.items }
        ensures is { OnOk result (HasUnit self.old place hints.items self.new) }
        ensures err { OnErr result (self.new ≡ self.old) }
        ensures advances { Advances self.old self.new }
    {
        let position = hint(self.entries.as_slice().len())?;
        let mut clause = Vec::new(alloc);
        clause.push(literal_at(self.trail.as_slice(), place))?;
        let clause = List::from_vec(clause);
        let hints = List::from_vec(hints);
        let step = Rup { clause, hints };
        self.entries.push(Entry::Learned(step))?;
        set_reason(&mut self.trail, place, position);
        Ok(())
    }
}
