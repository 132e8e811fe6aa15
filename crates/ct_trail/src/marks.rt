// Marks of variables.

ghost use Rattle.std.specs.Prelude.{◌≡◌, true, ◌≤◌, length};
ghost use Rattle.ct_trail.specs.Literal.{is_literal, is_clause, LARGEST};
ghost use Rattle.ct_trail.specs.Marks.{mark_at, raised, is_kept, with_kept, replaced, all_marked};

use crate::literal::place;

/// What the analysis of a false clause has found of a variable.
#[derive(Clone, Copy, PartialEq, Eq)]
pub enum Mark {
    /// It has not been met.
    Clear,
    /// Its literal is false, and one of the lesson.
    Kept,
    /// Its literal is false, and the other literals of the reason of its opposite stand for it.
    Resolved,
}

/// The mark where the variable is met.
fn raise(mark: Mark) -> Mark
    ensures { result ≡ raised mark }
{
    match mark {
        Mark::Clear => Mark::Kept,
        Mark::Kept => Mark::Kept,
        Mark::Resolved => Mark::Resolved,
    }
}

/// The mark of a literal's variable.
pub fn mark_of(marks: &[Mark], l: &i32) -> Mark
    requires vars { length marks.now ≤ LARGEST }
    requires within { is_literal (length marks.now) l.now ≡ true }
    ensures { result ≡ mark_at marks.now l.now }
{
    marks[place(l)]
}

/// Whether the mark of a literal's variable is that of a literal that is kept.
pub fn keeps(marks: &[Mark], l: &i32) -> bool
    requires vars { length marks.now ≤ LARGEST }
    requires within { is_literal (length marks.now) l.now ≡ true }
    ensures { result ≡ is_kept (mark_at marks.now l.now) }
{
    match mark_of(marks, l) {
        Mark::Kept => true,
        Mark::Clear | Mark::Resolved => false,
    }
}

/// Meets the variables of a clause.
#[tactic(auto, using(crate::proofs::Assignments::wider))]
pub fn keep_all(marks: &mut [Mark], clause: &[i32])
    requires vars { length marks.old ≤ LARGEST }
    requires within { is_clause (length marks.old) clause.now ≡ true }
    ensures { marks.new ≡ with_kept marks.old clause.now }
{
    for l in clause {
        let at = place(l);
        marks[at] = raise(marks[at]);
    }
}

/// Has the other literals of a clause stand for one of them.
pub fn replace(marks: &mut [Mark], l: &i32, clause: &[i32])
    requires vars { length marks.old ≤ LARGEST }
    requires literal { is_literal (length marks.old) l.now ≡ true }
    requires within { is_clause (length marks.old) clause.now ≡ true }
    ensures { marks.new ≡ replaced marks.old l.now clause.now }
{
    marks[place(l)] = Mark::Resolved;
    keep_all(marks, clause);
}

/// Whether each variable of a clause has been met.
#[tactic(auto, unfolding(crate::specs::Marks::all_marked))]
pub fn are_marked(marks: &[Mark], clause: &[i32]) -> bool
    requires vars { length marks.now ≤ LARGEST }
    requires within { is_clause (length marks.now) clause.now ≡ true }
    ensures { result ≡ all_marked marks.now clause.now }
{
    for l in clause {
        if mark_of(marks, l) == Mark::Clear {
            return false;
        }
    }
    true
}
