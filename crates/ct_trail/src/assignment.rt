// Partial assignments.

ghost use Rattle.std.specs.Prelude.{◌≡◌, true, ◌≤◌, length, slice_set};
ghost use Rattle.ct_trail.specs.Literal.{is_literal, place_of, LARGEST};
ghost use Rattle.ct_trail.specs.Assignment.{truth_of, inverted, assigned};

use crate::literal::{is_variable, is_within, place};

/// The truth of a variable under a partial assignment.
#[derive(Clone, Copy, PartialEq, Eq)]
pub enum Truth {
    Open,
    True,
    False,
}

/// The truth of the opposite.
fn invert(truth: Truth) -> Truth
    ensures { result ≡ inverted truth }
{
    match truth {
        Truth::Open => Truth::Open,
        Truth::True => Truth::False,
        Truth::False => Truth::True,
    }
}

/// The truth of a literal.
pub fn look_up(truths: &[Truth], l: &i32) -> Truth
    requires vars { length truths.now ≤ LARGEST }
    requires within { is_literal (length truths.now) l.now ≡ true }
    ensures { result ≡ truth_of truths.now l.now }
{
    let truth = truths[place(l)];
    if is_variable(l) { truth } else { invert(truth) }
}

/// The truth of a literal; open where it has no variable of the assignment.
pub fn truth_of(truths: &[Truth], l: &i32) -> Truth
    requires { length truths.now ≤ LARGEST }
    ensures { result ≡ truth_of truths.now l.now }
{
    if is_within(truths.len() as u32, l) {
        look_up(truths, l)
    } else {
        Truth::Open
    }
}

/// Makes a literal true.
#[tactic(auto, unfolding(crate::specs::Assignment::assigned))]
pub fn assign(truths: &mut [Truth], l: &i32)
    requires vars { length truths.old ≤ LARGEST }
    requires within { is_literal (length truths.old) l.now ≡ true }
    ensures { truths.new ≡ assigned truths.old l.now }
{
    truths[place(l)] = if is_variable(l) {
        Truth::True
    } else {
        Truth::False
    };
}

/// Takes a literal's truth back.
pub fn reopen(truths: &mut [Truth], l: &i32)
    requires vars { length truths.old ≤ LARGEST }
    requires within { is_literal (length truths.old) l.now ≡ true }
    ensures { truths.new ≡ slice_set truths.old (place_of l.now) Truth.Open }
{
    truths[place(l)] = Truth::Open;
}
