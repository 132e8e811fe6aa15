// A look at one clause.

ghost use Rattle.std.specs.Prelude.{◌≡◌, true, ◌≤◌, length};
ghost use Rattle.ct_trail.specs.Literal.{is_clause, LARGEST};
ghost use Rattle.ct_trail.specs.Look.{LookOf, opened};

use crate::assignment::{Truth, look_up};
use crate::literal::{is_same, is_variable};

/// What a clause is under an assignment.
#[derive(Clone, Copy)]
pub enum Look {
    /// A literal is true.
    Satisfied,
    /// Each literal is false.
    Falsified,
    /// Each literal but this one is false, and this one is open.
    Unit(i32),
    /// None is true, and this one and another are open.
    Undecided(i32),
}

/// The look where one more literal is open. Of undecided literals a variable goes before the
/// negative of one.
fn with_open(look: Look, l: &i32) -> Look
    ensures { result ≡ opened look l.now }
{
    match look {
        Look::Satisfied => Look::Satisfied,
        Look::Falsified => Look::Unit(*l),
        Look::Unit(m) if is_same(l, &m) => Look::Unit(m),
        Look::Unit(m) | Look::Undecided(m) => {
            Look::Undecided(if is_variable(&m) { m } else { *l })
        }
    }
}

/// What a clause is under an assignment.
pub fn look_at(truths: &[Truth], clause: &[i32]) -> Look
    requires vars { length truths.now ≤ LARGEST }
    requires within { is_clause (length truths.now) clause.now ≡ true }
    ensures { LookOf truths.now clause.now result }
{
    let mut look = Look::Falsified;
    for l in clause {
        match look_up(truths, l) {
            Truth::True => return Look::Satisfied,
            Truth::Open => look = with_open(look, l),
            Truth::False => {}
        }
    }
    look
}
