// The literals that are true, in the order in which they became so.

ghost use Rattle.std.specs.Prelude.{◌≡◌, ℕ, List, Some, ◌<◌, length, slice_get, slice_set};
ghost use Rattle.ct_trail.specs.declared.trail.Put.{Put};
ghost use Rattle.ct_trail.specs.Literal.{Clause};
ghost use Rattle.ct_trail.specs.Trail.{IsTrail, truths_of};
ghost use Rattle.ct_trail.specs.Analysis.{IsPutAt};
ghost use Rattle.ct_trail.specs.Standing.{worth};
ghost use Rattle.ct_trail.specs.Units.{IsOwnReason};

/// A literal on the trail: a decision, or the last literal of the clause at a position of the log whose others are false.
#[derive(Clone, Copy)]
pub struct Put {
    pub literal: i32,
    /// The position of that clause; None for a decision.
    pub reason: Option<u32>,
}

/// Gives a literal of the trail another reason, the clause at a position of the log that has it alone.
pub fn set_reason(trail: &mut Vec<Put>, place: usize, position: u32)
    requires { place < length trail.old.items }
    ensures is { (p : Put) → slice_get trail.old.items place ≡ Some p → trail.new.items ≡ slice_set trail.old.items place (record { literal = p.literal; reason = Some position }) }
    ensures truths { (vars : ℕ) → truths_of vars trail.new.items ≡ truths_of vars trail.old.items }
    ensures trail { (vars top : ℕ) (log : List Clause) → IsOwnReason log trail.old.items place position → IsTrail vars top log trail.old.items → IsTrail vars top log trail.new.items }
    ensures worth { (vars reason : ℕ) → IsPutAt trail.old.items place reason → worth vars trail.new.items ≡ worth vars trail.old.items }
{
    trail[place].reason = Some(position);
}
