// What a remark begins with.

ghost use Rattle.std.specs.Prelude.{◌≡◌, map, slice_get};
ghost use Rattle.ct_print.specs.Written.{Appends};
ghost use Rattle.ct_remarks.specs.RefusedStatements.{case_of};
ghost use Rattle.ct_remarks.specs.Standing.{IsSpot};
ghost use Rattle.ct_remarks.specs.Remarks as spec;

use crate::cases::Case;
use crate::places::Spot;
use crate::shown::push_shown;
use ct_transcript::refusal_name;
use ct_word::Memory;
use std::alloc::Global;
use std::fmt::Write;

/// Appends the name of a session: that of its file, or else its number.
fn push_session_name(
    alloc: Global,
    out: &mut String,
    names: &[&str],
    session: usize,
) -> Result<(), Memory>
    ensures { Appends result out.old out.new (spec.shown (spec.session_name session (slice_get (map (λ n. n.now) names.now) session))) }
{
    match names.get(session) {
        Some(name) => push_shown(out, name),
        None => {
            let number = u128::from(session as u64) + 1;
            push_shown(out, format!(in alloc; "session {number}")?.as_str())
        }
    }
}

/// Appends the head of a remark on a refused statement that points to this spot.
pub fn push_head(
    alloc: Global,
    out: &mut String,
    names: &[&str],
    case: &Case,
    spot: Spot,
) -> Result<(), Memory>
    requires { IsSpot case.now.script.now spot }
    ensures { Appends result out.old out.new (spec.head (map (λ n. n.now) names.now) (case_of case.now) spot.at) }
{
    push_session_name(alloc, out, names, case.session)?;
    let Spot { line, column, .. } = spot;
    let number = case.number;
    let name = refusal_name(case.why);
    write!(out, ":{line}:{column}: statement {number} refused {name}: ")?;
    Ok(())
}
