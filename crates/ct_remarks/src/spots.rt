// Where a remark points to.

ghost use Rattle.std.specs.Prelude.{◌≡◌};
ghost use Rattle.ct_remarks.specs.RefusedStatements.{case_of, IsStanding, IsMarked};
ghost use Rattle.ct_remarks.specs.Standing.{IsSpot};
ghost use Rattle.ct_remarks.specs.Remarks as spec;

use crate::cases::Case;
use crate::places::{Spot, spot_at};
use crate::reading::Reading;
use ct_transcript::Refusal;

/// Whether a statement was refused before its names were looked at.
pub fn is_unread(why: &Refusal) -> bool
    ensures { result ≡ spec.is_unread why.now }
{
    matches!(
        why,
        Refusal::NotAStatement | Refusal::TooDeep | Refusal::NumberRange
    )
}

/// The spot that a remark points to: the first token, or where the reading of the text stopped.
pub fn spot_of(case: &Case, reading: &Reading) -> Spot
    requires standing { IsStanding (case_of case.now) }
    requires marked { IsMarked case.now }
    ensures place { spec.IsPlace (case_of case.now) result.at }
    ensures spot { IsSpot case.now.script.now result }
{
    if !is_unread(case.why) {
        return case.first;
    }
    let stop = reading.place().unwrap_or(0);
    let Some(to) = case.text.at.checked_add(stop) else {
        return case.first;
    };
    if stop > case.text.text.len() || to < case.text.first {
        return case.first;
    }
    spot_at(case.script, case.first, to)
}
