// Remarks on the refused statements of a transcript.

ghost use Rattle.std.specs.Prelude.{◌≡◌, ◌++◌, map, take, IfOk, OnOk};
ghost use Rattle.ct_remarks.specs.RefusedStatements.{case_of, cases, IsStanding, IsMarked};
ghost use Rattle.ct_remarks.specs.Remarks as spec;

use crate::cases::{Case, refused_statements};
use crate::context::Context;
use crate::heads::push_head;
use crate::reading::Reading;
use crate::sentences::sentence;
use crate::shown::push_shown;
use crate::spots::spot_of;
use crate::transactions::Opened;
use ct_advice::known_of;
use ct_transcript::{Refusal, Transcript};
use ct_word::{List, Memory, Text};
use std::alloc::Global;

/// How many refused statements get a remark.
const LIMIT: usize = 100;

/// The remark on a refused statement.
fn remark(
    alloc: Global,
    names: &[&str],
    context: &Context,
    opened: &Opened,
    case: &Case,
) -> Result<Text, Memory>
    requires standing { IsStanding (case_of case.now) }
    requires marked { IsMarked case.now }
    ensures { IfOk result (spec.IsRemark (map (λ n. n.now) names.now) (case_of case.now)) }
{
    let is_unspelled = matches!(case.why, Refusal::NotAStatement | Refusal::TooDeep);
    let reading = Reading::of(alloc, case.text.text, is_unspelled)?;
    let mut out = String::new(alloc);
    push_head(alloc, &mut out, names, case, spot_of(case, &reading))?;
    let said = sentence(alloc, context, opened, case, &reading)?;
    push_shown(&mut out, said.as_str())?;
    Ok(Text::from_string(out))
}

/// The first of the refused statements.
#[tactic(auto, using(std::proofs::lemmas::List::take_all))]
fn first_cases<'a, 'b>(cases: &'b [Case<'a>]) -> &'b [Case<'a>]
    ensures { result.now ≡ take 100 cases.now }
{
    if cases.len() <= LIMIT {
        cases
    } else {
        &cases[..LIMIT]
    }
}

fn push_more(alloc: Global, lines: &mut Vec<Text>, count: usize) -> Result<(), Memory>
    ensures { OnOk result (lines.new.items ≡ lines.old.items ++ spec.more_lines count) }
{
    if count > LIMIT {
        let more = count - LIMIT;
        lines.push(Text::from_string(format!(in alloc; "{more} more refused statements")?))?;
    }
    Ok(())
}

/// What is said of the refused statements of a transcript, one line each without its line end: of the first 100, and then
/// how many more there are.
///
/// # Errors
/// `Memory` where there is none for the text.
pub fn remarks(alloc: Global, transcript: &Transcript, names: &[&str]) -> Result<List<Text>, Memory>
    ensures { IfOk result (spec.AreRemarks (map (λ n. n.now) names.now) (cases 0 transcript.now.sessions)) }
{
    let sessions = transcript.sessions.as_slice();
    let refused = refused_statements(alloc, sessions)?;
    let known = known_of(alloc, transcript.history.as_slice())?;
    let context = Context {
        sessions,
        words: transcript.words.words().len(),
        texts: &refused.texts,
        known: &known,
    };
    let cases = refused.cases.as_slice();
    let count = cases.len();
    let first = first_cases(cases);
    let mut opened = Opened::make(alloc);
    let mut lines = Vec::new(alloc);
    for case in first {
        opened.reach(alloc, &context, case)?;
        lines.push(remark(alloc, names, &context, &opened, case)?)?;
    }
    push_more(alloc, &mut lines, count)?;
    Ok(List::from_vec(lines))
}
