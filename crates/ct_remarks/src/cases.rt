// The refused statements of a transcript.

ghost use Rattle.std.specs.Prelude.{◌≡◌, ◌++◌, ◌<◌, ◌+◌, ◌^◌, All, map, IfOk, OnOk};
ghost use Rattle.ct_remarks.specs.RefusedStatements as spec;
ghost use Rattle.ct_remarks.specs.Standing as places;

use crate::places::{Placed, START, Spot, spot_at, statement_texts};
use crate::transactions::begun_after;
use ct_transcript::{Refusal, Reply, SessionLog};
use ct_word::Memory;
use std::alloc::Global;

/// A refused statement: the position of its session, its number in the script, the version of its reply, the script, its
/// text there, the spot of its first token, why it was refused, and the position of the BEGIN of the transaction that was
/// open before it.
#[derive(Clone, Copy)]
pub struct Case<'a> {
    pub session: usize,
    pub number: usize,
    pub version: u32,
    pub script: &'a str,
    pub text: Placed<'a>,
    pub first: Spot,
    pub why: &'a Refusal,
    pub begun: Option<usize>,
}

/// The statement texts of each session, and all refused statements.
#[derive(Drop)]
pub struct Refused<'a> {
    pub texts: Vec<Vec<Placed<'a>>>,
    pub cases: Vec<Case<'a>>,
}

/// A session whose refused statements are looked for: its position, its script, and the statement texts there.
#[derive(Clone, Copy)]
struct Source<'a, 'b> {
    session: usize,
    script: &'a str,
    texts: &'b [Placed<'a>],
}

/// What is known before a statement: a spot of its script, and the position of the BEGIN of the transaction that is open.
#[derive(Clone, Copy)]
struct Before {
    spot: Spot,
    begun: Option<usize>,
}

/// Adds the statement at position `i`, where the reply is a refusal. Returns a spot that is known then.
fn push_refused<'a>(
    cases: &mut Vec<Case<'a>>,
    source: Source<'a, '_>,
    i: usize,
    reply: &'a Reply,
    before: Before,
) -> Result<Spot, Memory>
    requires room { i + 1 < 2 ^ 64 }
    requires spot { places.IsSpot source.script.now before.spot }
    requires marked { All spec.IsMarked cases.old.items }
    ensures pushed { OnOk result (map spec.case_of cases.new.items ≡ map spec.case_of cases.old.items ++ spec.refused_by source.entry.session i source.entry.script.now (map places.placed_of source.entry.texts.now) reply.now) }
    ensures marked { OnOk result (All spec.IsMarked cases.new.items) }
    ensures spot { IfOk result (places.IsSpot source.entry.script.now) }
{
    let Reply::Refused { at, why } = reply else {
        return Ok(before.spot);
    };
    match source.texts.get(i) {
        None => Ok(before.spot),
        Some(text) => {
            let first = spot_at(source.script, before.spot, text.first);
            cases.push(Case {
                session: source.session,
                number: i + 1,
                version: *at,
                script: source.script,
                text: *text,
                first,
                why,
                begun: before.begun,
            })?;
            Ok(first)
        }
    }
}

/// Adds the refused statements of a session.
fn push_cases<'a>(
    cases: &mut Vec<Case<'a>>,
    source: Source<'a, '_>,
    replies: &'a [Reply],
) -> Result<(), Memory>
    requires marked { All spec.IsMarked cases.old.items }
    ensures pushed { OnOk result (map spec.case_of cases.new.items ≡ map spec.case_of cases.old.items ++ spec.cases_from source.entry.session 0 source.entry.script.now (map places.placed_of source.entry.texts.now) replies.now) }
    ensures marked { OnOk result (All spec.IsMarked cases.new.items) }
{
    let mut before = Before {
        spot: START,
        begun: None,
    };
    for (i, reply) in replies.iter().enumerate() {
        before.spot = push_refused(cases, source, i, reply, before)?;
        before.begun = begun_after(before.begun, i, reply);
    }
    Ok(())
}

/// The refused statements of these sessions.
///
/// # Errors
/// `Memory` where there is none for the lists.
pub fn refused_statements<'a>(
    alloc: Global,
    sessions: &'a [SessionLog],
) -> Result<Refused<'a>, Memory>
    ensures cases { IfOk result (λ r. map spec.case_of r.cases.items ≡ spec.cases 0 sessions.now) }
    ensures marked { IfOk result (λ r. All spec.IsMarked r.cases.items) }
{
    let mut all = Vec::new(alloc);
    let mut cases = Vec::new(alloc);
    for (session, log) in sessions.iter().enumerate() {
        let script = log.script.as_str();
        let texts = statement_texts(alloc, script)?;
        let source = Source {
            session,
            script,
            texts: &texts,
        };
        push_cases(&mut cases, source, log.replies.as_slice())?;
        all.push(texts)?;
    }
    Ok(Refused { texts: all, cases })
}
