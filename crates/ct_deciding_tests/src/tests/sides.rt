// Questions that workers decide side by side.

ghost use Rattle.std.specs.Prelude.{◌≤◌};
ghost use Rattle.ct_word.specs.WellFormed.{IsWellFormed};

use crate::tests::decision::passes;
use crate::tests::drafts::Draft;
use crate::tests::questions::{can_hold, shows};
use ct_decide::{DecideError, Decision};
use ct_samples::{are_places, between, is_head, log, no_columns, pick};
use ct_word::{Class, Kind, List};
use ct_workers::{NoWorkGate, WorkGate, decide_all};
use std::alloc::{AllocError, Global};
use std::process::Abort;
use std::sync::atomic::{AtomicBool, AtomicU64, Ordering};
use std::test::Fail;
use std::thread;
use std::thread::Threads;

/// The decisions of these roots, where they are conditions of a log without columns.
fn all_decided<R: Threads + Sync, G: WorkGate + Sync>(
    rt: &R,
    alloc: Global,
    words: &[u64],
    roots: &[u32],
    workers: u32,
    gate: &G,
) -> Result<Option<List<Decision>>, DecideError>
    requires { IsWellFormed words.now }
{
    if words.len() > 100_000 || !are_places(words, Class::Cond, roots) || !no_columns(words) {
        return Ok(None);
    }
    if workers == 0 || workers > 16 {
        return Ok(None);
    }
    Ok(Some(decide_all(rt, alloc, words, roots, workers, gate)?))
}

/// Whether a decision is right for a root, and the same answer as `decide` gives.
fn is_right(alloc: Global, words: &[u64], root: u32, decision: &Decision) -> Result<bool, Fail>
    requires { IsWellFormed words.now }
{
    let can = can_hold(alloc, words, root)?;
    match decision {
        Decision::World(world) => Ok(can && shows(alloc, words, root, world)?),
        Decision::Refuted(derivation) => Ok(!can && passes(alloc, words, root, derivation)?),
    }
}

/// Whether there is a right decision for each root. With that comes how many of the roots can hold.
fn are_right(
    alloc: Global,
    words: &[u64],
    roots: &[u32],
    decisions: &[Decision],
) -> Result<Option<u32>, Fail>
    requires { IsWellFormed words.now }
{
    let mut found: u32 = 0;
    for (root, decision) in roots.iter().zip(decisions) {
        if !is_right(alloc, words, *root, decision)? {
            return Ok(None);
        }
        if matches!(decision, Decision::World(_)) {
            found = found.wrapping_add(1);
        }
    }
    Ok(if roots.len() == decisions.len() {
        Some(found)
    } else {
        None
    })
}

/// So many roots over up to twelve terms, made by chance. Most are an assertion and a condition of their own. Others are such a
/// condition alone, the root before once more, or the word true.
fn roots(
    alloc: Global,
    state: &mut u64,
    draft: &mut Draft,
    count: u32,
) -> Result<Vec<u32>, AllocError> {
    let clauses = between(state, 0, 6);
    let assertion = draft.clauses(state, clauses)?;
    let mut roots = Vec::new(alloc);
    let mut root = 0;
    for _ in 0..count {
        let clauses = between(state, 1, 4);
        match pick(state, 8) {
            0 => root = 0,
            1 => {}
            2 => root = draft.clauses(state, clauses)?,
            _ => {
                let own = draft.clauses(state, clauses)?;
                root = draft.both(assertion, own)?;
            }
        }
        roots.push(root)?;
    }
    Ok(roots)
}

/// How many of these roots can hold, by so many workers.
fn count_held<R: Threads + Sync>(
    rt: &R,
    alloc: Global,
    draft: &Draft,
    roots: &[u32],
    workers: u32,
) -> Result<u32, Fail> {
    let words = log(alloc, draft.parts.as_slice())?;
    if words.len() != draft.parts.len() {
        return Err(Fail::new("words that are not formed"));
    }
    let words = words.as_slice();
    let Some(decisions) = all_decided(rt, alloc, words, roots, workers, &NoWorkGate)? else {
        return Err(Fail::new("no questions"));
    };
    match are_right(alloc, words, roots, decisions.as_slice())? {
        Some(found) => Ok(found),
        None => Err(Fail::new("a wrong decision, or too few")),
    }
}

/// How many roots of so many lists can hold, and how many there are.
fn count_lists<R: Threads + Sync>(rt: &R, alloc: Global, lists: u32) -> Result<(u32, u32), Fail> {
    let mut state = 5;
    let mut found: u32 = 0;
    let mut asked: u32 = 0;
    for number in 0..lists {
        let nulls = between(&mut state, 1, 6);
        let numbers = between(&mut state, 0, 3);
        let mut draft = Draft::make(alloc, nulls, numbers)?;
        let count = if is_head(&mut state) { 40 } else { number % 20 };
        let roots = roots(alloc, &mut state, &mut draft, count)?;
        let workers = number % 16 + 1;
        let held = count_held(rt, alloc, &draft, roots.as_slice(), workers)?;
        found = found.wrapping_add(held);
        asked = asked.wrapping_add(count);
    }
    Ok((found, asked))
}

#[test]
fn workers_decide_as_one_does(rt: HostRuntime) -> Result<(), Fail> {
    let (found, asked) = count_lists(&rt, rt.alloc(), 500)?;
    // Of both kinds there are many.
    assert!(rt;
        2_000 < found && found.wrapping_add(1_000) < asked,
        "{found} of {asked}"
    );
    Ok(())
}

/// `true`, `false`, and `?1#1 = ?1#2` at place 4, which does not hold at place 5.
const SMALL: [(Kind, u32, u32); 6] = [
    (Kind::True, 0, 0),
    (Kind::False, 0, 0),
    (Kind::FreshNull, 1, 1),
    (Kind::FreshNull, 1, 2),
    (Kind::Equal, 2, 3),
    (Kind::Not, 4, 0),
];

/// How many of these roots over the small log can hold, by so many workers and under this gate.
fn count_small<R: Threads + Sync, G: WorkGate + Sync>(
    rt: &R,
    alloc: Global,
    roots: &[u32],
    workers: u32,
    gate: &G,
) -> Result<Option<u32>, Fail> {
    let words = log(alloc, &SMALL)?;
    let words = words.as_slice();
    match all_decided(rt, alloc, words, roots, workers, gate)? {
        Some(decisions) => are_right(alloc, words, roots, decisions.as_slice()),
        None => Err(Fail::new("no questions")),
    }
}

/// Roots over the small log, and how many of them can hold.
const LISTS: [(&[u32], u32); 6] = [
    (&[], 0),
    (&[4], 1),
    (&[1], 0),
    (&[0, 1, 4, 5], 3),
    (&[5, 5, 5, 5, 5], 5),
    (&[1, 1, 4, 4, 0, 0, 5, 5, 1, 1, 4, 4, 0, 0, 5, 5, 1, 1], 12),
];

/// For each number of workers the roots are decided.
fn decide_small(rt: &(impl Threads + Abort + Sync), alloc: Global) -> Result<(), Fail> {
    for (roots, held) in LISTS {
        for workers in 1..17u32 {
            let found = count_small(rt, alloc, roots, workers, &NoWorkGate)?;
            assert_eq!(rt; found, Some(held), "{workers} workers");
        }
    }
    Ok(())
}

#[test]
fn no_root_one_root_and_equal_ones(rt: HostRuntime) -> Result<(), Fail> {
    decide_small(&rt, rt.alloc())
}

/// Has two questions meet: before each is decided it waits until the other one is about to be, or misses it.
#[derive(Drop)]
struct Meeting {
    first: AtomicBool,
    second: AtomicBool,
    missed: AtomicBool,
}

impl WorkGate for Meeting {
    fn before(&self, question: u32) {
        let (own, other) = if question == 0 {
            (&self.first, &self.second)
        } else {
            (&self.second, &self.first)
        };
        own.store(true, Ordering::SeqCst);
        for _ in 0..50_000_000u64 {
            if other.load(Ordering::SeqCst) {
                return;
            }
            thread::yield_now();
        }
        self.missed.store(true, Ordering::SeqCst);
    }

    fn after(&self, _: u32) {}
}

/// Two workers decide two questions that meet.
fn decide_together(rt: &(impl Threads + Abort + Sync), alloc: Global) -> Result<(), Fail> {
    let gate = Meeting {
        first: AtomicBool::new(false),
        second: AtomicBool::new(false),
        missed: AtomicBool::new(false),
    };
    let found = count_small(rt, alloc, &[4, 5], 2, &gate)?;
    assert_eq!(rt; found, Some(2));
    assert!(rt; gate.first.load(Ordering::SeqCst) && gate.second.load(Ordering::SeqCst));
    assert!(rt; !gate.missed.load(Ordering::SeqCst));
    Ok(())
}

#[test]
fn two_questions_are_decided_at_once(rt: HostRuntime) -> Result<(), Fail> {
    decide_together(&rt, rt.alloc())
}

/// Counts how often it is told of each question: the sum of the powers of eight whose exponents are the numbers it was told.
#[derive(Drop)]
struct Counting {
    begun: AtomicU64,
    ended: AtomicU64,
}

impl WorkGate for Counting {
    fn before(&self, question: u32) {
        self.begun
            .fetch_add(8u64.wrapping_pow(question), Ordering::SeqCst);
    }

    fn after(&self, question: u32) {
        self.ended
            .fetch_add(8u64.wrapping_pow(question), Ordering::SeqCst);
    }
}

/// For each number of workers the gate is told once of each of eighteen questions.
fn count_told(rt: &(impl Threads + Abort + Sync), alloc: Global) -> Result<(), Fail> {
    let (roots, held) = LISTS[5];
    for workers in 1..17u32 {
        let gate = Counting {
            begun: AtomicU64::new(0),
            ended: AtomicU64::new(0),
        };
        let found = count_small(rt, alloc, roots, workers, &gate)?;
        assert_eq!(rt; found, Some(held), "{workers} workers");
        assert_eq!(rt;
            gate.begun.load(Ordering::SeqCst),
            0o111_111_111_111_111_111
        );
        assert_eq!(rt;
            gate.ended.load(Ordering::SeqCst),
            0o111_111_111_111_111_111
        );
    }
    Ok(())
}

#[test]
fn a_gate_is_told_of_each_question_once(rt: HostRuntime) -> Result<(), Fail> {
    count_told(&rt, rt.alloc())
}
