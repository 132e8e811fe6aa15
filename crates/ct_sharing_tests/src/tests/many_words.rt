// Many words of one log, for the measurements.

ghost use Rattle.std.specs.Prelude.{◌≡◌, ◌<◌, ◌^◌, None};

use crate::tests::checks::is;
use crate::tests::puts::{commit, put_part};
use crate::tests::threads::{Job, Words, made, run_job};
use ct_arena::{Arena, Blank, KeeperPass, Pass, Site};
use std::alloc::Global;
use std::marker::Brand;
use std::process::Abort;
use std::test::Fail;
use std::thread::Threads;

/// How many parts of numbers there are for a session.
const PARTS: u32 = 0x1000_0000;

/// Interns the parts of numbers from one on up to another one, and answers the first for which there was no room, or else
/// the other one.
#[inline(never)]
fn intern_from<N: Site>(arena: &Arena<N>, pass: &mut Pass<N>, from: u32, end: u32) -> u32 {
    let end = end.min(PARTS);
    for part in from..end {
        if put_part(arena, pass, 0, part).is_err() {
            return part;
        }
    }
    end
}

/// Interns words that are new, and the same words again. All are made by the session.
fn intern_twice<N: Site>(
    rt: &impl Abort,
    alloc: Global,
    blank: Blank,
    count: u32,
) -> Result<(), Fail>
    requires { blank ≡ N.log }
{
    let (arena, mut keeper) = Arena::<N>::make(blank);
    let mut pass = keeper.enrol(alloc, &arena)?;
    for _ in 0..2 {
        is(
            rt,
            intern_from(&arena, &mut pass, 0, count) as u64,
            count as u64,
        );
        is(rt, pass.made() as u64, count as u64);
    }
    Ok(())
}

#[test]
fn new_and_known_words(rt: HostRuntime) -> Result<(), Fail> {
    for count in [10_000, 20_000, 100_000, 200_000] {
        let blank = Blank::make(rt.alloc(), 262_144)?;
        intern_twice::<Brand>(&rt, rt.alloc(), blank, count)?;
    }
    Ok(())
}

/// Commits once others have put words. It stands alone so that its instructions can be counted.
#[inline(never)]
fn commit_late<N: Site>(arena: &Arena<N>, keeper: &mut KeeperPass<N>, pass: Pass<N>) -> Pass<N>
    requires { keeper.old.guest ≡ None }
    ensures { keeper.new.guest ≡ None }
{
    commit(arena, keeper, pass).0
}

/// A session commits in a log with so many words, and again once another one has put more.
fn commit_twice<N: Site>(
    rt: &impl Abort,
    alloc: Global,
    blank: Blank,
    before: u32,
    more: u32,
) -> Result<(), Fail>
    requires { blank ≡ N.log }
{
    let (arena, mut keeper) = Arena::<N>::make(blank);
    let a = keeper.enrol(alloc, &arena)?;
    let mut b = keeper.enrol(alloc, &arena)?;
    is(
        rt,
        intern_from(&arena, &mut b, 0, before) as u64,
        before as u64,
    );
    let (a, place) = commit(&arena, &mut keeper, a);
    assert!(rt; place.is_ok());
    let after = before.saturating_add(more);
    is(
        rt,
        intern_from(&arena, &mut b, before, after) as u64,
        after as u64,
    );
    let a = commit_late(&arena, &mut keeper, a);
    is(rt, a.mine() as u64, 2);
    Ok(())
}

#[test]
fn commits_after_others(rt: HostRuntime) -> Result<(), Fail> {
    for before in [10_000, 100_000] {
        for more in [0, 1_000, 2_000, 10_000, 20_000] {
            let blank = Blank::make(rt.alloc(), 131_072)?;
            commit_twice::<Brand>(&rt, rt.alloc(), blank, before, more)?;
        }
    }
    Ok(())
}

/// So many sessions make 400,000 words in all, as each interns so many of these on a thread of its own.
fn make_all(
    rt: &(impl Threads + Abort + Sync),
    alloc: Global,
    sessions: u32,
    count: u32,
    words: Words,
) -> Result<(), Fail>
    requires some { 0 < sessions }
    requires few { sessions < 5 }
    requires count { count < 2 ^ 28 }
{
    let (did, _) = run_job(rt, alloc, 400_002, sessions, &Job { count, words })?;
    is(rt, made(&did), 400_000);
    Ok(())
}

#[test]
fn one_thread(rt: HostRuntime) -> Result<(), Fail> {
    make_all(&rt, rt.alloc(), 1, 400_000, Words::Own)
}

#[test]
fn two_threads(rt: HostRuntime) -> Result<(), Fail> {
    make_all(&rt, rt.alloc(), 2, 200_000, Words::Own)
}

#[test]
fn four_threads(rt: HostRuntime) -> Result<(), Fail> {
    make_all(&rt, rt.alloc(), 4, 100_000, Words::Own)
}

#[test]
fn four_threads_same(rt: HostRuntime) -> Result<(), Fail> {
    make_all(&rt, rt.alloc(), 4, 400_000, Words::Same)
}
