// Sessions that share a log on one thread.

ghost use Rattle.std.specs.Prelude.{◌≡◌, ◌+◌, [], None, vec_len};

use crate::tests::checks::{has_made, has_place, is};
use crate::tests::puts::{commit, put};
use crate::tests::threads::{Job, Words, Worker, end_all, enrol_all, made};
use ct_arena::{Arena, Blank, KeeperPass, Pass, Site};
use ct_word::{Kind, List};
use std::alloc::Global;
use std::marker::Brand;
use std::process::Abort;
use std::test::Fail;

/// The log after both sessions: the three ends of lists, and the first commit of session 1.
const SHARED: [u64; 6] = [
    0x0a_0000000_0000000,
    0x0b_0000000_0000000,
    0x01_0000000_0000000,
    0x10_0000000_0000000,
    0x1b_0000000_0000000,
    0x1d_0040000_0000004,
];

/// A session sees so many words once it has caught up.
fn sees<N: Site>(rt: &impl Abort, arena: &Arena<N>, pass: &mut Pass<N>, count: usize) {
    pass.catch_up(arena);
    is(rt, pass.words().len() as u64, count as u64);
}

/// Two sessions intern, and each sees what the other put.
fn intern_in_turn<N: Site>(rt: &impl Abort, arena: &Arena<N>, a: &mut Pass<N>, b: &mut Pass<N>) {
    has_place(rt, put(arena, a, Kind::TextEnd, 0, 0), 2);
    has_place(rt, put(arena, b, Kind::TextEnd, 0, 0), 2);
    is(rt, b.made() as u64, 0);
    has_place(rt, put(arena, b, Kind::RowEnd, 0, 0), 3);
    sees(rt, arena, a, 4);
    has_place(rt, put(arena, a, Kind::ChangesEnd, 0, 0), 4);
}

/// A session commits, and its commit stands at this place.
fn commit_at<N: Site>(
    rt: &impl Abort,
    arena: &Arena<N>,
    keeper: &mut KeeperPass<N>,
    pass: Pass<N>,
    place: u32,
) -> Pass<N>
    requires guest { keeper.old.guest ≡ None }
    ensures enrolled { keeper.new.enrolled ≡ keeper.old.enrolled }
    ensures ended { keeper.new.ended ≡ keeper.old.ended }
    ensures guest { keeper.new.guest ≡ None }
{
    let (pass, found) = commit(arena, keeper, pass);
    has_place(rt, found, place);
    pass
}

/// The log has these words.
fn has_words(rt: &impl Abort, words: &List<u64>, wanted: &[u64]) {
    assert_eq!(rt; words.as_slice(), wanted);
}

/// Two sessions intern, one commits, and the other sees it.
fn share<N: Site>(rt: &impl Abort, alloc: Global, blank: Blank) -> Result<(), Fail>
    requires { blank ≡ N.log }
{
    let (arena, mut keeper) = Arena::<N>::make(blank);
    let mut a = keeper.enrol(alloc, &arena)?;
    let mut b = keeper.enrol(alloc, &arena)?;
    intern_in_turn(rt, &arena, &mut a, &mut b);
    let a = commit_at(rt, &arena, &mut keeper, a, 5);
    has_made(rt, &a, 3, 1);
    sees(rt, &arena, &mut b, 6);
    has_made(rt, &b, 1, 0);
    let _ = keeper.end(&arena, a);
    let _ = keeper.end(&arena, b);
    has_words(rt, &keeper.finish(arena).into_words(), &SHARED);
    Ok(())
}

#[test]
fn sessions_see_each_other(rt: HostRuntime) -> Result<(), Fail> {
    let blank = Blank::make(rt.alloc(), 64)?;
    share::<Brand>(&rt, rt.alloc(), blank)
}

/// The log after 1,023 sessions: the end of a list of changes, and the first commits of the first and the last one.
const COMMITTED: [u64; 5] = [
    0x0a_0000000_0000000,
    0x0b_0000000_0000000,
    0x1b_0000000_0000000,
    0x1d_0040000_0000002,
    0x1d_ffc0000_0000002,
];

/// What sessions do that intern nothing.
const NOTHING: Job = Job {
    count: 0,
    words: Words::Own,
};

/// The first and the last session commit, and all are ended.
fn commit_and_close<N: Site>(
    rt: &impl Abort,
    alloc: Global,
    arena: Arena<N>,
    mut keeper: KeeperPass<N>,
    first: Pass<N>,
    others: Vec<Worker<N>>,
    last: Pass<N>,
) -> Result<(), Fail>
    requires guest { keeper.guest ≡ None }
    requires enrolled { keeper.enrolled ≡ vec_len others + 2 }
    requires ended { keeper.ended ≡ [] }
{
    is(rt, first.session() as u64, 1);
    is(rt, last.session() as u64, 1023);
    let first = commit_at(rt, &arena, &mut keeper, first, 3);
    let last = commit_at(rt, &arena, &mut keeper, last, 4);
    has_made(rt, &first, 2, 1);
    has_made(rt, &last, 1, 1);
    let _ = keeper.end(&arena, first);
    let _ = keeper.end(&arena, last);
    let did = end_all(alloc, &arena, &mut keeper, others)?;
    is(rt, made(&did), 0);
    has_words(rt, &keeper.finish(arena).into_words(), &COMMITTED);
    Ok(())
}

/// The first and the last of all sessions commit, with so many between them.
fn commit_two<N: Site>(
    rt: &impl Abort,
    alloc: Global,
    blank: Blank,
    between: u32,
) -> Result<(), Fail>
    requires { blank ≡ N.log }
{
    assert!(rt; between <= 1021);
    let (arena, mut keeper) = Arena::<N>::make(blank);
    let first = keeper.enrol(alloc, &arena)?;
    let others = enrol_all(alloc, &arena, &mut keeper, between, &NOTHING)?;
    let last = keeper.enrol(alloc, &arena)?;
    commit_and_close(rt, alloc, arena, keeper, first, others, last)
}

#[test]
fn two_of_1023_sessions_commit(rt: HostRuntime) -> Result<(), Fail> {
    let blank = Blank::make(rt.alloc(), 64)?;
    commit_two::<Brand>(&rt, rt.alloc(), blank, 1021)
}
