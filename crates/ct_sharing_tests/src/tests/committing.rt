// Three sessions that intern on threads of their own while the keeper commits on a fourth.

ghost use Rattle.std.specs.Prelude.{◌≡◌, ◌<◌, None, vec_len};

use crate::tests::checks::{is, no_word_twice, place_of};
use crate::tests::puts::commit;
use crate::tests::threads::{
    Did, Job, Words, Worker, end_all, enrol_all, have_done, made, run_all,
};
use ct_arena::{Arena, Blank, KeeperPass, Pass, Site};
use ct_word::List;
use std::alloc::Global;
use std::marker::Brand;
use std::process::Abort;
use std::test::Fail;
use std::thread;
use std::thread::Threads;

/// How often the fourth session is entered, commits and is left.
const COMMITS: u32 = 200;

/// The session is entered, commits a change list without changes, and is left, so often.
fn commit_often<N: Site>(
    arena: &Arena<N>,
    mut keeper: KeeperPass<N>,
    mut pass: Pass<N>,
) -> (KeeperPass<N>, Pass<N>)
    requires guest { keeper.guest ≡ None }
    ensures enrolled { result.0.enrolled ≡ keeper.enrolled }
    ensures ended { result.0.ended ≡ keeper.ended }
    ensures guest { result.0.guest ≡ None }
{
    for _ in 0..COMMITS {
        pass = commit(arena, &mut keeper, pass).0;
    }
    (keeper, pass)
}

/// Three sessions do a job on threads of their own, and a fourth commits. Answers what the three did, how many words the
/// fourth made, and the log.
fn beside_commits<N: Site + Send + Sync>(
    rt: &(impl Threads + Sync),
    alloc: Global,
    blank: Blank,
    job: &Job,
) -> Result<(Vec<Did>, u32, List<u64>), Fail>
    requires { blank ≡ N.log }
{
    let (arena, mut keeper) = Arena::<N>::make(blank);
    let workers = enrol_all(alloc, &arena, &mut keeper, 3, job)?;
    let pass = keeper.enrol(alloc, &arena)?;
    let (workers, (mut keeper, pass)) = thread::join(
        rt,
        ||
            requires { 0 < vec_len workers }
        { run_all(rt, &arena, workers, job) },
        || commit_often(&arena, keeper, pass),
    );
    let did = end_all(alloc, &arena, &mut keeper, workers)?;
    let fourth = keeper.end(&arena, pass);
    Ok((did, fourth.made, keeper.finish(arena).into_words()))
}

/// The log has each commit of session 4.
fn has_commits(rt: &impl Abort, words: &[u64]) {
    let changes = place_of(words, 0x1b_0000000_0000000).unwrap_or(0);
    for n in 0..COMMITS {
        let w = 0x1d_0100000_0000000 ^ ((n as u64) << 28) ^ changes as u64;
        assert!(rt; place_of(words, w).is_some());
    }
}

/// Three sessions intern 2,000 words each, and the fourth makes its commits and their change list.
fn intern_beside_commits<N: Site + Send + Sync>(
    rt: &(impl Threads + Abort + Sync),
    alloc: Global,
    blank: Blank,
) -> Result<(), Fail>
    requires { blank ≡ N.log }
{
    let job = Job {
        count: 2000,
        words: Words::Own,
    };
    let (did, fourth, words) = beside_commits::<N>(rt, alloc, blank, &job)?;
    is(rt, words.as_slice().len() as u64, 6203);
    no_word_twice(rt, alloc, words.as_slice())?;
    is(rt, made(&did), 6000);
    is(rt, fourth as u64, 201);
    have_done(rt, words.as_slice(), &did, &job, 0);
    has_commits(rt, words.as_slice());
    Ok(())
}

#[test]
fn threads_intern_beside_commits(rt: HostRuntime) -> Result<(), Fail> {
    let blank = Blank::make(rt.alloc(), 8192)?;
    intern_beside_commits::<Brand>(&rt, rt.alloc(), blank)
}
