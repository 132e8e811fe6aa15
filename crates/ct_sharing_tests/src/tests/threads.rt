// Sessions that intern on threads of their own.

ghost use Rattle.std.specs.Prelude.{◌≡◌, ◌<◌, ◌≤◌, ◌+◌, ◌^◌, None, IfOk, OnOk, IsTrue, length, vec_len};
ghost use Rattle.ct_word.specs.declared.kinds.Class.TheVariants as class;
ghost use Rattle.ct_word.specs.WellFormed.{is_place_of};

use crate::tests::checks::{is, no_word_twice, stands};
use crate::tests::puts::{put, put_part};
use ct_arena::{Arena, Blank, Full, KeeperPass, Pass, Site};
use ct_word::{Kind, List};
use std::alloc::Global;
use std::marker::Brand;
use std::process::Abort;
use std::test::Fail;
use std::thread;
use std::thread::Threads;

/// What sessions intern.
#[derive(Drop)]
pub enum Words {
    /// The end of a text and 39 characters on it, the same for each session.
    Text,
    /// Parts of numbers, the same for each session.
    Same,
    /// Parts of numbers, others for each session.
    Own,
}

/// How many words each session interns, and which.
#[derive(Drop)]
pub struct Job {
    pub count: u32,
    pub words: Words,
    ghost few: { count < 2 ^ 28 },
}

/// A session on a thread of its own, and what it was answered: the place of each of its words, as far as there was room.
#[derive(Drop)]
pub struct Worker<N: Site> {
    pub pass: Pass<N>,
    pub places: Vec<u32>,
    /// How many words it had seen as it was told that the log is full, or 0.
    pub full_at: usize,
}

/// The word that a session takes at its k-th turn. Each number below the count has one turn: upwards or downwards, from
/// the end or from within.
fn turn(session: u32, k: u32, count: u32) -> u32
    requires turn { k < count }
    requires few { count < 2 ^ 28 }
    ensures { result < count }
{
    let part = count / 3;
    match session {
        1 => k,
        2 => count - 1 - k,
        3 => (k + part) % count,
        _ => (count - 1 - k + part) % count,
    }
}

/// Keeps the answer to the n-th word.
fn keep(places: &mut [u32], n: u32, place: u32) {
    if let Some(answer) = places.get_mut(n as usize) {
        *answer = place;
    }
}

impl<N: Site> Worker<N> {
    /// Interns the words of a job, each in its turn, until the log is full.
    pub fn intern_parts(&mut self, arena: &Arena<N>, job: &Job) {
        let session = self.pass.session();
        let owner = if matches!(job.words, Words::Own) {
            session
        } else {
            0
        };
        let upper = owner % 1024;
        for k in 0..job.count {
            let n = turn(session, k, job.count);
            let Ok(place) = put_part(arena, &mut self.pass, upper, n) else {
                self.full_at = self.pass.words().len();
                return;
            };
            keep(&mut self.places, n, place);
        }
    }

    /// Interns the n-th character on the end of a text, which stays at its place.
    #[tactic(auto, using(ct_word::proofs::Prefixes::place_in_prefix))]
    fn intern_character(&mut self, arena: &Arena<N>, end: u32, n: u32) -> Result<(), Full>
        requires place { IsTrue (is_place_of self.old.pass.words class.Text end) }
        requires small { end < 2 ^ 28 }
        ensures { IsTrue (is_place_of self.new.pass.words class.Text end) }
    {
        let place = put(arena, &mut self.pass, Kind::TextCharacter, end, n % 128)?;
        keep(&mut self.places, n, place);
        Ok(())
    }

    /// Interns the end of a text, and then so many characters on it, each in its turn.
    fn intern_text(&mut self, arena: &Arena<N>, job: &Job) -> Result<(), Full> {
        let session = self.pass.session();
        let end = put(arena, &mut self.pass, Kind::TextEnd, 0, 0)?;
        for k in 0..job.count {
            self.intern_character(arena, end, turn(session, k, job.count))?;
        }
        Ok(())
    }

    fn intern(&mut self, arena: &Arena<N>, job: &Job) {
        match job.words {
            Words::Text => {
                let _ = self.intern_text(arena, job);
            }
            _ => self.intern_parts(arena, job),
        }
    }
}

/// Enrols so many sessions, each with a place for each word of a job.
pub fn enrol_all<N: Site>(
    alloc: Global,
    arena: &Arena<N>,
    keeper: &mut KeeperPass<N>,
    count: u32,
    job: &Job,
) -> Result<Vec<Worker<N>>, Fail>
    requires guest { keeper.old.guest ≡ None }
    requires number { keeper.old.enrolled + count ≤ 1023 }
    ensures count { IfOk result (λ workers. vec_len workers ≡ count) }
    ensures enrolled { OnOk result (keeper.new.enrolled ≡ keeper.old.enrolled + count) }
    ensures ended { keeper.new.ended ≡ keeper.old.ended }
    ensures guest { keeper.new.guest ≡ None }
{
    let mut workers = Vec::new(alloc);
    for _ in 0..count {
        let places = vec![in alloc; 0; job.count as usize]?;
        let pass = keeper.enrol(alloc, arena)?;
        workers.push(Worker {
            pass,
            places,
            full_at: 0,
        })?;
    }
    Ok(workers)
}

/// What a session did, once all threads are joined.
#[derive(Drop)]
pub struct Did {
    pub session: u32,
    pub made: u32,
    pub places: Vec<u32>,
    pub full_at: usize,
}

fn end<N: Site>(arena: &Arena<N>, keeper: &mut KeeperPass<N>, worker: Worker<N>) -> Did
    requires { keeper.old.guest ≡ None }
    ensures guest { keeper.new.guest ≡ None }
    ensures enrolled { keeper.new.enrolled ≡ keeper.old.enrolled }
    ensures ended { length keeper.new.ended ≡ length keeper.old.ended + 1 }
{
    let Worker {
        pass,
        places,
        full_at,
    } = worker;
    let ended = keeper.end(arena, pass);
    Did {
        session: ended.session,
        made: ended.made,
        places,
        full_at,
    }
}

/// Ends these sessions. Answers what each did.
pub fn end_all<N: Site>(
    alloc: Global,
    arena: &Arena<N>,
    keeper: &mut KeeperPass<N>,
    mut workers: Vec<Worker<N>>,
) -> Result<Vec<Did>, Fail>
    requires guest { keeper.old.guest ≡ None }
    ensures enrolled { keeper.new.enrolled ≡ keeper.old.enrolled }
    ensures ended { OnOk result (length keeper.new.ended ≡ length keeper.old.ended + vec_len workers) }
    ensures guest { keeper.new.guest ≡ None }
{
    let mut all = Vec::new(alloc);
    while let Some(worker) = workers.pop() {
        all.push(end(arena, keeper, worker))?;
    }
    Ok(all)
}

/// Each session does the job, on a thread of its own.
pub fn run_all<N: Site + Send + Sync>(
    rt: &(impl Threads + Sync),
    arena: &Arena<N>,
    mut workers: Vec<Worker<N>>,
    job: &Job,
) -> Vec<Worker<N>>
    requires { 0 < vec_len workers }
    ensures { vec_len result ≡ vec_len workers }
{
    let threads = workers.len();
    let run = |_: usize, worker: &mut Worker<N>| {
        worker.intern(arena, job);
    };
    thread::for_each_mut(rt, &mut workers, threads, &run);
    workers
}

/// So many sessions do a job on threads of their own. Answers what each did, and the log.
fn by_threads<N: Site + Send + Sync>(
    rt: &(impl Threads + Sync),
    alloc: Global,
    blank: Blank,
    count: u32,
    job: &Job,
) -> Result<(Vec<Did>, List<u64>), Fail>
    requires name { blank ≡ N.log }
    requires some { 0 < count }
    requires few { count < 5 }
{
    let (arena, mut keeper) = Arena::<N>::make(blank);
    let workers = enrol_all(alloc, &arena, &mut keeper, count, job)?;
    let workers = run_all(rt, &arena, workers, job);
    let did = end_all(alloc, &arena, &mut keeper, workers)?;
    Ok((did, keeper.finish(arena).into_words()))
}

/// The same on a log of this capacity. Nothing is said of the answer, which keeps the tests short to prove.
pub fn run_job(
    rt: &(impl Threads + Sync),
    alloc: Global,
    cap: u32,
    count: u32,
    job: &Job,
) -> Result<(Vec<Did>, List<u64>), Fail>
    requires least { 64 ≤ cap }
    requires most { cap ≤ 4194304 }
    requires some { 0 < count }
    requires few { count < 5 }
{
    let blank = Blank::make(alloc, cap)?;
    by_threads::<Brand>(rt, alloc, blank, count, job)
}

/// The sum of the words that sessions made.
pub fn made(did: &[Did]) -> u64 {
    let mut sum = 0u64;
    for each in did {
        sum = sum.saturating_add(each.made as u64);
    }
    sum
}

/// The first of the words of a session. Each of the others is by one more than the word before it.
fn first_word(words: &Words, session: u32) -> u64 {
    match words {
        Words::Text => 0x02_0000002_0000000,
        Words::Same => 0x03_0000000_0000000,
        Words::Own => 0x03_0000000_0000000 ^ ((session as u64) << 28),
    }
}

/// Each word of a session, of which this is the first, stands in the log, at the place that it was answered.
fn has_all(rt: &impl Abort, words: &[u64], places: &[u32], first: u64) {
    let mut w = first;
    for place in places {
        assert!(rt; stands(words, *place, w));
        w = w.wrapping_add(1);
    }
}

/// Each session was told that the log is full once it had seen so many words. Where it is never full, each has all words
/// of the job, and made them if they are its own.
pub fn have_done(rt: &impl Abort, words: &[u64], did: &[Did], job: &Job, full_at: usize) {
    for each in did {
        is(rt, each.full_at as u64, full_at as u64);
        if full_at == 0 {
            has_all(
                rt,
                words,
                &each.places,
                first_word(&job.words, each.session),
            );
            assert!(rt; each.made == job.count || !matches!(job.words, Words::Own));
        }
    }
}

/// Four sessions do a job on a log of this capacity. It has so many words in the end, none of them twice, and the sessions
/// made all but the first two.
fn four_do(
    rt: &(impl Threads + Abort + Sync),
    alloc: Global,
    cap: u32,
    job: &Job,
    count: u32,
    full_at: usize,
) -> Result<(), Fail>
    requires least { 64 ≤ cap }
    requires most { cap ≤ 4194304 }
{
    let (did, words) = run_job(rt, alloc, cap, 4, job)?;
    is(rt, words.as_slice().len() as u64, count as u64);
    is(rt, made(&did), (count as u64).saturating_sub(2));
    have_done(rt, words.as_slice(), &did, job, full_at);
    if matches!(job.words, Words::Text) {
        assert!(rt; stands(words.as_slice(), 2, 0x01_0000000_0000000));
    }
    no_word_twice(rt, alloc, words.as_slice())
}

/// The end of a text and 39 characters on it, the same words and words of their own, and more words than the log has room
/// for: each session is told that it is full, and none before it is.
#[test]
fn threads_intern_at_once(rt: HostRuntime) -> Result<(), Fail> {
    let text = Job {
        count: 39,
        words: Words::Text,
    };
    let same = Job {
        count: 2000,
        words: Words::Same,
    };
    let own = Job {
        count: 2000,
        words: Words::Own,
    };
    let many = Job {
        count: 100,
        words: Words::Own,
    };
    four_do(&rt, rt.alloc(), 64, &text, 42, 0)?;
    four_do(&rt, rt.alloc(), 4000, &same, 2002, 0)?;
    four_do(&rt, rt.alloc(), 8192, &own, 8002, 0)?;
    four_do(&rt, rt.alloc(), 64, &many, 64, 64)
}
