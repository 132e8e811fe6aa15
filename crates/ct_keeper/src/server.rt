// The keeper behind its lock, with the log: what the sessions of a run share.

ghost use Rattle.std.specs.Prelude.{◌≡◌, ◌<◌, ◌≤◌, ◌+◌, ◌^◌, [], length, map, sum_by, All, IfOk, IsErrOf, IsTrue};
ghost use Rattle.std.specs.List.{range_with_len};
ghost use mathlib.Core.List.{IsPrefix};
ghost use Rattle.ct_word.specs.Reading.{commits_of};
ghost use Rattle.ct_word.specs.Value.{World};
ghost use Rattle.ct_word.specs.WellFormed.{IsWellFormed};
ghost use Rattle.ct_arena.specs.Counts.{opening, AreNumbered, AreOfSessions};
ghost use Rattle.ct_arena.specs.Seen.{tally_of};
ghost use Rattle.ct_query.specs.Worlds.{admits};
ghost use Rattle.ct_keeper.specs.declared.error.KeeperError.TheVariants as fault;
ghost use Rattle.ct_keeper.specs.Bounds.{offer_words};
ghost use Rattle.ct_keeper.specs.Catalogue.{IsNewest};
ghost use Rattle.ct_keeper.specs.Offers.{IsOffer};
ghost use Rattle.ct_keeper.specs.Served.{first_pass, IsOutcome};

use crate::catalogue::{Offer, Outcome, Snapshot};
use crate::error::KeeperError;
use crate::keeper::Keeper;
use crate::verdict::outcome_of;
use crossbeam_utils::CachePadded;
use ct_arena::{Arena, Blank, Log, Pass, Site};
use ct_history::changes_at;
use ct_word::Memory;
use std::alloc::Global;
use std::hint::spin_loop;
use std::sync::{Mutex, MutexGuard, Wait};

/// How often a session looks for the lock before it sleeps. It was measured to be held for some microseconds, and to be
/// woken takes many times as long.
const LOOKS: u32 = 1_000;

/// The log that N names, and its keeper behind a lock. Whoever takes the lock finds a keeper whose type holds, and nothing
/// else is known there.
///
/// The lock stands on a cache line of its own: those that look for it take that line from one another, while all sessions
/// read where the log is, and the one that has the lock changes the keeper.
#[derive(Drop)]
pub struct Server<N: Site> {
    arena: Arena<N>,
    keeper: CachePadded<Mutex<CachePadded<Keeper<N>>>>,
}

impl<N: Site> Server<N> {
    /// The server of a log without commits, and the passes of its sessions, in the order of their numbers from 1.
    ///
    /// # Errors
    /// `Memory` where there is none for the keeper, for a pass or for the list of them.
    pub fn make(
        alloc: Global,
        blank: Blank,
        sessions: u32,
    ) -> Result<(Server<N>, Vec<Pass<N>>), Memory>
        requires name { blank ≡ N.log }
        requires number { N.sessions ≡ sessions }
        requires least { 1 ≤ sessions }
        requires most { sessions ≤ 1023 }
        ensures passes { IfOk result (λ r. r.1.items ≡ map first_pass (range_with_len 1 sessions)) }
    {
        let (arena, mut keeper) = Arena::make(blank);
        let mut passes = Vec::with_capacity(alloc, sessions as usize)?;
        for _ in 0..sessions {
            let pass = keeper.enrol(alloc, &arena)?;
            passes.push_reserved(pass);
        }
        let keeper = Keeper::make(alloc, keeper)?;
        let keeper = CachePadded::new(Mutex::new(CachePadded::new(keeper)));
        Ok((Server { arena, keeper }, passes))
    }

    /// The log, for a session's own words.
    pub fn arena(&self) -> &Arena<N> {
        &self.arena
    }

    /// The keeper, once the lock is free. The pass reads on before it asks for the lock, and while others hold it, so that
    /// little is left to be read once the session has it.
    fn locked<R: Wait>(&self, rt: &R, pass: &mut Pass<N>) -> MutexGuard<'_, CachePadded<Keeper<N>>>
        ensures longer { IsPrefix pass.old.words pass.new.words }
        ensures formed { IsWellFormed pass.new.words }
        ensures session { pass.new.session ≡ pass.old.session }
        ensures made { pass.new.made ≡ pass.old.made }
        ensures mine { pass.new.mine ≡ pass.old.mine }
    {
        pass.catch_up(&self.arena);
        for _ in 0..LOOKS {
            if let Some(keeper) = self.keeper.try_lock() {
                return keeper;
            }
            pass.catch_up(&self.arena);
            spin_loop();
        }
        self.keeper.lock(rt)
    }

    /// A snapshot of all commits, for the session of this pass, which then has the words of all of them. It waits for the
    /// lock. What others appended is read before the lock is asked for, and while they hold it.
    ///
    /// # Errors
    /// `Memory` where there is none to share the tables.
    pub fn begin<R: Wait>(
        &self,
        rt: &R,
        alloc: Global,
        mut pass: Pass<N>,
    ) -> (Pass<N>, Result<Snapshot, Memory>)
        ensures snapshot { IfOk result.1 (IsNewest result.0.words) }
        ensures longer { IsPrefix pass.words result.0.words }
        ensures pass { tally_of result.0 ≡ tally_of pass }
    {
        let mut keeper = self.locked(rt, &mut pass);
        keeper.begin(alloc, &self.arena, pass)
    }

    /// Commits an offer of the session of this pass. It waits for the lock. The list of changes is read before the lock is
    /// asked for. What others appended is read then too, and while they hold the lock. A conflict's last writer at the base
    /// is looked for once the lock is free again.
    ///
    /// The outcome is `Nothing` exactly where the offer has no changes; `Conflict` exactly where it has some, and a commit
    /// after its base has changed what it read; else `Committed`: it is then the last commit of the pass's words.
    ///
    /// # Errors
    /// `Full` where the log has no room for a condition of the new tables or for the commit word, `Memory`. Where the
    /// answer is not `Committed`, the session has as many commits as before.
    pub fn commit<R: Wait>(
        &self,
        rt: &R,
        alloc: Global,
        mut pass: Pass<N>,
        offer: &Offer,
    ) -> (Pass<N>, Result<Outcome, KeeperError>)
        requires few { pass.mine < 2 ^ 18 }
        requires offer { IsOffer pass offer.now }
        ensures outcome { IsOutcome N.log.cap pass result.0 offer.now result.1 }
        ensures longer { IsPrefix pass.words result.0.words }
        ensures session { result.0.session ≡ pass.session }
        ensures made { result.0.made ≤ pass.made + offer_words result.0.words pass offer.now }
        ensures fewer { IsErrOf result.1 fault.Full → result.0.made < pass.made + offer_words result.0.words pass offer.now }
    {
        let changes = match changes_at(alloc, pass.words(), offer.changes) {
            Ok(changes) => changes,
            Err(_) => return (pass, Err(KeeperError::Memory)),
        };
        let changes = changes.as_slice();
        let mut keeper = self.locked(rt, &mut pass);
        let (pass, verdict) = keeper.judge(alloc, &self.arena, pass, offer, changes);
        drop(keeper);
        let outcome = outcome_of(verdict, pass.words(), offer.base);
        (pass, outcome)
    }

    /// The whole log, once each session gave its pass back. It takes no memory and waits for nobody.
    pub fn close(self, passes: Vec<Pass<N>>) -> Log
        requires all { length passes.items ≡ N.sessions }
        ensures whole { length result ≡ 2 + sum_by (λ p. p.made) passes.items }
        ensures numbered { All (λ p. AreNumbered p.session p.mine result) passes.items }
        ensures seen { All (λ p. IsPrefix p.words result) passes.items }
        ensures known { AreOfSessions N.sessions result }
        ensures formed { IsWellFormed result }
        ensures room { length result ≤ N.log.cap }
        ensures begins { IsPrefix opening result }
        ensures admitted { (v : World) × IsTrue (admits v (commits_of result) []) }
    {
        let Server { arena, keeper } = self;
        let mut keeper = keeper.into_inner().into_inner().into_inner().into_pass();
        for pass in passes {
            keeper.end(&arena, pass);
        }
        keeper.finish(arena)
    }
}
