// The keeper: what all sessions share besides the log.

ghost use Rattle.std.specs.Prelude.{◌≡◌, ◌<◌, ◌≤◌, ◌+◌, ◌^◌, [], length, map, All, IfOk, IfErr, OnOk, None, IsTrue, IsErrOf};
ghost use mathlib.Core.List.{IsPrefix};
ghost use Rattle.ct_word.specs.Reading.{commits_of};
ghost use Rattle.ct_word.specs.Value.{World};
ghost use Rattle.ct_word.specs.WellFormed.{IsWellFormed};
ghost use Rattle.ct_arena.specs.Seen.{tally_of};
ghost use Rattle.ct_history.specs.Written.{IsWritten, plain_written};
ghost use Rattle.ct_query.specs.Worlds.{admits};
ghost use Rattle.ct_keeper.specs.declared.error.KeeperError.TheVariants as fault;
ghost use Rattle.ct_keeper.specs.Bounds.{offer_words};
ghost use Rattle.ct_keeper.specs.Catalogue.{HasOwn, Stays, IsNewest};
ghost use Rattle.ct_keeper.specs.Conflicting.{told_or};
ghost use Rattle.ct_keeper.specs.Offers.{IsOffer, BecomesOf, changes_in};

use crate::catalogue::{Offer, Outcome, Snapshot};
use crate::error::KeeperError;
use crate::latest::Latest;
use crate::offering::verdict_on;
use crate::verdict::{Verdict, outcome_of};
use ct_arena::{Arena, KeeperPass, Pass, Site};
use ct_history::{Written, changes_at};
use ct_word::Memory;
use std::alloc::Global;
use std::marker::Model;

/// The tables after all commits of the log that N names, the place of the global condition, a world that the commits
/// admit, and the log's keeper pass. All sessions of the site were enrolled and none was ended, and no guest is entered.
#[derive(Drop)]
pub struct Keeper<N: Site> {
    pub(crate) pass: KeeperPass<N>,
    pub(crate) latest: Latest,
}

impl<N: Site> Model for Keeper<N> {
    ghost use Rattle.std.specs.Prelude.{◌≡◌, [], None};
    ghost use Rattle.ct_keeper.specs.Catalogue.{Catalogue};
    ghost use Rattle.ct_keeper.specs.Latest.{IsLatest, catalogue_of};

    ghost Value = { Catalogue };

    ghost view = { λ k. catalogue_of k.pass k.latest };

    ghost invariant = { λ k. (k.pass.guest ≡ None) × (k.pass.enrolled ≡ N.sessions) × (k.pass.ended ≡ []) × IsLatest k.pass.words k.latest };
}

impl<N: Site> Keeper<N> {
    /// The keeper of a log without commits, once all sessions of the site were enrolled.
    ///
    /// # Errors
    /// `Memory` where there is none for the kept world.
    pub fn make(alloc: Global, pass: KeeperPass<N>) -> Result<Keeper<N>, Memory>
        requires none { commits_of pass.words ≡ [] }
        requires guest { pass.guest ≡ None }
        requires enrolled { pass.enrolled ≡ N.sessions }
        requires ended { pass.ended ≡ [] }
        ensures words { IfOk result (λ k. k.words ≡ pass.words) }
    {
        // A log without commits begins with the word true, which is its global condition.
        let _ = pass.words();
        let latest = Latest::first(alloc)?;
        Ok(Keeper { pass, latest })
    }

    /// The log's keeper pass, with the keeper's words. It takes no memory. Some valuation is admitted by the commits in
    /// them.
    pub fn into_pass(self) -> KeeperPass<N>
        ensures words { result.words ≡ self.words }
        ensures ended { result.ended ≡ [] }
        ensures guest { result.guest ≡ None }
        ensures enrolled { result.enrolled ≡ N.sessions }
        ensures admitted { IsTrue (admits self.kept (commits_of result.words) []) }
    {
        self.pass
    }

    /// Has the session of this pass and the keeper read what the other knows.
    fn meet(&mut self, arena: &Arena<N>, pass: Pass<N>) -> Pass<N>
        ensures words { result.words ≡ self.new.words }
        ensures formed { IsWellFormed result.words }
        ensures longer { IsPrefix pass.words result.words }
        ensures known { IsPrefix (commits_of pass.words) (commits_of self.old.words) }
        ensures pass { tally_of result ≡ tally_of pass }
        ensures stays { Stays self.old self.new }
    {
        let guest = self.pass.enter(arena, pass);
        // The words are well formed, which keeps the tables as words come.
        let _ = self.pass.words();
        self.pass.leave(arena, guest)
    }

    /// A snapshot of all commits, for the session of this pass, which then has all words that the keeper has. It has the
    /// keeper's own tables, global condition and kept world.
    ///
    /// # Errors
    /// `Memory` where there is none to share the tables. The keeper is as it was.
    pub fn begin(
        &mut self,
        alloc: Global,
        arena: &Arena<N>,
        pass: Pass<N>,
    ) -> (Pass<N>, Result<Snapshot, Memory>)
        ensures snapshot { IfOk result.1 (IsNewest result.0.words) }
        ensures own { IfOk result.1 (HasOwn self.old.tables self.old.global self.old.kept) }
        ensures words { result.0.words ≡ self.new.words }
        ensures longer { IsPrefix pass.words result.0.words }
        ensures pass { tally_of result.0 ≡ tally_of pass }
        ensures stays { Stays self.old self.new }
    {
        let pass = self.meet(arena, pass);
        let snapshot = self.latest.snapshot(alloc);
        (pass, snapshot)
    }

    /// What becomes of an offer of the session of this pass, which then has all words that the keeper has. These are the
    /// changes of its list. Of a conflict the last writer at the base is left for the caller to look for.
    ///
    /// # Errors
    /// As of `commit`.
    pub(crate) fn judge(
        &mut self,
        alloc: Global,
        arena: &Arena<N>,
        pass: Pass<N>,
        offer: &Offer,
        changes: &[Written],
    ) -> (Pass<N>, Result<Verdict, KeeperError>)
        requires few { pass.mine < 2 ^ 18 }
        requires offer { IsOffer pass offer.now }
        requires written { All (IsWritten pass.words) changes.now }
        requires changes { map (plain_written pass.words) changes.now ≡ changes_in pass.words offer.now }
        ensures verdict { BecomesOf N.log.cap self.old self.new pass result.0 offer.now (told_or (commits_of self.old.words) offer.now.base result.1) }
        ensures words { result.0.words ≡ self.new.words }
        ensures longer { IsPrefix pass.words result.0.words }
        ensures known { IsPrefix (commits_of pass.words) (commits_of self.old.words) }
        ensures session { result.0.session ≡ pass.session }
        ensures made { result.0.made ≤ pass.made + offer_words self.old.words pass offer.now }
        ensures fewer { IsErrOf result.1 fault.Full → result.0.made < pass.made + offer_words self.old.words pass offer.now }
    {
        let mut guest = self.pass.enter(arena, pass);
        // The words are well formed, which keeps what stands as words come.
        let _ = self.pass.words();
        let verdict = verdict_on(
            alloc,
            arena,
            &mut self.pass,
            &mut guest,
            &mut self.latest,
            offer,
            changes,
        );
        let pass = self.pass.leave(arena, guest);
        (pass, verdict)
    }

    /// Commits an offer of the session of this pass, which then has all words that the keeper has.
    ///
    /// The outcome is `Nothing` exactly where the offer has no changes; `Conflict` exactly where it has some, and a
    /// commit after its base has changed what it read; else `Committed`, at the number of the new commit.
    ///
    /// The words that are made are counted to the session: at most those of the commit and of applying its changes to
    /// tables with as many rows as were ever made, and fewer where the log was full.
    ///
    /// # Errors
    /// `Full` where the log has no room for a condition of the new tables or for the commit word, `Memory`. Where the
    /// answer is not `Committed`, commits, tables, global condition and kept world are as they were.
    pub fn commit(
        &mut self,
        alloc: Global,
        arena: &Arena<N>,
        pass: Pass<N>,
        offer: &Offer,
    ) -> (Pass<N>, Result<Outcome, KeeperError>)
        requires few { pass.mine < 2 ^ 18 }
        requires offer { IsOffer pass offer.now }
        ensures outcome { BecomesOf N.log.cap self.old self.new pass result.0 offer.now result.1 }
        ensures words { result.0.words ≡ self.new.words }
        ensures longer { IsPrefix pass.words result.0.words }
        ensures known { IsPrefix (commits_of pass.words) (commits_of self.old.words) }
        ensures session { result.0.session ≡ pass.session }
        ensures made { result.0.made ≤ pass.made + offer_words self.old.words pass offer.now }
        ensures fewer { IsErrOf result.1 fault.Full → result.0.made < pass.made + offer_words self.old.words pass offer.now }
    {
        let changes = match changes_at(alloc, pass.words(), offer.changes) {
            Ok(changes) => changes,
            Err(_) => return (self.meet(arena, pass), Err(KeeperError::Memory)),
        };
        let (pass, verdict) = self.judge(alloc, arena, pass, offer, changes.as_slice());
        let outcome = outcome_of(verdict, pass.words(), offer.base);
        (pass, outcome)
    }
}
