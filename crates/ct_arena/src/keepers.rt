// The keeper's pass: sessions are enrolled and ended by it, and commit through it.

ghost use Rattle.std.specs.Prelude.{◌≡◌, ◌+◌, ◌<◌, ◌≤◌, ◌^◌, ◌↔◌, ◌⊎◌, [], ◌∷◌, ◌++◌, length, All, sum_by, IfOk, OnOk, OnErr, IsErr, IsOk, IsTrue, Some, None, slice_get, Contains, IfSome, vec_capacity};
ghost use mathlib.Core.List.{IsPrefix};
ghost use Rattle.ct_word.specs.WellFormed.{IsWellFormed, is_plain_word, is_place_of};
ghost use Rattle.ct_word.specs.Reading.{commits_of};
ghost use Rattle.ct_arena.specs.Counts.{opening, commit_word, commit_of, numbers_by, AreNumbered, AreOfSessions};
ghost use Rattle.ct_arena.specs.Kept.{IsNamed};
ghost use Rattle.ct_arena.specs.Sharing.{first_view};
ghost use Rattle.ct_arena.specs.Seen.{CountsWord, StandsLast, tally_of, pass_of};
ghost use Rattle.ct_word.specs.declared.kinds.Class.TheVariants as class;
ghost use Rattle.std.specs.List.{range_with_len};

use crate::arenas::Arena;
use crate::following::{put, read_rest};
use crate::full::Full;
use crate::lists::{follow, note, take_longer};
use crate::logs::Log;
use crate::passes::Pass;
use crate::sharing::{Token, enrol_seat, lay_by, leave_seat, take_in};
use crate::sites::Site;
use crate::tally::Tally;
use ct_chain::Chain;
use ct_word::{Kind, Memory, pack};
use std::alloc::Global;
use std::marker::{Model, PhantomData};

/// How many numbers the commits of one session have.
const COMMITS_OF_SESSION: u32 = 0x4_0000;

/// What a session did to the log until it was ended.
#[derive(Clone, Copy, Debug, PartialEq, Eq)]
pub struct Ended {
    pub session: u32,
    pub made: u32,
    pub commits: u32,
}

/// A session's pass while it is entered at the keeper, without its list, which the keeper has then.
#[derive(Drop)]
pub struct Guest<N: Site> {
    tally: Tally,
    site: PhantomData<N>,
}

impl<N: Site> Model for Guest<N> {
    ghost use Rattle.ct_arena.specs.declared.tally.Tally.{Tally};

    ghost Value = { Tally };

    ghost view = { λ g. g.tally };
}

/// What the keeper has seen of the log that N names, and where it stands with each session.
///
/// A guest brings its list, which the keeper works with while the guest is entered. The keeper's own list is a plain one,
/// in which no word is sought; it catches up as the guest leaves.
#[derive(Drop)]
pub struct KeeperPass<N: Site> {
    token: Token,
    words: Vec<u64>,
    /// The guest's list, while one is entered.
    list: Option<Chain>,
    guest: Option<Tally>,
    enrolled: u32,
    site: PhantomData<N>,
}

impl<N: Site> Model for KeeperPass<N> {
    ghost use Rattle.std.specs.Prelude.{◌≤◌, vec_capacity};
    ghost use Rattle.ct_arena.specs.Seen.{Keeping};
    ghost use Rattle.ct_arena.specs.Kept.{IsKeeper, IsLent, list_of};

    ghost Value = { Keeping };

    ghost view = { λ k. record { words = list_of k.words.items k.list; enrolled = k.enrolled; guest = k.guest; ended = k.token.me.0.ended } };

    ghost invariant = { λ k. IsKeeper N.log k.token.table_id k.token.me (list_of k.words.items k.list) k.enrolled k.guest × (N.log.cap ≤ vec_capacity k.words) × IsLent N.log.cap k.words.items k.guest k.list };
}

/// A list of these words, in which a word is found, with room for so many.
fn listed(alloc: Global, cap: u32, words: &[u64]) -> Result<Chain, Memory>
    requires room { length words.now ≤ cap }
    requires formed { IsWellFormed words.now }
    ensures { IfOk result (λ list. list ≡ record { room = cap; words = words.now }) }
{
    let mut list = Chain::make(alloc, cap)?;
    follow(&mut list, words);
    Ok(list)
}

impl<N: Site> KeeperPass<N> {
    pub(crate) fn from_parts(token: Token, words: Vec<u64>) -> KeeperPass<N>
        requires seat { token.me ≡ (first_view N.log.cap, []) }
        requires named { IsNamed N.log token.table_id }
        requires words { words.items ≡ opening }
        requires room { N.log.cap ≤ vec_capacity words }
        ensures { result ≡ record { words = words.items; enrolled = 0; guest = None; ended = [] } }
    {
        KeeperPass {
            token,
            words,
            list: None,
            guest: None,
            enrolled: 0,
            site: PhantomData,
        }
    }

    /// The pass of the next session, which has seen what the keeper has.
    ///
    /// # Errors
    /// `Memory` where there is none for the session's list.
    pub fn enrol(&mut self, alloc: Global, arena: &Arena<N>) -> Result<Pass<N>, Memory>
        requires guest { self.old.guest ≡ None }
        requires number { self.old.enrolled < 1023 }
        ensures pass { IfOk result (λ pass. pass ≡ record { session = self.old.enrolled + 1; words = self.old.words; made = 0; mine = 0 }) }
        ensures ok { OnOk result (self.new ≡ record { words = self.old.words; enrolled = self.old.enrolled + 1; guest = None; ended = self.old.ended }) }
        ensures err { OnErr result (self.new ≡ self.old) }
    {
        let seen = listed(alloc, arena.cap, self.words.as_slice())?;
        let token = enrol_seat(&arena.words, &mut self.token);
        self.enrolled += 1;
        let tally = Tally {
            session: self.enrolled,
            made: 0,
            mine: 0,
        };
        Ok(Pass::from_parts(token, tally, seen))
    }

    /// The words that the keeper has seen. While a guest is entered, they are the guest's too.
    pub fn words(&self) -> &[u64]
        ensures words { result.now ≡ self.now.words }
        ensures formed { IsWellFormed self.now.words }
        ensures room { length self.now.words ≤ N.log.cap }
        ensures small { length self.now.words < 2 ^ 28 }
        ensures begins { IsPrefix opening self.now.words }
        ensures known { AreOfSessions self.now.enrolled self.now.words }
        ensures guest { IfSome self.now.guest (λ t. AreNumbered t.session t.mine self.now.words) }
    {
        match &self.list {
            Some(list) => list.words(),
            None => self.words.as_slice(),
        }
    }

    /// Takes a pass as guest. Keeper and guest have the longer of their lists.
    pub fn enter(&mut self, arena: &Arena<N>, pass: Pass<N>) -> Guest<N>
        requires { self.old.guest ≡ None }
        ensures guest { result ≡ tally_of pass }
        ensures entered { self.new.guest ≡ Some result }
        ensures longer { IsPrefix self.old.words self.new.words }
        ensures seen { IsPrefix pass.words self.new.words }
        ensures either { (self.new.words ≡ self.old.words) ⊎ (self.new.words ≡ pass.words) }
        ensures commits { commits_of self.new.words ≡ commits_of self.old.words }
        ensures enrolled { self.new.enrolled ≡ self.old.enrolled }
        ensures ended { self.new.ended ≡ self.old.ended }
    {
        let Pass {
            token,
            tally,
            seen: mut list,
            site: _,
        } = pass;
        take_in(&arena.words, &mut self.token, token);
        take_longer(&mut list, self.words.as_slice());
        self.list = Some(list);
        self.guest = Some(tally);
        Guest {
            tally,
            site: PhantomData,
        }
    }

    /// Gives the guest its pass back, with the keeper's list.
    pub fn leave(&mut self, arena: &Arena<N>, guest: Guest<N>) -> Pass<N>
        requires { self.old.guest ≡ Some guest }
        ensures pass { result ≡ pass_of guest self.old.words }
        ensures left { self.new ≡ record { words = self.old.words; enrolled = self.old.enrolled; guest = None; ended = self.old.ended } }
    {
        let Guest { tally, site: _ } = guest;
        let Some(list) = self.list.take() else {
            unreachable!()
        };
        note(&mut self.words, list.words());
        let token = leave_seat(&arena.words, &mut self.token);
        self.guest = None;
        Pass::from_parts(token, tally, list)
    }

    /// The place of a word, which is appended for the guest where it does not stand in the log.
    ///
    /// # Errors
    /// `Full` where the words are as many as the capacity and the word is not among them.
    pub fn intern(&mut self, arena: &Arena<N>, guest: &mut Guest<N>, w: u64) -> Result<u32, Full>
        requires guest { self.old.guest ≡ Some guest.old }
        requires word { IsTrue (is_plain_word self.old.words w) }
        ensures guest { self.new.guest ≡ Some guest.new }
        ensures stands { IfOk result (λ place. slice_get self.new.words place ≡ Some w) }
        ensures longer { IsPrefix self.old.words self.new.words }
        ensures formed { IsWellFormed self.new.words }
        ensures room { length self.new.words ≤ N.log.cap }
        ensures known { Contains self.old.words w → IsOk result × (self.new ≡ self.old) }
        ensures made { CountsWord guest.old.made guest.new.made self.new.words w }
        ensures mine { guest.new.mine ≡ guest.old.mine }
        ensures session { guest.new.session ≡ guest.old.session }
        ensures commits { commits_of self.new.words ≡ commits_of self.old.words }
        ensures enrolled { self.new.enrolled ≡ self.old.enrolled }
        ensures ended { self.new.ended ≡ self.old.ended }
        ensures full { IsErr result ↔ ((length self.new.words ≡ N.log.cap) × ¬ Contains self.new.words w) }
        ensures err { OnErr result (guest.new ≡ guest.old) }
    {
        let Some(list) = &mut self.list else {
            unreachable!()
        };
        let result = put(
            &arena.words,
            arena.cap,
            &mut self.token,
            list,
            &mut guest.tally,
            0,
            w,
        );
        self.guest = Some(guest.tally);
        result
    }

    /// Appends the commit word of this change list, with the guest's session and next number.
    ///
    /// # Errors
    /// `Full` where the words are as many as the capacity.
    pub fn append_commit(
        &mut self,
        arena: &Arena<N>,
        guest: &mut Guest<N>,
        changes: u32,
    ) -> Result<u32, Full>
        requires guest { self.old.guest ≡ Some guest.old }
        requires changes { IsTrue (is_place_of self.old.words class.ChangeList changes) }
        requires number { guest.old.mine < 2 ^ 18 }
        ensures guest { self.new.guest ≡ Some guest.new }
        ensures ok { IfOk result (λ place. StandsLast self.new.words place (commit_word guest.old.session guest.old.mine changes)) }
        ensures commits { OnOk result (commits_of self.new.words ≡ commits_of self.old.words ++ commit_of self.old.words guest.old.session guest.old.mine changes ∷ []) }
        ensures counted { OnOk result (guest.new ≡ record { session = guest.old.session; made = guest.old.made + 1; mine = guest.old.mine + 1 }) }
        ensures longer { IsPrefix self.old.words self.new.words }
        ensures formed { IsWellFormed self.new.words }
        ensures room { length self.new.words ≤ N.log.cap }
        ensures enrolled { self.new.enrolled ≡ self.old.enrolled }
        ensures ended { self.new.ended ≡ self.old.ended }
        ensures full { IsErr result ↔ ((length self.new.words ≡ N.log.cap) × ¬ Contains self.new.words (commit_word guest.old.session guest.old.mine changes)) }
        ensures err { OnErr result (guest.new ≡ guest.old) }
        ensures none { OnErr result (commits_of self.new.words ≡ commits_of self.old.words) }
        ensures grows { OnOk result (length self.old.words < length self.new.words) }
    {
        // What the pass keeps of its guest bounds the number.
        let Some(list) = &mut self.list else {
            unreachable!()
        };
        let numbered = guest.tally.session * COMMITS_OF_SESSION + guest.tally.mine;
        let w = pack(Kind::Commit, numbered, changes);
        let result = put(
            &arena.words,
            arena.cap,
            &mut self.token,
            list,
            &mut guest.tally,
            1,
            w,
        );
        self.guest = Some(guest.tally);
        result
    }

    /// Takes a pass whose session appends no more. The keeper has the longer of both lists.
    pub fn end(&mut self, arena: &Arena<N>, pass: Pass<N>) -> Ended
        requires { self.old.guest ≡ None }
        ensures counts { result ≡ record { session = pass.session; made = pass.made; commits = pass.mine } }
        ensures ended { self.new.ended ≡ self.old.ended ++ tally_of pass ∷ [] }
        ensures longer { IsPrefix self.old.words self.new.words }
        ensures seen { IsPrefix pass.words self.new.words }
        ensures either { (self.new.words ≡ self.old.words) ⊎ (self.new.words ≡ pass.words) }
        ensures commits { commits_of self.new.words ≡ commits_of self.old.words }
        ensures enrolled { self.new.enrolled ≡ self.old.enrolled }
        ensures guest { self.new.guest ≡ None }
    {
        let Guest { tally, .. } = self.enter(arena, pass);
        let Some(list) = self.list.take() else {
            unreachable!()
        };
        note(&mut self.words, list.words());
        lay_by(&arena.words, &mut self.token);
        self.guest = None;
        Ended {
            session: tally.session,
            made: tally.made,
            commits: tally.mine,
        }
    }

    /// The whole log, once every pass was ended.
    pub fn finish(self, arena: Arena<N>) -> Log
        requires guest { self.guest ≡ None }
        requires ended { length self.ended ≡ self.enrolled }
        ensures longer { IsPrefix self.words result }
        ensures commits { commits_of result ≡ commits_of self.words }
        ensures formed { IsWellFormed result }
        ensures room { length result ≤ N.log.cap }
        ensures begins { IsPrefix opening result }
        ensures counted { length result ≡ 2 + sum_by (λ t. t.made) self.ended }
        ensures numbered { All (λ t. AreNumbered t.session t.mine result) self.ended }
        ensures known { AreOfSessions self.enrolled result }
    {
        let KeeperPass {
            mut token,
            mut words,
            ..
        } = self;
        read_rest(&arena.words, arena.cap, &mut token, &mut words);
        Log::from_parts(words)
    }
}
