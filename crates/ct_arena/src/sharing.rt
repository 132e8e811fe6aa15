// The log as a table of words, what each seat knows of it, and the steps on it.

ghost use Rattle.std.specs.Prelude.{◌≡◌, ◌+◌, ◌<◌, ◌≤◌, [], ◌++◌, length, replicate, true, None, IfOk, vec_len, vec_capacity};
ghost use Rattle.ct_arena.specs.Counts.{opening};
ghost use Rattle.ct_arena.specs.Sharing.{MayPut, IsRead, IsPut, IsSeen, IsSettled, IsLaidBy, first_view, joined, given, kept, enrolled_by, enrolled};

use crate::tally::Tally;
use atomic_table::{Join, Play, Seat, Split, Table, TableRule};
use ct_word::{Kind, Memory, pack};
use std::alloc::Global;
use std::collections::LinkedList;

/// What a seat knows and holds. No value of it is made.
pub struct View {
    /// Whether the seat is the keeper's.
    pub keeps: bool,
    /// The words that were seen.
    pub seen: LinkedList<u64>,
    /// Those that a session had seen as it was joined, until the longer of both lists is taken.
    pub other: LinkedList<u64>,
    /// The session of the seat, or the keeper's guest.
    pub guest: Option<Tally>,
    /// The sessions that were ended.
    pub ended: LinkedList<Tally>,
    /// How many sessions were enrolled, and how many words the table has. Only the keeper's view says so.
    pub enrolled: u32,
    pub room: u32,
}

pub struct Sharing;

impl TableRule<u8, View, u32> for Sharing {
    ghost use Rattle.ct_arena.specs.Sharing.{IsShared, first_view};

    ghost holds = { λ cap s. IsShared cap s.words s.views };

    ghost first = { first_view };
}

pub struct Enrols;

impl Split<View> for Enrols {
    ghost use Rattle.ct_arena.specs.Sharing.{enrolled_by, enrolled};

    ghost left = { enrolled_by };

    ghost right = { enrolled };
}

pub struct Leaves;

impl Split<View> for Leaves {
    ghost use Rattle.ct_arena.specs.Sharing.{kept, given};

    ghost left = { kept };

    ghost right = { given };
}

pub struct Enters;

impl Join<View> for Enters {
    ghost use Rattle.ct_arena.specs.Sharing.{joined, spent};

    ghost both = { joined };

    ghost spent = { spent };
}

pub struct Reads;

impl Play<u8, View> for Reads {
    ghost use Rattle.ct_arena.specs.Sharing.{IsRead};

    ghost then = { λ _ me found after. IsRead me.0 found after };
}

pub struct Puts;

impl Play<u8, View> for Puts {
    ghost use Rattle.ct_arena.specs.Sharing.{IsPut};

    ghost then = { λ step me found after. IsPut me.0 step.second found after };
}

pub struct Looks;

impl Play<u8, View> for Looks {
    ghost use Rattle.ct_arena.specs.Sharing.{IsSeen};

    ghost then = { λ _ me _ after. IsSeen me.0 after };
}

pub struct Settles;

impl Play<u8, View> for Settles {
    ghost use Rattle.ct_arena.specs.Sharing.{IsSettled};

    ghost then = { λ _ me _ after. IsSettled me.0 after };
}

pub struct LaysBy;

impl Play<u8, View> for LaysBy {
    ghost use Rattle.ct_arena.specs.Sharing.{IsLaidBy};

    ghost then = { λ _ me _ after. IsLaidBy me.0 after };
}

pub type Words = Table<u8, View, u32, Sharing, Global>;

pub type Token = Seat<u8, View>;

/// Reads the first word past what the seat has seen, which is 0 at the end of the log.
pub fn read(words: &Words, token: &mut Token, place: usize) -> u64
    requires table { token.old.table_id ≡ words.now.shared.table_id }
    requires room { words.now.shared.table_id.words ≡ words.now.shared.key }
    requires free { token.old.me.1 ≡ [] }
    requires next { place ≡ length token.old.me.0.seen }
    requires within { place < words.now.shared.key }
    ensures table { token.new.table_id ≡ token.old.table_id }
    ensures read { IsRead token.old.me.0 result token.new.me }
{
    words.shared.load::<Reads>(token, place)
}

/// Reads nothing, and knows that what was seen is a front of the log.
pub fn look(words: &Words, token: &mut Token)
    requires table { token.old.table_id ≡ words.now.shared.table_id }
    requires room { words.now.shared.table_id.words ≡ words.now.shared.key }
    requires some { 0 < words.now.shared.key }
    requires free { token.old.me.1 ≡ [] }
    ensures table { token.new.table_id ≡ token.old.table_id }
    ensures seen { IsSeen token.old.me.0 token.new.me }
{
    words.shared.load::<Looks>(token, 0);
}

/// Puts a word at the end of the log, or reads the one that stands there.
pub fn exchange(words: &Words, token: &mut Token, place: usize, w: u64) -> u64
    requires table { token.old.table_id ≡ words.now.shared.table_id }
    requires room { words.now.shared.table_id.words ≡ words.now.shared.key }
    requires free { token.old.me.1 ≡ [] }
    requires next { place ≡ length token.old.me.0.seen }
    requires within { place < words.now.shared.key }
    requires may { MayPut token.old.me.0 w }
    ensures table { token.new.table_id ≡ token.old.table_id }
    ensures put { IsPut token.old.me.0 w result token.new.me }
{
    // Words that others put are loaded, since an exchange takes the line from the threads that read it.
    let found = read(words, token, place);
    if found != 0 {
        return found;
    }
    words.shared.compare_exchange::<Puts>(token, place, 0, w)
}

/// The seat of the next session, which is given what the keeper has seen.
pub fn enrol_seat(words: &Words, keeper: &mut Token) -> Token
    requires table { keeper.old.table_id ≡ words.now.shared.table_id }
    requires some { 0 < words.now.shared.table_id.words }
    requires keeps { keeper.old.me.0.keeps ≡ true }
    ensures table { keeper.new.table_id ≡ keeper.old.table_id }
    ensures keeper { keeper.new.me ≡ (enrolled_by keeper.old.me.0, keeper.old.me.1) }
    ensures new_table { result.table_id ≡ keeper.old.table_id }
    ensures new { result.me ≡ (enrolled keeper.old.me.0, []) }
{
    words.shared.split_seat::<Enrols>(keeper)
}

/// The seat of the guest, which is given what the keeper has seen.
pub fn leave_seat(words: &Words, keeper: &mut Token) -> Token
    requires table { keeper.old.table_id ≡ words.now.shared.table_id }
    requires some { 0 < words.now.shared.table_id.words }
    ensures table { keeper.new.table_id ≡ keeper.old.table_id }
    ensures keeper { keeper.new.me ≡ (kept keeper.old.me.0, keeper.old.me.1) }
    ensures left_table { result.table_id ≡ keeper.old.table_id }
    ensures left { result.me ≡ (given keeper.old.me.0, []) }
{
    words.shared.split_seat::<Leaves>(keeper)
}

/// Takes a session's seat in, and the longer of both lists.
pub fn take_in(words: &Words, keeper: &mut Token, session: Token)
    requires table { keeper.old.table_id ≡ words.now.shared.table_id }
    requires room { words.now.shared.table_id.words ≡ words.now.shared.key }
    requires some { 0 < words.now.shared.key }
    requires session { session.table_id ≡ words.now.shared.table_id }
    requires free { keeper.old.me.1 ≡ [] }
    requires session_free { session.me.1 ≡ [] }
    requires guest { keeper.old.me.0.guest ≡ None }
    requires bare { session.me.0.ended ≡ [] }
    ensures table { keeper.new.table_id ≡ keeper.old.table_id }
    ensures taken { IsSettled (joined keeper.old.me.0 session.me.0) keeper.new.me }
{
    words.shared.join_seat::<Enters>(keeper, session);
    words.shared.load::<Settles>(keeper, 0);
}

/// The guest is ended.
pub fn lay_by(words: &Words, keeper: &mut Token)
    requires table { keeper.old.table_id ≡ words.now.shared.table_id }
    requires room { words.now.shared.table_id.words ≡ words.now.shared.key }
    requires some { 0 < words.now.shared.key }
    requires free { keeper.old.me.1 ≡ [] }
    ensures table { keeper.new.table_id ≡ keeper.old.table_id }
    ensures ended { IsLaidBy keeper.old.me.0 keeper.new.me }
{
    words.shared.load::<LaysBy>(keeper, 0);
}

/// The words that each log begins with, with room for so many.
#[tactic(auto, unfolding(crate::specs::Counts::opening))]
pub fn begin_words(alloc: Global, cap: usize) -> Result<Vec<u64>, Memory>
    requires { 2 ≤ cap }
    ensures words { IfOk result (λ v. v.items ≡ opening) }
    ensures count { IfOk result (λ v. vec_len v ≡ 2) }
    ensures room { IfOk result (λ v. vec_capacity v ≡ cap) }
{
    let mut first = Vec::with_capacity(alloc, cap)?;
    first.push_reserved(pack(Kind::True, 0, 0));
    first.push_reserved(pack(Kind::False, 0, 0));
    Ok(first)
}

/// These words, and then zeros.
#[tactic(auto, using(crate::proofs::Making::more_zeros))]
fn fill_words(first: &mut Vec<u64>, count: usize)
    requires { vec_len first.old + count ≤ vec_capacity first.old }
    ensures { first.new.items ≡ first.old.items ++ replicate count 0 }
{
    for _ in 0..count {
        first.push_reserved(0);
    }
}

/// The table of a log with the words true and false, and the keeper's seat.
#[tactic(auto, using(crate::proofs::Making::opening_size))]
pub fn table(alloc: Global, cap: u32) -> Result<(Words, Token), Memory>
    requires least { 64 ≤ cap }
    ensures words { IfOk result (λ t. t.0.shared.table_id.words ≡ cap) }
    ensures key { IfOk result (λ t. t.0.shared.key ≡ cap) }
    ensures table { IfOk result (λ t. t.1.table_id ≡ t.0.shared.table_id) }
    ensures first { IfOk result (λ t. t.1.me ≡ (first_view cap, [])) }
{
    let mut first = begin_words(alloc, cap as usize)?;
    fill_words(&mut first, cap as usize - 2);
    let made = Words::of_words(alloc, first.as_slice(), &cap)?;
    Ok(made)
}
