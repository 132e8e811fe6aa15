// The search: propagation, conflicts and decisions, turn by turn.

ghost use Rattle.std.specs.Prelude.{◌≡◌, ◌<◌, true, IfOk};
ghost use Rattle.ct_sat.specs.Log.{AnswersFound, ends_refuted};
ghost use Rattle.ct_trail.specs.Look.{IsFalsifiedAt};
ghost use Rattle.ct_trail.specs.Standing.{truths_now, log_now, worth_of, Continues, Advances};
ghost use Rattle.ct_sat.specs.Search.{Decides, TurnOf, state_of};

use crate::guide::Guide;
use crate::propagate::propagate;
use crate::units::make_units;
use crate::verdict::Found;
use ct_trail::{Board, Entry, Scan, hint};
use ct_word::{List, Memory};
use std::alloc::Global;

/// Learns from the clause at k, which is false, and goes back to where what was learned is a unit. The literals that it is
/// due to and that rest on no decision get clauses of their own.
fn resolve(
    alloc: Global,
    board: &mut Board,
    guide: &mut Guide,
    k: u32,
) -> Result<Option<Found>, Memory>
    requires { IsFalsifiedAt (truths_now board.old) (log_now board.old) k }
    ensures continues { Continues board.old board.new }
    ensures turn { IfOk result (λ f. TurnOf board.old board.new f) }
{
    let place = hint(board.entries().len())?;
    match board.learn(alloc, k)? {
        None => Ok(Some(Found::Refuted)),
        Some(back) => {
            guide.bump(alloc, board, place)?;
            guide.forget(board, back.cut);
            board.go_back(back, place)?;
            guide.notice(board)?;
            make_units(alloc, board, guide, place)?;
            Ok(None)
        }
    }
}

/// Looks at all added clauses, where no variable is left to decide. Each is true, unless the watches have missed one.
fn judge(alloc: Global, board: &mut Board, guide: &mut Guide) -> Result<Option<Found>, Memory>
    ensures continues { Continues board.old board.new }
    ensures turn { IfOk result (λ f. TurnOf board.old board.new f) }
{
    match board.scan()? {
        Scan::Satisfied => {
            let model = board.model(alloc)?;
            Ok(Some(Found::Model(List::from_vec(model))))
        }
        Scan::Falsified(k) => {
            guide.missed = guide.missed.saturating_add(1);
            resolve(alloc, board, guide, k)
        }
        Scan::Unit(k, l) => {
            guide.missed = guide.missed.saturating_add(1);
            board.put_unit(&l, k)?;
            guide.notice(board)?;
            Ok(None)
        }
        Scan::Undecided(l) => {
            board.put(&l, None)?;
            guide.notice(board)?;
            Ok(None)
        }
    }
}

/// Decides the variable that the guide picks; says whether it did.
fn decide(board: &mut Board, guide: &mut Guide) -> Result<bool, Memory>
    ensures decides { IfOk result (λ b. Decides board.old b board.new) }
    ensures advances { Advances board.old board.new }
    ensures worth { IfOk result (λ b. b ≡ true → worth_of board.old < worth_of board.new) }
{
    let Some(l) = guide.pick(board) else {
        return Ok(false);
    };
    let decided = board.decide(&l)?;
    guide.notice(board)?;
    Ok(decided)
}

/// Decides a literal, or finds a model.
fn advance(alloc: Global, board: &mut Board, guide: &mut Guide) -> Result<Option<Found>, Memory>
    ensures continues { Continues board.old board.new }
    ensures turn { IfOk result (λ f. TurnOf board.old board.new f) }
{
    if decide(board, guide)? {
        return Ok(None);
    }
    judge(alloc, board, guide)
}

/// One turn of the search: propagation, and then a conflict or a decision.
fn turn(alloc: Global, board: &mut Board, guide: &mut Guide) -> Result<Option<Found>, Memory>
    ensures continues { Continues board.old board.new }
    ensures turn { IfOk result (λ f. TurnOf board.old board.new f) }
{
    match propagate(board, guide)? {
        Some(k) => resolve(alloc, board, guide, k),
        None => advance(alloc, board, guide),
    }
}

/// Cuts the trail so far back that no new clause is a unit by an earlier decision.
fn make_ready(board: &mut Board, guide: &mut Guide)
    ensures { Continues board.old board.new }
{
    let cut = guide.first_cut(board);
    guide.forget(board, cut);
    board.cut(cut);
}

/// Whether the last entry of a log is learned and empty.
fn is_refuted(entries: &[Entry]) -> bool
    ensures { result ≡ true → ends_refuted entries.now ≡ true }
{
    let Some(last) = entries.last() else {
        return false;
    };
    match last {
        Entry::Added(_) => false,
        Entry::Learned(step) => step.clause.is_empty(),
    }
}

/// Searches for a model, or learns the empty clause. It ends, since the trail is worth more at each turn.
pub fn search(alloc: Global, board: &mut Board, guide: &mut Guide) -> Result<Found, Memory>
    ensures continues { Continues board.old board.new }
    ensures found { IfOk result (λ f. AnswersFound (state_of board.new) f) }
{
    if is_refuted(board.entries()) {
        return Ok(Found::Refuted);
    }
    make_ready(board, guide);
    loop {
        if let Some(found) = turn(alloc, board, guide)? {
            return Ok(found);
        }
    }
}
