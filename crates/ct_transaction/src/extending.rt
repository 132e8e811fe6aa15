// A transaction after one more statement.

ghost use Rattle.std.specs.Prelude.{◌≡◌, ◌+◌, ◌<◌, ◌≤◌, ◌∷◌, [], ℕ, List, length, IfOk, IfErr, MatchResult, vec_len, vec_capacity};
ghost use Rattle.ct_query.specs.Plain as plain;
ghost use Rattle.ct_query.specs.Reads.{reads_of, with_reads};
ghost use Rattle.ct_query.specs.Views.{action_of};
ghost use Rattle.ct_keeper.specs.Effects.{FitsEffect};
ghost use Rattle.ct_statement.specs.Proposals.{IsProposal, IsStep, listed};
ghost use Rattle.ct_statement.specs.Sight.{actions_before, history_of};
ghost use Rattle.ct_transaction.specs.Extending.{having_read};
ghost use Rattle.ct_transaction.specs.Sessions.{IsOpen, transaction_of};
ghost use Rattle.ct_transaction.specs.State.{extended_by};

use crate::state::Open;
use ct_query::{Action, Read};
use ct_statement::{Step, advance};
use ct_word::List;
use std::alloc::Global;

/// The reads, with room for so many more.
///
/// # Errors
/// The reads as they were, where there is no memory.
fn with_room(reads: List<Read>, more: usize) -> Result<Vec<Read>, List<Read>>
    ensures same { MatchResult result (λ all. all.items ≡ reads) (λ same. same ≡ reads) }
    ensures room { IfOk result (λ all. vec_len all + more ≤ vec_capacity all) }
{
    let mut all = reads.into_vec();
    match all.reserve(more) {
        Ok(_) => Ok(all),
        Err(_) => Err(List::from_vec(all)),
    }
}

/// Adds a read that is not there yet. There is room for it.
fn add_reserved(reads: &mut Vec<Read>, read: Read)
    requires room { vec_len reads.old < vec_capacity reads.old }
    ensures items { reads.new.items ≡ with_reads reads.old.items (read ∷ []) }
    ensures len { vec_len reads.new ≤ vec_len reads.old + 1 }
    ensures capacity { vec_capacity reads.new ≡ vec_capacity reads.old }
{
    if !reads.contains(&read) {
        reads.push_reserved(read);
    }
}

/// The reads, and those of the second list that are not there yet, in order. There is room for all of them.
fn with_reads(reads: Vec<Read>, more: List<Read>) -> List<Read>
    requires room { vec_len reads + length more ≤ vec_capacity reads }
    ensures { result ≡ with_reads reads.items more }
{
    let mut all = reads;
    for read in more.into_vec() {
        add_reserved(&mut all, read);
    }
    List::from_vec(all)
}

/// The transaction when a query has read more.
///
/// # Errors
/// The transaction as it was, where there is no memory.
pub(crate) fn after_query(transaction: Open, more: List<Read>) -> Result<Open, Open>
    ensures extended { (words : List ℕ) → IsOpen words transaction → IfOk result (IsOpen words) }
    ensures same { (words : List ℕ) → IsOpen words transaction → IfErr result (IsOpen words) }
    ensures state { MatchResult result (λ next. transaction_of next ≡ having_read more (transaction_of transaction)) (λ same. transaction_of same ≡ transaction_of transaction) }
{
    let Open {
        sight,
        changes,
        reads,
    } = transaction;
    match with_room(reads, more.len()) {
        Ok(room) => Ok(Open {
            sight,
            changes,
            reads: with_reads(room, more),
        }),
        Err(reads) => Err(Open {
            sight,
            changes,
            reads,
        }),
    }
}

/// The transaction after one more action, whose change list and step these are, and what it reads.
///
/// # Errors
/// A transaction like the one before, where there is no memory.
pub(crate) fn after_action(
    alloc: Global,
    transaction: Open,
    action: Action,
    changes: u32,
    step: Step,
    more: List<Read>,
) -> Result<Open, Open>
    requires fits { FitsEffect transaction.sight.tables step.effect }
    requires reads { more ≡ reads_of (plain.Act (action_of action)) }
    ensures extended { (words : List ℕ) → IsOpen words transaction → IsProposal words (history_of words transaction.sight) (actions_before transaction.sight) (listed words transaction.changes) (action_of action) changes → IsStep words transaction.sight (action_of action) step → IfOk result (IsOpen words) }
    ensures same { (words : List ℕ) → IsOpen words transaction → IfErr result (IsOpen words) }
    ensures state { MatchResult result (λ next. transaction_of next ≡ extended_by (plain.Act (action_of action)) (transaction_of transaction)) (λ same. transaction_of same ≡ transaction_of transaction) }
{
    let Open {
        sight,
        changes: begun,
        reads,
    } = transaction;
    let room = match with_room(reads, more.len()) {
        Ok(room) => room,
        Err(reads) => {
            drop(action);
            drop(step);
            drop(more);
            return Err(Open {
                sight,
                changes: begun,
                reads,
            });
        }
    };
    match advance(alloc, sight, action, step) {
        Ok(sight) => Ok(Open {
            sight,
            changes: Some(changes),
            reads: with_reads(room, more),
        }),
        Err(sight) => {
            drop(more);
            Err(Open {
                sight,
                changes: begun,
                reads: List::from_vec(room),
            })
        }
    }
}
