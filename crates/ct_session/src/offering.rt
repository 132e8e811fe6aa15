// What is offered to the server: an action outside a transaction, and the world that an offer has.
//
// A pass's words are read, here and there, for what their type keeps: that they are well formed, and few.

ghost use Rattle.std.specs.Prelude.{◌≡◌, ◌+◌, ℕ, List, true, false, [], IfOk, IfErr, option_map};
ghost use Rattle.std.specs.Arc.{arc_value};
ghost use mathlib.Core.List.{IsPrefix};
ghost use Rattle.ct_condition.specs.Writes.{charge, kept_of};
ghost use Rattle.ct_keeper.specs.Offers.{world_in};
ghost use Rattle.ct_parse.specs.declared.tree.Statement.{Statement as StatementValue};
ghost use Rattle.ct_query.specs.Plain as plain;
ghost use Rattle.ct_query.specs.Reads.{action_reads};
ghost use Rattle.ct_query.specs.Views.{action_of, statement_of};
ghost use Rattle.ct_table.specs.Snapshot.{commits_to};
ghost use Rattle.ct_statement.specs.Making.{is_full};
ghost use Rattle.ct_statement.specs.Sources.{is_literal};
ghost use Rattle.ct_statement.specs.Unmet.{IsWant};
ghost use Rattle.ct_transaction.specs.Bounded.{Performs};
ghost use Rattle.ct_transaction.specs.Prepared.{IsRefused};
ghost use Rattle.ct_session.specs.Offering.{IsFoundAlone, IsLiteralAct, IsReadyToOffer};
ghost use Rattle.ct_session.specs.Outcomes.{world_offered};

use ct_arena::{Arena, Pass, Site};
use ct_keeper::Offer;
use ct_query::{Action, Read, Resolved, reads};
use ct_statement::{Proposal, Sight, Step, is_literal, propose_literal};
use ct_transcript::Refusal;
use ct_word::{List, Memory, World};
use std::alloc::Global;
use std::sync::Arc;

/// An offer, with the number of the session's last null once it is committed.
#[derive(Drop)]
pub struct Offering {
    pub offer: Offer,
    pub fresh: u32,
}

/// What an action reads.
///
/// # Errors
/// `Memory` where there is none for the list.
fn reads_of_action(alloc: Global, action: Action) -> Result<List<Read>, Memory>
    ensures { IfOk result (λ found. found ≡ action_reads (action_of action)) }
{
    let acted = Resolved::Act(action);
    let found = reads(alloc, &acted);
    drop(acted);
    found
}

/// A proposed action as it is offered, on the version that its statement saw, with what it reads and this world.
///
/// # Errors
/// `Memory` where there is none for the list of what it reads.
pub(crate) fn offering_of(
    alloc: Global,
    base: u32,
    proposal: Proposal,
    kept: Option<Arc<World, Global>>,
) -> Result<Offering, Memory>
    ensures { IfOk result (λ o. o ≡ record { offer = record { base = base; reads = action_reads (action_of proposal.action); changes = proposal.changes; kept = kept }; fresh = proposal.fresh }) }
{
    let Proposal {
        action,
        changes,
        fresh,
    } = proposal;
    match reads_of_action(alloc, action) {
        Ok(reads) => {
            let offer = Offer {
                base,
                reads,
                changes,
                kept,
            };
            Ok(Offering { offer, fresh })
        }
        Err(Memory) => {
            drop(kept);
            Err(Memory)
        }
    }
}

/// The world that the offer of an action has: the kept one after its step; where no step was made, none. It is shared, and
/// not copied.
///
/// # Errors
/// `Memory` where there is none to share it.
pub(crate) fn world_of(
    alloc: Global,
    sight: &Sight,
    step: Option<Step>,
) -> Result<Option<Arc<World, Global>>, Memory>
    ensures { IfOk result (λ world. world_in (option_map arc_value world) ≡ world_offered sight.now.kept.value step) }
{
    let Some(step) = step else {
        return Ok(None);
    };
    let Step { effect, kept } = step;
    drop(effect);
    match kept {
        Some(world) => Ok(Some(Arc::new(alloc, world)?)),
        None => Ok(Some(Arc::try_clone(&sight.kept)?)),
    }
}

/// The action that a statement does, where its change is all in its text.
///
/// # Errors
/// What the statement does, where that is something else.
pub(crate) fn literal_act(found: Resolved) -> Result<Action, Resolved>
    ensures act { IfOk result (λ action. statement_of found ≡ plain.Act (action_of action)) }
    ensures literal { IfOk result (λ action. is_literal (action_of action) ≡ true) }
    ensures same { IfErr result (λ same. same ≡ found) }
    ensures other { IfErr result (λ _. IsLiteralAct (statement_of found) → ⊥) }
{
    match found {
        Resolved::Act(action) => {
            if is_literal(&action) {
                Ok(action)
            } else {
                Err(Resolved::Act(action))
            }
        }
        other => Err(other),
    }
}

/// The offer of an action whose change is all in its text, on the version that its statement saw. The pass has the words of
/// it. Nothing of what was seen is wanted any more.
///
/// # Errors
/// `Full` where the log has no room, `Memory`.
pub(crate) fn literal_offer<N: Site>(
    alloc: Global,
    arena: &Arena<N>,
    pass: &mut Pass<N>,
    fresh: u32,
    base: u32,
    action: Action,
) -> Result<Offering, Refusal>
    requires found { (st : StatementValue) × IsFoundAlone pass.old fresh base st (plain.Act (action_of action)) }
    requires literal { is_literal (action_of action) ≡ true }
    ensures longer { IsPrefix pass.old.words pass.new.words }
    ensures kept { kept_of pass.new ≡ kept_of pass.old }
    ensures made { (counts widths : List ℕ → ℕ) → Performs false counts widths (plain.Act (action_of action)) pass.old.made (pass.new.made + charge (is_full result)) }
    ensures ok { (st : StatementValue) → IsFoundAlone pass.old fresh base st (plain.Act (action_of action)) → IfOk result (λ o. IsReadyToOffer pass.new fresh o st) }
    ensures base { IfOk result (λ o. o.offer.base ≡ base) }
    ensures want { IfErr result (IsWant N.log.cap pass.new.words) }
    ensures err { (st : StatementValue) → IsFoundAlone pass.old fresh base st (plain.Act (action_of action)) → IfErr result (IsRefused (commits_to pass.new.words base) [] N.log.cap pass.new.words pass.new.session fresh st) }
{
    let proposed = propose_literal(arena, pass, fresh, action);
    let _now = pass.words();
    let proposal = match proposed {
        Ok(proposal) => proposal,
        Err(why) => return Err(why),
    };
    match offering_of(alloc, base, proposal, None) {
        Ok(offering) => Ok(offering),
        Err(Memory) => Err(Refusal::Memory),
    }
}
