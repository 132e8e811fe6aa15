// What becomes of an offer.

ghost use Rattle.std.specs.Prelude.{◌≡◌, ◌<◌, ◌≤◌, ◌+◌, ◌^◌, true, if◌then◌else◌, length, map, All, IfOk, OnOk, OnErr, Some};
ghost use Rattle.std.specs.List.{list_any};
ghost use mathlib.Core.List.{IsPrefix};
ghost use Rattle.ct_word.specs.Reading.{commits_of, change_list_at};
ghost use Rattle.ct_arena.specs.Seen.{pass_of};
ghost use Rattle.ct_condition.specs.Writes.{charge};
ghost use Rattle.ct_history.specs.Written.{IsWritten, plain_written};
ghost use Rattle.indexmap.specs.IndexMap.{spare};
ghost use Rattle.ct_query.specs.Reads.{writes};
ghost use Rattle.ct_query.specs.declared.action.Read.{Read};
ghost use Rattle.ct_keeper.specs.Bounds.{all_words, offer_words};
ghost use Rattle.ct_keeper.specs.Conflicting.{told_or};
ghost use Rattle.ct_keeper.specs.Faults.{is_full};
ghost use Rattle.ct_keeper.specs.Latest.{IsLatest, catalogue_of};
ghost use Rattle.ct_keeper.specs.Offers.{IsOffer, IsUnchanged, BecomesOf, kept_in};
ghost use Rattle.ct_keeper.specs.Steps.{Interns, Appends, is_assertion};
ghost use Rattle.ct_keeper.specs.Writers.{is_written};

use crate::catalogue::Offer;
use crate::committing::commit_all;
use crate::conflicts::conflict_of;
use crate::error::KeeperError;
use crate::latest::Latest;
use crate::verdict::Verdict;
use crate::writers::{asserts, written_names};
use ct_arena::{Arena, Guest, KeeperPass, Site};
use ct_history::Written;
use ct_word::{List, Memory, Text, World};
use std::alloc::Global;
use std::sync::Arc;

/// The world that is kept after a commit of these changes: the one that is offered where an assertion is among them, else
/// the one that was kept. It is not copied. An offer without a world stands for the one without pairs.
///
/// # Errors
/// `Memory` where there is none for it.
fn next_kept(
    alloc: Global,
    kept: &Arc<World, Global>,
    offer: &Offer,
    changes: &[Written],
) -> Result<Arc<World, Global>, Memory>
    ensures { IfOk result (λ next. next.value ≡ (if list_any is_assertion changes.now then kept_in offer.now else kept.now.value)) }
{
    if !asserts(changes) {
        return Ok(Arc::try_clone(kept)?);
    }
    match &offer.kept {
        Some(world) => Ok(Arc::try_clone(world)?),
        None => Ok(Arc::new(alloc, List::new(alloc))?),
    }
}

/// Commits an offer of which no read has changed, and notes it for the tables that it changes, whose names these are.
///
/// # Errors
/// `Full` where the log has no room for a condition or for the commit word, `Memory`.
fn commit_offer<N: Site>(
    alloc: Global,
    arena: &Arena<N>,
    keeper: &mut KeeperPass<N>,
    guest: &mut Guest<N>,
    latest: &mut Latest,
    offer: &Offer,
    changes: &[Written],
    names: Vec<Text>,
) -> Result<(), KeeperError>
    requires guest { keeper.old.guest ≡ Some guest.old }
    requires few { guest.old.mine < 2 ^ 18 }
    requires latest { IsLatest keeper.old.words latest.old }
    requires offer { IsOffer (pass_of guest.old keeper.old.words) offer.now }
    requires unchanged { IsUnchanged keeper.old.words offer.now }
    requires written { All (IsWritten keeper.old.words) changes.now }
    requires changes { map (plain_written keeper.old.words) changes.now ≡ change_list_at keeper.old.words offer.now.changes }
    requires names { (r : Read) → is_written names.items (list_any is_assertion changes.now) r ≡ list_any (λ x. writes x r) (map (plain_written keeper.old.words) changes.now) }
    requires room { length names.items ≤ spare latest.old.writers.tables }
    ensures appends { OnOk result (Appends offer.now.changes keeper.old guest.old keeper.new guest.new) }
    ensures latest { OnOk result (IsLatest keeper.new.words latest.new) }
    ensures interns { OnErr result (Interns keeper.old guest.old keeper.new guest.new) }
    ensures same { OnErr result (latest.new ≡ latest.old) }
    ensures full { is_full result ≡ true → length keeper.new.words ≡ N.log.cap }
    ensures words { guest.new.made + charge (is_full result) ≤ guest.old.made + (1 + all_words keeper.old.words changes.now) }
{
    // There are fewer commits than words.
    let _ = keeper.words();
    let kept = next_kept(alloc, &latest.kept, offer, changes)?;
    let content = &mut latest.content;
    commit_all(alloc, arena, keeper, guest, content, changes, offer.changes)?;
    latest.kept = kept;
    latest.version += 1;
    latest.writers.note(names, asserts(changes), latest.version);
    Ok(())
}

/// What becomes of an offer of the guest, whose changes these are.
///
/// # Errors
/// `Full` where the log has no room for a condition of the new tables or for the commit word, `Memory`.
pub fn verdict_on<N: Site>(
    alloc: Global,
    arena: &Arena<N>,
    keeper: &mut KeeperPass<N>,
    guest: &mut Guest<N>,
    latest: &mut Latest,
    offer: &Offer,
    changes: &[Written],
) -> Result<Verdict, KeeperError>
    requires guest { keeper.old.guest ≡ Some guest.old }
    requires few { guest.old.mine < 2 ^ 18 }
    requires latest { IsLatest keeper.old.words latest.old }
    requires offer { IsOffer (pass_of guest.old keeper.old.words) offer.now }
    requires written { All (IsWritten keeper.old.words) changes.now }
    requires changes { map (plain_written keeper.old.words) changes.now ≡ change_list_at keeper.old.words offer.now.changes }
    ensures verdict { BecomesOf N.log.cap (catalogue_of keeper.old latest.old) (catalogue_of keeper.new latest.new) (pass_of guest.old keeper.old.words) (pass_of guest.new keeper.new.words) offer.now (told_or (commits_of keeper.old.words) offer.now.base result) }
    ensures latest { IsLatest keeper.new.words latest.new }
    ensures guest { keeper.new.guest ≡ Some guest.new }
    ensures enrolled { keeper.new.enrolled ≡ keeper.old.enrolled }
    ensures ended { keeper.new.ended ≡ keeper.old.ended }
    ensures session { guest.new.session ≡ guest.old.session }
    ensures longer { IsPrefix keeper.old.words keeper.new.words }
    ensures words { guest.new.made + charge (is_full result) ≤ guest.old.made + offer_words keeper.old.words (pass_of guest.old keeper.old.words) offer.now }
{
    // The words are well formed, also where nothing is committed.
    let _ = keeper.words();
    if changes.is_empty() {
        return Ok(Verdict::Nothing);
    }
    if let Some(conflict) = conflict_of(latest, offer.base, offer.reads.as_slice())? {
        return Ok(conflict);
    }
    let names = written_names(alloc, changes)?;
    latest.writers.reserve(names.len())?;
    commit_offer(alloc, arena, keeper, guest, latest, offer, changes, names)?;
    Ok(Verdict::Committed(latest.version))
}
