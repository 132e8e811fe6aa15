// How changes are applied and committed: one on the list of the tables that is there, several on a copy of it.

ghost use Rattle.std.specs.Prelude.{◌≡◌, ◌<◌, ◌≤◌, ◌+◌, ◌^◌, ℕ, List, [], ◌∷◌, true, false, length, map, All, IfOk, IfErr, OnOk, OnErr, MatchResult, IsTrue, Some, is_err};
ghost use Rattle.std.specs.Arc.{arc_value};
ghost use Rattle.ct_word.specs.declared.kinds.Class.TheVariants as class;
ghost use Rattle.ct_word.specs.Reading.{commits_of, change_list_at};
ghost use Rattle.ct_word.specs.WellFormed.{is_place_of};
ghost use Rattle.ct_query.specs.Fits.{FitsChange};
ghost use Rattle.ct_condition.specs.Writes.{charge};
ghost use Rattle.ct_history.specs.declared.written.Written.{Written};
ghost use Rattle.ct_history.specs.Written.{IsWritten, plain_written};
ghost use Rattle.ct_table.specs.Denotes.{heading_of};
ghost use Rattle.ct_table.specs.Pending.{FitsGrowth, after};
ghost use Rattle.ct_operators.specs.Refusals as refusals;
ghost use Rattle.ct_operators.specs.Tables.{AreRows};
ghost use Rattle.ct_keeper.specs.Bounds.{all_words};
ghost use Rattle.ct_keeper.specs.Effects.{DoesChange, FitsEffect, effect_words};
ghost use Rattle.ct_keeper.specs.Faults.{is_full};
ghost use Rattle.ct_keeper.specs.Steps.{Interns, Appends, IsMade, IsAfter, CanApply};

use crate::effects::{Effect, effect_of};
use crate::error::KeeperError;
use crate::growing::grown;
use crate::latest::Content;
use crate::tables::Tables;
use ct_arena::{Arena, Full, Guest, KeeperPass, Site};
use ct_condition::Seated;
use ct_history::Written;
use ct_table::{Growth, TableError};
use std::alloc::Global;
use std::mem;

/// What a change does, the words of its conditions being made for the guest.
///
/// # Errors
/// `Full` where the log has no room for a condition, `Memory`.
fn effect_for<N: Site>(
    alloc: Global,
    arena: &Arena<N>,
    keeper: &mut KeeperPass<N>,
    guest: &mut Guest<N>,
    content: &Content,
    change: &Written,
) -> Result<Effect, TableError>
    requires guest { keeper.old.guest ≡ Some guest.old }
    requires tables { All (λ t. AreRows keeper.old.words (length t.columns) t.rows) content.now.tables }
    requires global { IsTrue (is_place_of keeper.old.words class.Cond content.now.global) }
    requires written { IsWritten keeper.old.words change.now }
    requires fitting { FitsChange (map heading_of content.now.tables) (plain_written keeper.old.words change.now) }
    ensures fits { IfOk result (FitsEffect content.now.tables) }
    ensures does { IfOk result (DoesChange keeper.old.words keeper.new.words content.now.tables content.now.global change.now) }
    ensures interns { Interns keeper.old guest.old keeper.new guest.new }
    ensures full { refusals.is_full result ≡ true → length keeper.new.words ≡ N.log.cap }
    ensures words { guest.new.made + charge (refusals.is_full result) ≤ guest.old.made + effect_words content.now.tables (plain_written keeper.old.words change.now) }
{
    let mut seated = Seated { keeper, guest };
    effect_of(
        alloc,
        arena,
        &mut seated,
        content.tables.db(),
        content.global,
        change,
    )
}

/// Tables and global condition after an effect.
///
/// # Errors
/// `Memory` where there is none for the tables.
fn reached(alloc: Global, content: Content, effect: Effect) -> Result<Content, KeeperError>
    requires fits { FitsEffect content.tables effect }
    ensures after { (old new : List ℕ) (change : Written) → DoesChange old new content.tables content.global change effect → IfOk result (IsAfter old new content change) }
    ensures full { is_full result ≡ false }
{
    let Content { tables, global } = content;
    match effect {
        Effect::Grows(growth) => match grown(alloc, tables, growth) {
            Ok(tables) => Ok(Content { tables, global }),
            Err(_) => Err(KeeperError::Memory),
        },
        Effect::Narrows(global) => Ok(Content { tables, global }),
    }
}

/// Tables and global condition after a change.
///
/// # Errors
/// `Full` where the log has no room for a condition, `Memory`.
fn applied<N: Site>(
    alloc: Global,
    arena: &Arena<N>,
    keeper: &mut KeeperPass<N>,
    guest: &mut Guest<N>,
    content: Content,
    change: &Written,
) -> Result<Content, KeeperError>
    requires guest { keeper.old.guest ≡ Some guest.old }
    requires tables { All (λ t. AreRows keeper.old.words (length t.columns) t.rows) content.tables }
    requires global { IsTrue (is_place_of keeper.old.words class.Cond content.global) }
    requires written { IsWritten keeper.old.words change.now }
    requires fitting { FitsChange (map heading_of content.tables) (plain_written keeper.old.words change.now) }
    ensures after { IfOk result (IsAfter keeper.old.words keeper.new.words content change.now) }
    ensures interns { Interns keeper.old guest.old keeper.new guest.new }
    ensures full { is_full result ≡ true → length keeper.new.words ≡ N.log.cap }
    ensures words { guest.new.made + charge (is_full result) ≤ guest.old.made + effect_words content.tables (plain_written keeper.old.words change.now) }
{
    let effect = effect_for(alloc, arena, keeper, guest, &content, change)?;
    reached(alloc, content, effect)
}

/// Tables and global condition after these changes. The list of the tables is a copy, and the tables that do not change
/// are shared.
///
/// # Errors
/// `Full` where the log has no room for a condition, `Memory`.
fn applied_all<N: Site>(
    alloc: Global,
    arena: &Arena<N>,
    keeper: &mut KeeperPass<N>,
    guest: &mut Guest<N>,
    content: &Content,
    changes: &[Written],
) -> Result<Content, KeeperError>
    requires guest { keeper.old.guest ≡ Some guest.old }
    requires can { CanApply keeper.old.words content.now changes.now }
    ensures made { IfOk result (IsMade keeper.new.words (commits_of keeper.old.words) (map (plain_written keeper.old.words) changes.now)) }
    ensures interns { Interns keeper.old guest.old keeper.new guest.new }
    ensures full { is_full result ≡ true → length keeper.new.words ≡ N.log.cap }
    ensures words { guest.new.made + charge (is_full result) ≤ guest.old.made + all_words keeper.old.words changes.now }
{
    // The words are well formed, also where there is no change.
    let _ = keeper.words();
    let tables = Tables::alone(content.tables.db().copied(alloc)?);
    let mut made = Content {
        tables,
        global: content.global,
    };
    for change in changes {
        made = applied(alloc, arena, keeper, guest, made, change)?;
    }
    Ok(made)
}

/// Appends the commit of a change list for the guest.
///
/// # Errors
/// `Full` where the words are as many as the capacity.
fn append<N: Site>(
    arena: &Arena<N>,
    keeper: &mut KeeperPass<N>,
    guest: &mut Guest<N>,
    list: u32,
) -> Result<(), Full>
    requires guest { keeper.old.guest ≡ Some guest.old }
    requires few { guest.old.mine < 2 ^ 18 }
    requires place { IsTrue (is_place_of keeper.old.words class.ChangeList list) }
    ensures appends { OnOk result (Appends list keeper.old guest.old keeper.new guest.new) }
    ensures interns { OnErr result (Interns keeper.old guest.old keeper.new guest.new) }
    ensures full { OnErr result (length keeper.new.words ≡ N.log.cap) }
    ensures words { guest.new.made + charge (is_err result) ≤ guest.old.made + 1 }
{
    match keeper.append_commit(arena, guest, list) {
        Ok(_) => Ok(()),
        Err(full) => Err(full),
    }
}

/// Commits a growth of the tables. All room for it is made first, so that nothing but moves follows the commit word. The
/// tables are those after the growth, or as they were where the commit is refused.
///
/// # Errors
/// `Full` where the log has no room for the commit word, `Memory`.
fn grow<N: Site>(
    alloc: Global,
    arena: &Arena<N>,
    keeper: &mut KeeperPass<N>,
    guest: &mut Guest<N>,
    tables: Tables,
    growth: Growth,
    list: u32,
) -> (Tables, Result<(), KeeperError>)
    requires guest { keeper.old.guest ≡ Some guest.old }
    requires few { guest.old.mine < 2 ^ 18 }
    requires place { IsTrue (is_place_of keeper.old.words class.ChangeList list) }
    requires fits { FitsGrowth tables growth }
    ensures appends { OnOk result.1 (Appends list keeper.old guest.old keeper.new guest.new) }
    ensures interns { OnErr result.1 (Interns keeper.old guest.old keeper.new guest.new) }
    ensures tables { MatchResult result.1 (λ _. result.0 ≡ after tables growth) (λ _. result.0 ≡ tables) }
    ensures full { is_full result.1 ≡ true → length keeper.new.words ≡ N.log.cap }
    ensures words { guest.new.made + charge (is_full result.1) ≤ guest.old.made + 1 }
{
    // The words are well formed, also where the commit is not tried.
    let _ = keeper.words();
    let db = match tables.into_db(alloc) {
        Ok(db) => db,
        Err(same) => return (same, Err(KeeperError::Memory)),
    };
    let growing = match db.growing(alloc, growth) {
        Ok(growing) => growing,
        Err(same) => return (Tables::alone(same), Err(KeeperError::Memory)),
    };
    match append(arena, keeper, guest, list) {
        Ok(()) => (Tables::alone(growing.done()), Ok(())),
        Err(_) => (Tables::alone(growing.undone()), Err(KeeperError::Full)),
    }
}

/// Commits the one change of a list.
///
/// # Errors
/// `Full` where the log has no room for a condition or for the commit word, `Memory`.
fn commit_one<N: Site>(
    alloc: Global,
    arena: &Arena<N>,
    keeper: &mut KeeperPass<N>,
    guest: &mut Guest<N>,
    content: &mut Content,
    change: &Written,
    list: u32,
) -> Result<(), KeeperError>
    requires guest { keeper.old.guest ≡ Some guest.old }
    requires few { guest.old.mine < 2 ^ 18 }
    requires place { IsTrue (is_place_of keeper.old.words class.ChangeList list) }
    requires can { CanApply keeper.old.words content.old (change.now ∷ []) }
    ensures appends { OnOk result (Appends list keeper.old guest.old keeper.new guest.new) }
    ensures made { OnOk result (IsMade keeper.new.words (commits_of keeper.old.words) (plain_written keeper.old.words change.now ∷ []) content.new) }
    ensures interns { OnErr result (Interns keeper.old guest.old keeper.new guest.new) }
    ensures same { OnErr result (content.new ≡ content.old) }
    ensures full { is_full result ≡ true → length keeper.new.words ≡ N.log.cap }
    ensures words { guest.new.made + charge (is_full result) ≤ guest.old.made + (1 + all_words keeper.old.words (change.now ∷ [])) }
{
    let effect = effect_for(alloc, arena, keeper, guest, content, change)?;
    match effect {
        Effect::Grows(growth) => {
            let tables = mem::replace(&mut content.tables, Tables::empty(alloc));
            let (tables, committed) = grow(alloc, arena, keeper, guest, tables, growth, list);
            content.tables = tables;
            committed
        }
        Effect::Narrows(global) => {
            append(arena, keeper, guest, list)?;
            content.global = global;
            Ok(())
        }
    }
}

/// Commits the changes of a list on a copy of the list of the tables.
///
/// # Errors
/// `Full` where the log has no room for a condition or for the commit word, `Memory`.
fn commit_several<N: Site>(
    alloc: Global,
    arena: &Arena<N>,
    keeper: &mut KeeperPass<N>,
    guest: &mut Guest<N>,
    content: &mut Content,
    changes: &[Written],
    list: u32,
) -> Result<(), KeeperError>
    requires guest { keeper.old.guest ≡ Some guest.old }
    requires few { guest.old.mine < 2 ^ 18 }
    requires place { IsTrue (is_place_of keeper.old.words class.ChangeList list) }
    requires can { CanApply keeper.old.words content.old changes.now }
    ensures appends { OnOk result (Appends list keeper.old guest.old keeper.new guest.new) }
    ensures made { OnOk result (IsMade keeper.new.words (commits_of keeper.old.words) (map (plain_written keeper.old.words) changes.now) content.new) }
    ensures interns { OnErr result (Interns keeper.old guest.old keeper.new guest.new) }
    ensures same { OnErr result (content.new ≡ content.old) }
    ensures full { is_full result ≡ true → length keeper.new.words ≡ N.log.cap }
    ensures words { guest.new.made + charge (is_full result) ≤ guest.old.made + (1 + all_words keeper.old.words changes.now) }
{
    let made = applied_all(alloc, arena, keeper, guest, content, changes)?;
    append(arena, keeper, guest, list)?;
    *content = made;
    Ok(())
}

/// Commits the changes of a list: one on the list of the tables that is there, several on a copy of it.
///
/// # Errors
/// `Full` where the log has no room for a condition or for the commit word, `Memory`.
pub fn commit_all<N: Site>(
    alloc: Global,
    arena: &Arena<N>,
    keeper: &mut KeeperPass<N>,
    guest: &mut Guest<N>,
    content: &mut Content,
    changes: &[Written],
    list: u32,
) -> Result<(), KeeperError>
    requires guest { keeper.old.guest ≡ Some guest.old }
    requires few { guest.old.mine < 2 ^ 18 }
    requires place { IsTrue (is_place_of keeper.old.words class.ChangeList list) }
    requires can { CanApply keeper.old.words content.old changes.now }
    ensures appends { OnOk result (Appends list keeper.old guest.old keeper.new guest.new) }
    ensures made { OnOk result (IsMade keeper.new.words (commits_of keeper.old.words) (map (plain_written keeper.old.words) changes.now) content.new) }
    ensures interns { OnErr result (Interns keeper.old guest.old keeper.new guest.new) }
    ensures same { OnErr result (content.new ≡ content.old) }
    ensures full { is_full result ≡ true → length keeper.new.words ≡ N.log.cap }
    ensures words { guest.new.made + charge (is_full result) ≤ guest.old.made + (1 + all_words keeper.old.words changes.now) }
{
    match changes {
        [change] => commit_one(alloc, arena, keeper, guest, content, change, list),
        _ => commit_several(alloc, arena, keeper, guest, content, changes, list),
    }
}
