// The change that a statement proposes.

ghost use Rattle.std.specs.Prelude.{◌≡◌, ◌+◌, ◌<◌, ◌≤◌, ◌^◌, ℕ, List, [], true, is_err, length, IfOk, IfErr, IfSome, IsTrue};
ghost use Rattle.ct_word.specs.declared.kinds.Class.TheVariants as class;
ghost use Rattle.ct_word.specs.Reading.{change_list_at};
ghost use Rattle.ct_word.specs.WellFormed.{is_place_of};
ghost use Rattle.ct_condition.specs.Writes.{charge, PassWrites};
ghost use Rattle.ct_query.specs.Bounds.{change_words};
ghost use Rattle.ct_query.specs.Fits.{FitsAction};
ghost use Rattle.ct_query.specs.Patterns.{count};
ghost use Rattle.ct_query.specs.Plain as plain;
ghost use Rattle.ct_query.specs.Schema.{schema};
ghost use Rattle.ct_query.specs.Views.{action_of};
ghost use Rattle.ct_history.specs.Encodes.{IsEncodable};
ghost use Rattle.ct_resolve.specs.Writing.{WritesAction};
ghost use Rattle.ct_statement.specs.Drawing.{drawn};
ghost use Rattle.ct_statement.specs.Making.{is_full, taken_rows, taking_words, widths_in};
ghost use Rattle.ct_statement.specs.Proposals.{IsProposal, listed};
ghost use Rattle.ct_statement.specs.Sight.{IsSight, actions_before, history_of};
ghost use Rattle.ct_statement.specs.Sources.{AreTakenFor, is_literal};
ghost use Rattle.ct_statement.specs.Unmet.{HasFewPairs, IsUnmet, IsWant};
ghost use Rattle.ct_statement.specs.declared.sight.Sight.{Sight as SightValue};

use crate::asking::answered;
use crate::asserting::{asserted_key, asserted_query};
use crate::drawing::after;
use crate::sight::Sight;
use ct_arena::{Arena, Full, Pass, Site};
use ct_history::{encode, no_changes};
use ct_query::Action;
use ct_table::CTable;
use ct_transcript::Refusal;
use ct_word::{CRow, List};
use std::alloc::Global;

/// An action with its change: the change list that has it last, and the number of the session's last null after it.
#[derive(Drop)]
pub struct Proposal {
    pub action: Action,
    pub changes: u32,
    pub fresh: u32,
}

/// The change list at a place, or a new one.
///
/// # Errors
/// `Full` where the log has no room for the word of a new one.
fn begun<N: Site>(arena: &Arena<N>, pass: &mut Pass<N>, list: Option<u32>) -> Result<u32, Full>
    requires list { IfSome list (λ place. IsTrue (is_place_of pass.old.words class.ChangeList place)) }
    ensures place { IfOk result (λ place. IsTrue (is_place_of pass.new.words class.ChangeList place)) }
    ensures small { IfOk result (λ place. place < 2 ^ 28) }
    ensures same { IfOk result (λ place. change_list_at pass.new.words place ≡ listed pass.old.words list) }
    ensures writes { PassWrites N.log.cap pass.old pass.new 1 (is_err result) }
{
    match list {
        None => match no_changes(arena, pass) {
            Ok(place) => Ok(place),
            Err(e) => Err(e),
        },
        Some(place) => {
            // There are fewer than 2^28 words.
            let _ = pass.words();
            Ok(place)
        }
    }
}

/// The rows that an action takes from its query, or the one under the condition of an assertion over a query or a key; none
/// for another action. The pass has the words of it.
///
/// # Errors
/// `TooLarge` only where the size of the query, or of all pairs of rows of a key's table, by the counts of all rows that were
/// ever made, is above 16,777,216; `Full` only where the log has no room; `Memory`.
fn taken_for<N: Site>(
    alloc: Global,
    arena: &Arena<N>,
    pass: &mut Pass<N>,
    sight: &Sight,
    action: &Action,
) -> Result<List<CRow>, Refusal>
    requires sight { IsSight pass.old.words sight.now }
    requires fits { FitsAction (schema (history_of pass.old.words sight.now) (actions_before sight.now)).tables (action_of action.now) }
    ensures writes { PassWrites N.log.cap pass.old pass.new (taking_words (count (history_of pass.old.words sight.now) (actions_before sight.now)) (widths_in (schema (history_of pass.old.words sight.now) (actions_before sight.now)).tables) (action_of action.now)) (is_full result) }
    ensures few { IfOk result (λ rows. length rows ≤ taken_rows (count (history_of pass.old.words sight.now) (actions_before sight.now)) (action_of action.now)) }
    ensures rows { IfOk result (AreTakenFor pass.new.words sight.now.global (history_of pass.old.words sight.now) (actions_before sight.now) (action_of action.now)) }
    ensures within { IfOk result (λ _. HasFewPairs sight.now.tables (action_of action.now)) }
    ensures err { IfErr result (IsUnmet (history_of pass.old.words sight.now) (actions_before sight.now) N.log.cap pass.new.words (plain.Act (action_of action.now))) }
{
    match action {
        Action::InsertQuery { query, .. } => match answered(alloc, arena, pass, sight, query) {
            Ok(table) => {
                let CTable { columns: _, rows } = table;
                Ok(rows)
            }
            Err(why) => Err(why),
        },
        Action::AssertQuery { wanted, query } => {
            asserted_query(alloc, arena, pass, sight, *wanted, query)
        }
        Action::AssertKey { name, columns } => {
            asserted_key(alloc, arena, pass, sight, name, columns)
        }
        _ => {
            // The words are well formed.
            let _ = pass.words();
            Ok(List::new(alloc))
        }
    }
}

/// The change list at a place, or a new one, with the change of an action added. The pass has the words of it.
///
/// # Errors
/// As `taken_for` has them.
fn added<N: Site>(
    alloc: Global,
    arena: &Arena<N>,
    pass: &mut Pass<N>,
    sight: &Sight,
    list: Option<u32>,
    action: &Action,
) -> Result<u32, Refusal>
    requires sight { IsSight pass.old.words sight.now }
    requires list { IfSome list (λ place. IsTrue (is_place_of pass.old.words class.ChangeList place)) }
    requires fits { FitsAction (schema (history_of pass.old.words sight.now) (actions_before sight.now)).tables (action_of action.now) }
    requires written { WritesAction (action_of action.now) }
    ensures writes { PassWrites N.log.cap pass.old pass.new (change_words (count (history_of pass.old.words sight.now) (actions_before sight.now)) (widths_in (schema (history_of pass.old.words sight.now) (actions_before sight.now)).tables) (action_of action.now)) (is_full result) }

    // One word is left, for that of the commit.
    ensures left { pass.new.made + charge (is_full result) + 1 ≤ pass.old.made + change_words (count (history_of pass.old.words sight.now) (actions_before sight.now)) (widths_in (schema (history_of pass.old.words sight.now) (actions_before sight.now)).tables) (action_of action.now) }
    ensures proposes { IfOk result (IsProposal pass.new.words (history_of pass.old.words sight.now) (actions_before sight.now) (listed pass.old.words list) (action_of action.now)) }
    ensures within { IfOk result (λ _. HasFewPairs sight.now.tables (action_of action.now)) }
    ensures err { IfErr result (IsUnmet (history_of pass.old.words sight.now) (actions_before sight.now) N.log.cap pass.new.words (plain.Act (action_of action.now))) }
{
    let list = match begun(arena, pass, list) {
        Ok(list) => list,
        Err(_) => return Err(Refusal::Full),
    };
    // What is seen is seen in the longer words too, since they are well formed.
    let _ = pass.words();
    let rows = match taken_for(alloc, arena, pass, sight, action) {
        Ok(rows) => rows,
        Err(why) => return Err(why),
    };
    let encoded = encode(arena, pass, list, action, rows.as_slice());
    // The words are well formed, and a session has made fewer than 2^28 of them.
    let _ = pass.words();
    match encoded {
        Ok(changes) => Ok(changes),
        Err(_) => Err(Refusal::Full),
    }
}

/// The change of an action, added to the list at a place, or to a new one. The pass has the words of it. There is none of an
/// assertion of a key of a table with more than 4,096 rows.
///
/// # Errors
/// `TooLarge` only where the size of its query, or of all pairs of rows of the table that it asserts a key of, by the counts of
/// all rows that were ever made, is above 16,777,216; `Full` only where the log has no room; `Memory`.
pub fn propose<N: Site>(
    alloc: Global,
    arena: &Arena<N>,
    pass: &mut Pass<N>,
    sight: &Sight,
    list: Option<u32>,
    fresh: u32,
    action: Action,
) -> Result<Proposal, Refusal>
    requires sight { IsSight pass.old.words sight.now }
    requires list { IfSome list (λ place. IsTrue (is_place_of pass.old.words class.ChangeList place)) }
    requires fits { FitsAction (schema (history_of pass.old.words sight.now) (actions_before sight.now)).tables (action_of action) }
    requires written { WritesAction (action_of action) }
    ensures writes { PassWrites N.log.cap pass.old pass.new (change_words (count (history_of pass.old.words sight.now) (actions_before sight.now)) (widths_in (schema (history_of pass.old.words sight.now) (actions_before sight.now)).tables) (action_of action)) (is_full result) }

    // One word is left, for that of the commit.
    ensures left { pass.new.made + charge (is_full result) + 1 ≤ pass.old.made + change_words (count (history_of pass.old.words sight.now) (actions_before sight.now)) (widths_in (schema (history_of pass.old.words sight.now) (actions_before sight.now)).tables) (action_of action) }
    ensures action { IfOk result (λ p. action_of p.action ≡ action_of action) }
    ensures fresh { IfOk result (λ p. p.fresh ≡ fresh + drawn (action_of action)) }
    ensures proposes { IfOk result (λ p. IsProposal pass.new.words (history_of pass.old.words sight.now) (actions_before sight.now) (listed pass.old.words list) (action_of action) p.changes) }
    ensures within { IfOk result (λ _. HasFewPairs sight.now.tables (action_of action)) }
    ensures err { IfErr result (IsUnmet (history_of pass.old.words sight.now) (actions_before sight.now) N.log.cap pass.new.words (plain.Act (action_of action))) }
{
    // The words are well formed, also where no number is left.
    let _ = pass.words();
    let fresh = match after(fresh, &action) {
        Ok(fresh) => fresh,
        Err(_) => {
            drop(action);
            return Err(Refusal::Memory);
        }
    };
    match added(alloc, arena, pass, sight, list, &action) {
        Ok(changes) => Ok(Proposal {
            action,
            changes,
            fresh,
        }),
        Err(why) => {
            drop(action);
            Err(why)
        }
    }
}

/// Whether the change of an action is all in its text: a new table, or rows that are written out.
pub fn is_literal(action: &Action) -> bool
    ensures { result ≡ is_literal (action_of action.now) }
{
    match action {
        Action::Create { .. } => true,
        Action::InsertRows { .. } => true,
        Action::InsertQuery { .. } => false,
        Action::Delete { .. } => false,
        Action::Update { .. } => false,
        Action::Assert { .. } => false,
        Action::AssertQuery { .. } => false,
        Action::AssertKey { .. } => false,
    }
}

/// A new change list that has the change of an action, which is all in its text. The pass has the words of it.
///
/// # Errors
/// `Full` where the log has no room.
fn added_literal<N: Site>(
    arena: &Arena<N>,
    pass: &mut Pass<N>,
    action: &Action,
) -> Result<u32, Refusal>
    requires literal { is_literal (action_of action.now) ≡ true }
    requires encodable { IsEncodable (action_of action.now) }
    requires written { WritesAction (action_of action.now) }
    ensures writes { PassWrites N.log.cap pass.old pass.new (change_words (λ table. 0) (λ table. 0) (action_of action.now)) (is_full result) }

    // By all counts; one word is left, for that of the commit.
    ensures left { (counts widths : List ℕ → ℕ) → pass.new.made + charge (is_full result) + 1 ≤ pass.old.made + change_words counts widths (action_of action.now) }
    ensures proposes { (s : SightValue) → IsSight pass.old.words s → FitsAction (schema (history_of pass.old.words s) (actions_before s)).tables (action_of action.now) → IfOk result (IsProposal pass.new.words (history_of pass.old.words s) (actions_before s) [] (action_of action.now)) }
    ensures err { IfErr result (IsWant N.log.cap pass.new.words) }
{
    let list = match begun(arena, pass, None) {
        Ok(list) => list,
        Err(_) => return Err(Refusal::Full),
    };
    let _ = pass.words();
    let encoded = encode(arena, pass, list, action, &[]);
    let _ = pass.words();
    match encoded {
        Ok(changes) => Ok(changes),
        Err(_) => Err(Refusal::Full),
    }
}

/// The change of an action that is all in its text, in a new list. The pass has the words of it. What its statement saw may
/// have been let go.
///
/// # Errors
/// `Full` where the log has no room, `Memory`.
pub fn propose_literal<N: Site>(
    arena: &Arena<N>,
    pass: &mut Pass<N>,
    fresh: u32,
    action: Action,
) -> Result<Proposal, Refusal>
    requires literal { is_literal (action_of action) ≡ true }
    requires encodable { IsEncodable (action_of action) }
    requires written { WritesAction (action_of action) }
    ensures writes { PassWrites N.log.cap pass.old pass.new (change_words (λ table. 0) (λ table. 0) (action_of action)) (is_full result) }

    // By all counts; one word is left, for that of the commit.
    ensures left { (counts widths : List ℕ → ℕ) → pass.new.made + charge (is_full result) + 1 ≤ pass.old.made + change_words counts widths (action_of action) }
    ensures action { IfOk result (λ p. action_of p.action ≡ action_of action) }
    ensures fresh { IfOk result (λ p. p.fresh ≡ fresh + drawn (action_of action)) }
    ensures proposes { (s : SightValue) → IsSight pass.old.words s → FitsAction (schema (history_of pass.old.words s) (actions_before s)).tables (action_of action) → IfOk result (λ p. IsProposal pass.new.words (history_of pass.old.words s) (actions_before s) [] (action_of action) p.changes) }
    ensures err { IfErr result (IsWant N.log.cap pass.new.words) }
{
    // The words are well formed, also where no number is left.
    let _ = pass.words();
    let fresh = match after(fresh, &action) {
        Ok(fresh) => fresh,
        Err(_) => {
            drop(action);
            return Err(Refusal::Memory);
        }
    };
    match added_literal(arena, pass, &action) {
        Ok(changes) => Ok(Proposal {
            action,
            changes,
            fresh,
        }),
        Err(why) => {
            drop(action);
            Err(why)
        }
    }
}
