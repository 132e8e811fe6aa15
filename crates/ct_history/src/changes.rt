// Change lists, put into the log word by word.

ghost use Rattle.std.specs.Prelude.{◌≡◌, ◌≤◌, ◌<◌, ◌+◌, ◌^◌, [], ◌∷◌, ◌++◌, Some, length, sum_by, IfOk, OnErr, IsTrue, is_err};
ghost use mathlib.Core.List.{IsPrefix};
ghost use Rattle.ct_word.specs.declared.kinds.Class.TheVariants as class;
ghost use Rattle.ct_word.specs.Change.{Create};
ghost use Rattle.ct_word.specs.Reading.{IsNameList, IsChangeList, change_list_at};
ghost use Rattle.ct_word.specs.Stands.{StandsAt};
ghost use Rattle.ct_word.specs.WellFormed.{class_of, is_formed_as, is_place_of};
ghost use Rattle.ct_history.specs.Encodes.{name_words};
ghost use Rattle.ct_condition.specs.Writes.{PassWrites, kept_of};
ghost use Rattle.ct_history.specs.Places.{change_of};

use ct_arena::{Arena, Full, Pass, Site};
use ct_condition::{put, text};
use ct_word::{Kind, Text};

/// The place of the change list without changes.
///
/// # Errors
/// `Full` where the log has no room for its word.
pub fn no_changes<N: Site>(arena: &Arena<N>, pass: &mut Pass<N>) -> Result<u32, Full>
    ensures stands { IfOk result (λ place. StandsAt pass.new.words place (IsChangeList [])) }
    ensures place { IfOk result (λ place. IsTrue (is_place_of pass.new.words class.ChangeList place)) }
    ensures small { IfOk result (λ place. place < 2 ^ 28) }
    ensures writes { PassWrites N.log.cap pass.old pass.new 1 (is_err result) }
    ensures longer { IsPrefix pass.old.words pass.new.words }
    ensures full { OnErr result (length pass.new.words ≡ N.log.cap) }
    ensures made { pass.new.made ≤ pass.old.made + 1 }
    ensures err { OnErr result (pass.new.made ≡ pass.old.made) }
    ensures kept { kept_of pass.new ≡ kept_of pass.old }
{
    put(arena, pass, Kind::ChangesEnd, 0, 0)
}

/// The place of a list of names.
#[tactic(auto, using(ct_word::proofs::Prefixes::place_in_prefix))]
fn names<N: Site>(arena: &Arena<N>, pass: &mut Pass<N>, names: &[Text]) -> Result<u32, Full>
    ensures stands { IfOk result (λ place. StandsAt pass.new.words place (IsNameList names.now)) }
    ensures place { IfOk result (λ place. IsTrue (is_place_of pass.new.words class.NameList place)) }
    ensures small { IfOk result (λ place. place < 2 ^ 28) }
    ensures writes { PassWrites N.log.cap pass.old pass.new (sum_by name_words names.now + 1) (is_err result) }
{
    let mut place = put(arena, pass, Kind::NamesEnd, 0, 0)?;
    for name in names {
        let word = text(arena, pass, name.as_str())?;
        place = put(arena, pass, Kind::Names, place, word)?;
    }
    Ok(place)
}

/// The place of a change list with the change of this kind and of these parts added.
#[tactic(auto, using(ct_word::proofs::Prefixes::place_in_prefix))]
pub(crate) fn add<N: Site>(
    arena: &Arena<N>,
    pass: &mut Pass<N>,
    list: u32,
    kind: Kind,
    left: u32,
    right: u32,
) -> Result<u32, Full>
    requires small { list < 2 ^ 28 }
    requires list { IsTrue (is_place_of pass.old.words class.ChangeList list) }
    requires left { left < 2 ^ 28 }
    requires right { right < 2 ^ 28 }
    requires formed { IsTrue (is_formed_as (Some kind) pass.old.words left right) }
    requires change { class_of kind ≡ class.Change }
    ensures adds { IfOk result (λ place. StandsAt pass.new.words place (IsChangeList (change_list_at pass.old.words list ++ change_of pass.old.words kind left right ∷ []))) }
    ensures place { IfOk result (λ place. IsTrue (is_place_of pass.new.words class.ChangeList place)) }
    ensures small { IfOk result (λ place. place < 2 ^ 28) }
    ensures writes { PassWrites N.log.cap pass.old pass.new 2 (is_err result) }
{
    let change = put(arena, pass, kind, left, right)?;
    put(arena, pass, Kind::Changes, list, change)
}

/// The place of a change list with the creation of a table added.
///
/// # Errors
/// `Full` where the log has no room for a word of it.
#[tactic(auto, using(ct_word::proofs::Prefixes::place_in_prefix))]
pub fn create<N: Site>(
    arena: &Arena<N>,
    pass: &mut Pass<N>,
    list: u32,
    name: &str,
    columns: &[Text],
) -> Result<u32, Full>
    requires small { list < 2 ^ 28 }
    requires list { IsTrue (is_place_of pass.old.words class.ChangeList list) }
    ensures stands { IfOk result (λ place. StandsAt pass.new.words place (IsChangeList (change_list_at pass.old.words list ++ Create name.now columns.now ∷ []))) }
    ensures place { IfOk result (λ place. IsTrue (is_place_of pass.new.words class.ChangeList place)) }
    ensures small { IfOk result (λ place. place < 2 ^ 28) }
    ensures writes { PassWrites N.log.cap pass.old pass.new (sum_by name_words (name.now ∷ columns.now) + 2) (is_err result) }
{
    let table = text(arena, pass, name)?;
    let list_of_names = names(arena, pass, columns)?;
    add(arena, pass, list, Kind::Create, table, list_of_names)
}
