// Actions that are encoded, committed, read back and printed.

ghost use Rattle.std.specs.Prelude.{◌≡◌, [], ◌∷◌, IfOk, IsTrue};
ghost use mathlib.Core.List.{IsPrefix};
ghost use Rattle.ct_word.specs.declared.kinds.Class.TheVariants as class;
ghost use Rattle.ct_word.specs.WellFormed.{IsWellFormed, is_place_of};
ghost use Rattle.ct_query.specs.Views.{action_of};
ghost use Rattle.ct_history.specs.Encodes.{AreHanded, IsEncodable};
ghost use Rattle.ct_condition.specs.Writes.{kept_of};
ghost use Rattle.ct_history.specs.Rows.{IsRowOf};

use crate::tests::changes::placed;
use crate::tests::checks::has_words;
use crate::tests::transcript::{is_text, text_of};
use ct_arena::{Arena, Blank, Log, Pass, Site};
use ct_condition::eq;
use ct_history::{commits, encode, no_changes};
use ct_query::{Action, Pred};
use ct_transcript::Transcript;
use ct_word::{CRow, List, Memory, Null, Term, Text, Value};
use std::alloc::{AllocError, Global};
use std::marker::Brand;
use std::process::Abort;
use std::test::Fail;

/// What a session commits.
#[derive(Drop)]
enum Said {
    Update,
    Key,
}

/// The log after the commit of `update t set a = 5, b = ?x where b = 5;`, where t has the columns a and b.
const UPDATED: [u64; 20] = [
    0x0a_0000000_0000000,
    0x0b_0000000_0000000,
    0x1b_0000000_0000000,
    0x09_0000001_0000000,
    0x03_0000000_0000000,
    0x04_0000004_0000005,
    0x0c_0000003_0000005,
    0x1f_0000000_0000000,
    0x1e_0000000_0000005,
    0x20_0000007_0000008,
    0x01_0000000_0000000,
    0x02_000000a_0000078,
    0x06_000000b_0000000,
    0x1e_0000001_000000c,
    0x20_0000009_000000d,
    0x21_000000e_0000006,
    0x02_000000a_0000074,
    0x22_0000010_000000f,
    0x1c_0000002_0000011,
    0x1d_0040000_0000012,
];

/// The log after the commit of an assertion of a key that is kept where ?x = 2.
const ASSERTED: [u64; 12] = [
    0x0a_0000000_0000000,
    0x0b_0000000_0000000,
    0x03_0000000_0000000,
    0x04_0000002_0000002,
    0x01_0000000_0000000,
    0x02_0000004_0000078,
    0x06_0000005_0000000,
    0x0c_0000003_0000006,
    0x1b_0000000_0000000,
    0x1a_0000007_0000000,
    0x1c_0000008_0000009,
    0x1d_0040000_000000a,
];

/// The two columns of a table, each with the term that it is set to.
fn pair(alloc: Global, first: Term, second: Term) -> Result<List<(u32, Term)>, AllocError>
    ensures { IfOk result (λ sets. sets ≡ (0, first) ∷ (1, second) ∷ []) }
{
    let sets = Vec::from_array(alloc, [(0, first), (1, second)])?;
    Ok(List::from_vec(sets))
}

/// `update t set a = 5, b = ?x where b = 5`.
fn update(alloc: Global) -> Result<Action, Memory>
    ensures { IfOk result (λ action. IsEncodable (action_of action) × AreHanded (action_of action) []) }
{
    let name = Text::from_str(alloc, "t")?;
    let x = Text::from_str(alloc, "x")?;
    let five = Term::Value(Value::Int(5));
    let sets = pair(alloc, five, Term::Null(Null::Named(x)))?;
    let pred = Pred::Same(Term::Column(1), Term::Value(Value::Int(5)));
    Ok(Action::Update { name, sets, pred })
}

/// The place of a change list with the update alone.
fn updated<N: Site>(alloc: Global, arena: &Arena<N>, pass: &mut Pass<N>) -> Result<u32, Fail>
    ensures place { IfOk result (λ place. IsTrue (is_place_of pass.new.words class.ChangeList place)) }
    ensures kept { kept_of pass.new ≡ kept_of pass.old }
{
    let action = update(alloc)?;
    let list = no_changes(arena, pass)?;
    let place = encode(arena, pass, list, &action, &[]);
    drop(action);
    Ok(place?)
}

/// The row without cells under ?x = 2.
fn is_two<N: Site>(alloc: Global, arena: &Arena<N>, pass: &mut Pass<N>) -> Result<CRow, Fail>
    ensures row { IfOk result (λ r. IsRowOf pass.new.words r) }
    ensures kept { kept_of pass.new ≡ kept_of pass.old }
{
    let name = Text::from_str(alloc, "x")?;
    let two = placed(arena, pass, Term::Value(Value::Int(2)))?;
    let x = placed(arena, pass, Term::Null(Null::Named(name)))?;
    let cond = eq(arena, pass, x, two)?;
    let cells = List::new(alloc);
    Ok(CRow { cells, cond })
}

/// The place of a change list with the assertion of a key alone, which is kept where ?x = 2.
fn asserted<N: Site>(alloc: Global, arena: &Arena<N>, pass: &mut Pass<N>) -> Result<u32, Fail>
    ensures place { IfOk result (λ place. IsTrue (is_place_of pass.new.words class.ChangeList place)) }
    ensures kept { kept_of pass.new ≡ kept_of pass.old }
{
    let columns = List::from_vec(Vec::from_array(alloc, [0])?);
    let name = Text::from_str(alloc, "t")?;
    let rows = [is_two(alloc, arena, pass)?];
    let list = no_changes(arena, pass)?;
    let action = Action::AssertKey { name, columns };
    let place = encode(arena, pass, list, &action, &rows);
    drop(action);
    Ok(place?)
}

/// The place of the change list of what is said.
fn changes<N: Site>(
    alloc: Global,
    arena: &Arena<N>,
    pass: &mut Pass<N>,
    said: Said,
) -> Result<u32, Fail>
    ensures place { IfOk result (λ place. IsTrue (is_place_of pass.new.words class.ChangeList place)) }
    ensures kept { kept_of pass.new ≡ kept_of pass.old }
{
    match said {
        Said::Update => updated(alloc, arena, pass),
        Said::Key => asserted(alloc, arena, pass),
    }
}

/// A log whose only session has committed what is said.
#[tactic(auto, using(ct_word::proofs::Prefixes::place_in_prefix))]
fn committed<N: Site>(alloc: Global, blank: Blank, said: Said) -> Result<Log, Fail>
    requires { blank ≡ N.log }
    ensures { IfOk result (λ log. IsWellFormed log) }
{
    let (arena, mut keeper) = Arena::<N>::make(blank);
    let mut pass = keeper.enrol(alloc, &arena)?;
    let list = changes(alloc, &arena, &mut pass, said)?;
    let mut guest = keeper.enter(&arena, pass);
    let commit = keeper.append_commit(&arena, &mut guest, list);
    let pass = keeper.leave(&arena, guest);
    let _ = keeper.end(&arena, pass);
    commit?;
    Ok(keeper.finish(arena))
}

/// A log has these words, and its history this text.
fn is_printed(
    rt: &impl Abort,
    alloc: Global,
    words: Log,
    wanted: &[u64],
    history: &str,
) -> Result<(), Fail>
    requires { IsWellFormed words }
{
    has_words(rt, words.words(), wanted);
    if words.words().len() > 1000 {
        return Err(Fail::new("too many words"));
    }
    let transcript = Transcript {
        sessions: List::new(alloc),
        history: commits(alloc, words.words())?,
        words,
    };
    let text = text_of(alloc, &transcript)?;
    is_text(rt, text.as_str(), history);
    Ok(())
}

/// The sets come in their order, and the condition keeps its column.
#[test]
fn an_update_is_printed(rt: HostRuntime) -> Result<(), Fail> {
    let blank = Blank::make(rt.alloc(), 64)?;
    let words = committed::<Brand>(rt.alloc(), blank, Said::Update)?;
    is_printed(
        &rt,
        rt.alloc(),
        words,
        &UPDATED,
        "history\n1 by 1\n  update t set $1 = 5, $2 = ?x where $2 = 5\nend\n",
    )
}

/// An assertion of a key is that of the condition that is handed in.
#[test]
fn a_key_is_printed_as_its_condition(rt: HostRuntime) -> Result<(), Fail> {
    let blank = Blank::make(rt.alloc(), 64)?;
    let words = committed::<Brand>(rt.alloc(), blank, Said::Key)?;
    is_printed(
        &rt,
        rt.alloc(),
        words,
        &ASSERTED,
        "history\n1 by 1\n  assert ?x = 2\nend\n",
    )
}
