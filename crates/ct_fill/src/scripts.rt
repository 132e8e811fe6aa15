// The script of a session.

ghost use Rattle.std.specs.Prelude.{◌≡◌, List, [], ◌∷◌, ◌++◌, flat_map, string_bytes, IfOk, OnOk};
ghost use Rattle.ct_fill.specs.Script.{creation, insertion, insertions, ending, statements, ended, script_of};

use ct_word::{Memory, Text};
use std::alloc::Global;

/// How many nulls the rows of a table share.
const NULLS: u32 = 8;

fn push(list: &mut Vec<Text>, statement: String) -> Result<(), Memory>
    ensures { OnOk result (list.new.items ≡ list.old.items ++ string_bytes statement ∷ []) }
{
    list.push(Text::from_string(statement))?;
    Ok(())
}

fn push_insertion(alloc: Global, list: &mut Vec<Text>, session: u32, i: u32) -> Result<(), Memory>
    ensures { OnOk result (list.new.items ≡ list.old.items ++ insertion session i ∷ []) }
{
    let k = i % NULLS;
    push(
        list,
        format!(in alloc; "insert into f{session} values ({i}, ?f{session}_{k})")?,
    )?;
    Ok(())
}

fn push_insertions(alloc: Global, list: &mut Vec<Text>, session: u32, n: u32) -> Result<(), Memory>
    ensures { OnOk result (list.new.items ≡ list.old.items ++ insertions session n) }
{
    for before in 0..n {
        push_insertion(alloc, list, session, before + 1)?;
    }
    Ok(())
}

fn push_ending(alloc: Global, list: &mut Vec<Text>, session: u32) -> Result<(), Memory>
    ensures { OnOk result (list.new.items ≡ list.old.items ++ ending session) }
{
    push(
        list,
        format!(in alloc; "insert into f{session} values (0, 0)")?,
    )?;
    push(
        list,
        format!(in alloc; "delete from f{session} where b = 3")?,
    )?;
    push(
        list,
        format!(in alloc; "select a from f{session} where b = 1")?,
    )?;
    push(
        list,
        format!(in alloc; "possible select a from f{session} where b = 1")?,
    )?;
    push(list, format!(in alloc; "certain select a from f{session}")?)?;
    Ok(())
}

fn all_statements(alloc: Global, session: u32, n: u32) -> Result<Vec<Text>, Memory>
    ensures { IfOk result (λ list. list.items ≡ statements session n) }
{
    let mut list = Vec::new(alloc);
    push(
        &mut list,
        format!(in alloc; "create table f{session} (a, b)")?,
    )?;
    push_insertions(alloc, &mut list, session, n)?;
    push_ending(alloc, &mut list, session)?;
    Ok(list)
}

fn push_ended(out: &mut String, statement: &str) -> Result<(), Memory>
    ensures { OnOk result (string_bytes out.new ≡ string_bytes out.old ++ ended statement.now) }
{
    out.push_str(statement)?;
    out.push_str(";\n")?;
    Ok(())
}

/// The script of this session, with the rows from 1 to `n`: `n + 6` statements, each on a line of its
/// own. It is meant for sessions 1 to 4 and `n` from 1 to 2,000, and is as told for other numbers too.
///
/// Scripts of different sessions have no table and no null in common.
///
/// # Errors
/// `Memory` where there is none for the text.
pub fn script(alloc: Global, session: u32, n: u32) -> Result<Text, Memory>
    ensures { IfOk result (λ text. text ≡ script_of session n) }
{
    let mut out = String::new(alloc);
    for statement in &all_statements(alloc, session, n)? {
        push_ended(&mut out, statement.as_str())?;
    }
    Ok(Text::from_string(out))
}
