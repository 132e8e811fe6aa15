// A deletion. The other operators are run by the scripts of tests/.

use crate::tests::tables::{equal, filled, named, number};
use ct_arena::{Arena, Pass, Site};
use ct_operators::{CRow, delete};
use ct_samples::{is_place, no_columns};
use ct_word::{Class, List};
use std::alloc::Global;
use std::test::Fail;

/// The rows that are left of a table of these cells, each of them always a row, where those under a condition go.
fn left<N: Site>(
    alloc: Global,
    arena: &Arena<N>,
    pass: &mut Pass<N>,
    cells: [u32; 2],
    cond: u32,
) -> Result<List<CRow>, Fail> {
    let table = filled(alloc, arena, pass, &[(cells[0], 0), (cells[1], 0)])?;
    if !is_place(pass.words(), Class::Cond, cond) {
        return Err("no condition".into());
    }
    if !no_columns(pass.words()) {
        return Err("a column".into());
    }
    let rest = delete(alloc, arena, pass, &table, cond)?;
    Ok(rest.rows)
}

/// Of the rows of 1 and of ?x both are left where those go under which ?x is 1, each under another condition.
pub fn shows_deletion<N: Site>(
    alloc: Global,
    arena: &Arena<N>,
    pass: &mut Pass<N>,
) -> Result<bool, Fail> {
    let one = number(arena, pass, 1)?;
    let x = named(alloc, arena, pass, "x")?;
    let cond = equal(arena, pass, x, one)?;
    let rows = left(alloc, arena, pass, [one, x], cond)?;
    Ok(rows.len() == 2 && rows.as_slice().iter().all(|row| row.cond > cond))
}
