// The printed form of a conditional table.

ghost use Rattle.std.specs.Prelude.{◌≡◌, ◌<◌, ◌^◌, ◌∷◌, length, map, All, IfOk, IsTrue};
ghost use Rattle.ct_word.specs.declared.kinds.Class.TheVariants as class;
ghost use Rattle.ct_word.specs.WellFormed.{IsWellFormed, is_place_of};
ghost use Rattle.ct_word.specs.Reading.{term_at};
ghost use Rattle.ct_operators.specs.Tables.{AreRows};
ghost use Rattle.ct_statement.specs.Printed.{printed_rows, IsPrinted};

use ct_rewrite::{AnswerRow, Normal, normal};
use ct_transcript::Answer;
use ct_word::{CRow, List, Memory, Term, Text, term_at};
use std::alloc::Global;

/// The place of the global condition, and then those of the rows' conditions.
///
/// # Errors
/// `Memory` where there is none for the list.
fn roots(alloc: Global, global: u32, rows: &[CRow]) -> Result<Vec<u32>, Memory>
    ensures { IfOk result (λ places. places.items ≡ global ∷ map (λ r. r.cond) rows.now) }
{
    let mut places = Vec::new(alloc);
    places.push(global)?;
    for row in rows {
        places.push(row.cond)?;
    }
    Ok(places)
}

/// The terms at the places of a row's cells.
///
/// # Errors
/// `Memory` where there is none for the list.
fn terms(alloc: Global, words: &[u64], cells: &[u32]) -> Result<List<Term>, Memory>
    requires formed { IsWellFormed words.now }
    requires cells { All (λ p. IsTrue (is_place_of words.now class.Term p)) cells.now }
    ensures { IfOk result (λ ts. ts ≡ map (term_at words.now) cells.now) }
{
    let mut terms = Vec::new(alloc);
    for place in cells {
        terms.push(term_at(alloc, words, *place)?)?;
    }
    Ok(List::from_vec(terms))
}

/// The rows under the conditions at these positions.
///
/// # Errors
/// `Memory` where there is none for the list.
fn printed_rows(
    alloc: Global,
    words: &[u64],
    rows: &[CRow],
    positions: &[u32],
) -> Result<List<AnswerRow>, Memory>
    requires formed { IsWellFormed words.now }
    requires cells { All (λ r. All (λ p. IsTrue (is_place_of words.now class.Term p)) r.cells) rows.now }
    requires positions { length positions.now ≡ length rows.now }
    ensures { IfOk result (λ printed. printed ≡ printed_rows words.now rows.now positions.now) }
{
    let mut printed = Vec::new(alloc);
    for (i, row) in rows.iter().enumerate() {
        printed.push(AnswerRow {
            cells: terms(alloc, words, row.cells.as_slice())?,
            cond: positions[i],
        })?;
    }
    Ok(List::from_vec(printed))
}

/// The answer that prints the rows of a conditional table under a global condition, over the words of a log.
///
/// # Errors
/// `Memory` where there is none for the answer.
pub fn answer_of(
    alloc: Global,
    words: &[u64],
    columns: List<Text>,
    rows: &[CRow],
    global: u32,
) -> Result<Answer, Memory>
    requires formed { IsWellFormed words.now }
    requires short { length words.now < 2 ^ 28 }
    requires global { IsTrue (is_place_of words.now class.Cond global) }
    requires rows { AreRows words.now (length columns) rows.now }
    ensures { IfOk result (IsPrinted words.now columns global rows.now) }
{
    let places = roots(alloc, global, rows)?;
    let Normal { nodes, roots } = normal(alloc, words, places.as_slice())?;
    let Some((global, positions)) = roots.as_slice().split_first() else {
        unreachable!()
    };
    Ok(Answer {
        columns,
        nodes,
        rows: printed_rows(alloc, words, rows, positions)?,
        global: *global,
    })
}
