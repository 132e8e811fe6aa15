// The rows of the replies `possible` and `certain` as they are printed.

ghost use Rattle.std.specs.Prelude.{◌≡◌, [], ◌∷◌, map};
ghost use Rattle.ct_transcript.specs.Text.{possible_line, certain_line};
ghost use Rattle.ct_print.specs.Written.{Adds};

use crate::rows::push_line;
use ct_print::{push_cells, push_tuple, push_world};
use ct_rewrite::{CertainRow, PossibleRow};
use ct_word::{Memory, Text};
use std::alloc::Global;

fn push_possible(alloc: Global, lines: &mut Vec<Text>, row: &PossibleRow) -> Result<(), Memory>
    ensures { Adds result lines.old lines.new (possible_line row.now ∷ []) }
{
    let mut text = String::from_str(alloc, "  ")?;
    push_cells(&mut text, row.cells.as_slice())?;
    text.push_str(" in ")?;
    push_world(&mut text, row.world.as_slice())?;
    push_line(lines, text)
}

/// Adds a line for each possible row.
pub(crate) fn push_possible_rows(
    alloc: Global,
    lines: &mut Vec<Text>,
    rows: &[PossibleRow],
) -> Result<(), Memory>
    ensures { Adds result lines.old lines.new (map possible_line rows.now) }
{
    for row in rows {
        push_possible(alloc, lines, row)?;
    }
    Ok(())
}

fn push_certain(alloc: Global, lines: &mut Vec<Text>, row: &CertainRow) -> Result<(), Memory>
    ensures { Adds result lines.old lines.new (certain_line row.now ∷ []) }
{
    let mut text = String::from_str(alloc, "  ")?;
    push_tuple(&mut text, row.tuple.as_slice())?;
    text.push_str(" absence refuted")?;
    push_line(lines, text)
}

/// Adds a line for each certain tuple.
pub(crate) fn push_certain_rows(
    alloc: Global,
    lines: &mut Vec<Text>,
    rows: &[CertainRow],
) -> Result<(), Memory>
    ensures { Adds result lines.old lines.new (map certain_line rows.now) }
{
    for row in rows {
        push_certain(alloc, lines, row)?;
    }
    Ok(())
}
