// The keys of rows, by which the candidates of a join are found.

ghost use Rattle.std.specs.Prelude.{◌≡◌, ◌<◌, length, map, All, IfOk};
ghost use Rattle.ct_algebra.specs.Keyed.{column_on, key_of};

use crate::equals::Equal;
use crate::operands::Operand;
use ct_join::{Key, mixed};
use ct_plan::Side;
use ct_table::RowSource;
use ct_word::is_constant;
use std::alloc::{AllocError, Global};

/// The column of one side.
fn column_on(side: Side, equal: &Equal) -> usize
    ensures { result ≡ column_on side equal.now }
{
    match side {
        Side::Left => equal.left,
        Side::Right => equal.right,
    }
}

/// The key of a row of these cells. Where two rows of a pair have keys of different numbers, they have different
/// constants in columns that are to be equal.
pub(crate) fn key_of(words: &[u64], side: Side, equals: &[Equal], cells: &[u32]) -> Key
    requires { All (λ e. column_on side e < length cells.now) equals.now }
    ensures { result ≡ key_of words.now side equals.now cells.now }
{
    let mut number = 0;
    for equal in equals {
        let place = cells[column_on(side, equal)];
        if !is_constant(words, place) {
            return Key::Null;
        }
        number = mixed(number, place);
    }
    Key::Constant(number)
}

/// The keys of the rows of a table.
pub(crate) fn keys_of(
    alloc: Global,
    words: &[u64],
    side: Side,
    equals: &[Equal],
    table: &Operand,
) -> Result<Vec<Key>, AllocError>
    requires { All (λ r. All (λ e. column_on side e < length r.cells) equals.now) table.now.rows }
    ensures { IfOk result (λ out. out.items ≡ map (λ r. key_of words.now side equals.now r.cells) table.now.rows) }
{
    let mut keys = Vec::new(alloc);
    for nth in 0..table.len() {
        let row = table.row(nth);
        keys.push(key_of(words, side, equals, row.cells.as_slice()))?;
    }
    Ok(keys)
}
