// Which rows of another table may be worth what a row is, without a look at the others.

ghost use Rattle.std.specs.Prelude.{◌≡◌, ◌≢◌, ◌<◌, ◌^◌, length, IfOk, OnOk, IfSome};
ghost use Rattle.ct_join.specs.Pairs.{partners};
ghost use Rattle.ct_operators.specs.Nearness as spec;
ghost use Rattle.ct_operators.specs.Nearness.{row_key, rows_in, AreKeys};

use crate::judging::Test;
use crate::others::Others;
use ct_join::{Index, Key, mixed};
use ct_word::{CRow, Memory, is_constant};
use std::alloc::Global;

/// Where so many rows come or fewer, each meets all rows of the other table: an index would cost more than it saves.
const FEW_ROWS: usize = 8;

/// The key of a row: a number mixed from the places of its cells, where all of them are constants.
#[tactic(auto, using(crate::proofs::Narrowing::key_more, crate::proofs::Narrowing::key_null, crate::proofs::Narrowing::key_done))]
fn key_of(words: &[u64], cells: &[u32]) -> Key
    ensures { result ≡ row_key words.now cells.now }
{
    let mut number = 0;
    for cell in cells {
        if !is_constant(words, *cell) {
            return Key::Null;
        }
        number = mixed(number, *cell);
    }
    Key::Constant(number)
}

/// The rows of another table that a test asks for.
fn rows_in<'a>(test: Test<'a>) -> Option<&'a [CRow]>
    ensures { IfSome result (λ rows. rows.now ≡ rows_in test.entry) }
{
    match test {
        Test::Among(Others::All(rows)) => Some(rows),
        Test::Apart(Others::All(rows)) => Some(rows),
        _ => None,
    }
}

/// The keys of the rows that a test asks for, perhaps none. An index of them pays only where many rows are tested.
pub(crate) fn keys_for(
    alloc: Global,
    words: &[u64],
    test: Test<'_>,
    count: usize,
) -> Result<Vec<Key>, Memory>
    ensures keys { IfOk result (λ keys. AreKeys words.now test.entry keys.items) }
    ensures few { IfOk result (λ keys. length keys.items < 2 ^ 32) }
{
    let mut keys = Vec::new(alloc);
    let Some(rows) = rows_in(test) else {
        return Ok(keys);
    };
    if count <= FEW_ROWS || rows.len() > u32::MAX as usize {
        return Ok(keys);
    }
    for row in rows {
        keys.push(key_of(words, row.cells.as_slice()))?;
    }
    Ok(keys)
}

/// Makes `found` the places of the keys that may be of one value with that of a row, where there are keys.
pub(crate) fn find_near(
    words: &[u64],
    keys: &[Key],
    index: &Index<'_>,
    row: &CRow,
    found: &mut Vec<u32>,
) -> Result<(), Memory>
    requires { index.now ≡ keys.now }
    ensures { OnOk result (length keys.now ≢ 0 → found.new.items ≡ partners (row_key words.now row.now.cells) keys.now) }
{
    if keys.is_empty() {
        return Ok(());
    }
    index.find(key_of(words, row.cells.as_slice()), found)
}

/// A test of one row, with those rows of the other table alone that were found. Without keys it is the test itself.
pub(crate) fn narrowed<'a>(test: Test<'a>, keys: &[Key], found: &'a [u32]) -> Test<'a>
    ensures { result ≡ spec.narrowed keys.now found.entry test.entry }
{
    if keys.is_empty() {
        return test;
    }
    match test {
        Test::Among(others) => Test::Among(others.at(found)),
        Test::Apart(others) => Test::Apart(others.at(found)),
        _ => test,
    }
}
