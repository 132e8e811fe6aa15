// What a query reads, and its size and bound. The definitions of these compute the same for more queries, in the proofs of ct_query.

use ct_query::{Ask, Count, Counts, Pred, Query, Read, Resolved, nodes, reads, size};
use ct_word::{List, Text};
use std::alloc::Global;
use std::test::Fail;

fn text(alloc: Global, text: &str) -> Result<Text, Fail> {
    Ok(Text::from_str(alloc, text)?)
}

/// All rows of a table, and of them the first column.
fn column_of(alloc: Global, name: &str) -> Result<Box<Query>, Fail> {
    let table = Query::Table(text(alloc, name)?);
    let all = Query::Select(Pred::True, Box::new(alloc, table)?);
    let first = List::from_vec(Vec::from_array(alloc, [0])?);
    Ok(Box::new(alloc, Query::Project(first, Box::new(alloc, all)?))?)
}

/// A table of one column with so many rows.
fn count(alloc: Global, name: &str, rows: u64) -> Result<Count, Fail> {
    Ok(Count {
        name: text(alloc, name)?,
        rows,
        columns: 1,
    })
}

/// The first column of a table without that of another one.
fn difference(alloc: Global) -> Result<Query, Fail> {
    let right = column_of(alloc, "t")?;
    Ok(Query::Except(column_of(alloc, "u")?, right))
}

/// The tables of the difference, of two rows and of three.
fn counts(alloc: Global) -> Result<Counts, Fail> {
    let tables = [count(alloc, "t", 2)?, count(alloc, "u", 3)?];
    Ok(Counts {
        tables: List::from_vec(Vec::from_array(alloc, tables)?),
    })
}

/// The size of a query, and its bound. Nothing is said of them, which keeps the test short to prove.
fn measured(query: &Query, counts: &Counts) -> [u64; 2] {
    [size(query, counts), nodes(query, counts)]
}

/// What asks for the rows of a query.
fn asked(alloc: Global, query: Query) -> Resolved {
    Resolved::Ask {
        ask: Ask::Rows,
        columns: List::new(alloc),
        query,
    }
}

/// What asking for the difference reads.
fn read(alloc: Global) -> Result<List<Read>, Fail> {
    let second = text(alloc, "t")?;
    let all = [
        Read::Table(text(alloc, "u")?),
        Read::Table(second),
        Read::Worlds,
    ];
    Ok(List::from_vec(Vec::from_array(alloc, all)?))
}

/// Whether asking for a query reads so much.
fn are_read(alloc: Global, query: Query, wanted: &[Read]) -> Result<bool, Fail> {
    let asked = asked(alloc, query);
    let found = reads(alloc, &asked);
    // What a tree is dropped by is read off its every variant, unless a call takes it.
    drop(asked);
    Ok(found?.as_slice() == wanted)
}

#[test]
fn a_difference_is_read_and_bounded(rt: HostRuntime) -> Result<(), Fail> {
    let counts = counts(rt.alloc())?;
    let wanted = read(rt.alloc())?;
    let less = difference(rt.alloc())?;
    let found = measured(&less, &counts);
    let are_read = are_read(rt.alloc(), less, wanted.as_slice());
    assert_eq!(rt; found, [6, 18 + 12 + 6 * 4 + 3]);
    assert!(rt; are_read?);
    Ok(())
}
