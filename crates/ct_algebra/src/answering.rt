// The answer to a query, one operator after another.

ghost use Rattle.std.specs.Prelude.{◌≢◌, ◌↔◌, ℕ, ◌<◌, ◌+◌, ◌*◌, ◌^◌, ◌++◌, [], List, length, map, All, IfOk, IsTrue};
ghost use Rattle.ct_query.specs.Bounds.{ops};
ghost use Rattle.ct_query.specs.Fits.{Fits, FitsRows};
ghost use Rattle.ct_query.specs.Plain as plain;
ghost use Rattle.ct_query.specs.Plain.{PlainQuery};
ghost use Rattle.ct_query.specs.Pred.{condition_of};
ghost use Rattle.ct_query.specs.Terms.{condition_terms, query_terms};
ghost use Rattle.ct_query.specs.Views.{query_of};
ghost use Rattle.ct_table.specs.Denotes.{TableView, heading_of};
ghost use Rattle.ct_operators.specs.Tables.{AreRows};
ghost use Rattle.ct_algebra.specs.Operands.{AreTables};
ghost use Rattle.ct_algebra.specs.Evaluates.{Evaluates};
ghost use Rattle.ct_algebra.specs.Joining.{pair_words};
ghost use Rattle.ct_algebra.specs.Words.{most_rows, most_words, GrowsWithin, Answers};

use crate::joining::join;
use crate::literals::put_literals;
use crate::operands::Operand;
use crate::picking::join_picked;
use ct_arena::{Arena, Pass, Site};
use ct_query::{Pred, Query};
use ct_table::{
    CTable, Db, RowSource, TableError, except, intersect, product, project, select, union,
};
use std::alloc::Global;

/// The rows of an answer for which a predicate holds. Where there are rows, its literals are put first.
fn filtered<N: Site>(
    alloc: Global,
    arena: &Arena<N>,
    pass: &mut Pass<N>,
    p: &Pred,
    table: Operand,
) -> Result<CTable, TableError>
    requires rows { AreRows pass.old.words (length table.columns) table.rows }
    requires predicate { FitsRows (length table.columns) (condition_of p.now) }
    ensures evaluates { (old : List ℕ) (db : List TableView) (q : PlainQuery) → Evaluates old pass.old.words db q table → IfOk result (Evaluates old pass.new.words db (plain.Select (condition_of p.now) q)) }
    ensures grows { GrowsWithin N.log.cap result pass.old pass.new (condition_terms (condition_of p.now)) (length table.rows * (ops (condition_of p.now) + 1)) }
{
    // The words are well formed, also where there are no rows.
    let _ = pass.words();
    if table.len() == 0 {
        return Ok(table.into_table(alloc)?);
    }
    put_literals(arena, pass, p)?;
    select(alloc, arena, pass, p, &table)
}

/// Whether there are pairs of rows, and no more rows on the right than places in an index.
fn have_pairs(left: &Operand, right: &Operand) -> bool
    ensures few { IsTrue result → length right.now.rows < 2 ^ 32 }
    ensures pairs { IsTrue result ↔ ((length right.now.rows < 2 ^ 32) × (length left.now.rows ≢ 0) × (length right.now.rows ≢ 0)) }
{
    let few = right.len() as u64 <= u32::MAX as u64;
    few && left.len() != 0 && right.len() != 0
}

/// The pairs of rows of two answers for which a predicate holds, found in one pass. Its literals are put first.
fn in_one_pass<N: Site>(
    alloc: Global,
    arena: &Arena<N>,
    pass: &mut Pass<N>,
    p: &Pred,
    left: &Operand,
    right: &Operand,
) -> Result<CTable, TableError>
    requires left { AreRows pass.old.words (length left.now.columns) left.now.rows }
    requires right { AreRows pass.old.words (length right.now.columns) right.now.rows }
    requires predicate { FitsRows (length left.now.columns + length right.now.columns) (condition_of p.now) }
    requires few { length right.now.rows < 2 ^ 32 }
    ensures evaluates { (old : List ℕ) (db : List TableView) (a b : PlainQuery) → Evaluates old pass.old.words db a left.now → Evaluates old pass.old.words db b right.now → IfOk result (Evaluates old pass.new.words db (plain.Select (condition_of p.now) (plain.Product a b))) }
    ensures grows { GrowsWithin N.log.cap result pass.old pass.new (condition_terms (condition_of p.now)) (length left.now.rows * length right.now.rows + length left.now.rows * length right.now.rows * (ops (condition_of p.now) + 1)) }
{
    put_literals(arena, pass, p)?;
    join(alloc, arena, pass, p, left, right)
}

/// The same, of all pairs.
fn of_all_pairs<N: Site>(
    alloc: Global,
    arena: &Arena<N>,
    pass: &mut Pass<N>,
    p: &Pred,
    left: &Operand,
    right: &Operand,
) -> Result<CTable, TableError>
    requires left { AreRows pass.old.words (length left.now.columns) left.now.rows }
    requires right { AreRows pass.old.words (length right.now.columns) right.now.rows }
    requires predicate { FitsRows (length left.now.columns + length right.now.columns) (condition_of p.now) }
    ensures evaluates { (old : List ℕ) (db : List TableView) (a b : PlainQuery) → Evaluates old pass.old.words db a left.now → Evaluates old pass.old.words db b right.now → IfOk result (Evaluates old pass.new.words db (plain.Select (condition_of p.now) (plain.Product a b))) }
    ensures grows { GrowsWithin N.log.cap result pass.old pass.new (condition_terms (condition_of p.now)) (length left.now.rows * length right.now.rows + length left.now.rows * length right.now.rows * (ops (condition_of p.now) + 1)) }
{
    let pairs = product(alloc, arena, pass, left, right)?;
    filtered(alloc, arena, pass, p, Operand::made(pairs))
}

/// The same, in one pass where there are pairs.
fn joined<N: Site>(
    alloc: Global,
    arena: &Arena<N>,
    pass: &mut Pass<N>,
    p: &Pred,
    left: &Operand,
    right: &Operand,
) -> Result<CTable, TableError>
    requires left { AreRows pass.old.words (length left.now.columns) left.now.rows }
    requires right { AreRows pass.old.words (length right.now.columns) right.now.rows }
    requires predicate { FitsRows (length left.now.columns + length right.now.columns) (condition_of p.now) }
    ensures evaluates { (old : List ℕ) (db : List TableView) (a b : PlainQuery) → Evaluates old pass.old.words db a left.now → Evaluates old pass.old.words db b right.now → IfOk result (Evaluates old pass.new.words db (plain.Select (condition_of p.now) (plain.Product a b))) }
    ensures grows { GrowsWithin N.log.cap result pass.old pass.new (condition_terms (condition_of p.now)) (length left.now.rows * length right.now.rows + length left.now.rows * length right.now.rows * (ops (condition_of p.now) + 1)) }
{
    if have_pairs(left, right) {
        return in_one_pass(alloc, arena, pass, p, left, right);
    }
    of_all_pairs(alloc, arena, pass, p, left, right)
}

/// Some columns of the pairs of rows of two answers for which a predicate holds, gathered as they come. Its literals
/// are put first.
fn picked_in_one_pass<N: Site>(
    alloc: Global,
    arena: &Arena<N>,
    pass: &mut Pass<N>,
    columns: &[u32],
    p: &Pred,
    left: &Operand,
    right: &Operand,
) -> Result<CTable, TableError>
    requires left { AreRows pass.old.words (length left.now.columns) left.now.rows }
    requires right { AreRows pass.old.words (length right.now.columns) right.now.rows }
    requires columns { All (λ k. k < length left.now.columns + length right.now.columns) columns.now }
    requires predicate { FitsRows (length left.now.columns + length right.now.columns) (condition_of p.now) }
    requires few { length right.now.rows < 2 ^ 32 }
    ensures evaluates { (old : List ℕ) (db : List TableView) (a b : PlainQuery) → Evaluates old pass.old.words db a left.now → Evaluates old pass.old.words db b right.now → IfOk result (Evaluates old pass.new.words db (plain.Project columns.now (plain.Select (condition_of p.now) (plain.Product a b)))) }
    ensures grows { GrowsWithin N.log.cap result pass.old pass.new (condition_terms (condition_of p.now)) (length left.now.rows * length right.now.rows * (pair_words (condition_of p.now) + 1)) }
{
    put_literals(arena, pass, p)?;
    join_picked(alloc, arena, pass, columns, p, left, right)
}

/// The same, in one pass where there are pairs.
fn picked_join<N: Site>(
    alloc: Global,
    arena: &Arena<N>,
    pass: &mut Pass<N>,
    columns: &[u32],
    p: &Pred,
    left: &Operand,
    right: &Operand,
) -> Result<CTable, TableError>
    requires sides { (old : List ℕ) × (db : List TableView) × (a : PlainQuery) × (b : PlainQuery) × Evaluates old pass.old.words db a left.now × Evaluates old pass.old.words db b right.now }
    requires columns { All (λ k. k < length left.now.columns + length right.now.columns) columns.now }
    requires predicate { FitsRows (length left.now.columns + length right.now.columns) (condition_of p.now) }
    ensures evaluates { (old : List ℕ) (db : List TableView) (a b : PlainQuery) → Evaluates old pass.old.words db a left.now → Evaluates old pass.old.words db b right.now → IfOk result (Evaluates old pass.new.words db (plain.Project columns.now (plain.Select (condition_of p.now) (plain.Product a b)))) }
    ensures grows { (old : List ℕ) (db : List TableView) (a b : PlainQuery) → Evaluates old pass.old.words db a left.now → Evaluates old pass.old.words db b right.now → GrowsWithin N.log.cap result pass.old pass.new (condition_terms (condition_of p.now)) (most_rows db a * most_rows db b + most_rows db a * most_rows db b * (ops (condition_of p.now) + 1) + most_rows db a * most_rows db b) }
{
    if have_pairs(left, right) {
        return picked_in_one_pass(alloc, arena, pass, columns, p, left, right);
    }
    let pairs = of_all_pairs(alloc, arena, pass, p, left, right)?;
    project(alloc, arena, pass, columns, &pairs)
}

/// Some columns of all pairs of rows of two answers, in one pass where there are pairs.
fn picked_product<N: Site>(
    alloc: Global,
    arena: &Arena<N>,
    pass: &mut Pass<N>,
    columns: &[u32],
    left: &Operand,
    right: &Operand,
) -> Result<CTable, TableError>
    requires left { AreRows pass.old.words (length left.now.columns) left.now.rows }
    requires right { AreRows pass.old.words (length right.now.columns) right.now.rows }
    requires columns { All (λ k. k < length left.now.columns + length right.now.columns) columns.now }
    ensures evaluates { (old : List ℕ) (db : List TableView) (a b : PlainQuery) → Evaluates old pass.old.words db a left.now → Evaluates old pass.old.words db b right.now → IfOk result (Evaluates old pass.new.words db (plain.Project columns.now (plain.Product a b))) }
    ensures grows { GrowsWithin N.log.cap result pass.old pass.new [] (length left.now.rows * length right.now.rows + length left.now.rows * length right.now.rows) }
{
    if have_pairs(left, right) {
        return picked_in_one_pass(alloc, arena, pass, columns, &Pred::True, left, right);
    }
    let pairs = product(alloc, arena, pass, left, right)?;
    project(alloc, arena, pass, columns, &pairs)
}

/// What an operator reads as a part of a query: the table that the part names, or the one that answers it.
#[cycle(answer)]
fn operand<N: Site>(
    alloc: Global,
    arena: &Arena<N>,
    pass: &mut Pass<N>,
    part: &Query,
    db: &Db,
) -> Result<Operand, TableError>
    requires tables { AreTables pass.old.words db.now }
    requires fits { Fits (map heading_of db.now) (query_of part.now) }
    ensures { Answers N.log.cap pass.old pass.new db.now (query_of part.now) result }
{
    // The words are well formed, also where none is added.
    let _ = pass.words();
    match part {
        Query::Table(name) => Ok(Operand::stored(db.get(name).unwrap())?),
        _ => Ok(Operand::made(answer(alloc, arena, pass, part, db)?)),
    }
}

/// What an operator reads as the two parts of a query.
#[cycle(answer)]
fn sides<N: Site>(
    alloc: Global,
    arena: &Arena<N>,
    pass: &mut Pass<N>,
    left: &Query,
    right: &Query,
    db: &Db,
) -> Result<(Operand, Operand), TableError>
    requires tables { AreTables pass.old.words db.now }
    requires left { Fits (map heading_of db.now) (query_of left.now) }
    requires right { Fits (map heading_of db.now) (query_of right.now) }
    ensures left { IfOk result (λ t. Evaluates pass.old.words pass.new.words db.now (query_of left.now) t.0) }
    ensures right { IfOk result (λ t. Evaluates pass.old.words pass.new.words db.now (query_of right.now) t.1) }
    ensures grows { GrowsWithin N.log.cap result pass.old pass.new (query_terms (query_of left.now) ++ query_terms (query_of right.now)) (most_words db.now (query_of left.now) + most_words db.now (query_of right.now)) }
{
    let one = operand(alloc, arena, pass, left, db)?;
    let other = operand(alloc, arena, pass, right, db)?;
    Ok((one, other))
}

/// What an operator reads as the left part of a query, and the table that answers the right one.
#[cycle(answer)]
fn side_and_table<N: Site>(
    alloc: Global,
    arena: &Arena<N>,
    pass: &mut Pass<N>,
    left: &Query,
    right: &Query,
    db: &Db,
) -> Result<(Operand, CTable), TableError>
    requires tables { AreTables pass.old.words db.now }
    requires left { Fits (map heading_of db.now) (query_of left.now) }
    requires right { Fits (map heading_of db.now) (query_of right.now) }
    ensures left { IfOk result (λ t. Evaluates pass.old.words pass.new.words db.now (query_of left.now) t.0) }
    ensures right { IfOk result (λ t. Evaluates pass.old.words pass.new.words db.now (query_of right.now) t.1) }
    ensures grows { GrowsWithin N.log.cap result pass.old pass.new (query_terms (query_of left.now) ++ query_terms (query_of right.now)) (most_words db.now (query_of left.now) + most_words db.now (query_of right.now)) }
{
    let (left, right) = sides(alloc, arena, pass, left, right, db)?;
    Ok((left, right.into_table(alloc)?))
}

/// The table that answers a selection, by the rows of its part.
#[cycle(answer)]
fn selected_rows<N: Site>(
    alloc: Global,
    arena: &Arena<N>,
    pass: &mut Pass<N>,
    p: &Pred,
    part: &Query,
    db: &Db,
) -> Result<CTable, TableError>
    requires tables { AreTables pass.old.words db.now }
    requires fits { Fits (map heading_of db.now) (plain.Select (condition_of p.now) (query_of part.now)) }
    ensures { Answers N.log.cap pass.old pass.new db.now (plain.Select (condition_of p.now) (query_of part.now)) result }
{
    let table = operand(alloc, arena, pass, part, db)?;
    filtered(alloc, arena, pass, p, table)
}

/// The table that answers a selection. That of a product is one pass over its pairs.
#[cycle(answer)]
fn selected<N: Site>(
    alloc: Global,
    arena: &Arena<N>,
    pass: &mut Pass<N>,
    p: &Pred,
    part: &Query,
    db: &Db,
) -> Result<CTable, TableError>
    requires tables { AreTables pass.old.words db.now }
    requires fits { Fits (map heading_of db.now) (plain.Select (condition_of p.now) (query_of part.now)) }
    ensures { Answers N.log.cap pass.old pass.new db.now (plain.Select (condition_of p.now) (query_of part.now)) result }
{
    match part {
        Query::Product(left, right) => {
            let (left, right) = sides(alloc, arena, pass, left, right, db)?;
            joined(alloc, arena, pass, p, &left, &right)
        }
        _ => selected_rows(alloc, arena, pass, p, part, db),
    }
}

/// The table that answers a projection, by the rows of its part.
#[cycle(answer)]
fn projected_rows<N: Site>(
    alloc: Global,
    arena: &Arena<N>,
    pass: &mut Pass<N>,
    columns: &[u32],
    part: &Query,
    db: &Db,
) -> Result<CTable, TableError>
    requires tables { AreTables pass.old.words db.now }
    requires fits { Fits (map heading_of db.now) (plain.Project columns.now (query_of part.now)) }
    ensures { Answers N.log.cap pass.old pass.new db.now (plain.Project columns.now (query_of part.now)) result }
{
    let table = operand(alloc, arena, pass, part, db)?;
    project(alloc, arena, pass, columns, &table)
}

/// The table that answers a projection. That of a product, or of a selection of one, takes the pairs as they come.
#[cycle(answer)]
fn projected<N: Site>(
    alloc: Global,
    arena: &Arena<N>,
    pass: &mut Pass<N>,
    columns: &[u32],
    part: &Query,
    db: &Db,
) -> Result<CTable, TableError>
    requires tables { AreTables pass.old.words db.now }
    requires fits { Fits (map heading_of db.now) (plain.Project columns.now (query_of part.now)) }
    ensures { Answers N.log.cap pass.old pass.new db.now (plain.Project columns.now (query_of part.now)) result }
{
    match part {
        Query::Product(left, right) => {
            let (left, right) = sides(alloc, arena, pass, left, right, db)?;
            picked_product(alloc, arena, pass, columns, &left, &right)
        }
        Query::Select(p, inner) => match &**inner {
            Query::Product(left, right) => {
                let (left, right) = sides(alloc, arena, pass, left, right, db)?;
                picked_join(alloc, arena, pass, columns, p, &left, &right)
            }
            _ => projected_rows(alloc, arena, pass, columns, part, db),
        },
        _ => projected_rows(alloc, arena, pass, columns, part, db),
    }
}

/// The table that answers a query over the tables of a database. A product is made whole where neither a selection nor a
/// projection is above it.
///
/// # Errors
/// `Full` where the log has no room for a word, `Memory` where there is none for the rows.
#[cycle(answer)]
pub(crate) fn answer<N: Site>(
    alloc: Global,
    arena: &Arena<N>,
    pass: &mut Pass<N>,
    query: &Query,
    db: &Db,
) -> Result<CTable, TableError>
    requires tables { AreTables pass.old.words db.now }
    requires fits { Fits (map heading_of db.now) (query_of query.now) }
    ensures { Answers N.log.cap pass.old pass.new db.now (query_of query.now) result }
{
    // The words are well formed, also where none is added.
    let _ = pass.words();
    match query {
        Query::Table(name) => Ok(db.get(name).unwrap().copied(alloc)?),
        Query::Select(p, inner) => selected(alloc, arena, pass, p, inner, db),
        Query::Project(columns, inner) => {
            projected(alloc, arena, pass, columns.as_slice(), inner, db)
        }
        Query::Product(left, right) => {
            let (left, right) = sides(alloc, arena, pass, left, right, db)?;
            product(alloc, arena, pass, &left, &right)
        }
        Query::Union(left, right) => {
            let (left, right) = sides(alloc, arena, pass, left, right, db)?;
            union(alloc, arena, pass, &left, &right)
        }
        Query::Except(left, right) => {
            let (left, right) = side_and_table(alloc, arena, pass, left, right, db)?;
            except(alloc, arena, pass, &left, &right)
        }
        Query::Intersect(left, right) => {
            let (left, right) = side_and_table(alloc, arena, pass, left, right, db)?;
            intersect(alloc, arena, pass, &left, &right)
        }
    }
}
