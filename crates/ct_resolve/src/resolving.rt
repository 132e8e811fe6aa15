// A whole statement.

ghost use Rattle.std.specs.Prelude.{◌≡◌, ◌≢◌, ◌≤◌, List, IfOk, IfErr, Ok, Err};
ghost use Rattle.ct_lex.specs.Written.{AreWritten};
ghost use Rattle.ct_lex.specs.declared.token.Lexeme.{Lexeme};
ghost use Rattle.ct_parse.specs.Parses.{Spells};
ghost use Rattle.ct_query.specs.Fits.{FitsStatement};
ghost use Rattle.ct_query.specs.Plain as plain;
ghost use Rattle.ct_query.specs.Views.{statement_of};
ghost use Rattle.ct_resolve.specs.Found.{and_then};
ghost use Rattle.ct_resolve.specs.Queries.{query_at};
ghost use Rattle.ct_resolve.specs.Statements.{HasRoom, resolved};
ghost use Rattle.ct_resolve.specs.Writing.{WritesStatement, NamesColumns};
ghost use Rattle.ct_resolve.specs.declared.error.ResolveError.TheVariants as fault;

use crate::error::ResolveError;
use crate::queries::query;
use crate::statements::{
    assertion, create, delete, existence, insert_query, insert_rows, key, update,
};
use ct_headings::Headings;
use ct_parse::{Query, Statement};
use ct_query::{Ask, Resolved};
use std::alloc::Global;

/// A query of which something is asked.
///
/// # Errors
/// The refusals of the query; `Memory` where there is none for it.
fn asked<H: Headings>(
    alloc: Global,
    schema: &H,
    ask: Ask,
    written: &Query,
) -> Result<Resolved, ResolveError>
    ensures ok { IfOk result (λ r. and_then (query_at (H.schema schema.now).tables written.now) (λ a. Ok (plain.Asks ask a.columns a.query)) ≡ Ok (statement_of r)) }
    ensures err { IfErr result (λ e. e ≢ fault.Memory → and_then (query_at (H.schema schema.now).tables written.now) (λ a. Ok (plain.Asks ask a.columns a.query)) ≡ Err e) }
{
    let found = query(alloc, schema, written)?;
    Ok(Resolved::Ask {
        ask,
        columns: found.columns,
        query: found.query,
    })
}

/// The statement with positions for the names of columns.
///
/// # Errors
/// Its first refusal, or `Memory`, as `resolve` has them.
fn positioned<H: Headings>(
    alloc: Global,
    schema: &H,
    session: u32,
    fresh: u32,
    written: &Statement,
) -> Result<Resolved, ResolveError>
    ensures ok { IfOk result (λ r. resolved (H.schema schema.now) session fresh written.now ≡ Ok (statement_of r)) }
    ensures room { IfOk result (λ r. HasRoom fresh written.now) }
    ensures err { IfErr result (λ e. e ≢ fault.Memory → resolved (H.schema schema.now) session fresh written.now ≡ Err e) }
{
    match written {
        Statement::Create { name, first, rest } => create(alloc, schema, name, first, rest),
        Statement::InsertRows {
            name,
            first,
            rest,
            condition,
        } => insert_rows(alloc, schema, session, fresh, name, first, rest, condition),
        Statement::InsertQuery { name, query } => insert_query(alloc, schema, name, query),
        Statement::Delete { name, condition } => delete(alloc, schema, name, condition),
        Statement::Update {
            name,
            first,
            rest,
            condition,
        } => update(alloc, schema, name, first, rest, condition),
        Statement::Assert(condition) => assertion(alloc, condition),
        Statement::AssertExists { not, query } => existence(alloc, schema, !*not, query),
        Statement::AssertKey { name, first, rest } => key(alloc, schema, name, first, rest),
        Statement::Rows(query) => asked(alloc, schema, Ask::Rows, query),
        Statement::Possible(query) => asked(alloc, schema, Ask::Possible, query),
        Statement::Certain(query) => asked(alloc, schema, Ask::Certain, query),
        Statement::Begin => Ok(Resolved::Begin),
        Statement::Commit => Ok(Resolved::Commit),
        Statement::Rollback => Ok(Resolved::Rollback),
    }
}

/// The statement with positions for the names of columns. `session` is the session that draws the
/// nulls, from 1 to 1,023, and `fresh` the number of its last null: each NULL, from the left, is its
/// null with the next number after `fresh`. What is answered fits the schema: its tables and columns
/// are there, and a word has room for the numbers of its nulls and values. Of a statement that tokens
/// spell, a text can write what is answered: tables and new columns are names, named nulls are words
/// in lower case, and there is no other value; the columns of an answer are names, too, where those
/// of the schema are.
///
/// # Errors
/// The first refusal in this order, and `Memory` where there is none for the answer, where a position
/// is no number of 32 bits, or where the number of the session's last null would be 2^28 or more.
/// - CREATE: `TableExists`, then `DuplicateName` for two columns of one name.
/// - INSERT of rows: `UnknownTable`, then `ColumnCount`, then the condition, which sees no table.
/// - INSERT of a query: `UnknownTable`, then the query, then `ColumnCount`.
/// - DELETE: `UnknownTable`, then the condition, which sees the table under its own name.
/// - UPDATE: `UnknownTable`, then the assignments from the left, each its column and then its term,
///   which see the table under its own name, then `DuplicateName` for a column that is set twice, then
///   the condition, which sees the table, too.
/// - ASSERT: the condition, which sees no table.
/// - ASSERT EXISTS and NOT EXISTS: the query.
/// - ASSERT KEY: `UnknownTable`, then `UnknownColumn` for the columns from the left, then
///   `DuplicateName` for a column that stands twice.
/// - SELECT: `UnknownTable` for the tables from the left, then `DuplicateName` for two tables of one
///   visible name, then the items, then the conditions of ON and WHERE, each from the left.
/// - A set operator: its left side, its right side, then `ColumnCount`.
///
/// A column is `UnknownColumn` where no table in scope has it, and `AmbiguousColumn` where two or
/// more have it.
pub fn resolve<H: Headings>(
    alloc: Global,
    schema: &H,
    session: u32,
    fresh: u32,
    statement: &Statement,
) -> Result<Resolved, ResolveError>
    ensures ok { IfOk result (λ r. resolved (H.schema schema.now) session fresh statement.now ≡ Ok (statement_of r)) }
    ensures fits { IfOk result (λ r. 1 ≤ session → session ≤ 1023 → FitsStatement (H.schema schema.now).tables (statement_of r)) }
    ensures writable { IfOk result (λ r. (ls : List Lexeme) → AreWritten ls → Spells ls statement.now → WritesStatement (statement_of r)) }
    ensures named { IfOk result (λ r. (ls : List Lexeme) → AreWritten ls → Spells ls statement.now → NamesColumns (H.schema schema.now).tables (statement_of r)) }
    ensures err { IfErr result (λ e. e ≢ fault.Memory → resolved (H.schema schema.now) session fresh statement.now ≡ Err e) }
{
    let found = positioned(alloc, schema, session, fresh, statement)?;
    Ok(found)
}
