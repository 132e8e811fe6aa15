// What a statement reads.

ghost use Rattle.std.specs.Prelude.{◌≡◌, ◌∷◌, [], map, IfOk, OnOk};
ghost use Rattle.std.specs.List.{IsDistinct};
ghost use Rattle.ct_query.specs.Reads.{same_read, with_reads, tables_of, query_reads, action_reads, reads_of};
ghost use Rattle.ct_query.specs.Views.{query_of, action_of, statement_of};
ghost use Rattle.ct_query.specs.declared.action.Read.TheVariants as read;

use crate::action::{Action, Read, Resolved};
use crate::query::Query;
use ct_word::{List, Memory, Text};
use std::alloc::Global;

/// Adds a read that is not there yet.
fn add(reads: &mut Vec<Read>, read: Read) -> Result<(), Memory>
    ensures { OnOk result (reads.new.items ≡ with_reads reads.old.items (read ∷ [])) }
{
    if !reads.contains(&read) {
        reads.push(read)?;
    }
    Ok(())
}

/// Adds the tables of a query that are not there yet, in the order of its text.
#[tactic(auto, using(crate::proofs::Added::tables_added))]
fn add_tables(reads: &mut Vec<Read>, query: &Query) -> Result<(), Memory>
    ensures { OnOk result (reads.new.items ≡ with_reads reads.old.items (map read.Table (tables_of (query_of query.now)))) }
{
    match query {
        Query::Table(name) => add(reads, Read::Table(name.clone()?)),
        Query::Select(_, inner) | Query::Project(_, inner) => add_tables(reads, inner),
        Query::Product(left, right)
        | Query::Union(left, right)
        | Query::Except(left, right)
        | Query::Intersect(left, right) => {
            add_tables(reads, left)?;
            add_tables(reads, right)
        }
    }
}

/// The tables of a query, each once, and then the worlds.
#[tactic(auto, using(crate::proofs::Added::worlds_added))]
fn of_query(alloc: Global, query: &Query) -> Result<Vec<Read>, Memory>
    ensures { IfOk result (λ v. v.items ≡ query_reads (query_of query.now)) }
{
    let mut reads = Vec::new(alloc);
    add_tables(&mut reads, query)?;
    add(&mut reads, Read::Worlds)?;
    Ok(reads)
}

/// One read alone.
fn only(alloc: Global, read: Read) -> Result<Vec<Read>, Memory>
    ensures { IfOk result (λ v. v.items ≡ read ∷ []) }
{
    let mut reads = Vec::new(alloc);
    reads.push(read)?;
    Ok(reads)
}

/// A table, and then the worlds.
fn of_key(alloc: Global, name: &Text) -> Result<Vec<Read>, Memory>
    ensures { IfOk result (λ v. v.items ≡ read.Table name.now ∷ read.Worlds ∷ []) }
{
    let mut reads = only(alloc, Read::Table(name.clone()?))?;
    reads.push(Read::Worlds)?;
    Ok(reads)
}

/// What an action reads.
fn of_action(alloc: Global, action: &Action) -> Result<Vec<Read>, Memory>
    ensures { IfOk result (λ v. v.items ≡ action_reads (action_of action.now)) }
{
    match action {
        Action::Create { name, .. } => only(alloc, Read::Table(name.clone()?)),
        Action::InsertQuery { query, .. } => of_query(alloc, query),
        Action::AssertQuery { query, .. } => of_query(alloc, query),
        Action::AssertKey { name, .. } => of_key(alloc, name),
        Action::Assert { .. } => only(alloc, Read::Worlds),
        Action::InsertRows { .. } | Action::Delete { .. } | Action::Update { .. } => {
            Ok(Vec::new(alloc))
        }
    }
}

/// What a statement reads.
fn of_statement(alloc: Global, statement: &Resolved) -> Result<Vec<Read>, Memory>
    ensures { IfOk result (λ v. v.items ≡ reads_of (statement_of statement.now)) }
{
    match statement {
        Resolved::Act(action) => of_action(alloc, action),
        Resolved::Ask { query, .. } => of_query(alloc, query),
        Resolved::Begin | Resolved::Commit | Resolved::Rollback => Ok(Vec::new(alloc)),
    }
}

/// What a statement reads, each table once: of a query, also under POSSIBLE, CERTAIN and INSERT,
/// its tables in the order of its text and then the worlds, and the same of an assertion over a query;
/// of one over a key its table and then the worlds; of another assertion the worlds; of a creation its
/// name. Insertions of rows, deletions, updates, BEGIN, COMMIT and ROLLBACK read nothing.
///
/// # Errors
/// `Memory` where there is none for the list.
pub fn reads(alloc: Global, statement: &Resolved) -> Result<List<Read>, Memory>
    ensures exactly { IfOk result (λ v. v ≡ reads_of (statement_of statement.now)) }
    ensures once { IfOk result (λ v. IsDistinct same_read v) }
{
    let found = of_statement(alloc, statement)?;
    Ok(List::from_vec(found))
}
