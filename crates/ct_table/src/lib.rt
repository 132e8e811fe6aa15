//! Tables of a database, with the operators on them: what they denote, and how they grow by a change.
#![tactic(auto)]

mod counting;
mod db;
mod insertion;
mod listed;
mod pending;
mod preparing;
mod sharing;
mod stored;

pub use ct_operators::{
    CRow, CTable, RowSource, TableError, delete, except, insert, intersect, product, project,
    select, union,
};
pub use db::Db;
pub use insertion::insertions;
pub use pending::{Growth, Pending};
pub use sharing::SharedTable;
pub use stored::{Put, Stored};
