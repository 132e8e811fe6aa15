//! Statements from tokens.
#![tactic(auto)]

mod assertions;
mod boxed;
mod conditions;
mod error;
mod front;
mod names;
mod nest;
mod parsing;
mod parsing_condition;
mod places;
mod queries;
mod rows;
mod statements;
mod tables;
mod terms;
mod tree;

pub use boxed::Boxed;
pub use error::ParseError;
pub use names::name_of;
pub use parsing::statement;
pub use parsing_condition::condition;
pub use places::{condition_place, statement_place};
pub use tree::{
    Alias, Assignment, Cell, Column, Comparison, Condition, Conjunction, Factor, Item, Items,
    Joined, Query, QueryPrimary, QueryTerm, Row, Select, SetOperator, Statement, Table, Tables,
    Term,
};
