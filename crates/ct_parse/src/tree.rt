// Statements as they are written: a type for each line of the grammar, a variant for each
// alternative, and a field for each part of it.

use crate::boxed::Boxed;
use ct_word::{List, Text};

/// `column = name | name "." name`
#[derive(Drop, PartialEq, Eq)]
pub enum Column {
    Plain(Text),
    /// The table, and its column.
    Qualified(Text, Text),
}

/// `term = Number | Text | Null | column`
#[derive(Drop, PartialEq, Eq)]
pub enum Term {
    Number(i64),
    Text(Text),
    /// The name of a marked null.
    Null(Text),
    Column(Column),
}

/// `"=" | "<>"`
#[derive(Clone, Copy, Debug, PartialEq, Eq)]
pub enum Comparison {
    Equal,
    Unequal,
}

/// `factor = NOT factor | "(" cond ")" | TRUE | FALSE | term ("=" | "<>") term`
#[cycle(condition)]
#[derive(Drop)]
pub enum Factor {
    Not(Boxed<Factor>),
    Nested(Boxed<Condition>),
    True,
    False,
    Compare(Term, Comparison, Term),
}

/// `conj = factor {AND factor}`
#[cycle(condition)]
#[derive(Drop)]
pub struct Conjunction {
    pub first: Factor,
    pub rest: List<Factor>,
}

/// `cond = conj {OR conj}`
#[cycle(condition)]
#[derive(Drop)]
pub struct Condition {
    pub first: Conjunction,
    pub rest: List<Conjunction>,
}

/// `cell = Number | Text | Null | NULL`
#[derive(Drop, PartialEq, Eq)]
pub enum Cell {
    Number(i64),
    Text(Text),
    /// The name of a marked null.
    Null(Text),
    NewNull,
}

/// `row = "(" cell {"," cell} ")"`
#[derive(Drop)]
pub struct Row {
    pub first: Cell,
    pub rest: List<Cell>,
}

/// `item = column [AS name]`
#[derive(Drop)]
pub struct Item {
    pub column: Column,
    pub alias: Option<Text>,
}

/// `items = "*" | item {"," item}`
#[derive(Drop)]
pub enum Items {
    Star,
    Listed(Item, List<Item>),
}

/// `[AS] name`
#[derive(Drop)]
pub struct Alias {
    pub has_as: bool,
    pub name: Text,
}

/// `table = name [[AS] name]`
#[derive(Drop)]
pub struct Table {
    pub name: Text,
    pub alias: Option<Alias>,
}

/// `"," table | [INNER] JOIN table ON cond`
#[derive(Drop)]
pub enum Joined {
    Comma(Table),
    Join {
        is_inner: bool,
        table: Table,
        on: Condition,
    },
}

/// `from = table {"," table | [INNER] JOIN table ON cond}`, of at most 16 tables
#[derive(Drop)]
pub struct Tables {
    pub first: Table,
    pub rest: List<Joined>,
}

/// `SELECT [DISTINCT] items FROM from [WHERE cond]`
#[derive(Drop)]
pub struct Select {
    pub is_distinct: bool,
    pub items: Items,
    pub tables: Tables,
    pub condition: Option<Condition>,
}

/// `UNION | EXCEPT`
#[derive(Clone, Copy, Debug, PartialEq, Eq)]
pub enum SetOperator {
    Union,
    Except,
}

/// `qprim = "(" query ")" | SELECT [DISTINCT] items FROM from [WHERE cond]`
#[cycle(query)]
#[derive(Drop)]
pub enum QueryPrimary {
    Nested(Boxed<Query>),
    Select(Select),
}

/// `qterm = qprim {INTERSECT qprim}`
#[cycle(query)]
#[derive(Drop)]
pub struct QueryTerm {
    pub first: QueryPrimary,
    pub rest: List<QueryPrimary>,
}

/// `query = qterm {(UNION | EXCEPT) qterm}`
#[cycle(query)]
#[derive(Drop)]
pub struct Query {
    pub first: QueryTerm,
    pub rest: List<(SetOperator, QueryTerm)>,
}

/// `name "=" term`
#[derive(Drop)]
pub struct Assignment {
    pub column: Text,
    pub value: Term,
}

/// A statement, by the line of the grammar that it is.
#[derive(Drop)]
pub enum Statement {
    /// `CREATE TABLE name "(" name {"," name} ")"`
    Create {
        name: Text,
        first: Text,
        rest: List<Text>,
    },
    /// `INSERT INTO name VALUES row {"," row} [IF cond]`
    InsertRows {
        name: Text,
        first: Row,
        rest: List<Row>,
        condition: Option<Condition>,
    },
    /// `INSERT INTO name query`
    InsertQuery {
        name: Text,
        query: Query,
    },
    /// `DELETE FROM name [WHERE cond]`
    Delete {
        name: Text,
        condition: Option<Condition>,
    },
    /// `UPDATE name SET name "=" term {"," name "=" term} [WHERE cond]`
    Update {
        name: Text,
        first: Assignment,
        rest: List<Assignment>,
        condition: Option<Condition>,
    },
    /// `ASSERT cond`
    Assert(Condition),
    /// `ASSERT [NOT] EXISTS "(" query ")"`
    AssertExists {
        not: bool,
        query: Query,
    },
    /// `ASSERT KEY name "(" name {"," name} ")"`
    AssertKey {
        name: Text,
        first: Text,
        rest: List<Text>,
    },
    /// `query`
    Rows(Query),
    /// `POSSIBLE query`
    Possible(Query),
    /// `CERTAIN query`
    Certain(Query),
    Begin,
    Commit,
    Rollback,
}
