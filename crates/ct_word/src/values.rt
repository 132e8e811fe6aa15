// Values, nulls, terms and conditional rows.

use crate::lists::List;
use crate::texts::Text;

/// A value of the domain.
#[derive(Drop, PartialEq, Eq, Hash)]
pub enum Value {
    Int(i64),
    Text(Text),
    Other(u32),
}

/// A marked null: named by its text, or by the session that drew it and its number there.
#[derive(Drop, PartialEq, Eq, Hash)]
pub enum Null {
    Named(Text),
    Fresh { session: u32, number: u32 },
}

/// What stands in a cell or a condition.
#[derive(Drop, PartialEq, Eq, Hash)]
pub enum Term {
    Column(u32),
    Null(Null),
    Value(Value),
}

/// A valuation: the value of each listed null.
pub type World = List<(Null, Value)>;

/// A row of places of terms, with the place of its condition.
#[derive(Drop)]
pub struct CRow {
    pub cells: List<u32>,
    pub cond: u32,
}
