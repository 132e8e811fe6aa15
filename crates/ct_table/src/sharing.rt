// The tables of a database: each is shared, and most have their rows found by their cells.

ghost use Rattle.std.specs.Prelude.{◌≡◌, ◌≤◌, ◌<◌, Ok, get_or, length, true, All, IfOk, IfSome, MatchOption, OnErr, OnOk, OnSome};
ghost use Rattle.std.specs.Arc.{arc_value};
ghost use mathlib.Core.List.{IsPrefix};
ghost use Rattle.ct_query.specs.Updates.{with_items};
ghost use Rattle.ct_table.specs.Growing.{Apart, entries_of, grown, rows_after, table_of};
ghost use Rattle.ct_table.specs.Shared.{body_of};

use crate::listed::{Held, Listed};
use crate::stored::{Put, Stored};
use ct_operators::{CTable, RowSource, under};
use ct_word::{CRow, List, Text};
use std::alloc::{AllocError, Global};
use std::marker::Model;
use std::mem::replace;
use std::sync::Arc;

/// The first rows of a table whose rows are found by their cells. Those past them are none of its rows: they stand there
/// where the table has grown since, or a growth was taken back. Contracts see the columns, and the first entries.
#[derive(Drop)]
pub struct Front {
    stored: Arc<Stored, Global>,
    len: usize,
}

impl Model for Front {
    ghost use Rattle.std.specs.Prelude.{◌≤◌, length, take};
    ghost use Rattle.std.specs.Arc.{arc_value};
    ghost use Rattle.ct_table.specs.Growing.{Keyed};

    ghost Value = { Keyed };

    ghost view = { λ f. record { columns = (arc_value f.stored).columns; entries = take f.len (arc_value f.stored).entries } };

    ghost invariant = { λ f. f.len ≤ length (arc_value f.stored).entries };
}

/// A table, as its rows alone, with them found by their cells, or as a list that shares them.
#[derive(Drop)]
pub enum Body {
    Plain(Arc<CTable, Global>),
    Keyed(Front),
    Listed(Arc<Listed, Global>),
}

/// A table of a database, shared with the databases that were made from it. Contracts see it as the table.
#[derive(Drop)]
pub struct SharedTable {
    body: Body,
}

impl Model for SharedTable {
    ghost use Rattle.ct_operators.specs.declared.table.CTable.{CTable};
    ghost use Rattle.ct_table.specs.Shared.{body_of};

    ghost Value = { CTable };

    ghost view = { λ s. body_of s.body };
}

/// Puts conditions at their cells in rows that stand last, where nobody else holds the table, it has so many rows, and
/// none of them has the cells. Whether all are put; rows that were there stay as they were.
///
/// # Errors
/// `AllocError` where there is no memory for a row. Some rows may stand last then.
fn extend(
    stored: &mut Arc<Stored, Global>,
    len: usize,
    alloc: Global,
    puts: &[Put],
) -> Result<bool, AllocError>
    ensures columns { (arc_value stored.new).columns ≡ (arc_value stored.old).columns }
    ensures front { IsPrefix (arc_value stored.old).entries (arc_value stored.new).entries }
    ensures whole { result ≡ Ok true → length (arc_value stored.old).entries ≡ len }
    ensures entries { result ≡ Ok true → (arc_value stored.new).entries ≡ grown (arc_value stored.old).entries puts.now }
{
    let Some(stored) = Arc::get_mut(stored) else {
        return Ok(false);
    };
    if stored.len() != len {
        return Ok(false);
    }
    // A row that comes first stands last alone, where the cells of the next one are there already.
    if puts.len() > 1 && !stored.has_none(puts) {
        return Ok(false);
    }
    stored.extend(alloc, puts)
}

impl Front {
    /// All rows of a table.
    ///
    /// # Errors
    /// `AllocError` where there is no memory to share it.
    fn of(alloc: Global, stored: Stored) -> Result<Front, AllocError>
        ensures { IfOk result (λ f. f ≡ stored) }
    {
        let len = stored.len();
        Ok(Front {
            stored: Arc::new(alloc, stored)?,
            len,
        })
    }

    /// The table; none where it has rows past the first ones.
    fn whole(&self) -> Option<&Stored>
        ensures { IfSome result (λ s. s.now ≡ self.now) }
    {
        if self.stored.len() == self.len {
            Some(&self.stored)
        } else {
            None
        }
    }

    /// The names of the columns.
    fn columns(&self) -> &List<Text>
        ensures { result.now ≡ self.now.columns }
    {
        self.stored.columns()
    }

    /// How many rows there are.
    fn len(&self) -> usize
        ensures { result ≡ length self.now.entries }
    {
        self.len
    }

    /// The row at a place, counted from 0.
    fn row(&self, place: usize) -> &CRow
        requires { place < length self.now.entries }
        ensures { result.now ≡ get_or (table_of self.now).rows place result.now }
    {
        self.stored.row(place)
    }

    /// The row at a place, held once more.
    ///
    /// # Errors
    /// `AllocError` where it cannot be held once more.
    fn held(&self, place: usize) -> Result<Held, AllocError>
        requires { place < length self.now.entries }
        ensures { IfOk result (λ h. h ≡ get_or (table_of self.now).rows place h) }
    {
        Ok(Held::new(self.stored.shared(place)?))
    }

    /// The table, in a copy that shares nothing.
    ///
    /// # Errors
    /// `AllocError` where there is no memory for it.
    fn copied(&self, alloc: Global) -> Result<CTable, AllocError>
        ensures { IfOk result (λ copy. copy ≡ table_of self.now) }
    {
        self.stored.copied(alloc, self.len)
    }

    /// Puts conditions at their cells in rows that stand last, as `extend` does. The table as it was, which it shares
    /// them with; none where they are not put.
    ///
    /// # Errors
    /// `AllocError` where there is no memory for a row; the table is as it was.
    fn extend(&mut self, alloc: Global, puts: &[Put]) -> Result<Option<Front>, AllocError>
        ensures columns { self.new.columns ≡ self.old.columns }
        ensures entries { IfOk result (λ o. OnSome o (self.new.entries ≡ grown self.old.entries puts.now)) }
        ensures before { IfOk result (λ o. MatchOption o (self.new ≡ self.old) (λ before. before ≡ self.old)) }
        ensures same { OnErr result (self.new ≡ self.old) }
    {
        if !extend(&mut self.stored, self.len, alloc, puts)? {
            return Ok(None);
        }
        let before = self.clone()?;
        self.len = self.stored.len();
        Ok(Some(before))
    }
}

impl Clone for Front {
    ghost is_clone = { λ a b. b ≡ a };

    fn clone(&self) -> Result<Front, AllocError> {
        Ok(Front {
            stored: Arc::try_clone(&self.stored)?,
            len: self.len,
        })
    }
}

impl SharedTable {
    /// The table, to be shared from now on.
    ///
    /// # Errors
    /// `AllocError` where there is no memory for that.
    pub fn make(alloc: Global, table: CTable) -> Result<SharedTable, AllocError>
        ensures { IfOk result (λ s. s ≡ table) }
    {
        let body = if table.rows.is_empty() {
            Body::Keyed(Front::of(alloc, Stored::make(alloc, table)?)?)
        } else {
            Body::Plain(Arc::new(alloc, table)?)
        };
        Ok(SharedTable { body })
    }

    /// The names of the columns.
    pub fn columns(&self) -> &List<Text>
        ensures { result.now ≡ self.now.columns }
    {
        match &self.body {
            Body::Plain(table) => &table.columns,
            Body::Keyed(front) => front.columns(),
            Body::Listed(listed) => listed.columns(),
        }
    }

    /// How many rows there are.
    pub fn len(&self) -> usize
        ensures { result ≡ length self.now.rows }
    {
        match &self.body {
            Body::Plain(table) => table.rows.len(),
            Body::Keyed(front) => front.len(),
            Body::Listed(listed) => listed.len(),
        }
    }

    /// The table, in a copy that shares nothing.
    ///
    /// # Errors
    /// `AllocError` where there is no memory for it.
    pub fn copied(&self, alloc: Global) -> Result<CTable, AllocError>
        ensures { IfOk result (λ copy. copy ≡ self.now) }
    {
        match &self.body {
            Body::Plain(table) => table.copied(alloc),
            Body::Keyed(front) => front.copied(alloc),
            Body::Listed(listed) => listed.copied(alloc),
        }
    }

    /// The table with its rows found by their cells; none where they are not.
    pub(crate) fn keyed(&self) -> Option<&Stored>
        ensures { IfSome result (λ s. table_of s.now ≡ self.now) }
    {
        match &self.body {
            Body::Keyed(front) => front.whole(),
            _ => None,
        }
    }

    /// The table with its rows found by their cells. What is shared stays shared.
    ///
    /// # Errors
    /// `AllocError` where there is no memory for it.
    pub(crate) fn stored(&self, alloc: Global) -> Result<Stored, AllocError>
        requires apart { Apart (entries_of self.now.rows) }
        ensures columns { IfOk result (λ s. s.columns ≡ self.now.columns) }
        ensures entries { IfOk result (λ s. s.entries ≡ entries_of self.now.rows) }
    {
        match self.keyed() {
            Some(stored) => stored.clone(),
            None => Stored::make(alloc, self.copied(alloc)?),
        }
    }

    /// The row at a place, to be held from now on: once more, or in a copy where it stands in a table that is no list.
    ///
    /// # Errors
    /// `AllocError` where there is no memory for it.
    fn held(&self, alloc: Global, place: usize) -> Result<Held, AllocError>
        requires { place < length self.now.rows }
        ensures { IfOk result (λ h. h ≡ get_or self.now.rows place h) }
    {
        match &self.body {
            Body::Keyed(front) => front.held(place),
            _ => {
                let row = RowSource::row(self, place);
                Ok(Held::new(Arc::new(alloc, under(row, row.cond)?)?))
            }
        }
    }

    /// The table as a list of its rows, which are shared where they can be.
    ///
    /// # Errors
    /// `AllocError` where there is no memory for it.
    fn listed(&self, alloc: Global) -> Result<Listed, AllocError>
        ensures { IfOk result (λ l. l ≡ self.now) }
    {
        if let Body::Listed(listed) = &self.body {
            let listed: &Listed = listed;
            return listed.clone();
        }
        let mut listed = Listed::make(alloc, self.columns())?;
        for place in 0..self.len() {
            listed.push(alloc, self.held(alloc, place)?)?;
        }
        Ok(listed)
    }

    /// The table with these rows, each in the place of another. The table stays as it is. The next one that is made of the
    /// new table in this way shares with it the parts of its rows that do not change.
    ///
    /// # Errors
    /// `AllocError` where there is no memory for what is not shared.
    pub fn with_rows(
        &self,
        alloc: Global,
        rows: Vec<(usize, CRow)>,
    ) -> Result<SharedTable, AllocError>
        requires { All (λ e. e.0 < length self.now.rows) rows.items }
        ensures { IfOk result (λ s. s ≡ record { columns = self.now.columns; rows = with_items rows.items self.now.rows }) }
    {
        let listed = self.listed(alloc)?.with_rows(alloc, rows)?;
        Ok(SharedTable {
            body: Body::Listed(Arc::new(alloc, listed)?),
        })
    }

    /// Puts conditions at their cells in place, as `extend` does. The table as it was; none where they are not put.
    ///
    /// # Errors
    /// `AllocError` where there is no memory for a row; the table is as it was.
    fn extend(&mut self, alloc: Global, puts: &[Put]) -> Result<Option<SharedTable>, AllocError>
        ensures columns { self.new.columns ≡ self.old.columns }
        ensures rows { IfOk result (λ o. OnSome o (self.new.rows ≡ rows_after self.old.rows puts.now)) }
        ensures before { IfOk result (λ o. MatchOption o (self.new ≡ self.old) (λ before. before ≡ self.old)) }
        ensures same { OnErr result (self.new ≡ self.old) }
    {
        let Body::Keyed(front) = &mut self.body else {
            return Ok(None);
        };
        let Some(before) = front.extend(alloc, puts)? else {
            return Ok(None);
        };
        Ok(Some(SharedTable {
            body: Body::Keyed(before),
        }))
    }

    /// Puts conditions at their cells, those that are not the word false: in place where nobody else holds the table and
    /// none of its rows has the cells, else in a table that is made beside it. The table as it was.
    ///
    /// # Errors
    /// `AllocError` where there is no memory; the table is as it was.
    pub(crate) fn grow(&mut self, alloc: Global, puts: &[Put]) -> Result<SharedTable, AllocError>
        requires apart { Apart (entries_of self.old.rows) }
        ensures columns { OnOk result (self.new.columns ≡ self.old.columns) }
        ensures rows { OnOk result (self.new.rows ≡ rows_after self.old.rows puts.now) }
        ensures before { IfOk result (λ before. before ≡ self.old) }
        ensures same { OnErr result (self.new ≡ self.old) }
    {
        if let Some(before) = self.extend(alloc, puts)? {
            return Ok(before);
        }
        let stored = self.stored(alloc)?.grown(alloc, puts)?;
        let grown = SharedTable {
            body: Body::Keyed(Front::of(alloc, stored)?),
        };
        Ok(replace(self, grown))
    }
}

impl Clone for SharedTable {
    ghost is_clone = { λ a b. b ≡ a };

    fn clone(&self) -> Result<SharedTable, AllocError> {
        let body = match &self.body {
            Body::Plain(table) => Body::Plain(Arc::try_clone(table)?),
            Body::Keyed(front) => Body::Keyed(front.clone()?),
            Body::Listed(listed) => Body::Listed(Arc::try_clone(listed)?),
        };
        Ok(SharedTable { body })
    }
}

/// The rows stand in the table, or in the parts that it shares.
impl RowSource for SharedTable {
    ghost table = { λ t. t };

    fn columns(&self) -> &List<Text> {
        self.columns()
    }

    fn len(&self) -> usize {
        self.len()
    }

    fn row(&self, place: usize) -> &CRow {
        match &self.body {
            Body::Plain(table) => table.row(place),
            Body::Keyed(front) => front.row(place),
            Body::Listed(listed) => listed.row(place),
        }
    }
}
