// The rows of a table.

ghost use Rattle.std.specs.Prelude.{◌≡◌, ◌<◌, [], ◌∷◌, ◌++◌, None, Some, length, slice_get, IfOk, OnOk, OnErr};
ghost use Rattle.ct_rows.specs.Entries as spec;

use crate::links::Links;
use ct_word::{CRow, List};
use std::alloc::{AllocError, Global};
use std::marker::Model;
use std::sync::Arc;

/// The rows of a table: the cells of each, and the place of its condition. Contracts see them as the list of these
/// pairs, in the order in which the cells came.
#[derive(Drop)]
pub struct Rows {
    links: Links,
}

impl Model for Rows {
    ghost use Rattle.std.specs.Prelude.{ℕ, List};

    ghost Value = { List (List ℕ × ℕ) };

    ghost view = { λ r. r.links.entries };
}

impl Rows {
    /// No rows. It takes no memory.
    pub fn new(alloc: Global) -> Rows
        ensures { result ≡ [] }
    {
        Rows {
            links: Links::new(alloc),
        }
    }

    /// How many rows there are.
    pub fn len(&self) -> usize
        ensures { result ≡ length self.now }
    {
        self.links.len() as usize
    }

    /// The row at a place.
    pub fn at(&self, place: usize) -> &CRow
        requires { place < length self.now }
        ensures { slice_get self.now place ≡ Some (result.now.cells, result.now.cond) }
    {
        self.links.at(place)
    }

    /// The row at a place, held once more.
    ///
    /// # Errors
    /// `AllocError` where it cannot be held once more.
    pub fn shared(&self, place: usize) -> Result<Arc<CRow, Global>, AllocError>
        requires { place < length self.now }
        ensures { IfOk result (λ row. slice_get self.now place ≡ Some (row.value.cells, row.value.cond)) }
    {
        self.links.shared(place)
    }

    /// The condition of the row with these cells.
    pub fn find(&self, cells: &List<u32>) -> Option<u32>
        ensures { result ≡ spec.find cells.now self.now }
    {
        let place = self.links.place_of(cells.as_slice())?;
        Some(self.links.at(place as usize).cond)
    }

    /// Puts a row whose cells no row has last. Where there are twice as many rows as slots, all are linked anew first, in
    /// twice as many slots.
    ///
    /// # Errors
    /// `AllocError` where there is no memory, or where there are 2^32 - 1 rows; the rows are as they were.
    pub fn push(&mut self, alloc: Global, row: Arc<CRow, Global>) -> Result<(), AllocError>
        requires new { spec.find row.value.cells self.old ≡ None }
        ensures put { OnOk result (self.new ≡ self.old ++ (row.value.cells, row.value.cond) ∷ []) }
        ensures same { OnErr result (self.new ≡ self.old) }
    {
        if self.links.slots() <= self.links.len() as usize / 2 {
            self.links = self.links.spread(alloc)?;
        }
        self.links.push(alloc, row)
    }

    /// Puts a row in the place of the one that has its cells, or last where none has them.
    ///
    /// # Errors
    /// `AllocError` where there is no memory, or where there are 2^32 - 1 rows; the rows are as they were.
    pub fn put(&mut self, alloc: Global, row: Arc<CRow, Global>) -> Result<(), AllocError>
        ensures put { OnOk result (self.new ≡ spec.put self.old row.value.cells row.value.cond) }
        ensures same { OnErr result (self.new ≡ self.old) }
    {
        match self.links.place_of(row.cells.as_slice()) {
            Some(place) => self.links.replace(alloc, place, row),
            None => self.push(alloc, row),
        }
    }
}

impl Clone for Rows {
    ghost is_clone = { λ a b. b ≡ a };

    fn clone(&self) -> Result<Rows, AllocError> {
        Ok(Rows {
            links: self.links.clone()?,
        })
    }
}
