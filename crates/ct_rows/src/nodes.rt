// A row with its link.

ghost use Rattle.std.specs.Prelude.{◌≡◌, IfOk};
ghost use Rattle.ct_rows.specs.Links.{Link};

use ct_word::CRow;
use std::alloc::{AllocError, Global};
use std::marker::Model;
use std::sync::Arc;

/// A row, and one more than the place of the last row before it in its slot, or 0. Copies share the row.
#[derive(Drop)]
pub struct Node {
    row: Arc<CRow, Global>,
    below: u32,
}

impl Model for Node {
    ghost use Rattle.ct_rows.specs.Links.{Link};

    ghost Value = { Link };

    ghost view = { λ n. record { entry = (n.row.value.cells, n.row.value.cond); below = n.below } };
}

impl Node {
    /// A row with its link.
    pub(crate) fn new(row: Arc<CRow, Global>, below: u32) -> Node
        ensures { result ≡ record { entry = (row.value.cells, row.value.cond); below = below } }
    {
        Node { row, below }
    }

    /// The row.
    pub(crate) fn row(&self) -> &CRow
        ensures { (result.now.cells, result.now.cond) ≡ self.now.entry }
    {
        &self.row
    }

    /// The row, held once more.
    ///
    /// # Errors
    /// `AllocError` where it cannot be held once more.
    pub(crate) fn shared(&self) -> Result<Arc<CRow, Global>, AllocError>
        ensures { IfOk result (λ row. (row.value.cells, row.value.cond) ≡ self.now.entry) }
    {
        Arc::try_clone(&self.row)
    }

    /// One more than the place of the last row before it in its slot, or 0.
    pub(crate) fn below(&self) -> u32
        ensures { result ≡ self.now.below }
    {
        self.below
    }
}

impl Clone for Node {
    ghost is_clone = { λ a b. b ≡ a };

    fn clone(&self) -> Result<Node, AllocError> {
        Ok(Node {
            row: self.shared()?,
            below: self.below,
        })
    }
}
