// Rows linked in slots.

ghost use Rattle.std.specs.Prelude.{◌≡◌, ℕ, ◌+◌, ◌*◌, ◌<◌, ◌≤◌, ◌^◌, [], ◌∷◌, ◌++◌, None, Some, length, get_or, set, take, slice_get, max, IfOk, OnOk, OnErr, MatchOption};
ghost use Rattle.std.specs.Map.{keys_of};
ghost use Rattle.ct_rows.specs.Entries.{find};
ghost use Rattle.ct_rows.specs.Links.{Link, Slotted, IsFirst};

use crate::hashing::slot;
use crate::nodes::Node;
use ct_parts::Parts;
use ct_word::CRow;
use std::alloc::{AllocError, Global};
use std::marker::Model;
use std::sync::Arc;

/// How many slots there are at first.
const FIRST_SLOTS: usize = 8;

/// Rows in slots: each slot has one more than the place of its last row, or 0, and each row has the same of the row
/// before it in its slot. Nodes past `count` are no rows: one stands there where a row could not be linked.
#[derive(Drop)]
pub struct Links {
    nodes: Parts<Node>,
    heads: Parts<u32>,
    count: u32,
}

impl Model for Links {
    ghost use Rattle.std.specs.Prelude.{length, take};
    ghost use Rattle.ct_rows.specs.Links.{Slotted, AreRows, entries_of};

    ghost Value = { Slotted };

    ghost view = { λ l. record { slots = length l.heads; entries = entries_of (take l.count l.nodes) } };

    ghost invariant = { λ l. AreRows l.count l.nodes l.heads };
}

/// Puts a node at a place: last, or in the place of another.
///
/// # Errors
/// `AllocError` where there is no memory; the nodes are as they were.
fn write(alloc: Global, nodes: &mut Parts<Node>, place: usize, node: Node) -> Result<(), AllocError>
    requires place { place ≤ length nodes.old }
    ensures front { OnOk result (take (place + 1) nodes.new ≡ take place nodes.old ++ node ∷ []) }
    ensures within { OnOk result (place < length nodes.new) }
    ensures same { OnErr result (nodes.new ≡ nodes.old) }
{
    if place < nodes.len() {
        nodes.set(alloc, place, node)
    } else {
        nodes.push(alloc, node)
    }
}

impl Links {
    /// No rows and no slots. It takes no memory.
    pub(crate) fn new(alloc: Global) -> Links
        ensures { result ≡ record { slots = 0; entries = [] } }
    {
        Links {
            nodes: Parts::new(alloc),
            heads: Parts::new(alloc),
            count: 0,
        }
    }

    /// No rows in so many slots.
    ///
    /// # Errors
    /// `AllocError` where there is no memory for the slots.
    #[tactic(auto, using(crate::proofs::Writing::no_rows))]
    fn with_slots(alloc: Global, slots: usize) -> Result<Links, AllocError>
        ensures { IfOk result (λ l. l ≡ record { slots = slots; entries = [] }) }
    {
        let mut heads = Parts::new(alloc);
        for _ in 0..slots {
            heads.push(alloc, 0)?;
        }
        Ok(Links {
            nodes: Parts::new(alloc),
            heads,
            count: 0,
        })
    }

    /// How many rows there are.
    pub(crate) fn len(&self) -> u32
        ensures { result ≡ length self.now.entries }
    {
        self.count
    }

    /// How many slots there are.
    pub(crate) fn slots(&self) -> usize
        ensures { result ≡ self.now.slots }
    {
        self.heads.len()
    }

    /// The row at a place.
    pub(crate) fn at(&self, place: usize) -> &CRow
        requires { place < length self.now.entries }
        ensures { slice_get self.now.entries place ≡ Some (result.now.cells, result.now.cond) }
    {
        self.nodes.at(place).row()
    }

    /// The row at a place, held once more.
    ///
    /// # Errors
    /// `AllocError` where it cannot be held once more.
    pub(crate) fn shared(&self, place: usize) -> Result<Arc<CRow, Global>, AllocError>
        requires { place < length self.now.entries }
        ensures { IfOk result (λ row. slice_get self.now.entries place ≡ Some (row.value.cells, row.value.cond)) }
    {
        self.nodes.at(place).shared()
    }

    /// The place of the row with these cells.
    pub(crate) fn place_of(&self, cells: &[u32]) -> Option<u32>
        ensures { MatchOption result (find cells.now self.now.entries ≡ None) (λ place. IsFirst self.now.entries cells.now place) }
    {
        if self.heads.len() == 0 {
            return None;
        }
        let mut at = *self.heads.at(slot(cells, self.heads.len()));
        while at > 0 {
            let node = self.nodes.at(at as usize - 1);
            if node.row().cells.as_slice() == cells {
                return Some(at - 1);
            }
            at = node.below();
        }
        None
    }

    /// Puts a row in the place of another that has the same cells.
    ///
    /// # Errors
    /// `AllocError` where there is no memory; the rows are as they were.
    pub(crate) fn replace(
        &mut self,
        alloc: Global,
        place: u32,
        row: Arc<CRow, Global>,
    ) -> Result<(), AllocError>
        requires place { place < length self.old.entries }
        requires cells { get_or (keys_of self.old.entries) place [] ≡ row.value.cells }
        ensures put { OnOk result (self.new ≡ record { slots = self.old.slots; entries = set self.old.entries place (row.value.cells, row.value.cond) }) }
        ensures same { OnErr result (self.new ≡ self.old) }
    {
        let below = self.nodes.at(place as usize).below();
        let node = Node::new(row, below);
        self.nodes.set(alloc, place as usize, node)?;
        Ok(())
    }

    /// Puts a row whose cells no row has last.
    ///
    /// # Errors
    /// `AllocError` where there is no memory, or where there are as many rows as can be; the rows are as they were.
    pub(crate) fn push(&mut self, alloc: Global, row: Arc<CRow, Global>) -> Result<(), AllocError>
        requires some { 0 < self.old.slots }
        requires new { find row.value.cells self.old.entries ≡ None }
        ensures put { OnOk result (self.new ≡ record { slots = self.old.slots; entries = self.old.entries ++ (row.value.cells, row.value.cond) ∷ [] }) }
        ensures same { OnErr result (self.new ≡ self.old) }
    {
        let Some(count) = self.count.checked_add(1) else {
            return Err(AllocError);
        };
        let slot = slot(row.cells.as_slice(), self.heads.len());
        let node = Node::new(row, *self.heads.at(slot));
        write(alloc, &mut self.nodes, self.count as usize, node)?;
        self.heads.set(alloc, slot, count)?;
        self.count = count;
        Ok(())
    }

    /// The rows in twice as many slots.
    ///
    /// # Errors
    /// `AllocError` where there is no memory for the slots and links.
    pub(crate) fn spread(&self, alloc: Global) -> Result<Links, AllocError>
        requires { self.now.slots < 2 ^ 32 }
        ensures { IfOk result (λ l. l ≡ record { slots = max (2 * self.now.slots) 8; entries = self.now.entries }) }
    {
        let mut spread = Links::with_slots(alloc, (2 * self.heads.len()).max(FIRST_SLOTS))?;
        for place in 0..self.count {
            let row = self.nodes.at(place as usize).shared()?;
            spread.push(alloc, row)?;
        }
        Ok(spread)
    }
}

impl Clone for Links {
    ghost is_clone = { λ a b. b ≡ a };

    fn clone(&self) -> Result<Links, AllocError> {
        Ok(Links {
            nodes: self.nodes.clone()?,
            heads: self.heads.clone()?,
            count: self.count,
        })
    }
}
