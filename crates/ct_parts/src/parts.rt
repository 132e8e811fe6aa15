// A list that stands in parts.

ghost use Rattle.std.specs.Prelude.{◌≡◌, ◌<◌, [], ◌∷◌, ◌++◌, Some, length, set, slice_get, OnOk, OnErr};
ghost use Rattle.ct_parts.specs.Cut.{IsCut, joined};

use crate::part::Part;
use std::alloc::{AllocError, Global};
use std::marker::Model;

/// How many items a part has, but the last, which may have fewer.
const PART: usize = 128;

/// A list, which contracts see as the list of its items. It stands in parts of 128 items, the last of which may have
/// fewer. A copy shares its parts with the list that it is of, and a change copies the part that it touches where
/// somebody else holds it too.
#[derive(Drop)]
pub struct Parts<T> {
    parts: Vec<Part<T>>,
    len: usize,
}

impl<T> Model for Parts<T> {
    ghost use Rattle.std.specs.Prelude.{◌≡◌, List, length};
    ghost use Rattle.std.specs.Coded.{coded_list};
    ghost use Rattle.ct_parts.specs.Cut.{IsCut, joined};

    ghost Value = { List T };

    ghost coded = { coded_list T.code };

    ghost view = { λ p. joined p.parts.items };

    ghost invariant = { λ p. IsCut 128 p.parts.items × (p.len ≡ length (joined p.parts.items)) };
}

impl<T> Parts<T> {
    /// The list without items. It takes no memory.
    pub fn new(alloc: Global) -> Parts<T>
        ensures { result ≡ [] }
    {
        Parts {
            parts: Vec::new(alloc),
            len: 0,
        }
    }

    /// How many items there are.
    pub fn len(&self) -> usize
        ensures { result ≡ length self.now }
    {
        self.len
    }

    /// The item at a place.
    pub fn at(&self, place: usize) -> &T
        requires place { place < length self.now }
        ensures { slice_get self.now place ≡ Some result.now }
    {
        self.parts[place / PART].at(place % PART)
    }
}

impl<T: Clone> Parts<T> {
    /// Puts an item last.
    ///
    /// # Errors
    /// `AllocError` where there is no memory; the list is as it was.
    pub fn push(&mut self, alloc: Global, item: T) -> Result<(), AllocError>
        // The copies of items are what they copy.
        requires copies { (a b : T) → T.is_clone a b → b ≡ a }
        ensures pushed { OnOk result (self.new ≡ self.old ++ item ∷ []) }
        ensures same { OnErr result (self.new ≡ self.old) }
    {
        let Some(len) = self.len.checked_add(1) else {
            return Err(AllocError);
        };
        push_last(&mut self.parts, self.len, alloc, item)?;
        self.len = len;
        Ok(())
    }

    /// Puts an item in the place of another.
    ///
    /// # Errors
    /// `AllocError` where there is no memory; the list is as it was.
    pub fn set(&mut self, alloc: Global, place: usize, item: T) -> Result<(), AllocError>
        requires place { place < length self.old }
        // The copies of items are what they copy.
        requires copies { (a b : T) → T.is_clone a b → b ≡ a }
        ensures set { OnOk result (self.new ≡ set self.old place item) }
        ensures same { OnErr result (self.new ≡ self.old) }
    {
        self.parts[place / PART].set(alloc, place % PART, item)
    }
}

/// Puts an item last in parts that have so many items: in the last part where that is not whole, else in a new one.
///
/// # Errors
/// `AllocError` where there is no memory; the parts are as they were.
fn push_last<T: Clone>(
    parts: &mut Vec<Part<T>>,
    len: usize,
    alloc: Global,
    item: T,
) -> Result<(), AllocError>
    requires cut { IsCut 128 parts.old.items }
    requires len { len ≡ length (joined parts.old.items) }
    requires copies { (a b : T) → T.is_clone a b → b ≡ a }
    ensures cut { OnOk result (IsCut 128 parts.new.items) }
    ensures pushed { OnOk result (joined parts.new.items ≡ joined parts.old.items ++ item ∷ []) }
    ensures same { OnErr result (parts.new.items ≡ parts.old.items) }
{
    if len % PART == 0 {
        parts.push(Part::of(alloc, item)?)?;
        return Ok(());
    }
    parts[len / PART].push(alloc, item)
}

impl<T: Drop> Clone for Parts<T> {
    ghost is_clone = { λ a b. b ≡ a };

    fn clone(&self) -> Result<Parts<T>, AllocError> {
        let parts = self.parts.clone()?;
        Ok(Parts {
            parts,
            len: self.len,
        })
    }
}
