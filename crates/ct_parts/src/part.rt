// A part of a list, which several lists may hold.

ghost use Rattle.std.specs.Prelude.{◌≡◌, ◌<◌, [], ◌∷◌, ◌++◌, Some, length, set, slice_get, IfOk, OnOk, OnErr};

use std::alloc::{AllocError, Global};
use std::marker::Model;
use std::sync::Arc;

/// Some items. Contracts see them as the list that they are.
#[derive(Drop)]
pub struct Part<T> {
    items: Arc<Vec<T>, Global>,
}

impl<T> Model for Part<T> {
    ghost use Rattle.std.specs.Prelude.{List};
    ghost use Rattle.std.specs.Coded.{coded_list};

    ghost Value = { List T };

    ghost coded = { coded_list T.code };

    ghost view = { λ p. p.items.value.items };
}

impl<T> Part<T> {
    /// The item at a place.
    pub(crate) fn at(&self, place: usize) -> &T
        requires place { place < length self.now }
        ensures { slice_get self.now place ≡ Some result.now }
    {
        &self.items[place]
    }
}

impl<T: Clone> Part<T> {
    /// The part of one item.
    ///
    /// # Errors
    /// `AllocError` where there is no memory for it.
    pub(crate) fn of(alloc: Global, item: T) -> Result<Part<T>, AllocError>
        ensures { IfOk result (λ p. p ≡ item ∷ []) }
    {
        let mut items = Vec::with_capacity(alloc, 1)?;
        items.push(item)?;
        let items = Arc::new(alloc, items)?;
        Ok(Part { items })
    }

    /// A copy of the items, which nobody else holds.
    fn copied(&self) -> Result<Vec<T>, AllocError>
        requires copies { (a b : T) → T.is_clone a b → b ≡ a }
        ensures { IfOk result (λ v. v.items ≡ self.now) }
    {
        let items: &Vec<T> = &self.items;
        items.clone()
    }

    /// Puts an item last: in place where nobody else holds the part, else in a copy.
    ///
    /// # Errors
    /// `AllocError` where there is no memory; the part is as it was.
    pub(crate) fn push(&mut self, alloc: Global, item: T) -> Result<(), AllocError>
        requires copies { (a b : T) → T.is_clone a b → b ≡ a }
        ensures pushed { OnOk result (self.new ≡ self.old ++ item ∷ []) }
        ensures same { OnErr result (self.new ≡ self.old) }
    {
        match Arc::get_mut(&mut self.items) {
            Some(items) => items.push(item)?,
            None => {
                let mut copy = self.copied()?;
                copy.push(item)?;
                self.items = Arc::new(alloc, copy)?;
            }
        }
        Ok(())
    }

    /// Puts an item in the place of another: in place where nobody else holds the part, else in a copy.
    ///
    /// # Errors
    /// `AllocError` where there is no memory; the part is as it was.
    pub(crate) fn set(&mut self, alloc: Global, place: usize, item: T) -> Result<(), AllocError>
        requires place { place < length self.old }
        requires copies { (a b : T) → T.is_clone a b → b ≡ a }
        ensures set { OnOk result (self.new ≡ set self.old place item) }
        ensures len { length self.new ≡ length self.old }
        ensures same { OnErr result (self.new ≡ self.old) }
    {
        match Arc::get_mut(&mut self.items) {
            Some(items) => items[place] = item,
            None => {
                let mut copy = self.copied()?;
                copy[place] = item;
                self.items = Arc::new(alloc, copy)?;
            }
        }
        Ok(())
    }
}

impl<T: Drop> Clone for Part<T> {
    ghost is_clone = { λ a b. b ≡ a };

    fn clone(&self) -> Result<Part<T>, AllocError> {
        let items = Arc::try_clone(&self.items)?;
        Ok(Part { items })
    }
}
