// A box that contracts see as what is in it.

ghost use Rattle.std.specs.Prelude.{◌≡◌, IfOk};

use std::alloc::{AllocError, Global};
use std::marker::Model;

/// A box, which contracts see as what is in it.
#[derive(Drop)]
pub struct Boxed<T> {
    inner: Box<T>,
}

impl<T> Model for Boxed<T> {
    ghost Value = { T };

    ghost coded = { T.code };

    ghost view = { λ b. b.inner.value };
}

impl<T> Boxed<T> {
    pub fn get(&self) -> &T
        ensures { result.now ≡ self.now }
    {
        &self.inner
    }

    /// What is in it. It takes no memory.
    pub fn into_inner(self) -> T
        ensures { result ≡ self }
    {
        let Boxed { inner } = self;
        Box::into_inner(inner)
    }
}

impl<T: Drop> Boxed<T> {
    /// The box of this value.
    ///
    /// # Errors
    /// `AllocError` where there is no memory for it.
    pub fn new(alloc: Global, value: T) -> Result<Boxed<T>, AllocError>
        ensures { IfOk result (λ b. b ≡ value) }
    {
        Ok(Boxed {
            inner: Box::new(alloc, value)?,
        })
    }
}
