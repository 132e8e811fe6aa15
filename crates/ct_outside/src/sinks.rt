// A sink of bytes, by what it took and what it tells of itself.

ghost use Rattle.std.specs.Prelude.{◌≡◌, ◌≤◌, ℕ, List, Option, OnOk, OnErr};
ghost use Rattle.ct_outside.specs.Outside.{Rose, Added, AddedFront, Called};

use thiserror::Error;

/// A write failed.
#[derive(Clone, Copy, Debug, PartialEq, Eq, Error)]
#[error("write fault")]
pub struct Failed;

/// A sink of bytes.
pub trait Sink {
    /// How often it failed: a number that never falls, and ends at the greatest `u64`.
    ghost faults: { Self → ℕ };

    /// The bytes that it took so far, where it tells them.
    ghost taken: { Self → Option (List ℕ) };

    /// The number of its calls so far: a sink tells it while it is below the greatest `u64`, or never.
    ghost calls: { Self → Option ℕ };

    /// Takes these bytes, after those that it took before.
    ///
    /// # Errors
    /// `Failed` only where the count of faults rose; then a prefix of the bytes was taken.
    fn write(&mut self, bytes: &[u8]) -> Result<(), Failed>
        ensures later { faults self.old ≤ faults self.new }
        ensures failed { OnErr result (Rose (faults self.old) (faults self.new)) }
        ensures ok { OnOk result (Added (taken self.old) (taken self.new) bytes.now) }
        ensures err { OnErr result (AddedFront (taken self.old) (taken self.new) bytes.now) }
        ensures calls { Called (calls self.old) (calls self.new) 1 };
}
