// A source of scripts in memory that fails where it is told to.

ghost use Rattle.std.specs.Prelude.{◌≡◌, ◌≤◌, ◌⊎◌, ◌∷◌, [], Some, IfOk, IsErrOf, IsTrue, option_map};
ghost use Rattle.std.specs.Result.{result_map_both};
ghost use Rattle.ct_outside.specs.Outside.{Rose};
ghost use Rattle.ct_outside.specs.Reads.{UnlessMemory, UnlessFailed, OnMemory};
ghost use Rattle.ct_outside.specs.InMemory.{bytes_under, fails_next, next_answer, one_more, after_read, after_want};
ghost use Rattle.ct_outside.specs.declared.scripts.ReadError.TheVariants as fault;

use crate::scripts::{ReadError, Scripts};
use ct_word::{List, Text};
use std::alloc::Global;
use std::marker::Model;

/// Holds the bytes of each name in memory, and tells all of itself.
#[derive(Drop)]
pub struct MemScripts {
    held: List<(Text, List<u8>)>,
    fails: List<u64>,
    names: Vec<Text>,
    count: u64,
    failed: u64,
}

impl Model for MemScripts {
    ghost use Rattle.ct_outside.specs.InMemory.{Source};

    ghost Value = { Source };

    ghost view = { λ s. record { pairs = s.held; to_fail = s.fails; asked = s.names.items; calls = s.count; faults = s.failed } };
}

// The bytes under this name.
fn find<'a>(held: &'a [(Text, List<u8>)], name: &str) -> Option<&'a List<u8>>
    ensures { option_map (λ bytes. bytes.now) result ≡ bytes_under held.now name.now }
{
    for (other, bytes) in held {
        if other.as_str() == name {
            return Some(bytes);
        }
    }
    None
}

impl MemScripts {
    /// A source of these bytes under these names, of which it was asked none yet; of two pairs of one name the first
    /// counts. `fails` has the numbers, from 1, of the calls that are to fail.
    pub fn make(alloc: Global, held: List<(Text, List<u8>)>, fails: List<u64>) -> MemScripts
        ensures pairs { result.pairs ≡ held }
        ensures to_fail { result.to_fail ≡ fails }
        ensures asked { result.asked ≡ [] }
        ensures calls { result.calls ≡ 0 }
        ensures faults { result.faults ≡ 0 }
    {
        MemScripts {
            held,
            fails,
            names: Vec::new(alloc),
            count: 0,
            failed: 0,
        }
    }

    // Whether the next call is to fail.
    fn fails_next(&self) -> bool
        ensures { result ≡ fails_next self.now }
    {
        if self.count == u64::MAX {
            return false;
        }
        self.fails.as_slice().contains(&(self.count + 1))
    }
}

impl Scripts for MemScripts {
    ghost faults = { λ s. s.faults };

    ghost held = { λ s. Some (bytes_under s.pairs) };

    ghost names = { λ s. Some s.asked };

    fn read(&mut self, alloc: Global, name: &str, limit: u32) -> Result<Vec<u8>, ReadError>
        ensures later { self.old.faults ≤ self.new.faults }
        ensures failed { IsErrOf result fault.Failed → Rose self.old.faults self.new.faults }
        ensures quiet { UnlessFailed result (self.new.faults ≡ self.old.faults) }
        ensures answer { UnlessMemory result (result_map_both (λ text. text.items) (λ e. e) result ≡ next_answer self.old name.now limit) }
        ensures after { UnlessMemory result (self.new ≡ after_read self.old name.now limit) }
        ensures want { OnMemory result ((self.new ≡ after_want self.old []) ⊎ (self.new ≡ after_want self.old (name.now ∷ []))) }
    {
        let fails = self.fails_next();
        self.count = self.count.saturating_add(1);
        self.names.push(Text::from_str(alloc, name)?)?;
        let found = find(self.held.as_slice(), name).filter(|_| !fails);
        let Some(bytes) = found else {
            self.failed = self.failed.saturating_add(1);
            return Err(ReadError::Failed);
        };
        if bytes.len() > limit as usize {
            return Err(ReadError::TooLong);
        }
        Ok(Vec::from_slice(alloc, bytes.as_slice())?)
    }
}
