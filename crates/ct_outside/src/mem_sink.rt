// A sink in memory that fails where it is told to.

ghost use Rattle.std.specs.Prelude.{◌≡◌, ◌≤◌, ◌⊎◌, [], OnOk, OnErr, None, Some, unwrap_or};
ghost use Rattle.ct_outside.specs.Outside.{Rose};
ghost use Rattle.ct_outside.specs.InMemory.{planned, told_calls, next_plan, after_write, after_failure};

use crate::sinks::{Failed, Sink};
use ct_word::List;
use std::alloc::Global;
use std::marker::Model;

/// Takes bytes into memory, and tells all of itself.
#[derive(Drop)]
pub struct MemSink {
    fails: List<(u64, u32)>,
    taken: Vec<u8>,
    count: u64,
    failed: u64,
}

impl Model for MemSink {
    ghost use Rattle.ct_outside.specs.InMemory.{Taking};

    ghost Value = { Taking };

    ghost view = { λ s. record { to_fail = s.fails; bytes = s.taken.items; calls = s.count; faults = s.failed } };
}

// How many bytes the call of this number takes before it fails, where it is to fail.
fn planned_at(fails: &[(u64, u32)], call: u64) -> Option<u32>
    ensures { result ≡ planned fails.now call }
{
    for (number, taken) in fails {
        if *number == call {
            return Some(*taken);
        }
    }
    None
}

impl MemSink {
    /// A sink that took nothing yet. A pair has the number, from 1, of a call that is to fail, and how many bytes of
    /// its piece are taken before (a shorter piece is taken whole); of two pairs of one number the first counts.
    pub fn make(alloc: Global, fails: List<(u64, u32)>) -> MemSink
        ensures to_fail { result.to_fail ≡ fails }
        ensures bytes { result.bytes ≡ [] }
        ensures calls { result.calls ≡ 0 }
        ensures faults { result.faults ≡ 0 }
    {
        MemSink {
            fails,
            taken: Vec::new(alloc),
            count: 0,
            failed: 0,
        }
    }

    // How many bytes the next call takes before it fails, where it is to fail.
    fn next_plan(&self) -> Option<u32>
        ensures { result ≡ next_plan self.now }
    {
        if self.count == u64::MAX {
            return None;
        }
        planned_at(self.fails.as_slice(), self.count + 1)
    }

    /// What it took.
    pub fn bytes(&self) -> &[u8]
        ensures { result.now ≡ self.now.bytes }
    {
        self.taken.as_slice()
    }
}

impl Sink for MemSink {
    ghost faults = { λ s. s.faults };

    ghost taken = { λ s. Some s.bytes };

    ghost calls = { λ s. told_calls s.calls };

    fn write(&mut self, bytes: &[u8]) -> Result<(), Failed>
        ensures later { self.old.faults ≤ self.new.faults }
        ensures failed { OnErr result (Rose self.old.faults self.new.faults) }
        ensures ok { OnOk result (self.new ≡ after_write self.old bytes.now) }
        ensures planned { OnOk result (next_plan self.old ≡ None) }
        ensures err { OnErr result ((self.new ≡ after_failure self.old bytes.now (unwrap_or (next_plan self.old) 0)) ⊎ (self.new ≡ after_failure self.old bytes.now 0)) }
    {
        let plan = self.next_plan();
        self.count = self.count.saturating_add(1);
        let most = plan.map_or(bytes.len(), |most| bytes.len().min(most as usize));
        if self.taken.extend_from_slice(&bytes[..most]).is_ok() && plan.is_none() {
            return Ok(());
        }
        self.failed = self.failed.saturating_add(1);
        Err(Failed)
    }
}
