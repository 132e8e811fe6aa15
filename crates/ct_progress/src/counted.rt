// A source that counts the statements of the scripts that it reads.

ghost use Rattle.std.specs.Prelude.{◌≡◌, length, IfOk};
ghost use Rattle.ct_lex.specs.Texts.{texts};

use ct_lex::split;
use ct_outside::{ReadError, Scripts};
use ct_word::Memory;
use std::alloc::Global;
use std::sync::atomic::{AtomicU64, Ordering};

/// How many statements a script has.
///
/// # Errors
/// `Memory` where there is none for a list of them.
fn count(alloc: Global, script: &str) -> Result<usize, Memory>
    ensures { IfOk result (λ count. count ≡ length (texts script.now)) }
{
    let texts = split(alloc, script)?;
    Ok(texts.len())
}

/// Hands on what another source reads, and adds to a count of all statements how many each of its scripts has. What is not
/// UTF-8 has none, and nothing is counted where there is no memory for it: that decides about no answer.
#[derive(Drop)]
pub struct CountedScripts<'a, S> {
    scripts: S,
    all: &'a AtomicU64,
}

impl<'a, S: Scripts> CountedScripts<'a, S> {
    /// The source of these scripts, which adds to `all`.
    pub fn make(scripts: S, all: &'a AtomicU64) -> CountedScripts<'a, S>
        ensures faults { ⟦<CountedScripts<'a, S> as Scripts>⟧.faults result ≡ S.faults scripts }
        ensures held { ⟦<CountedScripts<'a, S> as Scripts>⟧.held result ≡ S.held scripts }
        ensures names { ⟦<CountedScripts<'a, S> as Scripts>⟧.names result ≡ S.names scripts }
    {
        CountedScripts { scripts, all }
    }

    // Adds the statements of a script.
    fn add(&self, alloc: Global, bytes: &[u8]) {
        let Ok(script) = std::str::from_utf8(bytes) else {
            return;
        };
        if let Ok(count) = count(alloc, script) {
            self.all.fetch_add(count as u64, Ordering::SeqCst);
        }
    }
}

impl<S: Scripts> Scripts for CountedScripts<'_, S> {
    ghost faults = { λ s. S.faults s.scripts };

    ghost held = { λ s. S.held s.scripts };

    ghost names = { λ s. S.names s.scripts };

    fn read(&mut self, alloc: Global, name: &str, limit: u32) -> Result<Vec<u8>, ReadError> {
        let bytes = self.scripts.read(alloc, name, limit)?;
        self.add(alloc, bytes.as_slice());
        Ok(bytes)
    }
}
