// The trusted edge: scripts from files, and lines to standard output. They tell nothing of what they hold or took.

ghost use Rattle.std.specs.Prelude.{◌≡◌, None};

use crate::scripts::{ReadError, Scripts};
use crate::sinks::{Failed, Sink};
use std::alloc::Global;
use std::fs::{File, Files};
use std::io;
use std::io::{ErrorKind, Print, Read, Write};

/// Reads each script from the file of its name.
#[derive(Drop)]
pub struct FileScripts<'a, R: Files> {
    rt: &'a R,
    faults: u64,
}

impl<'a, R: Files> FileScripts<'a, R> {
    pub fn make(rt: &'a R) -> FileScripts<'a, R>
        ensures { ⟦<FileScripts<'a, R> as Scripts>⟧.faults result ≡ 0 }
    {
        FileScripts { rt, faults: 0 }
    }
}

// The bytes of the file, of which at most these many are read.
fn read_some<R: Files>(alloc: Global, rt: &R, name: &str, most: u64) -> io::Result<Vec<u8>> {
    let mut bytes = Vec::new(alloc);
    File::open(rt, name)?.take(most).read_to_end(&mut bytes)?;
    Ok(bytes)
}

impl<R: Files> Scripts for FileScripts<'_, R> {
    ghost faults = { λ s. s.faults };

    ghost held = { λ s. None };

    ghost names = { λ s. None };

    fn read(&mut self, alloc: Global, name: &str, limit: u32) -> Result<Vec<u8>, ReadError> {
        // One byte more than the limit shows that there are too many.
        match read_some(alloc, self.rt, name, u64::from(limit) + 1) {
            Ok(bytes) if bytes.len() <= limit as usize => Ok(bytes),
            Ok(_) => Err(ReadError::TooLong),
            Err(error) if error.kind() == ErrorKind::OutOfMemory => Err(ReadError::Memory),
            Err(_) => {
                self.faults = self.faults.saturating_add(1);
                Err(ReadError::Failed)
            }
        }
    }
}

/// Writes to standard output.
#[derive(Drop)]
pub struct StdSink<'a, R: Print> {
    rt: &'a R,
    faults: u64,
}

impl<'a, R: Print> StdSink<'a, R> {
    pub fn make(rt: &'a R) -> StdSink<'a, R>
        ensures { ⟦<StdSink<'a, R> as Sink>⟧.faults result ≡ 0 }
    {
        StdSink { rt, faults: 0 }
    }
}

impl<R: Print> Sink for StdSink<'_, R> {
    ghost faults = { λ s. s.faults };

    ghost taken = { λ s. None };

    ghost calls = { λ s. None };

    fn write(&mut self, bytes: &[u8]) -> Result<(), Failed> {
        // A write that takes nothing of what is left is an error of `write_all`.
        let written = io::writer(self.rt).write_all(bytes);
        if written.is_err() {
            self.faults = self.faults.saturating_add(1);
            return Err(Failed);
        }
        Ok(())
    }
}
