// The scripts of the files that a run names.

ghost use Rattle.std.specs.Prelude.{◌≡◌, ◌≤◌, ◌∷◌, [], All, IfOk, IfErr, OnOk, length};
ghost use Rattle.ct_outside.specs.Outside.{Rose, StillHolds, Holds, HoldsMore, Added, AddedFront};
ghost use Rattle.ct_outside.specs.Reads.{names_of, bytes_in};
ghost use Rattle.ct_run.specs.Scripts.{SCRIPT_BYTES, IsScript, AreScriptsOf, HasNoScript, IsUnread, IsNoScript};
ghost use Rattle.ct_run.specs.declared.reading.Unserved.TheVariants as unserved;

use ct_lex::split;
use ct_outside::{ReadError, Scripts, Unread, read_all};
use ct_word::{Memory, Text};
use std::alloc::{AllocError, AllocFailed, Global};

/// The greatest number of bytes of a script.
pub(crate) const SCRIPT_BYTES: u32 = 0x10_0000;

/// The greatest number of statements of a script.
const SCRIPT_STATEMENTS: usize = 65_535;

/// Why no session ran.
pub(crate) enum Unserved {
    ReadFault,
    Script,
    Memory,
}

impl From<Memory> for Unserved {
    ghost from_gives = { λ _ e. e ≡ unserved.Memory };

    fn from(_: Memory) -> Self {
        Unserved::Memory
    }
}

impl From<AllocError> for Unserved {
    ghost from_gives = { λ _ e. e ≡ unserved.Memory };

    fn from(_: AllocError) -> Self {
        Unserved::Memory
    }
}

impl<T: Drop> From<AllocFailed<T>> for Unserved {
    ghost from_gives = { λ _ e. e ≡ unserved.Memory };

    fn from(_: AllocFailed<T>) -> Self {
        Unserved::Memory
    }
}

/// The bytes of the file, of which there are at most `limit`.
///
/// # Errors
/// `ReadFault` only where the source failed, `Script` only where the file has too many bytes, `Memory` for want of memory.
pub(crate) fn bytes_of<S: Scripts>(
    alloc: Global,
    source: &mut S,
    file: &str,
    limit: u32,
) -> Result<Vec<u8>, Unserved>
    ensures in_order { AddedFront (S.names source.old) (S.names source.new) (file.now ∷ []) }
    ensures still { StillHolds (S.held source.old) (S.held source.new) }
    ensures later { S.faults source.old ≤ S.faults source.new }
    ensures held { IfOk result (λ bytes. Holds (S.held source.old) file.now bytes.items) }
    ensures short { IfOk result (λ bytes. length bytes.items ≤ limit) }
    ensures asked { IfOk result (λ bytes. Added (S.names source.old) (S.names source.new) (file.now ∷ [])) }
    ensures rose { IfErr result (λ e. e ≡ unserved.ReadFault → Rose (S.faults source.old) (S.faults source.new)) }
    ensures unread { IfErr result (λ e. e ≡ unserved.ReadFault → Added (S.names source.old) (S.names source.new) (file.now ∷ [])) }
    ensures long { IfErr result (λ e. e ≡ unserved.Script → HoldsMore (S.held source.old) file.now limit) }
    ensures asked_long { IfErr result (λ e. e ≡ unserved.Script → Added (S.names source.old) (S.names source.new) (file.now ∷ [])) }
{
    let bytes = match source.read(alloc, file, limit) {
        Ok(bytes) => bytes,
        Err(ReadError::Failed) => return Err(Unserved::ReadFault),
        Err(ReadError::TooLong) => return Err(Unserved::Script),
        Err(ReadError::Memory) => return Err(Unserved::Memory),
    };
    // A source that tells nothing may give more than the limit.
    if bytes.len() > limit as usize {
        return Err(Unserved::Script);
    }
    Ok(bytes)
}

/// The script that the bytes are.
///
/// # Errors
/// `Script` only where they are none, `Memory` for want of memory.
pub(crate) fn as_script(alloc: Global, bytes: Vec<u8>) -> Result<Text, Unserved>
    requires short { length bytes.items ≤ SCRIPT_BYTES }
    ensures same { IfOk result (λ script. script ≡ bytes.items) }
    ensures script { IfOk result (λ script. IsScript script) }
    ensures no_script { IfErr result (λ e. e ≡ unserved.Script → IsScript bytes.items → ⊥) }
    ensures no_fault { IfErr result (λ e. e ≡ unserved.ReadFault → ⊥) }
{
    let Ok(text) = String::from_utf8(bytes) else {
        return Err(Unserved::Script);
    };
    let script = Text::from_string(text);
    if split(alloc, script.as_str())?.len() <= SCRIPT_STATEMENTS {
        Ok(script)
    } else {
        Err(Unserved::Script)
    }
}

/// The scripts that the texts are.
///
/// # Errors
/// `Script` where one is none and those before it are, `Memory` for want of memory.
fn as_scripts(alloc: Global, texts: Vec<Vec<u8>>) -> Result<Vec<Text>, Unserved>
    requires short { All (λ text. length text ≤ SCRIPT_BYTES) (bytes_in texts.items) }
    ensures same { IfOk result (λ scripts. scripts.items ≡ bytes_in texts.items) }
    ensures scripts { IfOk result (λ scripts. All IsScript scripts.items) }
    ensures no_script { IfErr result (λ e. e ≡ unserved.Script → HasNoScript (bytes_in texts.items)) }
    ensures no_fault { IfErr result (λ e. e ≡ unserved.ReadFault → ⊥) }
{
    let mut scripts = Vec::new(alloc);
    for bytes in texts {
        scripts.push(as_script(alloc, bytes)?)?;
    }
    Ok(scripts)
}

/// The scripts of the files, in their order.
///
/// # Errors
/// `ReadFault` only where the source failed. Where the source tells what it holds, the first file at fault decides, and
/// `Script` comes only where it is no script. `Memory` comes for want of memory.
pub(crate) fn scripts_of<S: Scripts>(
    alloc: Global,
    source: &mut S,
    files: &[&str],
) -> Result<Vec<Text>, Unserved>
    ensures in_order { AddedFront (S.names source.old) (S.names source.new) (names_of files.now) }
    ensures asked { OnOk result (Added (S.names source.old) (S.names source.new) (names_of files.now)) }
    ensures ok { IfOk result (λ scripts. AreScriptsOf (S.held source.old) (names_of files.now) scripts.items) }
    ensures rose { IfErr result (λ e. e ≡ unserved.ReadFault → Rose (S.faults source.old) (S.faults source.new)) }
    ensures unread { IfErr result (λ e. e ≡ unserved.ReadFault → IsUnread (S.held source.old) (S.names source.old) (S.names source.new) (names_of files.now)) }
    ensures no_script { IfErr result (λ e. e ≡ unserved.Script → IsNoScript (S.held source.old) (S.names source.old) (S.names source.new) (names_of files.now)) }
{
    let Unread { texts, fault } = match read_all(alloc, source, files, SCRIPT_BYTES) {
        Ok(texts) => return as_scripts(alloc, texts),
        Err(unread) => unread,
    };
    // A text before the file that was not read may be no script, and then decides.
    match fault {
        ReadError::Memory => Err(Unserved::Memory),
        ReadError::TooLong => {
            as_scripts(alloc, texts)?;
            Err(Unserved::Script)
        }
        ReadError::Failed => {
            as_scripts(alloc, texts)?;
            Err(Unserved::ReadFault)
        }
    }
}
