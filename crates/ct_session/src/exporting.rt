// The export of a table to CSV.

ghost use Rattle.std.specs.Prelude.{◌≡◌, ◌<◌, ◌^◌, [], IfOk, IfErr, length};
ghost use Rattle.ct_word.specs.WellFormed.{IsWellFormed};
ghost use Rattle.ct_table.specs.Denotes.{Denotes};
ghost use Rattle.ct_table.specs.Snapshot.{commits_to};
ghost use Rattle.ct_transaction.specs.Sessions.{IsSession};
ghost use Rattle.ct_session.specs.Exporting.{HasExported, HasNotExported, IsFileOf, WhyNoFile};
ghost use Rattle.ct_session.specs.Known.{IsKnown};
ghost use Rattle.ct_session.specs.declared.knowing.Known.{Known as KnownValue};
ghost use Rattle.ct_session.specs.declared.exporting.ExportError.TheVariants as fault;

use ct_arena::Site;
use ct_csv::{WideError, export};
use ct_keeper::Server;
use ct_table::Db;
use ct_transaction::State;
use ct_word::{Memory, Text};
use std::alloc::{AllocError, Global};
use std::sync::Wait;
use thiserror::Error;

/// Why a table was not exported.
#[derive(Clone, Copy, Debug, PartialEq, Eq, Error)]
pub enum ExportError {
    /// No table has the name.
    #[error("version {at} has no such table")]
    UnknownTable {
        /// The version at which it was looked for.
        at: u32,
    },
    /// The condition of a row has too long a text, or too deep a nest, for a file.
    #[error("the condition of row {row} is too wide")]
    TooWide {
        /// The row's number in the table, from 1.
        row: u64,
    },
    /// Memory ran out.
    #[error("out of memory")]
    Memory,
}

impl From<Memory> for ExportError {
    ghost from_gives = { λ _ e. e ≡ fault.Memory };

    fn from(_: Memory) -> Self {
        ExportError::Memory
    }
}

impl From<AllocError> for ExportError {
    ghost from_gives = { λ _ e. e ≡ fault.Memory };

    fn from(_: AllocError) -> Self {
        ExportError::Memory
    }
}

/// The file of the table with this name, of the tables of a version.
///
/// # Errors
/// `UnknownTable` with the version exactly where there is no such table, `TooWide` and `Memory` as `export` has them.
fn file_of(
    alloc: Global,
    words: &[u64],
    db: &Db,
    at: u32,
    name: &str,
) -> Result<Vec<u8>, ExportError>
    requires short { length words.now < 2 ^ 28 }
    requires formed { IsWellFormed words.now }
    requires denotes { Denotes words.now (commits_to words.now at) [] db.now }
    ensures ok { IfOk result (λ bytes. IsFileOf words.now (commits_to words.now at) name.now bytes.items) }
    ensures error { IfErr result (WhyNoFile words.now at name.now) }
{
    let text = Text::from_str(alloc, name)?;
    let Some(shared) = db.get(&text) else {
        return Err(ExportError::UnknownTable { at });
    };
    let table = shared.copied(alloc)?;
    // Each table was made with a column, but no clause says so, and there is no file of a table without one.
    if table.columns.is_empty() {
        return Err(ExportError::Memory);
    }
    match export(alloc, words, &table) {
        Ok(bytes) => Ok(bytes),
        Err(WideError::TooWide { row }) => Err(ExportError::TooWide { row }),
        Err(WideError::Memory) => Err(ExportError::Memory),
    }
}

/// Exports the table with this name, at a version that has all commits of the words before.
///
/// # Errors
/// As `file_of` has them; `Memory` also where there is none for what is seen.
pub(crate) fn exported<N: Site, R: Wait>(
    rt: &R,
    alloc: Global,
    server: &Server<N>,
    mut session: State<N>,
    name: &str,
) -> (State<N>, Result<(u32, Vec<u8>), ExportError>)
    requires session { IsSession session.pass.words session.seen session.transaction }
    ensures session { IsSession result.0.pass.words result.0.seen result.0.transaction }
    ensures known { (k : KnownValue) → IsKnown session.pass.words k → IsKnown result.0.pass.words k }
    ensures ok { IfOk result.1 (λ r. HasExported N.log.cap (record { pass = session.pass; seen = session.seen; fresh = session.fresh; transaction = session.transaction }) (record { pass = result.0.pass; seen = result.0.seen; fresh = result.0.fresh; transaction = result.0.transaction }) name.now r.0 r.1.items) }
    ensures error { IfErr result.1 (HasNotExported N.log.cap (record { pass = session.pass; seen = session.seen; fresh = session.fresh; transaction = session.transaction }) (record { pass = result.0.pass; seen = result.0.seen; fresh = result.0.fresh; transaction = result.0.transaction }) name.now) }
{
    let _ = session.pass.words();
    let (pass, snapshot) = server.begin(rt, alloc, session.pass);
    session.pass = pass;
    let words = session.pass.words();
    let Ok(snapshot) = snapshot else {
        return (session, Err(ExportError::Memory));
    };
    let at = snapshot.version;
    let file = file_of(alloc, words, &snapshot.db, at, name);
    drop(snapshot);
    session.seen = session.seen.max(at);
    match file {
        Ok(bytes) => (session, Ok((at, bytes))),
        Err(why) => (session, Err(why)),
    }
}
