// How a run ends.

ghost use Rattle.std.specs.Prelude.{◌≡◌};
ghost use Rattle.ct_run.specs.Runs.{empty_transcript};

use ct_arena::Log;
use ct_transcript::Transcript;
use ct_word::List;
use std::alloc::Global;
use std::mem::forget;

/// How a run ended; `run` says when each comes.
#[derive(Clone, Copy, Debug, PartialEq, Eq)]
pub enum Status {
    /// All replies were made and all lines written, and no reply is a refusal.
    Done,
    /// As `Done`, but some reply is a refusal, and none is for want of memory.
    Refused,
    /// The words were not understood.
    Words,
    /// The source of scripts failed.
    ReadFault,
    /// The sink failed.
    WriteFault,
    /// Memory was wanting.
    Memory,
    /// A file is no script.
    Script,
}

/// How a run ended, and its transcript. Where no session ran, the transcript is empty.
#[derive(Drop)]
pub struct Run {
    pub status: Status,
    pub transcript: Transcript,
}

impl Run {
    /// How the run ended. The transcript is not let go part by part: a process that ends leaves it to the system, which takes
    /// all memory back sooner.
    pub fn into_status(self) -> Status
        ensures { result ≡ self.status }
    {
        let Run { status, transcript } = self;
        forget(transcript);
        status
    }
}

/// A run without a session. It takes no memory.
pub(crate) fn no_run(alloc: Global, status: Status) -> Run
    ensures status { result.status ≡ status }
    ensures empty { result.transcript ≡ empty_transcript }
{
    let transcript = Transcript {
        sessions: List::new(alloc),
        history: List::new(alloc),
        words: Log::empty(alloc),
    };
    Run { status, transcript }
}
