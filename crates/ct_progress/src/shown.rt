// A gate that shows how far a run has come.

ghost use Rattle.std.specs.Prelude.{◌≡◌, ◌≢◌, ◌<◌, ◌≤◌, ◌+◌, ◌-◌, ◌^◌, min, false, IfSome};
ghost use Rattle.std.specs.Duration.{as_nanos};

use ct_outside::Gate;
use std::sync::atomic::{AtomicU64, Ordering};
use std::sync::{Mutex, Wait};
use std::time::{Clock, Duration};

/// The milliseconds of a run without a line.
const QUIET: u64 = 2_000;

/// The milliseconds from one line to the next, at least.
const PAUSE: u64 = 200;

/// Clears a line. None is longer than these blanks: a run has at most 64 times 65,535 statements.
const CLEAR: &str = "\r                              \r";

/// What is known of a run.
#[derive(Clone, Copy)]
struct Progress {
    // How many statements are done.
    done: u64,
    // When the next line is due, by the clock, where one is.
    due: Option<Duration>,
    // Whether a line stands on the terminal.
    is_shown: bool,
}

/// Counts the statements that are done. From two seconds after it was made it says how many of all they are, on one line of
/// standard error, up to five times a second. The line is cleared when all are done, and by `clear`. Where the clock cannot be
/// read there is no line, and where standard error cannot be written what is lost is lost.
#[derive(Drop)]
pub struct CountGate<'a, R> {
    rt: &'a R,
    all: &'a AtomicU64,
    progress: Mutex<Progress>,
}

impl<'a, R: Eprint + Clock> CountGate<'a, R> {
    /// The gate of a run that begins now, and has as many statements as `all` says once the first of them is done.
    pub fn make(rt: &'a R, all: &'a AtomicU64) -> CountGate<'a, R> {
        let due = match rt.monotonic() {
            Ok(now) => now.checked_add(Duration::from_millis(QUIET)),
            Err(_) => None,
        };
        let progress = Mutex::new(Progress {
            done: 0,
            due,
            is_shown: false,
        });
        CountGate { rt, all, progress }
    }

    /// Clears the line, where one stands there. A session that wants memory leaves statements undone, and a line with them.
    pub fn clear<W: Wait>(&self, rt: &W) {
        let mut progress = self.progress.lock(rt);
        *progress = self.cleared(*progress);
    }

    // The time, where a line is due.
    fn time_for(&self, due: Option<Duration>) -> Option<Duration>
        ensures { IfSome result (λ now. IfSome due (λ due. as_nanos due ≤ as_nanos now)) }
    {
        let due = due?;
        match self.rt.monotonic() {
            Ok(now) if due <= now => Some(now),
            _ => None,
        }
    }

    // Writes the line, where it is due, and says what is known then.
    fn written(&self, progress: Progress, all: u64) -> Progress
        requires { progress.done < all }
        ensures { result.done ≡ progress.done }
    {
        let done = progress.done;
        let Some(now) = self.time_for(progress.due) else {
            return progress;
        };
        // A part of the line may stand there even where the write failed.
        let _ = eprint!(self.rt; "\r{done} of {all} statements");
        Progress {
            done,
            due: now.checked_add(Duration::from_millis(PAUSE)),
            is_shown: true,
        }
    }

    // Clears the line, where one stands there, and says what is known then.
    fn cleared(&self, progress: Progress) -> Progress
        ensures done { result.done ≡ progress.done }
        ensures shown { result.is_shown ≡ false }
    {
        if progress.is_shown {
            let _ = eprint!(self.rt; "{CLEAR}");
        }
        Progress {
            is_shown: false,
            ..progress
        }
    }

    // Counts one more statement, short of the greatest number, and writes or clears the line.
    fn counted(&self, progress: Progress, all: u64) -> Progress
        ensures done { result.done ≡ min (progress.done + 1) (2 ^ 64 - 1) }
        ensures cleared { all ≤ result.done → result.is_shown ≡ false }
    {
        let done = progress.done.saturating_add(1);
        let progress = Progress { done, ..progress };
        if done < all {
            self.written(progress, all)
        } else {
            self.cleared(progress)
        }
    }
}

impl<R: Eprint + Clock> Gate for CountGate<'_, R> {
    fn before<W: Wait>(&self, _: &W, _: u32, _: u32) {}

    fn after<W: Wait>(&self, rt: &W, _: u32, _: u32) {
        let all = self.all.load(Ordering::SeqCst);
        let mut progress = self.progress.lock(rt);
        *progress = self.counted(*progress, all);
    }
}
