// Laws of lawful transcripts: what they answer, and how many words they take.

ghost use Rattle.std.specs.Prelude.{◌≡◌, ◌≤◌, ◌+◌, ℕ, true};
ghost use Rattle.ct_transcript.specs.declared.transcript.Transcript.{Transcript};
ghost use Rattle.ct_transaction.specs.Answers.{is_full};
ghost use Rattle.ct_serve.specs.Sessions.{some_reply};
ghost use Rattle.ct_serve.specs.Lawful.{Lawful};
ghost use Rattle.ct_serve.specs.Within.{IsWithin};
ghost use Rattle.ct_serve.specs.Complete.{IsComplete};
ghost use Rattle.ct_serve.specs.Serial.{IsSerial};

/// Completeness: a lawful transcript refuses no statement that is within all limits, but for want of memory. Each refusal
/// has one of the causes that `IsWithinLimitsAt` lists, at the version that it carries.
pub fn within_limits_is_answered()
    ensures { (t : Transcript) (N : ℕ) → Lawful t N → IsComplete t N }
{}

/// Serial answers: what a transaction of a lawful transcript was answered, and that is committed later, is right at the commit
/// before its own too, after the actions before it. That the changes of the commit agree with the actions there is part of
/// `Lawful`.
pub fn lawful_is_serial()
    ensures { (t : Transcript) (N : ℕ) → Lawful t N → IsSerial t N }
{}

/// Where some reply of a lawful transcript says that the log is full, the bounds on the words of all statements, and the two
/// words of each log, reach its capacity.
pub fn full_logs_reach_their_bounds()
    ensures { (t : Transcript) (N : ℕ) → Lawful t N → (within : IsWithin t N) → some_reply is_full t.sessions ≡ true → N ≤ 2 + within.total }
{}
