// Laws of the promises: that certificates are accepted, and how a run ends.

ghost use Rattle.std.specs.Prelude.{◌≡◌, ℕ, List, All, Some};
ghost use Rattle.ct_outside.specs.Outside.{Held, Rose};
ghost use Rattle.ct_transcript.specs.declared.transcript.Transcript.{Transcript};
ghost use Rattle.ct_cert.specs.Judgement.{judgement};
ghost use Rattle.ct_cert.specs.declared.judgement.Judgement.TheVariants as judged;
ghost use Rattle.ct_serve.specs.Lawful.{Lawful};
ghost use Rattle.ct_run.specs.Certificates.{certificate_of};
ghost use Rattle.ct_run.specs.Scripts.{HoldsScript};
ghost use Rattle.ct_run.specs.Runs.{Asking, Taking, RunPromise, IsServedEnd};
ghost use Rattle.ct_run.specs.declared.ending.Status.{Status};
ghost use Rattle.ct_run.specs.declared.ending.Status.TheVariants as status;

/// The certificate of each reply of a lawful transcript is accepted.
pub fn certificates_are_accepted()
    ensures { (t : Transcript) (N K : ℕ) → Lawful t N → judgement (certificate_of t K) ≡ judged.Accepted }
{}

/// Where a source tells that all files are scripts, and neither source nor sink counted a fault, a run of these files ends
/// in `Done` or `Refused`, which come with the whole text of its transcript, or in `Memory`.
pub fn faultless_runs_are_served()
    ensures { (N : ℕ) (files : List (List ℕ)) (a : Asking) (k : Taking) (s : Status) (t : Transcript) (held : Held) → a.held ≡ Some held → All (HoldsScript a.held) files → (Rose a.faults a.faults' → ⊥) → (Rose k.faults k.faults' → ⊥) → RunPromise N files a k s t → IsServedEnd s }
{}

/// Where a source tells that all files are scripts, a run does not end for one that is none.
pub fn scripts_are_served()
    ensures { (N : ℕ) (files : List (List ℕ)) (a : Asking) (k : Taking) (t : Transcript) (held : Held) → a.held ≡ Some held → All (HoldsScript a.held) files → RunPromise N files a k status.Script t → ⊥ }
{}
