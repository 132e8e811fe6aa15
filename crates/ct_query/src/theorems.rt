// Laws of the definitions: what two histories have in common.

ghost use Rattle.std.specs.Prelude.{List, ◌++◌};
ghost use Rattle.ct_word.specs.Change.{PlainChange, PlainCommit};
ghost use Rattle.ct_word.specs.StandsFor.{SameCommits};
ghost use Rattle.ct_query.specs.Plain.{PlainQuery, PlainAction};
ghost use Rattle.ct_query.specs.Reads.{query_reads};
ghost use Rattle.ct_query.specs.Fits.{FitAfter};
ghost use Rattle.ct_query.specs.Agrees.{Agrees};
ghost use Rattle.ct_query.specs.Keeping.{KeepsThroughout};
ghost use Rattle.ct_query.specs.Committed.{Does};
ghost use Rattle.ct_query.specs.Frame.{AreOlder, creates, reads_of_actions, SameForActions, SameForQuery};

/// Histories of the same commits are alike in all that is said of a history. So what is true of
/// the commits of a log is true of the history that is printed for them.
pub fn same_commits_keep()
    ensures { (g h : List PlainCommit) → SameCommits g h → KeepsThroughout g h }
{}

/// A commit of changes that agree with actions does what these do.
pub fn agreed_changes_do()
    ensures { (h : List PlainCommit) (actions : List PlainAction) (c : PlainCommit) → Agrees h actions c.changes → Does h actions c }
{}

/// Commits that write nothing of what is read change nothing for the reader. So a transaction that
/// read at its base and meets no conflict was right at the commit before its own as well.
pub fn unread_commits_change_nothing()
    ensures actions { (h later : List PlainCommit) (actions : List PlainAction) → AreOlder h later (reads_of_actions actions) → SameForActions h later actions }
    ensures changes { (h later : List PlainCommit) (xs : List PlainChange) → AreOlder h later (creates xs) → FitAfter h xs → FitAfter (h ++ later) xs }
    ensures queries { (h later : List PlainCommit) (actions : List PlainAction) (q : PlainQuery) → AreOlder h later (reads_of_actions actions) → AreOlder h later (query_reads q) → SameForQuery h later actions q }
{}
