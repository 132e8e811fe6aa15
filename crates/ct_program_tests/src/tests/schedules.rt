// A transaction beside an insertion and an assertion of another session, in each order that keeps the order of each script.

use crate::tests::played::{ROOMY, play};
use std::alloc::{AllocError, Global};
use std::process::Abort;
use std::sync::Wait;
use std::test::Fail;
use std::thread::Threads;

/// Six of the orders, each with what comes of it.
const SIX: &str = "
    script create table t (a); begin; select * from t; insert into t values (1); commit;
    script insert into t values (2); assert ?x = 2;

    order 1 1 1 1 1 2 2
    replies committed 1; begun at 1; rows (a) at 1; pending at 1 plus 1; committed 2
    replies committed 3; committed 4
    history by 1 / create table t (a); by 1 / insert into t (1); by 2 / insert into t (2); by 2 / assert ?x = 2

    order 1 1 2 1 1 1 2
    replies committed 1; begun at 1; rows (a) at 1; pending at 1 plus 1; refused Conflict t was 1 now 2 at 2
    replies committed 2; committed 3
    history by 1 / create table t (a); by 2 / insert into t (2); by 2 / assert ?x = 2

    order 1 2 1 1 1 1 2
    replies committed 1; begun at 2; rows (a) at 2 / (2); pending at 2 plus 1; committed 3
    replies committed 2; committed 4
    history by 1 / create table t (a); by 2 / insert into t (2); by 1 / insert into t (1); by 2 / assert ?x = 2

    order 1 2 1 1 1 2 1
    replies committed 1; begun at 2; rows (a) at 2 / (2); pending at 2 plus 1; refused Conflict worlds was 0 now 3 at 3
    replies committed 2; committed 3
    history by 1 / create table t (a); by 2 / insert into t (2); by 2 / assert ?x = 2

    order 2 1 1 2 1 1 1
    replies committed 1; begun at 1; rows (a) at 1; pending at 1 plus 1; refused Conflict worlds was 0 now 2 at 2
    replies refused UnknownTable; committed 2
    history by 1 / create table t (a); by 2 / assert ?x = 2

    order 1 1 2 2 1 1 1
    replies committed 1; begun at 1; rows (a) at 1; pending at 1 plus 1; refused Conflict t was 1 now 2 at 3
    replies committed 2; committed 3
    history by 1 / create table t (a); by 2 / insert into t (2); by 2 / assert ?x = 2
";

#[test]
fn six_orders(rt: HostRuntime) -> Result<(), Fail> {
    play(&rt, rt.alloc(), ROOMY, SIX)
}

/// Which commits there are: how many, which of them was the last to change the table, and the last to assert, 0 for none,
/// and whether the row of the second session is in the table.
#[derive(Clone, Copy)]
struct Version {
    commits: u32,
    table: u32,
    worlds: u32,
    filled: bool,
}

/// What the statements so far come to: what there is, and what there was at BEGIN; the replies to each session and the
/// history, in the form of a case, with `; ` behind each.
#[derive(Drop)]
struct Outcome {
    now: Version,
    base: Version,
    first: String,
    second: String,
    history: String,
}

impl Outcome {
    /// Before the first statement.
    fn none(alloc: Global) -> Outcome {
        let empty = Version {
            commits: 0,
            table: 0,
            worlds: 0,
            filled: false,
        };
        Outcome {
            now: empty,
            base: empty,
            first: String::new(alloc),
            second: String::new(alloc),
            history: String::new(alloc),
        }
    }

    /// One commit more, by the session of these replies.
    fn commit(&mut self, alloc: Global, session: u32, change: &str) -> Result<(), AllocError> {
        self.now.commits = self.now.commits.saturating_add(1);
        let reply = format!(in alloc; "committed {}; ", self.now.commits)?;
        let replies = if session == 1 {
            &mut self.first
        } else {
            &mut self.second
        };
        replies.push_str(reply.as_str())?;
        self.history
            .push_str(format!(in alloc; "by {session} / {change}; ")?.as_str())
    }

    /// The query in the transaction.
    fn rows(&mut self, alloc: Global) -> Result<(), AllocError> {
        let global = if self.base.worlds > 0 {
            " / worlds where ?x = 2"
        } else {
            ""
        };
        let row = if self.base.filled { " / (2)" } else { "" };
        let reply = format!(in alloc; "rows (a) at {}{global}{row}; ", self.base.commits)?;
        self.first.push_str(reply.as_str())
    }

    /// COMMIT of the transaction, which has read the table and, with it, the worlds.
    fn end(&mut self, alloc: Global) -> Result<(), AllocError> {
        let (now, base) = (self.now, self.base);
        let (read, was, last) = if now.table > base.commits {
            ("t", base.table, now.table)
        } else if now.worlds > base.commits {
            ("worlds", base.worlds, now.worlds)
        } else {
            return self.commit(alloc, 1, "insert into t (1)");
        };
        let at = now.commits;
        let reply = format!(in alloc; "refused Conflict {read} was {was} now {last} at {at}; ")?;
        self.first.push_str(reply.as_str())
    }

    /// The next statement of the first session, with so many before it.
    fn next_of_first(&mut self, alloc: Global, before: usize) -> Result<(), AllocError> {
        match before {
            0 => {
                self.commit(alloc, 1, "create table t (a)")?;
                self.now.table = self.now.commits;
                Ok(())
            }
            1 => {
                self.base = self.now;
                let reply = format!(in alloc; "begun at {}; ", self.base.commits)?;
                self.first.push_str(reply.as_str())
            }
            2 => self.rows(alloc),
            3 => {
                let reply = format!(in alloc; "pending at {} plus 1; ", self.base.commits)?;
                self.first.push_str(reply.as_str())
            }
            _ => self.end(alloc),
        }
    }

    /// The next statement of the second session, with so many before it.
    fn next_of_second(&mut self, alloc: Global, before: usize) -> Result<(), AllocError> {
        if before > 0 {
            self.commit(alloc, 2, "assert ?x = 2")?;
            self.now.worlds = self.now.commits;
        } else if self.now.table > 0 {
            self.commit(alloc, 2, "insert into t (2)")?;
            self.now.table = self.now.commits;
            self.now.filled = true;
        } else {
            self.second.push_str("refused UnknownTable; ")?;
        }
        Ok(())
    }
}

/// The case of one order, in which the statements of the second session come at these places of seven.
fn case_of(alloc: Global, places: (usize, usize)) -> Result<String, AllocError> {
    let mut outcome = Outcome::none(alloc);
    let mut order = String::new(alloc);
    let (mut first, mut second) = (0usize, 0usize);
    for place in 0..7usize {
        if place == places.0 || place == places.1 {
            outcome.next_of_second(alloc, second)?;
            second = second.saturating_add(1);
            order.push_str(" 2")?;
        } else {
            outcome.next_of_first(alloc, first)?;
            first = first.saturating_add(1);
            order.push_str(" 1")?;
        }
    }
    let (scripts, _) = SIX.split_once("\n\n").unwrap_or(("", ""));
    format!(in alloc;
        "{scripts}\n\norder{order}\nreplies {}\nreplies {}\nhistory {}\n",
        without_last(outcome.first.as_str()),
        without_last(outcome.second.as_str()),
        without_last(outcome.history.as_str())
    )
}

/// The text without the `; ` at its end.
fn without_last(text: &str) -> &str {
    text.strip_suffix("; ").unwrap_or(text)
}

/// Plays the orders in which the first statement of the second session comes at this place.
fn play_from(
    rt: &(impl Threads + Wait + Abort + Sync),
    alloc: Global,
    place: usize,
) -> Result<(), Fail> {
    for later in place.saturating_add(1)..7 {
        play(rt, alloc, ROOMY, case_of(alloc, (place, later))?.as_str())?;
    }
    Ok(())
}

#[test]
fn all_orders(rt: HostRuntime) -> Result<(), Fail> {
    for place in 0..6usize {
        play_from(&rt, rt.alloc(), place)?;
    }
    Ok(())
}
