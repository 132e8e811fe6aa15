// Each form of replies and of changes, also of those that the program has no statement for.

ghost use Rattle.std.specs.Prelude.{◌≡◌};

use ct_arena::{Arena, Blank, Log, Site};
use ct_transcript::{
    Answer, AnswerRow, Change, Commit, Node, Refusal, Reply, SessionLog, Transcript, lines,
};
use ct_word::{List, Memory, Null, Term, Text, Value};
use std::alloc::{AllocError, Global};
use std::marker::Brand;
use std::process::Abort;
use std::test::Fail;

fn list<T: Drop, const N: usize>(alloc: Global, items: [T; N]) -> Result<List<T>, AllocError> {
    Ok(List::from_vec(Vec::from_array(alloc, items)?))
}

fn named(alloc: Global, name: &str) -> Result<Term, Memory> {
    Ok(Term::Null(Null::Named(Text::from_str(alloc, name)?)))
}

/// A row of one cell.
fn row(alloc: Global, cell: Term, cond: u32) -> Result<AnswerRow, AllocError> {
    let cells = list(alloc, [cell])?;
    Ok(AnswerRow { cells, cond })
}

/// `?1#2 = -5` and `?x <> 'it''s'`, and conditions made of them. The one at 2 has one reference, those at 3 and 4 have two.
fn nodes(alloc: Global) -> Result<List<Node>, Memory> {
    let x = named(alloc, "x")?;
    let quoted = Text::from_str(alloc, "it's")?;
    let second = list(alloc, [0, 1])?;
    let third = list(alloc, [0, 2])?;
    let fourth = list(alloc, [1, 3])?;
    let fresh = Null::Fresh {
        session: 1,
        number: 2,
    };
    let nodes = [
        Node::Eq(Term::Null(fresh), Term::Value(Value::Int(-5))),
        Node::Ne(x, Term::Value(Value::Text(quoted))),
        Node::And(second),
        Node::Or(third),
        Node::And(fourth),
        Node::False,
        Node::True,
    ];
    Ok(list(alloc, nodes)?)
}

/// The reply of four rows under the last of these conditions.
fn rows(alloc: Global) -> Result<Reply, Memory> {
    let mut rows = Vec::new(alloc);
    for (value, cond) in [
        (Value::Int(-5), 3),
        (Value::Other(7), 4),
        (Value::Int(2), 5),
        (Value::Int(1), 6),
    ] {
        rows.push(row(alloc, Term::Value(value), cond)?)?;
    }
    let columns = list(alloc, [Text::from_str(alloc, "a")?])?;
    let answer = Answer {
        columns,
        nodes: nodes(alloc)?,
        rows: List::from_vec(rows),
        global: 4,
    };
    Ok(Reply::Rows {
        at: 1,
        plus: 2,
        answer,
    })
}

/// Refusals, one for each reason.
fn refusals(alloc: Global) -> Result<List<Reply>, AllocError> {
    let reasons = [
        Refusal::NotAStatement,
        Refusal::TooDeep,
        Refusal::NumberRange,
        Refusal::UnknownTable,
        Refusal::TableExists,
        Refusal::UnknownColumn,
        Refusal::AmbiguousColumn,
        Refusal::DuplicateName,
        Refusal::ColumnCount,
        Refusal::TooLarge,
        Refusal::Full,
        Refusal::Memory,
    ];
    list(alloc, reasons.map(|why| Reply::Refused { at: 0, why }))
}

/// A session with these replies.
fn session(alloc: Global, replies: List<Reply>) -> Result<SessionLog, Memory> {
    Ok(SessionLog {
        script: Text::from_str(alloc, "")?,
        replies,
    })
}

fn sessions(alloc: Global) -> Result<List<SessionLog>, Memory> {
    let rows = list(alloc, [rows(alloc)?])?;
    let first = session(alloc, rows)?;
    Ok(list(alloc, [first, session(alloc, refusals(alloc)?)?])?)
}

/// An insertion of the empty text, one of no rows, a deletion, an update of all rows and an assertion.
fn changes(alloc: Global) -> Result<List<Change>, Memory> {
    let first = Text::from_str(alloc, "t")?;
    let second = Text::from_str(alloc, "t")?;
    let third = Text::from_str(alloc, "t")?;
    let fourth = Text::from_str(alloc, "t")?;
    let sets = list(
        alloc,
        [(1, Term::Column(0)), (0, Term::Value(Value::Int(-5)))],
    )?;
    let empty = Term::Value(Value::Text(Text::from_str(alloc, "")?));
    let rows = list(alloc, [row(alloc, empty, 0)?])?;
    let changes = [
        Change::Insert { name: first, rows },
        Change::Insert {
            name: second,
            rows: List::new(alloc),
        },
        Change::Delete {
            name: third,
            cond: 1,
        },
        Change::Update {
            name: fourth,
            sets,
            cond: 2,
        },
        Change::Assert { cond: 2 },
    ];
    Ok(list(alloc, changes)?)
}

/// The commit of these changes.
fn history(alloc: Global) -> Result<List<Commit>, Memory> {
    let changes = changes(alloc)?;
    let column = Node::Eq(Term::Column(0), named(alloc, "x")?);
    let nodes = list(alloc, [Node::False, column, Node::True])?;
    let commit = Commit {
        session: 2,
        number: 0,
        nodes,
        changes,
    };
    Ok(list(alloc, [commit])?)
}

/// The transcript, line by line.
const EACH_FORM: &str = "session 1\n\
    1 rows (a) at 1 plus 2\n  \
      [1] is ?1#2 = -5 or (?1#2 = -5 and ?x <> 'it''s')\n  \
      [2] is ?x <> 'it''s' and [1]\n  \
      worlds where [2]\n  \
      (-5) if [1]\n  \
      (@7) if [2]\n  \
      (1)\n\
    session 2\n\
    1 refused NotAStatement\n\
    2 refused TooDeep\n\
    3 refused NumberRange\n\
    4 refused UnknownTable\n\
    5 refused TableExists\n\
    6 refused UnknownColumn\n\
    7 refused AmbiguousColumn\n\
    8 refused DuplicateName\n\
    9 refused ColumnCount\n\
    10 refused TooLarge\n\
    11 refused Full\n\
    12 refused Memory\n\
    history\n\
    1 by 2\n  \
      insert into t ('') if false\n  \
      insert into t nothing\n  \
      delete from t where $1 = ?x\n  \
      update t set $2 = $1, $1 = -5 where true\n  \
      assert true\n\
    end\n";

/// A log whose only session has put no words.
fn unused_log<N: Site>(alloc: Global, blank: Blank) -> Result<Log, Fail>
    requires { blank ≡ N.log }
{
    let (arena, mut keeper) = Arena::<N>::make(blank);
    let pass = keeper.enrol(alloc, &arena)?;
    let _ = keeper.end(&arena, pass);
    Ok(keeper.finish(arena))
}

/// The text of a transcript.
pub fn text_of(alloc: Global, transcript: &Transcript) -> Result<String, Fail> {
    let mut text = String::new(alloc);
    for line in &lines(alloc, transcript)? {
        text.push_str(line.as_str())?;
    }
    Ok(text)
}

/// A text is this one.
pub fn is_text(rt: &impl Abort, text: &str, wanted: &str) {
    assert_eq!(rt; text, wanted);
}

#[test]
fn each_form_is_printed(rt: HostRuntime) -> Result<(), Fail> {
    let blank = Blank::make(rt.alloc(), 64)?;
    let words = unused_log::<Brand>(rt.alloc(), blank)?;
    let sessions = sessions(rt.alloc())?;
    let history = history(rt.alloc())?;
    let transcript = Transcript {
        sessions,
        history,
        words,
    };
    let text = text_of(rt.alloc(), &transcript)?;
    is_text(&rt, text.as_str(), EACH_FORM);
    Ok(())
}
