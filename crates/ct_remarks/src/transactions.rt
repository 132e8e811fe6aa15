// The transaction that a refused statement stands in.

use crate::cases::Case;
use crate::context::Context;
use crate::places::Placed;
use ct_advice::{Own, add_nulls, has_null, is_over_tables, own_table};
use ct_lex::Token;
use ct_transcript::{Refusal, Reply};
use ct_word::{Memory, Text};
use indexmap::IndexSet;
use std::alloc::Global;

/// The position of the BEGIN of the transaction that is open behind the statement at `i`, by what it was answered and by the
/// transaction that was open before it.
pub fn begun_after(before: Option<usize>, i: usize, reply: &Reply) -> Option<usize> {
    match reply {
        Reply::Begun { .. } => Some(i),
        Reply::Committed { .. } | Reply::Nothing { .. } | Reply::RolledBack => None,
        Reply::Refused {
            why: Refusal::Conflict { .. },
            ..
        } => None,
        _ => before,
    }
}

/// The position of the BEGIN of the transaction that is open at the end of a script.
pub fn begun_at_end(replies: &[Reply]) -> Option<usize> {
    if let Some(Reply::Committed { .. }) = replies.last() {
        return None;
    }
    let mut begun = None;
    for (i, reply) in replies.iter().enumerate() {
        begun = begun_after(begun, i, reply);
    }
    begun
}

/// Whether a text begins as a creation does.
fn may_create(text: &Placed) -> bool {
    let lead = text.first.saturating_sub(text.at);
    matches!(text.text.as_bytes().get(lead), Some(b'c' | b'C'))
}

/// Whether a text begins as an assertion does, of those that change something.
fn may_assert(text: &Placed) -> bool {
    let lead = text.first.saturating_sub(text.at);
    matches!(text.text.as_bytes().get(lead), Some(b'a' | b'A'))
}

/// What the open transaction of a session has made before a statement: tables, and whether it has asserted something.
#[derive(Drop)]
pub struct Opened {
    session: usize,
    begun: Option<usize>,
    /// The first statement that was not looked at.
    next: usize,
    tables: Vec<Own>,
    has_asserted: bool,
    /// Whether it has asserted something over tables, and so of nulls that no text names.
    over_tables: bool,
    /// The names of the nulls of which it has asserted something.
    asserted: IndexSet<Text>,
}

impl Opened {
    /// What is open before all sessions.
    pub fn make(alloc: Global) -> Opened {
        Opened {
            session: 0,
            begun: None,
            next: 0,
            tables: Vec::new(alloc),
            has_asserted: false,
            over_tables: false,
            asserted: IndexSet::new(alloc),
        }
    }

    pub fn tables(&self) -> &[Own] {
        &self.tables
    }

    pub fn has_asserted(&self) -> bool {
        self.has_asserted
    }

    /// Whether it may have asserted something of a null of these tokens.
    pub fn has_asserted_of(&self, tokens: &[Token]) -> bool {
        self.over_tables || has_null(&self.asserted, tokens)
    }

    fn push_own(&mut self, alloc: Global, reply: &Reply, text: &Placed) -> Result<(), Memory> {
        let is_change = matches!(reply, Reply::Pending { .. });
        if is_change && may_assert(text) {
            self.has_asserted = true;
            self.over_tables = self.over_tables || is_over_tables(alloc, text.text)?;
            add_nulls(alloc, &mut self.asserted, text.text)?;
        }
        if is_change && may_create(text) {
            if let Some(table) = own_table(alloc, text.text)? {
                self.tables.push(table)?;
            }
        }
        Ok(())
    }

    /// Goes on to a refused statement, which does not stand before the one of the last call.
    ///
    /// # Errors
    /// `Memory` where there is none for the tables.
    pub fn reach(&mut self, alloc: Global, context: &Context, case: &Case) -> Result<(), Memory> {
        if self.session != case.session || self.begun != case.begun {
            self.session = case.session;
            self.begun = case.begun;
            self.next = case.begun.unwrap_or(0);
            self.tables.clear();
            self.has_asserted = false;
            self.over_tables = false;
            self.asserted = IndexSet::new(alloc);
        }
        let Some(_) = case.begun else {
            return Ok(());
        };
        let replies = context.replies(case.session);
        let texts = context.texts_of(case.session);
        for i in self.next..case.number {
            if let (Some(reply), Some(text)) = (replies.get(i), texts.get(i)) {
                self.push_own(alloc, reply, text)?;
            }
        }
        self.next = case.number;
        Ok(())
    }
}
