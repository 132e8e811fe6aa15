// What the sentences are made from.

use crate::places::Placed;
use ct_advice::Known;
use ct_transcript::{Reply, SessionLog};

/// A transcript with what was found in it.
#[derive(Clone, Copy)]
pub struct Context<'a, 'b> {
    pub sessions: &'a [SessionLog],
    /// How many words the log has.
    pub words: usize,
    pub texts: &'b [Vec<Placed<'a>>],
    pub known: &'b Known<'a>,
}

impl<'a, 'b> Context<'a, 'b> {
    /// The replies of a session.
    pub fn replies(&self, session: usize) -> &'a [Reply] {
        match self.sessions.get(session) {
            Some(log) => log.replies.as_slice(),
            None => &[],
        }
    }

    /// The statement texts of a session.
    pub fn texts_of(&self, session: usize) -> &'b [Placed<'a>] {
        match self.texts.get(session) {
            Some(texts) => texts.as_slice(),
            None => &[],
        }
    }
}
