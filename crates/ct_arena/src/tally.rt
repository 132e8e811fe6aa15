// What a session did to the log.

/// A session, with how many words it appended and how many of them are commits.
#[derive(Clone, Copy)]
pub struct Tally {
    pub session: u32,
    pub made: u32,
    pub mine: u32,
}
