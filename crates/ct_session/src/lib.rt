//! One statement of one session: from its text to what it does to the session, and the reply to it.
#![tactic(auto)]

mod alone;
mod executing;
mod exporting;
mod inserting;
mod knowing;
mod offering;
mod reading;
mod session;
mod settling;

pub use exporting::ExportError;
pub use reading::read;
pub use session::Session;
