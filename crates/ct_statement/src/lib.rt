//! What a statement asks for, at what it sees: the answer to a query, or a change that is proposed.
#![tactic(auto)]

mod advancing;
mod asking;
mod asserting;
mod drawing;
mod printing;
mod proposing;
mod refusing;
mod replying;
mod sight;
mod stepping;
mod workers;

pub use advancing::advance;
pub use proposing::{Proposal, is_literal, propose, propose_literal};
pub use replying::{Answered, answer_to};
pub use sight::Sight;
pub use stepping::{Step, step_of};
pub use workers::Workers;
