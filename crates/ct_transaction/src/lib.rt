//! A statement of a transaction, from BEGIN to COMMIT or ROLLBACK: what it asks for, what it does, and the reply to it.
#![tactic(auto)]

mod committing;
mod extending;
mod orders;
mod preparing;
mod replying;
mod state;
mod theorems;
mod transacting;
mod within;

pub use committing::replied;
pub use orders::{begin, refused_here};
pub use preparing::{Prepared, perform_alone, resolved_at};
pub use replying::{refusal, reply_of};
pub use state::{Open, State};
pub use theorems::{actions_keep_their_bounds, texts_have_one_bound};
pub use transacting::transact;
