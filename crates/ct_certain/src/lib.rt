//! Which rows of a conditional table are possible, and which of its tuples are certain.
//!
//! A row is possible where it is shown at some valuation at which the global condition holds, and a tuple is certain
//! where the table has it at all of these. Whether a condition can hold is a question to `ct_decide`. A row is asked for
//! where no known valuation shows it, nor one changed near one of them, and a tuple where none of up to 16 known valuations
//! lacks it, nor one changed near the kept one.
#![tactic(auto)]

mod absence;
mod certainty;
mod derivations;
mod error;
mod pool;
mod possibility;
mod settling;
mod showing;
mod striking;
mod sure;
mod theorems;
mod tuples;

pub use absence::missing_root;
pub use certainty::certain;
pub use ct_rewrite::{CertainRow, PossibleRow};
pub use derivations::copied_derivation;
pub use error::CertainError;
pub use possibility::possible;
pub use showing::list_row;
pub use striking::{Seen, is_everywhere, see_first};
pub use sure::sure_tuples;
pub use theorems::{certain_lists_agree, possible_lists_agree};
pub use tuples::kept_tuples;
