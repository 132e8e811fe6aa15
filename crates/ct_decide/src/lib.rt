//! Whether the condition at a place of the log can hold: a valuation at which it does, or a
//! derivation that it does not at any, which `ct_checker` checks.
//!
//! The question is turned into clauses (`ct_cnf`), which a propositional search decides
//! (`ct_sat`). A model of them that is one of equality gives a valuation (`ct_equality`). Where
//! it is none, there is a path of terms whose transitivity constraint it breaks, and that
//! clause, or those of triangles that stand for it, are added (lazily, Bryant and Velev 2002).
//! The log of a search that ends without a model is a derivation (`ct_derivation`), as each
//! clause has its reason.
#![tactic(auto)]

mod asking;
mod deciding;
mod error;
mod known;
mod near;
mod part;
mod paths;
mod stars;
mod ways;
mod widening;

pub use deciding::{Decision, decide};
pub use error::DecideError;
pub use near::decide_near;
