//! The words of the command line: `run [--arena N] [--first] [--workers N] FILE...`, `fill N`, `check FILE`, `prove K FILE`,
//! `import NAME CSV FILE` and `export NAME FILE`.
//!
//! `asked` is the whole of it. What the words ask for is `task` in `specs/Asked.antt`.
#![tactic(auto)]

mod asking;
mod commands;
mod numbers;
mod task;

pub use asking::asked;
pub use task::Asked;
