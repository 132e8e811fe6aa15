//! What the top call meets outside itself: a source of scripts, a sink of lines, and a gate round each statement.
//!
//! Scripts and sinks count their faults and may tell what they hold and what they took (`specs/Outside.antt`),
//! so that a call over them can say what it read and wrote.
//! Each has an implementation in memory, which tells all, and one over the runtime, which tells nothing.
//! The gates of `holding` order the statements of several sessions in a test.
#![tactic(auto)]

mod drive;
mod gates;
mod holding;
mod mem_scripts;
mod mem_sink;
mod runtime;
mod scripts;
mod sinks;

pub use drive::{Unread, read_all, write_all};
pub use gates::{Gate, NoGate};
pub use holding::{HoldGate, OrderGate};
pub use mem_scripts::MemScripts;
pub use mem_sink::MemSink;
pub use runtime::{FileScripts, StdSink};
pub use scripts::{ReadError, Scripts};
pub use sinks::{Failed, Sink};
