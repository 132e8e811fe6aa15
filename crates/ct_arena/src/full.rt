// The error of the calls that append.

use thiserror::Error;

/// The log has as many words as its capacity.
#[derive(Clone, Copy, Debug, PartialEq, Eq, Error)]
#[error("the log is full")]
pub struct Full;
