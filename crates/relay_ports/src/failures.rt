use std::io::ErrorKind;
use thiserror::Error;

/// A call of the outside failed, with the kind of the system's error. A form in memory answers `ErrorKind::Other`.
#[derive(Clone, Copy, Debug, PartialEq, Eq, Error)]
#[error("a call of the outside failed: {kind}")]
pub struct Failed {
    pub kind: ErrorKind,
}

impl Failed {
    /// A failure of which no more is known, as in memory.
    pub const OTHER: Failed = Failed {
        kind: ErrorKind::Other,
    };
}

/// Why nothing was opened.
#[derive(Clone, Copy, Debug, PartialEq, Eq, Error)]
pub enum NotOpened {
    /// The outside refused it.
    #[error("the outside refused it")]
    Failed,
    /// Memory was refused.
    #[error("memory was refused")]
    NoMemory,
}
