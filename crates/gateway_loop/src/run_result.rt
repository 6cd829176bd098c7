//! The result of a replay or a live gateway.
use thiserror::Error;

/// The result of a replay or of a live gateway.
#[derive(Clone, Copy, Debug, PartialEq, Eq)]
pub struct Summary {
    /// How many packets and orders were handled. Stays at its maximum once it has reached it.
    pub items: u64,
}

/// Why a replay, or a live gateway, ended early. Its text is what the program prints.
#[derive(Clone, Copy, Debug, PartialEq, Eq, Error)]
pub enum RunFault {
    /// A read failed.
    #[error("read")]
    Read,
    /// A write failed, or took 0 bytes.
    #[error("write")]
    Write,
    /// All allowed reads were made, and the script of a replay has not ended.
    #[error("too many turns")]
    TooManyTurns,
}
