//! A failed read or write.
use thiserror::Error;

/// A failed read or write.
#[derive(Clone, Copy, Debug, PartialEq, Eq, Error)]
#[error("a read or a write failed")]
pub struct Failed;
