//! The limit of a read. Own choice.

/// The maximum number of bytes that one read returns: `max_read` of specs/ReadLimit.antt.
pub const MAX_READ: usize = 256;
