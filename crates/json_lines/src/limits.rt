//! The lengths of lines.

/// The length of the longest packet line, in bytes. Own choice, like the form of the line.
pub const MAX_PACKET_LINE: usize = 184;
