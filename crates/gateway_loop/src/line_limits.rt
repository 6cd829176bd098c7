//! The maximum sizes of chunks and kept lines.
use gateway_core::MAX_LINE;

// The maximum number of bytes that a line of a script spells: two digits each, after `S` and a space. Own choice, like
// `MAX_LINE`.
pub(crate) const MAX_SCRIPT_CHUNK: usize = (MAX_LINE - 2) / 2;

// The maximum number of bytes kept of a partial line: enough, with CR, to distinguish each line of at most `MAX_LINE`
// bytes from all longer ones, which are treated alike. Own choice, like `MAX_LINE`.
pub(crate) const MAX_PARTIAL_LINE: usize = MAX_LINE + 2;
