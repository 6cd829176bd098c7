//! How long a run may continue.

// The maximum number of reads of a replay. Own choice.
pub(crate) const MAX_READS: u64 = 4_000_000_000;

// The maximum number of turns of a gateway. Own choice.
pub(crate) const MAX_TURNS: u64 = 4_294_967_295;
