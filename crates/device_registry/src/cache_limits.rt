//! The size of a registry's cache.

/// The maximum size of the cache, in senders: every device that can be learned, and some others. The program's registry
/// has a cache of this size. Own choice.
pub const MAX_CACHED: usize = 1024;

/// The size of the cache of a registry that `open` opens, in senders. Own choice.
pub const DEFAULT_CACHED: usize = 64;
