//! Sources and sinks of bytes. Contracts see each of their reads and writes. A text is written whole, even if single
//! writes accept only part of it.
#![tactic(auto)]

mod failed;
mod history;
pub mod laws;
mod read_limit;
mod sink;
mod source;
mod writing;

pub use failed::Failed;
pub use read_limit::MAX_READ;
pub use sink::{OverWrite, Sink};
pub use source::{OverRead, Source};
pub use writing::write_text;
