//! Resynchronization: finding the packets in a stream that arrives in chunks of any size.
#![tactic(auto)]

mod framer;
mod front;
mod runs;
mod window;

pub use framer::{Framer, PacketBuf};
