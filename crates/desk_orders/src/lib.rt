//! The orders of the desk: what a line of text asks the gateway to do, and which devices an order is for. Nothing here
//! needs memory.
#![tactic(auto)]

mod grammar;
pub mod laws;
mod limits;
mod orders;
mod words;

pub use grammar::parse;
pub use limits::MAX_LINE;
pub use orders::{Order, OrderFault, Quantity};
pub use words::id_of;
