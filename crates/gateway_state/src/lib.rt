//! What the gateway reports about its work: its counters, and the reasons why a packet was handled as it was or an order
//! line was rejected. `json_lines` has their texts. Nothing here needs memory.
#![tactic(auto)]

mod counts;
mod error_reason;
mod handling_reason;

pub use counts::{Counter, Counts};
pub use error_reason::ErrorReason;
pub use handling_reason::HandlingReason;
