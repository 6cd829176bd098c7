//! The radio telegrams of orders to devices. Nothing here needs memory.
#![tactic(auto)]

pub mod laws;
mod packets;

pub use desk_orders::{MAX_LINE, Order, OrderFault, Quantity, id_of, parse};
pub use packets::packet_of;
