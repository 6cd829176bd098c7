//! One gateway, between the serial line of a radio module and the control desk of a building: it answers the bytes of
//! the line and the orders of the desk. Its device store keeps the learned devices. Every update is committed before it
//! is reported.
#![tactic(auto)]

mod disposition;
mod failure;
mod gateway;
mod handled;
mod handler;
pub mod laws;
mod profiles;
mod reply;
mod response;
mod sqlite_gateway;

pub use desk_orders::{MAX_LINE, id_of};
pub use erp1_telegrams::is_base_id;
pub use gateway::{GatewayOver, StartFault};
pub use handled::HandledPacket;
pub use learned_devices::DeviceStore;
pub use reply::{DeskText, Reply};
pub use sqlite_gateway::Gateway;
