//! The radio telegrams of ISO/IEC 14543-3-10: reading them from packets of EnOcean Serial Protocol 3 of the type
//! RADIO_ERP1, and writing them as such; and the gateway's own IDs. Nothing here allocates.
#![tactic(auto)]

mod address;
mod contents;
mod eep;
pub mod laws;
pub mod lrn_bit;
pub mod rorg;
mod serial;
mod telegram;

pub use address::{FilterReason, filter_reason, is_base_id, is_gateway_id};
pub use contents::Contents;
pub use eep::Eep;
pub use serial::{read, write};
pub use telegram::{BROADCAST, Telegram, TelegramFault};
