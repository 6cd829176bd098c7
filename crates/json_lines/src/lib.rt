//! The lines for the desk: one JSON object each, with no space between its parts, the members in the byte order of
//! their names, and a line feed at the end.
//!
//! A line is a value of `DeskLine`, in `specs/Lines.antt`, whose `text` is its bytes. A packet line is a `PacketLine`,
//! whose `packet_text`, in `specs/PacketLines.antt`, is its bytes.
#![tactic(auto)]

mod devices;
mod digits;
mod done;
mod error_lines;
pub mod laws;
mod limits;
mod line;
mod packet;
mod parts;
mod reading;
mod reason_words;
mod response;
mod status;
mod teach;
mod text_parts;

pub use devices::device_lines;
pub use done::done_line;
pub use error_lines::error_line;
pub use gateway_state::Counts;
pub use limits::MAX_PACKET_LINE;
pub use line::Line;
pub use packet::{PacketLine, ShownPacket, ShownTelegram, packet_line};
pub use reading::reading_line;
pub use response::response_line;
pub use status::status_line;
pub use teach::{Draft, teach_line};
