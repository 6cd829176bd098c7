//! The packets of EnOcean Serial Protocol 3: their CRC and header, and reading and writing a whole packet. Nothing here
//! allocates. Only the definitions (`specs/Framing.antt`) say which packets a stream of bytes contains; `laws` has the
//! theorems about them.
#![tactic(auto)]

mod check;
pub mod laws;
mod limits;
mod packet;
pub mod packet_type;

pub use check::{check8, check8_between, check8_next};
pub use limits::{MAX_DATA, MAX_OPTIONAL_DATA, MAX_PACKET};
pub use packet::{
    Header, HeaderFault, PacketFault, PacketRef, SYNC_BYTE, announces_data, packet_at_start,
    read_header, read_packet, write_packet,
};
