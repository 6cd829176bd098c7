//! Two known packets in chunks of each length, and what a buffer holds and a call borrows. The golden sessions have
//! false headers and the longest packet.
ghost use Rattle.std.specs.Prelude.{◌<◌};

use esp3_resync::{Framer, PacketBuf};
use std::alloc::Global;
use std::test::Fail;

const CONTACT_PACKET: [u8; 21] = [
    0x55, 0x00, 0x07, 0x07, 0x01, 0x7A, 0xD5, 0x09, 0x01, 0x80, 0x0A, 0xBC, 0x00, 0x01, 0xFF, 0xFF,
    0xFF, 0xFF, 0x2D, 0x00, 0x1F,
];

// Its data and its optional data.
const CONTACT_DATA: [u8; 14] = [
    0xD5, 0x09, 0x01, 0x80, 0x0A, 0xBC, 0x00, 0x01, 0xFF, 0xFF, 0xFF, 0xFF, 0x2D, 0x00,
];

// The packet above, and the command that reads the base ID. Noise and a header with a wrong CRC precede the first
// packet, and two more sync bytes the second.
const TWO_PACKETS: [u8; 39] = [
    0x00, 0xAA, 0x55, 0x00, 0x07, 0x07, 0x01, 0x7B, 0x55, 0x00, 0x07, 0x07, 0x01, 0x7A, 0xD5, 0x09,
    0x01, 0x80, 0x0A, 0xBC, 0x00, 0x01, 0xFF, 0xFF, 0xFF, 0xFF, 0x2D, 0x00, 0x1F, 0x55, 0x55, 0x55,
    0x00, 0x01, 0x00, 0x05, 0x70, 0x08, 0x38,
];

// The type and the data of each of the two.
const TYPES_AND_DATA: [u8; 17] = [
    0x01, 0xD5, 0x09, 0x01, 0x80, 0x0A, 0xBC, 0x00, 0x01, 0xFF, 0xFF, 0xFF, 0xFF, 0x2D, 0x00, 0x05,
    0x08,
];

// More runs and packets than a chunk has.
const MAX_ITERATIONS: u32 = 1_000_000;

// Pushes the bytes in runs, appends the type and the data of each packet, and returns the number of packets.
fn feed_runs(
    framer: &mut Framer,
    buffer: &mut PacketBuf,
    bytes: &[u8],
    packets_found: &mut Vec<u8>,
) -> Result<u32, Fail> {
    let mut remaining = bytes;
    let mut packets: u32 = 0;
    for _ in 0..=MAX_ITERATIONS {
        if !framer.is_ready() {
            let count = framer.push_until_ready(remaining);
            remaining = &remaining[count..];
        }
        if let Some(packet) = framer.take_packet(buffer) {
            packets_found.push(packet.kind)?;
            packets_found.extend_from_slice(packet.body)?;
            packets_found.extend_from_slice(packet.opt)?;
            packets = packets.saturating_add(1);
        } else if remaining.is_empty() {
            break;
        }
    }
    Ok(packets)
}

// The same with a new framer, which gets the bytes in chunks of this length.
pub(crate) fn feed_chunks(
    alloc: Global,
    bytes: &[u8],
    size: usize,
    packets_found: &mut Vec<u8>,
) -> Result<u32, Fail>
    requires { 0 < size }
{
    let mut framer = Framer::new(alloc)?;
    let mut buffer = PacketBuf::new(alloc)?;
    let mut packets: u32 = 0;
    for chunk in bytes.chunks(size) {
        let chunk_packets = feed_runs(&mut framer, &mut buffer, chunk, packets_found)?;
        packets = packets.saturating_add(chunk_packets);
    }
    Ok(packets)
}

// The chunks have every length, so some end within noise, a header, data or a CRC.
#[test]
fn packets_in_runs(rt: HostRuntime) -> Result<(), Fail> {
    let mut packets_found = Vec::new(rt.alloc());
    for size in 1..=TWO_PACKETS.len() {
        packets_found.clear();
        let packets = feed_chunks(rt.alloc(), &TWO_PACKETS, size, &mut packets_found)?;
        assert_eq!(rt;
            (packets, packets_found.as_slice()),
            (2, TYPES_AND_DATA.as_slice()),
            "pieces of {size}"
        );
    }
    Ok(())
}

// Parts of the two packets, one after another, and the type and the data of the packet that the buffer then holds.
const BUFFERED_PACKET_CASES: [(usize, usize, u8, &[u8]); 3] = [
    (0, 29, 1, &[0xD5, 0x09, 0x01, 0x80, 0x0A, 0xBC, 0x00]),
    (29, 38, 1, &[0xD5, 0x09, 0x01, 0x80, 0x0A, 0xBC, 0x00]),
    (38, 39, 5, &[0x08]),
];

// The buffer holds the packet that was returned last, also while the bytes before the next one come.
#[test]
fn buffer_keeps_last_packet(rt: HostRuntime) -> Result<(), Fail> {
    let mut framer = Framer::new(rt.alloc())?;
    let mut buffer = PacketBuf::new(rt.alloc())?;
    let mut packets_found = Vec::new(rt.alloc());
    assert!(rt; buffer.packet().is_none());
    for (start, end, kind, body) in BUFFERED_PACKET_CASES {
        let stream_part = TWO_PACKETS.get(start..end).ok_or("no such part")?;
        let _packets = feed_runs(&mut framer, &mut buffer, stream_part, &mut packets_found)?;
        let packet = buffer.packet().ok_or("no packet")?;
        assert_eq!(rt; (packet.kind, packet.body), (kind, body), "{start}");
    }
    Ok(())
}

// A part of the two packets, and the type and the length of the packet that `borrow_packet` returns for it, if any.
const BORROWED_PACKET_CASES: [(usize, usize, Option<(u8, usize)>); 4] = [
    (8, 39, Some((1, 21))),
    (31, 39, Some((5, 8))),
    (0, 39, None),
    (8, 28, None),
];

// A packet is borrowed if it is whole and at the front of the bytes, and no byte is held.
#[test]
fn front_packets_are_borrowed(rt: HostRuntime) -> Result<(), Fail> {
    let mut framer = Framer::new(rt.alloc())?;
    for (start, end, expected_packet) in BORROWED_PACKET_CASES {
        let stream_part = TWO_PACKETS.get(start..end).ok_or("no such part")?;
        let is_lent = framer
            .borrow_packet(stream_part)
            .map(|(packet, len)| (packet.kind, len));
        assert_eq!(rt; is_lent, expected_packet, "{start} to {end}");
    }
    let (packet, _len) = framer.borrow_packet(&CONTACT_PACKET).ok_or("no packet")?;
    assert_eq!(rt; (packet.body, packet.opt), CONTACT_DATA.split_at(7));
    framer.push(0x55);
    assert!(rt; !framer.is_ready() && framer.borrow_packet(&CONTACT_PACKET).is_none());
    Ok(())
}
