//! The framer compared with the plain one: after each byte of 10,000 generated streams both hold the same packets.
use crate::esp3_resync_tests::plain_framer::PlainFramer;
use crate::esp3_resync_tests::streams::feed_chunks;
use esp3_frames::{check8, read_packet};
use esp3_resync::{Framer, PacketBuf};
use std::alloc::{AllocError, Global};
use std::test::Fail;

// Pseudo-random numbers.
#[derive(Drop)]
struct RandomNumbers {
    state: u64,
}

impl RandomNumbers {
    // The next number, below `limit`, which is not 0.
    fn random_below(&mut self, limit: u64) -> u64 {
        self.state = self
            .state
            .wrapping_mul(6_364_136_223_846_793_005)
            .wrapping_add(1_442_695_040_888_963_407);
        (self.state >> 33).checked_rem(limit).unwrap_or(0)
    }

    fn random_byte(&mut self) -> u8 {
        self.random_below(256).to_le_bytes()[0]
    }

    // Any byte, and often the sync byte.
    fn random_data_byte(&mut self) -> u8 {
        if self.random_below(4) == 0 {
            0x55
        } else {
            self.random_byte()
        }
    }
}

fn push_header(
    bytes: &mut Vec<u8>,
    data_len: u64,
    opt_len: u64,
    kind: u8,
) -> Result<(), AllocError> {
    let [low, high, _, _, _, _, _, _] = data_len.to_le_bytes();
    let header = [high, low, opt_len.to_le_bytes()[0], kind];
    bytes.push(0x55)?;
    bytes.extend_from_slice(&header)?;
    bytes.push(check8(&header))?;
    Ok(())
}

// A packet whose last byte is its CRC XORed with `wrong`: 0 for a correct one.
fn push_packet(
    bytes: &mut Vec<u8>,
    random_numbers: &mut RandomNumbers,
    data_len: u64,
    opt_len: u64,
    crc_error: u8,
) -> Result<(), AllocError> {
    let kind = random_numbers.random_byte();
    push_header(bytes, data_len, opt_len, kind)?;
    let start = bytes.len();
    for _ in 0..data_len.saturating_add(opt_len) {
        bytes.push(random_numbers.random_data_byte())?;
    }
    let check = check8(bytes.get(start..).unwrap_or(&[]));
    bytes.push(check ^ crc_error)?;
    Ok(())
}

// One part of a stream: noise, a sync byte, a header with nothing after it, a packet, one with a wrong CRC, or a part
// of one.
fn push_part(
    bytes: &mut Vec<u8>,
    random_numbers: &mut RandomNumbers,
    data_len: u64,
    opt_len: u64,
) -> Result<(), AllocError> {
    match random_numbers.random_below(8) {
        0 => bytes.push(random_numbers.random_byte())?,
        1 => bytes.push(0x55)?,
        2 => {
            let kind = random_numbers.random_byte();
            push_header(bytes, data_len, opt_len, kind)?;
        }
        3 => push_packet(bytes, random_numbers, data_len, opt_len, 1)?,
        4 => {
            push_packet(bytes, random_numbers, data_len, opt_len, 0)?;
            let cut_at = bytes.len() as u64;
            let kept_len = cut_at.saturating_sub(
                random_numbers
                    .random_below(20)
                    .min(data_len.saturating_add(6)),
            );
            bytes.truncate(kept_len as usize);
        }
        _ => push_packet(bytes, random_numbers, data_len, opt_len, 0)?,
    }
    Ok(())
}

// Up to eleven short parts.
fn push_short_stream(
    bytes: &mut Vec<u8>,
    random_numbers: &mut RandomNumbers,
) -> Result<(), AllocError> {
    for _ in 0..random_numbers.random_below(12) {
        let (data_len, opt_len) = (
            random_numbers.random_below(9),
            random_numbers.random_below(3),
        );
        push_part(bytes, random_numbers, data_len, opt_len)?;
    }
    Ok(())
}

// Up to five parts with at most this much data, many of them with exactly this much, and short packets among them.
fn push_long_stream(
    bytes: &mut Vec<u8>,
    random_numbers: &mut RandomNumbers,
    most_data: u64,
) -> Result<(), AllocError> {
    for _ in 0..random_numbers.random_below(6) {
        let (data_len, opt_len) = match random_numbers.random_below(3) {
            0 => (most_data, 255),
            1 => (
                random_numbers.random_below(most_data),
                random_numbers.random_below(256),
            ),
            _ => (
                random_numbers.random_below(200),
                random_numbers.random_below(8),
            ),
        };
        push_part(bytes, random_numbers, data_len, opt_len)?;
        for _ in 0..random_numbers.random_below(4) {
            push_packet(bytes, random_numbers, 7, 7, 0)?;
        }
    }
    Ok(())
}

// The header of a packet of 762 bytes, `distance` bytes, another such header, and packets for as many bytes as they
// announce.
fn push_headers_at_distance(
    bytes: &mut Vec<u8>,
    random_numbers: &mut RandomNumbers,
    distance: u64,
) -> Result<(), AllocError> {
    push_header(bytes, 500, 255, 1)?;
    for _ in 0..distance {
        bytes.push(random_numbers.random_data_byte())?;
    }
    push_header(bytes, 500, 255, 1)?;
    for _ in 0..37_u32 {
        push_packet(bytes, random_numbers, 7, 7, 0)?;
    }
    Ok(())
}

// The same after a packet that ends up to 1,500 bytes before the end of the framer's ring, which has a place for each
// byte of the longest packet.
fn push_headers_around_end_of_ring(
    bytes: &mut Vec<u8>,
    random_numbers: &mut RandomNumbers,
) -> Result<(), AllocError> {
    let data_len = 65_535_u64.saturating_sub(random_numbers.random_below(1_500));
    push_packet(bytes, random_numbers, data_len, 255, 0)?;
    let distance = random_numbers.random_below(800);
    push_headers_at_distance(bytes, random_numbers, distance)
}

// The same after two packets that end up to 1,500 bytes before the end of the memory for CRCs, which has capacity for
// those of 8,192 bytes more.
fn push_headers_at_end_of_crcs(
    bytes: &mut Vec<u8>,
    random_numbers: &mut RandomNumbers,
) -> Result<(), AllocError> {
    push_packet(bytes, random_numbers, 65_535, 255, 0)?;
    let data_len = 7_930_u64.saturating_sub(random_numbers.random_below(1_500));
    push_packet(bytes, random_numbers, data_len, 255, 0)?;
    let distance = random_numbers.random_below(800);
    push_headers_at_distance(bytes, random_numbers, distance)
}

fn push_stream(
    bytes: &mut Vec<u8>,
    random_numbers: &mut RandomNumbers,
    stream_number: u64,
) -> Result<(), AllocError> {
    match stream_number {
        0..800 => push_headers_at_distance(bytes, random_numbers, stream_number),
        800..805 => push_headers_around_end_of_ring(bytes, random_numbers),
        805..810 => push_headers_at_end_of_crcs(bytes, random_numbers),
        810..842 => push_long_stream(bytes, random_numbers, 65_535),
        842..1_700 => push_long_stream(bytes, random_numbers, 1_000),
        _ => push_short_stream(bytes, random_numbers),
    }
}

#[derive(Drop)]
struct FoundPackets {
    packets: u32,
    longest: u32,
}

// Passes the bytes to both framers, one after another: whether one is ready exactly when the other is, with the same
// packets.
fn framers_agree(
    alloc: Global,
    bytes: &[u8],
    counts: &mut FoundPackets,
) -> Result<bool, AllocError> {
    let mut framer = Framer::new(alloc)?;
    let mut plain = PlainFramer::new(alloc);
    let mut buffer = PacketBuf::new(alloc)?;
    let mut expected_packet = Vec::new(alloc);
    for byte in bytes {
        if framer.is_ready() {
            return Ok(false);
        }
        framer.push(*byte);
        plain.push(*byte)?;
        for _ in 0..bytes.len() {
            let ready = plain.is_ready();
            if framer.is_ready() != ready || framer.take(&mut buffer) != ready {
                return Ok(false);
            }
            if !ready {
                break;
            }
            let _taken = plain.take(&mut expected_packet)?;
            if buffer.packet() != read_packet(&expected_packet) {
                return Ok(false);
            }
            counts.packets = counts.packets.saturating_add(1);
            if expected_packet.len() == 65_797 {
                counts.longest = counts.longest.saturating_add(1);
            }
        }
    }
    Ok(true)
}

#[test]
fn finds_packets_like_the_plain_framer(rt: HostRuntime) -> Result<(), Fail> {
    let alloc = rt.alloc();
    let mut random_numbers = RandomNumbers { state: 1 };
    let mut counts = FoundPackets {
        packets: 0,
        longest: 0,
    };
    let mut bytes = Vec::new(alloc);
    let mut packet_counts = Vec::new(alloc);
    for stream in 0..10_000_u64 {
        bytes.clear();
        push_stream(&mut bytes, &mut random_numbers, stream)?;
        let packets_before = counts.packets;
        let are_same = framers_agree(alloc, &bytes, &mut counts)?;
        assert_eq!(rt; (stream, are_same), (stream, true));
        let size = 1 + (stream % 300) as usize;
        packet_counts.clear();
        let in_runs = feed_chunks(alloc, &bytes, size, &mut packet_counts)?;
        assert_eq!(rt;
            (stream, packets_before.saturating_add(in_runs)),
            (stream, counts.packets)
        );
    }
    // tests/oracle/stream-counts generates the same streams, and finds this many packets by the rule.
    assert_eq!(rt; counts.packets, 40_144);
    assert_eq!(rt; counts.longest, 11);
    Ok(())
}
