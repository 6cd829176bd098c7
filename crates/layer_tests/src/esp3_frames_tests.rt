//! Headers and packets of the standard, and at this gateway's limits.
use arrayvec::ArrayVec;
use esp3_frames::{
    HeaderFault, MAX_PACKET, PacketFault, PacketRef, check8, check8_between, check8_next,
    packet_at_start, read_header, read_packet, write_packet,
};
use std::alloc::{AllocError, Global};
use std::test::Fail;

const CONTACT_PACKET: [u8; 21] = [
    0x55, 0x00, 0x07, 0x07, 0x01, 0x7A, 0xD5, 0x09, 0x01, 0x80, 0x0A, 0xBC, 0x00, 0x01, 0xFF, 0xFF,
    0xFF, 0xFF, 0x2D, 0x00, 0x1F,
];

// The packet, and three more bytes.
const CONTACT_PACKET_AND_MORE: [u8; 24] = [
    0x55, 0x00, 0x07, 0x07, 0x01, 0x7A, 0xD5, 0x09, 0x01, 0x80, 0x0A, 0xBC, 0x00, 0x01, 0xFF, 0xFF,
    0xFF, 0xFF, 0x2D, 0x00, 0x1F, 0x55, 0x55, 0x55,
];

// The packet with one wrong CRC, though the other is correct.
const WRONG_HEADER_CRC: [u8; 21] = [
    0x55, 0x00, 0x07, 0x07, 0x01, 0x7B, 0xD5, 0x09, 0x01, 0x80, 0x0A, 0xBC, 0x00, 0x01, 0xFF, 0xFF,
    0xFF, 0xFF, 0x2D, 0x00, 0x1F,
];

const WRONG_DATA_CRC: [u8; 21] = [
    0x55, 0x00, 0x07, 0x07, 0x01, 0x7A, 0xD5, 0x09, 0x01, 0x80, 0x0A, 0xBC, 0x00, 0x01, 0xFF, 0xFF,
    0xFF, 0xFF, 0x2D, 0x00, 0x1E,
];

// Bytes and their CRC. For the digits, 0xF4 is the check value that catalogues of CRCs give for CRC-8/SMBUS.
const CRC_CASES: [(&[u8], u8); 4] = [
    (&[0x00, 0x07, 0x07, 0x01], 0x7A),
    (&[0x08], 0x38),
    (&[], 0x00),
    (b"123456789", 0xF4),
];

#[test]
fn crcs_of_bytes(rt: HostRuntime) {
    for (bytes, expected_crc) in CRC_CASES {
        assert_eq!(rt; check8(bytes), expected_crc, "{bytes:?}");
    }
    assert_eq!(rt; check8_next(0x00, 0x08), 0x38);
}

// The CRCs before the last bytes of a message and of the whole message, the number of these bytes, and their CRC:
// first of the header and of the data of the packet above; and then of rows of the bytes 3, 10, 17, .. (each 7 more
// than the last, modulo 256) after "123456789". Another program computed them.
const CRC_BETWEEN_CASES: [(u8, u8, usize, u8); 10] = [
    (0xAC, 0x6D, 4, 0x7A),
    (0x65, 0x7C, 14, 0x1F),
    (0xF4, 0xF4, 0, 0x00),
    (0xF4, 0xCB, 1, 0x09),
    (0xF4, 0xCC, 8, 0xBA),
    (0xF4, 0x67, 126, 0x99),
    (0xF4, 0x7E, 127, 0x8A),
    (0xF4, 0x0E, 128, 0xCC),
    (0xF4, 0x92, 256, 0xD2),
    (0xF4, 0x0B, 65_790, 0x50),
];

#[test]
fn crcs_between_prefixes(rt: HostRuntime) {
    for (crc_before, crc_of_all, len, expected_crc) in CRC_BETWEEN_CASES {
        assert_eq!(rt;
            check8_between(crc_before, crc_of_all, len),
            expected_crc,
            "{len}"
        );
    }
}

// The lengths of data and optional data and the type in a header, or why it is none.
type HeaderFields = Result<(u16, u8, u8), HeaderFault>;

// The last three have two faults each, and the first of the two is reported.
const HEADERS: [([u8; 6], HeaderFields); 9] = [
    ([0x55, 0x00, 0x07, 0x07, 0x01, 0x7A], Ok((7, 7, 1))),
    ([0x55, 0xFF, 0xFF, 0xFF, 0x09, 0x12], Ok((65_535, 255, 9))),
    ([0x55, 0x00, 0x00, 0x01, 0x09, 0x2A], Ok((0, 1, 9))),
    (
        [0x54, 0x00, 0x07, 0x07, 0x01, 0x7A],
        Err(HeaderFault::NotSync),
    ),
    (
        [0x55, 0x00, 0x07, 0x07, 0x01, 0x7B],
        Err(HeaderFault::HeaderCheck),
    ),
    (
        [0x55, 0x00, 0x00, 0x00, 0x00, 0x00],
        Err(HeaderFault::EmptyPacket),
    ),
    (
        [0x54, 0x00, 0x00, 0x00, 0x00, 0x00],
        Err(HeaderFault::NotSync),
    ),
    (
        [0x54, 0x00, 0x07, 0x07, 0x01, 0x7B],
        Err(HeaderFault::NotSync),
    ),
    (
        [0x55, 0x00, 0x00, 0x00, 0x00, 0x01],
        Err(HeaderFault::HeaderCheck),
    ),
];

#[test]
fn headers_are_read(rt: HostRuntime) {
    for (case_number, (bytes, expected_fields)) in HEADERS.iter().enumerate() {
        let fields = match read_header(bytes) {
            Ok(header) => Ok((header.data_len, header.opt_len, header.kind)),
            Err(why) => Err(why),
        };
        assert_eq!(rt; fields, *expected_fields, "row {case_number}");
    }
}

#[test]
fn contact_packet_is_written(rt: HostRuntime) {
    let mut buffer = ArrayVec::<u8, 24>::new();
    let (body, opt) = (&CONTACT_PACKET[6..13], &CONTACT_PACKET[13..20]);
    assert_eq!(rt; write_packet(1, body, opt, &mut buffer), Ok(()));
    assert_eq!(rt; buffer.as_slice(), CONTACT_PACKET.as_slice());
    let second_result = write_packet(1, body, opt, &mut buffer);
    let empty_result = write_packet(1, &[], &[], &mut buffer);
    let expected_results = (Err(PacketFault::NoRoom), Err(PacketFault::EmptyPacket));
    assert_eq!(rt; (second_result, empty_result), expected_results);
}

// Bytes, whether they are the packet, and whether they begin with it.
struct PacketSlice {
    bytes: &'static [u8],
    is_packet: bool,
    is_first: bool,
}

const PACKET_SLICES: [PacketSlice; 4] = [
    PacketSlice {
        bytes: &CONTACT_PACKET,
        is_packet: true,
        is_first: true,
    },
    PacketSlice {
        bytes: &CONTACT_PACKET_AND_MORE,
        is_packet: false,
        is_first: true,
    },
    PacketSlice {
        bytes: &WRONG_HEADER_CRC,
        is_packet: false,
        is_first: false,
    },
    PacketSlice {
        bytes: &WRONG_DATA_CRC,
        is_packet: false,
        is_first: false,
    },
];

#[test]
fn slices_of_a_packet(rt: HostRuntime) {
    let contact_packet = PacketRef {
        kind: 1,
        body: &CONTACT_PACKET[6..13],
        opt: &CONTACT_PACKET[13..20],
    };
    for (case_number, slice_case) in PACKET_SLICES.iter().enumerate() {
        let packets_read = (
            read_packet(slice_case.bytes),
            packet_at_start(slice_case.bytes),
        );
        let expected_packets = (
            slice_case.is_packet.then_some(contact_packet),
            slice_case.is_first.then_some((contact_packet, 21)),
        );
        assert_eq!(rt; packets_read, expected_packets, "row {case_number}");
    }
    assert!(rt; packet_at_start(&CONTACT_PACKET[..20]).is_none());
}

// The header, followed by this many bytes 00.
fn header_and_zeros(alloc: Global, header: [u8; 6], zeros: usize) -> Result<Vec<u8>, AllocError> {
    let mut text = Vec::new(alloc);
    text.extend_from_slice(&header)?;
    text.extend_from_slice(&vec![in alloc; 0; zeros]?)?;
    Ok(text)
}

// A header, the number of bytes 00 after it (data, optional data and their CRC, which is 00 for such data), and the
// lengths of data and optional data of the packet, if it is one.
const ZERO_DATA_CASES: [([u8; 6], usize, Option<(usize, usize)>); 3] = [
    (
        [0x55, 0xFF, 0xFF, 0xFF, 0x09, 0x12],
        65_791,
        Some((65_535, 255)),
    ),
    ([0x55, 0xFF, 0xFF, 0xFF, 0x09, 0x12], 65_790, None),
    ([0x55, 0x00, 0x00, 0xFF, 0x09, 0xE8], 256, Some((0, 255))),
];

#[test]
fn long_packets_of_zeros_are_read(rt: HostRuntime) -> Result<(), Fail> {
    for (header, zeros, expected_lengths) in ZERO_DATA_CASES {
        let text = header_and_zeros(rt.alloc(), header, zeros)?;
        let lengths = read_packet(&text).map(|packet| (packet.body.len(), packet.opt.len()));
        assert_eq!(rt; lengths, expected_lengths, "{zeros}");
    }
    Ok(())
}

// The lengths of data and optional data, the result of writing them into a buffer of 262 bytes, and its length then.
// The length is checked before the capacity: what is not too long does not fit here.
const WRITE_LENGTH_CASES: [(usize, usize, Result<(), PacketFault>, usize); 4] = [
    (65_536, 0, Err(PacketFault::TooLong), 0),
    (0, 256, Err(PacketFault::TooLong), 0),
    (65_535, 255, Err(PacketFault::NoRoom), 0),
    (0, 255, Ok(()), 262),
];

#[test]
fn longest_packets_are_written(rt: HostRuntime) -> Result<(), Fail> {
    assert_eq!(rt; MAX_PACKET, 65_797);
    let zeros = vec![in rt.alloc(); 0; 65_536]?;
    let mut buffer = ArrayVec::<u8, 262>::new();
    for (data_len, opt_len, expected_result, written_len) in WRITE_LENGTH_CASES {
        let data = zeros.get(..data_len).ok_or("too much data")?;
        let opt = zeros.get(..opt_len).ok_or("too much data")?;
        let write_result = write_packet(9, data, opt, &mut buffer);
        assert_eq!(rt;
            (write_result, buffer.len()),
            (expected_result, written_len),
            "{data_len} {opt_len}"
        );
    }
    Ok(())
}
