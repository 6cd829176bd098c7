//! Telegrams with known packets, each fault, the capacity that a packet needs, and the IDs of a gateway. The golden
//! sessions have telegrams with every length of optional data.
use arrayvec::ArrayVec;
use erp1_telegrams::{
    BROADCAST, Contents, Eep, FilterReason, Telegram, TelegramFault, filter_reason, is_base_id,
    is_gateway_id, read, write,
};
use esp3_frames::{PacketFault, PacketRef, read_packet};
use std::test::Fail;

const SENDER: u32 = 0x0180_0ABC;

const CONTACT_PACKET: [u8; 21] = [
    0x55, 0x00, 0x07, 0x07, 0x01, 0x7A, 0xD5, 0x09, 0x01, 0x80, 0x0A, 0xBC, 0x00, 0x01, 0xFF, 0xFF,
    0xFF, 0xFF, 0x2D, 0x00, 0x1F,
];

const SENT_CONTACT_PACKET: [u8; 21] = [
    0x55, 0x00, 0x07, 0x07, 0x01, 0x7A, 0xD5, 0x09, 0x01, 0x80, 0x0A, 0xBC, 0x00, 0x03, 0xFF, 0xFF,
    0xFF, 0xFF, 0xFF, 0x00, 0x36,
];

// All fields of a telegram.
fn telegram_fields(telegram: &Telegram) -> (u8, &[u8], u32, u8, u32, Option<u8>) {
    (
        telegram.rorg(),
        telegram.payload(),
        telegram.sender(),
        telegram.status(),
        telegram.dest(),
        telegram.dbm(),
    )
}

// The telegram of a contact, its contents, and the telegram made of them.
#[test]
fn contact_telegram_is_read_and_written(rt: HostRuntime) -> Result<(), Fail> {
    let packet = read_packet(&CONTACT_PACKET).ok_or("no packet")?;
    let telegram = read(&packet)?;
    let payload = [0x09].as_slice();
    assert_eq!(rt;
        telegram_fields(&telegram),
        (0xD5, payload, SENDER, 0, BROADCAST, Some(0x2D))
    );
    let byte = match telegram.contents() {
        Contents::OneBs([byte]) => Some(*byte),
        _ => None,
    };
    assert_eq!(rt; byte, Some(0x09));
    let built_telegram = Telegram::with_contents(
        Contents::OneBs([0x09]),
        SENDER,
        0,
        BROADCAST,
        Some(0x2D),
    );
    assert_eq!(rt;
        telegram_fields(&built_telegram),
        telegram_fields(&telegram)
    );
    let mut packet_bytes = ArrayVec::<u8, 64>::new();
    write(&built_telegram, &mut packet_bytes)?;
    assert_eq!(rt; packet_bytes.as_slice(), SENT_CONTACT_PACKET.as_slice());
    Ok(())
}

// The type and the data of packets that are no telegram.
const PACKETS_WITHOUT_TELEGRAM: [(u8, &[u8], TelegramFault); 4] = [
    (2, &[0x00], TelegramFault::NotRadio),
    (1, &[], TelegramFault::BadLength),
    (1, &[0x30], TelegramFault::OtherKind),
    (1, &[0xD5, 1, 2, 3, 4, 0], TelegramFault::BadLength),
];

#[test]
fn telegram_faults(rt: HostRuntime) {
    for (case_number, (kind, body, expected_fault)) in PACKETS_WITHOUT_TELEGRAM.iter().enumerate() {
        let packet = PacketRef {
            kind: *kind,
            body,
            opt: &[],
        };
        assert_eq!(rt;
            read(&packet).err(),
            Some(*expected_fault),
            "row {case_number}"
        );
    }
    let other_kind = Telegram::new(0x30, &[], SENDER, 0, BROADCAST, None).err();
    assert_eq!(rt; other_kind, Some(TelegramFault::OtherKind));
}

// The RORG of a telegram, and its shortest and its longest payload.
const PAYLOAD_LENGTH_LIMITS: [(u8, usize, usize); 5] = [
    (0xF6, 1, 1),
    (0xD5, 1, 1),
    (0xA5, 4, 4),
    (0xD2, 1, 14),
    (0xD4, 7, 7),
];

// The gateway makes no telegram of another length.
#[test]
fn payload_lengths_are_limited(rt: HostRuntime) {
    let zeros = [0; 16];
    for (rorg, shortest, longest) in PAYLOAD_LENGTH_LIMITS {
        for len in 0..16_usize {
            let payload = zeros.get(..len).unwrap_or(&[]);
            let built_telegram = Telegram::new(rorg, payload, SENDER, 0, BROADCAST, None);
            let is_within_limits = shortest <= len && len <= longest;
            assert_eq!(rt; built_telegram.is_ok(), is_within_limits, "{rorg} {len}");
        }
    }
}

// A packet needs 21 bytes of capacity, and the longest one 34.
#[test]
fn packet_needs_buffer_capacity(rt: HostRuntime) -> Result<(), Fail> {
    let telegram = Telegram::new(0xD5, &[0x09], SENDER, 0, BROADCAST, Some(0x2D))?;
    let mut buffer = ArrayVec::<u8, 64>::new();
    buffer.try_extend_from_slice(&[7; 44])?;
    let write_result = write(&telegram, &mut buffer);
    assert_eq!(rt;
        (write_result, buffer.as_slice()),
        (Err(PacketFault::NoRoom), [7; 44].as_slice())
    );
    buffer.truncate(43);
    let write_result = write(&telegram, &mut buffer);
    assert_eq!(rt;
        (write_result, buffer.split_at(43)),
        (Ok(()), ([7; 43].as_slice(), SENT_CONTACT_PACKET.as_slice()))
    );
    buffer.clear();
    let telegram = Telegram::new(0xD2, &[7; 14], SENDER, 0, BROADCAST, None)?;
    let write_result = write(&telegram, &mut buffer);
    assert_eq!(rt; (write_result, buffer.len()), (Ok(()), 34));
    Ok(())
}

// The profile D2-01-12 is of the RORG D2, the function 01 and the type 12 (EnOcean Equipment Profiles 2.6, "D2-01").
#[test]
fn eep_has_its_numbers(rt: HostRuntime) {
    let switch = Eep::new(0xD2, 0x01, 0x12);
    assert_eq!(rt; (switch.rorg, switch.func, switch.typ), (0xD2, 0x01, 0x12));
}

const BASE_IDS: [(u32, bool); 9] = [
    (0xFF80_0000, true),
    (0xFF80_0080, true),
    (0xFFFF_FF80, true),
    (0, false),
    (0xFF7F_FF80, false),
    (0xFF80_0001, false),
    (0xFF80_0040, false),
    (0xFFFF_FF81, false),
    (0xFFFF_FFFF, false),
];

#[test]
fn base_ids(rt: HostRuntime) {
    for (id, is_base) in BASE_IDS {
        assert_eq!(rt; is_base_id(id), is_base, "{id}");
    }
}

// Base IDs, other IDs, and whether these are IDs of the gateway.
const GATEWAY_IDS: [(u32, u32, bool); 7] = [
    (0xFF80_0000, 0xFF80_0000, true),
    (0xFF80_0000, 0xFF80_007F, true),
    (0xFF80_0000, 0xFF7F_FFFF, false),
    (0xFF80_0000, 0xFF80_0080, false),
    (0xFFFF_FF80, 0xFFFF_FF80, true),
    (0xFFFF_FF80, 0xFFFF_FFFF, true),
    (0xFFFF_FF80, 0xFFFF_FF7F, false),
];

#[test]
fn gateway_ids(rt: HostRuntime) {
    for (base, id, is_of_gateway) in GATEWAY_IDS {
        assert_eq!(rt; is_gateway_id(base, id), is_of_gateway, "{base} {id}");
    }
}

// The sender and the destination of telegrams, and why the gateway with the base ID FF800000 filters them out.
const FILTER_CASES: [(u32, u32, Option<FilterReason>); 4] = [
    (SENDER, BROADCAST, None),
    (SENDER, 0xFF80_007F, None),
    (SENDER, 0xFF80_0080, Some(FilterReason::ForOthers)),
    (BROADCAST, BROADCAST, Some(FilterReason::FromBroadcast)),
];

#[test]
fn filtered_telegrams(rt: HostRuntime) -> Result<(), Fail> {
    for (sender, dest, expected_reason) in FILTER_CASES {
        let telegram = Telegram::new(0xD5, &[0x09], sender, 0, dest, None)?;
        let reason = filter_reason(0xFF80_0000, &telegram);
        assert_eq!(rt; reason, expected_reason, "{sender} {dest}");
    }
    Ok(())
}
