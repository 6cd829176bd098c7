//! Lines with known bytes, and the counters. The golden sessions have lines of all kinds, and each word in them.
use desk_orders::OrderFault;
use erp1_telegrams::{BROADCAST, Eep, Telegram};
use exact_values::over;
use gateway_state::{Counter, Counts, ErrorReason, HandlingReason};
use json_lines::{
    MAX_PACKET_LINE, PacketLine, ShownPacket, ShownTelegram, device_lines, done_line, error_line,
    packet_line, reading_line, response_line, status_line, teach_line,
};
use learned_devices::{Device, Label, StoreFault};
use profile_rows::{Reading, Readings, What};
use std::alloc::AllocError;
use std::process::Abort;
use std::test::Fail;
use teach_in::{Mode, Outcome, Verdict};

// A window contact.
const CONTACT_EEP: Eep = Eep {
    rorg: 0xD5,
    func: 0x00,
    typ: 0x01,
};

// An actuator with a meter.
const ACTUATOR_EEP: Eep = Eep {
    rorg: 0xD2,
    func: 0x01,
    typ: 0x12,
};

fn expect_line(rt: &impl Abort, line: &[u8], expected_text: &str) {
    assert!(rt; line == expected_text.as_bytes(), "{expected_text}");
}

const LINE_WITHOUT_READINGS: &str =
    "{\"dbm\":null,\"eep\":\"D5-00-01\",\"id\":\"00000001\",\"readings\":[],\"type\":\"reading\"}\n";

// RFC 8259, "Strings": a quotation mark, a backslash and control characters are escaped; a space and `!` are not.
const LINE_WITH_EACH_KIND_OF_READING: &str =
    "{\"dbm\":-255,\"eep\":\"D2-01-12\",\"id\":\"FFFFFFFE\",\"readings\":[\
    {\"den\":200,\"name\":\"MR\",\"num\":3355443,\"unit\":\"kWh\"},\
    {\"name\":\"a \\\"b\\\"!\",\"word\":\"c\\\\d\\n\"},{\"name\":\"TI\",\"raw\":4294967295},\
    {\"name\":\"HUM\",\"out_of_range\":251}],\"type\":\"reading\"}\n";

// Each profile has a reading, so no session has such a line.
#[test]
fn reading_line_without_readings(rt: HostRuntime) -> Result<(), Fail> {
    let telegram = Telegram::new(0xD5, &[0x09], 0x0000_0001, 0, BROADCAST, None)?;
    let line = reading_line(rt.alloc(), &telegram, CONTACT_EEP, &Readings::new())?;
    expect_line(&rt, line.as_bytes(), LINE_WITHOUT_READINGS);
    Ok(())
}

// Readings without a value. No profile has such a word.
const READINGS_WITHOUT_VALUE: [Reading; 3] = [
    Reading {
        name: "a \"b\"!",
        what: What::Word("c\\d\n"),
    },
    Reading {
        name: "TI",
        what: What::Raw(4_294_967_295),
    },
    Reading {
        name: "HUM",
        what: What::OutOfRange(251),
    },
];

#[test]
fn reading_line_with_each_kind(rt: HostRuntime) -> Result<(), Fail> {
    let mut readings = Readings::new();
    let what = What::Value(over(16_777_215, 1000), "kWh");
    readings.try_push(Reading { name: "MR", what })?;
    readings.try_extend_from_slice(&READINGS_WITHOUT_VALUE)?;
    let telegram = Telegram::new(0xD5, &[0x09], 0xFFFF_FFFE, 0, BROADCAST, Some(255))?;
    let line = reading_line(rt.alloc(), &telegram, ACTUATOR_EEP, &readings)?;
    expect_line(&rt, line.as_bytes(), LINE_WITH_EACH_KIND_OF_READING);
    Ok(())
}

const LISTED_DEVICES: &str =
    "{\"eep\":\"D5-00-01\",\"id\":\"00000001\",\"label\":\"Door \\\"A\\\" \\\\ ~\",\"maker\":null,\
    \"type\":\"device\"}\n\
    {\"eep\":\"D2-01-12\",\"id\":\"FFFFFFFE\",\"label\":\"\",\"maker\":2047,\"type\":\"device\"}\n\
    {\"count\":2,\"type\":\"list\"}\n";

#[test]
fn device_lists_have_texts(rt: HostRuntime) -> Result<(), Fail> {
    let contact = Device {
        id: 0x0000_0001,
        eep: CONTACT_EEP,
        maker: None,
        label: Label::new("Door \"A\" \\ ~").ok_or("no label")?,
    };
    let actuator = Device {
        id: 0xFFFF_FFFE,
        eep: ACTUATOR_EEP,
        maker: Some(2047),
        label: Label::empty(),
    };
    let lines = device_lines(rt.alloc(), &[contact, actuator])?;
    expect_line(&rt, lines.as_bytes(), LISTED_DEVICES);
    Ok(())
}

const MAXIMUM_COUNTS: Counts = Counts {
    ignored: 18_446_744_073_709_551_615,
    readings: 18_446_744_073_709_551_615,
    refused: 18_446_744_073_709_551_615,
    responses: 18_446_744_073_709_551_615,
    teach: 18_446_744_073_709_551_615,
};

const COUNTS_OF_ONE_EACH: Counts = Counts {
    ignored: 1,
    readings: 1,
    refused: 1,
    responses: 1,
    teach: 1,
};

// A counter at its maximum does not change.
#[test]
fn counters_stay_at_maximum(rt: HostRuntime) {
    let mut counts = Counts::zero();
    let mut greatest = MAXIMUM_COUNTS;
    for counter in [
        Counter::Ignored,
        Counter::Reading,
        Counter::Failed,
        Counter::Response,
        Counter::TeachLine,
    ] {
        counts.increment(counter);
        greatest.increment(counter);
    }
    assert_eq!(rt; (counts, greatest), (COUNTS_OF_ONE_EACH, MAXIMUM_COUNTS));
}

const STATUS_LINE_OF_MAXIMUM_COUNTS: &str =
    "{\"ignored\":18446744073709551615,\"mode\":\"as D2-01-12\",\"readings\":18446744073709551615,\
    \"refused\":18446744073709551615,\"responses\":18446744073709551615,\"teach\":18446744073709551615,\
    \"type\":\"status\"}\n";

#[test]
fn status_line_has_text(rt: HostRuntime) -> Result<(), Fail> {
    let line = status_line(rt.alloc(), &MAXIMUM_COUNTS, Mode::LearnAs(ACTUATOR_EEP))?;
    expect_line(&rt, line.as_bytes(), STATUS_LINE_OF_MAXIMUM_COUNTS);
    Ok(())
}

const RESPONSE_LINE: &str =
    "{\"code\":0,\"data\":\"FF80000A\",\"name\":\"OK\",\"type\":\"response\"}\n";

#[test]
fn response_line_has_text(rt: HostRuntime) -> Result<(), Fail> {
    let line = response_line(rt.alloc(), 0, &[0xFF, 0x80, 0x00, 0x0A])?;
    expect_line(&rt, line.as_bytes(), RESPONSE_LINE);
    Ok(())
}

#[test]
fn fixed_lines(rt: HostRuntime) {
    expect_line(&rt, done_line(), "{\"type\":\"ok\"}\n");
    let syntax = ErrorReason::Order(OrderFault::Syntax);
    expect_line(
        &rt,
        error_line(syntax),
        "{\"error\":\"syntax\",\"type\":\"error\"}\n",
    );
    let memory = ErrorReason::Failed(StoreFault::from(AllocError));
    expect_line(
        &rt,
        error_line(memory),
        "{\"error\":\"memory\",\"type\":\"error\"}\n",
    );
}

const UNSUPPORTED_TEACH_LINE: &str =
    "{\"eep\":\"D2-01-12\",\"id\":\"01800ABC\",\"maker\":70,\"result\":\"unsupported\",\
    \"type\":\"teach\"}\n";

// The outcomes of accepted and deleted senders need a receipt: the sessions have them.
#[test]
fn teach_line_has_text(rt: HostRuntime) -> Result<(), Fail> {
    let (id, outcome) = (0x0180_0ABC, Outcome::Unsupported);
    let draft = teach_line(rt.alloc(), id, Some(ACTUATOR_EEP), Some(70), outcome)?;
    let line = draft.tell(&Verdict::refused(id, outcome));
    expect_line(&rt, line.as_bytes(), UNSUPPORTED_TEACH_LINE);
    Ok(())
}

// Each number, the payload and the word have as many characters as they can have.
const LONGEST_PACKET_LINE: &str =
    "{\"dbm\":-255,\"dest\":\"FFABCDEF\",\"eep\":\"D2-3F-7F\",\"id\":\"12345678\",\"maker\":65535,\
    \"payload\":\"000102030405060708090A0B0CFF\",\"rorg\":\"D2\",\"status\":\"8F\",\"type\":\"packet\",\
    \"why\":\"teach_in_reply\"}\n";

#[test]
fn the_longest_packet_line(rt: HostRuntime) -> Result<(), Fail> {
    let payload = [0, 1, 2, 3, 4, 5, 6, 7, 8, 9, 10, 11, 12, 255];
    let telegram = Telegram::new(0xD2, &payload, 0x1234_5678, 0x8F, 0xFFAB_CDEF, Some(255))?;
    let line = packet_line(&PacketLine {
        packet: ShownPacket::Telegram(ShownTelegram {
            telegram,
            eep: Some(Eep::new(0xD2, 0x3F, 0x7F)),
            maker: Some(65535),
        }),
        why: HandlingReason::TeachInReply,
    });
    expect_line(&rt, line.as_slice(), LONGEST_PACKET_LINE);
    assert_eq!(rt; (LONGEST_PACKET_LINE.len(), MAX_PACKET_LINE), (184, 184));
    Ok(())
}

const PACKET_LINE_WITHOUT_TELEGRAM: &str =
    "{\"kind\":255,\"size\":65535,\"type\":\"packet\",\"why\":\"empty_response\"}\n";

#[test]
fn a_packet_without_telegram(rt: HostRuntime) {
    let line = packet_line(&PacketLine {
        packet: ShownPacket::WithoutTelegram {
            kind: 255,
            size: 65535,
        },
        why: HandlingReason::EmptyResponse,
    });
    expect_line(&rt, line.as_slice(), PACKET_LINE_WITHOUT_TELEGRAM);
}
