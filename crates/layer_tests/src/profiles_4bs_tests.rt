//! 4BS telegrams with known readings, errors, and the profiles.
use crate::readings::ExpectedContent::{OutOfRange, Value};
use crate::readings::{Profile, ReadingCase, SupportedTypes, UnreadableCase};
use profile_rows::{Reading, Unreadable, What};

// A temperature sensor of 0 to 40 C.
const TEMPERATURE: Profile = (0xA5, 0x02, 0x05);

// A humidity and temperature sensor.
const HUMIDITY: Profile = (0xA5, 0x04, 0x01);

// A central command, which no sensor sends.
const UNSUPPORTED_PROFILE: Profile = (0xA5, 0x38, 0x08);

pub const READING_CASES: [ReadingCase; 2] = [
    ReadingCase {
        profile: TEMPERATURE,
        payload: &[0x00, 0x00, 0x7F, 0x08],
        status: 0x00,
        readings: &[("TMP", Value(1024, 51, "C"))],
    },
    ReadingCase {
        profile: HUMIDITY,
        payload: &[0x00, 0xFB, 0x7D, 0x0A],
        status: 0x00,
        readings: &[("HUM", OutOfRange(251)), ("TMP", Value(20, 1, "C"))],
    },
];

/// The reading that is there before an error.
pub const READING_BEFORE_FAULT: Reading = Reading {
    name: "TI",
    what: What::Raw(7),
};

/// Telegrams that are not read: the last one is a query.
pub const UNREADABLE_CASES: [UnreadableCase; 4] = [
    (UNSUPPORTED_PROFILE, 0xD5, &[0x00], Unreadable::NotSupported),
    (
        UNSUPPORTED_PROFILE,
        0xA5,
        &[0x08, 0x28, 0x46, 0x80],
        Unreadable::NotSupported,
    ),
    (
        TEMPERATURE,
        0xD2,
        &[0x00, 0x00, 0x00, 0x08],
        Unreadable::WrongKind,
    ),
    (
        TEMPERATURE,
        0xA5,
        &[0x08, 0x28, 0x46, 0x80],
        Unreadable::OtherMessage,
    ),
];

pub const SUPPORTED_TYPES: [SupportedTypes; 8] = [
    (
        0xA5,
        0x02,
        &[
            0x01, 0x02, 0x03, 0x04, 0x05, 0x06, 0x07, 0x08, 0x09, 0x0A, 0x0B, 0x10, 0x11, 0x12,
            0x13, 0x14, 0x15, 0x16, 0x17, 0x18, 0x19, 0x1A, 0x1B, 0x20, 0x30,
        ],
    ),
    (0xA5, 0x04, &[0x01, 0x02]),
    (0xA5, 0x06, &[0x01, 0x02]),
    (0xA5, 0x07, &[0x01]),
    (0xA5, 0x08, &[0x01, 0x02, 0x03]),
    (0xA5, 0x09, &[0x04]),
    (0xA5, 0x10, &[0x03, 0x05]),
    (0xA5, 0x12, &[0x01, 0x02, 0x03]),
];
