//! VLD telegrams with known readings, errors, and the profiles.
use crate::readings::ExpectedContent::{OutOfRange, Raw, Value, Word};
use crate::readings::{Profile, ReadingCase, SupportedTypes, UnreadableCase};
use profile_rows::{Reading, Unreadable, What};

// An electronic switch.
const SWITCH: Profile = (0xD2, 0x01, 0x12);

// A type of the same FUNC that is not supported.
const UNSUPPORTED_PROFILE: Profile = (0xD2, 0x01, 0x13);

const BLINDS: Profile = (0xD2, 0x05, 0x00);

pub const READING_CASES: [ReadingCase; 3] = [
    ReadingCase {
        profile: SWITCH,
        payload: &[0x04, 0x60, 0xE4],
        status: 0x00,
        readings: &[
            ("PF", Raw(0)),
            ("PFD", Raw(0)),
            ("OC", Raw(0)),
            ("EL", Word("not_supported")),
            ("IO", Raw(0)),
            ("LC", Raw(1)),
            ("OV", Value(100, 1, "%")),
        ],
    },
    ReadingCase {
        profile: SWITCH,
        payload: &[0x07, 0xA1, 0x00, 0x00, 0x04, 0xD2],
        status: 0x00,
        readings: &[("IO", Raw(1)), ("UN", OutOfRange(5)), ("MV", Raw(1234))],
    },
    ReadingCase {
        profile: BLINDS,
        payload: &[0x32, 0x7F, 0x00, 0x04],
        status: 0x00,
        readings: &[
            ("POS", Value(50, 1, "%")),
            ("ANG", Word("unknown")),
            ("LOCK", Raw(0)),
            ("CHN", Raw(0)),
        ],
    },
];

/// The reading that is there before an error.
pub const READING_BEFORE_FAULT: Reading = Reading {
    name: "IO",
    what: What::Raw(1),
};

pub const UNREADABLE_CASES: [UnreadableCase; 8] = [
    (
        UNSUPPORTED_PROFILE,
        0xD2,
        &[0x04, 0x60, 0xE4],
        Unreadable::NotSupported,
    ),
    (UNSUPPORTED_PROFILE, 0xF6, &[0x04], Unreadable::NotSupported),
    (
        SWITCH,
        0xA5,
        &[0x04, 0x60, 0xE4, 0x00],
        Unreadable::WrongKind,
    ),
    (SWITCH, 0xD2, &[0x02], Unreadable::OtherMessage),
    (SWITCH, 0xD2, &[0x04, 0x60], Unreadable::WrongLength),
    (BLINDS, 0xF6, &[0x04], Unreadable::WrongKind),
    (BLINDS, 0xD2, &[0x32, 0x7F, 0x01], Unreadable::WrongLength),
    (
        BLINDS,
        0xD2,
        &[0x32, 0x7F, 0x00, 0x01],
        Unreadable::OtherMessage,
    ),
];

pub const SUPPORTED_TYPES: [SupportedTypes; 2] = [
    (
        0xD2,
        0x01,
        &[
            0x00, 0x01, 0x02, 0x03, 0x04, 0x05, 0x06, 0x07, 0x08, 0x09, 0x0A, 0x0B, 0x0C, 0x0D,
            0x0E, 0x0F, 0x10, 0x11, 0x12,
        ],
    ),
    (0xD2, 0x05, &[0x00]),
];
