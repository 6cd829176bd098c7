//! RPS and 1BS telegrams with known readings, errors, and the profiles.
use crate::readings::ExpectedContent::{Raw, Word};
use crate::readings::{Profile, ReadingCase, SupportedTypes, UnreadableCase};
use profile_rows::{Reading, Unreadable, What};

const TWO_ROCKERS: Profile = (0xF6, 0x02, 0x01);

const FOUR_ROCKERS: Profile = (0xF6, 0x03, 0x02);

const UNSUPPORTED_PROFILE: Profile = (0xF6, 0x04, 0x01);

const CONTACT: Profile = (0xD5, 0x00, 0x01);

pub const READING_CASES: [ReadingCase; 3] = [
    ReadingCase {
        profile: TWO_ROCKERS,
        payload: &[0x50],
        status: 0x30,
        readings: &[("R1", Word("BI")), ("EB", Word("pressed"))],
    },
    ReadingCase {
        profile: FOUR_ROCKERS,
        payload: &[0x70],
        status: 0x20,
        readings: &[("buttons", Raw(3)), ("EB", Word("pressed"))],
    },
    ReadingCase {
        profile: CONTACT,
        payload: &[0x09],
        status: 0x00,
        readings: &[("CO", Word("closed"))],
    },
];

/// The reading that is there before an error.
pub const READING_BEFORE_FAULT: Reading = Reading {
    name: "CO",
    what: What::Word("open"),
};

pub const UNREADABLE_CASES: [UnreadableCase; 4] = [
    (UNSUPPORTED_PROFILE, 0xD5, &[0x00], Unreadable::NotSupported),
    (TWO_ROCKERS, 0xD5, &[0x00], Unreadable::WrongKind),
    (CONTACT, 0xF6, &[0x09], Unreadable::WrongKind),
    (CONTACT, 0xD5, &[0x00], Unreadable::OtherMessage),
];

pub const SUPPORTED_TYPES: [SupportedTypes; 4] = [
    (0xF6, 0x01, &[0x01]),
    (0xF6, 0x02, &[0x01, 0x02]),
    (0xF6, 0x03, &[0x01, 0x02]),
    (0xD5, 0x00, &[0x01]),
];
