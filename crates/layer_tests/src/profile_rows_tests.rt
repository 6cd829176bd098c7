//! A number for each kind of row, with its meaning; the rows whose conditions hold; and which profiles an arm reads.
use crate::readings::ExpectedContent::{OutOfRange, Raw, Value, Word};
use crate::readings::has_content;
use profile_rows::rows::{
    number, over, over_power, percent_or_word_127, range, reserved, threshold, words,
};
use profile_rows::{Reading, Readings, What, read_profiles, read_rows};

#[test]
fn row_kinds_have_meanings(rt: HostRuntime) {
    let contact_words = [(0, "open"), (1, "closed")];
    for (case_number, (content, expected_content)) in [
        // values
        (range(0, 255, 0, 0, 400, "C"), Value(40, 1, "C")),
        (range(127, 255, 0, 0, 400, "C"), Value(1024, 51, "C")),
        (range(0, 1023, 0, -100, 412, "C"), Value(206, 5, "C")),
        (
            percent_or_word_127(100, "not_applicable"),
            Value(100, 1, "%"),
        ),
        (over(1234, 1, "W"), Value(1234, 1, "W")),
        (over_power(16777215, 3, "kWh"), Value(3355443, 200, "kWh")),
        // words
        (words(1, &contact_words), Word("closed")),
        (words(2, &contact_words), OutOfRange(2)),
        (percent_or_word_127(127, "unknown"), Word("unknown")),
        // parts of ranges
        (threshold(127, 128, "off", "on"), Word("off")),
        (threshold(128, 128, "off", "on"), Word("on")),
        (range(251, 0, 250, 0, 1000, "%"), OutOfRange(251)),
        // numbers as they are
        (percent_or_word_127(101, "unknown"), OutOfRange(101)),
        (number(255), Raw(255)),
        (reserved(5), OutOfRange(5)),
    ]
    .into_iter()
    .enumerate()
    {
        assert!(rt;
            has_content(content, expected_content),
            "row {case_number}: {content:?}"
        );
    }
}

#[test]
fn rows_are_read_if_their_conditions_hold(rt: HostRuntime) {
    let first_reading = Reading {
        name: "PF",
        what: What::Raw(0),
    };
    let last_reading = Reading {
        name: "LC",
        what: What::Raw(1),
    };
    let bytes = &[0x01];
    let mut readings = Readings::new();
    readings.push(last_reading);
    read_rows! { readings, bytes, 1;
        "PF" (0, 1) [] number();
        "EL" (7, 1) [(7, 1) = 0] number();
        "LC" (7, 1) [(7, 1) = 1] number();
    }
    assert_eq!(rt;
        readings.as_slice(),
        [first_reading, last_reading].as_slice()
    );
}

#[test]
fn arms_match_listed_types(rt: HostRuntime) {
    let cases: [((u8, u8, u8), bool); 5] = [
        ((0xA5, 0x12, 0x02), true),
        ((0xA5, 0x12, 0x03), true),
        ((0xA5, 0x12, 0x01), false),
        ((0xA5, 0x10, 0x03), false),
        ((0xD2, 0x12, 0x03), false),
    ];
    for ((rorg, func, typ), is_listed) in cases {
        let readings = &mut Readings::new();
        let bytes = &[0; 4];
        let is_read = read_profiles! { readings, (rorg, func, typ), bytes, 4;
            (0xA5, 0x12, 0x02 | 0x03) => { "TI" (24, 4) [] number(); }
        };
        assert_eq!(rt; is_read, is_listed, "{func} {typ}");
        assert_eq!(rt; readings.is_empty(), !is_listed, "{func} {typ}");
    }
}
