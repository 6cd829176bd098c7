//! A line of each order, lines that are no order, and IDs. The golden sessions `orders`, `label-texts` and
//! `order-shapes` have the ends of each range, and lines that a letter, a digit, a space or a word keeps from being an
//! order.
use desk_orders::laws::{ids_are_spelled, lines_have_no_other_fault, orders_are_spelled};
use desk_orders::{Order, OrderFault, Quantity, id_of, parse};
use erp1_telegrams::Eep;
use learned_devices::Label;

const DEVICE: u32 = 0x0180_0ABC;

const CONTACT_EEP: Eep = Eep {
    rorg: 0xD5,
    func: 0x00,
    typ: 0x01,
};

// A profile that cannot be learned.
const GREATEST_EEP: Eep = Eep {
    rorg: 0xFF,
    func: 0xFF,
    typ: 0xFF,
};

const LINES_AND_ORDERS: [(&str, Order); 20] = [
    ("learn on", Order::LearnOn),
    ("learn on answer", Order::LearnOnAnswer),
    ("learn as ff-Ff-fF", Order::LearnAs(GREATEST_EEP)),
    ("learn off", Order::LearnOff),
    ("add 01800aBc d5-00-01", Order::Add(DEVICE, CONTACT_EEP)),
    (
        "add FFFFFFFE FF-FF-FF",
        Order::Add(0xFFFF_FFFE, GREATEST_EEP),
    ),
    ("remove 00000000", Order::Remove(0)),
    ("list", Order::List),
    ("status", Order::Status),
    ("base", Order::Base),
    (
        "switch 01800ABC 30 on",
        Order::Switch {
            id: DEVICE,
            channel: 30,
            on: true,
        },
    ),
    (
        "dim 01800ABC 0 100",
        Order::Dim {
            id: DEVICE,
            channel: 0,
            value: 100,
        },
    ),
    (
        "query 01800ABC 30",
        Order::Query {
            id: DEVICE,
            channel: 30,
        },
    ),
    (
        "meter 01800ABC 0 energy",
        Order::Meter {
            id: DEVICE,
            channel: 0,
            quantity: Quantity::Energy,
        },
    ),
    (
        "meter 01800ABC 0 power",
        Order::Meter {
            id: DEVICE,
            channel: 0,
            quantity: Quantity::Power,
        },
    ),
    (
        "blind 01800ABC 50",
        Order::Blind {
            id: DEVICE,
            value: 50,
        },
    ),
    ("stop 01800ABC", Order::Stop { id: DEVICE }),
    (
        "central 127 off",
        Order::Central {
            offset: 127,
            on: false,
        },
    ),
    (
        "level 127 0 255",
        Order::Level {
            offset: 127,
            value: 0,
            ramp: 255,
        },
    ),
    ("teach 0", Order::Teach { offset: 0 }),
];

#[test]
fn lines_parse_as_orders(rt: HostRuntime) {
    for (line, expected_order) in &LINES_AND_ORDERS {
        assert!(rt;
            parse(line.as_bytes()).as_ref() == Ok(expected_order),
            "{line}"
        );
    }
    orders_are_spelled();
}

// Lines with the label of the device.
const LINES_AND_LABELS: [(&str, &str); 2] = [
    ("label 01800ABC", ""),
    ("label 01800abc Door \"A\"", "Door \"A\""),
];

#[test]
fn label_lines_parse_as_orders(rt: HostRuntime) {
    for (line, text) in LINES_AND_LABELS {
        let id = DEVICE;
        let order = Label::new(text).map(|label| Order::Label { id, label });
        assert_eq!(rt; order.map(Ok), Some(parse(line.as_bytes())), "{line}");
    }
}

// A line is given without its end.
const REJECTED_LINES: [(&str, OrderFault); 3] = [
    ("dim 01800ABC 0 101", OrderFault::Range),
    ("dim 01800ABC 0 007", OrderFault::Syntax),
    ("add 01800ABC D5-00-01\n", OrderFault::Syntax),
];

#[test]
fn invalid_lines_are_rejected(rt: HostRuntime) {
    for (line, expected_fault) in REJECTED_LINES {
        assert_eq!(rt; parse(line.as_bytes()), Err(expected_fault), "{line}");
    }
    lines_have_no_other_fault();
}

const TEXTS_AND_IDS: [(&str, Option<u32>); 4] = [
    ("01800aBC", Some(DEVICE)),
    ("FFFFFFFF", Some(0xFFFF_FFFF)),
    ("", None),
    ("001800ABC", None),
];

#[test]
fn texts_parse_as_ids(rt: HostRuntime) {
    for (digits, expected_id) in TEXTS_AND_IDS {
        assert_eq!(rt; id_of(digits.as_bytes()), expected_id, "{digits}");
    }
    ids_are_spelled();
}
