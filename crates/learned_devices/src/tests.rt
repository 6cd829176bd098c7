//! Tests of labels, of copies of devices, and of the texts of faults.
use crate::{
    Device, Label, LearnFault, MAX_DEVICES, MAX_LABEL, StoreFault, is_label_of_any_length,
};
use erp1_telegrams::Eep;
use std::alloc::AllocError;
use std::test::Fail;

// The text of the label made from a text, if it is one.
fn text_of(label: &Option<Label>) -> Option<&str> {
    label.as_ref().map(Label::as_str)
}

#[test]
fn valid_labels_are_accepted(rt: HostRuntime) -> Result<(), Fail> {
    for text in [
        "",
        "~",
        "Door \"A\"",
        "a  b\\c",
        "12345678901234567890123456789012",
    ] {
        assert_eq!(rt; text_of(&Label::new(text)), Some(text));
    }
    assert_eq!(rt; MAX_LABEL, 32);
    assert_eq!(rt; Label::empty().as_str(), "");
    Ok(())
}

#[test]
fn invalid_labels_are_rejected(rt: HostRuntime) -> Result<(), Fail> {
    for text in [
        " ",
        " x",
        "x ",
        "a\x1Fb",
        "a\x7Fb",
        "a\tb",
        "\n",
        "T\u{FC}r",
        "123456789012345678901234567890123",
    ] {
        assert!(rt; Label::new(text).is_none());
    }
    Ok(())
}

#[test]
fn names(rt: HostRuntime) -> Result<(), Fail> {
    let names: [&[u8]; 4] = [b"", b"~", b"a  b", b"123456789012345678901234567890123"];
    for text in names {
        assert!(rt; is_label_of_any_length(text));
    }
    let others: [&[u8]; 6] = [b" ", b" x", b"x ", b"a\tb", b"a\x7Fb", b"a\x80b"];
    for text in others {
        assert!(rt; !is_label_of_any_length(text));
    }
    Ok(())
}

#[test]
fn copies_are_equal(rt: HostRuntime) -> Result<(), Fail> {
    let label = Label::new("Door").unwrap_or(Label::empty());
    let door = Device {
        id: 0x0180_0ABC,
        eep: Eep::new(0xD5, 0x00, 0x01),
        maker: None,
        label: label.copied(),
    };
    let copy = door.copied();
    assert_eq!(rt; copy.label, label);
    assert_eq!(rt; copy.label.as_str(), "Door");
    assert_eq!(rt; copy, door);
    assert!(rt; copy.label != Label::empty());
    Ok(())
}

#[test]
fn labels_are_printed(rt: HostRuntime) -> Result<(), Fail> {
    for (text, printed) in [
        ("", "\"\""),
        ("Door", "\"Door\""),
        ("Door \"A\"\\", "\"Door \\\"A\\\"\\\\\""),
    ] {
        let label = Label::new(text).unwrap_or(Label::empty());
        let written = format!(in rt.alloc(); "{label:?}")?;
        assert_eq!(rt; written.as_str(), printed);
    }
    Ok(())
}

#[test]
fn each_fault_says_why(rt: HostRuntime) -> Result<(), Fail> {
    let out_of_memory = StoreFault::from(AllocError);
    let store_failed = StoreFault::store_failed();
    assert!(rt; out_of_memory.is_memory());
    assert!(rt; !store_failed.is_memory());
    for (fault, printed) in [
        (LearnFault::from(out_of_memory), "there is no memory"),
        (LearnFault::from(store_failed), "the store does not answer"),
        (LearnFault::Full, "1,000 other devices are learned"),
    ] {
        let written = format!(in rt.alloc(); "{fault}")?;
        assert_eq!(rt; written.as_str(), printed);
    }
    Ok(())
}

#[test]
fn full_says_the_limit(rt: HostRuntime) -> Result<(), Fail> {
    let (thousands, rest) = (MAX_DEVICES / 1000, MAX_DEVICES % 1000);
    let printed = format!(in rt.alloc(); "{thousands},{rest:03} other devices are learned")?;
    let full = format!(in rt.alloc(); "{}", LearnFault::Full)?;
    assert_eq!(rt; full.as_str(), printed.as_str());
    Ok(())
}
