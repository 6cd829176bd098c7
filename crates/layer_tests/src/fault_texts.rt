//! The texts of the faults below the registry.
use byte_io::Failed;
use desk_orders::OrderFault;
use erp1_telegrams::TelegramFault;
use esp3_frames::{HeaderFault, PacketFault};
use gateway_cli::CommandLineFault;
use profile_rows::Unreadable;
use std::error::Error;
use std::test::Fail;

const HEADER_FAULT_TEXTS: [(HeaderFault, &str); 3] = [
    (HeaderFault::NotSync, "no sync byte"),
    (HeaderFault::HeaderCheck, "wrong check byte of the header"),
    (HeaderFault::EmptyPacket, "empty packet"),
];

const PACKET_FAULT_TEXTS: [(PacketFault, &str); 3] = [
    (PacketFault::EmptyPacket, "empty packet"),
    (PacketFault::TooLong, "packet too long"),
    (PacketFault::NoRoom, "no room for the packet"),
];

const TELEGRAM_FAULT_TEXTS: [(TelegramFault, &str); 3] = [
    (TelegramFault::NotRadio, "no radio packet"),
    (TelegramFault::OtherKind, "a telegram of another kind"),
    (TelegramFault::BadLength, "a telegram of a wrong length"),
];

const UNREADABLE_TEXTS: [(Unreadable, &str); 4] = [
    (Unreadable::NotSupported, "the profile is not supported"),
    (
        Unreadable::WrongKind,
        "the telegram is of another kind than the profile",
    ),
    (
        Unreadable::WrongLength,
        "the payload has another length than the profile's messages",
    ),
    (
        Unreadable::OtherMessage,
        "the message is of another sort than those that are read",
    ),
];

const ORDER_FAULT_TEXTS: [(OrderFault, &str); 4] = [
    (OrderFault::Syntax, "not an order"),
    (OrderFault::Range, "a number out of range"),
    (OrderFault::UnknownDevice, "an unknown device"),
    (
        OrderFault::WrongProfile,
        "no order for the profile of the device",
    ),
];

// The faults have these texts.
fn have_texts<E: Error>(rt: &HostRuntime, cases: &[(E, &str)]) -> Result<(), Fail> {
    for (fault, expected_text) in cases {
        if fault.to_string(rt.alloc())?.as_str() != *expected_text {
            return Err(Fail::from(*expected_text));
        }
    }
    Ok(())
}

#[test]
fn fault_texts(rt: HostRuntime) -> Result<(), Fail> {
    have_texts(&rt, &HEADER_FAULT_TEXTS)?;
    have_texts(&rt, &PACKET_FAULT_TEXTS)?;
    have_texts(&rt, &TELEGRAM_FAULT_TEXTS)?;
    have_texts(&rt, &UNREADABLE_TEXTS)?;
    have_texts(&rt, &ORDER_FAULT_TEXTS)?;
    have_texts(&rt, &[(Failed, "a read or a write failed")])?;
    have_texts(&rt, &[(CommandLineFault::BadBase, "not a base ID")])
}
