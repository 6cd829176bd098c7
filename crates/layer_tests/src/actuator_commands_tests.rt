//! The telegrams of orders: their recipients, their packets, and the orders that have none. The golden sessions
//! `orders-to-devices` and `orders-to-all` have each order at the ends of its ranges, and devices of all profiles.
use actuator_commands::{OrderFault, id_of, packet_of, parse};
use arrayvec::ArrayVec;
use erp1_telegrams::{Eep, Telegram, is_base_id, write};
use learned_devices::{Device, Label};
use std::test::Fail;

const DEVICE: u32 = 0x0180_0ABC;

const BASE: u32 = 0xFF80_0000;

const LAST_BASE: u32 = 0xFFFF_FF80;

// The RORG, the FUNC and the type of a device.
type Profile = (u8, u8, u8);

const SWITCH: Profile = (0xD2, 0x01, 0x12);

const BLIND: Profile = (0xD2, 0x05, 0x00);

// The telegram of the order that a line spells, with a device that has this profile.
fn telegram(
    line: &[u8],
    profile: Option<Profile>,
    base: u32,
) -> Result<Result<Telegram, OrderFault>, Fail> {
    let order = parse(line)?;
    if !order.sends() || !is_base_id(base) {
        return Err(Fail::from("an order of no telegram, or no base ID"));
    }
    let device = profile.map(|(rorg, func, typ)| Device {
        id: DEVICE,
        eep: Eep::new(rorg, func, typ),
        maker: None,
        label: Label::empty(),
    });
    Ok(packet_of(&order, device.as_ref(), base))
}

// Orders to a switch, and their packets, which were made by hand. Here and below `|` separates cases.
const PACKETS_TO_SWITCHES: &str = "\
    switch 01800ABC 0 on = 550009070156d2010064ff800000000301800abcff0024|\
    dim 01800ABC 1 40 = 550009070156d2010128ff800000000301800abcff00d8|\
    query 01800ABC 30 = 55000807013dd2031eff800000000301800abcff007d|\
    meter 01800ABC 0 energy = 55000807013dd20600ff800000000301800abcff00b7|\
    meter 01800ABC 2 power = 55000807013dd20682ff800000000301800abcff0069";

const PACKETS_TO_BLINDS: &str = "\
    query 01800ABC 0 = 55000707017ad203ff800000000301800abcff0053|\
    blind 01800ABC 50 = 55000a0701ebd2327f0001ff800000000301800abcff0068|\
    stop 01800ABC = 55000707017ad202ff800000000301800abcff00c7";

const PACKETS_TO_ALL: &str = "\
    central 5 on = 55000a0701eba501000009ff8000050003ffffffffff0063|\
    level 5 40 2 = 55000a0701eba50228020dff8000050003ffffffffff0087|\
    teach 5 = 55000a0701eba5e047ff80ff8000050003ffffffffff00ce";

// The last sender of the last base ID.
const PACKETS_FROM_LAST_SENDER_ID: &str = "\
    teach 126 = 55000a0701eba5e047ff80fffffffe0003ffffffffff0061|\
    central 126 on = 55000a0701eba501000009fffffffe0003ffffffffff00cc";

// A type of D2-01 that cannot be learned.
const UNSUPPORTED_SWITCH: Profile = (0xD2, 0x01, 0xFF);

// The profile of the device, the base ID, and orders with their packets.
type OrderPackets = (Option<Profile>, u32, &'static str);

const ORDER_PACKETS: [OrderPackets; 5] = [
    (Some(SWITCH), BASE, PACKETS_TO_SWITCHES),
    (Some(UNSUPPORTED_SWITCH), BASE, PACKETS_TO_SWITCHES),
    (Some(BLIND), BASE, PACKETS_TO_BLINDS),
    (None, BASE, PACKETS_TO_ALL),
    (None, LAST_BASE, PACKETS_FROM_LAST_SENDER_ID),
];

#[test]
fn orders_have_given_packets(rt: HostRuntime) -> Result<(), Fail> {
    for (profile, base, orders) in ORDER_PACKETS {
        for order_and_packet in orders.split('|') {
            let (line, packet) = order_and_packet.split_once(" = ").ok_or("no packet")?;
            let mut packet_bytes = ArrayVec::<u8, 64>::new();
            write(
                &telegram(line.as_bytes(), profile, base)??,
                &mut packet_bytes,
            )?;
            let packet_digits = hex::encode(rt.alloc(), packet_bytes.as_slice())?;
            assert_eq!(rt; packet_digits.as_str(), packet, "{line}");
        }
    }
    Ok(())
}

const ORDERS_TO_DEVICES: &str = "\
    switch 01800ABC 0 on|dim 01800ABC 0 7|meter 01800ABC 0 power|query 01800ABC 1|\
    blind 01800ABC 50|stop 01800ABC";

// Profiles that cannot be learned, and are those of switches or blinds except for one number.
const UNSUPPORTED_PROFILES: [Profile; 5] = [
    (0xA5, 0x38, 0x08),
    (0xA5, 0x01, 0x12),
    (0xA5, 0x05, 0x00),
    (0xD2, 0x02, 0x12),
    (0xD2, 0x05, 0x01),
];

#[test]
fn orders_without_a_telegram(rt: HostRuntime) -> Result<(), Fail> {
    for line in ORDERS_TO_DEVICES.split('|') {
        let fault = telegram(line.as_bytes(), None, BASE)?.err();
        assert_eq!(rt; fault, Some(OrderFault::UnknownDevice), "{line}");
        for profile in UNSUPPORTED_PROFILES {
            let fault = telegram(line.as_bytes(), Some(profile), BASE)?.err();
            assert_eq!(rt; fault, Some(OrderFault::WrongProfile), "{line}");
        }
    }
    Ok(())
}

// The last offset of the last base ID is the ID that no sender has.
#[test]
fn orders_from_broadcast_id_fail(rt: HostRuntime) -> Result<(), Fail> {
    for line in "teach 127|central 127 on|level 127 0 0".split('|') {
        let fault = telegram(line.as_bytes(), None, LAST_BASE)?.err();
        assert_eq!(rt; fault, Some(OrderFault::Range), "{line}");
    }
    Ok(())
}

// Orders with the device that they are for, `all` devices, or `none` if they have no telegram.
const RECIPIENTS_OF_ORDERS: &str = "\
    switch 01800ABC 0 on = 01800ABC|stop 00000000 = 00000000|central 5 on = all|learn on = none|\
    remove 01800ABC = none|label 01800ABC x = none|base = none";

#[test]
fn orders_have_given_recipients(rt: HostRuntime) -> Result<(), Fail> {
    for order_and_recipient in RECIPIENTS_OF_ORDERS.split('|') {
        let (line, device) = order_and_recipient.split_once(" = ").ok_or("no device")?;
        let order = parse(line.as_bytes())?;
        let sends_and_recipient = (order.sends(), order.recipient_id());
        assert_eq!(rt;
            sends_and_recipient,
            (device != "none", id_of(device.as_bytes())),
            "{order_and_recipient}"
        );
    }
    Ok(())
}
