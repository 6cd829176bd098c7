//! The telegrams of orders to devices.
ghost use Rattle.std.specs.Prelude.{◌≡◌, ◌+◌, ◌^◌, ◌<◌, ◌≤◌, IsTrue, Ok, Some, length, true};
ghost use Rattle.std.specs.Option.{option_copied};
ghost use Rattle.erp1_telegrams.specs.Address.{is_base_id};
ghost use Rattle.erp1_telegrams.specs.Telegram.{payload_length_fits};
ghost use Rattle.desk_orders.specs.Limits.{max_channel};
ghost use Rattle.desk_orders.specs.Orders.{IsInRange};
ghost use Rattle.desk_orders.specs.Recipients.{sends};
ghost use Rattle.actuator_commands.specs.Packets.{PayloadToDevice, is_profile_of_actuator, meter_query_byte};
ghost use Rattle.actuator_commands.specs.Packets.{order_telegram};
ghost use Rattle.actuator_commands.specs.Packets.{payload_for};
ghost use Rattle.actuator_commands.specs.Packets.{query_payload, telegram_for, four_bs_to_all, telegram_to_one};

use arrayvec::ArrayVec;
use desk_orders::{Order, OrderFault, Quantity};
use erp1_telegrams::{BROADCAST, Contents, Eep, Telegram, rorg};
use learned_devices::Device;

// The actuators of orders to one device.
#[derive(Clone, Copy)]
enum ActuatorKind {
    // A switch or a dimmer.
    SwitchOrDimmer,
    // A blind.
    Blind,
}

impl ActuatorKind {
    // Whether devices with this profile are such actuators.
    fn is_profile_of_actuator(self, eep: Eep) -> bool
        ensures { result ≡ is_profile_of_actuator self eep }
    {
        match self {
            ActuatorKind::SwitchOrDimmer => eep.rorg == rorg::VLD && eep.func == 0x01,
            ActuatorKind::Blind => eep.rorg == rorg::VLD && eep.func == 0x05 && eep.typ == 0x00,
        }
    }

    // The telegram with this payload to a device, if it is such an actuator.
    fn telegram(
        self,
        id: u32,
        payload: &[u8],
        device: Option<&Device>,
        base: u32,
    ) -> Result<Telegram, OrderFault>
        requires { IsTrue (payload_length_fits 0xD2 (length payload.now)) }
        ensures { result
            ≡ telegram_for (PayloadToDevice id (payload_for self payload.now)) (option_copied device.entry) base }
    {
        let known = device.ok_or(OrderFault::UnknownDevice)?;
        if !self.is_profile_of_actuator(known.eep) {
            return Err(OrderFault::WrongProfile);
        }
        Ok(telegram_to_device(id, payload, base))
    }
}

// A VLD telegram from the base ID to a device.
fn telegram_to_device(id: u32, payload: &[u8], base: u32) -> Telegram
    requires { IsTrue (payload_length_fits 0xD2 (length payload.now)) }
    ensures { Ok result ≡ telegram_to_one base id (Some payload.now) }
{
    let mut bytes = ArrayVec::<u8, 14>::new();
    let _fits = bytes.try_extend_from_slice(payload);
    Telegram::with_contents(Contents::Vld(bytes), base, 0, id, None)
}

// A query for a channel, of a switch or of a blind.
fn query_telegram(
    id: u32,
    channel: u32,
    device: Option<&Device>,
    base: u32,
) -> Result<Telegram, OrderFault>
    requires { channel ≤ max_channel }
    ensures { result ≡ telegram_for (PayloadToDevice id (query_payload channel)) (option_copied device.entry) base }
{
    let device = device.ok_or(OrderFault::UnknownDevice)?;
    if ActuatorKind::SwitchOrDimmer.is_profile_of_actuator(device.eep) {
        Ok(telegram_to_device(id, &[0x03, channel as u8], base))
    } else if ActuatorKind::Blind.is_profile_of_actuator(device.eep) && channel == 0 {
        Ok(telegram_to_device(id, &[0x03], base))
    } else {
        Err(OrderFault::WrongProfile)
    }
}

// The byte that asks for a quantity of a channel.
fn meter_query_byte(channel: u32, quantity: Quantity) -> u8
    requires { channel ≤ max_channel }
    ensures { result ≡ meter_query_byte channel quantity }
{
    match quantity {
        Quantity::Energy => channel as u8,
        Quantity::Power => channel as u8 + 0x80,
    }
}

// A 4BS telegram to all.
fn telegram_to_all(offset: u32, payload: [u8; 4], base: u32) -> Result<Telegram, OrderFault>
    requires { base + offset < 2 ^ 32 }
    ensures { result ≡ four_bs_to_all base offset payload }
{
    let sender = base + offset;
    if sender == BROADCAST {
        return Err(OrderFault::Range);
    }
    let contents = Contents::FourBs(payload);
    Ok(Telegram::with_contents(contents, sender, 0, BROADCAST, None))
}

/// The telegram of an order for which `Order::sends` returns true. `device` is the order's device, if it is learned
/// (its own ID is not used), and `base` is a base ID. The order's numbers are in range, as `parse` returns them.
///
/// An order that names a device is a VLD telegram to it, from the base ID: of "D2-01" to its profiles, of "D2-05-00" to
/// blinds. An order with an offset is a 4BS telegram of "A5-38-08" to all, from the base ID plus the offset (EnOcean
/// Equipment Profiles 2.6).
///
/// Errors: `UnknownDevice` if the order names a device and there is none; otherwise `WrongProfile` if the device's
/// profile has no such order (a query of a blind is for channel 0). `Range` if the base ID plus the offset is
/// `FFFFFFFF`, the ID that no sender has.
pub fn packet_of(order: &Order, device: Option<&Device>, base: u32) -> Result<Telegram, OrderFault>
    requires sends { sends order.now ≡ true }
    requires in_range { IsInRange order.now }
    requires base { is_base_id base ≡ true }
    ensures { Some result ≡ order_telegram order.now (option_copied device.entry) base }
{
    match *order {
        Order::Switch { id, channel, on } => {
            let value = if on { 0x64 } else { 0x00 };
            ActuatorKind::SwitchOrDimmer.telegram(id, &[0x01, channel as u8, value], device, base)
        }
        Order::Dim { id, channel, value } => {
            ActuatorKind::SwitchOrDimmer.telegram(
                id,
                &[0x01, channel as u8, value as u8],
                device,
                base,
            )
        }
        Order::Query { id, channel } => query_telegram(id, channel, device, base),
        Order::Meter {
            id,
            channel,
            quantity,
        } => ActuatorKind::SwitchOrDimmer.telegram(
            id,
            &[0x06, meter_query_byte(channel, quantity)],
            device,
            base,
        ),
        Order::Blind { id, value } => {
            let payload = [value as u8, 0x7F, 0x00, 0x01];
            ActuatorKind::Blind.telegram(id, &payload, device, base)
        }
        Order::Stop { id } => ActuatorKind::Blind.telegram(id, &[0x02], device, base),
        Order::Central { offset, on } => {
            let bits = if on { 0x09 } else { 0x08 };
            telegram_to_all(offset, [0x01, 0x00, 0x00, bits], base)
        }
        Order::Level {
            offset,
            value,
            ramp,
        } => {
            let bits = if value == 0 { 0x0C } else { 0x0D };
            telegram_to_all(offset, [0x02, value as u8, ramp as u8, bits], base)
        }
        Order::Teach { offset } => telegram_to_all(offset, [0xE0, 0x47, 0xFF, 0x80], base),
        _ => unreachable!(),
    }
}
