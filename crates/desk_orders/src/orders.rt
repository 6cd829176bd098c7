//! The orders, and the ranges of their numbers.
ghost use Rattle.std.specs.Prelude.{◌≡◌};
ghost use Rattle.desk_orders.specs.Orders.{is_in_range};
ghost use Rattle.desk_orders.specs.Recipients.{recipient_id, sends};

use crate::limits::{MAX_CHANNEL, MAX_OFFSET, MAX_PERCENT, MAX_RAMP};
use erp1_telegrams::{BROADCAST, Eep};
use learned_devices::{Label, MAX_LABEL};
use thiserror::Error;

/// An order of the desk. An ID is that of a device, 0 to FFFFFFFE. A channel is 0 to 29, or 30 for all channels of the
/// device. A value is 0 to 100 percent, and a ramp 0 to 255 seconds. An offset is 0 to 127: the order is sent from the
/// base ID plus the offset, the sender that devices were taught. An order needs no memory.
#[derive(Clone, Debug, Drop, PartialEq, Eq)]
pub enum Order {
    /// `learn on`: learn by teach-in telegrams.
    LearnOn,
    /// `learn on answer`: learn by teach-in telegrams, and answer 4BS queries.
    LearnOnAnswer,
    /// `learn as EEP`: learn the next sender that fits, with this profile.
    LearnAs(Eep),
    /// `learn off`: stop learning.
    LearnOff,
    /// `add ID EEP`: learn the device with this ID and profile.
    Add(u32, Eep),
    /// `remove ID`: forget the device with this ID.
    Remove(u32),
    /// `label ID TEXT`: set the label of the device with this ID. The text is everything after the ID and one space,
    /// with its spaces. `label ID` is the order with the empty label.
    Label {
        id: u32,
        label: Label,
    },
    /// `list`: list all devices.
    List,
    /// `status`: report the counters and the mode.
    Status,
    /// `base`: ask the radio module for its base ID.
    Base,
    /// `switch ID CHANNEL on` or `off`: switch a channel of a device (EnOcean Equipment Profiles 2.6, "D2-01", command
    /// 1).
    Switch {
        id: u32,
        channel: u32,
        on: bool,
    },
    /// `dim ID CHANNEL VALUE`: dim a channel of a device to this value ("D2-01", command 1).
    Dim {
        id: u32,
        channel: u32,
        value: u32,
    },
    /// `query ID CHANNEL`: query a device for the state of a channel ("D2-01", command 3), or a blind, whose channel is
    /// 0, for its position ("D2-05-00", command 3).
    Query {
        id: u32,
        channel: u32,
    },
    /// `meter ID CHANNEL energy` or `power`: query a device for this quantity at a channel ("D2-01", command 6).
    Meter {
        id: u32,
        channel: u32,
        quantity: Quantity,
    },
    /// `blind ID VALUE`: move a blind to this position ("D2-05-00", command 1).
    Blind {
        id: u32,
        value: u32,
    },
    /// `stop ID`: stop a blind ("D2-05-00", command 2).
    Stop {
        id: u32,
    },
    /// `central OFFSET on` or `off`: switch all devices that were taught this sender ("A5-38-08", command 1).
    Central {
        offset: u32,
        on: bool,
    },
    /// `level OFFSET VALUE RAMP`: dim all devices that were taught this sender to this value, in the time of the ramp
    /// ("A5-38-08", command 2).
    Level {
        offset: u32,
        value: u32,
        ramp: u32,
    },
    /// `teach OFFSET`: teach this sender to devices that are ready to learn ("A5-38-08", by a 4BS teach-in).
    Teach {
        offset: u32,
    },
}

/// The quantity to measure.
#[derive(Clone, Copy, Debug, PartialEq, Eq)]
pub enum Quantity {
    /// `energy`
    Energy,
    /// `power`
    Power,
}

/// Why a line is no order, or an order has no telegram.
#[derive(Clone, Copy, Debug, PartialEq, Eq, Error)]
pub enum OrderFault {
    /// The line does not have the form of an order.
    #[error("not an order")]
    Syntax,
    /// The line has the form of an order, but a number is out of its range, a label is too long, or the ID is
    /// `FFFFFFFF`, which no device has; or the base ID plus the offset of an order is this ID.
    #[error("a number out of range")]
    Range,
    /// The order's device is not learned.
    #[error("an unknown device")]
    UnknownDevice,
    /// The profile of the order's device has no such order.
    #[error("no order for the profile of the device")]
    WrongProfile,
}

impl Order {
    /// Whether the order is for devices: `actuator_commands::packet_of` makes its telegram.
    pub fn sends(&self) -> bool
        ensures { result ≡ sends self.now }
    {
        match self {
            Order::Central { .. } | Order::Level { .. } | Order::Teach { .. } => true,
            _ => self.recipient_id().is_some(),
        }
    }

    /// The device of the order, which `actuator_commands::packet_of` needs. `None` if the order is for no device, or
    /// for all.
    pub fn recipient_id(&self) -> Option<u32>
        ensures { result ≡ recipient_id self.now }
    {
        match self {
            Order::Switch { id, .. }
            | Order::Dim { id, .. }
            | Order::Query { id, .. }
            | Order::Meter { id, .. }
            | Order::Blind { id, .. }
            | Order::Stop { id } => Some(*id),
            _ => None,
        }
    }
}

pub(crate) fn is_in_range(order: &Order) -> bool
    ensures { result ≡ is_in_range order.now }
{
    match order {
        Order::LearnOn
        | Order::LearnOnAnswer
        | Order::LearnAs(_)
        | Order::LearnOff
        | Order::List
        | Order::Status
        | Order::Base => true,
        Order::Add(id, _) | Order::Remove(id) | Order::Stop { id } => *id != BROADCAST,
        Order::Label { id, label } => {
            prove!(label.as_str().len() <= MAX_LABEL);
            *id != BROADCAST
        }
        Order::Switch { id, channel, .. }
        | Order::Query { id, channel }
        | Order::Meter { id, channel, .. } => *id != BROADCAST && *channel <= MAX_CHANNEL,
        Order::Dim { id, channel, value } => {
            *id != BROADCAST && *channel <= MAX_CHANNEL && *value <= MAX_PERCENT
        }
        Order::Blind { id, value } => *id != BROADCAST && *value <= MAX_PERCENT,
        Order::Central { offset, .. } | Order::Teach { offset } => *offset <= MAX_OFFSET,
        Order::Level {
            offset,
            value,
            ramp,
        } => *offset <= MAX_OFFSET && *value <= MAX_PERCENT && *ramp <= MAX_RAMP,
    }
}
