//! Sending packets: the telegrams of orders to devices, and the request for the base ID.
ghost use Rattle.std.specs.Prelude.{◌≡◌, Bool, Ok, true};
ghost use Rattle.std.specs.Option.{option_copied};
ghost use Rattle.esp3_frames.specs.Packet.{spelling};
ghost use Rattle.erp1_telegrams.specs.Address.{is_base_id};
ghost use Rattle.erp1_telegrams.specs.Telegram.{radio_packet};
ghost use Rattle.desk_orders.specs.Orders.{IsInRange};
ghost use Rattle.desk_orders.specs.Recipients.{sends};
ghost use Rattle.actuator_commands.specs.Packets.{order_telegram};
ghost use Rattle.gateway_core.specs.Step;
ghost use Rattle.gateway_core.specs.Step.{order_effect, send_result_effect};
ghost use Rattle.gateway_core.specs.private.Attempts.{MatchesEffect, Attempts};

use crate::failure::Failure;
use crate::handler::Handler;
use crate::handler::effect::{ReplyAndMode, error_effect, send_effect};
use actuator_commands::packet_of;
use arrayvec::ArrayVec;
use desk_orders::Order;
use erp1_telegrams::{Telegram, write};
use esp3_frames::packet_type::COMMON_COMMAND;
use esp3_frames::write_packet;
use gateway_state::ErrorReason;
use learned_devices::{Device, DeviceStore};

// The command CO_RD_IDBASE (EnOcean Serial Protocol 3, "CO_RD_IDBASE").
const READ_BASE_ID: u8 = 8;

// The packet in which a telegram is sent. The buffer has capacity for every telegram.
pub(crate) fn packet_of_telegram(telegram: &Telegram) -> ArrayVec<u8, 64>
    ensures { result.items ≡ spelling (radio_packet telegram.now) }
{
    let mut packet = ArrayVec::new();
    match write(telegram, &mut packet) {
        Ok(()) => packet,
        Err(_) => unreachable!(),
    }
}

// Asks the radio module for its base ID.
pub(crate) fn base_id_request_effect() -> ReplyAndMode
    ensures { (asked : Bool) → MatchesEffect result (Step.send_effect asked (spelling Step.base_id_request)) }
{
    let mut packet = ArrayVec::new();
    match write_packet(COMMON_COMMAND, &[READ_BASE_ID], &[], &mut packet) {
        Ok(()) => send_effect(packet),
        Err(_) => unreachable!(),
    }
}

// Sends the telegram of an order, given its device, or reports why there is none.
fn send(order: &Order, device: Option<&Device>, base: u32) -> ReplyAndMode
    requires sends { sends order.now ≡ true }
    requires in_range { IsInRange order.now }
    requires base { is_base_id base ≡ true }
    ensures { (asked : Bool)
        → MatchesEffect result (send_result_effect asked (order_telegram order.now (option_copied device.entry) base)) }
{
    match packet_of(order, device, base) {
        Ok(telegram) => send_effect(packet_of_telegram(&telegram)),
        Err(fault) => error_effect(ErrorReason::Order(fault)),
    }
}

impl<S: DeviceStore> Handler<S> {
    pub(crate) fn try_send(&mut self, order: &Order) -> Result<ReplyAndMode, Failure>
        requires sends { sends order.now ≡ true }
        requires in_range { IsInRange order.now }
        ensures { Attempts S.store_state self.old (λ state. order_effect state (Ok order.now)) result self.new }
    {
        let Some(id) = order.recipient_id() else {
            return Ok(send(order, None, self.base));
        };
        let device = self.registry.find(id)?;
        Ok(send(order, device.as_ref(), self.base))
    }
}
