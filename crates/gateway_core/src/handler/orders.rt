//! Handling a line of the desk.
ghost use Rattle.std.specs.Prelude.{Ok};
ghost use Rattle.teach_in.specs.declared.mode.Mode.TheVariants.{LearnAs};
ghost use Rattle.desk_orders.specs.Orders.{IsInRange};
ghost use Rattle.gateway_core.specs.Step.{if_supported_else_error, line_effect, order_effect, mode_effect};
ghost use Rattle.gateway_core.specs.private.Attempts.{MatchesEffect, Attempts};

use crate::failure::Failure;
use crate::handler::Handler;
use crate::handler::effect::{
    ReplyAndMode, desk_effect, error_effect, mode_effect, relabel_effect,
};
use crate::handler::send::base_id_request_effect;
use crate::reply::DeskText;
use desk_orders::{MAX_LINE, Order, OrderFault, parse};
use erp1_telegrams::Eep;
use gateway_state::ErrorReason;
use json_lines::{device_lines, status_line};
use learned_devices::{Device, DeviceStore, Label};
use teach_in::{Mode, supported};

// Opens the mode that learns with this profile, if the profile is supported.
fn learn_as_if_supported(eep: Eep) -> ReplyAndMode
    ensures { MatchesEffect result (if_supported_else_error eep (mode_effect (LearnAs eep))) }
{
    if supported(eep) {
        mode_effect(Mode::LearnAs(eep))
    } else {
        error_effect(ErrorReason::UnsupportedProfile)
    }
}

impl<S: DeviceStore> Handler<S> {
    fn try_add(&mut self, id: u32, eep: Eep) -> Result<ReplyAndMode, Failure>
        ensures { Attempts S.store_state self.old (λ state. order_effect state (Ok (Order.Add id eep))) result
            self.new }
    {
        if !supported(eep) {
            return Ok(error_effect(ErrorReason::UnsupportedProfile));
        }
        self.learn_by_order(Device {
            id,
            eep,
            maker: None,
            label: Label::empty(),
        })
    }

    fn try_remove(&mut self, id: u32) -> Result<ReplyAndMode, Failure>
        ensures { Attempts S.store_state self.old (λ state. order_effect state (Ok (Order.Remove id))) result self.new }
    {
        match self.registry.find(id)? {
            Some(device) => self.forget_by_order(device),
            None => Ok(error_effect(ErrorReason::Order(OrderFault::UnknownDevice))),
        }
    }

    // Labels a device that the desk names, if it is learned. The answer never changes, so nothing can fail after the
    // write.
    fn try_label(&mut self, id: u32, label: Label) -> Result<ReplyAndMode, Failure>
        ensures { Attempts S.store_state self.old (λ state. order_effect state (Ok (Order.Label id label))) result
            self.new }
    {
        match self.registry.relabel(id, label) {
            Ok(true) => Ok(relabel_effect()),
            Ok(false) => Ok(error_effect(ErrorReason::Order(OrderFault::UnknownDevice))),
            Err(fault) => Err(Failure::AtCommit(fault)),
        }
    }

    fn try_list(&mut self) -> Result<ReplyAndMode, Failure>
        ensures { Attempts S.store_state self.old (λ state. order_effect state (Ok Order.List)) result self.new }
    {
        let all = self.registry.all()?;
        let lines = device_lines(self.alloc, all.as_slice())?;
        Ok(desk_effect(DeskText::Owned(lines)))
    }

    // Reports the counters and the mode.
    fn try_status(&self) -> Result<ReplyAndMode, Failure>
        ensures { Attempts S.store_state self.now (λ state. order_effect state (Ok Order.Status)) result self.now }
    {
        let line = status_line(self.alloc, &self.counts, self.mode)?;
        Ok(desk_effect(DeskText::Owned(line)))
    }

    fn try_order(&mut self, order: Order) -> Result<ReplyAndMode, Failure>
        requires { IsInRange order }
        ensures { Attempts S.store_state self.old (λ state. order_effect state (Ok order)) result self.new }
    {
        match order {
            Order::LearnOn => Ok(mode_effect(Mode::Learn)),
            Order::LearnOnAnswer => Ok(mode_effect(Mode::LearnAnswer)),
            Order::LearnAs(eep) => Ok(learn_as_if_supported(eep)),
            Order::LearnOff => Ok(mode_effect(Mode::Closed)),
            Order::Add(id, eep) => self.try_add(id, eep),
            Order::Remove(id) => self.try_remove(id),
            Order::Label { id, label } => self.try_label(id, label),
            Order::List => self.try_list(),
            Order::Status => self.try_status(),
            Order::Base => Ok(base_id_request_effect()),
            // An order to devices.
            order => self.try_send(&order),
        }
    }

    pub(crate) fn try_line(&mut self, line: &[u8]) -> Result<ReplyAndMode, Failure>
        ensures { Attempts S.store_state self.old (λ state. line_effect state line.now) result self.new }
    {
        if line.len() > MAX_LINE {
            return Ok(error_effect(ErrorReason::TooLong));
        }
        match parse(line) {
            Ok(order) => self.try_order(order),
            Err(fault) => Ok(error_effect(ErrorReason::Order(fault))),
        }
    }
}
