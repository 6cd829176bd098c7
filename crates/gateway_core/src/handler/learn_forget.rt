//! Learning and forgetting a device. The line that reports it is built before the write, so nothing can fail after it.
ghost use Rattle.std.specs.Prelude.{◌≡◌, [], ◌∷◌};
ghost use Rattle.json_lines.specs.Lines.{Error};
ghost use Rattle.gateway_state.specs.declared.error_reason.ErrorReason.{ErrorReason};
ghost use Rattle.gateway_core.specs.Step.{NeedsStore, if_full_of_others_else, ordered_forget_effect};
ghost use Rattle.gateway_core.specs.Step.{ordered_learn_effect, lines_effect};
ghost use Rattle.gateway_core.specs.private.Attempts.{TriesToLearn, TriesToForget, Attempts};

use crate::failure::Failure;
use crate::handler::Handler;
use crate::handler::effect::{ReplyAndMode, desk_effect, error_effect};
use crate::reply::DeskText;
use erp1_telegrams::Eep;
use gateway_state::ErrorReason;
use json_lines::{Line, teach_line};
use learned_devices::{Device, DeviceStore, LearnFault};
use teach_in::{Outcome, Verdict};

impl<S: DeviceStore> Handler<S> {
    // Learns a device without a label; a known sender keeps its own. Returns the outcome and the line that reports it,
    // or `None`, before any write, if the registry is full.
    pub(crate) fn learn(&mut self, device: Device) -> Result<Option<(Verdict, Line)>, Failure>
        requires { device.label ≡ [] }
        ensures { TriesToLearn S.store_state self.old device result self.new }
    {
        let draft = teach_line(
            self.alloc,
            device.id,
            Some(device.eep),
            device.maker,
            Outcome::Accepted,
        )?;
        let receipt = match self.registry.learn(device) {
            Ok(receipt) => receipt,
            Err(LearnFault::Full) => return Ok(None),
            Err(LearnFault::Failed(fault)) => return Err(Failure::AtCommit(fault)),
        };
        let verdict = Verdict::committed(receipt);
        let line = draft.tell(&verdict);
        Ok(Some((verdict, line)))
    }

    // Forgets the device with this ID, learned or not. Returns the outcome and the line that reports it, with this
    // profile and this maker.
    pub(crate) fn forget(
        &mut self,
        id: u32,
        eep: Option<Eep>,
        maker: Option<u16>,
    ) -> Result<(Verdict, Line), Failure>
        ensures { TriesToForget S.store_state self.old
            (record { eep = eep; id = id; maker = maker; outcome = Outcome.Deleted }) result self.new }
    {
        let draft = teach_line(self.alloc, id, eep, maker, Outcome::Deleted)?;
        let receipt = match self.registry.forget(id) {
            Ok(receipt) => receipt,
            Err(fault) => return Err(Failure::AtCommit(fault)),
        };
        let verdict = Verdict::committed(receipt);
        let line = draft.tell(&verdict);
        Ok((verdict, line))
    }

    // Learns a device that the desk names.
    pub(crate) fn learn_by_order(&mut self, device: Device) -> Result<ReplyAndMode, Failure>
        requires { device.label ≡ [] }
        ensures { Attempts S.store_state self.old (λ state. if_full_of_others_else state.devices device
            (lines_effect NeedsStore (Error ErrorReason.Full ∷ [])) (ordered_learn_effect device)) result self.new }
    {
        match self.learn(device)? {
            Some((_, line)) => Ok(desk_effect(DeskText::Owned(line))),
            None => Ok(error_effect(ErrorReason::Full)),
        }
    }

    // Forgets a device that the desk names.
    pub(crate) fn forget_by_order(&mut self, device: Device) -> Result<ReplyAndMode, Failure>
        ensures { Attempts S.store_state self.old (λ state. ordered_forget_effect device) result self.new }
    {
        let (_, line) = self.forget(device.id, Some(device.eep), device.maker)?;
        Ok(desk_effect(DeskText::Owned(line)))
    }
}
