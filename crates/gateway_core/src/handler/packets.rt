//! Handling a packet of the serial line.
ghost use Rattle.std.specs.Prelude.{◌≡◌, true, IfOk, Some, Err};
ghost use Rattle.esp3_frames.specs.Outcome.{packet_of};
ghost use Rattle.erp1_telegrams.specs.Telegram.{telegram_of};
ghost use Rattle.learned_devices.specs.Devices.{device_of};
ghost use Rattle.profile_rows.specs.Payload.{is_data};
ghost use Rattle.teach_in.specs.declared.telegrams.Teach.TheVariants.{Plain};
ghost use Rattle.teach_in.specs.Telegrams.{teach_in_of};
ghost use Rattle.gateway_core.specs.Profiles.{read_by};
ghost use Rattle.gateway_core.specs.Responses;
ghost use Rattle.gateway_core.specs.Step.{case_effect, data_case, reading_effect, telegram_effect, non_telegram_effect};
ghost use Rattle.gateway_core.specs.private.Attempts.{MatchesEffect, Attempts};

use crate::disposition::{Disposition, why_unread};
use crate::failure::Failure;
use crate::handler::Handler;
use crate::handler::effect::{PacketEffect, ignored_effect, packet_desk_effect};
use crate::profiles;
use crate::reply::DeskText;
use crate::response::response_in;
use erp1_telegrams::{Telegram, TelegramFault, filter_reason};
use esp3_frames::PacketRef;
use gateway_state::HandlingReason;
use json_lines::{reading_line, response_line};
use learned_devices::{Device, DeviceStore};
use profile_rows::Readings;
use std::alloc::{AllocError, Global};
use teach_in::Teach;

// The reading line for a telegram of this device, if its profile can read the telegram.
fn reading(alloc: Global, telegram: &Telegram, device: &Device) -> Result<PacketEffect, AllocError>
    requires { is_data telegram.now.rorg telegram.now.payload ≡ true }
    ensures { IfOk result (λ done. MatchesEffect done (reading_effect telegram.now device.now
        (read_by device.now.eep telegram.now))) }
{
    let mut readings = Readings::new();
    match profiles::read_data(device.eep, telegram, &mut readings) {
        Ok(()) => {
            let line = reading_line(alloc, telegram, device.eep, &readings)?;
            let disposition = Disposition::for_device(device, HandlingReason::Read);
            Ok(packet_desk_effect(disposition, DeskText::Owned(line)))
        }
        Err(fault) => {
            let disposition = Disposition::for_device(device, why_unread(fault));
            Ok(packet_desk_effect(disposition, DeskText::Nothing))
        }
    }
}

impl<S: DeviceStore> Handler<S> {
    // Reports the readings of data from a learned sender, and learns another sender if that is planned.
    fn try_data(&mut self, telegram: &Telegram, teach: &Teach) -> Result<PacketEffect, Failure>
        requires role { teach.now ≡ teach_in_of telegram.now }
        requires data { teach.now ≡ Plain }
        ensures { Attempts S.store_state self.old (λ state. case_effect state telegram.now
            (data_case (device_of state.devices telegram.now.sender))) result self.new }
    {
        let Some(device) = self.registry.find(telegram.sender())? else {
            return self.try_plan(telegram, teach, true);
        };
        let done = reading(self.alloc, telegram, &device)?;
        Ok(done)
    }

    // Handles a telegram by the first case that applies: filtered out, teach-in reply, teach-in telegram, data of a
    // learned sender, data of another sender.
    pub(crate) fn try_telegram(
        &mut self,
        telegram: &Telegram,
        teach: &Teach,
    ) -> Result<PacketEffect, Failure>
        requires { teach.now ≡ teach_in_of telegram.now }
        ensures { Attempts S.store_state self.old (λ state. telegram_effect state telegram.now) result self.new }
    {
        if let Some(reason) = filter_reason(self.base, telegram) {
            return Ok(ignored_effect(HandlingReason::FilteredOut(reason)));
        }
        match teach {
            Teach::Answer => Ok(ignored_effect(HandlingReason::TeachInReply)),
            Teach::Contact | Teach::Bare | Teach::FourByte(_) | Teach::Ute(_) => {
                self.try_plan(telegram, teach, false)
            }
            Teach::Plain => self.try_data(telegram, teach),
        }
    }

    // Handles a packet that carries no telegram, or fails. `fault` says why there is none.
    pub(crate) fn try_non_telegram(
        &self,
        packet: &PacketRef<'_>,
        fault: TelegramFault,
    ) -> Result<PacketEffect, Failure>
        requires { telegram_of (packet_of packet.now) ≡ Err fault }
        ensures { Attempts S.store_state self.now (λ _. non_telegram_effect (packet_of packet.now)
            (Responses.response_in (packet_of packet.now))) result self.now }
    {
        match response_in(packet, fault) {
            Ok(response) => {
                let line = response_line(self.alloc, response.code, response.bytes)?;
                let disposition = Disposition::without_device(HandlingReason::Response);
                Ok(packet_desk_effect(disposition, DeskText::Owned(line)))
            }
            Err(why) => Ok(ignored_effect(why)),
        }
    }
}
