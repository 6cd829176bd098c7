//! Teach-in: learns or forgets the sender of a telegram, or reports why not, and replies to it.
ghost use Rattle.std.specs.Prelude.{◌≡◌, ◌≢◌, [], false, IfOk, option_map};
ghost use Rattle.learned_devices.specs.Devices.{Devices};
ghost use Rattle.teach_in.specs.declared.outcome.Outcome.TheVariants as outcome;
ghost use Rattle.teach_in.specs.Plans.{plan_of};
ghost use Rattle.teach_in.specs.Telegrams.{teach_in_of};
ghost use Rattle.gateway_core.specs.Replies.{answer_of};
ghost use Rattle.gateway_core.specs.Step;
ghost use Rattle.gateway_core.specs.Step.{accept_effect, if_full_of_others_else, delete_effect, plan_effect};
ghost use Rattle.gateway_core.specs.Step.{radio_bytes_of, reply_telegram_of, device_teach_line};
ghost use Rattle.gateway_core.specs.private.Attempts.{MatchesEffect, HasReplyCodeIfQuery, Attempts, state_of};

use crate::disposition::{Disposition, eep_and_maker_in_query, why_nothing_done};
use crate::failure::Failure;
use crate::handler::Handler;
use crate::handler::effect::{PacketEffect, ReplyAndMode, ignored_effect};
use crate::handler::send::packet_of_telegram;
use crate::reply::{DeskText, Reply};
use arrayvec::ArrayVec;
use erp1_telegrams::{Eep, Telegram};
use gateway_state::HandlingReason;
use json_lines::{Line, teach_line};
use learned_devices::{Device, DeviceStore};
use std::alloc::AllocError;
use teach_in::{Mode, Outcome, Plan, Teach, Verdict, four_byte_reply, plan_for, ute_reply};

// The mode that is set when a sender is learned: the mode that learns with the desk's profile is for one sender, and
// closes.
fn mode_set_by_learning(mode: Mode) -> Option<Mode>
    ensures { result ≡ Step.mode_set_by_learning mode }
{
    match mode {
        Mode::LearnAs(_) => Some(Mode::Closed),
        _ => None,
    }
}

impl<S: DeviceStore> Handler<S> {
    // The packet that replies to a teach-in telegram: to a UTE query that waits for one, or to a 4BS query in the mode
    // `LearnAnswer`.
    fn radio_reply(&self, teach: &Teach, verdict: &Verdict) -> Option<ArrayVec<u8, 64>>
        requires { HasReplyCodeIfQuery teach.now verdict.now.id verdict.now.outcome }
        ensures { option_map (λ bytes. bytes.items) result
            ≡ radio_bytes_of (reply_telegram_of self.now.base self.now.mode teach.now verdict.now.outcome) }
    {
        match (self.mode, teach) {
            (_, Teach::Ute(query)) if query.wants_reply() => {
                Some(packet_of_telegram(&ute_reply(query, verdict, self.base)))
            }
            (Mode::LearnAnswer, Teach::FourByte(query)) => {
                Some(packet_of_telegram(&four_byte_reply(query, verdict, self.base)))
            }
            _ => None,
        }
    }

    // Reports the outcome for a sender to the desk, and replies to the sender.
    fn reply_with_teach_line(&self, teach: &Teach, verdict: &Verdict, line: Line) -> Reply
        requires { HasReplyCodeIfQuery teach.now verdict.now.id verdict.now.outcome }
        ensures { answer_of result ≡ record {
          radio = radio_bytes_of (reply_telegram_of self.now.base self.now.mode teach.now verdict.now.outcome);
          explanation = [];
          desk = line;
        } }
    {
        Reply {
            radio: self.radio_reply(teach, verdict),
            desk: DeskText::Owned(line),
        }
    }

    // Reports why nothing is done about a sender, and replies to it.
    fn refuse(
        &self,
        teach: &Teach,
        id: u32,
        eep: Option<Eep>,
        maker: Option<u16>,
        outcome: Outcome,
    ) -> Result<PacketEffect, AllocError>
        requires accepted { outcome ≢ Outcome.Accepted }
        requires deleted { outcome ≢ Outcome.Deleted }
        requires reply { HasReplyCodeIfQuery teach.now id outcome }
        ensures { IfOk result (λ done. (devices : Devices) → MatchesEffect done (Step.teach_report_effect
            (state_of self.now devices) teach.now (record { eep = eep; id = id; maker = maker; outcome = outcome }))) }
    {
        let draft = teach_line(self.alloc, id, eep, maker, outcome)?;
        let verdict = Verdict::refused(id, outcome);
        let line = draft.tell(&verdict);
        Ok(PacketEffect {
            disposition: Disposition::without_device(HandlingReason::TeachIn(outcome)),
            effect: ReplyAndMode {
                mode: None,
                reply: self.reply_with_teach_line(teach, &verdict, line),
            },
        })
    }

    // Learns the sender of a telegram.
    fn try_accept(&mut self, teach: &Teach, device: Device) -> Result<PacketEffect, Failure>
        requires label { device.label ≡ [] }
        requires accepted { HasReplyCodeIfQuery teach.now device.id outcome.Accepted }
        requires full { HasReplyCodeIfQuery teach.now device.id outcome.Full }
        ensures { Attempts S.store_state self.old (λ state. if_full_of_others_else state.devices device
            (Step.teach_report_effect state teach.now (device_teach_line device outcome.Full))
            (accept_effect state teach.now device))
            result self.new }
    {
        let (id, eep, maker) = (device.id, device.eep, device.maker);
        let disposition = Disposition::for_device(
            &device,
            HandlingReason::TeachIn(Outcome::Accepted),
        );
        let Some((verdict, line)) = self.learn(device)? else {
            let full = self.refuse(teach, id, Some(eep), maker, Outcome::Full)?;
            return Ok(full);
        };
        Ok(PacketEffect {
            disposition,
            effect: ReplyAndMode {
                mode: mode_set_by_learning(self.mode),
                reply: self.reply_with_teach_line(teach, &verdict, line),
            },
        })
    }

    // Forgets the sender of a telegram, learned or not.
    fn try_forget(&mut self, teach: &Teach, id: u32) -> Result<PacketEffect, Failure>
        requires { HasReplyCodeIfQuery teach.now id outcome.Deleted }
        ensures { Attempts S.store_state self.old (λ state. delete_effect state teach.now id) result self.new }
    {
        let (eep, maker) = eep_and_maker_in_query(teach);
        let (verdict, line) = self.forget(id, eep, maker)?;
        Ok(PacketEffect {
            disposition: Disposition::without_device(HandlingReason::TeachIn(Outcome::Deleted)),
            effect: ReplyAndMode {
                mode: None,
                reply: self.reply_with_teach_line(teach, &verdict, line),
            },
        })
    }

    // Carries out the plan for the sender of a teach-in telegram, or of data whose sender was looked up and is not
    // learned.
    pub(crate) fn try_plan(
        &mut self,
        telegram: &Telegram,
        teach: &Teach,
        is_data: bool,
    ) -> Result<PacketEffect, Failure>
        requires { teach.now ≡ teach_in_of telegram.now }
        ensures { Attempts S.store_state self.old (λ state. plan_effect state telegram.now is_data
            (plan_of telegram.now state.mode false)) result self.new }
    {
        // only the sender of data is looked up, and data of a known sender never gets here
        match plan_for(telegram, teach, self.mode, false) {
            Plan::Silent => Ok(ignored_effect(why_nothing_done(is_data, self.mode))),
            Plan::Add(device) => self.try_accept(teach, device),
            Plan::Forget(id) => self.try_forget(teach, id),
            Plan::Refuse(outcome) => {
                let (eep, maker) = eep_and_maker_in_query(teach);
                let refused = self.refuse(teach, telegram.sender(), eep, maker, outcome)?;
                Ok(refused)
            }
        }
    }
}
