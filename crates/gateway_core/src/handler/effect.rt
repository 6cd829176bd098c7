//! The result of an applied input.
ghost use Rattle.std.specs.Prelude.{◌≡◌, ℕ, Bool, List, None, Some};
ghost use Rattle.gateway_core.specs.Dispositions.{without_device};
ghost use Rattle.gateway_core.specs.Desks.{desk_bytes};
ghost use Rattle.gateway_core.specs.private.Failures.{cause_in};
ghost use Rattle.gateway_core.specs.Replies.{answer_of};
ghost use Rattle.gateway_core.specs.Run.{failure_text};
ghost use Rattle.gateway_core.specs.Step;
ghost use Rattle.gateway_core.specs.Step.{text_answer};
ghost use Rattle.gateway_core.specs.private.Attempts.{MatchesEffect};

use crate::disposition::Disposition;
use crate::failure::Failure;
use crate::reply::{DeskText, Reply};
use arrayvec::ArrayVec;
use gateway_state::{ErrorReason, HandlingReason};
use json_lines::{done_line, error_line};
use std::marker::Model;
use teach_in::Mode;

// The result of a packet: its disposition, and the rest.
#[derive(Drop)]
pub(crate) struct PacketEffect {
    pub(crate) disposition: Disposition,
    pub(crate) effect: ReplyAndMode,
}

impl Model for PacketEffect {
    ghost use Rattle.std.specs.Prelude.{Some};
    ghost use Rattle.gateway_core.specs.private.Attempts.{HandlerEffect};

    ghost Value = { HandlerEffect };

    ghost view = { λ done. record {
      answer = done.effect.answer;
      disposition = Some done.disposition;
      mode = done.effect.mode;
    } };
}

// The result of an input: the mode that it sets, if any, and the reply.
#[derive(Drop)]
pub(crate) struct ReplyAndMode {
    pub(crate) mode: Option<Mode>,
    pub(crate) reply: Reply,
}

impl Model for ReplyAndMode {
    ghost use Rattle.std.specs.Prelude.{None};
    ghost use Rattle.gateway_core.specs.Replies.{answer_of};
    ghost use Rattle.gateway_core.specs.private.Attempts.{HandlerEffect};

    ghost Value = { HandlerEffect };

    ghost view = { λ done. record { answer = answer_of done.reply; disposition = None; mode = done.mode } };
}

// The reply with this text for the desk, and nothing for the radio.
fn reply_with(desk: DeskText) -> Reply
    ensures { answer_of result ≡ text_answer (desk_bytes desk) }
{
    Reply { radio: None, desk }
}

pub(crate) fn desk_effect(desk: DeskText) -> ReplyAndMode
    ensures disposition { result.disposition ≡ None }
    ensures mode { result.mode ≡ None }
    ensures answer { result.answer ≡ text_answer (desk_bytes desk) }
{
    ReplyAndMode {
        mode: None,
        reply: reply_with(desk),
    }
}

// A packet with this text for the desk.
pub(crate) fn packet_desk_effect(disposition: Disposition, desk: DeskText) -> PacketEffect
    ensures disposition { result.disposition ≡ Some disposition }
    ensures mode { result.mode ≡ None }
    ensures answer { result.answer ≡ text_answer (desk_bytes desk) }
{
    PacketEffect {
        disposition,
        effect: desk_effect(desk),
    }
}

// A packet without a text for the desk, whether its sender was looked up or not.
pub(crate) fn ignored_effect(why: HandlingReason) -> PacketEffect
    ensures { (asked : Bool) → MatchesEffect result (Step.silent_effect asked (without_device why)) }
{
    packet_desk_effect(Disposition::without_device(why), DeskText::Nothing)
}

pub(crate) fn error_effect(reason: ErrorReason) -> ReplyAndMode
    ensures { MatchesEffect result (Step.error_effect reason) }
{
    desk_effect(DeskText::Fixed(error_line(reason)))
}

pub(crate) fn mode_effect(mode: Mode) -> ReplyAndMode
    ensures { MatchesEffect result (Step.mode_effect mode) }
{
    ReplyAndMode {
        mode: Some(mode),
        reply: reply_with(DeskText::Fixed(done_line())),
    }
}

// The result of a `label` order whose device is learned and has its new label.
pub(crate) fn relabel_effect() -> ReplyAndMode
    ensures { (id : ℕ) (label : List ℕ) → MatchesEffect result (Step.relabel_effect id label) }
{
    desk_effect(DeskText::Fixed(done_line()))
}

pub(crate) fn send_effect(packet: ArrayVec<u8, 64>) -> ReplyAndMode
    ensures { (asked : Bool) → MatchesEffect result (Step.send_effect asked packet.items) }
{
    ReplyAndMode {
        mode: None,
        reply: Reply {
            radio: Some(packet),
            desk: DeskText::Fixed(done_line()),
        },
    }
}

// The answer to a failed input.
pub(crate) fn error_reply(failure: Failure) -> Reply
    ensures { answer_of result ≡ text_answer (failure_text (cause_in failure)) }
{
    let (Failure::BeforeCommit(fault) | Failure::AtCommit(fault)) = failure;
    reply_with(DeskText::Fixed(error_line(ErrorReason::Failed(fault))))
}
