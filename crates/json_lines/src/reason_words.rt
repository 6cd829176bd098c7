//! The words of the reasons why a packet was handled the way it was: the member `why` of a packet line.
ghost use Rattle.std.specs.Prelude.{◌≡◌, ◌≤◌, length};
ghost use Rattle.json_lines.specs.PacketLines.{reason_word};

use crate::teach::outcome_word;
use erp1_telegrams::FilterReason;
use gateway_state::HandlingReason;

/// The word of a reason, at most 14 bytes.
pub fn reason_word(why: HandlingReason) -> &'static str
    ensures text { result.now ≡ reason_word why }
    ensures short { length result.now ≤ 14 }
{
    match why {
        HandlingReason::Failed => "refused",
        HandlingReason::Response => "response",
        HandlingReason::EmptyResponse => "empty_response",
        HandlingReason::OtherType => "other_type",
        HandlingReason::NoTelegram => "no_telegram",
        HandlingReason::FilteredOut(FilterReason::FromBroadcast) => "from_broadcast",
        HandlingReason::FilteredOut(FilterReason::ForOthers) => "for_others",
        HandlingReason::TeachInReply => "teach_in_reply",
        HandlingReason::TeachIn(outcome) => outcome_word(outcome),
        HandlingReason::WindowClosed => "window_closed",
        HandlingReason::OtherMode => "other_mode",
        HandlingReason::Read => "read",
        HandlingReason::UnknownSender => "unknown_sender",
        HandlingReason::WrongKind => "wrong_kind",
        HandlingReason::WrongLength => "wrong_length",
        HandlingReason::OtherMessage => "other_message",
    }
}
