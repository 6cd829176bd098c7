//! Responses of the radio module.
ghost use Rattle.std.specs.Prelude.{◌≡◌, Err, Some, None, MatchResult};
ghost use Rattle.esp3_frames.specs.Outcome.{packet_of};
ghost use Rattle.erp1_telegrams.specs.Telegram.{telegram_of};
ghost use Rattle.gateway_core.specs.Dispositions.{why_no_telegram_or_response};
ghost use Rattle.gateway_core.specs.Responses;

use erp1_telegrams::TelegramFault;
use esp3_frames::PacketRef;
use esp3_frames::packet_type::RESPONSE;
use gateway_state::HandlingReason;

/// A response of the radio module: a return code, and the bytes after it.
#[derive(Clone, Copy)]
pub struct ResponseRef<'a> {
    pub code: u8,
    pub bytes: &'a [u8],
}

/// The response in a packet, or why the packet is ignored. The packet carries no telegram, and `fault` says why. The
/// optional data of a response is ignored.
///
/// EnOcean Serial Protocol 3, "Packet type 2: RESPONSE".
pub fn response_in<'a>(
    packet: &PacketRef<'a>,
    fault: TelegramFault,
) -> Result<ResponseRef<'a>, HandlingReason>
    requires { telegram_of (packet_of packet.now) ≡ Err fault }
    ensures { MatchResult result
        (λ response. Responses.response_in (packet_of packet.now) ≡ Some (Responses.response_of response))
        (λ why. (Responses.response_in (packet_of packet.now) ≡ None)
        × (why ≡ why_no_telegram_or_response (packet_of packet.now))) }
{
    match fault {
        TelegramFault::OtherKind | TelegramFault::BadLength => Err(HandlingReason::NoTelegram),
        TelegramFault::NotRadio => match (packet.kind, packet.body) {
            (RESPONSE, [code, bytes @ ..]) => Ok(ResponseRef { code: *code, bytes }),
            (RESPONSE, []) => Err(HandlingReason::EmptyResponse),
            _ => Err(HandlingReason::OtherType),
        },
    }
}
