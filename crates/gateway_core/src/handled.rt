//! A packet that was handled, and the line that explains it.
ghost use Rattle.std.specs.Prelude.{◌≡◌, ◌≤◌, length, Ok, Err};
ghost use Rattle.esp3_frames.specs.Outcome.{packet_of};
ghost use Rattle.esp3_frames.specs.Packet.{Packet, max_data};
ghost use Rattle.erp1_telegrams.specs.Telegram.{telegram_of};
ghost use Rattle.erp1_telegrams.specs.declared.telegram.TelegramFault.{TelegramFault};
ghost use Rattle.teach_in.specs.Telegrams.{teach_in_of};
ghost use Rattle.gateway_core.specs.Dispositions.{packet_line_of};

use crate::disposition::{Disposition, eep_and_maker_in_query};
use crate::reply::Reply;
use erp1_telegrams::Telegram;
use esp3_frames::PacketRef;
use json_lines::{PacketLine, ShownPacket, ShownTelegram};
use teach_in::Teach;

/// A packet that was handled.
#[derive(Drop)]
pub struct HandledPacket {
    /// The reply to it.
    pub reply: Reply,
    /// The line that explains what was done with it.
    pub line: PacketLine,
}

// The line that explains a packet with this telegram, whose role in teach-in is `teach`.
pub(crate) fn line_of_telegram(
    telegram: Telegram,
    teach: &Teach,
    disposition: Disposition,
) -> PacketLine
    requires { teach.now ≡ teach_in_of telegram }
    ensures { (packet : Packet) → telegram_of packet ≡ Ok telegram → result ≡ packet_line_of packet disposition }
{
    let (eep, maker) = eep_and_maker_in_query(teach);
    PacketLine {
        packet: ShownPacket::Telegram(ShownTelegram {
            telegram,
            eep: eep.or(disposition.eep),
            maker: maker.or(disposition.maker),
        }),
        why: disposition.why,
    }
}

// The line that explains a packet without a telegram.
pub(crate) fn line_without_telegram(packet: &PacketRef<'_>, disposition: Disposition) -> PacketLine
    requires { length packet.now.body.now ≤ max_data }
    ensures { (fault : TelegramFault) → telegram_of (packet_of packet.now) ≡ Err fault
        → result ≡ packet_line_of (packet_of packet.now) disposition }
{
    PacketLine {
        packet: ShownPacket::WithoutTelegram {
            kind: packet.kind,
            size: packet.body.len() as u16,
        },
        why: disposition.why,
    }
}
