//! The line that explains a packet: its contents, and why it was handled the way it was.

ghost use Rattle.std.specs.Prelude.{◌≡◌, ◌+◌, ◌≤◌, ◌++◌, length};
ghost use Rattle.arrayvec.specs.ArrayVec.{array_vec_len};
ghost use Rattle.json_lines.specs.PacketLines.{raw_telegram_members, type_and_why_members, members_text};
ghost use Rattle.json_lines.specs.PacketLines.{non_telegram_members, packet_members, packet_text};
ghost use Rattle.json_lines.specs.PacketLines.{reception_and_sender_members, max_raw_telegram_members_len};
ghost use Rattle.json_lines.specs.PacketLines.{max_type_and_why_members_len, max_packet_line};
ghost use Rattle.json_lines.specs.PacketLines.{max_reception_and_sender_members_len};

use crate::limits::MAX_PACKET_LINE;
use crate::reason_words::reason_word;
use crate::text_parts::{
    PacketBuffer, put, put_byte, put_dbm, put_dest, put_id, put_maker, put_number, put_payload,
    put_profile_or_null, put_string,
};
use arrayvec::ArrayVec;
use erp1_telegrams::{Eep, Telegram};
use gateway_state::HandlingReason;
use std::marker::Model;

/// A telegram, and the profile and manufacturer ID that its line shows. In contracts its value is what the line shows
/// of it, the record `ShownTelegram` of `specs/ShownTelegram.antt`.
#[derive(Clone, Debug, Drop)]
pub struct ShownTelegram {
    /// The telegram.
    pub telegram: Telegram,
    /// The profile that the telegram contains, or that of its sender, if it is known.
    pub eep: Option<Eep>,
    /// The manufacturer ID that the telegram contains, or that of its sender, if it is known.
    pub maker: Option<u16>,
}

impl Model for ShownTelegram {
    ghost use Rattle.json_lines.specs.ShownTelegram.{ShownTelegram as Said, shown_of};

    ghost Value = { Said };

    ghost view = { λ t. shown_of t.telegram t.eep t.maker };
}

/// The contents of a packet.
#[derive(Clone, Debug, Drop)]
pub enum ShownPacket {
    /// A packet that carries this telegram.
    Telegram(ShownTelegram),
    /// Any other packet.
    WithoutTelegram {
        /// The packet type.
        kind: u8,
        /// The number of bytes of its data.
        size: u16,
    },
}

/// The contents of a packet, and why it was handled the way it was.
#[derive(Clone, Debug, Drop)]
pub struct PacketLine {
    /// The contents of the packet.
    pub packet: ShownPacket,
    /// Why it was handled the way it was.
    pub why: HandlingReason,
}

// How a telegram was received, and its sender.
fn put_reception_and_sender_members(shown: &ShownTelegram, out: &mut PacketBuffer)
    requires { array_vec_len out.old + max_reception_and_sender_members_len ≤ max_packet_line }
    ensures items { out.new.items ≡ out.old.items ++ members_text (reception_and_sender_members shown.now) }
    ensures len { array_vec_len out.new ≤ array_vec_len out.old + max_reception_and_sender_members_len }
{
    put(b"\"dbm\":", out);
    put_dbm(shown.telegram.dbm(), out);
    put(b",\"dest\":", out);
    put_dest(shown.telegram.dest(), out);
    put(b",\"eep\":", out);
    put_profile_or_null(shown.eep, out);
    put(b",\"id\":", out);
    put_id(shown.telegram.sender(), out);
    put(b",\"maker\":", out);
    put_maker(shown.maker, out);
}

// The payload, the RORG and the status of a telegram.
fn put_raw_telegram_members(shown: &ShownTelegram, out: &mut PacketBuffer)
    requires { array_vec_len out.old + max_raw_telegram_members_len ≤ max_packet_line }
    ensures items { out.new.items ≡ out.old.items ++ members_text (raw_telegram_members shown.now) }
    ensures len { array_vec_len out.new ≤ array_vec_len out.old + max_raw_telegram_members_len }
{
    put(b"\"payload\":", out);
    put_payload(shown.telegram.payload(), out);
    put(b",\"rorg\":", out);
    put_byte(shown.telegram.rorg(), out);
    put(b",\"status\":", out);
    put_byte(shown.telegram.status(), out);
}

// A packet without a telegram: its type, and the number of bytes of its data.
fn put_non_telegram_members(kind: u8, size: u16, out: &mut PacketBuffer)
    requires { array_vec_len out.old + 25 ≤ max_packet_line }
    ensures items { out.new.items ≡ out.old.items ++ members_text (non_telegram_members kind size) }
    ensures len { array_vec_len out.new ≤ array_vec_len out.old + 25 }
{
    put(b"\"kind\":", out);
    put_number(u16::from(kind), out);
    put(b",\"size\":", out);
    put_number(size, out);
}

fn put_packet(packet: &ShownPacket, out: &mut PacketBuffer)
    requires { array_vec_len out.old + max_reception_and_sender_members_len + max_raw_telegram_members_len + 1
        ≤ max_packet_line }
    ensures items { out.new.items ≡ out.old.items ++ members_text (packet_members packet.now) }
    ensures len { array_vec_len out.new
        ≤ array_vec_len out.old + max_reception_and_sender_members_len + max_raw_telegram_members_len
        + 1 }
{
    match packet {
        ShownPacket::Telegram(shown) => {
            put_reception_and_sender_members(shown, out);
            put(b",", out);
            put_raw_telegram_members(shown, out);
        }
        ShownPacket::WithoutTelegram { kind, size } => put_non_telegram_members(*kind, *size, out),
    }
}

// The type of the line, and the reason.
fn put_type_and_why_members(why: HandlingReason, out: &mut PacketBuffer)
    requires { array_vec_len out.old + max_type_and_why_members_len ≤ max_packet_line }
    ensures items { out.new.items ≡ out.old.items ++ members_text (type_and_why_members why) }
    ensures len { array_vec_len out.new ≤ array_vec_len out.old + max_type_and_why_members_len }
{
    put(b"\"type\":\"packet\",\"why\":", out);
    put_string(reason_word(why).as_bytes(), out);
}

/// The line that shows what a packet was, and one word for why it was handled the way it was. For a telegram: the
/// signal strength in dBm, the destination ID (`null` for a broadcast), its sender's profile, ID and manufacturer ID,
/// its payload, kind and status; `null` if something is not known. For any other packet: its type, and the number of
/// bytes of its data.
///
/// `{"dbm":-45,"dest":null,"eep":"D5-00-01","id":"01800ABC","maker":null,"payload":"09","rorg":"D5","status":"00",`
/// `"type":"packet","why":"read"}`, `{"kind":4,"size":12,"type":"packet","why":"other_type"}`
///
/// Needs no memory; the array has capacity for each line.
pub fn packet_line(line: &PacketLine) -> ArrayVec<u8, MAX_PACKET_LINE>
    ensures { result.items ≡ packet_text line.now }
{
    let mut out = ArrayVec::new();
    put(b"{", &mut out);
    put_packet(&line.packet, &mut out);
    put(b",", &mut out);
    put_type_and_why_members(line.why, &mut out);
    put(b"}\n", &mut out);
    out
}
