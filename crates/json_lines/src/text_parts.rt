//! The parts of a packet line, each appended in a fixed array, which needs no memory.

ghost use Rattle.std.specs.Prelude.{◌≡◌, ◌+◌, ◌≤◌, ◌++◌, length, decimal};
ghost use Rattle.arrayvec.specs.ArrayVec.{array_vec_len};
ghost use Rattle.hex.specs.Hex.{encode_upper};
ghost use Rattle.json_lines.specs.Lines.{byte_text, dbm_text, in_quotes, text_or_null, eep_string};
ghost use Rattle.json_lines.specs.PacketLines.{id_string, max_packet_line};
ghost use Rattle.json_lines.specs.ShownTelegram.{shown_destination};

use crate::digits::{byte_digits, eep_digits, id_digits};
use crate::limits::MAX_PACKET_LINE;
use arrayvec::ArrayVec;
use erp1_telegrams::{BROADCAST, Eep};
use itoa::Buffer;

// The packet line so far.
pub(crate) type PacketBuffer = ArrayVec<u8, MAX_PACKET_LINE>;

// A part, unchanged.
pub(crate) fn put(piece: &[u8], out: &mut PacketBuffer)
    requires { array_vec_len out.old + length piece.now ≤ max_packet_line }
    ensures items { out.new.items ≡ out.old.items ++ piece.now }
    ensures len { array_vec_len out.new ≡ array_vec_len out.old + length piece.now }
{
    // It fits, so there is no error.
    let _ = out.try_extend_from_slice(piece);
}

// A part in quotation marks.
pub(crate) fn put_string(piece: &[u8], out: &mut PacketBuffer)
    requires { array_vec_len out.old + length piece.now + 2 ≤ max_packet_line }
    ensures items { out.new.items ≡ out.old.items ++ in_quotes piece.now }
    ensures len { array_vec_len out.new ≡ array_vec_len out.old + length piece.now + 2 }
{
    out.push(b'"');
    put(piece, out);
    out.push(b'"');
}

pub(crate) fn put_byte(byte: u8, out: &mut PacketBuffer)
    requires { array_vec_len out.old + 4 ≤ max_packet_line }
    ensures items { out.new.items ≡ out.old.items ++ in_quotes (byte_text byte) }
    ensures len { array_vec_len out.new ≡ array_vec_len out.old + 4 }
{
    put_string(&byte_digits(byte), out);
}

pub(crate) fn put_id(id: u32, out: &mut PacketBuffer)
    requires { array_vec_len out.old + 10 ≤ max_packet_line }
    ensures items { out.new.items ≡ out.old.items ++ id_string id }
    ensures len { array_vec_len out.new ≡ array_vec_len out.old + 10 }
{
    put_string(&id_digits(id), out);
}

// The destination ID of a telegram, or null for a broadcast.
pub(crate) fn put_dest(dest: u32, out: &mut PacketBuffer)
    requires { array_vec_len out.old + 10 ≤ max_packet_line }
    ensures items { out.new.items ≡ out.old.items ++ text_or_null id_string (shown_destination dest) }
    ensures len { array_vec_len out.new ≤ array_vec_len out.old + 10 }
{
    if dest == BROADCAST {
        put(b"null", out);
    } else {
        put_id(dest, out);
    }
}

// A profile, or null.
pub(crate) fn put_profile_or_null(eep: Option<Eep>, out: &mut PacketBuffer)
    requires { array_vec_len out.old + 10 ≤ max_packet_line }
    ensures items { out.new.items ≡ out.old.items ++ text_or_null eep_string eep }
    ensures len { array_vec_len out.new ≤ array_vec_len out.old + 10 }
{
    match eep {
        Some(eep) => put_string(&eep_digits(eep), out),
        None => put(b"null", out),
    }
}

pub(crate) fn put_number(n: u16, out: &mut PacketBuffer)
    requires { array_vec_len out.old + 5 ≤ max_packet_line }
    ensures items { out.new.items ≡ out.old.items ++ decimal n }
    ensures len { array_vec_len out.new ≤ array_vec_len out.old + 5 }
{
    put(Buffer::new().format(n).as_bytes(), out);
}

// A manufacturer ID, or null.
pub(crate) fn put_maker(maker: Option<u16>, out: &mut PacketBuffer)
    requires { array_vec_len out.old + 5 ≤ max_packet_line }
    ensures items { out.new.items ≡ out.old.items ++ text_or_null decimal maker }
    ensures len { array_vec_len out.new ≤ array_vec_len out.old + 5 }
{
    match maker {
        Some(maker) => put_number(maker, out),
        None => put(b"null", out),
    }
}

fn put_strength(byte: u8, out: &mut PacketBuffer)
    requires { array_vec_len out.old + 4 ≤ max_packet_line }
    ensures items { out.new.items ≡ out.old.items ++ dbm_text byte }
    ensures len { array_vec_len out.new ≤ array_vec_len out.old + 4 }
{
    put(Buffer::new().format(0 - i16::from(byte)).as_bytes(), out);
}

// The signal strength, or null.
pub(crate) fn put_dbm(dbm: Option<u8>, out: &mut PacketBuffer)
    requires { array_vec_len out.old + 4 ≤ max_packet_line }
    ensures items { out.new.items ≡ out.old.items ++ text_or_null dbm_text dbm }
    ensures len { array_vec_len out.new ≤ array_vec_len out.old + 4 }
{
    match dbm {
        Some(byte) => put_strength(byte, out),
        None => put(b"null", out),
    }
}

pub(crate) fn put_payload(payload: &[u8], out: &mut PacketBuffer)
    requires short { length payload.now ≤ 14 }
    requires fits { array_vec_len out.old + 30 ≤ max_packet_line }
    ensures items { out.new.items ≡ out.old.items ++ in_quotes (encode_upper payload.now) }
    ensures len { array_vec_len out.new ≤ array_vec_len out.old + 30 }
{
    out.push(b'"');
    for byte in payload {
        put(&byte_digits(*byte), out);
    }
    out.push(b'"');
}
