//! Reading and writing telegrams in packets.
ghost use Rattle.std.specs.Prelude.{◌≡◌, ◌≤◌, ◌+◌, ◌-◌, ◌++◌, length, nat_lt, if◌then◌else◌, Ok, Err, OnOk, OnErr};
ghost use Rattle.arrayvec.specs.ArrayVec.{array_vec_len};
ghost use Rattle.esp3_frames.specs.Packet.{IsPacket, spelling};
ghost use Rattle.esp3_frames.specs.Outcome.{packet_of};
ghost use Rattle.erp1_telegrams.specs.Telegram.{telegram_of, destination, dbm_of_optional, radio_packet};
ghost use Rattle.erp1_telegrams.specs.Telegram.{max_radio_packet};

use crate::telegram::{BROADCAST, Telegram, TelegramFault, is_decoded_rorg};
use arrayvec::ArrayVec;
use esp3_frames::packet_type::RADIO_ERP1;
use esp3_frames::{PacketFault, PacketRef, write_packet};

/// Reads the telegram that a packet carries (EnOcean Serial Protocol 3, "Packet type 1: RADIO_ERP1"). Of several faults
/// it returns the first, in this order: `NotRadio`, `BadLength` if there is no data, `OtherKind`, and `BadLength` if
/// the payload does not have a length of its RORG. Optional data shorter than seven bytes is read as a broadcast
/// without dBm.
pub fn read(p: &PacketRef<'_>) -> Result<Telegram, TelegramFault>
    ensures { result ≡ telegram_of (packet_of p.now) }
{
    if p.kind != RADIO_ERP1 {
        return Err(TelegramFault::NotRadio);
    }
    let [rorg, rest @ ..] = p.body else {
        return Err(TelegramFault::BadLength);
    };
    let [payload @ .., a, b, c, d, status] = rest else {
        return Err(if is_decoded_rorg(*rorg) {
            TelegramFault::BadLength
        } else {
            TelegramFault::OtherKind
        });
    };
    let sender = u32::from_be_bytes([*a, *b, *c, *d]);
    let (dest, dbm) = destination_and_dbm(p.opt);
    Telegram::new(*rorg, payload, sender, *status, dest, dbm)
}

// The destination and the dBm of the optional data.
fn destination_and_dbm(opt: &[u8]) -> (u32, Option<u8>)
    ensures dest { result.0 ≡ destination opt.now }
    ensures dbm { result.1 ≡ dbm_of_optional opt.now }
{
    match opt {
        [_, a, b, c, d, dbm, _, ..] => (u32::from_be_bytes([*a, *b, *c, *d]), Some(*dbm)),
        _ => (BROADCAST, None),
    }
}

/// Appends the packet in which the telegram is sent: with 3 subtelegrams, dBm FF and security level 0, and with the
/// telegram's own status. `NoRoom` if the packet does not fit after the contents of `out`, which then does not change.
/// A packet has at most 34 bytes, so it fits after 30.
pub fn write(t: &Telegram, out: &mut ArrayVec<u8, 64>) -> Result<(), PacketFault>
    ensures outcome { result ≡ (if nat_lt (64 - array_vec_len out.old) (length (spelling (radio_packet t.now)))
        then Err PacketFault.NoRoom else Ok tt) }
    ensures ok { OnOk result (out.new.items ≡ out.old.items ++ spelling (radio_packet t.now)) }
    ensures packet { IsPacket (radio_packet t.now) (spelling (radio_packet t.now)) }
    ensures room { array_vec_len out.old + max_radio_packet ≤ 64 → result ≡ Ok tt }
    ensures err { OnErr result (out.new ≡ out.old) }
{
    let mut body = ArrayVec::<u8, 20>::new();
    body.push(t.rorg());
    let _fits = body.try_extend_from_slice(t.payload());
    let _fits = body.try_extend_from_slice(&t.sender().to_be_bytes());
    body.push(t.status());
    let [a, b, c, d] = t.dest().to_be_bytes();
    write_packet(RADIO_ERP1, &body, &[3, a, b, c, d, 0xFF, 0], out)
}
