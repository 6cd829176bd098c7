//! Reading and writing headers and whole packets.
ghost use Rattle.std.specs.Prelude.{◌≡◌, ◌≢◌, ℕ, ◌+◌, ◌*◌, ◌-◌, ◌++◌, length, IfSome, IfNone, IfOk, IfErr, OnOk, OnErr};
ghost use Rattle.std.specs.Prelude.{Ok, Err};
ghost use Rattle.esp3_frames.specs.PacketsAndRest.{front_of};
ghost use Rattle.esp3_frames.specs.PacketsAndRest.Front.{Whole};
ghost use Rattle.esp3_frames.specs.Packet;
ghost use Rattle.esp3_frames.specs.Packet.{Packet, IsPacket, spelling};
ghost use Rattle.esp3_frames.specs.Outcome.{packet_of, decoded_header, header_of, write_result};
ghost use Rattle.arrayvec.specs.ArrayVec.{array_vec_len};

use crate::check8;
use crate::limits::{MAX_DATA, MAX_OPTIONAL_DATA};
use arrayvec::ArrayVec;
use thiserror::Error;

/// The first byte of each packet.
pub const SYNC_BYTE: u8 = 0x55;

/// The contents of the first six bytes of a packet.
#[derive(Clone, Copy, Debug, PartialEq, Eq)]
pub struct Header {
    /// The length of the data, in bytes.
    pub data_len: u16,
    /// The length of the optional data, in bytes.
    pub opt_len: u8,
    /// The packet type.
    pub kind: u8,
}

/// Why six bytes are not the beginning of a packet. The first that applies is reported, in this order.
#[derive(Clone, Copy, Debug, PartialEq, Eq, Error)]
pub enum HeaderFault {
    /// The first byte is not the sync byte `55`.
    #[error("no sync byte")]
    NotSync,
    /// The sixth byte is not the CRC of the four before it.
    #[error("wrong check byte of the header")]
    HeaderCheck,
    /// Both lengths are 0. Own choice: there is no such packet.
    #[error("empty packet")]
    EmptyPacket,
}

/// Whether a header may announce these lengths: that of the data in two bytes, the high byte first, and that of the
/// optional data. Own choice: a packet is not empty.
pub fn announces_data(high: u8, low: u8, opt_len: u8) -> bool
    ensures { result ≡ Packet.announces_data high low opt_len }
{
    high > 0 || low > 0 || opt_len > 0
}

// The first fault of the first six bytes of a packet.
fn check_header(b: &[u8; 6]) -> Result<(), HeaderFault>
    ensures ok { IfOk result (λ _. header_of b.now ≡ Ok (decoded_header b.now)) }
    ensures err { IfErr result (λ fault. header_of b.now ≡ Err fault) }
{
    if b[0] != SYNC_BYTE {
        return Err(HeaderFault::NotSync);
    }
    if b[5] != check8(&b[1..5]) {
        return Err(HeaderFault::HeaderCheck);
    }
    if !announces_data(b[1], b[2], b[3]) {
        return Err(HeaderFault::EmptyPacket);
    }
    Ok(())
}

// The lengths and the type in the first six bytes of a packet, which may have faults.
fn decode_header(b: &[u8; 6]) -> Header
    ensures { result ≡ decoded_header b.now }
{
    Header {
        data_len: u16::from_be_bytes([b[1], b[2]]),
        opt_len: b[3],
        kind: b[4],
    }
}

/// Reads the sync byte, the header and its CRC: the first six bytes of a packet. Of several faults it returns the
/// first.
///
/// EnOcean Serial Protocol 3, "Packet structure".
pub fn read_header(b: &[u8; 6]) -> Result<Header, HeaderFault>
    ensures { result ≡ header_of b.now }
{
    match check_header(b) {
        Ok(()) => Ok(decode_header(b)),
        Err(fault) => Err(fault),
    }
}

/// A packet whose data and optional data are borrowed.
#[derive(Clone, Copy, Debug, PartialEq, Eq)]
pub struct PacketRef<'a> {
    /// The packet type.
    pub kind: u8,
    /// The data: at most `MAX_DATA` bytes.
    pub body: &'a [u8],
    /// The optional data: at most `MAX_OPTIONAL_DATA` bytes.
    pub opt: &'a [u8],
}

/// The packet at the beginning of a slice, and its length in bytes. `None` if the slice begins with no whole packet.
///
/// EnOcean Serial Protocol 3, "Packet structure".
pub fn packet_at_start(b: &[u8]) -> Option<(PacketRef<'_>, usize)>
    ensures some { IfSome result (λ r. (front_of b.now ≡ Whole (packet_of r.0))
        × (r.1 ≡ length r.0.body.now + length r.0.opt.now + 7)) }
    ensures none { IfNone result ((p : Packet) → front_of b.now ≢ Whole p) }
{
    let (front, rest) = b.split_first_chunk::<6>()?;
    let header = decode_header(front);
    let len = header.data_len as usize + header.opt_len as usize;
    // If the packet is not whole, its header is not checked, so a caller that keeps the bytes checks it only once.
    if rest.len() <= len {
        return None;
    }
    let Ok(()) = check_header(front) else {
        return None;
    };
    if rest[len] != check8(&rest[..len]) {
        return None;
    }
    let (body, opt) = rest[..len].split_at(header.data_len as usize);
    let packet = PacketRef {
        kind: header.kind,
        body,
        opt,
    };
    Some((packet, len + 7))
}

/// Reads a slice that is exactly one packet, from its sync byte to its last CRC. Any other slice gives `None`.
///
/// EnOcean Serial Protocol 3, "Packet structure".
pub fn read_packet(b: &[u8]) -> Option<PacketRef<'_>>
    ensures some { IfSome result (λ r. IsPacket (packet_of r) b.now) }
    ensures none { IfNone result ((p : Packet) → ¬ IsPacket p b.now) }
{
    match packet_at_start(b) {
        Some((packet, len)) if len == b.len() => Some(packet),
        _ => None,
    }
}

/// Why a packet is not written. The first that applies is reported, in this order.
#[derive(Clone, Copy, Debug, PartialEq, Eq, Error)]
pub enum PacketFault {
    /// There is neither data nor optional data.
    #[error("empty packet")]
    EmptyPacket,
    /// The data is longer than `MAX_DATA`, or the optional data longer than `MAX_OPTIONAL_DATA`.
    #[error("packet too long")]
    TooLong,
    /// The packet does not fit after the contents of the buffer.
    #[error("no room for the packet")]
    NoRoom,
}

/// Appends one packet with its CRCs. Of several faults it returns the first, and leaves the buffer as it was.
///
/// EnOcean Serial Protocol 3, "Packet structure".
pub fn write_packet<const CAP: usize>(
    kind: u8,
    body: &[u8],
    opt: &[u8],
    out: &mut ArrayVec<u8, CAP>,
) -> Result<(), PacketFault>
    ensures outcome { let p : Packet = record { kind = kind; body = body.now; opt = opt.now } in
        result ≡ write_result p (CAP - array_vec_len out.old) }
    ensures ok { let p : Packet = record { kind = kind; body = body.now; opt = opt.now } in
        OnOk result (out.new.items ≡ out.old.items ++ spelling p) }
    ensures packet { let p : Packet = record { kind = kind; body = body.now; opt = opt.now } in
        OnOk result (IsPacket p (spelling p)) }
    ensures err { OnErr result (out.new ≡ out.old) }
{
    if body.is_empty() && opt.is_empty() {
        return Err(PacketFault::EmptyPacket);
    }
    if body.len() > MAX_DATA as usize || opt.len() > MAX_OPTIONAL_DATA as usize {
        return Err(PacketFault::TooLong);
    }
    if out.remaining_capacity() < body.len() + opt.len() + 7 {
        return Err(PacketFault::NoRoom);
    }
    let [high, low] = (body.len() as u16).to_be_bytes();
    let header = [high, low, opt.len() as u8, kind];
    let start = out.len() + 6;
    out.push(SYNC_BYTE);
    let _fits = out.try_extend_from_slice(&header);
    out.push(check8(&header));
    let _fits = out.try_extend_from_slice(body);
    let _fits = out.try_extend_from_slice(opt);
    out.push(check8(&out[start..]));
    Ok(())
}
