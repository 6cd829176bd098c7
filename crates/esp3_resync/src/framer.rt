//! The framer: extracts packets from the bytes of a serial line.
ghost use Rattle.std.specs.Prelude.{◌≡◌, ◌≢◌, ◌+◌, ℕ, ◌<◌, ◌≤◌, ◌↔◌, [], ◌∷◌, ◌++◌, length, take, vec_capacity, Some};
ghost use Rattle.std.specs.Prelude.{None, IsTrue, IsSome, IfOk, IfSome, IfNone};
ghost use Rattle.std.specs.Bool.{OnTrue, OnFalse};
ghost use Rattle.std.specs.Option.{option_map};
ghost use Rattle.esp3_frames.specs.Framing.{MayBecomePacket};
ghost use Rattle.esp3_frames.specs.PacketsAndRest.{front_of, packets_and_rest};
ghost use Rattle.esp3_frames.specs.PacketsAndRest.Front.{Whole};
ghost use Rattle.esp3_frames.specs.Outcome.{packet_of};
ghost use Rattle.esp3_frames.specs.Packet.{Packet, max_data, max_packet};
ghost use Rattle.esp3_resync.specs.BufferedPacket.{packet_with};

use crate::front::{WindowFront, announced_data_len, resync, resync_whole};
use crate::runs::{len_before_sync, push_header_bytes};
use crate::window::Window;
use esp3_frames::{Header, MAX_PACKET, PacketRef, packet_at_start};
use std::alloc::{AllocError, Global};
use std::marker::Model;

// The packet with this header whose data, followed by its optional data, is `bytes`.
fn split_packet(bytes: &[u8], header: Header) -> PacketRef<'_>
    requires { header.data_len + header.opt_len ≡ length bytes.now }
    ensures { packet_of result ≡ packet_with header bytes.now }
{
    let (body, opt) = bytes.split_at(header.data_len as usize);
    PacketRef {
        kind: header.kind,
        body,
        opt,
    }
}

/// A buffer for one packet: the one that a framer returned last, or none yet.
#[derive(Drop)]
pub struct PacketBuf {
    // The data of the packet, followed by its optional data.
    bytes: Vec<u8>,
    // The header: the lengths of the two, and the type.
    header: Option<Header>,
}

impl Model for PacketBuf {
    ghost use Rattle.std.specs.Prelude.{Option};
    ghost use Rattle.esp3_frames.specs.Packet.{Packet};
    ghost use Rattle.esp3_resync.specs.BufferedPacket.{IsPacketBuffer, buffered_packet};

    ghost Value = { Option Packet };

    ghost view = { λ b. buffered_packet b.header b.bytes.items };

    ghost invariant = { λ b. IsPacketBuffer b.bytes b.header };
}

impl PacketBuf {
    /// A buffer with no packet yet. Allocates the memory for every packet that may come; fails if there is none.
    pub fn new(alloc: Global) -> Result<PacketBuf, AllocError>
        ensures { IfOk result (λ b. b ≡ None) }
    {
        Ok(PacketBuf {
            bytes: Vec::with_capacity(alloc, MAX_PACKET)?,
            header: None,
        })
    }

    /// The packet that was returned last; its data is at most 65,535 bytes. Does not allocate.
    pub fn packet(&self) -> Option<PacketRef<'_>>
        ensures packet { option_map packet_of result ≡ self.now }
        ensures short { IfSome result (λ packet. length packet.body.now ≤ max_data) }
    {
        let header = self.header?;
        Some(split_packet(&self.bytes, header))
    }
}

/// The bytes of a stream after the packets that were returned: the packets that are ready, and the rest after them,
/// which may become a packet.
///
/// EnOcean Serial Protocol 3, "UART synchronization (packet detection)". Own choice: after a rejected sync byte the
/// search continues at the very next byte, so no byte is lost.
#[derive(Drop)]
pub struct Framer {
    window: Window,
    // What is at the front of the window.
    front: WindowFront,
}

impl Model for Framer {
    ghost use Rattle.esp3_frames.specs.PacketsAndRest.{PacketsAndRest, packets_and_rest};
    ghost use Rattle.esp3_resync.specs.private.WindowFronts.{IsWindowFront};

    ghost Value = { PacketsAndRest };

    ghost view = { λ f. packets_and_rest f.window };

    ghost invariant = { λ f. IsWindowFront f.front f.window };
}

impl Framer {
    /// A framer that has received no byte. Allocates all the memory that it will ever use; fails if there is none.
    pub fn new(alloc: Global) -> Result<Framer, AllocError>
        ensures { IfOk result (λ f. f ≡ record { ready = []; rest = [] }) }
    {
        Ok(Framer {
            window: Window::new(alloc)?,
            front: WindowFront::Empty,
        })
    }

    /// Whether a packet is ready. The rest may become one more packet.
    pub fn is_ready(&self) -> bool
        ensures ready { IsTrue result ↔ (0 < length self.now.ready) }
        ensures rest { MayBecomePacket self.now.rest }
    {
        matches!(self.front, WindowFront::WholePacket(_))
    }

    /// Processes the next byte of the stream. One byte can make several packets ready. Does not allocate.
    pub fn push(&mut self, b: u8)
        requires { length self.old.ready ≡ 0 }
        ensures { self.new ≡ packets_and_rest (self.old.rest ++ b ∷ []) }
    {
        let _count = self.push_some(&[b]);
    }

    /// Processes the next bytes of the stream up to the one that makes a packet ready, or all if none does, and returns
    /// their number. Does not allocate.
    pub fn push_until_ready(&mut self, bytes: &[u8]) -> usize
        requires { length self.old.ready ≡ 0 }
        ensures within { result ≤ length bytes.now }
        ensures some { 0 < length bytes.now → 0 < result }
        ensures taken { self.new ≡ packets_and_rest (self.old.rest ++ take result bytes.now) }
        ensures up_to { length self.new.ready ≡ 0 → result ≡ length bytes.now }
        ensures before { (k : ℕ) → k < result → length (packets_and_rest (self.old.rest ++ take k bytes.now)).ready
            ≡ 0 }
    {
        // The proof uses what the framer holds at the start.
        let _held = &self.window;
        let mut count = 0;
        while count < bytes.len() {
            count += self.push_some(&bytes[count..]);
            if self.is_ready() {
                return count;
            }
        }
        count
    }

    // Processes at least one of the next bytes of the stream, and none after the one that makes a packet ready, and
    // returns their number.
    fn push_some(&mut self, bytes: &[u8]) -> usize
        requires none { length self.old.ready ≡ 0 }
        requires some { 0 < length bytes.now }
        ensures within { result ≤ length bytes.now }
        ensures some { 0 < result }
        ensures taken { self.new ≡ packets_and_rest (self.old.rest ++ take result bytes.now) }
        ensures before { (k : ℕ) → k < result → length (packets_and_rest (self.old.rest ++ take k bytes.now)).ready
            ≡ 0 }
    {
        if let WindowFront::PartialPacket(header) = self.front {
            let missing = announced_data_len(header) + 7 - self.window.len();
            if bytes.len() < missing {
                self.window.extend(bytes);
                return bytes.len();
            }
            self.window.extend(&bytes[..missing]);
            self.front = resync_whole(&mut self.window, header);
            return missing;
        }
        if let WindowFront::Empty = self.front {
            let count = len_before_sync(bytes);
            if count > 0 {
                return count;
            }
        }
        let count = push_header_bytes(&mut self.window, bytes);
        self.front = resync(&mut self.window);
        count
    }

    /// The packet with which the next bytes of the stream begin, and its length in bytes. `None` if a byte is held, or
    /// if the bytes begin with no whole packet. If the packet's bytes were pushed and the packet taken, the framer
    /// would be as it is now. Copies nothing.
    pub fn borrow_packet<'b>(&self, bytes: &'b [u8]) -> Option<(PacketRef<'b>, usize)>
        requires { length self.now.ready ≡ 0 }
        ensures within { IfSome result (λ r. (0 < r.1) × (r.1 ≤ length bytes.now)) }
        ensures short { IfSome result (λ r. length r.0.body.now ≤ max_data) }
        ensures taken { IfSome result (λ r. packets_and_rest (self.now.rest ++ take r.1 bytes.now)
            ≡ record { ready = packet_of r.0 ∷ []; rest = self.now.rest }) }
        ensures before { IfSome result (λ r. (k : ℕ) → k < r.1 →
            length (packets_and_rest (self.now.rest ++ take k bytes.now)).ready ≡ 0) }
        ensures none { IfNone result (self.now.rest ≡ [] → (p : Packet) → front_of bytes.now ≢ Whole p) }
    {
        let WindowFront::Empty = self.front else {
            return None;
        };
        packet_at_start(bytes)
    }

    // Moves the data and the optional data of the first packet that is ready into `to`, and returns its header. If
    // there is none, nothing changes.
    fn move_ready(&mut self, to: &mut Vec<u8>) -> Option<Header>
        requires { max_packet ≤ vec_capacity to.old }
        ensures ready { IsSome result ↔ (0 < length self.old.ready) }
        ensures room { max_packet ≤ vec_capacity to.new }
        ensures taken { IfSome result (λ header. (header.data_len + header.opt_len ≡ length to.new.items)
            × (self.old.ready ≡ packet_with header to.new.items ∷ self.new.ready) × (self.new.rest ≡ self.old.rest)) }
        ensures none { IfNone result ((self.new ≡ self.old) × (to.new ≡ to.old)) }
    {
        let WindowFront::WholePacket(header) = self.front else {
            return None;
        };
        self.window.skip(6);
        self.window.move_into(announced_data_len(header), to);
        self.window.skip(1);
        self.front = resync(&mut self.window);
        Some(header)
    }

    /// Moves the first packet that is ready into `out`, and returns whether there was one. If there is none, nothing
    /// changes. Does not allocate.
    pub fn take(&mut self, out: &mut PacketBuf) -> bool
        ensures ready { IsTrue result ↔ (0 < length self.old.ready) }
        ensures taken { OnTrue result ((p : Packet) × (out.new ≡ Some p) × (self.old.ready ≡ p ∷ self.new.ready)
            × (self.new.rest ≡ self.old.rest)) }
        ensures none { OnFalse result ((self.new ≡ self.old) × (out.new ≡ out.old)) }
    {
        match self.move_ready(&mut out.bytes) {
            Some(header) => {
                out.header = Some(header);
                true
            }
            None => false,
        }
    }

    /// Does the same as `take`, and returns the packet.
    pub fn take_packet<'p>(&mut self, out: &'p mut PacketBuf) -> Option<PacketRef<'p>>
        ensures ready { IsSome result ↔ (0 < length self.old.ready) }
        ensures taken { IfSome result (λ packet. (self.old.ready ≡ packet_of packet ∷ self.new.ready)
            × (self.new.rest ≡ self.old.rest)) }
        ensures short { IfSome result (λ packet. length packet.body.now ≤ max_data) }
        ensures none { IfNone result (self.new ≡ self.old) }
    {
        let header = self.move_ready(&mut out.bytes)?;
        out.header = Some(header);
        Some(split_packet(&out.bytes, header))
    }
}
