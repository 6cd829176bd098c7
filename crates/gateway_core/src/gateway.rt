//! The gateway.
ghost use Rattle.std.specs.Prelude.{◌≡◌, ◌≢◌, ◌↔◌, ◌<◌, ◌≤◌, ℕ, [], ◌∷◌, ◌++◌, List, length, take, true, false};
ghost use Rattle.std.specs.Prelude.{IfErr, IfOk, IfSome, IfNone, MatchBool, Some};
ghost use Rattle.std.specs.Option.{option_map};
ghost use Rattle.esp3_frames.specs.PacketsAndRest.{front_of, packets_in};
ghost use Rattle.esp3_frames.specs.PacketsAndRest.Front.{Whole};
ghost use Rattle.esp3_frames.specs.Packet.{Packet};
ghost use Rattle.esp3_frames.specs.Framing.{MayBecomePacket};
ghost use Rattle.erp1_telegrams.specs.Address;
ghost use Rattle.gateway_core.specs.Calls.{Bytes as BytesCall, Next as NextCall, Order as OrderCall};
ghost use Rattle.gateway_core.specs.Calls.{Transition, GatewayValue, new_gateway_value};
ghost use Rattle.gateway_core.specs.Replies.{answer_of, packet_answer};
ghost use Rattle.gateway_core.specs.Step.{with_explanation};

use crate::handled::HandledPacket;
use crate::handler::Handler;
use crate::reply::Reply;
use erp1_telegrams::is_base_id;
use esp3_resync::{Framer, PacketBuf};
use learned_devices::DeviceStore;
use std::alloc::{AllocError, Global};
use std::marker::Model;
use thiserror::Error;

/// Why a gateway could not be made.
#[derive(Clone, Copy, Debug, PartialEq, Eq, Error)]
pub enum StartFault {
    /// The ID is not a base ID.
    #[error("not a base ID")]
    BadBase,
    /// Out of memory for the framer.
    #[error("there is no memory")]
    Memory,
}

impl From<AllocError> for StartFault {
    ghost use Rattle.gateway_core.specs.declared.gateway.StartFault.TheVariants.{Memory};

    ghost from_gives = { λ _ e. e ≡ Memory };

    fn from(_error: AllocError) -> StartFault {
        StartFault::Memory
    }
}

/// A gateway over a device store: what it knows, the ready packets, and the rest of the byte stream, which may become
/// one more packet.
#[derive(Drop)]
pub struct GatewayOver<S> {
    pub(crate) handler: Handler<S>,
    framer: Framer,
    packet: PacketBuf,
}

impl<S> Model for GatewayOver<S> {
    ghost use Rattle.gateway_core.specs.Calls.{GatewayValue};
    ghost use Rattle.gateway_core.specs.private.Codes.{gateway_code};

    ghost Value = { GatewayValue S };

    ghost coded = { gateway_code S.code };

    ghost view = { λ gateway.
        record {
          handler = gateway.handler;
          ready = gateway.framer.ready;
          rest = gateway.framer.rest;
        } };
}

impl<S: DeviceStore + Drop> GatewayOver<S> {
    /// Returns a gateway over this device store, for a radio module with this base ID. Errors, in this order:
    /// `BadBase`, `Memory`.
    pub fn new(alloc: Global, registry: S, base: u32) -> Result<GatewayOver<S>, StartFault>
        ensures bad_base { (result ≡ Err StartFault.BadBase) ↔ (Address.is_base_id base ≡ false) }
        ensures ok { IfOk result (λ gateway. gateway ≡ new_gateway_value base registry) }
    {
        if !is_base_id(base) {
            return Err(StartFault::BadBase);
        }
        match GatewayOver::with_base_id(alloc, registry, base) {
            Ok(gateway) => Ok(gateway),
            Err((error, _)) => Err(error.into()),
        }
    }
}

fn new_buffers(alloc: Global) -> Result<(Framer, PacketBuf), AllocError>
    ensures { IfOk result (λ buffers. buffers.0 ≡ record { ready = []; rest = [] }) }
{
    Ok((Framer::new(alloc)?, PacketBuf::new(alloc)?))
}

impl<S: DeviceStore> GatewayOver<S> {
    /// The same for an ID that is known to be a base ID. If there is no memory for the framer or the packet buffer, it
    /// fails and returns the device store.
    pub fn with_base_id(
        alloc: Global,
        registry: S,
        base: u32,
    ) -> Result<GatewayOver<S>, (AllocError, S)>
        requires { Address.is_base_id base ≡ true }
        ensures new { IfOk result (λ gateway. gateway ≡ new_gateway_value base registry) }
        ensures returned { IfErr result (λ e. e.1 ≡ registry) }
    {
        match new_buffers(alloc) {
            Ok((framer, packet)) => Ok(GatewayOver {
                handler: Handler::new(alloc, registry, base),
                framer,
                packet,
            }),
            Err(error) => Err((error, registry)),
        }
    }
}

impl<S: DeviceStore> GatewayOver<S> {
    /// Whether a packet is ready. The bytes after it may become one more.
    pub fn is_ready(&self) -> bool
        ensures ready { MatchBool result (self.now.ready ≢ []) (self.now.ready ≡ []) }
        ensures rest { MayBecomePacket self.now.rest }
    {
        self.framer.is_ready()
    }

    /// Takes the next byte of the serial line. One byte can make several packets ready. Needs no memory.
    pub fn byte(&mut self, b: u8)
        requires { self.old.ready ≡ [] }
        ensures { Transition S.store_state self.old (BytesCall (b ∷ [])) self.new }
    {
        self.framer.push(b);
    }

    /// Takes the next bytes of the serial line, at most up to the one that makes a packet ready, and returns how many.
    /// Needs no memory.
    pub fn bytes(&mut self, bytes: &[u8]) -> usize
        requires { self.old.ready ≡ [] }
        ensures within { result ≤ length bytes.now }
        ensures some { 0 < length bytes.now → 0 < result }
        ensures taken { Transition S.store_state self.old (BytesCall (take result bytes.now)) self.new }
        ensures up_to { self.new.ready ≡ [] → result ≡ length bytes.now }
        ensures before { (k : ℕ) → k < result → packets_in (self.old.rest ++ take k bytes.now) ≡ [] }
    {
        self.framer.push_until_ready(bytes)
    }

    /// Handles the packet at the front of the next bytes of the serial line, without a copy, as `bytes` and then
    /// `handle_next` do. Returns it and its length in bytes, or `None`, with nothing taken, if the gateway already
    /// holds a byte or no whole packet is at the front.
    pub fn handle_front_packet(&mut self, bytes: &[u8]) -> Option<(HandledPacket, usize)>
        requires { self.old.ready ≡ [] }
        ensures within { IfSome result (λ r. (0 < r.1) × (r.1 ≤ length bytes.now)) }
        ensures taken { IfSome result (λ r. (mid : GatewayValue S)
            × Transition S.store_state self.old (BytesCall (take r.1 bytes.now)) mid
            × Transition S.store_state mid (NextCall (Some (packet_answer r.0))) self.new) }
        ensures before { IfSome result (λ r. (k : ℕ) → k < r.1 →
            packets_in (self.old.rest ++ take k bytes.now) ≡ []) }
        ensures ready { IfSome result (λ r. self.new.ready ≡ []) }
        ensures none { IfNone result ((self.new ≡ self.old)
            × (self.old.rest ≡ [] → (p : Packet) → front_of bytes.now ≢ Whole p)) }
    {
        let (packet, count) = self.framer.borrow_packet(bytes)?;
        Some((self.handler.packet(&packet), count))
    }

    /// Handles the first ready packet and returns it, or `None` if none is ready.
    pub fn handle_next(&mut self) -> Option<HandledPacket>
        ensures { Transition S.store_state self.old (NextCall (option_map packet_answer result)) self.new }
    {
        let packet = self.framer.take_packet(&mut self.packet)?;
        Some(self.handler.packet(&packet))
    }

    /// Handles the first ready packet and returns the reply to it, or `None` if none is ready.
    pub fn next(&mut self) -> Option<Reply>
        ensures { (line : List ℕ) × Transition S.store_state self.old
            (NextCall (option_map (λ reply. with_explanation line (answer_of reply)) result)) self.new }
    {
        let handled = self.handle_next()?;
        Some(handled.reply)
    }

    /// Handles a line of the desk, without its line end.
    pub fn order(&mut self, line: &[u8]) -> Reply
        ensures { Transition S.store_state self.old (OrderCall line.now (answer_of result)) self.new }
    {
        self.handler.line(line)
    }

    /// The device store.
    pub fn store(&self) -> &S
        ensures { result.now ≡ self.now.handler.registry }
    {
        &self.handler.registry
    }

    /// Drops the gateway and returns its device store.
    pub fn into_store(self) -> S
        ensures { result ≡ self.handler.registry }
    {
        let GatewayOver { handler, .. } = self;
        handler.into_registry()
    }
}
