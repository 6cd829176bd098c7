//! The state of a gateway, and the handling of one input.
ghost use Rattle.std.specs.Prelude.{◌≡◌, ◌≤◌, true, [], ◌∷◌, length, Some};
ghost use Rattle.erp1_telegrams.specs.Address.{is_base_id};
ghost use Rattle.esp3_frames.specs.Outcome.{packet_of};
ghost use Rattle.esp3_frames.specs.Packet.{max_data};
ghost use Rattle.gateway_core.specs.Calls.{new_handler};
ghost use Rattle.gateway_core.specs.Handling.{Handles};
ghost use Rattle.gateway_core.specs.Replies.{answer_of, packet_answer};
ghost use Rattle.gateway_core.specs.Step.{Ordered, Received, with_mode};
ghost use Rattle.gateway_core.specs.private.Attempts.{disposition_or_failed, unexplained_answer_from, counts_from};
ghost use Rattle.gateway_core.specs.private.Attempts.{mode_from};

mod effect;
mod learn_forget;
pub mod orders;
mod packets;
mod send;
mod teach;

use crate::disposition::Disposition;
use crate::failure::Failure;
use crate::handled::{HandledPacket, line_of_telegram, line_without_telegram};
use crate::handler::effect::{PacketEffect, ReplyAndMode, error_reply};
use crate::reply::Reply;
use erp1_telegrams::read;
use esp3_frames::PacketRef;
use gateway_state::{Counter, Counts, HandlingReason};
use learned_devices::DeviceStore;
use std::alloc::Global;
use std::marker::Model;
use teach_in::{Mode, classify};

/// The state of a gateway: the base ID of its radio module, the learn mode, the counters, and the device store.
#[derive(Drop)]
pub struct Handler<S> {
    alloc: Global,
    base: u32,
    mode: Mode,
    counts: Counts,
    pub(crate) registry: S,
}

impl<S> Model for Handler<S> {
    ghost use Rattle.std.specs.Prelude.{◌≡◌, true};
    ghost use Rattle.erp1_telegrams.specs.Address.{is_base_id};
    ghost use Rattle.gateway_core.specs.private.Codes.{handler_code};
    ghost use Rattle.gateway_core.specs.Handling.{HandlerValue};

    ghost Value = { HandlerValue S };

    ghost coded = { handler_code S.code };

    ghost view = { λ handler. record {
      base = handler.base;
      mode = handler.mode;
      counts = handler.counts;
      registry = handler.registry;
    } };

    ghost invariant = { λ handler. is_base_id handler.base ≡ true };
}

impl<S: DeviceStore> Handler<S> {
    /// Returns a handler over this device store, with the mode closed and all counters 0.
    pub fn new(alloc: Global, registry: S, base: u32) -> Handler<S>
        requires { is_base_id base ≡ true }
        ensures { result ≡ new_handler base registry }
    {
        Handler {
            alloc,
            base,
            mode: Mode::Closed,
            counts: Counts::zero(),
            registry,
        }
    }

    /// Returns the device store.
    pub fn into_registry(self) -> S
        ensures { result ≡ self.registry }
    {
        let Handler { registry, .. } = self;
        registry
    }

    // Counts a packet, handled or failed, sets the mode, and returns the reply and the disposition.
    fn finish_packet(&mut self, tried: Result<PacketEffect, Failure>) -> (Reply, Disposition)
        ensures answer { answer_of result.0 ≡ unexplained_answer_from tried }
        ensures disposition { Some result.1 ≡ disposition_or_failed tried }
        ensures base { self.new.base ≡ self.old.base }
        ensures mode { self.new.mode ≡ mode_from self.old.mode tried }
        ensures counts { self.new.counts ≡ counts_from self.old.counts tried }
        ensures registry { self.new.registry ≡ self.old.registry }
    {
        let (disposition, mode, reply) = match tried {
            Ok(
                PacketEffect {
                    disposition,
                    effect: ReplyAndMode { mode, reply },
                },
            ) => (disposition, mode, reply),
            Err(failure) => (
                Disposition::without_device(HandlingReason::Failed),
                None,
                error_reply(failure),
            ),
        };
        self.counts.increment(disposition.count());
        self.set_mode_if_any(mode);
        (reply, disposition)
    }

    // Counts an order that failed, sets the mode, and returns the reply.
    fn finish_order(&mut self, tried: Result<ReplyAndMode, Failure>) -> Reply
        ensures answer { answer_of result ≡ unexplained_answer_from tried }
        ensures base { self.new.base ≡ self.old.base }
        ensures mode { self.new.mode ≡ mode_from self.old.mode tried }
        ensures counts { self.new.counts ≡ counts_from self.old.counts tried }
        ensures registry { self.new.registry ≡ self.old.registry }
    {
        match tried {
            Ok(ReplyAndMode { mode, reply }) => {
                self.set_mode_if_any(mode);
                reply
            }
            Err(failure) => {
                self.counts.increment(Counter::Failed);
                error_reply(failure)
            }
        }
    }

    fn set_mode_if_any(&mut self, mode: Option<Mode>)
        ensures { self.new ≡ record self.old { mode = with_mode self.old.mode mode } }
    {
        if let Some(mode) = mode {
            self.mode = mode;
        }
    }

    /// Handles a packet of the serial line.
    pub fn packet(&mut self, packet: &PacketRef<'_>) -> HandledPacket
        requires { length packet.now.body.now ≤ max_data }
        ensures { Handles S.store_state self.old (Received (packet_of packet.now) ∷ []) (packet_answer result ∷ [])
            self.new }
    {
        let telegram = match read(packet) {
            Ok(telegram) => telegram,
            Err(fault) => {
                let tried = self.try_non_telegram(packet, fault);
                let (reply, disposition) = self.finish_packet(tried);
                let line = line_without_telegram(packet, disposition);
                return HandledPacket { reply, line };
            }
        };
        let teach = classify(&telegram);
        let tried = self.try_telegram(&telegram, &teach);
        let (reply, disposition) = self.finish_packet(tried);
        let line = line_of_telegram(telegram, &teach, disposition);
        HandledPacket { reply, line }
    }

    /// Handles a line of the desk.
    pub fn line(&mut self, line: &[u8]) -> Reply
        ensures { Handles S.store_state self.old (Ordered line.now ∷ []) (answer_of result ∷ []) self.new }
    {
        let tried = self.try_line(line);
        self.finish_order(tried)
    }
}
