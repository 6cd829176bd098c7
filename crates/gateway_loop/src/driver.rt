//! The driver of a gateway: takes chunks of the serial stream, orders of the desk and lines of a script, and writes the
//! gateway's answers.
ghost use Rattle.std.specs.Prelude.{◌≡◌, ◌<◌, ◌≤◌, [], ◌∷◌, length, take, drop, IfOk, OnOk, OnErr, MatchResult};
ghost use Rattle.hex.specs.Hex.{decode_of};
ghost use Rattle.gateway_state.specs.Counts.{saturated_increment};
ghost use Rattle.desk_orders.specs.Limits.{max_line};
ghost use Rattle.gateway_core.specs.Events.{Line as LineEvent, Chunk as ChunkEvent};
ghost use Rattle.gateway_core.specs.Replies.{answer_of, packet_answer};
ghost use Rattle.gateway_loop.specs.private.DriverSteps.{Drains, DrainsPart, DriverBreaks, Takes, TakesOrBreaks};
ghost use Rattle.gateway_loop.specs.OutputSpecs.{PutsOrBreaks};
ghost use Rattle.gateway_loop.specs.Processing.{HasJustHandled, HasNoReadyPacket};
ghost use Rattle.gateway_loop.specs.Script.{event_of_script_line, chunk_if_decoded};

use crate::line_limits::MAX_SCRIPT_CHUNK;
use crate::reply_sink::ReplySink;
use byte_io::Failed;
use gateway_core::{DeviceStore, GatewayOver, HandledPacket, MAX_LINE, Reply};

/// A gateway, and the output for its replies.
#[derive(Drop)]
pub struct Driver<'g, O, S: DeviceStore> {
    pub reply_sink: O,
    pub gateway: &'g mut GatewayOver<S>,
    /// How many packets and orders were handled. Stays at its maximum once it has reached it.
    pub items: u64,
}

impl<O: ReplySink, S: DeviceStore> Driver<'_, O, S> {
    /// Takes a chunk of the serial stream, and answers each packet that it completes.
    pub fn process_chunk(&mut self, chunk: &[u8]) -> Result<(), Failed>
        requires { HasNoReadyPacket self.old.gateway.now }
        ensures gateway { self.new.gateway.ghost_name ≡ self.old.gateway.ghost_name }
        ensures loans { O.loans self.new.reply_sink ≡ O.loans self.old.reply_sink }
        ensures taken { TakesOrBreaks S.store_state O.output result self.old self.new (ChunkEvent chunk.now) }
    {
        // The proof needs that the count is a `u64`.
        let _start = self.items;
        let mut count = 0;
        while count < chunk.len() {
            count += self.process_front(&chunk[count..])?;
        }
        Ok(())
    }

    // Takes the whole packet at the front of these bytes, or, if there is none, the bytes up to the one that makes
    // packets ready. Answers the packets that they complete, and returns how many bytes it took.
    fn process_front(&mut self, bytes: &[u8]) -> Result<usize, Failed>
        requires idle { HasNoReadyPacket self.old.gateway.now }
        requires some { 0 < length bytes.now }
        ensures gateway { self.new.gateway.ghost_name ≡ self.old.gateway.ghost_name }
        ensures loans { O.loans self.new.reply_sink ≡ O.loans self.old.reply_sink }
        ensures within { IfOk result (λ count. (0 < count) × (count ≤ length bytes.now)) }
        ensures taken { MatchResult result
            (λ count. Takes S.store_state O.output self.old self.new (ChunkEvent (take count bytes.now) ∷ []))
            (λ _. DriverBreaks S.store_state O.output self.old self.new [] (ChunkEvent bytes.now)) }
    {
        // The proof needs that the count is a `u64`.
        let _start = self.items;
        if let Some((handled, count)) = self.gateway.handle_front_packet(bytes) {
            self.answer_packet(&handled)?;
            return Ok(count);
        }
        let count = self.gateway.bytes(bytes);
        if self.gateway.is_ready() {
            self.answer_ready_packets()?;
        }
        Ok(count)
    }

    // Answers the ready packets.
    fn answer_ready_packets(&mut self) -> Result<(), Failed>
        ensures gateway { self.new.gateway.ghost_name ≡ self.old.gateway.ghost_name }
        ensures loans { O.loans self.new.reply_sink ≡ O.loans self.old.reply_sink }
        ensures ready { OnOk result (self.new.gateway.now.ready ≡ []) }
        ensures drained { OnOk result (Drains S.store_state self.old.gateway.now self.new.gateway.now
            (O.output.puts self.old.reply_sink self.new.reply_sink) self.old.items self.new.items) }
        ensures broken { OnErr result (DrainsPart S.store_state self.old.gateway.now self.new.gateway.now
            (O.output.breaks self.old.reply_sink self.new.reply_sink)) }
    {
        // The proof needs that the count is a `u64`.
        let _start = self.items;
        while let Some(handled) = self.gateway.handle_next() {
            self.answer_packet(&handled)?;
        }
        Ok(())
    }

    /// Takes an order of the desk, without its line end, and answers it.
    pub fn process_order(&mut self, line: &[u8]) -> Result<(), Failed>
        requires { HasNoReadyPacket self.old.gateway.now }
        ensures gateway { self.new.gateway.ghost_name ≡ self.old.gateway.ghost_name }
        ensures loans { O.loans self.new.reply_sink ≡ O.loans self.old.reply_sink }
        ensures taken { TakesOrBreaks S.store_state O.output result self.old self.new (LineEvent line.now) }
    {
        let reply = self.gateway.order(line);
        self.answer_order(&reply)
    }

    /// Takes a line of a script, without its end.
    pub fn process_script_line(&mut self, line: &[u8]) -> Result<(), Failed>
        requires { HasNoReadyPacket self.old.gateway.now }
        ensures gateway { self.new.gateway.ghost_name ≡ self.old.gateway.ghost_name }
        ensures loans { O.loans self.new.reply_sink ≡ O.loans self.old.reply_sink }
        ensures taken { TakesOrBreaks S.store_state O.output result self.old self.new (event_of_script_line line.now) }
    {
        if line.starts_with(b"S ".as_slice()) && line.len() <= MAX_LINE {
            self.process_chunk_or_order(line)
        } else {
            self.process_order(line)
        }
    }

    // Takes a line that begins with `S` and a space: as a chunk if digits follow, otherwise as an order.
    fn process_chunk_or_order(&mut self, line: &[u8]) -> Result<(), Failed>
        requires idle { HasNoReadyPacket self.old.gateway.now }
        requires long { 2 ≤ length line.now }
        requires short { length line.now ≤ max_line }
        ensures gateway { self.new.gateway.ghost_name ≡ self.old.gateway.ghost_name }
        ensures loans { O.loans self.new.reply_sink ≡ O.loans self.old.reply_sink }
        ensures taken { TakesOrBreaks S.store_state O.output result self.old self.new
            (chunk_if_decoded line.now (decode_of (drop 2 line.now))) }
    {
        let digits = &line[2..];
        let mut bytes = [0u8; MAX_SCRIPT_CHUNK];
        let chunk = &mut bytes[..digits.len() / 2];
        if hex::decode_to_slice(digits, chunk).is_ok() {
            self.process_chunk(chunk)
        } else {
            self.process_order(line)
        }
    }

    fn count_input(&mut self)
        ensures { self.new ≡ record self.old { items = saturated_increment self.old.items } }
    {
        self.items = self.items.saturating_add(1);
    }

    // Counts a packet that was handled, and writes its reply, with the line that explains it.
    fn answer_packet(&mut self, handled: &HandledPacket) -> Result<(), Failed>
        requires handled { HasJustHandled S.store_state self.old.gateway.now.handler (packet_answer handled.now) }
        ensures gateway { self.new.gateway.ghost_name ≡ self.old.gateway.ghost_name }
        ensures kept { self.new.gateway.now ≡ self.old.gateway.now }
        ensures loans { O.loans self.new.reply_sink ≡ O.loans self.old.reply_sink }
        ensures counted { self.new.items ≡ saturated_increment self.old.items }
        ensures put { PutsOrBreaks O.output result self.old.reply_sink self.new.reply_sink (packet_answer handled.now) }
    {
        self.count_input();
        self.reply_sink
            .put(self.gateway, Some(&handled.line), &handled.reply)
    }

    // Counts an order that was handled, and writes its reply.
    fn answer_order(&mut self, reply: &Reply) -> Result<(), Failed>
        requires handled { HasJustHandled S.store_state self.old.gateway.now.handler (answer_of reply.now) }
        ensures gateway { self.new.gateway.ghost_name ≡ self.old.gateway.ghost_name }
        ensures kept { self.new.gateway.now ≡ self.old.gateway.now }
        ensures loans { O.loans self.new.reply_sink ≡ O.loans self.old.reply_sink }
        ensures counted { self.new.items ≡ saturated_increment self.old.items }
        ensures put { PutsOrBreaks O.output result self.old.reply_sink self.new.reply_sink (answer_of reply.now) }
    {
        self.count_input();
        self.reply_sink.put(self.gateway, None, reply)
    }
}
