//! The output of a replay: replies as text in one sink.
ghost use Rattle.std.specs.Prelude.{[], ◌∷◌, ◌≤◌, Some, length};
ghost use Rattle.byte_io.specs.Streams.{sink_value};
ghost use Rattle.byte_io.specs.Writes.{Writes};
ghost use Rattle.gateway_loop.specs.Written.{radio_chunk_line, replay_output_of};

use crate::desk_text::write_desk_text;
use crate::reply_sink::ReplySink;
use byte_io::{Failed, Sink, write_text};
use gateway_core::{DeviceStore, GatewayOver, Reply};
use json_lines::PacketLine;

/// The text of a replay: for each reply its radio bytes, if any, as a serial chunk, then the line that explains its
/// packet, if packets are explained, and then the text for the desk.
#[derive(Drop)]
pub struct ReplayOutput<'w, W> {
    pub sink: &'w mut W,
    /// Whether packets are explained.
    pub explains: bool,
}

impl<W: Sink> ReplySink for ReplayOutput<'_, W> {
    ghost output = { replay_output_of W.Sink };

    ghost loans = { λ text. text.sink.ghost_name ∷ [] };

    fn put<S: DeviceStore>(
        &mut self,
        _gateway: &GatewayOver<S>,
        line: Option<&PacketLine>,
        reply: &Reply,
    ) -> Result<(), Failed> {
        if let Some(bytes) = &reply.radio {
            write_chunk(self.sink, bytes.as_slice())?;
        }
        write_desk_text(self.sink, self.explains, line, reply)
    }
}

// Writes bytes as a serial chunk: `S` and a space, hexadecimal digits, LF.
fn write_chunk<W: Sink>(writer: &mut W, bytes: &[u8]) -> Result<(), Failed>
    requires { length bytes.now ≤ 64 }
    ensures written { Writes (sink_value W.Sink writer.old) (sink_value W.Sink writer.new) result
        (radio_chunk_line (Some bytes.now)) }
{
    let mut buffer = [0u8; 128];
    let digits = &mut buffer[..2 * bytes.len()];
    let _ = hex::encode_to_slice(bytes, digits);
    write_text(writer, b"S ")?;
    write_text(writer, digits)?;
    write_text(writer, b"\n")
}
