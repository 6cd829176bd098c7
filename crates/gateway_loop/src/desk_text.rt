//! The text of a reply for the desk.
ghost use Rattle.std.specs.Option.{option_copied};
ghost use Rattle.byte_io.specs.Streams.{sink_value};
ghost use Rattle.byte_io.specs.Writes.{Writes};
ghost use Rattle.gateway_core.specs.Replies.{answer_of};
ghost use Rattle.gateway_core.specs.Step.{with_packet_line};
ghost use Rattle.gateway_loop.specs.Written.{desk_text};

use byte_io::{Failed, Sink, write_text};
use gateway_core::Reply;
use json_lines::{PacketLine, packet_line};

/// Writes a reply's text for the desk; if packets are explained, the line that explains its packet comes first. Needs
/// no memory.
pub fn write_desk_text<W: Sink>(
    writer: &mut W,
    explains: bool,
    line: Option<&PacketLine>,
    reply: &Reply,
) -> Result<(), Failed>
    ensures written { Writes (sink_value W.Sink writer.old) (sink_value W.Sink writer.new) result
        (desk_text explains (with_packet_line (option_copied line.entry) (answer_of reply.now))) }
{
    if explains {
        if let Some(line) = line {
            write_text(writer, packet_line(line).as_slice())?;
        }
    }
    write_text(writer, reply.desk.as_bytes())
}
