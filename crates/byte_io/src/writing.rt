//! Writing texts to a sink.
ghost use Rattle.byte_io.specs.Streams.{sink_value};
ghost use Rattle.byte_io.specs.Writes.{Writes};

use crate::failed::Failed;
use crate::sink::Sink;

/// Writes the whole text. After `Failed` a proper prefix of it is written, and the last write failed or accepted 0
/// bytes.
pub fn write_text<W: Sink>(writer: &mut W, text: &[u8]) -> Result<(), Failed>
    ensures written { Writes (sink_value W.Sink writer.old) (sink_value W.Sink writer.new) result text.now }
{
    let mut rest = text;
    while !rest.is_empty() {
        let count = writer.write(rest)?;
        if count == 0 {
            return Err(Failed);
        }
        rest = &rest[count..];
    }
    Ok(())
}
