//! The outputs of a live gateway: radio bytes to one sink, the text for the desk to another.
ghost use Rattle.std.specs.Prelude.{[], ◌∷◌};
ghost use Rattle.gateway_loop.specs.LiveOutputs.{live_output_of};

use crate::desk_text::write_desk_text;
use crate::reply_sink::ReplySink;
use byte_io::{Failed, Sink, write_text};
use gateway_core::{DeviceStore, GatewayOver, Reply};
use json_lines::PacketLine;

/// The two outputs of a live gateway: for each reply its radio bytes, if any, go to the serial line. Then the line that
/// explains its packet, if packets are explained, and its text go to the desk.
#[derive(Drop)]
pub struct LiveOutputs<'r, 'd, R, D> {
    pub serial: &'r mut R,
    pub desk: &'d mut D,
    /// Whether packets are explained.
    pub explains: bool,
}

impl<R: Sink, D: Sink> ReplySink for LiveOutputs<'_, '_, R, D> {
    ghost output = { live_output_of R.Sink D.Sink };

    ghost loans = { λ out. out.serial.ghost_name ∷ out.desk.ghost_name ∷ [] };

    fn put<S: DeviceStore>(
        &mut self,
        _gateway: &GatewayOver<S>,
        line: Option<&PacketLine>,
        reply: &Reply,
    ) -> Result<(), Failed> {
        if let Some(bytes) = &reply.radio {
            write_text(self.serial, bytes.as_slice())?;
        }
        write_desk_text(self.desk, self.explains, line, reply)
    }
}
