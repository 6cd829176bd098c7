//! The output of replies.
ghost use Rattle.std.specs.Prelude.{◌≡◌, ℕ, List};
ghost use Rattle.std.specs.Option.{option_copied};
ghost use Rattle.gateway_core.specs.Replies.{answer_of};
ghost use Rattle.gateway_core.specs.Step.{with_packet_line};
ghost use Rattle.gateway_loop.specs.OutputSpecs.{PutsOrBreaks, OutputSpec};
ghost use Rattle.gateway_loop.specs.Processing.{HasJustHandled};

use byte_io::Failed;
use gateway_core::{DeviceStore, GatewayOver, Reply};
use json_lines::PacketLine;

/// An output for replies.
pub trait ReplySink {
    /// How contracts know which answers were written.
    ghost output: { OutputSpec Self };

    /// The names of what it borrows.
    ghost loans: { Self → List ℕ };

    /// Writes the reply to the input that this gateway has just handled. If packets are explained, the line that
    /// explains its packet comes before the text for the desk. On `Failed`, at most a proper prefix was written.
    fn put<S: DeviceStore>(
        &mut self,
        gateway: &GatewayOver<S>,
        line: Option<&PacketLine>,
        reply: &Reply,
    ) -> Result<(), Failed>
        requires handled { HasJustHandled S.store_state gateway.now.handler
            (with_packet_line (option_copied line) (answer_of reply.now)) }
        ensures loans { loans self.new ≡ loans self.old }
        ensures put { PutsOrBreaks output result self.old self.new
            (with_packet_line (option_copied line.entry) (answer_of reply.now)) };
}
