//! The loop that replays a script.
ghost use Rattle.std.specs.Prelude.{◌≡◌, ◌≤◌, ℕ, [], IfErr, IfOk};
ghost use Rattle.gateway_loop.specs.Headline.{ReplaysAsSpecified};
ghost use Rattle.gateway_loop.specs.Reads.{MakesReads};
ghost use Rattle.gateway_loop.specs.ScriptReplay.{Replays, ReplaysUntilFault, FailsIffTooManyTurns, replay_value};

use crate::driver::Driver;
use crate::line_splitter::{LineSource, LineSplitter};
use crate::partial_line::PartialLine;
use crate::replay_output::ReplayOutput;
use crate::run_result::{RunFault, Summary};
use byte_io::{MAX_READ, Sink, Source};
use gateway_core::{DeviceStore, GatewayOver};

/// Replays a script: reads its lines, and writes the gateway's answers.
///
/// A line ends with LF or with the end of the script, without one CR before LF; there is no empty line after the last
/// LF. A line of at most `MAX_LINE` bytes that is `S`, one space and an even number of hexadecimal digits is a chunk of
/// the serial stream. Any other line is an order of the desk. For each packet and each order the radio bytes are
/// written as such a chunk, in lower case and with LF, then the line that explains the packet, if packets are
/// explained, and then the desk's text.
///
/// A turn is one read of at most `MAX_READ` bytes, and at most `turns` reads are made. A read of 0 bytes ends the
/// script. At `Read` and `TooManyTurns`, the lines that LF ended were handled and answered, and nothing of a partial
/// line was. At `Write`, the output ends within the text for one packet or order, and packets may still be ready in the
/// gateway.
pub fn replay<R: Source, W: Sink, S: DeviceStore>(
    reader: &mut R,
    writer: &mut W,
    gateway: &mut GatewayOver<S>,
    explains: bool,
    turns: u64,
) -> Result<Summary, RunFault>
    requires { gateway.old.ready ≡ [] }
    // The headline, for a new gateway, and for any reader and writer.
    ensures as_specified { ReplaysAsSpecified S.store_state R.Source W.Sink explains result
        (gateway.old, reader.old, writer.old) (gateway.new, reader.new, writer.new) }

    // What is read, handled and written.
    ensures ok { IfOk result (Replays S.store_state (replay_value R.Source W.Sink) explains
        (gateway.old, reader.old, writer.old) (gateway.new, reader.new, writer.new)) }
    ensures err { IfErr result (ReplaysUntilFault S.store_state (replay_value R.Source W.Sink) explains
        (gateway.old, reader.old, writer.old) (gateway.new, reader.new, writer.new)) }

    // How many reads are made, and when `TooManyTurns` is returned.
    ensures reads { (count : ℕ) × (count ≤ turns) × MakesReads (R.reads reader.old) (R.reads reader.new) count }
    ensures too_many { FailsIffTooManyTurns (replay_value R.Source W.Sink) result (gateway.old, reader.old, writer.old)
        (gateway.new, reader.new, writer.new) turns }
{
    let is_ready = gateway.is_ready();
    prove!(!is_ready);
    let mut splitter = LineSplitter {
        driver: Driver {
            reply_sink: ReplayOutput {
                sink: writer,
                explains,
            },
            gateway,
            items: 0,
        },
        partial: PartialLine::new(),
    };
    for _turn in 0..turns {
        let mut buffer = [0u8; MAX_READ];
        let length = match reader.read(&mut buffer) {
            Ok(length) => length,
            Err(_) => return Err(RunFault::Read),
        };
        if length == 0 {
            let Ok(()) = splitter.process_last_script_line() else {
                return Err(RunFault::Write);
            };
            return Ok(Summary {
                items: splitter.driver.items,
            });
        }
        let Ok(()) = splitter.process_bytes(LineSource::ScriptLines, &buffer[..length]) else {
            return Err(RunFault::Write);
        };
    }
    Err(RunFault::TooManyTurns)
}
