//! The loop of a live gateway: serves a serial line and a desk.
ghost use Rattle.std.specs.Prelude.{◌≡◌, ◌+◌, ◌≤◌, ℕ, [], IfErr, IfOk};
ghost use Rattle.gateway_loop.specs.Headline.{ServesAsSpecified};
ghost use Rattle.gateway_loop.specs.LiveGateway.{Serves, ServesUntilFault, SucceedsIffAllTurns, live_value};
ghost use Rattle.gateway_loop.specs.Reads.{MakesReads};

use crate::driver::Driver;
use crate::line_splitter::{LineSource, LineSplitter};
use crate::live_outputs::LiveOutputs;
use crate::partial_line::PartialLine;
use crate::run_result::{RunFault, Summary};
use byte_io::{MAX_READ, Sink, Source};
use gateway_core::{DeviceStore, GatewayOver};

/// Serves a serial line and a desk: reads from both, and writes the gateway's answers.
///
/// A turn is one read of at most `MAX_READ` bytes from the serial line, a chunk of its stream, and then one such read
/// of the desk. Each line of the desk that LF ends is an order, without one CR before LF. A read of 0 bytes adds
/// nothing. For each packet and each order the radio bytes go to `serial_out`. Then the line that explains the packet,
/// if packets are explained, and the desk's text go to `desk_out`.
///
/// Returns `Ok` after `turns` turns, and drops a partial line of the desk. At `Read`, all packets and lines that
/// arrived were handled and answered. At `Write`, no read followed, and the output ends within the answer to one packet
/// or order: all answers before it are written, and packets may still be ready in the gateway. Never returns
/// `TooManyTurns`.
pub fn live<P: Source, Q: Source, R: Sink, D: Sink, S: DeviceStore>(
    serial_in: &mut P,
    desk_in: &mut Q,
    serial_out: &mut R,
    desk_out: &mut D,
    gateway: &mut GatewayOver<S>,
    explains: bool,
    turns: u64,
) -> Result<Summary, RunFault>
    requires { gateway.old.ready ≡ [] }
    // The headline, for a new gateway, and for any readers and writers: also if the serial line is silent for a while.
    ensures as_specified { ServesAsSpecified S.store_state P.Source Q.Source R.Sink D.Sink explains result
        (gateway.old, serial_in.old, desk_in.old, serial_out.old, desk_out.old)
        (gateway.new, serial_in.new, desk_in.new, serial_out.new, desk_out.new) turns }

    // What is read, handled and written.
    ensures ok { IfOk result (Serves S.store_state (live_value P.Source Q.Source R.Sink D.Sink) explains
        (gateway.old, serial_in.old, desk_in.old, serial_out.old, desk_out.old)
        (gateway.new, serial_in.new, desk_in.new, serial_out.new, desk_out.new) turns) }
    ensures err { IfErr result (ServesUntilFault S.store_state (live_value P.Source Q.Source R.Sink D.Sink) explains
        (gateway.old, serial_in.old, desk_in.old, serial_out.old, desk_out.old)
        (gateway.new, serial_in.new, desk_in.new, serial_out.new, desk_out.new)) }

    // How many reads are made, and when all turns are.
    ensures reads { (n m : ℕ) × (n ≤ turns) × (m ≤ n) × (n ≤ m + 1)
        × MakesReads (P.reads serial_in.old) (P.reads serial_in.new) n
        × MakesReads (Q.reads desk_in.old) (Q.reads desk_in.new) m }
    ensures whole { SucceedsIffAllTurns (live_value P.Source Q.Source R.Sink D.Sink) result
        (gateway.old, serial_in.old, desk_in.old, serial_out.old, desk_out.old)
        (gateway.new, serial_in.new, desk_in.new, serial_out.new, desk_out.new) turns }
{
    let is_ready = gateway.is_ready();
    prove!(!is_ready);
    let mut splitter = LineSplitter {
        driver: Driver {
            reply_sink: LiveOutputs {
                serial: serial_out,
                desk: desk_out,
                explains,
            },
            gateway,
            items: 0,
        },
        partial: PartialLine::new(),
    };
    for _turn in 0..turns {
        let mut buffer = [0u8; MAX_READ];
        let Ok(length) = serial_in.read(&mut buffer) else {
            return Err(RunFault::Read);
        };
        let Ok(()) = splitter.driver.process_chunk(&buffer[..length]) else {
            return Err(RunFault::Write);
        };
        let Ok(length) = desk_in.read(&mut buffer) else {
            return Err(RunFault::Read);
        };
        let Ok(()) = splitter.process_bytes(LineSource::DeskLines, &buffer[..length]) else {
            return Err(RunFault::Write);
        };
    }
    Ok(Summary {
        items: splitter.driver.items,
    })
}
