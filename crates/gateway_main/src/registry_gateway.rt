//! The loops that run a gateway over a registry in SQLite, with their postconditions stated for the registry.
ghost use Rattle.std.specs.Prelude.{◌≡◌, ◌+◌, ◌≤◌, ℕ, [], IfErr, IfOk};
ghost use Rattle.device_registry.specs.Holding.{registry_state_of};
ghost use Rattle.gateway_loop.specs.Headline.{ReplaysAsSpecified, ServesAsSpecified};
ghost use Rattle.gateway_loop.specs.LiveGateway.{Serves, ServesUntilFault, SucceedsIffAllTurns, live_value};
ghost use Rattle.gateway_loop.specs.Reads.{MakesReads};
ghost use Rattle.gateway_loop.specs.ScriptReplay.{Replays, ReplaysUntilFault, FailsIffTooManyTurns, replay_value};

use byte_io::{Sink, Source};
use device_registry::{RegistryOver, SqlConnection};
use gateway_core::GatewayOver;
use gateway_loop::{RunFault, Summary};

/// Replays a script; see `gateway_loop::replay`.
pub fn replay<R: Source, W: Sink, C: SqlConnection>(
    reader: &mut R,
    writer: &mut W,
    gateway: &mut GatewayOver<RegistryOver<C>>,
    explains: bool,
    turns: u64,
) -> Result<Summary, RunFault>
    requires { gateway.old.ready ≡ [] }
    ensures as_specified { ReplaysAsSpecified (registry_state_of C.state C.commits) R.Source W.Sink
        explains result (gateway.old, reader.old, writer.old) (gateway.new, reader.new, writer.new) }

    // What is read, handled and written.
    ensures ok { IfOk result (Replays (registry_state_of C.state C.commits) (replay_value R.Source W.Sink)
        explains (gateway.old, reader.old, writer.old) (gateway.new, reader.new, writer.new)) }
    ensures err { IfErr result (ReplaysUntilFault (registry_state_of C.state C.commits) (replay_value R.Source W.Sink)
        explains (gateway.old, reader.old, writer.old) (gateway.new, reader.new, writer.new)) }

    // How many reads are made, and when `TooManyTurns` is returned.
    ensures reads { (count : ℕ) × (count ≤ turns) × MakesReads (R.reads reader.old) (R.reads reader.new) count }
    ensures too_many { FailsIffTooManyTurns (replay_value R.Source W.Sink) result (gateway.old, reader.old, writer.old)
        (gateway.new, reader.new, writer.new) turns }
{
    gateway_loop::replay(reader, writer, gateway, explains, turns)
}

/// Serves a serial line and a desk; see `gateway_loop::live`.
pub fn live<P: Source, Q: Source, R: Sink, D: Sink, C: SqlConnection>(
    serial_in: &mut P,
    desk_in: &mut Q,
    serial_out: &mut R,
    desk_out: &mut D,
    gateway: &mut GatewayOver<RegistryOver<C>>,
    explains: bool,
    turns: u64,
) -> Result<Summary, RunFault>
    requires { gateway.old.ready ≡ [] }
    ensures as_specified { ServesAsSpecified (registry_state_of C.state C.commits) P.Source Q.Source R.Sink D.Sink
        explains result
        (gateway.old, serial_in.old, desk_in.old, serial_out.old, desk_out.old)
        (gateway.new, serial_in.new, desk_in.new, serial_out.new, desk_out.new) turns }

    // What is read, handled and written.
    ensures ok { IfOk result (Serves (registry_state_of C.state C.commits) (live_value P.Source Q.Source R.Sink D.Sink)
        explains (gateway.old, serial_in.old, desk_in.old, serial_out.old, desk_out.old)
        (gateway.new, serial_in.new, desk_in.new, serial_out.new, desk_out.new) turns) }
    ensures err { IfErr result (ServesUntilFault (registry_state_of C.state C.commits)
        (live_value P.Source Q.Source R.Sink D.Sink) explains
        (gateway.old, serial_in.old, desk_in.old, serial_out.old, desk_out.old)
        (gateway.new, serial_in.new, desk_in.new, serial_out.new, desk_out.new)) }

    // How many reads are made, and when all turns are.
    ensures reads { (n m : ℕ) × (n ≤ turns) × (m ≤ n) × (n ≤ m + 1)
        × MakesReads (P.reads serial_in.old) (P.reads serial_in.new) n
        × MakesReads (Q.reads desk_in.old) (Q.reads desk_in.new) m }
    ensures whole { SucceedsIffAllTurns (live_value P.Source Q.Source R.Sink D.Sink) result
        (gateway.old, serial_in.old, desk_in.old, serial_out.old, desk_out.old)
        (gateway.new, serial_in.new, desk_in.new, serial_out.new, desk_out.new) turns }
{
    gateway_loop::live(
        serial_in, desk_in, serial_out, desk_out, gateway, explains, turns,
    )
}
