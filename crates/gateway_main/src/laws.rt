//! Theorems about the gateway over a registry in SQLite, and about its loops. Each function does nothing: its contract
//! is the theorem.
ghost use Rattle.std.specs.Prelude.{Bool};
ghost use Rattle.byte_io.specs.Streams.{SinkValue, sink_value};
ghost use Rattle.device_registry.specs.Holding.{registry_state_of};
ghost use Rattle.gateway_core.specs.Handling.{HasStateWhileHonest};
ghost use Rattle.gateway_loop.specs.LiveOutputs.{live_output};
ghost use Rattle.gateway_loop.specs.Written.{AppendsReplayText, AppendsCutReplayText};
ghost use Rattle.gateway_main.specs.SessionRuns.{BrokenClosedRunsAreSessions, BrokenRunsAreSessions};
ghost use Rattle.gateway_main.specs.SessionRuns.{ClosedRunsAreSessions, ClosedSessionsAreFound, RunsAreSessions};

use byte_io::Sink;
use device_registry::laws::devices_are_held;
use device_registry::{RegistryOver, SqlConnection};
use gateway_core::GatewayOver;
pub use gateway_loop::laws::{explanations_only_add_lines, inputs_do_not_depend_on_read_sizes};

/// Every gateway over a registry knows a state, while the disk has returned what was written and the connection is
/// open.
pub fn gateways_have_a_state<C: SqlConnection>(gateway: &GatewayOver<RegistryOver<C>>)
    ensures { HasStateWhileHonest (registry_state_of C.state C.commits) gateway.now.handler }
{
    devices_are_held(gateway.store());
}

/// A session may end by `close`: on the connection that was returned, the next open finds what the session may
/// leave, which is what was known at its end.
pub fn closes_end_registry_sessions<C: SqlConnection>()
    ensures { ClosedSessionsAreFound C.state C.commits }
{}

/// After `replay` or `live`, by a gateway that `start` made, a crash leaves what a session may leave that found the
/// devices that were committed last and handled the inputs read.
pub fn crashed_runs_are_sessions<R: Sink, D: Sink, C: SqlConnection>()
    ensures replay { (explains : Bool) (sink sink_now : SinkValue)
        → RunsAreSessions C.state C.commits (AppendsReplayText explains sink sink_now) }
    ensures broken_replay { (explains : Bool) (sink sink_now : SinkValue)
        → BrokenRunsAreSessions C.state C.commits (AppendsCutReplayText explains sink sink_now) }
    ensures live { (explains : Bool) (serial serial_now : R) (desk desk_now : D)
        → RunsAreSessions C.state C.commits ((live_output explains).puts
        (sink_value R.Sink serial, sink_value D.Sink desk)
        (sink_value R.Sink serial_now, sink_value D.Sink desk_now)) }
    ensures broken_live { (explains : Bool) (serial serial_now : R) (desk desk_now : D)
        → BrokenRunsAreSessions C.state C.commits ((live_output explains).breaks
        (sink_value R.Sink serial, sink_value D.Sink desk)
        (sink_value R.Sink serial_now, sink_value D.Sink desk_now)) }
{}

/// After `replay` or `live`, by a gateway that `start` made and that is then closed, the next open finds what such a
/// session may leave, which is what was known at its end.
pub fn closed_runs_are_sessions<R: Sink, D: Sink, C: SqlConnection>()
    ensures replay { (explains : Bool) (sink sink_now : SinkValue)
        → ClosedRunsAreSessions C.state C.commits (AppendsReplayText explains sink sink_now) }
    ensures broken_replay { (explains : Bool) (sink sink_now : SinkValue)
        → BrokenClosedRunsAreSessions C.state C.commits (AppendsCutReplayText explains sink sink_now) }
    ensures live { (explains : Bool) (serial serial_now : R) (desk desk_now : D)
        → ClosedRunsAreSessions C.state C.commits ((live_output explains).puts
        (sink_value R.Sink serial, sink_value D.Sink desk)
        (sink_value R.Sink serial_now, sink_value D.Sink desk_now)) }
    ensures broken_live { (explains : Bool) (serial serial_now : R) (desk desk_now : D)
        → BrokenClosedRunsAreSessions C.state C.commits ((live_output explains).breaks
        (sink_value R.Sink serial, sink_value D.Sink desk)
        (sink_value R.Sink serial_now, sink_value D.Sink desk_now)) }
{}
