//! The loops that run a gateway: `replay` over a script, `live` over a serial line and a desk.
#![tactic(auto)]

mod desk_text;
mod driver;
pub mod laws;
mod line_limits;
mod line_splitter;
mod live_gateway;
mod live_outputs;
mod partial_line;
mod replay_output;
mod reply_sink;
mod run_result;
mod script_replay;

pub use live_gateway::live;
pub use run_result::{RunFault, Summary};
pub use script_replay::replay;
