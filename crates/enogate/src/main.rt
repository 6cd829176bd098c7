//! The program `enogate`: a gateway for EnOcean radio devices.
#![tactic(auto)]

use std::process::ExitCode;

fn main(rt: HostRuntime) -> ExitCode {
    gateway_main::program(&rt)
}
