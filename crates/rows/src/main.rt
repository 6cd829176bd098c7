//! The tests of `gateway_core`, `gateway_loop` and `gateway_main`, as a program: it replays each golden session, and
//! runs the gateway over readers, writers, caches and disks that no session has. It prints one line for each case,
//! `NAME ok` or `NAME differs`.
#![tactic(auto)]

mod caches;
mod chunks;
mod endings;
mod fake_streams;
mod gateways;
mod golden_sessions;
mod hostile;
mod live_turns;
mod one_device_store;
mod replays;
mod report;

use anyhow::Result;
use report::Report;
use std::process::ExitCode;

fn main(rt: HostRuntime) -> Result<ExitCode> {
    let mut report = Report::new();
    golden_sessions::run_cases(&rt, &mut report)?;
    caches::run_cases(&rt, &mut report)?;
    gateways::run_cases(&rt, &mut report)?;
    one_device_store::run_cases(&rt, &mut report)?;
    replays::run_cases(&rt, &mut report)?;
    live_turns::run_cases(&rt, &mut report)?;
    endings::run_cases(&rt, &mut report)?;
    chunks::run_cases(&rt, &mut report)?;
    hostile::run_cases(&rt, &mut report)?;
    Ok(if report.are_all_correct() {
        ExitCode::SUCCESS
    } else {
        ExitCode::FAILURE
    })
}
