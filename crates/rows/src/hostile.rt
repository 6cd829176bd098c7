//! Hostile conditions: stores that fail, crashes, noise, scripts that end early, and readers and writers that fail.
//!
//! The mutants that are named beside the cases were tried in one run, all at once, except for that of `a device that
//! could not be reported is kept`. Each case outside this module was `ok`. The number in a case's output shows which
//! mutant it differed by; no mutant was tried by itself.
mod crashes;
mod disks;
mod faults;
mod live_faults;
mod replaced_bytes;
mod script;
mod truncated_scripts;
mod turns;

use crate::report::Report;
use anyhow::Result;

pub(crate) fn run_cases(rt: &HostRuntime, report: &mut Report) -> Result<()> {
    crashes::run_cases(rt, report)?;
    truncated_scripts::run_cases(rt, report)?;
    replaced_bytes::run_cases(rt, report)?;
    faults::run_cases(rt, report)?;
    live_faults::run_cases(rt, report)
}
