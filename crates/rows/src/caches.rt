//! Cases over registries that cache few senders and many: the output is the same.
ghost use Rattle.std.specs.Prelude.{◌≤◌};

use crate::golden_sessions::read_session;
use crate::report::Report;
use anyhow::Result;
use device_registry::Registry;
use gateway_core::{DeviceStore, GatewayOver};
use gateway_loop::replay;
use gateway_main::{OverRead, OverWrite};
use sqlite::Connection;
use std::alloc::Global;

// More reads than these sessions need.
const MAX_READS: u64 = 1000;

pub(crate) fn run_cases(rt: &HostRuntime, report: &mut Report) -> Result<()> {
    for name in ["two-hundred-contacts", "contact-learned-and-forgotten"] {
        run_session(rt, report, name, 1)?;
        run_session(rt, report, name, 64)?;
        run_session(rt, report, name, 1024)?;
    }
    Ok(())
}

fn run_session(rt: &HostRuntime, report: &mut Report, name: &str, cache: usize) -> Result<()>
    requires { (1 ≤ cache) × (cache ≤ 1024) }
{
    let alloc = rt.alloc();
    let (script, expected_output) = read_session(rt, name, false)?;
    let conn = Connection::open_in_memory(alloc)?;
    let Ok(registry) = Registry::open_with(alloc, conn, cache) else {
        return report.add_case(rt, name, false);
    };
    let is_correct = writes_expected_output(
        alloc,
        registry,
        script.as_slice(),
        expected_output.as_slice(),
    );
    let title = format!(in alloc; "{name} with a cache of {cache}")?;
    report.add_case(rt, title.as_str(), is_correct)
}

// Whether this is written for a script over this registry.
fn writes_expected_output<S: DeviceStore + Drop>(
    alloc: Global,
    registry: S,
    script: &[u8],
    expected_output: &[u8],
) -> bool {
    let Ok(mut gateway) = GatewayOver::new(alloc, registry, 0xFF80_0000) else {
        return false;
    };
    let mut output = Vec::new(alloc);
    let mut reader = OverRead::new(script);
    let result = replay(
        &mut reader,
        &mut OverWrite::new(&mut output),
        &mut gateway,
        false,
        MAX_READS,
    );
    result.is_ok() && output.as_slice() == expected_output
}
