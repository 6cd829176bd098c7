//! The golden sessions. Each is a file, `NAME.session`: the lines of a script, and below each the output for it.
//!
//! - `> TEXT` is a line of the script. If `\ no LF` follows, it has no LF.
//! - `+ TEXT` is a line that is written only with explanations.
//! - Any other line is written with explanations and without.
use crate::gateways::replay_by_new_gateway;
use crate::report::Report;
use anyhow::Result;
use gateway_main::{OverRead, OverWrite};
use std::fs;

// More reads than any session needs.
const MAX_READS: u64 = 100_000;

const NO_LF: &[u8] = b"\\ no LF\n";

pub(crate) fn run_cases(rt: &HostRuntime, report: &mut Report) -> Result<()> {
    for line in fs::read_to_string(rt, "rows.txt")?.lines() {
        let is_correct = match line.strip_suffix(" --explain") {
            Some(name) => is_replayed(rt, name, true)?,
            None => is_replayed(rt, line, false)?,
        };
        report.add_case(rt, line, is_correct)?;
    }
    Ok(())
}

// Whether the session's script is replayed to its end, with explanations or without, and its output is the expected
// one.
fn is_replayed(rt: &HostRuntime, name: &str, explains: bool) -> Result<bool> {
    let alloc = rt.alloc();
    let (script, expected_output) = read_session(rt, name, explains)?;
    let mut output = Vec::new(alloc);
    let mut reader = OverRead::new(script.as_slice());
    let mut writer = OverWrite::new(&mut output);
    let result = replay_by_new_gateway(alloc, &mut reader, &mut writer, explains, MAX_READS)?;
    Ok(result.is_ok() && output.as_slice() == expected_output.as_slice())
}

// A session's script, and the expected output for it, with explanations or without.
pub(crate) fn read_session(
    rt: &HostRuntime,
    name: &str,
    explains: bool,
) -> Result<(Vec<u8>, Vec<u8>)> {
    let alloc = rt.alloc();
    let session = fs::read(rt, format!(in alloc; "{name}.session")?)?;
    let mut script = Vec::new(alloc);
    let mut expected_output = Vec::new(alloc);
    for line in session.as_slice().split_inclusive(|byte| *byte == b'\n') {
        if let Some(text) = line.strip_prefix(b"> ".as_slice()) {
            script.extend_from_slice(text)?;
        } else if line == NO_LF {
            script.pop();
        } else if let Some(text) = line.strip_prefix(b"+ ".as_slice()) {
            if explains {
                expected_output.extend_from_slice(text)?;
            }
        } else {
            expected_output.extend_from_slice(line)?;
        }
    }
    Ok((script, expected_output))
}
