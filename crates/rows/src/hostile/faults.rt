//! Replays of the script in which one read or one write fails, at each position in turn: what is then written, and what
//! the gateway knows.
use super::script::{
    ExpectedState, SCRIPT_INPUTS, ScriptOutcome, SenderRecord, outcome_of, outcome_of_first,
};
use crate::fake_streams::{LimitedWriter, PartReader};
use crate::gateways::{BASE, new_gateway, replay_output_of};
use crate::live_turns::NEVER_FAILS;
use crate::report::Report;
use anyhow::{Result, bail};
use device_registry::{MAX_CACHED, RegistryOver, SqlConnection};
use gateway_core::{DeviceStore, GatewayOver};
use gateway_loop::replay;
use gateway_main::{OverRead, OverWrite, RunFault, Summary, start};
use std::alloc::Global;

// More reads than these scripts need.
const MAX_READS: u64 = 1000;

// Two mutants: event loops that close the window at a read that fails, and at a write that fails. They print `at 83,
// differs` and `at 188, differs`.
pub(crate) fn run_cases(rt: &HostRuntime, report: &mut Report) -> Result<()> {
    let alloc = rt.alloc();
    let first_wrong = first_wrong_read(alloc)?;
    report.add_first_wrong(rt, "each read of a replay fails in turn", first_wrong)?;
    let first_wrong = first_wrong_write(alloc)?;
    report.add_first_wrong(rt, "each write of a replay fails in turn", first_wrong)?;
    let is_correct = keeps_unreported_device(alloc)?;
    report.add_case(
        rt,
        "a device that could not be reported is kept",
        is_correct,
    )
}

// How a replay ended, and what was written.
#[derive(Drop)]
struct ReplayEnd {
    run_result: Result<Summary, RunFault>,
    output: Vec<u8>,
}

// Replays by a reader that returns these parts and a writer that takes one byte at a call, which fail at these calls.
fn replay_parts<S: DeviceStore>(
    alloc: Global,
    gateway: &mut GatewayOver<S>,
    parts: &[&[u8]],
    read_fails_at: usize,
    write_fails_at: usize,
) -> Result<ReplayEnd> {
    if gateway.is_ready() {
        bail!("a packet waits");
    }
    let mut output = Vec::new(alloc);
    let mut reader = OverRead::new(PartReader::new(parts, read_fails_at));
    let mut writer = OverWrite::new(LimitedWriter::new(&mut output, 1, write_fails_at));
    let run_result = replay(&mut reader, &mut writer, gateway, false, MAX_READS);
    Ok(ReplayEnd { run_result, output })
}

// Whether this is what the gateway knows.
pub(crate) fn has_state<S: DeviceStore>(
    alloc: Global,
    gateway: &mut GatewayOver<S>,
    state: &ExpectedState,
) -> Result<bool> {
    let state_output = replay_output_of(alloc, gateway, b"list\nstatus\n")?;
    let list = state.listed(alloc)?;
    let counts = state.status(alloc)?;
    let status_output = state_output.as_slice().strip_prefix(list.as_bytes());
    Ok(status_output == Some(counts.as_bytes()))
}

fn whole_script(alloc: Global) -> Result<Vec<u8>> {
    let mut script = Vec::new(alloc);
    for input in SCRIPT_INPUTS {
        script.extend_from_slice(input.line())?;
        script.push(b'\n')?;
    }
    Ok(script)
}

// The first number of bytes, read one by one before a read failed, for which not exactly the ended lines were
// answered, or the lines after them are answered otherwise when they are sent again.
fn first_wrong_read(alloc: Global) -> Result<Option<usize>> {
    let script = whole_script(alloc)?;
    let mut input_count = 0usize;
    for (byte_count, byte) in script.iter().enumerate() {
        if !handles_read_fault(alloc, &script, byte_count, input_count)? {
            return Ok(Some(byte_count));
        }
        if *byte == b'\n' {
            input_count = input_count.saturating_add(1);
        }
    }
    let is_correct = handles_read_fault(alloc, &script, script.len(), input_count)?;
    Ok((!is_correct).then_some(script.len()))
}

fn handles_read_fault(
    alloc: Global,
    script: &[u8],
    byte_count: usize,
    input_count: usize,
) -> Result<bool> {
    let outcome_before = outcome_of_first(alloc, input_count)?;
    let mut single_bytes = Vec::new(alloc);
    for single_byte in script.chunks(1) {
        single_bytes.push(single_byte)?;
    }
    let mut gateway = new_gateway(alloc)?;
    let replay_end = replay_parts(
        alloc,
        &mut gateway,
        &single_bytes,
        byte_count.saturating_add(1),
        NEVER_FAILS,
    )?;
    Ok(
        replay_end.run_result == Err(RunFault::Read)
            && replay_end.output.as_slice() == outcome_before.replay_output.as_slice()
            && answers_remaining_inputs(alloc, &mut gateway, input_count, &outcome_before)?,
    )
}

// Whether the inputs from this one on are answered as if nothing had failed.
fn answers_remaining_inputs<S: DeviceStore>(
    alloc: Global,
    gateway: &mut GatewayOver<S>,
    input_count: usize,
    outcome_before: &ScriptOutcome,
) -> Result<bool> {
    let mut remaining_script = Vec::new(alloc);
    for input in SCRIPT_INPUTS.iter().skip(input_count) {
        remaining_script.extend_from_slice(input.line())?;
        remaining_script.push(b'\n')?;
    }
    let output = replay_output_of(alloc, gateway, remaining_script.as_slice())?;
    let whole_outcome = outcome_of(alloc, &SCRIPT_INPUTS)?;
    let remaining_output = whole_outcome
        .replay_output
        .as_slice()
        .strip_prefix(outcome_before.replay_output.as_slice());
    Ok(remaining_output == Some(output.as_slice()))
}

// The first number of bytes that were written before a write failed, if anything is wrong then.
fn first_wrong_write(alloc: Global) -> Result<Option<usize>> {
    for input_count in 0..SCRIPT_INPUTS.len() {
        let outcome_before = outcome_of_first(alloc, input_count)?;
        let outcome_after = outcome_of_first(alloc, input_count.saturating_add(1))?;
        for output_len in outcome_before.replay_output.len()..outcome_after.replay_output.len() {
            if !handles_write_fault(alloc, output_len, &outcome_after)? {
                return Ok(Some(output_len));
            }
        }
    }
    Ok(None)
}

// Whether the text breaks off after this many bytes, and the input in it is done.
fn handles_write_fault(
    alloc: Global,
    output_len: usize,
    outcome_after: &ScriptOutcome,
) -> Result<bool> {
    let script = whole_script(alloc)?;
    let mut gateway = new_gateway(alloc)?;
    let replay_end = replay_parts(
        alloc,
        &mut gateway,
        &[script.as_slice()],
        0,
        output_len.saturating_add(1),
    )?;
    Ok(
        replay_end.run_result == Err(RunFault::Write)
            && Some(replay_end.output.as_slice())
                == outcome_after.replay_output.as_slice().get(..output_len)
            && has_state(alloc, &mut gateway, &outcome_after.state)?,
    )
}

// Mutant, tried in a run of its own without the sessions, the caches, the endings and the generated streams: an event
// loop that removes the sender if a write fails. This case differed, and so did each write of a replay and of a live
// gateway, both at 0.
// Whether a device is found again whose teach-in was done, and could not be reported.
fn keeps_unreported_device(alloc: Global) -> Result<bool> {
    let mut gateway = new_gateway(alloc)?;
    let script = b"learn on\nS 55000D0701FDD4A00146001201D201800ABC0001FFFFFFFF2D008A\n".as_slice();
    let replay_end = replay_parts(alloc, &mut gateway, &[script], 0, 16)?;
    let is_broken = replay_end.run_result == Err(RunFault::Write)
        && replay_end.output.as_slice() == b"{\"type\":\"ok\"}\nS".as_slice();
    Ok(is_broken && finds_actuator_again(alloc, gateway)?)
}

// Whether the actuator is listed when the gateway's database is opened again.
fn finds_actuator_again<C: SqlConnection + Drop>(
    alloc: Global,
    gateway: GatewayOver<RegistryOver<C>>,
) -> Result<bool> {
    let conn = gateway.close();
    if !conn.is_autocommit() {
        return Ok(false);
    }
    let Ok(mut reopened_gateway) = start(alloc, conn, BASE, MAX_CACHED) else {
        return Ok(false);
    };
    let list = replay_output_of(alloc, &mut reopened_gateway, b"list")?;
    let expected_list = ExpectedState::new(SenderRecord::Actuator, 0).listed(alloc)?;
    Ok(list.as_slice() == expected_list.as_bytes())
}
