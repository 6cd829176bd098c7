//! A live gateway that serves the script, in which one read or one write fails, at each position in turn: what is then
//! written, and what the gateway knows.
use super::faults::has_state;
use super::script::{SCRIPT_INPUTS, ScriptOutcome, outcome_of_first};
use super::turns::{Turns, serve, turns_of_script};
use crate::gateways::new_gateway;
use crate::live_turns::NEVER_FAILS;
use crate::report::Report;
use anyhow::Result;
use gateway_main::RunFault;
use std::alloc::Global;

// What fails, each time the call with one number: a read of the serial line and one of the desk, or a write to each.
#[derive(Clone, Copy)]
enum FailingCall {
    Reads((usize, usize)),
    Writes((usize, usize)),
}

// The mutants of `faults` print `at 4, differs` and `at 188, differs` here.
pub(crate) fn run_cases(rt: &HostRuntime, report: &mut Report) -> Result<()> {
    let first_wrong = first_wrong_read(rt.alloc())?;
    report.add_first_wrong(rt, "each read of a live gateway fails in turn", first_wrong)?;
    let first_wrong = first_wrong_write(rt.alloc())?;
    report.add_first_wrong(
        rt,
        "each write of a live gateway fails in turn",
        first_wrong,
    )
}

// The first turn in which a read fails and anything is wrong.
fn first_wrong_read(alloc: Global) -> Result<Option<usize>> {
    let turns = turns_of_script(alloc)?;
    for (input_count, input) in SCRIPT_INPUTS.iter().enumerate() {
        let turn = input_count.saturating_add(1);
        let is_packet = input.digits().is_some();
        let input_count_at_desk = if is_packet { turn } else { input_count };
        let is_correct = handles_read_fault(alloc, &turns, (turn, 0), input_count)?
            && handles_read_fault(alloc, &turns, (0, turn), input_count_at_desk)?;
        if !is_correct {
            return Ok(Some(turn));
        }
    }
    Ok(None)
}

// Whether exactly this many inputs are done if these reads fail, of the serial line and of the desk.
fn handles_read_fault(
    alloc: Global,
    turns: &Turns,
    fails_at: (usize, usize),
    input_count: usize,
) -> Result<bool> {
    let outcome = outcome_of_first(alloc, input_count)?;
    let output_lens = (outcome.radio.len(), outcome.desk.len());
    handles_fault(
        alloc,
        turns,
        FailingCall::Reads(fails_at),
        output_lens,
        &outcome,
    )
}

// The first number of bytes that were written on one side before a write there failed, if anything is wrong then.
fn first_wrong_write(alloc: Global) -> Result<Option<usize>> {
    let turns = turns_of_script(alloc)?;
    for input_count in 0..SCRIPT_INPUTS.len() {
        let outcome_before = outcome_of_first(alloc, input_count)?;
        let outcome_after = outcome_of_first(alloc, input_count.saturating_add(1))?;
        for output_len in outcome_before.radio.len()..outcome_after.radio.len() {
            let failing_call = FailingCall::Writes((output_len.saturating_add(1), NEVER_FAILS));
            if !handles_fault(
                alloc,
                &turns,
                failing_call,
                (output_len, outcome_before.desk.len()),
                &outcome_after,
            )? {
                return Ok(Some(output_len));
            }
        }
        for output_len in outcome_before.desk.len()..outcome_after.desk.len() {
            let failing_call = FailingCall::Writes((NEVER_FAILS, output_len.saturating_add(1)));
            if !handles_fault(
                alloc,
                &turns,
                failing_call,
                (outcome_after.radio.len(), output_len),
                &outcome_after,
            )? {
                return Ok(Some(output_len));
            }
        }
    }
    Ok(None)
}

// Whether a live gateway in which this fails ends with its fault, exactly this many bytes are written by radio and to
// the desk, and it knows what it should after the inputs.
fn handles_fault(
    alloc: Global,
    turns: &Turns,
    failing_call: FailingCall,
    output_lens: (usize, usize),
    outcome: &ScriptOutcome,
) -> Result<bool> {
    let (fault, failing_reads, failing_writes) = match failing_call {
        FailingCall::Reads(failing_reads) => (
            RunFault::Read,
            failing_reads,
            (NEVER_FAILS, NEVER_FAILS),
        ),
        FailingCall::Writes(failing_writes) => (RunFault::Write, (0, 0), failing_writes),
    };
    let (radio_len, desk_len) = output_lens;
    let mut gateway = new_gateway(alloc)?;
    let serve_end = serve(alloc, &mut gateway, turns, failing_reads, failing_writes)?;
    Ok(
        serve_end.run_result == Err(fault)
            && Some(serve_end.radio.as_slice()) == outcome.radio.as_slice().get(..radio_len)
            && Some(serve_end.desk.as_slice()) == outcome.desk.as_slice().get(..desk_len)
            && has_state(alloc, &mut gateway, &outcome.state)?,
    )
}
