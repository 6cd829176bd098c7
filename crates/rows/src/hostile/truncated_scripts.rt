//! Scripts that end after each of their bytes, and serial lines that end, or pause, after each of theirs.
use super::script::{
    ExpectedState, OK_LINE, SCRIPT_INPUTS, SYNTAX_ERROR_LINE, ScriptInput, SenderRecord, outcome_of,
};
use super::turns::{serve_by_new_gateway, turns_with_end, turns_with_pause};
use crate::replays::replay_writes;
use crate::report::Report;
use anyhow::Result;
use std::alloc::Global;

// A contact telegram with a wrong last byte.
const WRONG_LAST_BYTE: &[u8] = b"S 55000707017AD50901800ABC0001FFFFFFFF2D001E";

// A line of a script, and its output.
#[derive(Drop)]
struct ScriptLine {
    line: &'static [u8],
    text: Vec<u8>,
}

// Two mutants: a replay that drops a last line of one byte, and a live gateway that drops a chunk of one byte. All
// three cases print `at 1, differs`, the first two for the replay.
pub(crate) fn run_cases(rt: &HostRuntime, report: &mut Report) -> Result<()> {
    let alloc = rt.alloc();
    let script = lines_of_inputs(alloc, &SCRIPT_INPUTS, &[])?;
    let first_wrong = first_wrong_end(alloc, script.as_slice())?;
    report.add_first_wrong(rt, "a script that ends behind each byte", first_wrong)?;
    let script = lines_of_inputs(alloc, &[ScriptInput::Add], &[ScriptInput::Contact])?;
    let first_wrong = first_wrong_end(alloc, script.as_slice())?;
    report.add_first_wrong(
        rt,
        "a wrong last byte and an end behind each byte",
        first_wrong,
    )?;
    let first_wrong = first_wrong_line(alloc)?;
    report.add_first_wrong(
        rt,
        "a serial line that ends or pauses behind each byte",
        first_wrong,
    )
}

fn add_lines(
    alloc: Global,
    lines: &mut Vec<ScriptLine>,
    state: &mut ExpectedState,
    inputs: &[ScriptInput],
) -> Result<()> {
    for input in inputs {
        let mut text = Vec::new(alloc);
        state.apply(alloc, *input)?.add_to(&mut text)?;
        lines.push(ScriptLine {
            line: input.line(),
            text,
        })?;
    }
    Ok(())
}

// The lines of these inputs, and, if there are any, those of others after a packet with a wrong last byte.
fn lines_of_inputs(
    alloc: Global,
    inputs: &[ScriptInput],
    inputs_after: &[ScriptInput],
) -> Result<Vec<ScriptLine>> {
    let mut lines = Vec::new(alloc);
    let mut state = ExpectedState::new(SenderRecord::Nothing, 0);
    add_lines(alloc, &mut lines, &mut state, inputs)?;
    if !inputs_after.is_empty() {
        lines.push(ScriptLine {
            line: WRONG_LAST_BYTE,
            text: Vec::new(alloc),
        })?;
    }
    add_lines(alloc, &mut lines, &mut state, inputs_after)?;
    Ok(lines)
}

// The first number of bytes after which the script ends and the output is wrong, if any.
fn first_wrong_end(alloc: Global, lines: &[ScriptLine]) -> Result<Option<usize>> {
    let mut script = Vec::new(alloc);
    let mut text = Vec::new(alloc);
    for line in lines {
        for len in 0..line.line.len() {
            let partial_line = &line.line[..len];
            if !handles_end(
                alloc,
                (&script, partial_line),
                (&text, output_for_partial_line(partial_line)),
            )? {
                return Ok(Some(script.len().saturating_add(len)));
            }
        }
        if !handles_end(alloc, (&script, line.line), (&text, &line.text))? {
            return Ok(Some(script.len().saturating_add(line.line.len())));
        }
        script.extend_from_slice(line.line)?;
        script.push(b'\n')?;
        text.extend_from_slice(&line.text)?;
    }
    let is_correct = handles_end(alloc, (&script, b""), (&text, b""))?;
    Ok((!is_correct).then_some(script.len()))
}

// Whether this is written for a script that ends within a line.
fn handles_end(alloc: Global, script: (&[u8], &[u8]), text: (&[u8], &[u8])) -> Result<bool> {
    replay_writes(alloc, &joined(alloc, script)?, &joined(alloc, text)?)
}

fn joined(alloc: Global, parts: (&[u8], &[u8])) -> Result<Vec<u8>> {
    let mut bytes = Vec::new(alloc);
    bytes.extend_from_slice(parts.0)?;
    bytes.extend_from_slice(parts.1)?;
    Ok(bytes)
}

// The output for a prefix of a line, whose rest does not arrive. It is a line itself, if it is not empty: a chunk
// without a whole packet, or an order. Of such orders only `learn on` is valid.
fn output_for_partial_line(partial_line: &[u8]) -> &'static [u8] {
    match partial_line.strip_prefix(b"S ".as_slice()) {
        Some(digits) if digits.len() % 2 == 0 => b"",
        _ if partial_line.is_empty() => b"",
        _ if partial_line == b"learn on".as_slice() => OK_LINE,
        _ => SYNTAX_ERROR_LINE,
    }
}

// The first number of serial bytes after which the line ends or pauses and the output is wrong, if any.
fn first_wrong_line(alloc: Global) -> Result<Option<usize>> {
    let mut byte_count = 0usize;
    for (input_index, input) in SCRIPT_INPUTS.iter().enumerate() {
        let Some(digits) = input.digits() else {
            continue;
        };
        for len in 0..=digits.len() / 2 {
            if !handles_pause(alloc, input_index, len)?
                || !handles_line_end(alloc, input_index, len)?
            {
                return Ok(Some(byte_count.saturating_add(len)));
            }
        }
        byte_count = byte_count.saturating_add(digits.len() / 2);
    }
    Ok(None)
}

// Whether everything is written if this many bytes of a packet arrive in one turn, and the others in the next.
fn handles_pause(alloc: Global, input_index: usize, len: usize) -> Result<bool> {
    let serve_end = serve_by_new_gateway(alloc, &turns_with_pause(alloc, input_index, len)?)?;
    let expected_outcome = outcome_of(alloc, &SCRIPT_INPUTS)?;
    Ok(
        serve_end.run_result.is_ok()
            && serve_end.radio.as_slice() == expected_outcome.radio.as_slice()
            && serve_end.desk.as_slice() == expected_outcome.desk.as_slice(),
    )
}

// Whether the packets before it and all orders are answered if the line ends after this many bytes of a packet.
fn handles_line_end(alloc: Global, input_index: usize, len: usize) -> Result<bool> {
    let mut inputs = Vec::new(alloc);
    for (turn, input) in SCRIPT_INPUTS.iter().enumerate() {
        let is_whole = match input.digits() {
            Some(digits) => turn < input_index || turn == input_index && len == digits.len() / 2,
            None => true,
        };
        if is_whole {
            inputs.push(*input)?;
        }
    }
    let serve_end = serve_by_new_gateway(alloc, &turns_with_end(alloc, input_index, len)?)?;
    let expected_outcome = outcome_of(alloc, inputs.as_slice())?;
    Ok(
        serve_end.run_result.is_ok()
            && serve_end.radio.as_slice() == expected_outcome.radio.as_slice()
            && serve_end.desk.as_slice() == expected_outcome.desk.as_slice(),
    )
}
