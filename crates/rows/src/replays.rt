//! Replays of short scripts, with readers and writers that fail, and with lines of maximum length.
use crate::fake_streams::{LimitedWriter, PartReader, ZeroLengthWriter};
use crate::gateways::replay_by_new_gateway;
use crate::golden_sessions::read_session;
use crate::report::Report;
use anyhow::Result;
use gateway_main::{OverRead, OverWrite, RunFault, Source, Summary};
use std::alloc::Global;

const SYNTAX_ERROR_LINE: &[u8] = b"{\"error\":\"syntax\",\"type\":\"error\"}\n";

const TOO_LONG_ERROR_LINE: &[u8] = b"{\"error\":\"too_long\",\"type\":\"error\"}\n";

const EMPTY_LIST_LINE: &[u8] = b"{\"count\":0,\"type\":\"list\"}\n";

pub(crate) fn run_cases(rt: &HostRuntime, report: &mut Report) -> Result<()> {
    run_read_limits(rt, report)?;
    run_input_counts(rt, report)?;
    run_line_lengths(rt, report)?;
    run_line_ends(rt, report)?;
    run_failing_reads(rt, report)?;
    run_failing_writes(rt, report)?;
    run_explained_failing_writes(rt, report)
}

// Whether a replay has this result, and this is written.
fn replay_has_result<R: Source>(
    alloc: Global,
    reader: &mut R,
    turns: u64,
    expected_result: Result<Summary, RunFault>,
    text: &[u8],
) -> Result<bool> {
    let mut output = Vec::new(alloc);
    let mut writer = OverWrite::new(&mut output);
    let result = replay_by_new_gateway(alloc, reader, &mut writer, false, turns)?;
    Ok(result == expected_result && output.as_slice() == text)
}

// Whether this is written for a script that is replayed to its end.
pub(crate) fn replay_writes(alloc: Global, script: &[u8], text: &[u8]) -> Result<bool> {
    let mut output = Vec::new(alloc);
    let mut reader = OverRead::new(script);
    let mut writer = OverWrite::new(&mut output);
    let result = replay_by_new_gateway(alloc, &mut reader, &mut writer, false, 9)?;
    Ok(result.is_ok() && output.as_slice() == text)
}

// The end of the script is a read of its own.
fn run_read_limits(rt: &HostRuntime, report: &mut Report) -> Result<()> {
    let script = b"\n".as_slice();
    let too_many = Err(RunFault::TooManyTurns);
    let is_correct = replay_has_result(
        rt.alloc(),
        &mut OverRead::new(script),
        1,
        too_many,
        SYNTAX_ERROR_LINE,
    )?;
    report.add_case(rt, "a turn too few", is_correct)?;
    let one_input = Ok(Summary { items: 1 });
    let is_correct = replay_has_result(
        rt.alloc(),
        &mut OverRead::new(script),
        2,
        one_input,
        SYNTAX_ERROR_LINE,
    )?;
    report.add_case(rt, "just enough turns", is_correct)
}

const CONTACT_READING: &[u8] =
    b"{\"eep\":\"D5-00-01\",\"id\":\"01800ABC\",\"maker\":null,\"result\":\"accepted\",\"type\":\"teach\"}\n\
    {\"dbm\":-45,\"eep\":\"D5-00-01\",\"id\":\"01800ABC\",\
    \"readings\":[{\"name\":\"CO\",\"word\":\"closed\"}],\"type\":\"reading\"}\n";

// An order and a packet are two inputs, even if the packet is in two chunks and the last line has no end.
fn run_input_counts(rt: &HostRuntime, report: &mut Report) -> Result<()> {
    let script =
        b"add 01800ABC D5-00-01\nS 55000707017AD50901800ABC0001FFFFFFFF2D001F\n".as_slice();
    let two_inputs = Ok(Summary { items: 2 });
    let is_correct = replay_has_result(
        rt.alloc(),
        &mut OverRead::new(script),
        2,
        two_inputs,
        CONTACT_READING,
    )?;
    report.add_case(rt, "two items", is_correct)?;
    let script =
        b"add 01800abc d5-00-01\r\nS 55000707017ad50901800A\nS BC0001ffffffff2d001f".as_slice();
    let is_correct = replay_has_result(
        rt.alloc(),
        &mut OverRead::new(script),
        2,
        two_inputs,
        CONTACT_READING,
    )?;
    report.add_case(rt, "two items in three lines", is_correct)
}

// A line of this many letters with this end. With 100 bytes of a chunk before it, it is split between two reads.
fn line_of(alloc: Global, length: usize, line_end: &[u8]) -> Result<Vec<u8>> {
    let mut script = Vec::new(alloc);
    script.extend_from_slice(b"S ")?;
    script.extend_from_slice(&[b'0'; 98])?;
    script.extend_from_slice(b"\n")?;
    script.extend_from_slice(&[b'x'; 201][..length.min(201)])?;
    script.extend_from_slice(line_end)?;
    Ok(script)
}

// A line's end does not count towards its 200 bytes.
fn run_line_lengths(rt: &HostRuntime, report: &mut Report) -> Result<()> {
    let cases: [(&str, usize, &[u8], &[u8]); 6] = [
        ("200 bytes and LF", 200, b"\n", SYNTAX_ERROR_LINE),
        ("200 bytes, CR and LF", 200, b"\r\n", SYNTAX_ERROR_LINE),
        ("200 bytes and no end", 200, b"", SYNTAX_ERROR_LINE),
        ("201 bytes and LF", 201, b"\n", TOO_LONG_ERROR_LINE),
        ("201 bytes, CR and LF", 201, b"\r\n", TOO_LONG_ERROR_LINE),
        ("200 bytes and CR", 200, b"\r", TOO_LONG_ERROR_LINE),
    ];
    for (name, length, line_end, expected_output) in cases {
        let script = line_of(rt.alloc(), length, line_end)?;
        report.add_case(
            rt,
            name,
            replay_writes(rt.alloc(), script.as_slice(), expected_output)?,
        )?;
    }
    Ok(())
}

// One CR before LF belongs to the end of a line, and a CR before the end of the script to the line.
fn run_line_ends(rt: &HostRuntime, report: &mut Report) -> Result<()> {
    let cases: [(&str, &[u8], &[u8]); 7] = [
        ("a line with LF", b"list\n", EMPTY_LIST_LINE),
        ("a line with CR and LF", b"list\r\n", EMPTY_LIST_LINE),
        ("a line with no end", b"list", EMPTY_LIST_LINE),
        ("a line with CR", b"list\r", SYNTAX_ERROR_LINE),
        (
            "a line with two CR and LF",
            b"list\r\r\n",
            SYNTAX_ERROR_LINE,
        ),
        ("LF alone", b"\n", SYNTAX_ERROR_LINE),
        ("CR and LF alone", b"\r\n", SYNTAX_ERROR_LINE),
    ];
    for (name, script, expected_output) in cases {
        report.add_case(
            rt,
            name,
            replay_writes(rt.alloc(), script, expected_output)?,
        )?;
    }
    Ok(())
}

fn run_failing_reads(rt: &HostRuntime, report: &mut Report) -> Result<()> {
    let alloc = rt.alloc();
    let one_input = Ok(Summary { items: 1 });
    let script = [b"\n".as_slice()];
    let mut reader = OverRead::new(PartReader::new(&script, 0));
    let is_correct = replay_has_result(alloc, &mut reader, 2, one_input, SYNTAX_ERROR_LINE)?;
    report.add_case(rt, "a read of 256 bytes", is_correct)?;
    let script = [b"\nadd 01800ABC D5".as_slice()];
    let mut reader = OverRead::new(PartReader::new(&script, 2));
    let is_correct = replay_has_result(
        alloc,
        &mut reader,
        9,
        Err(RunFault::Read),
        SYNTAX_ERROR_LINE,
    )?;
    report.add_case(rt, "a read that fails", is_correct)
}

fn run_failing_writes(rt: &HostRuntime, report: &mut Report) -> Result<()> {
    let alloc = rt.alloc();
    let script = b"\n\n".as_slice();
    let mut output = Vec::new(alloc);
    let mut writer = OverWrite::new(LimitedWriter::new(&mut output, 1, 16));
    let result = replay_by_new_gateway(alloc, &mut OverRead::new(script), &mut writer, false, 9)?;
    let is_correct = result == Err(RunFault::Write)
        && output.as_slice() == b"{\"error\":\"synta".as_slice();
    report.add_case(rt, "a write that fails", is_correct)?;
    let mut writer = OverWrite::new(ZeroLengthWriter);
    let result = replay_by_new_gateway(alloc, &mut OverRead::new(script), &mut writer, false, 9)?;
    report.add_case(
        rt,
        "a writer that takes nothing",
        result == Err(RunFault::Write),
    )
}

// With explanations, each write fails in turn. Mutant: an output that continues after a failed write of the line that
// explains a packet. It prints `at 83, differs`.
fn run_explained_failing_writes(rt: &HostRuntime, report: &mut Report) -> Result<()> {
    let (script, text) = read_session(rt, "every-kind-of-item", true)?;
    let first_wrong = first_wrong_explained(rt.alloc(), script.as_slice(), text.as_slice())?;
    report.add_first_wrong(
        rt,
        "each write of a replay that explains fails in turn",
        first_wrong,
    )
}

// Returns the first number of bytes written before a failure for which the script's text with explanations does not
// break off there.
fn first_wrong_explained(alloc: Global, script: &[u8], text: &[u8]) -> Result<Option<usize>> {
    for output_len in 0..text.len() {
        let mut output = Vec::new(alloc);
        let mut writer = OverWrite::new(LimitedWriter::new(
            &mut output,
            1,
            output_len.saturating_add(1),
        ));
        let result = replay_by_new_gateway(
            alloc,
            &mut OverRead::new(script),
            &mut writer,
            true,
            99,
        )?;
        if result != Err(RunFault::Write) || Some(output.as_slice()) != text.get(..output_len) {
            return Ok(Some(output_len));
        }
    }
    Ok(None)
}
