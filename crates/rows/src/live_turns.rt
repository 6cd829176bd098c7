//! Serial lines and desks that are served in turns: which output gets what, and what it holds after each fault.
use crate::fake_streams::{LimitedWriter, PartReader, ZeroLengthWriter};
use crate::gateways::{new_gateway, serve_by_new_gateway};
use crate::report::Report;
use anyhow::{Result, bail};
use gateway_core::{DeviceStore, GatewayOver};
use gateway_loop::live;
use gateway_main::{OverRead, OverWrite, RunFault, Summary};
use std::alloc::Global;

const OK_LINE: &[u8] = b"{\"type\":\"ok\"}\n";

const SYNTAX_ERROR_LINE: &[u8] = b"{\"error\":\"syntax\",\"type\":\"error\"}\n";

const TOO_LONG_ERROR_LINE: &[u8] = b"{\"error\":\"too_long\",\"type\":\"error\"}\n";

const STATUS_LINE: &[u8] =
    b"{\"ignored\":1,\"mode\":\"closed\",\"readings\":0,\"refused\":0,\"responses\":0,\"teach\":0,\
    \"type\":\"status\"}\n";

// A contact telegram, its explanation if it is not learned, its teach line when it is, and its reading.
const CONTACT_PACKET: &[u8] =
    b"\x55\x00\x07\x07\x01\x7A\xD5\x09\x01\x80\x0A\xBC\x00\x01\xFF\xFF\xFF\xFF\x2D\x00\x1F";

const CONTACT_PACKET_LINE: &[u8] =
    b"{\"dbm\":-45,\"dest\":null,\"eep\":null,\"id\":\"01800ABC\",\"maker\":null,\
    \"payload\":\"09\",\"rorg\":\"D5\",\"status\":\"00\",\"type\":\"packet\",\"why\":\"unknown_sender\"}\n";

const CONTACT_TEACH_LINE: &[u8] =
    b"{\"eep\":\"D5-00-01\",\"id\":\"01800ABC\",\"maker\":null,\"result\":\"accepted\",\"type\":\"teach\"}\n";

const CONTACT_READING_LINE: &[u8] = b"{\"dbm\":-45,\"eep\":\"D5-00-01\",\"id\":\"01800ABC\",\
    \"readings\":[{\"name\":\"CO\",\"word\":\"closed\"}],\"type\":\"reading\"}\n";

// A UTE query, the reply to it, its explanation, and its teach line.
const UTE_QUERY_PACKET: &[u8] =
    b"\x55\x00\x0D\x07\x01\xFD\xD4\xA0\x01\x46\x00\x12\x01\xD2\x01\x80\x0A\xBC\x00\x01\
    \xFF\xFF\xFF\xFF\x2D\x00\x8A";

const UTE_REPLY_PACKET: &[u8] =
    b"\x55\x00\x0D\x07\x01\xFD\xD4\x91\x01\x46\x00\x12\x01\xD2\xFF\x80\x00\x00\x00\x03\
    \x01\x80\x0A\xBC\xFF\x00\xF3";

const UTE_QUERY_PACKET_LINE: &[u8] =
    b"{\"dbm\":-45,\"dest\":null,\"eep\":\"D2-01-12\",\"id\":\"01800ABC\",\"maker\":70,\
    \"payload\":\"A00146001201D2\",\"rorg\":\"D4\",\"status\":\"00\",\"type\":\"packet\",\"why\":\"accepted\"}\n";

const UTE_TEACH_LINE: &[u8] =
    b"{\"eep\":\"D2-01-12\",\"id\":\"01800ABC\",\"maker\":70,\"result\":\"accepted\",\"type\":\"teach\"}\n";

const BASE_ID_REQUEST: &[u8] = b"\x55\x00\x01\x00\x05\x70\x08\x38";

/// No call of a writer fails.
pub const NEVER_FAILS: usize = usize::MAX;

pub(crate) fn run_cases(rt: &HostRuntime, report: &mut Report) -> Result<()> {
    run_serial_before_desk(rt, report)?;
    run_radio_and_desk_outputs(rt, report)?;
    run_explanations(rt, report)?;
    run_lines_and_chunks(rt, report)?;
    run_line_lengths(rt, report)?;
    run_reads_that_fail(rt, report)?;
    run_writes_that_fail(rt, report)?;
    run_explained_writes_that_fail(rt, report)?;
    run_writers_that_take_nothing(rt, report)
}

/// How a gateway served some turns, and what it wrote.
#[derive(Drop)]
pub struct ServeEnd {
    pub run_result: Result<Summary, RunFault>,
    pub radio: Vec<u8>,
    pub desk: Vec<u8>,
}

impl ServeEnd {
    // Whether it ended with this result, with these bytes on each side.
    fn ended_with(
        &self,
        run_result: Result<Summary, RunFault>,
        radio: &[&[u8]],
        desk: &[&[u8]],
    ) -> bool {
        self.run_result == run_result
            && is_concatenation_of(&self.radio, radio)
            && is_concatenation_of(&self.desk, desk)
    }
}

// Whether the bytes are these parts, one after the other.
fn is_concatenation_of(bytes: &Vec<u8>, parts: &[&[u8]]) -> bool {
    let mut remaining = bytes.as_slice();
    for part in parts {
        match remaining.strip_prefix(*part) {
            Some(remaining_after) => remaining = remaining_after,
            None => return false,
        }
    }
    remaining.is_empty()
}

// Serves turns by a new gateway, with writers that take seven bytes at a call and fail at these calls.
fn serve(
    alloc: Global,
    serial: PartReader<'_>,
    desk: PartReader<'_>,
    turns: u64,
    fails_at: (usize, usize),
) -> Result<ServeEnd> {
    let mut gateway = new_gateway(alloc)?;
    let inputs = (serial, desk);
    serve_by(alloc, &mut gateway, inputs, false, turns, 7, fails_at)
}

// Serves two turns with explanations: a packet and two orders, and then a query. The writers take at most this many
// bytes at a call, and that of the desk fails at this call.
fn serve_explained(alloc: Global, max_len: usize, desk_fails_at: usize) -> Result<ServeEnd> {
    let mut gateway = new_gateway(alloc)?;
    let serial = [CONTACT_PACKET, UTE_QUERY_PACKET];
    let desk = [b"learn on\nbase\n".as_slice()];
    let inputs = (PartReader::new(&serial, 0), PartReader::new(&desk, 0));
    let fails_at = (NEVER_FAILS, desk_fails_at);
    serve_by(alloc, &mut gateway, inputs, true, 2, max_len, fails_at)
}

// Serves turns by this gateway, with explanations or without, and with writers that take at most this many bytes at a
// call and fail at these calls.
pub(crate) fn serve_by<S: DeviceStore>(
    alloc: Global,
    gateway: &mut GatewayOver<S>,
    inputs: (PartReader<'_>, PartReader<'_>),
    explains: bool,
    turns: u64,
    max_len: usize,
    fails_at: (usize, usize),
) -> Result<ServeEnd> {
    if gateway.is_ready() {
        bail!("a packet waits");
    }
    let (serial, desk) = inputs;
    let (radio_fails_at, desk_fails_at) = fails_at;
    let mut radio = Vec::new(alloc);
    let mut desk_text = Vec::new(alloc);
    let run_result = live(
        &mut OverRead::new(serial),
        &mut OverRead::new(desk),
        &mut OverWrite::new(LimitedWriter::new(&mut radio, max_len, radio_fails_at)),
        &mut OverWrite::new(LimitedWriter::new(&mut desk_text, max_len, desk_fails_at)),
        gateway,
        explains,
        turns,
    );
    Ok(ServeEnd {
        run_result,
        radio,
        desk: desk_text,
    })
}

// Serves turns that read these parts, with writers that do not fail.
fn serve_parts(alloc: Global, serial: &[&[u8]], desk: &[&[u8]], turns: u64) -> Result<ServeEnd> {
    serve(
        alloc,
        PartReader::new(serial, 0),
        PartReader::new(desk, 0),
        turns,
        (NEVER_FAILS, NEVER_FAILS),
    )
}

fn summary_of(items: u64) -> Result<Summary, RunFault> {
    Ok(Summary { items })
}

// In a turn the serial line comes first: its packet is counted before the status is reported, and a query before the
// window is open is ignored.
fn run_serial_before_desk(rt: &HostRuntime, report: &mut Report) -> Result<()> {
    let serve_end = serve_parts(rt.alloc(), &[CONTACT_PACKET], &[b"status\n".as_slice()], 1)?;
    report.add_case(
        rt,
        "a packet before an order",
        serve_end.ended_with(summary_of(2), &[], &[STATUS_LINE]),
    )?;
    let serve_end = serve_parts(
        rt.alloc(),
        &[UTE_QUERY_PACKET],
        &[b"learn on\n".as_slice()],
        1,
    )?;
    report.add_case(
        rt,
        "a query before its window",
        serve_end.ended_with(summary_of(2), &[], &[OK_LINE]),
    )
}

// The reply is sent by radio unchanged, and the desk receives what was learned. With 0 turns it returns `Ok`, and
// readers and writers that would fail are not called.
fn run_radio_and_desk_outputs(rt: &HostRuntime, report: &mut Report) -> Result<()> {
    let alloc = rt.alloc();
    let desk = [b"learn on\r\nba".as_slice(), b"se\n"];
    let serve_end = serve_parts(alloc, &[b"".as_slice(), UTE_QUERY_PACKET], &desk, 2)?;
    let is_correct = serve_end.ended_with(
        summary_of(3),
        &[UTE_REPLY_PACKET, BASE_ID_REQUEST],
        &[OK_LINE, UTE_TEACH_LINE, OK_LINE],
    );
    report.add_case(rt, "a query answered by radio", is_correct)?;
    let serve_end = serve(
        alloc,
        PartReader::new(&[], 1),
        PartReader::new(&[], 1),
        0,
        (1, 1),
    )?;
    report.add_case(
        rt,
        "no turns",
        serve_end.ended_with(summary_of(0), &[], &[]),
    )
}

// A packet is explained before its own line. Explanations change neither the radio bytes nor the answers to orders.
fn run_explanations(rt: &HostRuntime, report: &mut Report) -> Result<()> {
    let serve_end = serve_explained(rt.alloc(), 7, NEVER_FAILS)?;
    let expected_text = [
        CONTACT_PACKET_LINE,
        OK_LINE,
        OK_LINE,
        UTE_QUERY_PACKET_LINE,
        UTE_TEACH_LINE,
    ];
    let is_correct = serve_end.ended_with(
        summary_of(4),
        &[BASE_ID_REQUEST, UTE_REPLY_PACKET],
        &expected_text,
    );
    report.add_case(rt, "packets that are explained", is_correct)
}

// A packet may arrive in chunks, and bytes that are LF or digits have no special meaning on the serial line. A line of
// the desk is always an order, and is complete at its LF, without one CR. A partial line at the end of the turns is
// dropped.
fn run_lines_and_chunks(rt: &HostRuntime, report: &mut Report) -> Result<()> {
    let serial = [
        b"S \n".as_slice(),
        &CONTACT_PACKET[..10],
        &CONTACT_PACKET[10..],
    ];
    let desk = [b"add 01800ABC D5-00-01\n".as_slice(), b"S 00\nS", b"\n"];
    let serve_end = serve_parts(rt.alloc(), &serial, &desk, 3)?;
    let is_correct = serve_end.ended_with(
        summary_of(4),
        &[],
        &[
            CONTACT_TEACH_LINE,
            SYNTAX_ERROR_LINE,
            CONTACT_READING_LINE,
            SYNTAX_ERROR_LINE,
        ],
    );
    report.add_case(rt, "pieces and lines", is_correct)?;
    let is_dropped = drops_partial_line(rt.alloc())?;
    report.add_case(rt, "a line that is not ended", is_dropped)
}

fn drops_partial_line(alloc: Global) -> Result<bool> {
    let mut gateway = new_gateway(alloc)?;
    let first_answer = desk_after(alloc, &mut gateway, b"lea")?;
    let second_answer = desk_after(alloc, &mut gateway, b"rn on\n")?;
    Ok(first_answer.is_empty() && second_answer.as_slice() == SYNTAX_ERROR_LINE)
}

// What the desk receives in one more turn, in which it sends these bytes and the serial line none.
fn desk_after<S: DeviceStore>(
    alloc: Global,
    gateway: &mut GatewayOver<S>,
    bytes: &[u8],
) -> Result<Vec<u8>> {
    if gateway.is_ready() {
        bail!("a packet waits");
    }
    let mut desk_text = Vec::new(alloc);
    let run_result = live(
        &mut OverRead::new(b"".as_slice()),
        &mut OverRead::new(bytes),
        &mut OverWrite::new(Vec::new(alloc)),
        &mut OverWrite::new(&mut desk_text),
        gateway,
        false,
        1,
    );
    if run_result.is_err() {
        bail!("a turn failed");
    }
    Ok(desk_text)
}

// Whether the desk receives this for 100 letters, this many more, and this end, across three reads.
fn desk_receives(
    alloc: Global,
    length: usize,
    line_end: &[u8],
    expected_text: &[u8],
) -> Result<bool> {
    let line = [b'x'; 201];
    let (line_start, line_rest) = line.split_at(100);
    let serve_end = serve_parts(
        alloc,
        &[],
        &[line_start, &line_rest[..length.min(101)], line_end],
        3,
    )?;
    Ok(serve_end.ended_with(summary_of(1), &[], &[expected_text]))
}

// A line's end does not count towards its 200 bytes.
fn run_line_lengths(rt: &HostRuntime, report: &mut Report) -> Result<()> {
    let cases: [(&str, usize, &[u8], &[u8]); 4] = [
        (
            "200 bytes of the desk and LF",
            100,
            b"\n",
            SYNTAX_ERROR_LINE,
        ),
        (
            "200 bytes of the desk, CR and LF",
            100,
            b"\r\n",
            SYNTAX_ERROR_LINE,
        ),
        (
            "201 bytes of the desk and LF",
            101,
            b"\n",
            TOO_LONG_ERROR_LINE,
        ),
        (
            "201 bytes of the desk, CR and LF",
            101,
            b"\r\n",
            TOO_LONG_ERROR_LINE,
        ),
    ];
    for (name, length, line_end, expected_text) in cases {
        report.add_case(
            rt,
            name,
            desk_receives(rt.alloc(), length, line_end, expected_text)?,
        )?;
    }
    Ok(())
}

// Serves two turns, in which a query and the order `base` are answered, with readers and writers that fail at these
// calls.
fn serve_query(
    alloc: Global,
    read_fails_at: (usize, usize),
    write_fails_at: (usize, usize),
) -> Result<ServeEnd> {
    let (serial_fails_at, desk_fails_at) = read_fails_at;
    let serial = [b"".as_slice(), UTE_QUERY_PACKET];
    let desk = [b"learn on\n".as_slice(), b"base\n"];
    let serial = PartReader::new(&serial, serial_fails_at);
    serve(
        alloc,
        serial,
        PartReader::new(&desk, desk_fails_at),
        2,
        write_fails_at,
    )
}

// Each read fails in turn: what arrived before it is handled.
fn run_reads_that_fail(rt: &HostRuntime, report: &mut Report) -> Result<()> {
    let cases: [(&str, (usize, usize), &[&[u8]], &[&[u8]]); 4] = [
        ("the first read of the serial line", (1, 0), &[], &[]),
        ("the first read of the desk", (0, 1), &[], &[]),
        (
            "the second read of the serial line",
            (2, 0),
            &[],
            &[OK_LINE],
        ),
        (
            "the second read of the desk",
            (0, 2),
            &[UTE_REPLY_PACKET],
            &[OK_LINE, UTE_TEACH_LINE],
        ),
    ];
    for (name, fails_at, radio, desk) in cases {
        let serve_end = serve_query(rt.alloc(), fails_at, (NEVER_FAILS, NEVER_FAILS))?;
        report.add_case(
            rt,
            name,
            serve_end.ended_with(Err(RunFault::Read), radio, desk),
        )?;
    }
    Ok(())
}

// Whether the gateway ends with `Write`, and each writer has exactly this many first bytes, if its writers fail from
// these calls on.
fn breaks_off_at(
    alloc: Global,
    fails_at: (usize, usize),
    radio_len: usize,
    desk_len: usize,
) -> Result<bool> {
    let whole_end = serve_query(alloc, (0, 0), (NEVER_FAILS, NEVER_FAILS))?;
    let broken_end = serve_query(alloc, (0, 0), fails_at)?;
    Ok(
        whole_end.ended_with(
            summary_of(3),
            &[UTE_REPLY_PACKET, BASE_ID_REQUEST],
            &[OK_LINE, UTE_TEACH_LINE, OK_LINE],
        ) && broken_end.run_result == Err(RunFault::Write)
            && Some(broken_end.radio.as_slice()) == whole_end.radio.as_slice().get(..radio_len)
            && Some(broken_end.desk.as_slice()) == whole_end.desk.as_slice().get(..desk_len),
    )
}

// Each write to the serial line fails in turn. The desk receives nothing for the packet or order, and nothing later.
// The reply takes four writes of seven bytes, the last of which has six, and the request two. Then each write to the
// desk fails in turn. The radio bytes of the packet or order are sent, and nothing later. The window's line takes two
// writes, the teach line twelve, the last of which has four, and the answer to `base` two.
fn run_writes_that_fail(rt: &HostRuntime, report: &mut Report) -> Result<()> {
    let alloc = rt.alloc();
    for (fails_at, radio_len, desk_len) in [
        (1, 0, 14),
        (2, 7, 14),
        (3, 14, 14),
        (4, 21, 14),
        (5, 27, 95),
        (6, 34, 95),
    ] {
        let name = format!(in alloc; "write {fails_at} to the serial line")?;
        let is_correct = breaks_off_at(alloc, (fails_at, NEVER_FAILS), radio_len, desk_len)?;
        report.add_case(rt, name.as_str(), is_correct)?;
    }
    for fails_at in 1..=16 {
        let (radio_len, desk_len) = match fails_at {
            1 | 2 => (0, 7 * (fails_at - 1)),
            3..=14 => (27, 14 + 7 * (fails_at - 3)),
            _ => (35, 95 + 7 * (fails_at - 15)),
        };
        let name = format!(in alloc; "write {fails_at} to the desk")?;
        let is_correct = breaks_off_at(alloc, (NEVER_FAILS, fails_at), radio_len, desk_len)?;
        report.add_case(rt, name.as_str(), is_correct)?;
    }
    Ok(())
}

// With explanations, each write to the desk fails in turn. The mutant of `replays` prints `at 0, differs` here.
fn run_explained_writes_that_fail(rt: &HostRuntime, report: &mut Report) -> Result<()> {
    let first_wrong = first_wrong_explained(rt.alloc())?;
    report.add_first_wrong(
        rt,
        "each write to the desk that explains fails in turn",
        first_wrong,
    )
}

// Returns the first number of bytes written to the desk before a failure for which its text does not break off there,
// or the radio bytes are not exactly those up to there.
fn first_wrong_explained(alloc: Global) -> Result<Option<usize>> {
    // the radio bytes, and the lines for the desk after them
    let parts: [(&[u8], &[u8]); 5] = [
        (b"", CONTACT_PACKET_LINE),
        (b"", OK_LINE),
        (BASE_ID_REQUEST, OK_LINE),
        (UTE_REPLY_PACKET, UTE_QUERY_PACKET_LINE),
        (b"", UTE_TEACH_LINE),
    ];
    let mut radio = Vec::new(alloc);
    let mut desk = Vec::new(alloc);
    for (radio_bytes, lines) in parts {
        radio.extend_from_slice(radio_bytes)?;
        for byte in lines {
            let serve_end = serve_explained(alloc, 1, desk.len().saturating_add(1))?;
            if !serve_end.ended_with(
                Err(RunFault::Write),
                &[radio.as_slice()],
                &[desk.as_slice()],
            ) {
                return Ok(Some(desk.len()));
            }
            desk.push(*byte)?;
        }
    }
    Ok(None)
}

// A writer that takes 0 bytes ends the gateway like one that fails.
fn run_writers_that_take_nothing(rt: &HostRuntime, report: &mut Report) -> Result<()> {
    let alloc = rt.alloc();
    let mut desk = Vec::new(alloc);
    let serial = (
        &mut OverRead::new(b"".as_slice()),
        &mut OverWrite::new(ZeroLengthWriter),
    );
    let orders = (
        &mut OverRead::new(b"base\n".as_slice()),
        &mut OverWrite::new(&mut desk),
    );
    let run_result = serve_by_new_gateway(alloc, serial, orders, 1)?;
    let is_correct = run_result == Err(RunFault::Write) && desk.is_empty();
    report.add_case(rt, "a serial line that takes nothing", is_correct)?;
    let mut radio = Vec::new(alloc);
    let serial = (
        &mut OverRead::new(b"".as_slice()),
        &mut OverWrite::new(&mut radio),
    );
    let orders = (
        &mut OverRead::new(b"base\n".as_slice()),
        &mut OverWrite::new(ZeroLengthWriter),
    );
    let run_result = serve_by_new_gateway(alloc, serial, orders, 1)?;
    let is_correct = run_result == Err(RunFault::Write) && radio.as_slice() == BASE_ID_REQUEST;
    report.add_case(rt, "a desk that takes nothing", is_correct)
}
