//! New gateways over databases in memory, and one over what another has learned.
use crate::report::Report;
use anyhow::{Result, bail};
use device_registry::{MAX_CACHED, Registry, RegistryOver, SqlConnection};
use gateway_core::{DeviceStore, Gateway, GatewayOver, Reply, StartFault};
use gateway_loop::{live, replay};
use gateway_main::fault::Fault;
use gateway_main::{OverRead, OverWrite, RunFault, Sink, Source, Summary, start};
use sqlite::{Connection, MemStore};
use std::alloc::Global;

/// The base ID of the radio module in every case.
pub const BASE: u32 = 0xFF80_0000;

// A new gateway, over a new database.
pub(crate) fn new_gateway(
    alloc: Global,
) -> Result<GatewayOver<RegistryOver<Connection<MemStore>>>, Fault> {
    let conn = Connection::open_in_memory(alloc)?;
    start(alloc, conn, BASE, MAX_CACHED).map_err(|(fault, _)| fault)
}

// Replays a script by a new gateway, with explanations or without.
pub(crate) fn replay_by_new_gateway<R: Source, W: Sink>(
    alloc: Global,
    reader: &mut R,
    writer: &mut W,
    explains: bool,
    turns: u64,
) -> Result<Result<Summary, RunFault>, Fault> {
    let conn = Connection::open_in_memory(alloc)?;
    let mut gateway = match start(alloc, conn, BASE, MAX_CACHED) {
        Ok(gateway) => gateway,
        Err((fault, _)) => return Err(fault),
    };
    Ok(replay(reader, writer, &mut gateway, explains, turns))
}

// More reads than a script needs that is replayed by a gateway after others.
const MAX_READS: u64 = 100;

// The output for a script that this gateway replays to its end.
pub(crate) fn replay_output_of<S: DeviceStore>(
    alloc: Global,
    gateway: &mut GatewayOver<S>,
    script: &[u8],
) -> Result<Vec<u8>> {
    if gateway.is_ready() {
        bail!("a packet waits");
    }
    let mut output = Vec::new(alloc);
    let mut reader = OverRead::new(script);
    let mut writer = OverWrite::new(&mut output);
    if replay(&mut reader, &mut writer, gateway, false, MAX_READS).is_err() {
        bail!("a replay broke off");
    }
    Ok(output)
}

// Serves a serial line and a desk by a new gateway.
pub(crate) fn serve_by_new_gateway<P: Source, Q: Source, R: Sink, D: Sink>(
    alloc: Global,
    serial: (&mut P, &mut R),
    desk: (&mut Q, &mut D),
    turns: u64,
) -> Result<Result<Summary, RunFault>, Fault> {
    let conn = Connection::open_in_memory(alloc)?;
    let mut gateway = match start(alloc, conn, BASE, MAX_CACHED) {
        Ok(gateway) => gateway,
        Err((fault, _)) => return Err(fault),
    };
    let (serial_in, serial_out) = serial;
    let (desk_in, desk_out) = desk;
    Ok(live(
        serial_in,
        desk_in,
        serial_out,
        desk_out,
        &mut gateway,
        false,
        turns,
    ))
}

pub(crate) fn run_cases(rt: &HostRuntime, report: &mut Report) -> Result<()> {
    report.add_case(
        rt,
        "a base ID that is none",
        rejects_invalid_base(rt.alloc())?,
    )?;
    let is_found = finds_what_was_learned_before(rt.alloc())?;
    report.add_case(rt, "what was learned before", is_found)?;
    let is_read = reads_packet_by_bytes(&mut gateway_with_contact(rt.alloc())?);
    report.add_case(rt, "a packet byte by byte", is_read)?;
    let is_read = reads_both_packets_in_runs(&mut gateway_with_contact(rt.alloc())?);
    report.add_case(rt, "a packet in a run of bytes", is_read)?;
    let is_read = reads_packet_at_front(&mut gateway_with_contact(rt.alloc())?);
    report.add_case(rt, "a packet at the front of some bytes", is_read)
}

fn rejects_invalid_base(alloc: Global) -> Result<bool> {
    let Ok(registry) = Registry::open(alloc, Connection::open_in_memory(alloc)?) else {
        return Ok(false);
    };
    Ok(Gateway::new(alloc, registry, 0xFF80_0001).err() == Some(StartFault::BadBase))
}

const ACCEPTED_LINE: &[u8] =
    b"{\"eep\":\"D5-00-01\",\"id\":\"01800ABC\",\"maker\":null,\"result\":\"accepted\",\"type\":\"teach\"}\n";

const SECOND_ACCEPTED_LINE: &[u8] =
    b"{\"eep\":\"D5-00-01\",\"id\":\"00000001\",\"maker\":null,\"result\":\"accepted\",\"type\":\"teach\"}\n";

const LIST_OF_BOTH: &[u8] =
    b"{\"eep\":\"D5-00-01\",\"id\":\"00000001\",\"label\":\"\",\"maker\":null,\"type\":\"device\"}\n\
    {\"eep\":\"D5-00-01\",\"id\":\"01800ABC\",\"label\":\"\",\"maker\":null,\"type\":\"device\"}\n\
    {\"count\":2,\"type\":\"list\"}\n";

// Whether a gateway lists what another learned over the same database.
fn finds_what_was_learned_before(alloc: Global) -> Result<bool> {
    Ok(lists_what_it_learned(alloc, new_gateway(alloc)?))
}

fn lists_what_it_learned<C: SqlConnection + Drop>(
    alloc: Global,
    first_gateway: GatewayOver<RegistryOver<C>>,
) -> bool {
    let mut first_gateway = first_gateway;
    let is_learned = reply_has_text(
        &first_gateway.order(b"add 01800ABC D5-00-01"),
        ACCEPTED_LINE,
    ) && reply_has_text(
        &first_gateway.order(b"add 00000001 D5-00-01"),
        SECOND_ACCEPTED_LINE,
    );
    let conn = first_gateway.close();
    if !conn.is_autocommit() {
        return false;
    }
    let Ok(registry) = RegistryOver::open(alloc, conn) else {
        return false;
    };
    match GatewayOver::new(alloc, registry, BASE) {
        Ok(mut second) => is_learned && reply_has_text(&second.order(b"list"), LIST_OF_BOTH),
        Err(_) => false,
    }
}

fn reply_has_text(reply: &Reply, text: &[u8]) -> bool {
    reply.radio.is_none() && reply.desk.as_bytes() == text
}

const CONTACT_READING: &[u8] = b"{\"dbm\":-45,\"eep\":\"D5-00-01\",\"id\":\"01800ABC\",\
    \"readings\":[{\"name\":\"CO\",\"word\":\"closed\"}],\"type\":\"reading\"}\n";

// Noise, in which a sync byte begins no header, and then two packets of a contact.
const NOISE_AND_TWO_PACKETS: [u8; 51] = [
    0x00, 0x55, 0x01, 0x02, 0x03, 0x04, 0x05, 0x06, 0x07, 0x55, 0x00, 0x07, 0x07, 0x01, 0x7A, 0xD5,
    0x09, 0x01, 0x80, 0x0A, 0xBC, 0x00, 0x01, 0xFF, 0xFF, 0xFF, 0xFF, 0x2D, 0x00, 0x1F, 0x55, 0x00,
    0x07, 0x07, 0x01, 0x7A, 0xD5, 0x09, 0x01, 0x80, 0x0A, 0xBC, 0x00, 0x01, 0xFF, 0xFF, 0xFF, 0xFF,
    0x2D, 0x00, 0x1F,
];

// A new gateway that knows the contact.
fn gateway_with_contact(alloc: Global) -> Result<GatewayOver<RegistryOver<Connection<MemStore>>>> {
    let mut gateway = new_gateway(alloc)?;
    if !reply_has_text(&gateway.order(b"add 01800ABC D5-00-01"), ACCEPTED_LINE) {
        bail!("the contact is not learned");
    }
    Ok(gateway)
}

// Whether the next packet is the contact's, which is read.
fn next_is_contact_reading<S: DeviceStore>(gateway: &mut GatewayOver<S>) -> bool {
    match gateway.next() {
        Some(reply) => reply_has_text(&reply, CONTACT_READING),
        None => false,
    }
}

// Whether the next packet is the contact's, which is read, as `handle_next` returns it.
fn handle_next_is_contact_reading<S: DeviceStore>(gateway: &mut GatewayOver<S>) -> bool {
    match gateway.handle_next() {
        Some(handled) => reply_has_text(&handled.reply, CONTACT_READING),
        None => false,
    }
}

// Whether the packet is read that is whole after the first 30 bytes of the stream, and not before.
fn reads_packet_by_bytes<S: DeviceStore>(gateway: &mut GatewayOver<S>) -> bool {
    for byte in &NOISE_AND_TWO_PACKETS[..30] {
        if gateway.is_ready() {
            return false;
        }
        gateway.byte(*byte);
    }
    next_is_contact_reading(gateway) && !gateway.is_ready()
}

// Whether a run ends with each of the two packets, both are read, and then none is left.
fn reads_both_packets_in_runs<S: DeviceStore>(gateway: &mut GatewayOver<S>) -> bool {
    if gateway.is_ready()
        || gateway.bytes(&NOISE_AND_TWO_PACKETS) != 30
        || !next_is_contact_reading(gateway)
    {
        return false;
    }
    if gateway.is_ready()
        || gateway.bytes(&NOISE_AND_TWO_PACKETS[30..]) != 21
        || !handle_next_is_contact_reading(gateway)
    {
        return false;
    }
    gateway.next().is_none() && gateway.handle_next().is_none()
}

// Whether the packet at the front of some bytes is read, and no packet if noise is at the front or a byte is held.
fn reads_packet_at_front<S: DeviceStore>(gateway: &mut GatewayOver<S>) -> bool {
    if gateway.is_ready()
        || gateway
            .handle_front_packet(&NOISE_AND_TWO_PACKETS)
            .is_some()
    {
        return false;
    }
    let is_read = match gateway.handle_front_packet(&NOISE_AND_TWO_PACKETS[9..]) {
        Some((handled, count)) => count == 21 && reply_has_text(&handled.reply, CONTACT_READING),
        None => false,
    };
    if gateway.is_ready() {
        return false;
    }
    gateway.byte(0x55);
    is_read
        && !gateway.is_ready()
        && gateway
            .handle_front_packet(&NOISE_AND_TWO_PACKETS[9..])
            .is_none()
}
