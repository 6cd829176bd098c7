//! The script as the turns of a live gateway: one input arrives in each turn.
use super::script::{SCRIPT_INPUTS, ScriptInput};
use crate::fake_streams::PartReader;
use crate::gateways::new_gateway;
use crate::live_turns::{NEVER_FAILS, ServeEnd, serve_by};
use anyhow::Result;
use gateway_core::{DeviceStore, GatewayOver};
use std::alloc::Global;

/// What arrives in turns.
#[derive(Drop)]
pub struct Turns {
    serial: Vec<Vec<u8>>,
    desk: Vec<Vec<u8>>,
}

impl Turns {
    fn new(alloc: Global) -> Turns {
        Turns {
            serial: Vec::new(alloc),
            desk: Vec::new(alloc),
        }
    }

    fn push(&mut self, alloc: Global, serial: &[u8], desk: &[u8]) -> Result<()> {
        self.serial.push(Vec::from_slice(alloc, serial)?)?;
        self.desk.push(Vec::from_slice(alloc, desk)?)?;
        Ok(())
    }

    fn push_order(&mut self, alloc: Global, line: &[u8]) -> Result<()> {
        let mut desk = Vec::from_slice(alloc, line)?;
        desk.push(b'\n')?;
        self.push(alloc, b"", desk.as_slice())
    }

    fn push_input(&mut self, alloc: Global, input: ScriptInput) -> Result<()> {
        match input.digits() {
            Some(digits) => self.push(alloc, bytes_of(alloc, digits)?.as_slice(), b""),
            None => self.push_order(alloc, input.line()),
        }
    }
}

fn bytes_of(alloc: Global, digits: &[u8]) -> Result<Vec<u8>> {
    Ok(hex::decode(alloc, digits)?)
}

// The turns of the script.
pub(crate) fn turns_of_script(alloc: Global) -> Result<Turns> {
    let mut turns = Turns::new(alloc);
    for input in SCRIPT_INPUTS {
        turns.push_input(alloc, input)?;
    }
    Ok(turns)
}

// The turns of the script, except that the packet with this number arrives in two turns, this many bytes of it in the
// first.
pub(crate) fn turns_with_pause(alloc: Global, input_index: usize, len: usize) -> Result<Turns> {
    let mut turns = Turns::new(alloc);
    for (index, input) in SCRIPT_INPUTS.iter().enumerate() {
        match input.digits() {
            Some(digits) if index == input_index => {
                let bytes = bytes_of(alloc, digits)?;
                let (first_bytes, last_bytes) = bytes.as_slice().split_at(len.min(bytes.len()));
                turns.push(alloc, first_bytes, b"")?;
                turns.push(alloc, last_bytes, b"")?;
            }
            _ => turns.push_input(alloc, *input)?,
        }
    }
    Ok(turns)
}

// The turns of the script, except that no serial bytes follow this many of the packet with this number.
pub(crate) fn turns_with_end(alloc: Global, input_index: usize, len: usize) -> Result<Turns> {
    let mut turns = Turns::new(alloc);
    for (index, input) in SCRIPT_INPUTS.iter().enumerate() {
        match input.digits() {
            Some(digits) if index >= input_index => {
                let bytes = bytes_of(alloc, digits)?;
                let kept_len = if index == input_index { len } else { 0 };
                let (first_bytes, _) = bytes.as_slice().split_at(kept_len.min(bytes.len()));
                turns.push(alloc, first_bytes, b"")?;
            }
            _ => turns.push_input(alloc, *input)?,
        }
    }
    Ok(turns)
}

// Serves the turns by a new gateway.
pub(crate) fn serve_by_new_gateway(alloc: Global, turns: &Turns) -> Result<ServeEnd> {
    let mut gateway = new_gateway(alloc)?;
    serve(
        alloc,
        &mut gateway,
        turns,
        (0, 0),
        (NEVER_FAILS, NEVER_FAILS),
    )
}

// Serves the turns, with readers and writers that fail at these calls. A writer takes one byte at a call.
pub(crate) fn serve<S: DeviceStore>(
    alloc: Global,
    gateway: &mut GatewayOver<S>,
    turns: &Turns,
    read_fails_at: (usize, usize),
    write_fails_at: (usize, usize),
) -> Result<ServeEnd> {
    let serial = slices_of(alloc, &turns.serial)?;
    let desk = slices_of(alloc, &turns.desk)?;
    let (serial_fails_at, desk_fails_at) = read_fails_at;
    let inputs = (
        PartReader::new(serial.as_slice(), serial_fails_at),
        PartReader::new(desk.as_slice(), desk_fails_at),
    );
    let count = turns.serial.len() as u64;
    serve_by(alloc, gateway, inputs, false, count, 1, write_fails_at)
}

fn slices_of(alloc: Global, parts: &[Vec<u8>]) -> Result<Vec<&[u8]>> {
    let mut slices = Vec::new(alloc);
    for part in parts {
        slices.push(part.as_slice())?;
    }
    Ok(slices)
}
