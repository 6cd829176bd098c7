//! A contact telegram with one byte replaced, and a whole one after it: only the whole one is found, at its last byte.
//!
//! A wrong byte in a header or in data is always detected by its CRC, and no header that begins at a sync byte in place
//! of another byte has a correct CRC. Another program also found that no case holds the whole telegram back.
use super::script::{ExpectedState, ScriptInput, SenderRecord};
use crate::chunks::{CONTACT_PACKET, add_chunk};
use crate::gateways::{new_gateway, replay_output_of};
use crate::report::Report;
use anyhow::Result;
use gateway_core::{DeviceStore, GatewayOver};
use std::alloc::Global;

// Mutant: a framer that does not compare the highest bit of the CRC of the data. It prints `at 1935, differs`.
pub(crate) fn run_cases(rt: &HostRuntime, report: &mut Report) -> Result<()> {
    let alloc = rt.alloc();
    let mut gateway = new_gateway(alloc)?;
    let first_wrong = first_wrong_replacement(alloc, &mut gateway)?;
    report.add_first_wrong(
        rt,
        "each byte of a packet replaced by each other",
        first_wrong,
    )
}

// The number of the first case that is wrong, if any: 256 times the index of the byte, plus the replacement. The last
// number is that of the counters after all cases.
fn first_wrong_replacement<S: DeviceStore>(
    alloc: Global,
    gateway: &mut GatewayOver<S>,
) -> Result<Option<usize>> {
    let mut state = ExpectedState::new(SenderRecord::Nothing, 0);
    let mut replacement_count = 0;
    let _accepted = replay_output_of(alloc, gateway, ScriptInput::Add.line())?;
    let _known = state.apply(alloc, ScriptInput::Add)?;
    for index in 0..CONTACT_PACKET.len() {
        for byte in 0..=255 {
            if CONTACT_PACKET[index] != byte
                && !reads_only_next_packet(alloc, gateway, &mut state, (index, byte))?
            {
                return Ok(Some(replacement_count));
            }
            replacement_count = replacement_count.saturating_add(1);
        }
    }
    let counts = replay_output_of(alloc, gateway, b"status")?;
    let is_counted = state.status(alloc)?.as_bytes() == counts.as_slice();
    Ok((!is_counted).then_some(replacement_count))
}

// Whether only the whole packet is read after one with a replaced byte.
fn reads_only_next_packet<S: DeviceStore>(
    alloc: Global,
    gateway: &mut GatewayOver<S>,
    state: &mut ExpectedState,
    index_and_byte: (usize, u8),
) -> Result<bool> {
    let (index, byte) = index_and_byte;
    let mut damaged = CONTACT_PACKET;
    if let Some(damaged_byte) = damaged.get_mut(index) {
        *damaged_byte = byte;
    }
    let mut script = Vec::new(alloc);
    add_chunk(&mut script, &damaged)?;
    add_chunk(&mut script, &CONTACT_PACKET)?;
    let text = replay_output_of(alloc, gateway, script.as_slice())?;
    Ok(state.apply(alloc, ScriptInput::Contact)?.desk.as_bytes() == text.as_slice())
}
