//! The lines of a list of devices.

ghost use Rattle.std.specs.Prelude.{◌≡◌, IfOk};
ghost use Rattle.serde_json.specs.Events.{SendsValue};
ghost use Rattle.json_lines.specs.Lines.{DeviceLine, ListEnd, list_lines, text, texts};
ghost use Rattle.json_lines.specs.private.LineData.{device_members, list_end_members, object_of};

use crate::line::{Line, line_of};
use crate::parts::{put_id, put_maker, put_profile};
use learned_devices::Device;
use serde::{Described, Serialize, Serializer};
use std::alloc::{AllocError, Global};

// The members of the line of a device.
#[derive(Drop)]
struct DeviceObject<'a> {
    device: &'a Device,
}

impl Described for DeviceObject<'_> {
    ghost writes = { λ line. SendsValue (object_of (device_members line.device.now)) };
}

impl Serialize for DeviceObject<'_> {
    fn serialize<S: Serializer>(&self, out: &mut S) -> Result<(), S::Error> {
        out.begin_map(Some(5))?;
        out.key("eep")?;
        put_profile(self.device.eep, out)?;
        out.key("id")?;
        put_id(self.device.id, out)?;
        out.key("label")?;
        out.str(self.device.label.as_str())?;
        out.key("maker")?;
        put_maker(self.device.maker, out)?;
        out.key("type")?;
        out.str("device")?;
        out.end_map()
    }
}

// The members of the line after the devices.
#[derive(Drop)]
struct ListEndObject {
    count: usize,
}

impl Described for ListEndObject {
    ghost writes = { λ line. SendsValue (object_of (list_end_members line.count)) };
}

impl Serialize for ListEndObject {
    fn serialize<S: Serializer>(&self, out: &mut S) -> Result<(), S::Error> {
        out.begin_map(Some(2))?;
        out.key("count")?;
        out.u64(self.count as u64)?;
        out.key("type")?;
        out.str("list")?;
        out.end_map()
    }
}

fn device_line(alloc: Global, device: &Device) -> Result<Line, AllocError>
    ensures { IfOk result (λ line. line ≡ text (DeviceLine device.now)) }
{
    line_of(alloc, &DeviceObject { device })
}

// The line after this many devices.
fn list_end(alloc: Global, count: usize) -> Result<Line, AllocError>
    ensures { IfOk result (λ line. line ≡ text (ListEnd count)) }
{
    line_of(alloc, &ListEndObject { count })
}

/// The lines of some devices, in their order, and then the line of their count.
///
/// `{"eep":"D5-00-01","id":"01800ABC","label":"Door \"A\"","maker":null,"type":"device"}`,
/// `{"count":1,"type":"list"}`
///
/// Any error is returned as out of memory.
pub fn device_lines(alloc: Global, devices: &[Device]) -> Result<Line, AllocError>
    ensures { IfOk result (λ lines. lines ≡ texts (list_lines devices.now)) }
{
    let mut lines = Line::empty(alloc);
    for device in devices {
        lines.append(&device_line(alloc, device)?)?;
    }
    lines.append(&list_end(alloc, devices.len())?)?;
    Ok(lines)
}
