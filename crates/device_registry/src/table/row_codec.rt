//! The rows of the two tables: reading what queries show, and the numbers to store.
ghost use Rattle.std.specs.Prelude.{◌≡◌, ◌≤◌, ◌<◌, [], ◌∷◌, All, ℕ, map, length, pos, false, Option, IsTrue};
ghost use Rattle.std.specs.Prelude.{IfOk, IfErr, MatchOption};
ghost use Rattle.sqlite.specs.declared.types.Value.TheVariants.{Int};
ghost use Rattle.sqlite.specs.Order.{Row as SqlRow, column};
ghost use Rattle.sqlite.specs.Values.{bound};
ghost use Rattle.learned_devices.specs.declared.Device.{Device};
ghost use Rattle.learned_devices.specs.Devices.{device_data};
ghost use Rattle.device_registry.specs.Faults.{IsOutOfMemoryIf};
ghost use Rattle.device_registry.specs.Table.{version_number};
ghost use Rattle.device_registry.specs.Table.Rows.{IsDeviceOrNone, ShowsVersion, shown_device, is_natural_up_to};
ghost use Rattle.device_registry.specs.Table.Rows.{is_maker, is_label_text, shows_device, are_ascending_devices};
ghost use Rattle.device_registry.specs.Table.Rows.{eep_number, eep_of, maker_number, upsert_params, maker_in, label_in};

use super::{NO_MAKER, VERSION_ROW_KEY, Version};
use crate::ranges::{MAX_MAKER, MAX_PROFILE, MAX_SENDER};
use erp1_telegrams::Eep;
use learned_devices::{Device, Label};
use sqlite::types::ValueRef;
use sqlite::{Error, ErrorCode, Row};
use std::alloc::Global;

// The number at this index of the row, if there is one and it is not above `last`.
fn number_in(row: &Row, at: usize, last: u32) -> Option<u32>
    ensures { MatchOption result (is_natural_up_to last (column row.now at) ≡ false)
        (λ n. (column row.now at ≡ Int (pos n)) × (n ≤ last)) }
{
    match row.get_ref(at) {
        Ok(ValueRef::Int(found)) if 0 <= found && found <= i64::from(last) => Some(found as u32),
        _ => None,
    }
}

// The manufacturer ID at this index of the row, if there is a valid number or that of none.
fn read_maker(row: &Row, at: usize) -> Option<Option<u16>>
    ensures { MatchOption result (is_maker (column row.now at) ≡ false)
        (λ maker. (maker ≡ maker_in (column row.now at)) × IsTrue (is_maker (column row.now at))) }
{
    match row.get_ref(at) {
        Ok(ValueRef::Int(found)) if found == NO_MAKER => Some(None),
        Ok(ValueRef::Int(found)) if 0 <= found && found <= i64::from(MAX_MAKER) => {
            Some(Some(found as u16))
        }
        _ => None,
    }
}

// The label at this index of the row, if there is one.
fn read_label(row: &Row, at: usize) -> Option<Label>
    ensures { MatchOption result (is_label_text (column row.now at) ≡ false)
        (λ label. (label ≡ label_in (column row.now at)) × IsTrue (is_label_text (column row.now at))) }
{
    match row.get_ref(at) {
        Ok(ValueRef::Text(found)) => Label::new(str::from_utf8(found).ok()?),
        _ => None,
    }
}

fn eep_of_number(number: u32) -> Eep
    ensures { result ≡ eep_of number }
{
    Eep::new(
        (number / 65536 % 256) as u8,
        (number / 256 % 256) as u8,
        (number % 256) as u8,
    )
}

// The device that a row shows, if each number is in its range and its label is valid.
fn device_in(row: &Row) -> Option<Device>
    ensures { MatchOption result (shows_device row.now ≡ false)
        (λ it. (it ≡ shown_device row.now) × IsTrue (shows_device row.now)) }
{
    let id = number_in(row, 0, MAX_SENDER)?;
    let eep = eep_of_number(number_in(row, 1, MAX_PROFILE)?);
    let maker = read_maker(row, 2)?;
    let label = read_label(row, 3)?;
    Some(Device {
        id,
        eep,
        maker,
        label,
    })
}

/// Whether the rows are those of devices, by ascending ID.
pub fn are_ascending_devices(rows: &[Row]) -> bool
    ensures { result ≡ are_ascending_devices 0 rows.now }
{
    let mut least: u64 = 0;
    for row in rows {
        match device_in(row) {
            Some(device) if least <= u64::from(device.id) => least = u64::from(device.id) + 1,
            _ => return false,
        }
    }
    true
}

fn column_is(row: &Row, at: usize, number: i64) -> bool
    ensures sound { IsTrue result → column row.now at ≡ Int number }
    ensures complete { column row.now at ≡ Int number → IsTrue result }
{
    match row.get_ref(at) {
        Ok(ValueRef::Int(found)) => found == number,
        _ => false,
    }
}

/// Whether there is exactly one row, that of this version.
pub fn shows_version(rows: &[Row], version: Version) -> bool
    ensures version { IsTrue result → ShowsVersion version rows.now }
    ensures complete { rows.now ≡ (Int (pos 1) ∷ Int (pos (version_number version)) ∷ []) ∷ [] → IsTrue result }
{
    rows.len() == 1
        && column_is(&rows[0], 0, VERSION_ROW_KEY)
        && column_is(&rows[0], 1, version.number())
}

// The device that a row shows. No row of a registry gives an error.
fn decode_device(row: &Row) -> Result<Device, Error>
    ensures shown { IfOk result (λ it. it ≡ shown_device row.now) }
    ensures failed { IfErr result (IsOutOfMemoryIf (IsTrue (shows_device row.now))) }
{
    device_in(row).ok_or(Error::SqliteFailure(ErrorCode::DatabaseCorrupt))
}

/// The device of a sender, from the rows of its look-up.
pub fn decode_found(rows: &[Row]) -> Result<Option<Device>, Error>
    ensures found { (known : Option Device) → IsDeviceOrNone known rows.now → IfOk result (λ found. found ≡ known) }
    ensures failed { IfErr result (IsOutOfMemoryIf (All (λ row. IsTrue (shows_device row)) rows.now)) }
{
    match rows.first() {
        Some(row) => Ok(Some(decode_device(row)?)),
        None => Ok(None),
    }
}

/// The devices that the rows list.
pub fn decode_all(alloc: Global, rows: &[Row]) -> Result<Vec<Device>, Error>
    ensures listed { IfOk result (λ all. all.items ≡ map shown_device rows.now) }
    ensures failed { IfErr result (IsOutOfMemoryIf (All (λ row. IsTrue (shows_device row)) rows.now)) }
{
    let mut all = Vec::with_capacity(alloc, rows.len())?;
    for row in rows {
        all.push(decode_device(row)?)?;
    }
    Ok(all)
}

/// The number that a query shows in one row.
pub fn shown_count(rows: &[Row]) -> Result<u64, Error>
    ensures number { IfOk result (λ n. (row : SqlRow) × (more : _) × (rows.now ≡ row ∷ more)
        × (column row 0 ≡ Int (pos n))) }
    ensures failed { IfErr result (IsOutOfMemoryIf ((row : SqlRow) × (more : _) × (rows.now ≡ row ∷ more)
        × (0 < length row) × ((n : ℕ) × (column row 0 ≡ Int (pos n))))) }
{
    let row = rows.first().ok_or(Error::QueryReturnedNoRows)?;
    row.get(0)
}

// The number of a profile.
fn eep_number(eep: Eep) -> i64
    ensures { result ≡ pos (eep_number eep) }
{
    i64::from(eep.rorg) * 65536 + i64::from(eep.func) * 256 + i64::from(eep.typ)
}

// The number of a manufacturer ID, or that of none.
fn maker_number(maker: Option<u16>) -> i64
    ensures { result ≡ maker_number maker }
{
    match maker {
        Some(maker) => i64::from(maker),
        None => NO_MAKER,
    }
}

/// The parameters of the statement that upserts a device.
pub fn upsert_params(device: &Device) -> [ValueRef<'_>; 4]
    ensures { bound result ≡ upsert_params device.now.id (device_data device.now) }
{
    [
        ValueRef::Int(i64::from(device.id)),
        ValueRef::Int(eep_number(device.eep)),
        ValueRef::Int(maker_number(device.maker)),
        ValueRef::Text(device.label.as_str().as_bytes()),
    ]
}
