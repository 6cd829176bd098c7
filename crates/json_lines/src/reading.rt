//! The line of a telegram's readings.

ghost use Rattle.std.specs.Prelude.{◌≡◌, IfOk, OnOk};
ghost use Rattle.serde_json.specs.Data.{array, number};
ghost use Rattle.serde_json.specs.Events.{SendsValue};
ghost use Rattle.serde_json.specs.Find.{of_integer};
ghost use Rattle.profile_rows.specs.Reading.{entries, entry_of, value, word};
ghost use Rattle.exact_values.specs.Fraction.{ratio};
ghost use Rattle.json_lines.specs.Lines as lines;
ghost use Rattle.json_lines.specs.private.LineData.{dbm_data, entries_data, entry_data, named_data, number_data};
ghost use Rattle.json_lines.specs.private.LineData.{object_of, pair_members, reading_members, value_or_null};

use crate::line::{Line, line_of};
use crate::parts::{put_id, put_profile};
use erp1_telegrams::{Eep, Telegram};
use exact_values::Fraction;
use profile_rows::{Reading, Readings, What};
use serde::{Described, Serialize, Serializer};
use std::alloc::{AllocError, Global};

// A number with a sign. One that is not negative is sent as unsigned, as serde_json does.
fn put_integer<S: Serializer>(n: i64, out: &mut S) -> Result<(), S::Error>
    ensures { OnOk result (SendsValue (number (of_integer n)) (S.written out.old) (S.written out.new)) }
{
    if n >= 0 {
        out.u64(n as u64)
    } else {
        out.i64(n)
    }
}

// The signal strength, or null.
fn put_dbm<S: Serializer>(dbm: Option<u8>, out: &mut S) -> Result<(), S::Error>
    ensures { OnOk result (SendsValue (value_or_null dbm_data dbm) (S.written out.old) (S.written out.new)) }
{
    match dbm {
        Some(0) => out.u64(0),
        Some(byte) => out.i64(0 - i64::from(byte)),
        None => out.unit(),
    }
}

// An exact value in its unit.
fn put_value_reading<S: Serializer>(
    name: &str,
    fraction: Fraction,
    unit: &str,
    out: &mut S,
) -> Result<(), S::Error>
    ensures { OnOk result (SendsValue (named_data name.now (value (ratio fraction) unit.now))
        (S.written out.old) (S.written out.new)) }
{
    out.begin_map(Some(4))?;
    out.key("den")?;
    put_integer(fraction.den(), out)?;
    out.key("name")?;
    out.str(name)?;
    out.key("num")?;
    put_integer(fraction.num(), out)?;
    out.key("unit")?;
    out.str(unit)?;
    out.end_map()
}

fn put_word_reading<S: Serializer>(name: &str, text: &str, out: &mut S) -> Result<(), S::Error>
    ensures { OnOk result (SendsValue (named_data name.now (word text.now))
        (S.written out.old) (S.written out.new)) }
{
    out.begin_map(Some(2))?;
    out.key("name")?;
    out.str(name)?;
    out.key("word")?;
    out.str(text)?;
    out.end_map()
}

// A number under a name.
fn put_number_reading<S: Serializer>(
    name: &str,
    key: &str,
    raw: u32,
    out: &mut S,
) -> Result<(), S::Error>
    ensures { OnOk result (SendsValue (object_of (pair_members name.now key.now (number_data raw)))
        (S.written out.old) (S.written out.new)) }
{
    out.begin_map(Some(2))?;
    out.key("name")?;
    out.str(name)?;
    out.key(key)?;
    out.u64(u64::from(raw))?;
    out.end_map()
}

fn put_reading<S: Serializer>(reading: &Reading, out: &mut S) -> Result<(), S::Error>
    ensures { OnOk result (SendsValue (entry_data (entry_of reading.now)) (S.written out.old) (S.written out.new)) }
{
    let name = reading.name;
    match reading.what {
        What::Value(fraction, unit) => put_value_reading(name, fraction, unit, out),
        What::Word(word) => put_word_reading(name, word, out),
        What::Raw(raw) => put_number_reading(name, "raw", raw, out),
        What::OutOfRange(raw) => put_number_reading(name, "out_of_range", raw, out),
    }
}

// The readings in their order.
fn put_readings<S: Serializer>(readings: &[Reading], out: &mut S) -> Result<(), S::Error>
    ensures { OnOk result (SendsValue (array (entries_data (entries readings.now)))
        (S.written out.old) (S.written out.new)) }
{
    out.begin_seq(Some(readings.len()))?;
    for reading in readings {
        put_reading(reading, out)?;
    }
    out.end_seq()
}

// The members of the line.
#[derive(Drop)]
struct ReadingObject<'a> {
    dbm: Option<u8>,
    eep: Eep,
    id: u32,
    readings: &'a [Reading],
}

impl Described for ReadingObject<'_> {
    ghost writes = { λ line. SendsValue (object_of (reading_members
        (record { dbm = line.dbm; eep = line.eep; id = line.id; readings = entries line.readings.now }))) };
}

impl Serialize for ReadingObject<'_> {
    fn serialize<S: Serializer>(&self, out: &mut S) -> Result<(), S::Error> {
        out.begin_map(Some(5))?;
        out.key("dbm")?;
        put_dbm(self.dbm, out)?;
        out.key("eep")?;
        put_profile(self.eep, out)?;
        out.key("id")?;
        put_id(self.id, out)?;
        out.key("readings")?;
        put_readings(self.readings, out)?;
        out.key("type")?;
        out.str("reading")?;
        out.end_map()
    }
}

/// The line of a telegram's readings by this profile: the signal strength in dBm (0 minus the byte that was received
/// with the telegram; `null` if there was none), the profile and the ID of the sender, and the readings in their order.
///
/// `{"dbm":-45,"eep":"D5-00-01","id":"01800ABC","readings":[{"name":"CO","word":"closed"}],"type":"reading"}`
///
/// Any error is returned as out of memory.
pub fn reading_line(
    alloc: Global,
    telegram: &Telegram,
    eep: Eep,
    readings: &Readings,
) -> Result<Line, AllocError>
    ensures { IfOk result (λ line. line ≡ lines.text (lines.Reading (record {
      dbm = telegram.now.dbm;
      eep = eep;
      id = telegram.now.sender;
      readings = entries readings.now.items;
    }))) }
{
    let object = ReadingObject {
        dbm: telegram.dbm(),
        eep,
        id: telegram.sender(),
        readings: readings.as_slice(),
    };
    line_of(alloc, &object)
}
