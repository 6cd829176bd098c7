//! The readings of telegrams, errors, and the supported profiles of the three crates of profiles. The tables of each
//! crate are in a file of its own. The golden sessions have telegrams of every profile.
use crate::{profiles_4bs_tests, profiles_rps_tests, profiles_vld_tests};
use erp1_telegrams::{BROADCAST, Eep, Telegram};
use profile_rows::{Reading, Readings, Unreadable, What};
use std::process::Abort;
use std::test::Fail;

/// The expected content of a reading: a value has a numerator, a denominator and a unit.
#[derive(Clone, Copy)]
pub enum ExpectedContent {
    Value(i64, i64, &'static str),
    Word(&'static str),
    Raw(u32),
    OutOfRange(u32),
}

/// The RORG, the FUNC and the type of a profile.
pub type Profile = (u8, u8, u8);

/// A telegram of the profile's kind, and its readings, in their order.
pub struct ReadingCase {
    pub profile: Profile,
    pub payload: &'static [u8],
    pub status: u8,
    pub readings: &'static [(&'static str, ExpectedContent)],
}

/// A profile, the RORG and the payload of a telegram that is not read for it, and the reason.
pub type UnreadableCase = (Profile, u8, &'static [u8], Unreadable);

/// The RORG, a FUNC, and its types that are supported.
pub type SupportedTypes = (u8, u8, &'static [u8]);

#[derive(Clone, Copy)]
enum ProfileCrate {
    Rps,
    FourByte,
    Vld,
}

impl ProfileCrate {
    fn read(
        self,
        eep: Eep,
        telegram: &Telegram,
        readings: &mut Readings,
    ) -> Result<(), Unreadable> {
        match self {
            ProfileCrate::Rps => profiles_rps::read(eep, telegram, readings),
            ProfileCrate::FourByte => profiles_4bs::read(eep, telegram, readings),
            ProfileCrate::Vld => profiles_vld::read(eep, telegram, readings),
        }
    }
}

fn telegram(rorg: u8, payload: &[u8], status: u8) -> Result<Telegram, Fail> {
    Ok(Telegram::new(rorg, payload, 0x0180_0ABC, status, BROADCAST, None)?)
}

// Whether a reading has the expected content.
pub(crate) fn has_content(content: What, expected_content: ExpectedContent) -> bool {
    match (content, expected_content) {
        (What::Value(value, unit), ExpectedContent::Value(num, den, expected_content)) => {
            value.num() == num && value.den() == den && unit == expected_content
        }
        (What::Word(word), ExpectedContent::Word(expected_content)) => word == expected_content,
        (What::Raw(raw), ExpectedContent::Raw(expected_content)) => raw == expected_content,
        (What::OutOfRange(raw), ExpectedContent::OutOfRange(expected_content)) => raw
            == expected_content,
        _ => false,
    }
}

// Whether these are the readings, in this order.
fn have_contents(
    readings: &[Reading],
    expected_contents: &[(&'static str, ExpectedContent)],
) -> bool {
    for (reading, (name, expected_contents)) in readings.iter().zip(expected_contents) {
        if reading.name != *name || !has_content(reading.what, *expected_contents) {
            return false;
        }
    }
    readings.len() == expected_contents.len()
}

fn cases_are_read(
    rt: &impl Abort,
    profile_crate: ProfileCrate,
    cases: &[ReadingCase],
) -> Result<(), Fail> {
    for (case_number, case) in cases.iter().enumerate() {
        let mut readings = Readings::new();
        let (rorg, func, typ) = case.profile;
        let telegram = telegram(rorg, case.payload, case.status)?;
        let result = profile_crate.read(Eep::new(rorg, func, typ), &telegram, &mut readings);
        let is_correct = result == Ok(()) && have_contents(&readings, case.readings);
        assert!(rt; is_correct, "row {case_number}: {result:?}, {readings:?}");
    }
    Ok(())
}

#[test]
fn telegrams_have_expected_readings(rt: HostRuntime) -> Result<(), Fail> {
    cases_are_read(&rt, ProfileCrate::Rps, &profiles_rps_tests::READING_CASES)?;
    cases_are_read(
        &rt,
        ProfileCrate::FourByte,
        &profiles_4bs_tests::READING_CASES,
    )?;
    cases_are_read(&rt, ProfileCrate::Vld, &profiles_vld_tests::READING_CASES)
}

// An error leaves the readings that were there before.
fn cases_are_unreadable(
    rt: &impl Abort,
    profile_crate: ProfileCrate,
    reading_before: Reading,
    cases: &[UnreadableCase],
) -> Result<(), Fail> {
    let mut readings = Readings::new();
    readings.push(reading_before);
    for (case_number, (profile, rorg, payload, expected_reason)) in cases.iter().enumerate() {
        let (rorg_of_profile, func, typ) = *profile;
        let telegram = telegram(*rorg, payload, 0x00)?;
        let result = profile_crate.read(
            Eep::new(rorg_of_profile, func, typ),
            &telegram,
            &mut readings,
        );
        assert_eq!(rt;
            (result, readings.as_slice()),
            (Err(*expected_reason), [reading_before].as_slice()),
            "row {case_number}"
        );
    }
    Ok(())
}

#[test]
fn unreadable_telegrams(rt: HostRuntime) -> Result<(), Fail> {
    let (switches, four_bytes) = (
        &profiles_rps_tests::UNREADABLE_CASES,
        &profiles_4bs_tests::UNREADABLE_CASES,
    );
    cases_are_unreadable(
        &rt,
        ProfileCrate::Rps,
        profiles_rps_tests::READING_BEFORE_FAULT,
        switches,
    )?;
    cases_are_unreadable(
        &rt,
        ProfileCrate::FourByte,
        profiles_4bs_tests::READING_BEFORE_FAULT,
        four_bytes,
    )?;
    let reading_before = profiles_vld_tests::READING_BEFORE_FAULT;
    cases_are_unreadable(
        &rt,
        ProfileCrate::Vld,
        reading_before,
        &profiles_vld_tests::UNREADABLE_CASES,
    )
}

fn is_listed_as_supported(eep: Eep, table: &[SupportedTypes]) -> bool {
    for (rorg, func, types) in table {
        if *rorg == eep.rorg && *func == eep.func {
            return types.contains(&eep.typ);
        }
    }
    false
}

// Each profile is supported by the crate whose table has it, and by no other.
#[test]
fn supported_profiles(rt: HostRuntime) {
    for rorg in [0xF6, 0xD5, 0xA5, 0xD2, 0xD4] {
        for func in 0..=0xFFu8 {
            for typ in 0..=0xFFu8 {
                let eep = Eep::new(rorg, func, typ);
                let supports_eep = (
                    profiles_rps::supports(eep),
                    profiles_4bs::supports(eep),
                    profiles_vld::supports(eep),
                );
                let are_listed = (
                    is_listed_as_supported(eep, &profiles_rps_tests::SUPPORTED_TYPES),
                    is_listed_as_supported(eep, &profiles_4bs_tests::SUPPORTED_TYPES),
                    is_listed_as_supported(eep, &profiles_vld_tests::SUPPORTED_TYPES),
                );
                assert_eq!(rt; supports_eep, are_listed, "{rorg} {func} {typ}");
            }
        }
    }
}

// A contact is read without another look at its LRN bit.
#[test]
fn data_of_a_contact(rt: HostRuntime) -> Result<(), Fail> {
    let telegram = Telegram::new(0xD5, &[0x09], 0x0180_0ABC, 0, BROADCAST, None)?;
    let mut readings = Readings::new();
    let result = profiles_rps::read_1bs_data(0x00, 0x01, &telegram, &mut readings);
    let is_well = have_contents(&readings, &[("CO", ExpectedContent::Word("closed"))]);
    assert!(rt; result == Ok(()) && is_well, "{readings:?}");
    Ok(())
}

// So is a temperature sensor, A5-02-05: the number 127 is 1024/51 C.
#[test]
fn data_of_a_temperature_sensor(rt: HostRuntime) -> Result<(), Fail> {
    let telegram = Telegram::new(
        0xA5,
        &[0x00, 0x00, 0x7F, 0x08],
        0x0180_0ABC,
        0,
        BROADCAST,
        None,
    )?;
    let mut readings = Readings::new();
    let result = profiles_4bs::read_4bs_data(0x02, 0x05, &telegram, &mut readings);
    let is_well = have_contents(&readings, &[("TMP", ExpectedContent::Value(1024, 51, "C"))]);
    assert!(rt; result == Ok(()) && is_well, "{readings:?}");
    Ok(())
}
