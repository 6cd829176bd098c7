//! Learned devices are found, listed and forgotten, also after the next open.
use super::fixtures::{
    KnownDevice, NewConnection, known_contact, known_sensor, new_registry,
    open_outside_transaction, run_statements,
};
use super::test_steps::{BulkStep, TestStep, perform_all, perform_and_reopen};
use erp1_telegrams::Eep;
use sqlite::{Alter, Connection, MemStore};
use std::alloc::Global;
use std::process::Abort;
use std::test::Fail;

#[test]
fn learns_finds_and_forgets(rt: HostRuntime) -> Result<(), Fail> {
    let acts = [
        TestStep::Finds(0x0180_0ABC, None),
        TestStep::Learns(known_sensor(0x0180_0ABC)),
        TestStep::Finds(0x0180_0ABC, Some(known_sensor(0x0180_0ABC))),
        TestStep::Finds(0x0180_0ABD, None),
        TestStep::Learns(known_contact(0x0180_0ABC)),
        TestStep::Finds(0x0180_0ABC, Some(known_contact(0x0180_0ABC))),
        TestStep::Forgets(0x0180_0ABC),
        TestStep::Finds(0x0180_0ABC, None),
        TestStep::Forgets(0x0180_0ABC),
    ];
    perform_and_reopen::<MemStore>(rt.alloc(), &rt, 64, &acts, &[])
}

const LONGEST_LABEL: &str = "~ abcdefghijklmnopqrstuvwxyz 012";

#[test]
fn labels_are_kept(rt: HostRuntime) -> Result<(), Fail> {
    let before = [
        TestStep::Learns(known_contact(5)),
        TestStep::Learns(known_sensor(7)),
        TestStep::Relabels(5, "Door \"A\"", true),
        TestStep::Finds(5, Some(known_contact(5).with_label("Door \"A\""))),
        TestStep::Lists(0, known_contact(5).with_label("Door \"A\"")),
        TestStep::Learns(known_sensor(5)),
        TestStep::Finds(5, Some(known_sensor(5).with_label("Door \"A\""))),
        TestStep::Relabels(7, LONGEST_LABEL, true),
    ];
    let behind = [
        TestStep::Lists(0, known_sensor(5).with_label("Door \"A\"")),
        TestStep::Lists(1, known_sensor(7).with_label(LONGEST_LABEL)),
        TestStep::Finds(5, Some(known_sensor(5).with_label("Door \"A\""))),
        TestStep::Finds(7, Some(known_sensor(7).with_label(LONGEST_LABEL))),
        TestStep::Relabels(7, "Hall", true),
        TestStep::Finds(7, Some(known_sensor(7).with_label("Hall"))),
        TestStep::Relabels(5, "", true),
        TestStep::Finds(5, Some(known_sensor(5))),
        TestStep::Lists(0, known_sensor(5)),
        TestStep::Counts(2),
    ];
    perform_and_reopen::<MemStore>(rt.alloc(), &rt, 64, &before, &behind)
}

#[test]
fn forgetting_removes_the_label(rt: HostRuntime) -> Result<(), Fail> {
    let before = [
        TestStep::Relabels(5, "Door", false),
        TestStep::Finds(5, None),
        TestStep::Counts(0),
        TestStep::Learns(known_contact(5)),
        TestStep::Finds(5, Some(known_contact(5))),
        TestStep::Relabels(5, "Door", true),
        TestStep::Relabels(4, "Hall", false),
        TestStep::Relabels(4, "", false),
        TestStep::Counts(1),
        TestStep::Forgets(5),
        TestStep::Relabels(5, "Hall", false),
        TestStep::Learns(known_contact(5)),
        TestStep::Finds(5, Some(known_contact(5))),
    ];
    let behind = [TestStep::Counts(1), TestStep::Lists(0, known_contact(5))];
    perform_and_reopen::<MemStore>(rt.alloc(), &rt, 64, &before, &behind)
}

#[test]
fn smallest_and_largest_numbers(rt: HostRuntime) -> Result<(), Fail> {
    let least = KnownDevice {
        id: 0,
        eep: Eep::new(0, 0, 0),
        maker: Some(0),
        label: "",
    };
    let greatest = KnownDevice {
        id: 0xFFFF_FFFE,
        eep: Eep::new(0xFF, 0xFF, 0xFF),
        maker: Some(2047),
        label: "",
    };
    let before = [TestStep::Learns(greatest), TestStep::Learns(least)];
    let behind = [
        TestStep::Finds(0, Some(least)),
        TestStep::Finds(0xFFFF_FFFE, Some(greatest)),
        TestStep::Counts(2),
        TestStep::Lists(0, least),
        TestStep::Lists(1, greatest),
    ];
    perform_and_reopen::<MemStore>(rt.alloc(), &rt, 64, &before, &behind)
}

#[test]
fn the_next_open_finds_all(rt: HostRuntime) -> Result<(), Fail> {
    let before = [
        TestStep::Learns(known_sensor(0xFFFF_FFFE)),
        TestStep::Learns(known_contact(0)),
        TestStep::Learns(known_sensor(3)),
        TestStep::Learns(known_contact(0x0180_0ABC)),
        TestStep::Forgets(3),
    ];
    let behind = [
        TestStep::Counts(3),
        TestStep::Lists(0, known_contact(0)),
        TestStep::Lists(1, known_contact(0x0180_0ABC)),
        TestStep::Lists(2, known_sensor(0xFFFF_FFFE)),
        TestStep::Finds(3, None),
        TestStep::Finds(0xFFFF_FFFE, Some(known_sensor(0xFFFF_FFFE))),
    ];
    perform_and_reopen::<MemStore>(rt.alloc(), &rt, 64, &before, &behind)
}

// Checks how many rows the last statement changed.
fn expect_changed_row_count<S: Alter>(
    rt: &impl Abort,
    conn: &Connection<S>,
    wanted: usize,
) -> Result<(), Fail> {
    assert_eq!(rt; conn.changes(), wanted);
    Ok(())
}

// A statement changes no row, and then an open changes the version row.
fn open_writes_one_row<S: NewConnection>(alloc: Global, rt: &impl Abort) -> Result<(), Fail> {
    let mut registry = new_registry::<S>(alloc, 64)?;
    perform_all(rt, &mut registry, &[TestStep::Learns(known_contact(1))])?;
    let mut conn = registry.close();
    run_statements(&mut conn, "DELETE FROM enogate_device_v2 WHERE id > 1")?;
    expect_changed_row_count(rt, &conn, 0)?;
    expect_changed_row_count(rt, &open_outside_transaction(alloc, conn)??.close(), 1)
}

#[test]
fn an_open_commits_the_version_row(rt: HostRuntime) -> Result<(), Fail> {
    open_writes_one_row::<MemStore>(rt.alloc(), &rt)
}

#[test]
fn a_thousand_devices_and_no_more(rt: HostRuntime) -> Result<(), Fail> {
    let before = [
        TestStep::Bulk(BulkStep::LearnsContacts, 1000),
        TestStep::IsFullFor(known_sensor(1000)),
        TestStep::Finds(1000, None),
        TestStep::Learns(known_sensor(7)),
        TestStep::Finds(7, Some(known_sensor(7))),
        TestStep::Finds(0, Some(known_contact(0))),
    ];
    let behind = [
        TestStep::Counts(1000),
        TestStep::Forgets(8),
        TestStep::Learns(known_sensor(1000)),
        TestStep::Finds(1000, Some(known_sensor(1000))),
        TestStep::Finds(8, None),
    ];
    perform_and_reopen::<MemStore>(rt.alloc(), &rt, 64, &before, &behind)
}
