//! A registry over a disk that fails, one step each.
use super::cached_registry::CachedRegistry;
use super::fixtures::{
    KnownDevice, forget, is_store_fault, is_store_fault_in_learn, is_store_fault_in_open,
    known_contact, known_sensor, learn, open_outside_transaction, prepare_outside_transaction,
    query_number, relabel, run_statements,
};
use super::test_steps::{BulkStep, TestStep, perform_all};
use crate::Registry;
use sqlite::{Alter, Connection, params};
use std::alloc::Global;
use std::process::Abort;
use std::test::Fail;

/// The calls of a registry that use the database.
#[derive(Clone, Copy, Debug, PartialEq, Eq)]
pub enum RegistryCall {
    Find,
    Learn,
    Relabel,
    Forget,
    All,
}

pub const REGISTRY_CALLS: [RegistryCall; 5] = [
    RegistryCall::Find,
    RegistryCall::Relabel,
    RegistryCall::Learn,
    RegistryCall::Forget,
    RegistryCall::All,
];

/// The result of calls over a disk that fails.
#[derive(Clone, Copy, Debug, PartialEq, Eq)]
pub enum TrialEnd {
    /// Nothing failed.
    NoFault,
    /// No registry was opened, or the first call failed.
    Early,
    /// The first call that failed; and whether the sender of its update was found afterwards.
    At(RegistryCall, bool),
    /// The look-up of an uncached sender failed, and a cached sender was answered.
    ToldApart,
    /// An update failed, and so did the next open on its connection.
    Shut,
    /// An update failed, and after a crash its sender was found.
    Found,
    /// An update failed, and after a crash its sender was not found.
    NotFound,
    /// An empty database was not prepared before a crash, but was after it.
    MadeBehind,
    /// A registry of version 1 was not prepared, and after a crash it had this version.
    Was(i64),
    /// An acknowledged update was found after a crash.
    Kept,
}

// The data of a sender in a filled registry: one has a label.
fn data_in_filled_registry(id: u32) -> KnownDevice {
    if id == 9 {
        known_contact(9).with_label("Room")
    } else {
        known_contact(id)
    }
}

/// The connection of a closed registry with this many contacts, with the IDs from 0 on.
pub fn filled_registry<S: Alter + Drop>(
    alloc: Global,
    conn: Connection<S>,
    devices: i64,
) -> Result<Connection<S>, Fail> {
    let mut conn = open_outside_transaction(alloc, conn)??.close();
    conn.execute(
        "INSERT INTO enogate_device_v2 WITH RECURSIVE n (i) AS (SELECT 0 UNION ALL SELECT i + 1 FROM n) \
        SELECT i, 13959169, -1, '' FROM n LIMIT ?1",
        params![devices],
    )?;
    run_statements(
        &mut conn,
        "UPDATE enogate_device_v2 SET label = 'Room' WHERE id = 9",
    )?;
    Ok(conn)
}

// Whether the database fails in `find`. If not, it finds what a filled registry holds.
fn fails_to_find<R: CachedRegistry>(
    rt: &impl Abort,
    registry: &mut R,
    id: u32,
) -> Result<bool, Fail> {
    match registry.find(id) {
        Ok(found) => {
            assert_eq!(rt; found, Some(data_in_filled_registry(id).device()));
            Ok(false)
        }
        Err(fault) => {
            assert!(rt; is_store_fault(&fault));
            Ok(true)
        }
    }
}

fn fails_to_learn<R: CachedRegistry>(
    rt: &impl Abort,
    registry: &mut R,
    id: u32,
) -> Result<bool, Fail> {
    if let Err(fault) = learn(registry, known_sensor(id)) {
        assert!(rt; is_store_fault_in_learn(&fault));
        return Ok(true);
    }
    Ok(false)
}

// Whether the database fails in `relabel`. If not, the sender is known.
fn fails_to_relabel<R: CachedRegistry>(
    rt: &impl Abort,
    registry: &mut R,
    id: u32,
) -> Result<bool, Fail> {
    match relabel(registry, id, "Hall")? {
        Ok(known) => {
            assert!(rt; known);
            Ok(false)
        }
        Err(fault) => {
            assert!(rt; is_store_fault(&fault));
            Ok(true)
        }
    }
}

fn fails_to_forget<R: CachedRegistry>(
    rt: &impl Abort,
    registry: &mut R,
    id: u32,
) -> Result<bool, Fail> {
    if let Err(fault) = forget(registry, id) {
        assert!(rt; is_store_fault(&fault));
        return Ok(true);
    }
    Ok(false)
}

// Whether the database fails in `all`. If not, the list shows the update.
fn fails_to_list<R: CachedRegistry>(rt: &impl Abort, registry: &mut R) -> Result<bool, Fail> {
    match registry.all() {
        Ok(all) => {
            assert!(rt;
                all.contains(&known_sensor(3).device()) && !all.contains(&known_contact(5).device())
            );
            assert!(rt; all.contains(&known_contact(9).with_label("Hall").device()));
            Ok(false)
        }
        Err(fault) => {
            assert!(rt; is_store_fault(&fault));
            Ok(true)
        }
    }
}

fn has_failed<R: CachedRegistry>(
    rt: &impl Abort,
    registry: &mut R,
    call: RegistryCall,
) -> Result<bool, Fail> {
    match call {
        RegistryCall::Find => fails_to_find(rt, registry, 7),
        RegistryCall::Learn => fails_to_learn(rt, registry, 3),
        RegistryCall::Relabel => fails_to_relabel(rt, registry, 9),
        RegistryCall::Forget => fails_to_forget(rt, registry, 5),
        RegistryCall::All => fails_to_list(rt, registry),
    }
}

// Whether a sender is found after its update failed. If so, it is as it was before.
fn is_found_after_failure<R: CachedRegistry>(
    rt: &impl Abort,
    registry: &mut R,
    call: RegistryCall,
) -> Result<bool, Fail> {
    let id = match call {
        RegistryCall::Learn => 3,
        RegistryCall::Relabel => 9,
        RegistryCall::Forget => 5,
        RegistryCall::Find | RegistryCall::All => return Ok(false),
    };
    Ok(!fails_to_find(rt, registry, id)?)
}

// The first call that fails. After it the cache is empty.
fn first_failure<R: CachedRegistry>(rt: &impl Abort, registry: &mut R) -> Result<TrialEnd, Fail> {
    for call in REGISTRY_CALLS {
        if has_failed(rt, registry, call)? {
            perform_all(rt, registry, &[TestStep::RemembersSoMany(0)])?;
            return Ok(TrialEnd::At(call, is_found_after_failure(rt, registry, call)?));
        }
    }
    Ok(TrialEnd::NoFault)
}

// Whether the look-up of an uncached sender fails, and a cached sender is answered. Afterwards the cache is empty.
fn look_up_uncached_and_cached<R: CachedRegistry>(
    rt: &impl Abort,
    registry: &mut R,
) -> Result<TrialEnd, Fail> {
    if fails_to_find(rt, registry, 7)? {
        return Ok(TrialEnd::Early);
    }
    if fails_to_find(rt, registry, 7)? {
        return Err(Fail::from("a remembered sender needs the database"));
    }
    if fails_to_find(rt, registry, 340)? {
        perform_all(rt, registry, &[TestStep::RemembersSoMany(0)])?;
        return Ok(TrialEnd::ToldApart);
    }
    Ok(TrialEnd::NoFault)
}

// The connection of a closed registry that has learned a sender, labelled another and forgotten a third.
fn change_registry<S: Alter + Drop>(
    rt: &impl Abort,
    registry: Registry<S>,
) -> Result<Connection<S>, Fail> {
    let mut registry = registry;
    let acts = [
        TestStep::Learns(known_sensor(600)),
        TestStep::Relabels(9, "Hall", true),
        TestStep::Forgets(7),
    ];
    perform_all(rt, &mut registry, &acts)?;
    Ok(registry.close())
}

// The connection of a closed registry that failed to learn a sender, or none if it has learned it.
fn after_failing_to_learn<S: Alter + Drop>(
    rt: &impl Abort,
    registry: Registry<S>,
) -> Result<Option<Connection<S>>, Fail> {
    let mut registry = registry;
    let has_failed = fails_to_learn(rt, &mut registry, 600)?;
    Ok(has_failed.then_some(registry.close()))
}

// The connection, opened and closed once more, or none if the disk fails meanwhile.
fn reopen_and_close<S: Alter + Drop>(
    alloc: Global,
    rt: &impl Abort,
    conn: Connection<S>,
) -> Result<Option<Connection<S>>, Fail> {
    match open_outside_transaction(alloc, conn)? {
        Ok(again) => Ok(Some(again.close())),
        Err(fault) => {
            assert!(rt; is_store_fault_in_open(&fault));
            Ok(None)
        }
    }
}

// Whether the sender that was to be learned is found.
fn find_learned<R: CachedRegistry>(rt: &impl Abort, registry: &mut R) -> Result<TrialEnd, Fail> {
    perform_all(rt, registry, &[TestStep::Finds(7, Some(known_contact(7)))])?;
    match registry.find(600)? {
        Some(found) => {
            assert_eq!(rt; found, known_sensor(600).device());
            Ok(TrialEnd::Found)
        }
        None => Ok(TrialEnd::NotFound),
    }
}

// `prepare` of a database that is not yet a registry of version 2.
fn prepare_new<S: Alter>(rt: &impl Abort, conn: &mut Connection<S>) -> Result<TrialEnd, Fail> {
    match prepare_outside_transaction(conn)? {
        Ok(()) => Ok(TrialEnd::NoFault),
        Err(fault) => {
            assert!(rt; is_store_fault_in_open(&fault));
            Ok(TrialEnd::MadeBehind)
        }
    }
}

/// A trial over files that fail.
#[derive(Clone, Copy)]
pub enum Trial {
    /// Each call that uses the database, with this many pages in memory.
    Calls(usize),
    /// A cached sender, and an uncached one.
    LookUps,
    /// A `learn`, and a crash; the flag says whether the connection is opened again in between.
    Learning(bool),
    /// `prepare` of an empty database, and a crash.
    Preparing,
    /// `prepare` of a registry of version 1 with this many devices, and a crash.
    Migrating(u32),
    /// A `learn`, a `relabel` and a `forget`, and a crash.
    Changing,
}

/// The number of pages that are kept in memory.
pub fn cached_page_count(trial: Trial) -> usize {
    match trial {
        Trial::Calls(pages) => pages,
        Trial::LookUps | Trial::Migrating(_) => 1,
        Trial::Learning(_) => 20,
        Trial::Preparing | Trial::Changing => 9,
    }
}

/// The part of a trial before its crash. It returns the connection if the trial continues after the crash. The end
/// stays as it is if the disk fails while a registry is opened.
pub fn run_before_crash<S: Alter + Drop>(
    alloc: Global,
    rt: &impl Abort,
    conn: Connection<S>,
    trial: Trial,
    end: &mut TrialEnd,
) -> Result<Option<Connection<S>>, Fail> {
    match trial {
        Trial::Calls(_) => run_calls(alloc, rt, conn, end),
        Trial::LookUps => run_look_ups(alloc, rt, conn, end),
        Trial::Learning(opens_again) => run_learning(alloc, rt, conn, opens_again, end),
        Trial::Preparing | Trial::Migrating(_) => run_preparing(rt, conn, end),
        Trial::Changing => run_registry_changes(alloc, rt, conn),
    }
}

fn run_calls<S: Alter + Drop>(
    alloc: Global,
    rt: &impl Abort,
    conn: Connection<S>,
    end: &mut TrialEnd,
) -> Result<Option<Connection<S>>, Fail> {
    if let Ok(mut registry) = open_outside_transaction(alloc, conn)? {
        *end = first_failure(rt, &mut registry)?;
    }
    Ok(None)
}

fn run_look_ups<S: Alter + Drop>(
    alloc: Global,
    rt: &impl Abort,
    conn: Connection<S>,
    end: &mut TrialEnd,
) -> Result<Option<Connection<S>>, Fail> {
    if let Ok(mut registry) = open_outside_transaction(alloc, conn)? {
        *end = look_up_uncached_and_cached(rt, &mut registry)?;
    }
    Ok(None)
}

fn run_learning<S: Alter + Drop>(
    alloc: Global,
    rt: &impl Abort,
    conn: Connection<S>,
    opens_again: bool,
    end: &mut TrialEnd,
) -> Result<Option<Connection<S>>, Fail> {
    let Ok(registry) = open_outside_transaction(alloc, conn)? else {
        return Ok(None);
    };
    *end = TrialEnd::NoFault;
    let Some(conn) = after_failing_to_learn(rt, registry)? else {
        return Ok(None);
    };
    if !opens_again {
        return Ok(Some(conn));
    }
    *end = TrialEnd::Shut;
    reopen_and_close(alloc, rt, conn)
}

fn run_preparing<S: Alter + Drop>(
    rt: &impl Abort,
    conn: Connection<S>,
    end: &mut TrialEnd,
) -> Result<Option<Connection<S>>, Fail> {
    let mut conn = conn;
    *end = prepare_new(rt, &mut conn)?;
    Ok(Some(conn))
}

fn run_registry_changes<S: Alter + Drop>(
    alloc: Global,
    rt: &impl Abort,
    conn: Connection<S>,
) -> Result<Option<Connection<S>>, Fail> {
    let registry = open_outside_transaction(alloc, conn)??;
    Ok(Some(change_registry(rt, registry)?))
}

/// The part of a trial after its crash, over a new connection, and its end.
pub fn run_after_crash<S: Alter + Drop>(
    alloc: Global,
    rt: &impl Abort,
    conn: Connection<S>,
    trial: Trial,
    end: TrialEnd,
) -> Result<TrialEnd, Fail> {
    let mut conn = conn;
    let end = reported_by_version(&mut conn, trial, end)?;
    let mut registry = open_outside_transaction(alloc, conn)??;
    match trial {
        Trial::Learning(_) => find_learned(rt, &mut registry),
        Trial::Preparing => is_empty_and_learns(rt, &mut registry, end),
        Trial::Migrating(devices) => has_all_and_learns(rt, &mut registry, devices, end),
        Trial::Changing => keeps_changes(rt, &mut registry),
        Trial::Calls(_) | Trial::LookUps => Ok(end),
    }
}

// For a registry of version 1 that was not prepared, the end has its version after the crash.
fn reported_by_version<S: Alter>(
    conn: &mut Connection<S>,
    trial: Trial,
    end: TrialEnd,
) -> Result<TrialEnd, Fail> {
    match (trial, end) {
        (Trial::Migrating(_), TrialEnd::MadeBehind) => {
            Ok(TrialEnd::Was(query_number(conn, "SELECT version FROM enogate_meta")?))
        }
        _ => Ok(end),
    }
}

fn is_empty_and_learns<R: CachedRegistry>(
    rt: &impl Abort,
    registry: &mut R,
    end: TrialEnd,
) -> Result<TrialEnd, Fail> {
    let acts = [
        TestStep::Counts(0),
        TestStep::Learns(known_sensor(600)),
        TestStep::Finds(600, Some(known_sensor(600))),
    ];
    perform_all(rt, registry, &acts)?;
    Ok(end)
}

fn has_all_and_learns<R: CachedRegistry>(
    rt: &impl Abort,
    registry: &mut R,
    devices: u32,
    end: TrialEnd,
) -> Result<TrialEnd, Fail> {
    let acts = [
        TestStep::Bulk(BulkStep::ListsVaried, devices),
        TestStep::Learns(known_sensor(7)),
        TestStep::Finds(7, Some(known_sensor(7))),
    ];
    perform_all(rt, registry, &acts)?;
    Ok(end)
}

fn keeps_changes<R: CachedRegistry>(rt: &impl Abort, registry: &mut R) -> Result<TrialEnd, Fail> {
    let acts = [
        TestStep::Finds(600, Some(known_sensor(600))),
        TestStep::Finds(9, Some(known_contact(9).with_label("Hall"))),
        TestStep::Finds(7, None),
        TestStep::Counts(10),
    ];
    perform_all(rt, registry, &acts)?;
    Ok(TrialEnd::Kept)
}
