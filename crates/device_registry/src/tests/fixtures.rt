//! Devices, faults and statements that the tests share.
ghost use Rattle.std.specs.Prelude.{◌≡◌, ◌≤◌, []};
ghost use Rattle.device_registry.specs.Opening.{max_cached};

use super::cached_registry::CachedRegistry;
use crate::{Device, Label, LearnFault, OpenFault, Registry, StoreFault, prepare};
use erp1_telegrams::Eep;
use sqlite::{Alter, Connection, MemStore, params};
use std::alloc::Global;
use std::test::Fail;

pub const CONTACT_EEP: Eep = Eep {
    rorg: 0xD5,
    func: 0x00,
    typ: 0x01,
};

pub const SENSOR_EEP: Eep = Eep {
    rorg: 0xA5,
    func: 0x02,
    typ: 0x05,
};

const CREATE_META_TABLE: &str = "CREATE TABLE enogate_meta (k INTEGER PRIMARY KEY CHECK (k = 1), \
    version INTEGER NOT NULL) STRICT;";

const CREATE_DEVICE_TABLE_V1: &str = "CREATE TABLE enogate_device (\
    id INTEGER PRIMARY KEY CHECK (id >= 0 AND id <= 4294967294), \
    eep INTEGER NOT NULL CHECK (eep >= 0 AND eep <= 16777215), \
    maker INTEGER NOT NULL CHECK (maker >= -1 AND maker <= 2047)) STRICT;";

const INSERT_VERSION_1: &str = "INSERT INTO enogate_meta VALUES (1, 1);";

/// The data of a known sender.
#[derive(Clone, Copy)]
pub struct KnownDevice {
    pub id: u32,
    pub eep: Eep,
    pub maker: Option<u16>,
    pub label: &'static str,
}

impl KnownDevice {
    /// The same with this label.
    pub fn with_label(self, label: &'static str) -> KnownDevice {
        KnownDevice {
            id: self.id,
            eep: self.eep,
            maker: self.maker,
            label,
        }
    }

    pub fn device(self) -> Device {
        Device {
            id: self.id,
            eep: self.eep,
            maker: self.maker,
            label: Label::new(self.label).unwrap_or(Label::empty()),
        }
    }

    /// The device with the empty label, in which form it is learned.
    pub fn device_without_label(self) -> Device
        ensures { result.label ≡ [] }
    {
        Device {
            id: self.id,
            eep: self.eep,
            maker: self.maker,
            label: Label::empty(),
        }
    }
}

pub fn known_contact(id: u32) -> KnownDevice {
    KnownDevice {
        id,
        eep: CONTACT_EEP,
        maker: None,
        label: "",
    }
}

pub fn known_sensor(id: u32) -> KnownDevice {
    KnownDevice {
        id,
        eep: SENSOR_EEP,
        maker: Some(70),
        label: "",
    }
}

/// A contact or a sensor, alternately.
pub fn known_contact_or_sensor(id: u32) -> KnownDevice {
    if id % 2 == 0 {
        known_contact(id)
    } else {
        known_sensor(id)
    }
}

/// One of 1,000 devices; no two have the same profile or manufacturer ID.
pub fn varied_device(id: u32) -> KnownDevice {
    let at = id % 1000;
    KnownDevice {
        id,
        eep: Eep::new(0xD5, (at / 256) as u8, (at % 256) as u8),
        maker: (0 < at).then_some(at as u16),
        label: "",
    }
}

/// Makes the database a registry of version 1 with this many of those devices, with the IDs from 0 on.
pub fn make_version_1<S: Alter>(conn: &mut Connection<S>, devices: i64) -> Result<(), Fail> {
    run_statements(conn, CREATE_META_TABLE)?;
    run_statements(conn, CREATE_DEVICE_TABLE_V1)?;
    run_statements(conn, INSERT_VERSION_1)?;
    conn.execute(
        "INSERT INTO enogate_device WITH RECURSIVE n (i) AS (SELECT 0 UNION ALL SELECT i + 1 FROM n) \
        SELECT i, 13959168 + i, i - (i = 0) FROM n LIMIT ?1",
        params![devices],
    )?;
    Ok(())
}

pub fn is_store_fault(fault: &StoreFault) -> bool {
    !fault.is_memory()
}

pub fn is_store_fault_in_learn(fault: &LearnFault) -> bool {
    match fault {
        LearnFault::Full => false,
        LearnFault::Failed(fault) => is_store_fault(fault),
    }
}

pub fn is_store_fault_in_open(fault: &OpenFault) -> bool {
    match fault {
        OpenFault::NotARegistry => false,
        OpenFault::Failed(fault) => is_store_fault(fault),
    }
}

pub fn is_full_fault(fault: &LearnFault) -> bool {
    matches!(fault, LearnFault::Full)
}

pub fn learn<R: CachedRegistry>(registry: &mut R, known: KnownDevice) -> Result<(), LearnFault> {
    let (_id, _is_learned) = registry.learn(known.device_without_label())?.spend();
    Ok(())
}

/// `relabel` with a text that is a label.
pub fn relabel<R: CachedRegistry>(
    registry: &mut R,
    id: u32,
    text: &str,
) -> Result<Result<bool, StoreFault>, Fail> {
    let label = Label::new(text).ok_or("no label")?;
    Ok(registry.relabel(id, label.as_str()))
}

pub fn forget<R: CachedRegistry>(registry: &mut R, id: u32) -> Result<(), StoreFault> {
    let (_id, _is_learned) = registry.forget(id)?.spend();
    Ok(())
}

/// A store that gives a test a new database; the rest of a test is generic in the store.
pub trait NewConnection: Alter + Drop + Sized {
    fn new_connection(alloc: Global) -> Result<Connection<Self>, Fail>;
}

impl NewConnection for MemStore {
    fn new_connection(alloc: Global) -> Result<Connection<MemStore>, Fail> {
        Ok(Connection::open_in_memory(alloc)?)
    }
}

/// A new registry with a cache of this many senders.
pub fn new_registry<S: NewConnection>(alloc: Global, cache: usize) -> Result<Registry<S>, Fail>
    requires { (1 ≤ cache) × (cache ≤ max_cached) }
{
    let conn = S::new_connection(alloc)?;
    if !conn.is_autocommit() {
        return Err(Fail::from("a transaction is open"));
    }
    match Registry::open_with(alloc, conn, cache) {
        Ok(registry) => Ok(registry),
        Err((fault, _)) => Err(fault.into()),
    }
}

/// `Registry::open` over a connection that has no open transaction.
pub fn open_outside_transaction<S: Alter + Drop>(
    alloc: Global,
    conn: Connection<S>,
) -> Result<Result<Registry<S>, OpenFault>, Fail> {
    if !conn.is_autocommit() {
        return Err(Fail::from("a transaction is open"));
    }
    Ok(Registry::open(alloc, conn))
}

/// `prepare` of a connection that has no open transaction.
pub fn prepare_outside_transaction<S: Alter>(
    conn: &mut Connection<S>,
) -> Result<Result<(), OpenFault>, Fail> {
    if !conn.is_autocommit() {
        return Err(Fail::from("a transaction is open"));
    }
    Ok(prepare(conn))
}

pub fn run_statements<S: Alter>(conn: &mut Connection<S>, statements: &str) -> Result<(), Fail> {
    conn.execute_batch(statements)?;
    Ok(())
}

pub fn query_number<S: Alter>(conn: &mut Connection<S>, sql: &str) -> Result<i64, Fail> {
    Ok(conn.query_row(sql, &[])?.get(0)?)
}
