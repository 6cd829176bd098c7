//! The rows that the tables accept, also rows that no SQLite file of our tables can have.
use super::fixtures::NewConnection;
use crate::table::Version;
use crate::table::row_codec::{are_ascending_devices, shows_version};
use sqlite::MemStore;
use std::alloc::Global;
use std::process::Abort;
use std::test::Fail;

// Whether the device table may have each of these rows.
fn accepts_device_rows<S: NewConnection>(
    alloc: Global,
    rt: &impl Abort,
    wanted: bool,
    selects: &str,
) -> Result<(), Fail> {
    let mut conn = S::new_connection(alloc)?;
    for sql in selects.lines() {
        let rows = conn.query_all(sql, &[])?;
        assert_eq!(rt; are_ascending_devices(rows.as_slice()), wanted, "{sql}");
    }
    Ok(())
}

// Whether the version table of this version may have each of these rows. `<n>` is the number of the version.
fn accepts_version_rows<S: NewConnection>(
    alloc: Global,
    rt: &impl Abort,
    version: Version,
    wanted: bool,
    selects: &str,
) -> Result<(), Fail> {
    let number = match version {
        Version::First => "1",
        Version::Second => "2",
    };
    let selects = selects.replace(alloc, "<n>", number)?;
    let mut conn = S::new_connection(alloc)?;
    for sql in selects.lines() {
        let rows = conn.query_all(sql, &[])?;
        assert_eq!(rt; shows_version(rows.as_slice(), version), wanted, "{sql}");
    }
    Ok(())
}

const DEVICE_ROWS: &str = "\
SELECT 1, 1, -1, '' LIMIT 0
SELECT 0, 0, -1, ''
SELECT 4294967294, 16777215, 2047, '~ abcdefghijklmnopqrstuvwxyz 012'
SELECT 0, 5, 0, '' UNION ALL SELECT 1, 5, 0, 'a' UNION ALL SELECT 4294967294, 0, -1, 'a'";

const INVALID_DEVICE_ROWS: &str = "\
SELECT -1, 1, -1, ''
SELECT '5', 1, -1, ''
SELECT NULL, 1, -1, ''
SELECT 4294967295, 1, -1, ''
SELECT 5, -5, -1, ''
SELECT 5, 16777216, -1, ''
SELECT 5, NULL, -1, ''
SELECT 5, '1', -1, ''
SELECT 5, 1, 2048, ''
SELECT 5, 1, -2, ''
SELECT 5, 1, NULL, ''
SELECT 5, 1, -1, NULL
SELECT 5, 1, -1, 5
SELECT 5, 1, -1, x'41'
SELECT 5, 1, -1, ' '
SELECT 5, 1, -1, 'abcdefghijklmnopqrstuvwxyz0123456'
SELECT 5, 1, -1, '' UNION ALL SELECT 5, 2, -1, ''
SELECT 5, 1, -1, '' UNION ALL SELECT 4, 1, -1, ''";

const INVALID_VERSION_ROWS: &str = "\
SELECT 1, <n> LIMIT 0
SELECT 1, 3 - <n>
SELECT 1, 3
SELECT 1, 0
SELECT 1, '<n>'
SELECT 1, NULL
SELECT 2, <n>
SELECT 0, <n>
SELECT -1, <n>
SELECT NULL, <n>
SELECT 1, <n> UNION ALL SELECT 1, <n>";

#[test]
fn rows_of_devices(rt: HostRuntime) -> Result<(), Fail> {
    accepts_device_rows::<MemStore>(rt.alloc(), &rt, true, DEVICE_ROWS)?;
    accepts_device_rows::<MemStore>(rt.alloc(), &rt, false, INVALID_DEVICE_ROWS)
}

#[test]
fn rows_of_the_version(rt: HostRuntime) -> Result<(), Fail> {
    for version in [Version::First, Version::Second] {
        accepts_version_rows::<MemStore>(rt.alloc(), &rt, version, true, "SELECT 1, <n>")?;
        accepts_version_rows::<MemStore>(rt.alloc(), &rt, version, false, INVALID_VERSION_ROWS)?;
    }
    Ok(())
}
