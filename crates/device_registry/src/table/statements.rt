//! The texts of all statements on the two tables, and of the one that lists a database's objects.

/// Creates the version table.
pub const CREATE_META: &str =
    "CREATE TABLE enogate_meta (k INTEGER PRIMARY KEY CHECK (k = 1), version INTEGER NOT NULL) STRICT";

/// Creates the device table.
pub const CREATE_DEVICE: &str =
    "CREATE TABLE enogate_device_v2 (id INTEGER PRIMARY KEY CHECK (id >= 0 AND id <= 4294967294), \
     eep INTEGER NOT NULL CHECK (eep >= 0 AND eep <= 16777215), \
     maker INTEGER NOT NULL CHECK (maker >= -1 AND maker <= 2047), label TEXT NOT NULL) STRICT";

/// Created the device table in version 1.
pub const CREATE_DEVICE_V1: &str =
    "CREATE TABLE enogate_device (id INTEGER PRIMARY KEY CHECK (id >= 0 AND id <= 4294967294), \
     eep INTEGER NOT NULL CHECK (eep >= 0 AND eep <= 16777215), \
     maker INTEGER NOT NULL CHECK (maker >= -1 AND maker <= 2047)) STRICT";

/// Inserts the version row.
pub const WRITE_VERSION: &str = "INSERT INTO enogate_meta (k, version) VALUES (1, 2)";

/// Shows the version row.
pub const READ_VERSION: &str = "SELECT k, version FROM enogate_meta";

/// Writes version 2; in a registry of version 2 the row does not change.
pub const REWRITE_VERSION: &str = "UPDATE enogate_meta SET version = 2";

/// Shows the device of a sender.
pub const FIND: &str = "SELECT id, eep, maker, label FROM enogate_device_v2 WHERE id = ?1";

/// Shows all devices, by ascending ID.
pub const FIND_ALL: &str = "SELECT id, eep, maker, label FROM enogate_device_v2 ORDER BY id";

/// Shows all devices of version 1 in the same way, each with the empty label.
pub const FIND_ALL_V1: &str = "SELECT id, eep, maker, '' FROM enogate_device ORDER BY id";

/// Counts the devices of other senders.
pub const COUNT_OTHERS: &str = "SELECT count(*) FROM enogate_device_v2 WHERE id <> ?1";

/// Upserts a device.
pub const UPSERT: &str =
    "INSERT OR REPLACE INTO enogate_device_v2 (id, eep, maker, label) VALUES (?1, ?2, ?3, ?4)";

/// Deletes the device of a sender.
pub const DELETE: &str = "DELETE FROM enogate_device_v2 WHERE id = ?1";

/// Copies all devices of version 1, each with the empty label.
pub const COPY_V1: &str =
    "INSERT INTO enogate_device_v2 (id, eep, maker, label) SELECT id, eep, maker, '' FROM enogate_device";

/// Drops the device table of version 1.
pub const DROP_DEVICE_V1: &str = "DROP TABLE enogate_device";

/// Lists the objects of the database, each with the text that created it.
pub const LIST_OBJECTS: &str = "SELECT name, type, sql FROM sqlite_schema ORDER BY rowid";
