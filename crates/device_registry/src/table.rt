//! The two tables of the registry, in both versions: names, numbers and ranges.
ghost use Rattle.std.specs.Prelude.{◌≡◌, pos};
ghost use Rattle.device_registry.specs.Stored.{other};
ghost use Rattle.device_registry.specs.Table.{version_number, device_table_name, create_device_sql, find_all_sql};

pub mod row_codec;
pub mod statements;

use statements::{CREATE_DEVICE, CREATE_DEVICE_V1, FIND_ALL, FIND_ALL_V1};

/// A version of the tables. Own choice.
#[derive(Clone, Copy)]
pub enum Version {
    /// Devices have no labels.
    First,
    /// Devices have labels. Databases of version 1 are migrated to this on open.
    Second,
}

impl Version {
    /// The other version.
    pub fn other(self) -> Version
        ensures { result ≡ other self }
    {
        match self {
            Version::First => Version::Second,
            Version::Second => Version::First,
        }
    }

    /// The number in its version row.
    pub fn number(self) -> i64
        ensures { result ≡ pos (version_number self) }
    {
        match self {
            Version::First => 1,
            Version::Second => 2,
        }
    }

    /// The name of its device table.
    pub fn device_table_name(self) -> &'static [u8]
        ensures { result.now ≡ device_table_name self }
    {
        match self {
            Version::First => b"enogate_device",
            Version::Second => b"enogate_device_v2",
        }
    }

    /// The text that creates this table.
    pub fn create_device_sql(self) -> &'static str
        ensures { result.now ≡ create_device_sql self }
    {
        match self {
            Version::First => CREATE_DEVICE_V1,
            Version::Second => CREATE_DEVICE,
        }
    }

    /// The text that shows all its devices, by ascending ID.
    pub fn find_all_sql(self) -> &'static str
        ensures { result.now ≡ find_all_sql self }
    {
        match self {
            Version::First => FIND_ALL_V1,
            Version::Second => FIND_ALL,
        }
    }
}

/// The key of the version row.
pub const VERSION_ROW_KEY: i64 = 1;

/// The stored number for no manufacturer ID.
pub const NO_MAKER: i64 = -1;

/// The name of the version table.
pub const META_TABLE_NAME: &[u8] = b"enogate_meta";
