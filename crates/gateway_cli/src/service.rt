//! The service of a gateway: the files that it opens, with which access, and how long it continues.

/// The service of a gateway, and its files.
#[derive(Clone, Copy, Debug, PartialEq, Eq)]
pub enum Service<'a> {
    /// Standard input is replayed to standard output, with at most this many reads.
    Replay {
        reads: u64,
    },
    /// The serial line, the desk's file and the file of the answers are served, for this many turns; `read` returns 1
    /// to 4294967295. They are opened in this order. If one cannot be opened, the next ones are not opened. No
    /// postcondition says so.
    Live {
        serial: FileToOpen<'a>,
        desk: FileToOpen<'a>,
        out: FileToOpen<'a>,
        turns: u64,
    },
}

/// A file that is opened.
#[derive(Clone, Copy, Debug, PartialEq, Eq)]
pub struct FileToOpen<'a> {
    /// Its path.
    pub path: &'a str,
    /// Its access.
    pub access: Access,
}

/// The access to a file.
#[derive(Clone, Copy, Debug, PartialEq, Eq)]
pub enum Access {
    /// Read; the file must exist.
    Read,
    /// Read and write; the file must exist.
    ReadAndWrite,
    /// Write; the file is created or truncated.
    WriteAnew,
}
