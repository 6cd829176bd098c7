//! Files in memory, one of which stops, connections over them, and what a crash of all leaves.
use anyhow::{Result, bail};
use sqlite::{Alter, Connection, FileStore, Files, Options};
use sqlite_disk::{Crash, Disk, Fuse, Memory};
use std::alloc::Global;

pub type MemoryFiles = Files<Fuse<Memory>>;

pub type MemoryFileStore = FileStore<Fuse<Memory>>;

/// The log, or the database file.
#[derive(Clone, Copy)]
pub enum FileOfDatabase {
    Log,
    Database,
}

/// What a crash leaves of what was written and not synced.
#[derive(Clone, Copy)]
pub enum CrashKind {
    /// The process dies: everything.
    OfProcess,
    /// The machine crashes: nothing.
    OfMachine,
}

pub(crate) fn empty_files(alloc: Global) -> MemoryFiles {
    Files {
        log: Fuse::new(Memory::new(alloc), u64::MAX),
        db: Fuse::new(Memory::new(alloc), u64::MAX),
    }
}

fn copy_of_file(alloc: Global, file: &Fuse<Memory>, call_limit: u64) -> Result<Fuse<Memory>> {
    let mut copied_file = Memory::new(alloc);
    copied_file.write_at(0, file.inner().bytes())?;
    copied_file.sync()?;
    Ok(Fuse::new(copied_file, call_limit))
}

// Copies of the files. One of them allows this many calls, and then fails each.
pub(crate) fn with_call_limit(
    alloc: Global,
    files: &MemoryFiles,
    which: FileOfDatabase,
    call_limit: u64,
) -> Result<MemoryFiles> {
    let (log, db) = match which {
        FileOfDatabase::Log => (call_limit, u64::MAX),
        FileOfDatabase::Database => (u64::MAX, call_limit),
    };
    Ok(Files {
        log: copy_of_file(alloc, &files.log, log)?,
        db: copy_of_file(alloc, &files.db, db)?,
    })
}

// Whether the file does not allow any more calls.
pub(crate) fn is_limit_reached(files: &mut MemoryFiles, which: FileOfDatabase) -> bool {
    match which {
        FileOfDatabase::Log => !files.log.may_be_used() || files.log.len().is_err(),
        FileOfDatabase::Database => !files.db.may_be_used() || files.db.len().is_err(),
    }
}

// Copies of what a crash leaves of the files. They allow each call.
pub(crate) fn after_crash(
    alloc: Global,
    files: &mut MemoryFiles,
    crash: CrashKind,
) -> Result<MemoryFiles> {
    if let CrashKind::OfMachine = crash {
        files.log.crash();
        files.db.crash();
    }
    Ok(Files {
        log: copy_of_file(alloc, &files.log, u64::MAX)?,
        db: copy_of_file(alloc, &files.db, u64::MAX)?,
    })
}

// A connection over the files that keeps this many pages in memory, or the files again.
pub(crate) fn connect_to_files(
    alloc: Global,
    files: MemoryFiles,
    pages: usize,
) -> std::result::Result<Connection<MemoryFileStore>, MemoryFiles> {
    if !files.may_be_used() {
        return Err(files);
    }
    let mut options = Options::new(7);
    options.cache_pages = pages;
    match Connection::open_files(alloc, files, options) {
        Ok(conn) => Ok(conn),
        Err((_, left)) => Err(left.into_files()),
    }
}

// The files of a connection that is closed.
pub(crate) fn close_into_files(conn: Connection<MemoryFileStore>) -> Result<MemoryFiles> {
    match conn.close_files() {
        Ok(files) => Ok(files),
        Err(_) => bail!("not closed"),
    }
}

// The files of a connection that is left unchanged.
pub(crate) fn files_of(conn: Connection<MemoryFileStore>) -> MemoryFiles {
    store_of(conn).close()
}

// The store of a connection that nothing uses any more.
fn store_of<S: Alter + Drop>(conn: Connection<S>) -> S {
    conn.into_store()
}
