//! Disks that fail, and connections over them.
ghost use Rattle.std.specs.Prelude.{◌≡◌, ◌+◌};

use sqlite::{Alter, Connection, FileStore, Files, Options};
use sqlite_disk::{Crash, Disk, Fuse, Memory, Tally};
use std::alloc::Global;
use std::io;
use std::test::Fail;

/// A disk that reports one write as failed although its bytes are in the file. All other calls go to the disk below.
#[derive(Drop)]
pub struct MisreportingDisk<D: Disk> {
    inner: D,
    // The write that is reported as failed: 1 is the next one, and 0 no write.
    write: u64,
    stated: u64,
    syncs: u64,
}

impl<D: Disk> MisreportingDisk<D> {
    pub fn new(inner: D, write: u64) -> MisreportingDisk<D> {
        MisreportingDisk {
            inner,
            write,
            stated: 0,
            syncs: 0,
        }
    }

    pub fn inner(&self) -> &D {
        &self.inner
    }

    /// The number of syncs so far.
    pub fn syncs(&self) -> u64 {
        self.syncs
    }

    pub fn into_inner(self) -> D {
        let MisreportingDisk {
            inner,
            write: _,
            stated: _,
            syncs: _,
        } = self;
        inner
    }
}

impl<D: Disk> Disk for MisreportingDisk<D> {
    ghost seen = { λ s. D.Disk.seen s.inner };

    ghost may_leave = { λ s. D.Disk.may_leave s.inner };

    ghost is_usable = { λ s. D.Disk.is_usable s.inner };

    ghost faults = { λ s. D.Disk.faults s.inner + s.stated };

    ghost tally_of = { λ s. D.Disk.tally_of s.inner };

    ghost is_rotten = { λ s. D.Disk.is_rotten s.inner };

    ghost key_of = { λ s. D.Disk.key_of s.inner };

    ghost is_clean = { λ s. D.Disk.is_clean s.inner };

    ghost is_fair = { λ s. D.Disk.is_fair s.inner };

    ghost fair_if_clean = { λ s. D.Disk.fair_if_clean s.inner };

    ghost seen_may_stay = { λ s. D.Disk.seen_may_stay s.inner };

    ghost is_mixing = { λ s. D.Disk.is_mixing s.inner };

    fn mixes(&self) -> bool {
        self.inner.mixes()
    }

    fn key(&self) -> u64 {
        self.inner.key()
    }

    fn tally(&self) -> Tally {
        self.inner.tally()
    }

    fn may_be_used(&self) -> bool {
        self.inner.may_be_used()
    }

    fn len(&mut self) -> io::Result<usize> {
        self.inner.len()
    }

    fn read_at(&mut self, at: usize, buf: &mut [u8]) -> io::Result<()> {
        self.inner.read_at(at, buf)
    }

    fn read_checked(&mut self, key: u64, want: u64, at: usize, buf: &mut [u8]) -> io::Result<()> {
        self.inner.read_checked(key, want, at, buf)
    }

    fn write_at(&mut self, at: usize, bytes: &[u8]) -> io::Result<()> {
        self.inner.write_at(at, bytes)?;
        let is_reported = self.write == 1;
        self.write = self.write.saturating_sub(1);
        if is_reported {
            self.stated = self.stated.saturating_add(1);
            return Err(io::Error::other("the disk stumbled"));
        }
        Ok(())
    }

    fn set_len(&mut self, len: usize) -> io::Result<()> {
        self.inner.set_len(len)
    }

    fn sync(&mut self) -> io::Result<()> {
        self.syncs = self.syncs.saturating_add(1);
        self.inner.sync()
    }
}

/// The files of all tests over disks: one type, so that the database code is compiled for only one.
pub type FaultyFiles = Files<MisreportingDisk<Fuse<Memory>>>;

/// The log, or the database file.
#[derive(Clone, Copy, Debug, PartialEq, Eq)]
pub enum FileOfDatabase {
    Log,
    Database,
}

/// How a file fails.
#[derive(Clone, Copy)]
pub enum DiskFault {
    Never,
    /// All calls fail except this many at the beginning.
    From(u64),
    /// The write with this number is reported as failed, although its bytes are in the file.
    Write(u64),
}

/// How much of the unsynced data a crash leaves.
#[derive(Clone, Copy, Debug, PartialEq, Eq)]
pub enum CrashKind {
    /// The process dies: all of it.
    OfProcess,
    /// The machine crashes: nothing.
    OfMachine,
}

fn faulty_disk(file: Memory, fault: DiskFault) -> MisreportingDisk<Fuse<Memory>> {
    match fault {
        DiskFault::Never => MisreportingDisk::new(Fuse::new(file, u64::MAX), 0),
        DiskFault::From(calls) => MisreportingDisk::new(Fuse::new(file, calls), 0),
        DiskFault::Write(write) => MisreportingDisk::new(Fuse::new(file, u64::MAX), write),
    }
}

/// New files.
pub fn empty_files(alloc: Global) -> FaultyFiles {
    Files {
        log: faulty_disk(Memory::new(alloc), DiskFault::Never),
        db: faulty_disk(Memory::new(alloc), DiskFault::Never),
    }
}

fn copy_of_file(alloc: Global, file: &MisreportingDisk<Fuse<Memory>>) -> Result<Memory, Fail> {
    let mut copy = Memory::new(alloc);
    copy.write_at(0, file.inner().inner().bytes())?;
    copy.sync()?;
    Ok(copy)
}

/// New files with the bytes of these; one of them fails.
pub fn copies_with_fault(
    alloc: Global,
    files: &FaultyFiles,
    which: FileOfDatabase,
    fault: DiskFault,
) -> Result<FaultyFiles, Fail> {
    let log = copy_of_file(alloc, &files.log)?;
    let db = copy_of_file(alloc, &files.db)?;
    Ok(match which {
        FileOfDatabase::Log => Files {
            log: faulty_disk(log, fault),
            db: faulty_disk(db, DiskFault::Never),
        },
        FileOfDatabase::Database => Files {
            log: faulty_disk(log, DiskFault::Never),
            db: faulty_disk(db, fault),
        },
    })
}

/// The state that a crash leaves.
#[derive(Drop)]
pub struct AfterCrash {
    /// Copies of the files, which no longer fail.
    pub files: FaultyFiles,
    /// The number of syncs of the log.
    pub syncs: u64,
}

/// A connection that keeps this many pages in memory, or none if the disk fails.
pub fn connect_to_files(
    alloc: Global,
    files: FaultyFiles,
    pages: usize,
) -> Result<Option<Connection<FileStore<MisreportingDisk<Fuse<Memory>>>>>, Fail> {
    if !files.may_be_used() {
        return Err(Fail::from("a sync has failed"));
    }
    let mut options = Options::new(7);
    options.cache_pages = pages;
    Ok(Connection::open_files(alloc, files, options).ok())
}

/// A connection over a disk that must not fail.
pub fn connect_or_fail(
    alloc: Global,
    files: FaultyFiles,
    pages: usize,
) -> Result<Connection<FileStore<MisreportingDisk<Fuse<Memory>>>>, Fail> {
    match connect_to_files(alloc, files, pages)? {
        Some(conn) => Ok(conn),
        None => Err(Fail::from("no connection")),
    }
}

/// The files of a closed connection.
pub fn close_into_files(
    conn: Connection<FileStore<MisreportingDisk<Fuse<Memory>>>>,
) -> Result<FaultyFiles, Fail> {
    Ok(conn.close_files().ok().ok_or("not closed")?)
}

/// The state that a crash at this moment leaves of a connection.
pub fn after_crash(
    alloc: Global,
    conn: Connection<FileStore<MisreportingDisk<Fuse<Memory>>>>,
    crash: CrashKind,
) -> Result<AfterCrash, Fail> {
    files_after_crash(alloc, files_of(store_of(conn)), crash)
}

// The store of a connection that nothing uses any more.
fn store_of<S: Alter + Drop>(conn: Connection<S>) -> S {
    conn.into_store()
}

// The files of a store that nothing uses any more.
fn files_of<D: Disk + Drop>(store: FileStore<D>) -> Files<D> {
    store.close()
}

// The disk that a crash leaves; it no longer fails.
fn disk_after_crash(
    disk: MisreportingDisk<Fuse<Memory>>,
    crash: CrashKind,
) -> MisreportingDisk<Fuse<Memory>> {
    let mut file = disk.into_inner();
    if crash == CrashKind::OfMachine {
        file.crash();
    }
    MisreportingDisk::new(file, 0)
}

// The state that a crash leaves of these files.
fn files_after_crash(
    alloc: Global,
    files: FaultyFiles,
    crash: CrashKind,
) -> Result<AfterCrash, Fail> {
    let syncs = files.log.syncs();
    let Files { log, db } = files;
    let left = Files {
        log: disk_after_crash(log, crash),
        db: disk_after_crash(db, crash),
    };
    let files = copies_with_fault(alloc, &left, FileOfDatabase::Log, DiskFault::Never)?;
    Ok(AfterCrash { files, syncs })
}
