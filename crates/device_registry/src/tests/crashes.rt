//! The states of the registry after a failure of the disk, and of its files after a crash that follows.
use super::disks::{
    CrashKind, DiskFault, FaultyFiles, FileOfDatabase, after_crash, close_into_files,
    connect_or_fail, connect_to_files, copies_with_fault, empty_files,
};
use super::failure_trials::{
    REGISTRY_CALLS, RegistryCall, Trial, TrialEnd, cached_page_count, filled_registry,
    run_after_crash, run_before_crash,
};
use super::fixtures::{make_version_1, open_outside_transaction};
use super::test_steps::{TestStep, perform_all};
use std::alloc::Global;
use std::process::Abort;
use std::test::Fail;

// A number of devices whose table has more than one page, and one whose table has a single page.
const MANY_DEVICES: i64 = 350;

const FEW_DEVICES: i64 = 10;

// The crash of trials that do not choose one.
const DEFAULT_CRASH: CrashKind = CrashKind::OfProcess;

// The files of a closed registry of this many contacts, with the IDs from 0 on.
fn registry_files(alloc: Global, devices: i64) -> Result<FaultyFiles, Fail> {
    let conn = connect_or_fail(alloc, empty_files(alloc), 9)?;
    close_into_files(filled_registry(alloc, conn, devices)?)
}

// The files of a closed database that is a registry of version 1 with this many devices.
fn version_1_files(alloc: Global, devices: u32) -> Result<FaultyFiles, Fail> {
    let mut conn = connect_or_fail(alloc, empty_files(alloc), 9)?;
    make_version_1(&mut conn, i64::from(devices))?;
    close_into_files(conn)
}

// The end of a trial over these files.
fn trial_end_over(
    alloc: Global,
    rt: &impl Abort,
    files: FaultyFiles,
    trial: Trial,
    crash: CrashKind,
) -> Result<TrialEnd, Fail> {
    let Some(conn) = connect_to_files(alloc, files, cached_page_count(trial))? else {
        return Ok(TrialEnd::Early);
    };
    let mut end = TrialEnd::Early;
    match run_before_crash(alloc, rt, conn, trial, &mut end)? {
        Some(conn) => {
            let files = after_crash(alloc, conn, crash)?.files;
            end_after_crash(alloc, rt, files, trial, end)
        }
        None => Ok(end),
    }
}

// The end of a trial over the files that its crash left.
fn end_after_crash(
    alloc: Global,
    rt: &impl Abort,
    files: FaultyFiles,
    trial: Trial,
    end: TrialEnd,
) -> Result<TrialEnd, Fail> {
    let conn = connect_or_fail(alloc, files, cached_page_count(trial))?;
    run_after_crash(alloc, rt, conn, trial, end)
}

// The failures of a turn: one write is reported as failed, or each call from one on fails.
fn disk_fault_of_attempt(trial: Trial, turn: u64) -> DiskFault {
    match trial {
        Trial::Learning(_) => DiskFault::Write(turn.saturating_add(1)),
        Trial::Calls(_)
        | Trial::LookUps
        | Trial::Preparing
        | Trial::Migrating(_)
        | Trial::Changing => DiskFault::From(turn),
    }
}

// The ends of a trial over copies of these files: each call or write fails in turn, until none does.
fn ends_with_each_call_failing(
    alloc: Global,
    rt: &impl Abort,
    files: &FaultyFiles,
    which: FileOfDatabase,
    trial: Trial,
    crash: CrashKind,
) -> Result<Vec<TrialEnd>, Fail> {
    let mut ends = Vec::new(alloc);
    for turn in 0..5000 {
        let files = copies_with_fault(alloc, files, which, disk_fault_of_attempt(trial, turn))?;
        match trial_end_over(alloc, rt, files, trial, crash)? {
            TrialEnd::NoFault => return Ok(ends),
            end => ends.push(end)?,
        }
    }
    Err(Fail::from("faults without end"))
}

// The number of syncs of the log that a connection over these files makes, with a registry that performs the acts, or
// without one.
fn count_syncs(
    alloc: Global,
    rt: &impl Abort,
    files: &FaultyFiles,
    acts: Option<&[TestStep]>,
) -> Result<u64, Fail> {
    let files = copies_with_fault(alloc, files, FileOfDatabase::Log, DiskFault::Never)?;
    let conn = connect_or_fail(alloc, files, 9)?;
    let Some(acts) = acts else {
        return Ok(after_crash(alloc, conn, DEFAULT_CRASH)?.syncs);
    };
    let mut registry = open_outside_transaction(alloc, conn)??;
    perform_all(rt, &mut registry, acts)?;
    Ok(after_crash(alloc, registry.close(), DEFAULT_CRASH)?.syncs)
}

#[test]
fn each_call_fails_once(rt: HostRuntime) -> Result<(), Fail> {
    let files = registry_files(rt.alloc(), MANY_DEVICES)?;
    let ends = ends_with_each_call_failing(
        rt.alloc(),
        &rt,
        &files,
        FileOfDatabase::Database,
        Trial::Calls(1),
        DEFAULT_CRASH,
    )?;
    for call in REGISTRY_CALLS {
        let is_met = ends.contains(&TrialEnd::At(call, true))
            || ends.contains(&TrialEnd::At(call, false));
        assert!(rt; is_met, "{call:?}");
    }
    Ok(())
}

#[test]
fn a_failed_change_is_not_cached(rt: HostRuntime) -> Result<(), Fail> {
    let files = registry_files(rt.alloc(), FEW_DEVICES)?;
    let ends = ends_with_each_call_failing(
        rt.alloc(),
        &rt,
        &files,
        FileOfDatabase::Log,
        Trial::Calls(20),
        DEFAULT_CRASH,
    )?;
    for call in [
        RegistryCall::Learn,
        RegistryCall::Relabel,
        RegistryCall::Forget,
    ] {
        assert!(rt; ends.contains(&TrialEnd::At(call, true)), "{call:?}");
    }
    Ok(())
}

#[test]
fn a_cached_sender_needs_no_disk(rt: HostRuntime) -> Result<(), Fail> {
    let files = registry_files(rt.alloc(), MANY_DEVICES)?;
    let ends = ends_with_each_call_failing(
        rt.alloc(),
        &rt,
        &files,
        FileOfDatabase::Database,
        Trial::LookUps,
        DEFAULT_CRASH,
    )?;
    assert!(rt; ends.contains(&TrialEnd::ToldApart));
    Ok(())
}

#[test]
fn what_was_reported_is_found_after_a_crash(rt: HostRuntime) -> Result<(), Fail> {
    let files = registry_files(rt.alloc(), FEW_DEVICES)?;
    for crash in [CrashKind::OfProcess, CrashKind::OfMachine] {
        let files = copies_with_fault(rt.alloc(), &files, FileOfDatabase::Log, DiskFault::Never)?;
        assert_eq!(rt;
            trial_end_over(rt.alloc(), &rt, files, Trial::Changing, crash)?,
            TrialEnd::Kept
        );
    }
    Ok(())
}

#[test]
fn an_open_returns_after_a_sync(rt: HostRuntime) -> Result<(), Fail> {
    let files = registry_files(rt.alloc(), FEW_DEVICES)?;
    let before = count_syncs(rt.alloc(), &rt, &files, None)?;
    assert!(rt; count_syncs(rt.alloc(), &rt, &files, Some(&[]))? > before);
    Ok(())
}

// No contract can state this: a crash leaves the same devices.
#[test]
fn an_unchanged_label_is_answered_after_a_sync(rt: HostRuntime) -> Result<(), Fail> {
    let files = registry_files(rt.alloc(), FEW_DEVICES)?;
    let labels = [
        TestStep::Relabels(5, "Door", true),
        TestStep::Relabels(5, "Door", true),
    ];
    let before = count_syncs(rt.alloc(), &rt, &files, Some(&labels[..1]))?;
    assert!(rt; count_syncs(rt.alloc(), &rt, &files, Some(&labels))? > before);
    Ok(())
}

#[test]
fn an_open_ends_what_a_failed_write_left(rt: HostRuntime) -> Result<(), Fail> {
    let files = registry_files(rt.alloc(), FEW_DEVICES)?;
    // Without an open after it, a failed update may be found later. In that case the database has closed the
    // connection, so no open on it returns Ok.
    let trial = Trial::Learning(false);
    let ends = ends_with_each_call_failing(
        rt.alloc(),
        &rt,
        &files,
        FileOfDatabase::Log,
        trial,
        DEFAULT_CRASH,
    )?;
    assert!(rt; ends.contains(&TrialEnd::Found));
    assert!(rt; ends.contains(&TrialEnd::NotFound));
    for crash in [CrashKind::OfProcess, CrashKind::OfMachine] {
        let trial = Trial::Learning(true);
        let ends = ends_with_each_call_failing(
            rt.alloc(),
            &rt,
            &files,
            FileOfDatabase::Log,
            trial,
            crash,
        )?;
        assert!(rt; ends.contains(&TrialEnd::NotFound));
        assert!(rt; ends.contains(&TrialEnd::Shut));
        assert!(rt; !ends.contains(&TrialEnd::Found));
    }
    Ok(())
}

#[test]
fn an_empty_database_is_prepared_after_each_crash(rt: HostRuntime) -> Result<(), Fail> {
    let files = empty_files(rt.alloc());
    for which in [FileOfDatabase::Log, FileOfDatabase::Database] {
        for crash in [CrashKind::OfProcess, CrashKind::OfMachine] {
            let ends = ends_with_each_call_failing(
                rt.alloc(),
                &rt,
                &files,
                which,
                Trial::Preparing,
                crash,
            )?;
            assert!(rt; !ends.is_empty(), "{which:?}, {crash:?}");
            // `prepare` does not use the database file: its pages stay in the log.
            assert!(rt;
                which == FileOfDatabase::Database || ends.contains(&TrialEnd::MadeBehind),
                "{crash:?}"
            );
        }
    }
    Ok(())
}

// Registries of version 1: `prepare` fails from each call of a file on, and then there is a crash.
fn migrates_after_each_crash(
    alloc: Global,
    rt: &impl Abort,
    devices: u32,
    which: FileOfDatabase,
    crash: CrashKind,
) -> Result<Vec<TrialEnd>, Fail> {
    let files = version_1_files(alloc, devices)?;
    ends_with_each_call_failing(alloc, rt, &files, which, Trial::Migrating(devices), crash)
}

#[test]
fn a_thousand_devices_are_migrated_after_each_crash(rt: HostRuntime) -> Result<(), Fail> {
    for which in [FileOfDatabase::Log, FileOfDatabase::Database] {
        for crash in [CrashKind::OfProcess, CrashKind::OfMachine] {
            let ends = migrates_after_each_crash(rt.alloc(), &rt, 1000, which, crash)?;
            assert!(rt; ends.contains(&TrialEnd::Was(1)), "{which:?}, {crash:?}");
            // A write that was reported as failed is in the log, and only the process has died.
            let is_migrated = which == FileOfDatabase::Log && crash == CrashKind::OfProcess;
            assert_eq!(rt;
                ends.contains(&TrialEnd::Was(2)),
                is_migrated,
                "{which:?}, {crash:?}"
            );
        }
    }
    Ok(())
}
