//! The scripts over files one of which stops, at each of its calls in turn. The gateway continues to the end of its
//! script. Then everything crashes, and the files are opened again.
use super::disks::{
    CrashKind, FileOfDatabase, MemoryFileStore, MemoryFiles, after_crash, close_into_files,
    connect_to_files, empty_files, files_of, is_limit_reached, with_call_limit,
};
use super::script::{
    ExpectedState, LABEL_SCRIPT_INPUTS, OK_LINE, SCRIPT_INPUTS, STORE_ERROR_LINE, ScriptInput,
    SenderRecord,
};
use crate::gateways::{BASE, replay_output_of};
use crate::report::Report;
use anyhow::{Result, bail};
use device_registry::{MAX_CACHED, OpenFault, RegistryOver, SqlConnection, prepare};
use gateway_core::{DeviceStore, GatewayOver};
use gateway_main::fault::Fault;
use gateway_main::start;
use sqlite::Connection;
use std::alloc::Global;

// More calls of a file than a run makes.
const MAX_FILE_CALLS: usize = 5000;

// Enough devices that their table has more than one page.
const MANY_DEVICES: u32 = 350;

#[derive(Clone, Copy, PartialEq, Eq)]
enum RunEnd {
    // No connection is made.
    NotConnected,
    // The database is not prepared.
    NotPrepared,
    // The database is prepared, but the gateway's start fails: its connection is dropped with the files, so these
    // cannot be opened again.
    NotStarted,
    // The script is done, and some inputs failed.
    Failed,
    // The script is done, and the file stops without a failed input.
    JustEnough,
    // The script is done, and the file does not stop.
    Whole,
}

// The initial state of a run.
#[derive(Clone, Copy)]
struct RunSetup<'a> {
    // The script.
    inputs: &'a [ScriptInput],
    files: &'a MemoryFiles,
    // The file that stops.
    which: FileOfDatabase,
    // How many senders the registry knows.
    other_count: u32,
    // How many pages a connection keeps in memory.
    pages: usize,
}

// What a gateway did with the script.
#[derive(Drop)]
struct ScriptProgress {
    state: ExpectedState,
    // What a crash may leave of the sender: what was last acknowledged, then the updates that have failed since.
    possible_records: Vec<SenderRecord>,
    has_failed: bool,
    // Whether each input was answered correctly.
    is_correct: bool,
}

// Mutant: a registry that remembers a device that it failed to learn. It prints `a log that stops, at 28, differs` and
// `a large database that stops, at 49, differs`.
pub(crate) fn run_cases(rt: &HostRuntime, report: &mut Report) -> Result<()> {
    let alloc = rt.alloc();
    let no_files = empty_files(alloc);
    let mut setup = RunSetup {
        inputs: &SCRIPT_INPUTS,
        files: &no_files,
        which: FileOfDatabase::Log,
        other_count: 0,
        pages: 9,
    };
    let ends = [
        RunEnd::NotConnected,
        RunEnd::NotPrepared,
        RunEnd::NotStarted,
        RunEnd::Failed,
    ];
    run_crashes(rt, report, "a log that stops", &setup, &ends)?;
    setup.inputs = &LABEL_SCRIPT_INPUTS;
    run_crashes(rt, report, "a log that stops amid labels", &setup, &ends)?;
    setup.inputs = &SCRIPT_INPUTS;
    setup.which = FileOfDatabase::Database;
    let ends = [RunEnd::NotConnected];
    run_crashes(rt, report, "a database that stops", &setup, &ends)?;
    let many_files = registry_files(alloc, MANY_DEVICES)?;
    let setup = RunSetup {
        inputs: &SCRIPT_INPUTS,
        files: &many_files,
        which: FileOfDatabase::Database,
        other_count: MANY_DEVICES,
        pages: 1,
    };
    let ends = [RunEnd::NotConnected, RunEnd::NotPrepared, RunEnd::Failed];
    run_crashes(rt, report, "a large database that stops", &setup, &ends)
}

fn run_crashes(
    rt: &HostRuntime,
    report: &mut Report,
    name: &str,
    setup: &RunSetup<'_>,
    ends: &[RunEnd],
) -> Result<()> {
    let first_wrong = first_wrong_file_failure(rt.alloc(), setup, ends)?;
    report.add_first_wrong(rt, name, first_wrong)
}

// The first number of calls after which the file stops and a run is wrong, if any. Runs end in each of these ways, and
// the last one without a failure of the file.
fn first_wrong_file_failure(
    alloc: Global,
    setup: &RunSetup<'_>,
    ends: &[RunEnd],
) -> Result<Option<usize>> {
    let mut ends_met = Vec::new(alloc);
    for call_count in 0..MAX_FILE_CALLS {
        let (run_end, is_correct) = run_until_file_fails(alloc, setup, call_count)?;
        if !is_correct {
            return Ok(Some(call_count));
        }
        if run_end == RunEnd::Whole {
            return Ok((!contains_all(ends, &ends_met)).then_some(call_count));
        }
        ends_met.push(run_end)?;
    }
    Ok(Some(MAX_FILE_CALLS))
}

fn contains_all(ends: &[RunEnd], ends_met: &[RunEnd]) -> bool {
    for run_end in ends {
        if !ends_met.contains(run_end) {
            return false;
        }
    }
    true
}

// The files of a registry that knows this many senders.
fn registry_files(alloc: Global, other_count: u32) -> Result<MemoryFiles> {
    match connect_to_files(alloc, empty_files(alloc), 9) {
        Ok(conn) => close_into_files(filled_registry(alloc, conn, other_count)?),
        Err(_) => bail!("no connection"),
    }
}

fn filled_registry<C: SqlConnection + Drop>(alloc: Global, conn: C, other_count: u32) -> Result<C> {
    let mut conn = conn;
    if is_prepared(&mut conn) != Some(true) {
        bail!("not prepared");
    }
    let sql = format!(in alloc;
        "INSERT INTO enogate_device_v2 WITH RECURSIVE n (i) AS (SELECT 1 UNION ALL SELECT i + 1 FROM n) \
        SELECT i, 13959169, -1, '' FROM n LIMIT {other_count}"
    )?;
    conn.execute(sql.as_str(), &[])?;
    Ok(conn)
}

// Whether the database is prepared; false if it fails, and `None` if it is rejected for another cause.
fn is_prepared<C: SqlConnection>(conn: &mut C) -> Option<bool> {
    if !conn.is_autocommit() {
        return None;
    }
    match prepare(conn) {
        Ok(()) => Some(true),
        Err(OpenFault::Failed(fault)) if !fault.is_memory() => Some(false),
        Err(_) => None,
    }
}

// A gateway, unless the database fails.
fn new_gateway_unless_store_fails<C: SqlConnection + Drop>(
    alloc: Global,
    conn: C,
) -> Result<Option<GatewayOver<RegistryOver<C>>>> {
    if !conn.is_autocommit() {
        bail!("a transaction is open");
    }
    match start(alloc, conn, BASE, MAX_CACHED) {
        Ok(gateway) => Ok(Some(gateway)),
        Err((fault, _)) => match fault {
            Fault::Database(OpenFault::Failed(fault)) if !fault.is_memory() => Ok(None),
            _ => bail!("the store did not fail"),
        },
    }
}

// How the run ends whose file allows this many calls, and whether everything was correct.
fn run_until_file_fails(
    alloc: Global,
    setup: &RunSetup<'_>,
    call_count: usize,
) -> Result<(RunEnd, bool)> {
    let files = with_call_limit(alloc, setup.files, setup.which, call_count as u64)?;
    match connect_to_files(alloc, files, setup.pages) {
        Ok(conn) => run_over(alloc, setup, conn),
        Err(files) => check_early_end(alloc, setup, RunEnd::NotConnected, files),
    }
}

fn run_over(
    alloc: Global,
    setup: &RunSetup<'_>,
    conn: Connection<MemoryFileStore>,
) -> Result<(RunEnd, bool)> {
    let mut conn = conn;
    match is_prepared(&mut conn) {
        Some(true) => run_prepared(alloc, setup, conn),
        Some(false) => check_early_end(alloc, setup, RunEnd::NotPrepared, files_of(conn)),
        None => Ok((RunEnd::NotPrepared, false)),
    }
}

fn run_prepared(
    alloc: Global,
    setup: &RunSetup<'_>,
    conn: Connection<MemoryFileStore>,
) -> Result<(RunEnd, bool)> {
    match run_script_over(alloc, setup, conn)? {
        Some((course, conn)) => check_end(alloc, setup, &course, files_of(conn)),
        None => Ok((RunEnd::NotStarted, true)),
    }
}

fn check_early_end(
    alloc: Global,
    setup: &RunSetup<'_>,
    run_end: RunEnd,
    files: MemoryFiles,
) -> Result<(RunEnd, bool)> {
    let mut files = files;
    let is_limit_reached = is_limit_reached(&mut files, setup.which);
    let is_found = is_found_after_crashes(alloc, setup, files, &[SenderRecord::Nothing])?;
    Ok((run_end, is_limit_reached && is_found))
}

fn check_end(
    alloc: Global,
    setup: &RunSetup<'_>,
    course: &ScriptProgress,
    files: MemoryFiles,
) -> Result<(RunEnd, bool)> {
    let mut files = files;
    let is_limit_reached = is_limit_reached(&mut files, setup.which);
    let run_end = if course.has_failed {
        RunEnd::Failed
    } else if is_limit_reached {
        RunEnd::JustEnough
    } else {
        RunEnd::Whole
    };
    let is_found = is_found_after_crashes(alloc, setup, files, course.possible_records.as_slice())?;
    let has_cause = is_limit_reached || !course.has_failed;
    Ok((run_end, course.is_correct && has_cause && is_found))
}

// Runs the script by a gateway, and returns the connection. `None`: there is no gateway.
fn run_script_over<C: SqlConnection + Drop>(
    alloc: Global,
    setup: &RunSetup<'_>,
    conn: C,
) -> Result<Option<(ScriptProgress, C)>> {
    let Some(mut gateway) = new_gateway_unless_store_fails(alloc, conn)? else {
        return Ok(None);
    };
    let course = run_script(alloc, setup, &mut gateway)?;
    Ok(Some((course, gateway.close())))
}

fn run_script<S: DeviceStore>(
    alloc: Global,
    setup: &RunSetup<'_>,
    gateway: &mut GatewayOver<S>,
) -> Result<ScriptProgress> {
    let mut possible_records = Vec::new(alloc);
    possible_records.push(SenderRecord::Nothing)?;
    let mut course = ScriptProgress {
        state: ExpectedState::new(SenderRecord::Nothing, setup.other_count),
        possible_records,
        has_failed: false,
        is_correct: true,
    };
    for input in setup.inputs {
        let text = replay_output_of(alloc, gateway, input.line())?;
        follow_answer(alloc, &mut course, *input, text.as_slice())?;
    }
    Ok(course)
}

// Follows an input with this answer. An input that needs the database may fail, only with the word `store`.
fn follow_answer(
    alloc: Global,
    course: &mut ScriptProgress,
    input: ScriptInput,
    text: &[u8],
) -> Result<()> {
    let change = input.record_after_acknowledgement(course.state.record);
    if text == STORE_ERROR_LINE && input.may_need_database() {
        course.has_failed = true;
        course.state.fail();
        if let Some(record) = change {
            course.possible_records.push(record)?;
        }
        return Ok(());
    }
    if let Some(record) = change {
        course.possible_records.clear();
        course.possible_records.push(record)?;
    }
    let mut expected_output = Vec::new(alloc);
    course
        .state
        .apply(alloc, input)?
        .add_to(&mut expected_output)?;
    course.is_correct &= expected_output.as_slice() == text;
    Ok(())
}

// Whether one of these is found after either kind of crash, and the sender is then learned again.
fn is_found_after_crashes(
    alloc: Global,
    setup: &RunSetup<'_>,
    files: MemoryFiles,
    possible_records: &[SenderRecord],
) -> Result<bool> {
    let mut files = files;
    for crash in [CrashKind::OfProcess, CrashKind::OfMachine] {
        let crashed_files = after_crash(alloc, &mut files, crash)?;
        if !is_found(alloc, setup, crashed_files, possible_records)? {
            return Ok(false);
        }
    }
    Ok(true)
}

fn is_found(
    alloc: Global,
    setup: &RunSetup<'_>,
    files: MemoryFiles,
    possible_records: &[SenderRecord],
) -> Result<bool> {
    match connect_to_files(alloc, files, setup.pages) {
        Ok(conn) => is_found_over(alloc, conn, setup.other_count, possible_records),
        Err(_) => Ok(false),
    }
}

fn is_found_over<C: SqlConnection + Drop>(
    alloc: Global,
    conn: C,
    other_count: u32,
    possible_records: &[SenderRecord],
) -> Result<bool> {
    match new_gateway_unless_store_fails(alloc, conn)? {
        Some(mut gateway) => is_found_by(alloc, &mut gateway, other_count, possible_records),
        None => Ok(false),
    }
}

// Whether a gateway finds one of these, and learns the sender again.
fn is_found_by<S: DeviceStore>(
    alloc: Global,
    gateway: &mut GatewayOver<S>,
    other_count: u32,
    possible_records: &[SenderRecord],
) -> Result<bool> {
    let list = replay_output_of(alloc, gateway, b"list")?;
    let window = replay_output_of(alloc, gateway, b"learn on")?;
    let query = replay_output_of(alloc, gateway, ScriptInput::Actuator.line())?;
    let mut accepted = Vec::new(alloc);
    ExpectedState::new(SenderRecord::Nothing, other_count)
        .apply(alloc, ScriptInput::Actuator)?
        .add_to(&mut accepted)?;
    let is_learned = window.as_slice() == OK_LINE && query.as_slice() == accepted.as_slice();
    Ok(is_learned && is_listed(alloc, list.as_slice(), other_count, possible_records)?)
}

// Whether a list contains one of these.
fn is_listed(
    alloc: Global,
    list: &[u8],
    other_count: u32,
    possible_records: &[SenderRecord],
) -> Result<bool> {
    for record in possible_records {
        if ExpectedState::new(*record, other_count)
            .listed(alloc)?
            .as_bytes()
            == list
        {
            return Ok(true);
        }
    }
    Ok(false)
}
