//! The exit statuses of the program, and its messages for faults.
use crate::report::Report;
use anyhow::Result;
use device_registry::{OpenFault, StoreFault};
use gateway_core::StartFault;
use gateway_main::command_line::{CommandLineFault, read};
use gateway_main::ending::{Ending, done_or_first_fault, ending_without_arguments, status};
use gateway_main::fault::Fault;
use gateway_main::{RunFault, Summary};
use std::alloc::{AllocError, Global};
use std::io;

pub(crate) fn run_cases(rt: &HostRuntime, report: &mut Report) -> Result<()> {
    run_fault_texts_and_status(rt, report)?;
    run_start_fault_texts(rt, report)?;
    run_statuses(rt, report)?;
    run_command_lines(rt, report)?;
    run_close_order(rt, report)
}

fn database_fault(store_fault: StoreFault) -> Fault {
    Fault::Database(OpenFault::Failed(store_fault))
}

// Each fault has its text, and the status 1.
fn run_fault_texts_and_status(rt: &HostRuntime, report: &mut Report) -> Result<()> {
    for (fault, text) in [
        (Fault::Database(OpenFault::NotARegistry), "not a registry"),
        (database_fault(StoreFault::store_failed()), "store"),
        (database_fault(StoreFault::from(AllocError)), "memory"),
        (Fault::CannotOpenFile, "cannot open"),
        (Fault::Run(RunFault::Read), "read"),
        (Fault::Run(RunFault::Write), "write"),
        (Fault::Run(RunFault::TooManyTurns), "too many turns"),
    ] {
        let printed_text = fault.to_string(rt.alloc())?;
        let is_correct = printed_text.as_str() == text && status(&Err(Ending::from(fault))) == 1;
        let name = format!(in rt.alloc(); "the fault: {printed_text}")?;
        report.add_case(rt, name.as_str(), is_correct)?;
    }
    Ok(())
}

// Each cause for which no gateway starts has a text of its own, for callers of the libraries.
fn run_start_fault_texts(rt: &HostRuntime, report: &mut Report) -> Result<()> {
    for (text, expected_text) in [
        (StartFault::BadBase.to_string(rt.alloc())?, "not a base ID"),
        (
            StartFault::Memory.to_string(rt.alloc())?,
            "there is no memory",
        ),
    ] {
        let name = format!(in rt.alloc(); "the text: {expected_text}")?;
        report.add_case(rt, name.as_str(), text.as_str() == expected_text)?;
    }
    Ok(())
}

fn run_statuses(rt: &HostRuntime, report: &mut Report) -> Result<()> {
    let not_text = io::Error::from(io::ErrorKind::InvalidData);
    let out_of_memory = io::Error::from(AllocError);
    for (name, ending, expected_status) in [
        ("an end with no fault", Ok(()), 0),
        (
            "a bad base",
            Err(Ending::from(CommandLineFault::BadBase)),
            2,
        ),
        (
            "no memory for the line",
            Err(Ending::from(CommandLineFault::from(AllocError))),
            1,
        ),
        (
            "an argument that is no text",
            Err(ending_without_arguments(&not_text)),
            2,
        ),
        (
            "no memory for the arguments",
            Err(ending_without_arguments(&out_of_memory)),
            1,
        ),
    ] {
        report.add_case(rt, name, status(&ending) == expected_status)?;
    }
    Ok(())
}

// Command lines that are not run, and the status of each.
const COMMAND_LINES: &str = "\
0 enogate --help
0 enogate replay -h
0 enogate help replay
0 enogate --version
0 enogate -V
2 enogate replay --version
2 enogate
2 enogate replay
2 enogate replay --base
2 enogate replay --base 1
2 enogate help play
0 enogate live --help
0 enogate help live
2 enogate live
2 enogate live --base 1 --serial s --desk d --out o --turns 1
2 enogate live --base FF800000 --serial s --desk d --out o --turns 0";

fn run_command_lines(rt: &HostRuntime, report: &mut Report) -> Result<()> {
    for status_and_line in COMMAND_LINES.lines() {
        let is_correct = match status_and_line.split_once(' ') {
            Some((status_text, line)) => status_of_line(rt.alloc(), line)?
                == status_text.parse().ok(),
            None => false,
        };
        report.add_case(rt, status_and_line, is_correct)?;
    }
    Ok(())
}

// The status for a command line that is not run.
fn status_of_line(alloc: Global, line: &str) -> Result<Option<u8>> {
    let mut words = Vec::new(alloc);
    for word in line.split(' ') {
        words.push(word.to_string(alloc)?)?;
    }
    match read(alloc, words.as_slice()) {
        Ok(_) => Ok(None),
        Err(why) => Ok(Some(status(&Err(Ending::from(why))))),
    }
}

// A path that cannot be opened is reported before the close, and so is the result of a run.
fn run_close_order(rt: &HostRuntime, report: &mut Report) -> Result<()> {
    let summary = Summary { items: 2 };
    let error = sqlite::Error::SqliteFailure(sqlite::ErrorCode::TransactionState);
    let out_of_memory = sqlite::Error::SqliteFailure(sqlite::ErrorCode::OutOfMemory);
    for (name, run_result, close_result, expected_ending) in [
        ("all well", Ok(Ok(summary)), Ok(()), Ok(())),
        (
            "a run's fault",
            Ok(Err(RunFault::TooManyTurns)),
            Ok(()),
            Err(Fault::Run(RunFault::TooManyTurns)),
        ),
        (
            "no path",
            Err(Fault::CannotOpenFile),
            Ok(()),
            Err(Fault::CannotOpenFile),
        ),
        (
            "a close that fails",
            Ok(Ok(summary)),
            Err(error),
            Err(database_fault(StoreFault::store_failed())),
        ),
        (
            "a close with no memory",
            Ok(Ok(summary)),
            Err(out_of_memory),
            Err(database_fault(StoreFault::from(AllocError))),
        ),
        (
            "a run's fault and a close",
            Ok(Err(RunFault::Read)),
            Err(error),
            Err(Fault::Run(RunFault::Read)),
        ),
        (
            "no path and a close",
            Err(Fault::CannotOpenFile),
            Err(error),
            Err(Fault::CannotOpenFile),
        ),
    ] {
        report.add_case(
            rt,
            name,
            done_or_first_fault(run_result, close_result) == expected_ending,
        )?;
    }
    Ok(())
}
