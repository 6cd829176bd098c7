//! The program's run.
ghost use Rattle.std.specs.Prelude.{◌≡◌, true};
ghost use Rattle.erp1_telegrams.specs.Address;
ghost use Rattle.gateway_loop.specs.Processing.{HasNoReadyPacket};

use crate::command_line;
use crate::ending::{
    Ending, RunResultIfOpened, done_or_first_fault, ending_without_arguments, status,
};
use crate::fault::Fault;
use crate::gateway_start::{start, start_file};
use crate::registry_gateway::{live, replay};
use crate::serial_reader::SerialReader;
use byte_io::{OverRead, OverWrite};
use device_registry::{MAX_CACHED, RegistryOver, SqlConnection};
use gateway_cli::{Access, CommandLineFault, FileToOpen, Options, Service};
use gateway_core::GatewayOver;
use gateway_loop::{RunFault, Summary};
use sqlite::{Connection, Start, Wary};
use std::fs::{File, OpenOptions};
use std::process::ExitCode;
use std::{env, io};

/// Runs the program with the arguments of the process.
///
/// The exit status is 0 if it did what it was asked; 1 for a fault, which it prints in one line on standard error; 2
/// for a command line that is rejected. Help and the version go to standard output, with status 0.
pub fn program(rt: &HostRuntime) -> ExitCode {
    let ended = run_command_line(rt);
    if let Err(ending) = &ended {
        print_ending(rt, ending);
    }
    ExitCode::from(status(&ended))
}

// Does what the command line asks.
fn run_command_line(rt: &HostRuntime) -> Result<(), Ending> {
    let words = arguments_of(rt).map_err(|error| ending_without_arguments(&error))?;
    let options = command_line::read(rt.alloc(), words.as_slice())?;
    Ok(open_and_serve(rt, &options)?)
}

fn arguments_of(rt: &HostRuntime) -> io::Result<Vec<String>> {
    Ok(env::args(rt)?.collect(rt.alloc())?)
}

// Opens the database, serves, and closes the database.
fn open_and_serve(rt: &HostRuntime, options: &Options<'_>) -> Result<(), Fault>
    requires base { Address.is_base_id options.now.base ≡ true }
{
    match options.db {
        None => run_in_memory(rt, options),
        // With `Wary`, the registry is found again whatever a torn write leaves. It costs a second sync per commit.
        Some(path) => run_over_files(rt, path, Wary, options),
    }
}

// Starts a gateway over a new database in memory, and lets it serve.
fn run_in_memory(rt: &HostRuntime, options: &Options<'_>) -> Result<(), Fault>
    requires base { Address.is_base_id options.now.base ≡ true }
{
    let conn = Connection::open_in_memory(rt.alloc())?;
    match start(rt.alloc(), conn, options.base, MAX_CACHED) {
        Ok(mut gateway) => done_or_first_fault(serve(rt, &mut gateway, options), Ok(())),
        Err((fault, _)) => Err(fault),
    }
}

// Starts a gateway over the registry in two files, whatever they hold, lets it serve, and closes the database.
fn run_over_files<S: Start>(
    rt: &HostRuntime,
    path: &str,
    contents: S,
    options: &Options<'_>,
) -> Result<(), Fault>
    requires base { Address.is_base_id options.now.base ≡ true }
{
    let mut gateway = match start_file(rt, path, contents, options.base, MAX_CACHED) {
        Ok(gateway) => gateway,
        Err((fault, _)) => return Err(fault),
    };
    let served = serve(rt, &mut gateway, options);
    done_or_first_fault(served, gateway.close().close())
}

// Lets the gateway serve what the options name.
fn serve<C: SqlConnection>(
    rt: &HostRuntime,
    gateway: &mut GatewayOver<RegistryOver<C>>,
    options: &Options<'_>,
) -> RunResultIfOpened
    requires { HasNoReadyPacket gateway.old }
{
    match options.service {
        Service::Replay { reads } => Ok(replay_standard(
            rt,
            gateway,
            options.explain_packets,
            reads,
        )),
        Service::Live {
            serial,
            desk,
            out,
            turns,
        } => {
            let files = (serial, desk, out);
            live_on_files(rt, files, gateway, options.explain_packets, turns)
        }
    }
}

// Replays standard input to standard output.
fn replay_standard<C: SqlConnection>(
    rt: &HostRuntime,
    gateway: &mut GatewayOver<RegistryOver<C>>,
    explains: bool,
    reads: u64,
) -> Result<Summary, RunFault>
    requires { HasNoReadyPacket gateway.old }
{
    let mut reader = OverRead::new(rt.stdin());
    let mut writer = OverWrite::new(rt.stdout());
    replay(&mut reader, &mut writer, gateway, explains, reads)
}

// Opens the serial line, then the desk's file and then the file of the answers, and serves them.
fn live_on_files<C: SqlConnection>(
    rt: &HostRuntime,
    files: (FileToOpen<'_>, FileToOpen<'_>, FileToOpen<'_>),
    gateway: &mut GatewayOver<RegistryOver<C>>,
    explains: bool,
    turns: u64,
) -> RunResultIfOpened
    requires { HasNoReadyPacket gateway.old }
{
    let (serial, desk, out) = files;
    let serial = open_file(rt, serial)?;
    let desk = open_file(rt, desk)?;
    let out = open_file(rt, out)?;
    Ok(live(
        &mut OverRead::new(SerialReader::new(rt, &serial, &desk)),
        &mut OverRead::new(&desk),
        &mut OverWrite::new(&serial),
        &mut OverWrite::new(&out),
        gateway,
        explains,
        turns,
    ))
}

fn open_file(rt: &HostRuntime, file: FileToOpen<'_>) -> Result<File, Fault> {
    let opened = match file.access {
        Access::Read => File::open(rt, file.path),
        Access::ReadAndWrite => OpenOptions::new()
            .read(true)
            .write(true)
            .open(rt, file.path),
        Access::WriteAnew => File::create(rt, file.path),
    };
    opened.map_err(|_| Fault::CannotOpenFile)
}

// Prints a fault or a mistake to standard error, or help and the version to standard output.
fn print_ending(rt: &HostRuntime, ending: &Ending) {
    let _ = match ending {
        Ending::Failed(fault) => eprintln!(rt; "enogate: {fault}"),
        Ending::NotText => eprintln!(rt; "enogate: an argument is not text"),
        Ending::CommandLine(CommandLineFault::BadBase) => eprintln!(rt; "enogate: bad base"),
        Ending::CommandLine(CommandLineFault::ClapError(error)) => error.print(rt),
    };
}
