//! The commands and their options, as `clap` reads them.
ghost use Rattle.std.specs.Prelude.{◌≡◌, IfOk, false};
ghost use Rattle.clap.specs.Words.{app_of, rule_of};
ghost use Rattle.gateway_cli.specs.CommandLine.{base_rule, db_rule, enogate_app, explain_rule, live_app, replay_app};
ghost use Rattle.gateway_cli.specs.CommandLine.{required_rule, turns_rule};

use crate::limits::MAX_TURNS;
use clap::builder::ValueParser;
use clap::{Arg, ArgAction, Command};
use std::alloc::{AllocError, Global};

// The version that `--version` prints after the program's name.
const VERSION: &str = "0.3.0";

// The command `enogate` with its subcommands.
pub(super) fn command<'a>(alloc: Global) -> Result<Command<'a>, AllocError>
    ensures { IfOk result (λ command. app_of command ≡ enogate_app) }
{
    Command::new(alloc, "enogate")
        .bin_name("enogate")?
        .about("A gateway for EnOcean radio devices")
        .version(VERSION)
        .subcommand_required(true)
        .subcommand(replay_command(alloc)?)?
        .subcommand(live_command(alloc)?)
}

fn replay_command<'a>(alloc: Global) -> Result<Command<'a>, AllocError>
    ensures { IfOk result (λ command. app_of command ≡ replay_app) }
{
    Command::new(alloc, "replay")
        .about("Run a recorded script from standard input to standard output")
        .arg(base_option(alloc))?
        .arg(db_option(alloc))?
        .arg(explain_option(alloc))
}

fn live_command<'a>(alloc: Global) -> Result<Command<'a>, AllocError>
    ensures { IfOk result (λ command. app_of command ≡ live_app) }
{
    Command::new(alloc, "live")
        .about("Run a gateway on a serial port")
        .arg(base_option(alloc))?
        .arg(path_option(alloc, "serial", "Serial port of the radio module"))?
        .arg(path_option(alloc, "desk", "File with orders, one per line"))?
        .arg(path_option(alloc, "out", "Output file, created or truncated"))?
        .arg(turns_option(alloc))?
        .arg(db_option(alloc))?
        .arg(explain_option(alloc))
}

fn base_option<'a>(alloc: Global) -> Arg<'a>
    ensures rule { rule_of result ≡ base_rule }
    ensures local { result.global ≡ false }
{
    required_option(
        alloc,
        "base",
        "ID",
        "Base ID of the radio module, 8 hexadecimal digits",
    )
}

fn db_option<'a>(alloc: Global) -> Arg<'a>
    ensures rule { rule_of result ≡ db_rule }
    ensures local { result.global ≡ false }
{
    Arg::new(alloc, "db")
        .long("db")
        .action(ArgAction::Set)
        .value_name("PATH")
        .help("SQLite file of learned devices; without this option they are kept in memory only")
}

fn explain_option<'a>(alloc: Global) -> Arg<'a>
    ensures rule { rule_of result ≡ explain_rule }
    ensures local { result.global ≡ false }
{
    Arg::new(alloc, "explain")
        .long("explain")
        .action(ArgAction::SetTrue)
        .help("Report what was done with each packet, and why")
}

fn turns_option<'a>(alloc: Global) -> Arg<'a>
    ensures rule { rule_of result ≡ turns_rule }
    ensures local { result.global ≡ false }
{
    let turns = ValueParser::unsigned(1, MAX_TURNS);
    required_option(
        alloc,
        "turns",
        "N",
        "Number of read cycles before exiting, 1 to 4294967295",
    )
    .value_parser(turns)
}

// A required option of this name whose value is a path.
fn path_option<'a>(alloc: Global, name: &'a str, help: &'a str) -> Arg<'a>
    ensures rule { rule_of result ≡ required_rule name.entry.now }
    ensures local { result.global ≡ false }
{
    required_option(alloc, name, "PATH", help)
}

// A required option of this name with one value.
fn required_option<'a>(alloc: Global, name: &'a str, value_name: &'a str, help: &'a str) -> Arg<'a>
    ensures rule { rule_of result ≡ required_rule name.entry.now }
    ensures local { result.global ≡ false }
{
    Arg::new(alloc, name)
        .long(name)
        .action(ArgAction::Set)
        .value_name(value_name)
        .help(help)
        .required(true)
}
