//! The options of a command line that `clap` has accepted.
ghost use Rattle.std.specs.Prelude.{◌≡◌, IfSome, List, Some, codes, is_some, option_and_then, option_map, true};
ghost use Rattle.clap.specs.Words.{Row, first_of, found_of, rows_of, subcommand_rows_of};
ghost use Rattle.gateway_cli.specs.Bases.{base_in};
ghost use Rattle.gateway_cli.specs.CommandLine.{AreTurns, HasLiveOptions, HasRequiredOptions, HasValidTurns};
ghost use Rattle.gateway_cli.specs.CommandLine.{IsGivenFile, SubcommandAsksFor, option_flag, option_text};
ghost use Rattle.gateway_cli.specs.CommandLine.{rows_if_replay_or_live};

use super::{Access, FileToOpen, Options, Service};
use crate::limits::MAX_READS;
use clap::ArgMatches;
use desk_orders::id_of;
use erp1_telegrams::is_base_id;

// The options of the subcommand, if it is `replay` or `live` and its base ID is valid.
pub(super) fn options_of<'a>(matches: &ArgMatches<'a>) -> Option<Options<'a>>
    requires { (rows : List Row) → option_and_then rows_if_replay_or_live (subcommand_rows_of matches.now) ≡ Some rows
        → HasRequiredOptions (subcommand_rows_of matches.now) }
    ensures base { option_map (λ options. options.base) result
        ≡ option_and_then base_in (option_text (codes "base") (subcommand_rows_of matches.now)) }
    ensures db { IfSome result (λ options. option_map (λ path. path.now) options.db
        ≡ option_text (codes "db") (subcommand_rows_of matches.now)) }
    ensures explain { IfSome result (λ options. options.explain_packets
        ≡ option_flag (codes "explain") (subcommand_rows_of matches.now)) }
    ensures service { IfSome result (λ options. SubcommandAsksFor (subcommand_rows_of matches.now) options.service) }
{
    let (name, given) = matches.subcommand()?;
    let service = service_of(name, given)?;
    Some(Options {
        base: base_of(given.get_str("base")?)?,
        db: given.get_str("db"),
        explain_packets: given.get_flag("explain"),
        service,
    })
}

// The service of the subcommand of this name, if it is `replay` or `live`.
fn service_of<'a>(name: &str, given: &ArgMatches<'a>) -> Option<Service<'a>>
    requires { rows_if_replay_or_live (name.now, rows_of (found_of given.now)) ≡ Some (rows_of (found_of given.now))
        → HasRequiredOptions (Some (name.now, rows_of (found_of given.now))) }
    ensures named { option_map (λ _. rows_of (found_of given.now)) result
        ≡ rows_if_replay_or_live (name.now, rows_of (found_of given.now)) }
    ensures service { IfSome result (SubcommandAsksFor (Some (name.now, rows_of (found_of given.now)))) }
{
    match name {
        "replay" => Some(Service::Replay { reads: MAX_READS }),
        "live" => Some(live_service_of(given)),
        _ => None,
    }
}

// The base ID, if the text spells one.
fn base_of(text: &str) -> Option<u32>
    ensures { result ≡ base_in text.now }
{
    let base = id_of(text.as_bytes())?;
    if is_base_id(base) { Some(base) } else { None }
}

fn live_service_of<'a>(given: &ArgMatches<'a>) -> Service<'a>
    requires { HasLiveOptions (rows_of (found_of given.now)) }
    ensures { SubcommandAsksFor (Some (codes "live", rows_of (found_of given.now))) result }
{
    Service::Live {
        serial: given_file(given, "serial", Access::ReadAndWrite),
        desk: given_file(given, "desk", Access::Read),
        out: given_file(given, "out", Access::WriteAnew),
        turns: u64::from(required_turns(given)),
    }
}

// The file whose path is the value of the option of this name, with this access.
fn given_file<'a>(given: &ArgMatches<'a>, name: &str, access: Access) -> FileToOpen<'a>
    requires { is_some (first_of name.now (rows_of (found_of given.now))) ≡ true }
    ensures { IsGivenFile (rows_of (found_of given.now)) name.now access result }
{
    match given.get_str(name) {
        Some(path) => FileToOpen { path, access },
        None => unreachable!(),
    }
}

fn required_turns(given: &ArgMatches<'_>) -> u32
    requires { HasValidTurns (rows_of (found_of given.now)) }
    ensures { AreTurns (rows_of (found_of given.now)) result }
{
    match given.get_one::<u32>("turns") {
        Some(turns) => turns,
        None => unreachable!(),
    }
}
