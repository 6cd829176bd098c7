//! Command lines that are accepted and that are rejected. `tests/program/test_command_line.py` has the pages of help.
use clap::error::ErrorKind;
use gateway_cli::{Access, CommandLineFault, FileToOpen, Options, Service, read};
use std::test::Fail;

fn words_of(rt: &HostRuntime, line: &str) -> Result<Vec<String>, Fail> {
    let mut words = Vec::new(rt.alloc());
    for word in line.split(' ') {
        words.push(word.to_string(rt.alloc())?)?;
    }
    Ok(words)
}

// `clap` rejects the line in this way.
fn is_rejected(rt: &HostRuntime, line: &str, expected_kind: ErrorKind) -> Result<(), Fail> {
    let words = words_of(rt, line)?;
    match read(rt.alloc(), words.as_slice()) {
        Err(CommandLineFault::ClapError(error)) if error.kind() == expected_kind => Ok(()),
        _ => Err(Fail::from(line)),
    }
}

// The service of `replay`.
const REPLAY_SERVICE: Service<'static> = Service::Replay {
    reads: 4_000_000_000,
};

// The files of all lines of `live` below.
const SERIAL_FILE: FileToOpen<'static> = FileToOpen {
    path: "/dev/s",
    access: Access::ReadAndWrite,
};

const DESK_FILE: FileToOpen<'static> = FileToOpen {
    path: "in/d",
    access: Access::Read,
};

const OUT_FILE: FileToOpen<'static> = FileToOpen {
    path: "o",
    access: Access::WriteAnew,
};

// The base ID, the database, whether packets are explained, and the turns if the service is `live`.
type ExpectedOptions = (u32, Option<&'static str>, bool, Option<u64>);

fn options_of((base, db, explain_packets, turns): ExpectedOptions) -> Options<'static> {
    let service = match turns {
        None => REPLAY_SERVICE,
        Some(turns) => Service::Live {
            serial: SERIAL_FILE,
            desk: DESK_FILE,
            out: OUT_FILE,
            turns,
        },
    };
    Options {
        base,
        db,
        explain_packets,
        service,
    }
}

// The start of lines of `live`, without its turns.
const LIVE_COMMAND_LINE_START: &str =
    "enogate live --base FF800000 --serial /dev/s --desk in/d --out o ";

const ACCEPTED_REPLAY_LINES: [(&str, ExpectedOptions); 5] = [
    (
        "enogate replay --base FF800000",
        (0xFF80_0000, None, false, None),
    ),
    (
        "enogate replay --base=ffffff80",
        (0xFFFF_FF80, None, false, None),
    ),
    (
        "enogate replay --db x.db --base FFA1B280",
        (0xFFA1_B280, Some("x.db"), false, None),
    ),
    (
        "enogate replay --explain --base FF800000 --db=a/b",
        (0xFF80_0000, Some("a/b"), true, None),
    ),
    (
        "enogate replay --base FF800000 --db=--explain",
        (0xFF80_0000, Some("--explain"), false, None),
    ),
];

const ACCEPTED_LIVE_LINES: [(&str, ExpectedOptions); 5] = [
    ("--turns 20", (0xFF80_0000, None, false, Some(20))),
    ("--turns +0020", (0xFF80_0000, None, false, Some(20))),
    ("--turns 1 --explain", (0xFF80_0000, None, true, Some(1))),
    (
        "--turns 4294967295 --db a/b",
        (0xFF80_0000, Some("a/b"), false, Some(4_294_967_295)),
    ),
    (
        "--db=x.db --explain --turns=4294967295",
        (0xFF80_0000, Some("x.db"), true, Some(4_294_967_295)),
    ),
];

fn is_accepted(
    rt: &HostRuntime,
    line: &str,
    expected_options: ExpectedOptions,
) -> Result<(), Fail> {
    let words = words_of(rt, line)?;
    match read(rt.alloc(), words.as_slice()) {
        Ok(options) if options == options_of(expected_options) => Ok(()),
        _ => Err(Fail::from(line)),
    }
}

#[test]
fn accepted_lines(rt: HostRuntime) -> Result<(), Fail> {
    for (line, expected_options) in ACCEPTED_REPLAY_LINES {
        is_accepted(&rt, line, expected_options)?;
    }
    for (line_end, expected_options) in ACCEPTED_LIVE_LINES {
        let line = format!(in rt.alloc(); "{LIVE_COMMAND_LINE_START}{line_end}")?;
        is_accepted(&rt, line.as_str(), expected_options)?;
    }
    let other_order = "enogate live --turns=20 --out=o --desk=in/d --serial=/dev/s --base=FF800000";
    is_accepted(&rt, other_order, (0xFF80_0000, None, false, Some(20)))
}

#[test]
fn bad_bases(rt: HostRuntime) -> Result<(), Fail> {
    for base in ["FF80zz00", "FF80000", "FF800001", ""] {
        let line = format!(in rt.alloc(); "enogate replay --base={base}")?;
        let words = words_of(&rt, line.as_str())?;
        match read(rt.alloc(), words.as_slice()) {
            Err(CommandLineFault::BadBase) => {}
            _ => return Err(Fail::from(base)),
        }
    }
    Ok(())
}

// Command lines with the same start, their different ends, separated by `|`, and the kind of clap's error.
const REJECTED_LINES: [(&str, &str, ErrorKind); 13] = [
    ("enogate replay", " --help", ErrorKind::DisplayHelp),
    ("enogate", " --version", ErrorKind::DisplayVersion),
    (
        "enogate",
        " replay| live",
        ErrorKind::MissingRequiredArgument,
    ),
    ("enogate", " play", ErrorKind::InvalidSubcommand),
    ("enogate", "", ErrorKind::MissingSubcommand),
    ("enogate", " --explain", ErrorKind::UnknownArgument),
    // Options of `live`.
    (
        "enogate replay --base FF800000 --",
        "serial 1|desk 1|out 1|turns 1",
        ErrorKind::UnknownArgument,
    ),
    // A flag has no value, and is given once.
    (
        "enogate replay --base FF800000 ",
        "--explain --explain",
        ErrorKind::ArgumentConflict,
    ),
    (
        "enogate replay --base FF800000 ",
        "--explain=yes|--explain=",
        ErrorKind::TooManyValues,
    ),
    (
        "enogate replay --base FF800000 ",
        "--explain yes|--explains|-e",
        ErrorKind::UnknownArgument,
    ),
    (
        LIVE_COMMAND_LINE_START,
        "--turns 1 --explain --explain",
        ErrorKind::ArgumentConflict,
    ),
    (
        LIVE_COMMAND_LINE_START,
        "--turns 1 --explain=yes",
        ErrorKind::TooManyValues,
    ),
    (
        LIVE_COMMAND_LINE_START,
        "--turns=0|--turns=4294967296|--turns=18446744073709551617|--turns=-1|--turns=1x|--turns=",
        ErrorKind::ValueValidation,
    ),
];

#[test]
fn rejected_command_lines(rt: HostRuntime) -> Result<(), Fail> {
    for (start, line_ends, kind) in REJECTED_LINES {
        for line_end in line_ends.split('|') {
            let line = format!(in rt.alloc(); "{start}{line_end}")?;
            is_rejected(&rt, line.as_str(), kind)?;
        }
    }
    Ok(())
}

// Each option of `live` that is left out is reported, and an option that is given twice is rejected.
#[test]
fn live_options_are_required_once(rt: HostRuntime) -> Result<(), Fail> {
    let options = [
        " --base FF800000",
        " --serial s",
        " --desk d",
        " --out o",
        " --turns 1",
    ];
    for omitted_option in options {
        let mut line = "enogate live".to_string(rt.alloc())?;
        for option in options {
            if option != omitted_option {
                line.push_str(option)?;
            }
        }
        is_rejected(&rt, line.as_str(), ErrorKind::MissingRequiredArgument)?;
        line.push_str(omitted_option)?;
        line.push_str(omitted_option)?;
        is_rejected(&rt, line.as_str(), ErrorKind::ArgumentConflict)?;
    }
    Ok(())
}
