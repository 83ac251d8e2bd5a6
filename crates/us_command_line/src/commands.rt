ghost use Rattle.std.specs.Prelude.{◌≡◌, decimal};

use crate::helps::Helps;
use clap::builder::ValueParser;
use clap::{Arg, ArgAction, Command, value_parser};
use std::alloc::{AllocError, Global};

/// The version of the program, defined only here.
const VERSION: &str = "1.1.0";

/// The rounds of `pipe` where none are given.
pub const DEFAULT_ROUNDS: u32 = 2;

/// The workers where none are given.
pub const DEFAULT_WORKERS: usize = 1;

/// A subcommand.
#[derive(Clone, Copy)]
struct Subcommand {
    name: &'static str,
    about: &'static str,
    /// Its usage, where clap's own is too wide.
    usage: Option<&'static str>,
    options: &'static [CommandOption],
}

/// An option of a subcommand.
#[derive(Clone, Copy)]
struct CommandOption {
    name: &'static str,
    value: Value,
    absence: Absence,
    help: &'static str,
}

/// The kind of an option's value.
#[derive(Clone, Copy)]
enum Value {
    Path,
    Number,
}

/// What it means that an option isn't given.
#[derive(Clone, Copy)]
enum Absence {
    /// The words are refused.
    Refused,
    /// It has the rounds that there are where none are given,
    DefaultRounds,
    /// or the workers.
    DefaultWorkers,
    /// Nothing is asked for that needs it.
    Allowed,
}

static REPLAY: Subcommand = Subcommand {
    name: "replay",
    about: "Replays a trace, and writes the MAPs and a report",
    usage: Some(
        "mapsim replay --config <F> --trace <F> --rounds <N>\n                     \
         --maps <F> --report <F> [--workers <N>]",
    ),
    options: &[
        CONFIG,
        TRACE,
        ROUNDS,
        CommandOption {
            name: "maps",
            value: Value::Path,
            absence: Absence::Refused,
            help: "Maps file to write: the MAPs of every round",
        },
        CommandOption {
            name: "report",
            value: Value::Path,
            absence: Absence::Refused,
            help: "Report to write: grants, misses, final flow states",
        },
        WORKERS,
    ],
};

static CHECK: Subcommand = Subcommand {
    name: "check",
    about: "Checks a maps file and a report that any scheduler made",
    usage: Some(
        "mapsim check --config <F> --trace <F> --rounds <N>\n                    \
         --maps <F> --report <F>",
    ),
    options: &[
        CONFIG,
        TRACE,
        CommandOption {
            help: "Number of rounds in the files",
            ..ROUNDS
        },
        MAPS,
        CommandOption {
            name: "report",
            value: Value::Path,
            absence: Absence::Refused,
            help: "Report to check",
        },
    ],
};

static LINT: Subcommand = Subcommand {
    name: "lint",
    about: "Finds what is wrong in configuration, trace and report, by line",
    usage: Some(
        "mapsim lint --config <F> [--trace <F>] [--rounds <N>]\n                   \
         [--maps <F> --report <F>]",
    ),
    options: &[
        CONFIG,
        CommandOption {
            absence: Absence::Allowed,
            ..TRACE
        },
        CommandOption {
            absence: Absence::Allowed,
            help: "Number of rounds of the run",
            ..ROUNDS
        },
        CommandOption {
            absence: Absence::Allowed,
            help: "Maps file to check, with --report, --trace and --rounds",
            ..MAPS
        },
        CommandOption {
            name: "report",
            value: Value::Path,
            absence: Absence::Allowed,
            help: "Report to check, with --maps, --trace and --rounds",
        },
    ],
};

static DUMP: Subcommand = Subcommand {
    name: "dump",
    about: "Prints a maps file, one line for each element of a MAP",
    usage: None,
    options: &[MAPS],
};

static PIPE: Subcommand = Subcommand {
    name: "pipe",
    about: "Replays standard input (the default): configuration, `%%`, trace",
    usage: None,
    options: &[
        CommandOption {
            absence: Absence::DefaultRounds,
            ..ROUNDS
        },
        WORKERS,
    ],
};

const CONFIG: CommandOption = CommandOption {
    name: "config",
    value: Value::Path,
    absence: Absence::Refused,
    help: "Configuration (TOML): channels, service flows, stations",
};

const TRACE: CommandOption = CommandOption {
    name: "trace",
    value: Value::Path,
    absence: Absence::Refused,
    help: "Trace (CSV): requests, and marks of UGS-AD activity",
};

const ROUNDS: CommandOption = CommandOption {
    name: "rounds",
    value: Value::Number,
    absence: Absence::Refused,
    help: "Number of rounds to replay",
};

/// A maps file that is read.
const MAPS: CommandOption = CommandOption {
    name: "maps",
    value: Value::Path,
    absence: Absence::Refused,
    help: "Maps file to read: the MAPs of every round",
};

const WORKERS: CommandOption = CommandOption {
    name: "workers",
    value: Value::Number,
    absence: Absence::DefaultWorkers,
    help: "Number of worker threads, 1 to 64",
};

/// The command line, for clap.
pub fn command<'a>(alloc: Global, helps: &'a Helps) -> Result<Command<'a>, AllocError> {
    let subcommands = subcommands(alloc, helps)?;
    program(alloc, helps.program).subcommands(subcommands)
}

/// The program, without its subcommands.
fn program<'a>(alloc: Global, after_help: &'a str) -> Command<'a> {
    Command::new(alloc, "mapsim")
        .version(VERSION)
        .override_usage("mapsim [COMMAND]")
        .about("Schedules a trace of upstream requests into DOCSIS MAPs, or checks a schedule")
        .after_long_help(after_help)
        .subcommand_required(true)
}

/// The subcommands in the order in which help lists them.
fn subcommands<'a>(alloc: Global, helps: &'a Helps) -> Result<Vec<Command<'a>>, AllocError> {
    let mut subcommands = Vec::new(alloc);
    for (subcommand, help) in &listed(helps) {
        subcommands.push(subcommand_of(alloc, subcommand, help)?)?;
    }
    Ok(subcommands)
}

/// What each of them is, and what its help says after the options.
fn listed(helps: &Helps) -> [(&'static Subcommand, &str); 5] {
    [
        (&REPLAY, helps.replay.as_str()),
        (&CHECK, helps.check.as_str()),
        (&LINT, helps.lint.as_str()),
        (&DUMP, helps.dump.as_str()),
        (&PIPE, helps.pipe.as_str()),
    ]
}

/// A subcommand with its options, and with what `--help` says after them.
fn subcommand_of<'a>(
    alloc: Global,
    subcommand: &Subcommand,
    after_help: &'a str,
) -> Result<Command<'a>, AllocError> {
    let args = args_of(alloc, subcommand.options)?;
    let command = Command::new(alloc, subcommand.name)
        .about(subcommand.about)
        .after_long_help(after_help);
    match subcommand.usage {
        Some(usage) => command.override_usage(usage).args(args),
        None => command.args(args),
    }
}

/// The options of a subcommand.
fn args_of<'a>(alloc: Global, options: &[CommandOption]) -> Result<Vec<Arg<'a>>, AllocError> {
    let mut args = Vec::new(alloc);
    for option in options {
        args.push(arg_of(alloc, option))?;
    }
    Ok(args)
}

fn arg_of<'a>(alloc: Global, option: &CommandOption) -> Arg<'a> {
    let (word, parser) = match option.value {
        Value::Path => ("F", ValueParser::String),
        Value::Number => ("N", value_parser!(u32)),
    };
    let arg = Arg::new(alloc, option.name)
        .long(option.name)
        .value_name(word)
        .value_parser(parser)
        .help(option.help)
        .action(ArgAction::Set);
    match option.absence {
        Absence::Refused => arg.required(true),
        Absence::DefaultRounds => arg.default_value(rounds_word()),
        Absence::DefaultWorkers => arg.default_value(workers_word()),
        Absence::Allowed => arg,
    }
}

/// The rounds where none are given, as a word.
fn rounds_word() -> &'static str
    ensures { result.now ≡ decimal DEFAULT_ROUNDS }
{
    "2"
}

/// The workers where none are given, as a word.
fn workers_word() -> &'static str
    ensures { result.now ≡ decimal DEFAULT_WORKERS }
{
    "1"
}
