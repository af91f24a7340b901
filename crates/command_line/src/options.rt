//! The options and the arguments that commands share.

ghost use Rattle.std.specs.Prelude.{◌≡◌, false};
ghost use Rattle.clap.specs.Walk.{rule_of};
ghost use Rattle.command_line.specs.CommandLine.{comments_flag, file_argument, flag_named, hints_flag, output_option, place_option, sessions_option, stream_flag, turns_option, valued_option};

use crate::args::{MAX_PLACE, MAX_TURNS};
use clap::builder::ValueParser;
use clap::{Arg, ArgAction, value_parser};
use lock_rules::MAX_SESSIONS;
use std::alloc::Global;

/// Defines the argument `[FILE]`, which every command but `shell` has.
pub(crate) fn file_arg<'a>(alloc: Global) -> Arg<'a>
    ensures rule { rule_of result ≡ file_argument }
    ensures own { result.global ≡ false }
{
    Arg::new(alloc, "file")
        .value_name("FILE")
        .help("The file to read, by default or for '-' standard input")
}

/// Defines the option `-o FILE`, which every command but `shell` has.
pub(crate) fn output_arg<'a>(alloc: Global) -> Arg<'a>
    ensures rule { rule_of result ≡ output_option }
    ensures own { result.global ≡ false }
{
    Arg::new(alloc, "output")
        .short('o')
        .long("output")
        .value_name("FILE")
        .help(
            "The file to write, whole or not at all, by default or for '-' standard output; an interrupt may leave FILE.0.new",
        )
}

/// Defines an option whose value `parser` checks. `value` stands for the value in the help.
fn valued_arg<'a>(
    alloc: Global,
    name: &'a str,
    value: &'a str,
    help: &'a str,
    parser: ValueParser<'a>,
) -> Arg<'a>
    ensures rule { rule_of result ≡ valued_option name.now parser.entry }
    ensures own { result.global ≡ false }
{
    Arg::new(alloc, name)
        .long(name)
        .value_name(value)
        .help(help)
        .value_parser(parser)
}

/// Defines the option `--sessions N`, which every command has.
pub(crate) fn sessions_arg<'a>(alloc: Global) -> Arg<'a>
    ensures rule { rule_of result ≡ sessions_option }
    ensures own { result.global ≡ false }
{
    let parser = value_parser!(u32).range(1..=i64::from(MAX_SESSIONS));
    valued_arg(
        alloc,
        "sessions",
        "N",
        "How many sessions there are, 1 to 1024",
        parser,
    )
    .default_value("256")
}

/// Defines the option `--turns T`, which `run` has.
pub(crate) fn turns_arg<'a>(alloc: Global) -> Arg<'a>
    ensures rule { rule_of result ≡ turns_option }
    ensures own { result.global ≡ false }
{
    let parser = value_parser!(u32).range(1..=i64::from(MAX_TURNS));
    valued_arg(
        alloc,
        "turns",
        "T",
        "How often a session tries for one answer at most, 1 to 1000000000",
        parser,
    )
    .default_value("1000000000")
}

/// Defines a flag.
pub(crate) fn flag_arg<'a>(alloc: Global, name: &'a str, help: &'a str) -> Arg<'a>
    ensures rule { rule_of result ≡ flag_named name.now }
    ensures own { result.global ≡ false }
{
    Arg::new(alloc, name)
        .long(name)
        .help(help)
        .action(ArgAction::SetTrue)
}

/// Defines the flag `--stream`, which `replay` and `run` have.
pub(crate) fn stream_arg<'a>(alloc: Global) -> Arg<'a>
    ensures rule { rule_of result ≡ stream_flag }
    ensures own { result.global ≡ false }
{
    flag_arg(
        alloc,
        "stream",
        "Writes the history in pieces while calls are served, and keeps no more than a piece in memory",
    )
}

/// Defines an option whose value is a place of a history: `--at P` of `show` and `explain`, `--from P` and `--to Q` of `timeline`.
/// `value` is the letter that stands for the place in the help.
pub(crate) fn place_arg<'a>(alloc: Global, name: &'a str, value: &'a str, help: &'a str) -> Arg<'a>
    ensures rule { rule_of result ≡ place_option name.now }
    ensures own { result.global ≡ false }
{
    let parser = value_parser!(u32).range(0..=i64::from(MAX_PLACE));
    valued_arg(alloc, name, value, help, parser)
}

/// Defines the flag `--comments`, which every command but `shell` has.
pub(crate) fn comments_arg<'a>(alloc: Global) -> Arg<'a>
    ensures rule { rule_of result ≡ comments_flag }
    ensures own { result.global ≡ false }
{
    flag_arg(alloc, "comments", "Skips lines that begin with '#'")
}

/// Defines the flag `--hints`, which every command but `shell` has.
pub(crate) fn hints_arg<'a>(alloc: Global) -> Arg<'a>
    ensures rule { rule_of result ≡ hints_flag }
    ensures own { result.global ≡ false }
{
    flag_arg(
        alloc,
        "hints",
        "Shows a row that is refused, or a wrong reply, and what would help, as on a terminal",
    )
}
