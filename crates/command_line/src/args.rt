//! The command-line arguments: the parser's commands and options, and what a request is.

ghost use Rattle.std.specs.Prelude.{◌≡◌, true, false, codes, IfOk};
ghost use Rattle.clap.specs.Simple.{App, app_of, with_rule, with_subcommand};
ghost use Rattle.clap.specs.Walk.{Rule, rule_of};
ghost use Rattle.clap.specs.declared.builder.command.Command.TheViews.{out-Command as fields_of};
ghost use Rattle.command_line.specs.CommandLine.{app_with_forms, command_for_sessions, glm_command, shell_app, show_app, stats_app, stream_flag, timeline_app, turns_option, with_forms, with_streams};

use crate::options::{
    comments_arg, file_arg, flag_arg, hints_arg, output_arg, place_arg, sessions_arg, stream_arg,
    turns_arg,
};
use crate::texts::{
    ABOUT_CHECK, ABOUT_EXPLAIN, ABOUT_REPLAY, ABOUT_RUN, ABOUT_SHELL, ABOUT_SHOW, ABOUT_STATS,
    ABOUT_TIMELINE, STATUSES, VERSION,
};
use clap::{Arg, Command};
use lock_rules::MAX_SESSIONS;
use std::alloc::{AllocError, Global};

/// The greatest value of `--turns`: turns of one call, that is tries for its answer.
pub const MAX_TURNS: u32 = 1_000_000_000;

/// The greatest number of sessions of a run that writes its history in pieces: one session of the office takes the history.
pub const MAX_STREAMED_SESSIONS: u16 = MAX_SESSIONS - 1;

/// The greatest value of `--at`, `--from` and `--to`: a place of a history.
pub const MAX_PLACE: u32 = u32::MAX;

/// How much of a history a command keeps in memory.
#[derive(Clone, Copy, Drop)]
pub enum Delivery {
    /// All of it: a replay or a run makes the whole text before it writes the first byte, and a check reads all rows before it
    /// compares the first reply.
    Whole,
    /// A piece, by the flag `--stream`: a replay or a run makes and writes the text of a piece each time it is served, and a
    /// check compares each reply as its row is read.
    InPieces,
}

/// In which form `show` writes the state of the lock table, `explain` what calls did and why, and `stats` counters.
#[derive(Clone, Copy, Drop, PartialEq, Eq)]
pub enum Form {
    /// Lines for people.
    Lines,
    /// Rows of seven fields, by the flag `--csv`; of `stats` of three.
    Rows,
    /// A graph in the language of Graphviz, by the flag `--dot`: of `show` the resources that are waited for, and for whom each
    /// session waits first; of `explain` the cycles that requests closed. `stats` has no such flag, and writes lines for this form.
    Graph,
    /// Who waits for whom, and nothing else, as a graph in the language of Graphviz, by the flag `--waits` of `show`. `explain`
    /// has no such flag, and writes for this form what it writes for `Graph`; nor has `stats`, which writes lines.
    Waits,
}

/// A command that the words ask for, with its numbers.
#[derive(Clone, Copy, Drop)]
pub enum CommandRequest {
    /// Replay a trace; holds the number of sessions, and how the history is written.
    Replay(u16, Delivery),
    /// Run a trace on threads; holds the number of sessions, the greatest number of tries for each answer, and how the history
    /// is written.
    Run(u16, u32, Delivery),
    /// Check a history; holds the number of sessions, and how the history is read.
    Check(u16, Delivery),
    /// Show the state of the lock table at a place of a history; holds the number of sessions, the place, `None` for the end, and
    /// the form.
    Show(u16, Option<u32>, Form),
    /// Show the state that a dump is; holds the number of sessions, and the form.
    Dump(u16, Form),
    /// Explain what calls of a history did; holds the number of sessions, the place of the call, `None` for every eventful
    /// one, and the form.
    Explain(u16, Option<u32>, Form),
    /// Draw a history as a timeline; holds the number of sessions, the first place that is drawn, `None` for the beginning, and
    /// the last, `None` for the end.
    Timeline(u16, Option<u32>, Option<u32>),
    /// Count the calls and the waits of a history; holds the number of sessions, and the form.
    Stats(u16, Form),
    /// Answer calls as a person types them; holds the number of sessions.
    Shell(u16),
}

/// A command that the words ask for, with the files that it reads and writes.
#[derive(Clone, Copy, Drop)]
pub struct Request<'a> {
    /// The command, with its numbers.
    pub command: CommandRequest,
    /// The file that is read, `None` for standard input.
    pub input: Option<&'a str>,
    /// The file that is written, `None` for standard output.
    pub output: Option<&'a str>,
    /// Whether comments in the input are skipped, by the flag `--comments`.
    pub skips_comments: bool,
    /// Whether hints are asked for, by the flag `--hints`.
    pub wants_hints: bool,
}

/// Adds an argument to a command. Fails as the command did, or if memory is refused.
fn with_arg<'a>(
    command: Result<Command<'a>, AllocError>,
    arg: Arg<'a>,
) -> Result<Command<'a>, AllocError>
    requires own { arg.global ≡ false }
    ensures app { (before : App) (rule : Rule) → rule_of arg.entry ≡ rule → IfOk command.entry (λ old. app_of old ≡ before) → IfOk result (λ made. app_of made ≡ with_rule before rule) }
    ensures own { IfOk command.entry (λ old. (fields_of old).has_globals ≡ false) → IfOk result (λ made. (fields_of made).has_globals ≡ false) }
{
    command?.arg(arg)
}

/// Adds a subcommand to a command. Fails as one of them did, or if memory is refused.
fn with_command<'a>(
    command: Result<Command<'a>, AllocError>,
    subcommand: Result<Command<'a>, AllocError>,
) -> Result<Command<'a>, AllocError>
    ensures { (before sub : App) → IfOk command.entry (λ old. app_of old ≡ before) → IfOk subcommand.entry (λ own. app_of own ≡ sub) → IfOk subcommand.entry (λ own. (fields_of own).has_globals ≡ false)
        → IfOk result (λ made. app_of made ≡ with_subcommand before sub.top) }
{
    command?.subcommand(subcommand?)
}

/// Adds the argument, the options and the flags that every command but `shell` has. Fails if memory is refused.
fn with_streams<'a>(alloc: Global, command: Command<'a>) -> Result<Command<'a>, AllocError>
    requires own { (fields_of command).has_globals ≡ false }
    ensures app { IfOk result (λ made. app_of made ≡ with_streams (app_of command.entry)) }
    ensures own { IfOk result (λ made. (fields_of made).has_globals ≡ false) }
{
    let command = with_arg(Ok(command), file_arg(alloc));
    let command = with_arg(command, sessions_arg(alloc));
    let command = with_arg(command, output_arg(alloc));
    let command = with_arg(command, comments_arg(alloc));
    with_arg(command, hints_arg(alloc))
}

/// Defines a command with the argument and the options that every command but `shell` has. `about` is its line in the list of commands, and
/// `long_about` the beginning of its own help. Fails if memory is refused.
fn command_of<'a>(
    alloc: Global,
    name: &'a str,
    about: &'a str,
    long_about: &'a str,
) -> Result<Command<'a>, AllocError>
    ensures app { IfOk result (λ command. app_of command ≡ command_for_sessions name.now) }
    ensures own { IfOk result (λ command. (fields_of command).has_globals ≡ false) }
{
    let command = Command::new(alloc, name)
        .about(about)
        .long_about(long_about)
        .after_help(STATUSES);
    with_streams(alloc, command)
}

/// Defines the command `replay`. Fails if memory is refused.
fn replay_command<'a>(alloc: Global) -> Result<Command<'a>, AllocError>
    ensures app { IfOk result (λ command. app_of command ≡ with_rule (command_for_sessions (codes "replay")) stream_flag) }
    ensures own { IfOk result (λ command. (fields_of command).has_globals ≡ false) }
{
    let replay = command_of(
        alloc,
        "replay",
        "Serves a trace on one thread and writes its history",
        ABOUT_REPLAY,
    );
    with_arg(replay, stream_arg(alloc))
}

/// Defines the command `run`. Fails if memory is refused.
fn run_command<'a>(alloc: Global) -> Result<Command<'a>, AllocError>
    ensures app { IfOk result (λ command. app_of command ≡ with_rule (with_rule (command_for_sessions (codes "run")) turns_option) stream_flag) }
    ensures own { IfOk result (λ command. (fields_of command).has_globals ≡ false) }
{
    let run = command_of(
        alloc,
        "run",
        "Performs a trace on threads, one for each session, and writes the history",
        ABOUT_RUN,
    );
    let run = with_arg(run, turns_arg(alloc));
    with_arg(run, stream_arg(alloc))
}

/// Defines the command `check`. Fails if memory is refused.
fn check_command<'a>(alloc: Global) -> Result<Command<'a>, AllocError>
    ensures app { IfOk result (λ command. app_of command ≡ with_rule (command_for_sessions (codes "check")) stream_flag) }
    ensures own { IfOk result (λ command. (fields_of command).has_globals ≡ false) }
{
    let check = command_of(
        alloc,
        "check",
        "Says whether a history is legal",
        ABOUT_CHECK,
    );
    let stream = flag_arg(
        alloc,
        "stream",
        "Compares each reply as its row is read, and keeps no rows in memory",
    );
    with_arg(check, stream)
}

/// Adds the option `--at` and the flags `--csv` and `--dot` to a command. `at_help` and `dot_help` are the help of `--at` and of
/// `--dot`. Fails if memory is refused.
fn with_forms<'a>(
    alloc: Global,
    command: Command<'a>,
    at_help: &'a str,
    dot_help: &'a str,
) -> Result<Command<'a>, AllocError>
    requires own { (fields_of command).has_globals ≡ false }
    ensures app { IfOk result (λ made. app_of made ≡ with_forms (app_of command.entry)) }
    ensures own { IfOk result (λ made. (fields_of made).has_globals ≡ false) }
{
    let command = with_arg(Ok(command), place_arg(alloc, "at", "P", at_help));
    let command = with_arg(command, flag_arg(alloc, "csv", "Writes the same as rows"));
    with_arg(command, flag_arg(alloc, "dot", dot_help))
}

/// Defines the command `show`. Fails if memory is refused.
fn show_command<'a>(alloc: Global) -> Result<Command<'a>, AllocError>
    ensures app { IfOk result (λ command. app_of command ≡ show_app) }
    ensures own { IfOk result (λ command. (fields_of command).has_globals ≡ false) }
{
    let show = command_of(
        alloc,
        "show",
        "Shows who holds what and who waits for whom at a place of a history",
        ABOUT_SHOW,
    )?;
    let made = with_forms(
        alloc,
        show,
        "The place of the history in front of which the state is shown, by default its end",
        "Writes the resources waited for, and each session's first blocker, as a graph for Graphviz",
    );
    let waits = flag_arg(
        alloc,
        "waits",
        "Writes who waits for whom as a graph for Graphviz",
    );
    let made = with_arg(made, waits);
    let state = flag_arg(
        alloc,
        "state",
        "Shows the state that a dump is, the rows of 'show --csv', in place of a history",
    );
    with_arg(made, state)
}

/// Defines the command `explain`. Fails if memory is refused.
fn explain_command<'a>(alloc: Global) -> Result<Command<'a>, AllocError>
    ensures app { IfOk result (λ command. app_of command ≡ app_with_forms (codes "explain")) }
    ensures own { IfOk result (λ command. (fields_of command).has_globals ≡ false) }
{
    let explain = command_of(
        alloc,
        "explain",
        "Explains what the calls of a history did, and why",
        ABOUT_EXPLAIN,
    )?;
    with_forms(
        alloc,
        explain,
        "The place of the call to explain, by default all that waited, were refused or ended a wait",
        "Writes the cycles that requests closed as graphs for Graphviz",
    )
}

/// Defines the command `timeline`. Fails if memory is refused.
fn timeline_command<'a>(alloc: Global) -> Result<Command<'a>, AllocError>
    ensures app { IfOk result (λ command. app_of command ≡ timeline_app) }
    ensures own { IfOk result (λ command. (fields_of command).has_globals ≡ false) }
{
    let timeline = command_of(
        alloc,
        "timeline",
        "Draws a history as a timeline: when each session held, and when it waited",
        ABOUT_TIMELINE,
    );
    let from = place_arg(
        alloc,
        "from",
        "P",
        "The first place of the history that is drawn, by default its beginning",
    );
    let timeline = with_arg(timeline, from);
    let to = place_arg(
        alloc,
        "to",
        "Q",
        "The last place of the history that is drawn, by default its end",
    );
    with_arg(timeline, to)
}

/// Defines the command `stats`. Fails if memory is refused.
fn stats_command<'a>(alloc: Global) -> Result<Command<'a>, AllocError>
    ensures app { IfOk result (λ command. app_of command ≡ stats_app) }
    ensures own { IfOk result (λ command. (fields_of command).has_globals ≡ false) }
{
    let stats = command_of(
        alloc,
        "stats",
        "Counts the calls of a history, and how its waits ended",
        ABOUT_STATS,
    );
    with_arg(stats, flag_arg(alloc, "csv", "Writes the same as rows"))
}

/// Defines the command `shell`. Fails if memory is refused.
fn shell_command<'a>(alloc: Global) -> Result<Command<'a>, AllocError>
    ensures app { IfOk result (λ command. app_of command ≡ shell_app) }
    ensures own { IfOk result (λ command. (fields_of command).has_globals ≡ false) }
{
    Command::new(alloc, "shell")
        .about("Answers calls as they are typed, and says why")
        .long_about(ABOUT_SHELL)
        .after_help(STATUSES)
        .arg(sessions_arg(alloc))
}

/// Defines the program's commands and their options. Fails if memory is refused.
pub(crate) fn commands<'a>(alloc: Global) -> Result<Command<'a>, AllocError>
    ensures { IfOk result (λ command. app_of command ≡ glm_command) }
{
    let glm = Command::new(alloc, "glm")
        .about("Granular locks for databases")
        .version(VERSION)
        .after_help(STATUSES)
        .subcommand_required(true);
    let glm = with_command(Ok(glm), replay_command(alloc));
    let glm = with_command(glm, run_command(alloc));
    let glm = with_command(glm, check_command(alloc));
    let glm = with_command(glm, show_command(alloc));
    let glm = with_command(glm, explain_command(alloc));
    let glm = with_command(glm, timeline_command(alloc));
    let glm = with_command(glm, stats_command(alloc));
    with_command(glm, shell_command(alloc))
}
