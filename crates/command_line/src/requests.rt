//! The request of the words: parses them by the program's commands, and reads the options of the command that was found.

ghost use Rattle.std.specs.Prelude.{◌≡◌, ◌<◌, ◌≤◌, ◌↔◌, ℕ, true, List, Option, Some, None, codes, option_map, IfOk, IfErr, IfSome, IfNone};
ghost use Rattle.clap.specs.Kinds.{FailsBy};
ghost use Rattle.clap.specs.Matches.{found_of};
ghost use Rattle.clap.specs.Simple.{subcommand_of, subcommand_rows_of};
ghost use Rattle.clap.specs.Walk.{first_of, rows_of, texts};
ghost use Rattle.lock_rules.specs.declared.calls.TheConstants.{MAX_SESSIONS};
ghost use Rattle.command_line.specs.declared.args.CommandRequest.{CommandRequest as RequestValue};
ghost use Rattle.command_line.specs.declared.args.Form.{Form as FormValue};
ghost use Rattle.command_line.specs.CommandLine.{Ask, Gives, GivesPlace, HasFlag, HasNumbers, IsRequest, Wants, WantsForm, faults_of, glm_command};
ghost use Rattle.command_line.specs.Streams.{HasStreams, HasStreamsOf, file_named};

use crate::args::{
    CommandRequest, Delivery, Form, MAX_PLACE, MAX_STREAMED_SESSIONS, MAX_TURNS, Request, commands,
};
use clap::{ArgMatches, Error};
use lock_rules::MAX_SESSIONS;
use lock_tree::parse_numeral;
use std::alloc::Global;

/// Parses the words by the program's commands. Fails as the parser does, for help and the version too.
fn parse<'a>(alloc: Global, words: &'a [&'a str]) -> Result<ArgMatches<'a>, Error>
    ensures fails { FailsBy (faults_of (texts words.entry.now)) result }
    ensures rows { IfOk result (λ matches. subcommand_rows_of matches ≡ subcommand_of glm_command (texts words.entry.now)) }
{
    commands(alloc)?.try_get_matches_from(words)
}

/// Returns the name of the command in the matches and the matches of its options, or `None` if there is no command.
fn found_command<'m, 'a>(matches: &'m ArgMatches<'a>) -> Option<(&'a str, &'m ArgMatches<'a>)>
    ensures some { IfSome result (λ found. subcommand_rows_of matches.now ≡ Some (found.0.now, rows_of (found_of found.1.now))) }
    ensures none { IfNone result (subcommand_rows_of matches.now ≡ None) }
{
    matches.subcommand()
}

/// Returns the text of an option, or `None` if the option has none.
fn option_text<'a>(given: &ArgMatches<'a>, option: &str) -> Option<&'a str>
    ensures { option_map (λ text. text.now) result ≡ first_of option.now (rows_of (found_of given.now)) }
{
    given.get_str(option)
}

/// Returns the number of an option, if it is between 1 and `greatest` and written in digits without a leading zero.
fn option_number(given: &ArgMatches, option: &str, greatest: u32) -> Option<u32>
    ensures some { IfSome result (Gives option.now greatest (rows_of (found_of given.now))) }
    ensures none { IfNone result ((number : ℕ) → ¬ (Gives option.now greatest (rows_of (found_of given.now)) number)) }
{
    let Some(text) = option_text(given, option) else {
        return None;
    };
    match parse_numeral(text.as_bytes(), u64::from(greatest)) {
        // the parser has already tested the range, but takes a sign and leading zeros
        Ok(number) if 0 < number => Some(number as u32),
        _ => None,
    }
}

/// Returns the number of sessions of a command, or `None` if it isn't a valid number.
fn option_sessions(given: &ArgMatches) -> Option<u16>
    ensures some { IfSome result (Gives (codes "sessions") MAX_SESSIONS (rows_of (found_of given.now))) }
    ensures none { IfNone result ((number : ℕ) → ¬ (Gives (codes "sessions") MAX_SESSIONS (rows_of (found_of given.now)) number)) }
{
    match option_number(given, "sessions", MAX_SESSIONS as u32) {
        Some(sessions) => Some(sessions as u16),
        None => None,
    }
}

/// Whether the options have a flag.
fn has_flag(given: &ArgMatches, flag: &str) -> bool
    ensures { (result ≡ true) ↔ HasFlag flag.now (rows_of (found_of given.now)) }
{
    match option_text(given, flag) {
        Some(text) => text == "true",
        None => false,
    }
}

/// Returns how much of a history a command keeps in memory: a piece if the options have the flag `--stream`.
fn delivery_of(given: &ArgMatches) -> Delivery
    ensures { Wants (rows_of (found_of given.now)) result }
{
    if has_flag(given, "stream") {
        Delivery::InPieces
    } else {
        Delivery::Whole
    }
}

/// Returns the place that an option gives, `None` if the option isn't given. Fails if its text isn't written in digits without a
/// leading zero.
fn option_place(given: &ArgMatches, option: &str) -> Result<Option<u32>, ()>
    ensures ok { IfOk result (GivesPlace option.now (rows_of (found_of given.now))) }
    ensures err { IfErr result (λ _. (place : Option ℕ) → ¬ (GivesPlace option.now (rows_of (found_of given.now)) place)) }
{
    let Some(text) = option_text(given, option) else {
        return Ok(None);
    };
    match parse_numeral(text.as_bytes(), u64::from(MAX_PLACE)) {
        // the parser has already tested the range, but takes a sign and leading zeros
        Ok(place) => Ok(Some(place as u32)),
        Err(_) => Err(()),
    }
}

/// Returns the form in which `show`, `explain` or `stats` writes, or `None` if the options have more than one of `--csv`, `--dot` and
/// `--waits`.
fn form_of(given: &ArgMatches) -> Option<Form>
    ensures some { IfSome result (WantsForm (rows_of (found_of given.now))) }
    ensures none { IfNone result ((form : FormValue) → ¬ (WantsForm (rows_of (found_of given.now)) form)) }
{
    let waits = has_flag(given, "waits");
    match (has_flag(given, "csv"), has_flag(given, "dot")) {
        (false, false) if waits => Some(Form::Waits),
        (false, false) => Some(Form::Lines),
        (true, false) if !waits => Some(Form::Rows),
        (false, true) if !waits => Some(Form::Graph),
        _ => None,
    }
}

/// Returns the place and the form that the options of `show` or `explain` give, or `None` if the place isn't a valid number or
/// they want two forms.
fn place_and_form(given: &ArgMatches) -> Option<(Option<u32>, Form)>
    ensures some { IfSome result (λ asked. GivesPlace (codes "at") (rows_of (found_of given.now)) asked.0 × WantsForm (rows_of (found_of given.now)) asked.1) }
    ensures none { IfNone result ((place : Option ℕ) (form : FormValue) → GivesPlace (codes "at") (rows_of (found_of given.now)) place → ¬ (WantsForm (rows_of (found_of given.now)) form)) }
{
    let Ok(place) = option_place(given, "at") else {
        return None;
    };
    let Some(form) = form_of(given) else {
        return None;
    };
    Some((place, form))
}

/// Returns the request of `show` with this place and form, or `None` if it is asked for a dump at a place.
#[tactic(auto, using(crate::proofs::Ask::no_dump_at))]
fn shown_request(
    sessions: u16,
    place: Option<u32>,
    form: Form,
    given: &ArgMatches,
) -> Option<CommandRequest>
    requires given { Gives (codes "sessions") MAX_SESSIONS (rows_of (found_of given.now)) sessions }
    requires place { GivesPlace (codes "at") (rows_of (found_of given.now)) place }
    requires form { WantsForm (rows_of (found_of given.now)) form }
    ensures some { IfSome result (IsRequest (Some (codes "show", rows_of (found_of given.now)))) }
    ensures none { IfNone result ((asked : RequestValue) → ¬ (IsRequest (Some (codes "show", rows_of (found_of given.now))) asked)) }
{
    if !has_flag(given, "state") {
        return Some(CommandRequest::Show(sessions, place, form));
    }
    match place {
        None => Some(CommandRequest::Dump(sessions, form)),
        Some(_) => None,
    }
}

/// Returns the request of `show`, or `None` if its place isn't a valid number, it is asked for two forms, or for a dump at a place.
#[tactic(auto, using(crate::proofs::Ask::nothing_shown))]
fn show_request(sessions: u16, given: &ArgMatches) -> Option<CommandRequest>
    requires given { Gives (codes "sessions") MAX_SESSIONS (rows_of (found_of given.now)) sessions }
    ensures some { IfSome result (IsRequest (Some (codes "show", rows_of (found_of given.now)))) }
    ensures none { IfNone result ((asked : RequestValue) → ¬ (IsRequest (Some (codes "show", rows_of (found_of given.now))) asked)) }
{
    let Some((place, form)) = place_and_form(given) else {
        return None;
    };
    shown_request(sessions, place, form, given)
}

/// Returns the request of `explain`, or `None` if its place isn't a valid number or it is asked for two forms.
#[tactic(auto, using(crate::proofs::Ask::nothing_explained))]
fn explain_request(sessions: u16, given: &ArgMatches) -> Option<CommandRequest>
    requires given { Gives (codes "sessions") MAX_SESSIONS (rows_of (found_of given.now)) sessions }
    ensures some { IfSome result (IsRequest (Some (codes "explain", rows_of (found_of given.now)))) }
    ensures none { IfNone result ((asked : RequestValue) → ¬ (IsRequest (Some (codes "explain", rows_of (found_of given.now))) asked)) }
{
    let Some((place, form)) = place_and_form(given) else {
        return None;
    };
    Some(CommandRequest::Explain(sessions, place, form))
}

/// Returns the request of `timeline`, or `None` if one of its places isn't a valid number.
#[tactic(auto, using(crate::proofs::Ask::no_first_place, crate::proofs::Ask::no_last_place))]
fn timeline_request(sessions: u16, given: &ArgMatches) -> Option<CommandRequest>
    requires given { Gives (codes "sessions") MAX_SESSIONS (rows_of (found_of given.now)) sessions }
    ensures some { IfSome result (IsRequest (Some (codes "timeline", rows_of (found_of given.now)))) }
    ensures none { IfNone result ((asked : RequestValue) → ¬ (IsRequest (Some (codes "timeline", rows_of (found_of given.now))) asked)) }
{
    let Ok(from) = option_place(given, "from") else {
        return None;
    };
    let Ok(to) = option_place(given, "to") else {
        return None;
    };
    Some(CommandRequest::Timeline(sessions, from, to))
}

/// Returns the request of `stats`, or `None` if it is asked for two forms.
#[tactic(auto, using(crate::proofs::Ask::nothing_counted))]
fn stats_request(sessions: u16, given: &ArgMatches) -> Option<CommandRequest>
    requires given { Gives (codes "sessions") MAX_SESSIONS (rows_of (found_of given.now)) sessions }
    ensures some { IfSome result (IsRequest (Some (codes "stats", rows_of (found_of given.now)))) }
    ensures none { IfNone result ((asked : RequestValue) → ¬ (IsRequest (Some (codes "stats", rows_of (found_of given.now))) asked)) }
{
    let Some(form) = form_of(given) else {
        return None;
    };
    Some(CommandRequest::Stats(sessions, form))
}

/// Returns the request of the command `name` with the options `given`, or `None` if there is no such command or a number
/// isn't valid, as the greatest number of sessions isn't for a run whose history is written in pieces.
#[tactic(auto, using(crate::proofs::Ask::no_sessions, crate::proofs::Ask::no_turns, crate::proofs::Ask::no_streamed, crate::proofs::Ask::no_name))]
fn request_named(name: &str, given: &ArgMatches) -> Option<CommandRequest>
    ensures some { IfSome result (IsRequest (Some (name.now, rows_of (found_of given.now)))) }
    ensures none { IfNone result ((asked : RequestValue) → ¬ (IsRequest (Some (name.now, rows_of (found_of given.now))) asked)) }
{
    let Some(sessions) = option_sessions(given) else {
        return None;
    };
    if name == "replay" {
        return Some(CommandRequest::Replay(sessions, delivery_of(given)));
    }
    if name == "run" {
        let Some(turns) = option_number(given, "turns", MAX_TURNS) else {
            return None;
        };
        return match delivery_of(given) {
            Delivery::InPieces if sessions > MAX_STREAMED_SESSIONS => None,
            delivery => Some(CommandRequest::Run(sessions, turns, delivery)),
        };
    }
    if name == "check" {
        return Some(CommandRequest::Check(sessions, delivery_of(given)));
    }
    if name == "show" {
        return show_request(sessions, given);
    }
    if name == "explain" {
        return explain_request(sessions, given);
    }
    if name == "timeline" {
        return timeline_request(sessions, given);
    }
    if name == "stats" {
        return stats_request(sessions, given);
    }
    if name == "shell" {
        return Some(CommandRequest::Shell(sessions));
    }
    None
}

/// Returns the file that an option names: `None` if the option isn't given, and for `-`, the standard stream.
fn option_file<'a>(given: &ArgMatches<'a>, option: &str) -> Option<&'a str>
    ensures { option_map (λ text. text.now) result ≡ file_named (first_of option.now (rows_of (found_of given.now))) }
{
    match option_text(given, option) {
        Some(text) if text == "-" => None,
        named => named,
    }
}

/// Returns the request of the command `name` with the options `given`, and its files. `None` as by `request_named`.
fn request_with_files<'a>(name: &str, given: &ArgMatches<'a>) -> Option<Request<'a>>
    ensures some { IfSome result (λ request. IsRequest (Some (name.now, rows_of (found_of given.now))) request.command) }
    ensures none { IfNone result ((asked : RequestValue) → ¬ (IsRequest (Some (name.now, rows_of (found_of given.now))) asked)) }
    ensures streams { IfSome result (HasStreams (rows_of (found_of given.now))) }
{
    let Some(command) = request_named(name, given) else {
        return None;
    };
    Some(Request {
        command,
        input: option_file(given, "file"),
        output: option_file(given, "output"),
        skips_comments: has_flag(given, "comments"),
        wants_hints: has_flag(given, "hints"),
    })
}

/// Returns the request in the matches, or `None` if there is no command or a number isn't valid.
#[tactic(auto, using(crate::proofs::Ask::requests_moved, crate::proofs::Ask::no_requests_moved, crate::proofs::Streams::streams_moved, crate::proofs::Ask::no_command))]
fn found_request<'a>(matches: &ArgMatches<'a>) -> Option<Request<'a>>
    ensures some { IfSome result (λ request. IsRequest (subcommand_rows_of matches.now) request.command) }
    ensures none { IfNone result ((asked : RequestValue) → ¬ (IsRequest (subcommand_rows_of matches.now) asked)) }
    ensures streams { IfSome result (HasStreamsOf (subcommand_rows_of matches.now)) }
{
    match found_command(matches) {
        Some((name, given)) => request_with_files(name, given),
        None => None,
    }
}

/// Parses the words. Returns the request with its files, or `None` if the words ask for no command with valid numbers. The error
/// is the parser's; help and the version are among its errors.
#[tactic(auto, using(crate::proofs::Ask::words_ask, crate::proofs::Ask::words_ask_nothing, crate::proofs::Streams::streams_of_words, crate::proofs::Streams::numbers_asked))]
pub fn request_of<'a>(alloc: Global, words: &'a [&'a str]) -> Result<Option<Request<'a>>, Error>
    ensures fails { FailsBy (faults_of (texts words.entry.now)) result }
    ensures some { IfOk result (λ asked. IfSome asked (λ request. Ask (texts words.entry.now) request.command)) }
    ensures none { IfOk result (λ asked. IfNone asked ((request : RequestValue) → ¬ (Ask (texts words.entry.now) request))) }
    ensures streams { IfOk result (λ asked. IfSome asked (HasStreamsOf (subcommand_of glm_command (texts words.entry.now)))) }
    ensures numbers { IfOk result (λ asked. IfSome asked (λ request. HasNumbers request.command)) }
{
    let matches = parse(alloc, words)?;
    Ok(found_request(&matches))
}
