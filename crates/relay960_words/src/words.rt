//! The command-line arguments, read by `clap`.

ghost use Rattle.std.specs.Prelude.{◌≡◌, false, true, IfErr, IfOk, List, MatchResult, ℕ, Ok, Some, map};
ghost use Rattle.std.specs.Net.Grammar.{IsSocketText};
ghost use Rattle.clap.specs.Words.{App, app_of, first_value, found_of, kind_of, new_app, one_text, rule_of, subcommand_of, subcommand_rows_of, with_rule, with_subcommand};
ghost use Rattle.clap.specs.Walk.{rows_of};
ghost use Rattle.relay960_words.specs.CommandLine as line;
ghost use Rattle.relay960_words.specs.Statuses.{IsFault};

use crate::fault::status_of_error;
use crate::options::{required_text, start_number, with_limits, with_service};
use crate::order::{Connections, Job, Order, Service, WatchPort};
use crate::status::Status;
use crate::version::VERSION;
use c960_game::Limits;
use clap::error::ErrorKind;
use clap::parser::ValueSource;
use clap::{Arg, ArgMatches, Command, Error};
use std::alloc::{AllocError, Global};
use std::convert::AsStr;
use std::net::SocketAddr;
use std::str::FromStr;

/// A command with one argument.
fn command_of<'a>(
    alloc: Global,
    name: &'static str,
    about: &'static str,
    argument: Arg<'a>,
) -> Result<Command<'a>, AllocError>
    ensures { argument.entry.global ≡ false → IfOk result (λ c. app_of c ≡ with_rule (new_app name.now) (rule_of argument.entry)) }
{
    Command::new(alloc, name).about(about).arg(argument)
}

fn start_command<'a>(alloc: Global) -> Result<Command<'a>, AllocError>
    ensures { IfOk result (λ c. app_of c ≡ line.start_command) }
{
    let about = "Print the starting position N in Shredder-FEN";
    let number = "Scharnagl's number of the position, 0 to 959";
    command_of(alloc, "start", about, start_number(alloc, number))
}

fn moves_command<'a>(alloc: Global) -> Result<Command<'a>, AllocError>
    ensures { IfOk result (λ c. app_of c ≡ line.moves_command) }
{
    let about = "Print the legal moves and the state of the position FEN";
    let fen = "The position in Shredder-FEN, as one word";
    command_of(alloc, "moves", about, required_text(alloc, "FEN", fen))
}

fn play_command<'a>(alloc: Global) -> Result<Command<'a>, AllocError>
    ensures { IfOk result (λ c. app_of c ≡ line.play_command) }
{
    let about = "Play the game of start N: read a move a line, print the position after it";
    let number = "Scharnagl's number of the start, 0 to 959";
    command_of(alloc, "play", about, start_number(alloc, number))
}

fn script_command<'a>(alloc: Global) -> Result<Command<'a>, AllocError>
    ensures { IfOk result (λ c. app_of c ≡ line.script_command) }
{
    let command = Command::new(alloc, "script").about(
        "Run a relay: read a command a line as JSON, print its answer",
    );
    with_limits(alloc, command)
}

fn serve_command<'a>(alloc: Global) -> Result<Command<'a>, AllocError>
    ensures { IfOk result (λ c. app_of c ≡ line.serve_command) }
{
    let command = Command::new(alloc, "serve").about(
        "Serve a relay over WebSocket: answer commands, push moves to followers",
    );
    with_limits(alloc, with_service(alloc, command)?)
}

fn journal_command<'a>(alloc: Global) -> Result<Command<'a>, AllocError>
    ensures { IfOk result (λ c. app_of c ≡ line.journal_command) }
{
    let about = "Check a journal: print its boards, and how it ends";
    let file = "A journal of serve; it may be in use";
    command_of(alloc, "journal", about, required_text(alloc, "FILE", file))
}

fn versioned_command<'a>(alloc: Global) -> Command<'a>
    ensures { app_of result ≡ line.versioned }
{
    Command::new(alloc, "relay960")
        .about("A relay for live Chess960 games")
        .version(VERSION)
        .after_help("Without a command: script, with the default limits")
}

/// The command with a subcommand, if that one was made.
fn with_command<'a>(
    command: Command<'a>,
    made: Result<Command<'a>, AllocError>,
) -> Result<Command<'a>, AllocError>
    ensures { (a : App) → a.top.is_plain ≡ true → IfOk made.entry (λ c. app_of c ≡ a)
        → IfOk result (λ c. app_of c ≡ with_subcommand (app_of command.entry) a.top) }
{
    command.subcommand(made?)
}

fn program_command<'a>(alloc: Global) -> Result<Command<'a>, AllocError>
    ensures { IfOk result (λ c. app_of c ≡ line.program) }
{
    let program = with_command(versioned_command(alloc), start_command(alloc))?;
    let program = with_command(program, moves_command(alloc))?;
    let program = with_command(program, play_command(alloc))?;
    let program = with_command(program, script_command(alloc))?;
    let program = with_command(program, serve_command(alloc))?;
    with_command(program, journal_command(alloc))
}

/// What the arguments ask for. The first of them is the program's name.
///
/// # Errors
///
/// The status, if they ask for help or for nothing that can be done: `FaultyWords`, or `OutOfMemory`. A message was written to standard
/// error.
pub fn order_of<'a, R: Eprint, S: AsStr>(
    rt: &R,
    alloc: Global,
    words: &'a [S],
) -> Result<Order<'a>, Status>
    ensures order { IfOk result (line.WordsAskFor (map S.text words.now)) }
    ensures version { line.AskForVersion (map S.text words.now)
        → MatchResult result (λ order. order ≡ Order.Run Job.Version) (λ status. status ≡ Status.OutOfMemory) }
    ensures status { IfErr result IsFault }
{
    match read_order(alloc, words) {
        Ok(order) => Ok(order),
        Err(error) => Err(status_of_error(rt, &error)),
    }
}

/// What the arguments ask for, or `clap`'s error, whose text is for the user. Asking for help is such an error too.
fn read_order<'a, S: AsStr>(alloc: Global, words: &'a [S]) -> Result<Order<'a>, Error>
    ensures order { IfOk result (line.WordsAskFor (map S.text words.now)) }
    ensures version { line.AskForVersion (map S.text words.now)
        → MatchResult result (λ order. order ≡ Order.Run Job.Version) (λ error. kind_of error ≡ ErrorKind.OutOfMemory) }
{
    match program_command(alloc)?.try_get_matches_from(words) {
        Ok(matches) => given_order(alloc, words, &matches),
        Err(error) if error.kind() == ErrorKind::DisplayVersion => Ok(Order::Run(Job::Version)),
        Err(error) => Err(error),
    }
}

/// What arguments with these matches ask for.
fn given_order<'a, S: AsStr>(
    alloc: Global,
    words: &'a [S],
    matches: &ArgMatches<'a>,
) -> Result<Order<'a>, Error>
    ensures { subcommand_rows_of matches.now ≡ subcommand_of line.program (map S.text words.now)
        → IfOk result (line.WordsAskFor (map S.text words.now)) }
{
    match matches.subcommand() {
        Some((name, given)) => command_order(alloc, name, given),
        // With the program's name alone, a script runs with its defaults.
        None => {
            let given = script_command(alloc)?.try_get_matches_from(words)?;
            command_order(alloc, "script", &given)
        }
    }
}

/// What the command of that name asks for, with the options given to it.
fn command_order<'a>(alloc: Global, name: &str, given: &ArgMatches<'a>) -> Result<Order<'a>, Error>
    ensures { IfOk result (line.AsksFor name.now (rows_of (found_of given.now))) }
{
    match name {
        "start" => Ok(Order::Run(Job::Start(value_of(alloc, given, "N")?))),
        "moves" => Ok(Order::Run(Job::Moves(text_of(alloc, given, "FEN")?))),
        "play" => Ok(Order::Run(Job::Play(value_of(alloc, given, "N")?))),
        "script" => Ok(Order::Run(Job::Script(limits_of(alloc, given)?))),
        "serve" => Ok(Order::Serve(service_of(alloc, given)?)),
        "journal" => Ok(Order::Journal(text_of(alloc, given, "FILE")?)),
        // `clap` has made sure that it is one of these.
        _ => Err(program_error(
            alloc,
            ErrorKind::InvalidSubcommand,
            "there is no such command",
        )),
    }
}

/// The text that is given for this name.
fn text_of<'a>(alloc: Global, given: &ArgMatches<'a>, name: &str) -> Result<&'a str, Error>
    ensures { IfOk result (λ text. first_value (found_of given.now) name.now ≡ Some text.now) }
{
    match given.get_str(name) {
        Some(text) => Ok(text),
        // `clap` has made sure that there is one.
        None => Err(program_error(
            alloc,
            ErrorKind::MissingRequiredArgument,
            "a text is missing",
        )),
    }
}

/// The value that is given for this name, or its default.
fn value_of<T: FromStr>(alloc: Global, given: &ArgMatches, name: &str) -> Result<T, Error>
where
    T::Err: Drop,
    ensures { IfOk result (λ n. (t : List ℕ) × (one_text (found_of given.now) name.now ≡ Some t) × T.from_str_gives t (Ok n)) }
{
    match given.get_one::<T>(name) {
        Some(value) => Ok(value),
        // `clap` has made sure that there is one.
        None => Err(program_error(
            alloc,
            ErrorKind::MissingRequiredArgument,
            "a value is missing",
        )),
    }
}

/// Whether the flag of this name is given.
fn flag_of(alloc: Global, given: &ArgMatches, name: &str) -> Result<bool, Error>
    ensures { IfOk result (line.HasFlag (rows_of (found_of given.now)) name.now) }
{
    value_of::<bool>(alloc, given, name)
}

/// The number of connections that is given, or that there is none. Giving both is refused.
fn connections_of(alloc: Global, given: &ArgMatches) -> Result<Connections, Error>
    ensures { IfOk result (line.HasConnections (rows_of (found_of given.now))) }
{
    if !flag_of(alloc, given, "forever")? {
        return Ok(Connections::Count(value_of(alloc, given, "connections")?));
    }
    match given.value_source("connections") {
        Some(ValueSource::CommandLine) => {
            Err(serve_error(
                alloc,
                ErrorKind::ArgumentConflict,
                "the argument '--connections <connections>' cannot be used with '--forever'",
            ))
        }
        _ => Ok(Connections::Forever),
    }
}

/// The service that is given.
fn service_of<'a>(alloc: Global, given: &ArgMatches<'a>) -> Result<Service<'a>, Error>
    ensures { IfOk result (line.HasService (rows_of (found_of given.now))) }
{
    Ok(Service {
        port: value_of(alloc, given, "port")?,
        connections: connections_of(alloc, given)?,
        until_input_ends: flag_of(alloc, given, "until-input-ends")?,
        grace: value_of(alloc, given, "grace")?,
        idle: value_of(alloc, given, "idle")?,
        log: flag_of(alloc, given, "log")?,
        limits: limits_of(alloc, given)?,
        watch: watch_of(alloc, given)?,
        journal: given.get_str("journal"),
    })
}

/// The watch port that is given, if one is.
fn watch_of(alloc: Global, given: &ArgMatches) -> Result<Option<WatchPort>, Error>
    ensures { IfOk result (line.HasWatch (rows_of (found_of given.now))) }
{
    let Some(text) = given.get_str("watch") else {
        return Ok(None);
    };
    Ok(Some(WatchPort {
        address: address_of(alloc, text)?,
        threads: value_of(alloc, given, "watch-threads")?,
        most: value_of(alloc, given, "watch-most")?,
    }))
}

/// The address and port in the text of `--watch`.
fn address_of(alloc: Global, text: &str) -> Result<SocketAddr, Error>
    ensures { IfOk result (IsSocketText text.now) }
{
    match text.parse::<SocketAddr>() {
        Ok(address) if address.port() > 0 => Ok(address),
        Ok(_) => {
            let message = format!(in alloc;
                "invalid value '{text}' for '--watch <ADDRESS:PORT>': the port is 0"
            )?;
            Err(serve_error(alloc, ErrorKind::ValueValidation, message.as_str()))
        }
        Err(error) => {
            let message = format!(in alloc;
                "invalid value '{text}' for '--watch <ADDRESS:PORT>': {error}"
            )?;
            Err(serve_error(alloc, ErrorKind::ValueValidation, message.as_str()))
        }
    }
}

/// An error of the command `serve`, with its usage, or the error that there was no memory for it.
fn serve_error(alloc: Global, kind: ErrorKind, message: &str) -> Error {
    made(try_serve_error(alloc, kind, message))
}

fn try_serve_error(alloc: Global, kind: ErrorKind, message: &str) -> Result<Error, AllocError> {
    serve_command(alloc)?
        .bin_name("relay960 serve")?
        .error(kind, message)
}

/// An error of the program, with its usage, or the error that there was no memory for it.
fn program_error(alloc: Global, kind: ErrorKind, message: &str) -> Error {
    made(try_program_error(alloc, kind, message))
}

fn try_program_error(alloc: Global, kind: ErrorKind, message: &str) -> Result<Error, AllocError> {
    program_command(alloc)?.error(kind, message)
}

/// The error that was made, or the error that there was no memory for it.
fn made(error: Result<Error, AllocError>) -> Error {
    match error {
        Ok(error) => error,
        Err(error) => Error::from(error),
    }
}

/// The limits that are given.
fn limits_of(alloc: Global, given: &ArgMatches) -> Result<Limits, Error>
    ensures { IfOk result (line.HasLimits (rows_of (found_of given.now))) }
{
    let limits = Limits::new(
        value_of(alloc, given, "boards")?,
        value_of(alloc, given, "followers")?,
        value_of(alloc, given, "capacity")?,
        value_of(alloc, given, "plies")?,
    );
    match limits {
        Some(limits) => Ok(limits),
        // `clap` has checked each against its range, so they make limits.
        None => Err(program_error(
            alloc,
            ErrorKind::ValueValidation,
            "these limits are out of range",
        )),
    }
}

/// The error for an argument that is not text in UTF-8.
pub(crate) fn not_utf8(alloc: Global) -> Error {
    program_error(
        alloc,
        ErrorKind::InvalidValue,
        "invalid UTF-8 was detected in one or more arguments",
    )
}
