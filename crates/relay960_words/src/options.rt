//! The arguments of commands, and the options of `script` and `serve`.

ghost use Rattle.std.specs.Prelude.{◌≡◌, false, IfOk, pos};
ghost use Rattle.clap.specs.Words.{app_of, rule_of};
ghost use Rattle.clap.specs.declared.builder.value_parser.ValueParser.TheVariants.{Signed};
ghost use Rattle.relay960_words.specs.CommandLine as line;

use c960_game::{MOST_BOARDS, MOST_CAPACITY, MOST_FOLLOWERS, MOST_PLIES};
use clap::builder::ValueParser;
use clap::{Arg, ArgAction, Command, value_parser};
use std::alloc::{AllocError, Global};

/// The argument `N`, a start's number, which is required.
pub(crate) fn start_number<'a>(alloc: Global, help: &'static str) -> Arg<'a>
    ensures rule { rule_of result ≡ line.number_rule }
    ensures local { result.global ≡ false }
{
    required_text(alloc, "N", help).value_parser(value_parser!(u16))
}

/// An argument of this name, any text, which is required.
pub(crate) fn required_text<'a>(alloc: Global, name: &'static str, help: &'static str) -> Arg<'a>
    ensures rule { rule_of result ≡ line.required_rule name.now }
    ensures local { result.global ≡ false }
{
    Arg::new(alloc, name)
        .help(help)
        .required(true)
        .action(ArgAction::Set)
}

/// The parser of a number from `least` to `most`.
fn number_parser<'a>(least: u32, most: u32) -> ValueParser<'a>
    ensures { result ≡ Signed (pos least) (pos most) }
{
    value_parser!(u32).range(i64::from(least)..=i64::from(most))
}

/// The option `--name NUMBER`, from `least` to `most`.
fn number_option<'a>(
    alloc: Global,
    name: &'static str,
    help: &'static str,
    least: u32,
    most: u32,
    default: &'static str,
) -> Arg<'a>
    ensures rule { rule_of result ≡ line.option_rule name.now least most default.now }
    ensures local { result.global ≡ false }
{
    Arg::new(alloc, name)
        .long(name)
        .help(help)
        .action(ArgAction::Set)
        .value_parser(number_parser(least, most))
        .default_value(default)
}

/// The option `--name TEXT`, which is given or is not.
fn text_option<'a>(
    alloc: Global,
    name: &'static str,
    value: &'static str,
    help: &'static str,
) -> Arg<'a>
    ensures rule { rule_of result ≡ line.text_rule name.now }
    ensures local { result.global ≡ false }
{
    Arg::new(alloc, name)
        .long(name)
        .value_name(value)
        .help(help)
        .action(ArgAction::Set)
}

/// The option `--name`, which is given or is not.
fn flag_option<'a>(alloc: Global, name: &'static str, help: &'static str) -> Arg<'a>
    ensures rule { rule_of result ≡ line.flag_rule name.now }
    ensures local { result.global ≡ false }
{
    Arg::new(alloc, name)
        .long(name)
        .help(help)
        .action(ArgAction::SetTrue)
}

/// The command with the options of a relay's limits.
pub(crate) fn with_limits<'a>(
    alloc: Global,
    command: Command<'a>,
) -> Result<Command<'a>, AllocError>
    ensures { IfOk result (λ c. app_of c ≡ line.with_limits (app_of command.entry)) }
{
    let boards = "How many boards there may be";
    let followers = "How many followers a board may have";
    let capacity = "How many moves a follower's queue holds";
    let plies = "How many plies a game may have";
    let options = vec![in alloc;
        number_option(alloc, "boards", boards, 1, u32::from(MOST_BOARDS), "16"),
        number_option(
            alloc,
            "followers",
            followers,
            1,
            u32::from(MOST_FOLLOWERS),
            "64"
        ),
        number_option(
            alloc,
            "capacity",
            capacity,
            1,
            u32::from(MOST_CAPACITY),
            "64"
        ),
        number_option(alloc, "plies", plies, 1, u32::from(MOST_PLIES), "1024"),
    ]?;
    command.args(options)
}

/// The command with the options of a service, except those of its limits.
pub(crate) fn with_service<'a>(
    alloc: Global,
    command: Command<'a>,
) -> Result<Command<'a>, AllocError>
    ensures { IfOk result (λ c. app_of c ≡ line.with_service (app_of command.entry)) }
{
    let port = "The port of 127.0.0.1 on which it listens";
    let connections = "How many connections it accepts before it ends";
    let forever = "Accept connections without an end, in place of --connections";
    let until_input_ends = "End in order when standard input ends";
    let grace = "How many seconds a board waits for an operator with a key to come back";
    let watch = "The address and port on which spectators may only watch; without it there is none";
    let watch_threads = "How many threads serve the spectators of --watch";
    let watch_most = "How many spectators of --watch there may be at once";
    let journal =
        "The file that keeps all games, so that the next start goes on with them; without it none is";
    let idle =
        "How many seconds a peer that owns and follows nothing may send nothing; 0: without an end";
    let log =
        "Write a line to standard error for what happens to each board, and counts once a minute";
    let options = vec![in alloc;
        number_option(alloc, "port", port, 1, 65535, "9600"),
        number_option(alloc, "connections", connections, 1, 1_000_000, "1000000"),
        flag_option(alloc, "forever", forever),
        flag_option(alloc, "until-input-ends", until_input_ends),
        number_option(alloc, "grace", grace, 0, 3600, "0"),
        number_option(alloc, "idle", idle, 0, 86_400, "600"),
        flag_option(alloc, "log", log),
        text_option(alloc, "watch", "ADDRESS:PORT", watch),
        number_option(alloc, "watch-threads", watch_threads, 1, 64, "2"),
        number_option(alloc, "watch-most", watch_most, 1, 1_000_000, "100000"),
        text_option(alloc, "journal", "FILE", journal),
    ]?;
    command.args(options)
}
