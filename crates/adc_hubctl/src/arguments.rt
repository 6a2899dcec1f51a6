use crate::helping::{
    BAN, CHECK, KICK, PING, PING_JSON, SAY, STATUSES, TOPIC, UNBAN, WHO, WHO_JSON,
};
use clap::{Arg, ArgAction, Command, value_parser};
use std::alloc::{AllocError, Global};

/// A subcommand.
#[derive(Clone, Copy)]
enum Verb {
    Check,
    Kick,
    Ban,
    Unban,
    Topic,
    Who,
    Say,
    Ping,
}

const VERBS: [Verb; 8] = [
    Verb::Check,
    Verb::Kick,
    Verb::Ban,
    Verb::Unban,
    Verb::Topic,
    Verb::Who,
    Verb::Say,
    Verb::Ping,
];

/// The tool's command line.
pub(crate) fn commands<'a>(alloc: Global) -> Result<Command<'a>, AllocError> {
    let mut whole = tool(alloc);
    for verb in VERBS {
        whole = with_verb(alloc, whole, verb)?;
    }
    Ok(whole)
}

fn tool<'a>(alloc: Global) -> Command<'a> {
    Command::new(alloc, "adc_hubctl")
        .about("The tool of a hub's operator")
        .version("1.0")
        .propagate_version(true)
        .subcommand_required(true)
        .after_help(STATUSES)
}

fn with_verb<'a>(alloc: Global, whole: Command<'a>, verb: Verb) -> Result<Command<'a>, AllocError> {
    whole.subcommand(command_of(alloc, verb)?)
}

fn command_of<'a>(alloc: Global, verb: Verb) -> Result<Command<'a>, AllocError> {
    match verb {
        Verb::Check => check_command(alloc),
        Verb::Kick => kick_command(alloc),
        Verb::Ban => ban_command(alloc),
        Verb::Unban => unban_command(alloc),
        Verb::Topic => topic_command(alloc),
        Verb::Who => who_command(alloc),
        Verb::Say => say_command(alloc),
        Verb::Ping => ping_command(alloc),
    }
}

fn check_command<'a>(alloc: Global) -> Result<Command<'a>, AllocError> {
    let about = "Tells what a hub would read in a settings file";
    let command = subcommand(alloc, "check", about, CHECK).arg(word(
        alloc,
        "SETTINGS",
        "The settings file",
    ));
    with(command, listen(alloc))
}

fn kick_command<'a>(alloc: Global) -> Result<Command<'a>, AllocError> {
    let command = login(alloc, "kick", "Sends a user away", KICK);
    let command = with(command, user(alloc));
    with(command, reason(alloc))
}

fn ban_command<'a>(alloc: Global) -> Result<Command<'a>, AllocError> {
    let about = "Sends a user away and keeps its client out";
    let command = login(alloc, "ban", about, BAN);
    let command = with(command, user(alloc));
    let command = with(command, ban_seconds(alloc));
    with(command, reason(alloc))
}

fn ban_seconds<'a>(alloc: Global) -> Arg<'a> {
    word(
        alloc,
        "SECONDS",
        "For how many seconds: 3600 is an hour, 86400 a day, 604800 a week; 0 is for good",
    )
    .value_parser(value_parser!(u32))
}

fn unban_command<'a>(alloc: Global) -> Result<Command<'a>, AllocError> {
    let command = login(alloc, "unban", "Takes a ban back", UNBAN);
    with(
        command,
        word(alloc, "CID", "The client identifier that is banned"),
    )
}

/// The topic is shown without a login, so the nick may be missing.
fn topic_command<'a>(alloc: Global) -> Result<Command<'a>, AllocError> {
    let about = "Shows the topic, sets it, or takes it away";
    let mut command = subcommand(alloc, "topic", about, TOPIC);
    command = command.arg(address(alloc))?;
    command = command.arg(topic(alloc)?)?;
    command = command.arg(clear(alloc)?)?;
    command = command.arg(nick(alloc))?;
    for arg in ACCESS_ARGS {
        command = command.arg(login_arg(alloc, arg))?;
    }
    Ok(command)
}

fn who_command<'a>(alloc: Global) -> Result<Command<'a>, AllocError> {
    let command = login(alloc, "who", "Lists who is present", WHO);
    with(command, json(alloc, WHO_JSON))
}

fn say_command<'a>(alloc: Global) -> Result<Command<'a>, AllocError> {
    let command = login(alloc, "say", "Says something to all", SAY);
    with(command, word(alloc, "TEXT", "What to say"))
}

fn ping_command<'a>(alloc: Global) -> Result<Command<'a>, AllocError> {
    let about = "Tells what a hub says of itself";
    let command = subcommand(alloc, "ping", about, PING).arg(address(alloc));
    let command = with(command, json(alloc, PING_JSON));
    let command = with(command, prometheus(alloc)?);
    with(command, seconds(alloc))
}

/// Adds an argument, unless memory ran out before.
fn with<'a>(
    command: Result<Command<'a>, AllocError>,
    arg: Arg<'a>,
) -> Result<Command<'a>, AllocError> {
    command?.arg(arg)
}

/// A subcommand, with the text at the head of its help.
fn subcommand<'a>(
    alloc: Global,
    name: &'a str,
    about: &'a str,
    long_about: &'a str,
) -> Command<'a> {
    Command::new(alloc, name)
        .about(about)
        .long_about(long_about)
        .after_help(STATUSES)
}

/// An argument of each subcommand that logs in.
#[derive(Clone, Copy)]
enum LoginArg {
    Address,
    Nick,
    PasswordFile,
    Hash,
    Tables,
    Seconds,
}

const LOGIN_ARGS: [LoginArg; 6] = [
    LoginArg::Address,
    LoginArg::Nick,
    LoginArg::PasswordFile,
    LoginArg::Hash,
    LoginArg::Tables,
    LoginArg::Seconds,
];

/// Those among them that say how a login is proved, and how long it is waited for.
const ACCESS_ARGS: [LoginArg; 4] = [
    LoginArg::PasswordFile,
    LoginArg::Hash,
    LoginArg::Tables,
    LoginArg::Seconds,
];

/// A subcommand that logs in. Each argument is made where it is added, so that few are held where memory runs out.
fn login<'a>(
    alloc: Global,
    name: &'a str,
    about: &'a str,
    long_about: &'a str,
) -> Result<Command<'a>, AllocError> {
    let mut command = subcommand(alloc, name, about, long_about);
    for arg in LOGIN_ARGS {
        command = command.arg(login_arg(alloc, arg))?;
    }
    Ok(command)
}

fn login_arg<'a>(alloc: Global, arg: LoginArg) -> Arg<'a> {
    match arg {
        LoginArg::Address => address(alloc),
        LoginArg::Nick => nick(alloc).required(true),
        LoginArg::PasswordFile => password_file(alloc),
        LoginArg::Hash => hash(alloc),
        LoginArg::Tables => tables(alloc),
        LoginArg::Seconds => seconds(alloc),
    }
}

/// An option that takes a value.
fn option<'a>(alloc: Global, name: &'a str, value: &'a str, help: &'a str) -> Arg<'a> {
    Arg::new(alloc, name)
        .long(name)
        .value_name(value)
        .help(help)
}

fn nick<'a>(alloc: Global) -> Arg<'a> {
    option(alloc, "nick", "NICK", "As whom to log in")
}

fn password_file<'a>(alloc: Global) -> Arg<'a> {
    option(
        alloc,
        "password-file",
        "FILE",
        "The file whose first line is the password; else it is that of standard input, once the hub asks",
    )
}

fn hash<'a>(alloc: Global) -> Arg<'a> {
    option(alloc, "hash", "HASH", "The hub's hash")
        .value_parser(["tiger", "first24"].as_slice())
        .default_value("tiger")
}

fn tables<'a>(alloc: Global) -> Arg<'a> {
    option(
        alloc,
        "tables",
        "FILE",
        "The file of Tiger's tables [default: tiger.bin, or else /usr/share/adc-hub/tiger.bin]",
    )
}

fn word<'a>(alloc: Global, name: &'a str, help: &'a str) -> Arg<'a> {
    Arg::new(alloc, name)
        .required(true)
        .action(ArgAction::Set)
        .help(help)
}

fn user<'a>(alloc: Global) -> Arg<'a> {
    word(alloc, "USER", "The user's nick")
}

fn reason<'a>(alloc: Global) -> Arg<'a> {
    Arg::new(alloc, "REASON")
        .action(ArgAction::Set)
        .default_value("")
        .hide_default_value(true)
        .help("What all are told")
}

fn topic<'a>(alloc: Global) -> Result<Arg<'a>, AllocError> {
    Arg::new(alloc, "TOPIC")
        .action(ArgAction::Set)
        .help("The new topic; if it is left out, the topic is shown")
        .requires_arg("nick")
}

fn clear<'a>(alloc: Global) -> Result<Arg<'a>, AllocError> {
    flag(alloc, "clear", "Take the topic away")
        .requires_arg("nick")?
        .conflicts_with("TOPIC")
}

fn listen<'a>(alloc: Global) -> Arg<'a> {
    flag(
        alloc,
        "listen",
        "Also try whether a hub could listen at the address",
    )
}

fn prometheus<'a>(alloc: Global) -> Result<Arg<'a>, AllocError> {
    flag(
        alloc,
        "prometheus",
        "Print the figures in the text format of Prometheus",
    )
    .conflicts_with("json")
}

fn address<'a>(alloc: Global) -> Arg<'a> {
    word(
        alloc,
        "ADDRESS",
        "The hub: HOST:PORT, with adc:// before it or not",
    )
}

/// The flag for JSON, with the fields that are printed.
fn json<'a>(alloc: Global, help: &'a str) -> Arg<'a> {
    flag(alloc, "json", help)
}

fn flag<'a>(alloc: Global, name: &'a str, help: &'a str) -> Arg<'a> {
    Arg::new(alloc, name)
        .long(name)
        .action(ArgAction::SetTrue)
        .help(help)
}

fn seconds<'a>(alloc: Global) -> Arg<'a> {
    option(
        alloc,
        "seconds",
        "N",
        "How many seconds to wait for each answer, from 1",
    )
    .value_parser(value_parser!(u32).range(1..))
    .default_value("10")
}
