use crate::checking::check;
use crate::ending::ToolEnding;
use crate::operating::{Hash, Login, Operation, operate};
use crate::pinging::{PingForm, ping, show_topic};
use adc_ids::NickFault;
use clap::ArgMatches;
use hub_client::{HubAddress, HubRequest, NickText};
use std::alloc::{AllocGlobal, Global};
use std::fs::Files;
use std::net::Net;
use std::random::RandomSource;
use std::time::Clock;

/// Does what a command line asks for. Standard input is a terminal or not.
pub(crate) fn run_matches<R>(
    rt: &R,
    matches: &ArgMatches<'_>,
    is_typed: bool,
) -> Result<(), ToolEnding>
where
    R: Net + Clock + Files + RandomSource + Input + Print + Eprint + AllocGlobal,
{
    let Some((name, words)) = matches.subcommand() else {
        return Err(ToolEnding::Arguments("a subcommand is missing"));
    };
    if name == "check" {
        return check(rt, text_of(words, "SETTINGS"), words.get_flag("listen"));
    }
    let address = HubAddress::parse(text_of(words, "ADDRESS"))?;
    if name == "ping" {
        return ping(rt, &address, seconds_of(words), form_of(words));
    }
    if name == "topic" && is_question(words) {
        return show_topic(rt, &address, seconds_of(words));
    }
    let deed = deed_of(rt.alloc(), name, words)?;
    operate(rt, &login_of(rt.alloc(), words, address, is_typed)?, &deed)
}

fn form_of(words: &ArgMatches<'_>) -> PingForm {
    if words.get_flag("json") {
        return PingForm::Json;
    }
    if words.get_flag("prometheus") {
        return PingForm::Prometheus;
    }
    PingForm::Lines
}

/// Tests whether the topic is asked for, and not to be changed.
fn is_question(words: &ArgMatches<'_>) -> bool {
    words.get_str("TOPIC").is_none() && !words.get_flag("clear")
}

/// The value of an argument that is required or has a default.
fn text_of<'a>(words: &ArgMatches<'a>, name: &str) -> &'a str {
    words.get_str(name).unwrap_or("")
}

fn seconds_of(words: &ArgMatches<'_>) -> u32 {
    words.get_one::<u32>("seconds").unwrap_or(10)
}

fn deed_of<'a>(
    alloc: Global,
    name: &str,
    words: &ArgMatches<'a>,
) -> Result<Operation<'a>, ToolEnding> {
    match name {
        "kick" => kick_of(alloc, words),
        "ban" => ban_of(alloc, words),
        "unban" => match HubRequest::unban(text_of(words, "CID")) {
            Some(request) => Ok(Operation::Ask(request)),
            None => Err(ToolEnding::Arguments("CID is no client identifier")),
        },
        "topic" => topic_of(words),
        "say" => Ok(Operation::Say(text_of(words, "TEXT"))),
        _ => Ok(Operation::ListUsers {
            is_json: words.get_flag("json"),
        }),
    }
}

/// An empty text takes no topic away: a variable that is not set would do so unseen.
fn topic_of<'a>(words: &ArgMatches<'a>) -> Result<Operation<'a>, ToolEnding> {
    let text = text_of(words, "TOPIC");
    if text.is_empty() && !words.get_flag("clear") {
        return Err(ToolEnding::Arguments("TOPIC is empty; --clear takes the topic away"));
    }
    Ok(Operation::Ask(HubRequest::topic(text)))
}

fn kick_of<'a>(alloc: Global, words: &ArgMatches<'a>) -> Result<Operation<'a>, ToolEnding> {
    match HubRequest::kick(alloc, text_of(words, "USER"), text_of(words, "REASON")) {
        Ok(request) => Ok(Operation::Ask(request)),
        Err(fault) => Err(no_user(fault)),
    }
}

fn ban_of<'a>(alloc: Global, words: &ArgMatches<'a>) -> Result<Operation<'a>, ToolEnding> {
    let Some(seconds) = words.get_one::<u32>("SECONDS") else {
        return Err(ToolEnding::Arguments("SECONDS is a number below 4294967296"));
    };
    let (user, reason) = (text_of(words, "USER"), text_of(words, "REASON"));
    match HubRequest::ban(alloc, user, seconds, reason) {
        Ok(request) => Ok(Operation::Ban(request)),
        Err(fault) => Err(no_user(fault)),
    }
}

fn login_of<'a>(
    alloc: Global,
    words: &ArgMatches<'a>,
    address: HubAddress<'a>,
    is_typed: bool,
) -> Result<Login<'a>, ToolEnding> {
    let nick = match NickText::parse(alloc, text_of(words, "nick")) {
        Ok(nick) => nick,
        Err(NickFault::Memory) => return Err(ToolEnding::Memory),
        Err(NickFault::Invalid) => return Err(ToolEnding::Arguments("NICK is no nick")),
    };
    Ok(Login {
        address,
        nick,
        password_file: words.get_str("password-file"),
        is_typed,
        hash: match text_of(words, "hash") {
            "first24" => Hash::First24,
            _ => Hash::Tiger(words.get_str("tables")),
        },
        seconds: seconds_of(words),
    })
}

fn no_user(fault: NickFault) -> ToolEnding {
    match fault {
        NickFault::Memory => ToolEnding::Memory,
        NickFault::Invalid => ToolEnding::Arguments("USER is no nick"),
    }
}
