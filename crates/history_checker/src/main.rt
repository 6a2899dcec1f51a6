//! Holds the rules of the hub against a written history: `history_checker SETTINGS HISTORY` prints `legal`, or the first line that is
//! not, and what the rules demand there.
#![tactic(auto)]

mod ending;

use clap::error::ErrorKind;
use clap::{Arg, ArgAction, ArgMatches, Command, value_parser};
use counted_io::write_and_flush;
use ending::CheckerEnding;
use history_check::report_history;
use hub_settings::{HashName, Settings, SettingsFault, read_settings};
use session_hash::{First24, TableTiger, TablesFault};
use std::alloc::{AllocError, AllocGlobal, Global};
use std::fs::{self, Files};
use std::process::ExitCode;
use std::{env, io};

const STATUSES: &str = "Statuses:
  0  legal
  1  not legal, or no history
  2  the settings name tables of Tiger that cannot be had
  3  the arguments or the settings are at fault, or a file cannot be read
  4  memory ran out
  5  standard output failed";

fn main(rt: HostRuntime) -> ExitCode {
    match run(&rt, rt.alloc()) {
        Ok(true) => ExitCode::SUCCESS,
        Ok(false) => ExitCode::from(1),
        Err(ending) => ExitCode::from(ending.tell(&rt)),
    }
}

/// Answers whether the history is legal, after what is said of it was written; also that help was printed.
fn run(rt: &HostRuntime, alloc: Global) -> Result<bool, CheckerEnding> {
    let words = words(rt, alloc)?;
    match command(alloc)?.try_get_matches_from(words.as_slice()) {
        Ok(matches) => run_matches(rt, alloc, &matches),
        Err(error) => {
            if error.kind() == ErrorKind::OutOfMemory {
                return Err(CheckerEnding::Memory);
            }
            let printed = error.print(rt);
            if error.use_stderr() {
                return Err(CheckerEnding::Told);
            }
            printed?;
            Ok(true)
        }
    }
}

fn command<'a>(alloc: Global) -> Result<Command<'a>, AllocError> {
    Command::new(alloc, "history_checker")
        .about("Says whether a written history of a hub is legal")
        .after_help(STATUSES)
        .arg(file(alloc, "SETTINGS", "The settings file of the hub"))?
        .arg(file(alloc, "HISTORY", "The written history"))?
        .arg(opened(alloc))
}

/// The option that says when the hub was opened.
fn opened<'a>(alloc: Global) -> Arg<'a> {
    Arg::new(alloc, "opened")
        .long("opened")
        .value_name("SECONDS")
        .action(ArgAction::Set)
        .value_parser(value_parser!(u64))
        .default_value("0")
        .help("The moment at which the hub was opened: answers to PING count from it")
}

fn file<'a>(alloc: Global, name: &'a str, help: &'a str) -> Arg<'a> {
    Arg::new(alloc, name)
        .required(true)
        .action(ArgAction::Set)
        .help(help)
}

/// The words of the command line. One that is no UTF-8 cannot be read.
fn words(rt: &HostRuntime, alloc: Global) -> Result<Vec<String>, CheckerEnding> {
    match env::args(rt) {
        Ok(words) => Ok(words.collect(alloc)?),
        Err(error) if error.kind() == io::ErrorKind::OutOfMemory => Err(CheckerEnding::Memory),
        Err(_) => Err(CheckerEnding::File),
    }
}

fn run_matches(
    rt: &HostRuntime,
    alloc: Global,
    matches: &ArgMatches<'_>,
) -> Result<bool, CheckerEnding> {
    let opened = matches.get_one::<u64>("opened").unwrap_or(0);
    let settings = settings_of(rt, alloc, word_of(matches, "SETTINGS"), opened)?;
    let history = read(rt, word_of(matches, "HISTORY"), CheckerEnding::File)?;
    let mut report = report(rt, alloc, &settings, &history)?;
    let is_legal = report.as_slice() == b"legal".as_slice();
    report.push(b'\n')?;
    write_and_flush(&mut io::writer(rt), &report)?;
    Ok(is_legal)
}

/// The word of an argument that is required.
fn word_of<'a>(matches: &ArgMatches<'a>, name: &str) -> &'a str {
    matches.get_str(name).unwrap_or("")
}

/// Reads the settings of a hub that was opened at this moment.
fn settings_of<R: Files + AllocGlobal>(
    rt: &R,
    alloc: Global,
    path: &str,
    opened: u64,
) -> Result<Settings, CheckerEnding> {
    let bytes = read(rt, path, CheckerEnding::File)?;
    let Ok(text) = str::from_utf8(&bytes) else {
        return Err(CheckerEnding::Settings);
    };
    match read_settings(alloc, text, opened) {
        Ok(settings) => Ok(settings),
        Err(SettingsFault::Memory) => Err(CheckerEnding::Memory),
        Err(_) => Err(CheckerEnding::Settings),
    }
}

/// Reports on a history, by the hash that the settings name.
fn report<R: Files + AllocGlobal>(
    rt: &R,
    alloc: Global,
    settings: &Settings,
    history: &[u8],
) -> Result<Vec<u8>, CheckerEnding> {
    let setup = settings.setup().clone()?;
    match settings.hash() {
        HashName::First24 => Ok(report_history(alloc, setup, &First24, history)?),
        HashName::Tiger => {
            let bytes = read(rt, settings.tables(), CheckerEnding::Tables)?;
            match TableTiger::from_bytes(alloc, &bytes) {
                Ok(tiger) => Ok(report_history(alloc, setup, &tiger, history)?),
                Err(TablesFault::Length) => Err(CheckerEnding::Tables),
                Err(TablesFault::Memory) => Err(CheckerEnding::Memory),
            }
        }
    }
}

fn read<R: Files + AllocGlobal>(
    rt: &R,
    path: &str,
    otherwise: CheckerEnding,
) -> Result<Vec<u8>, CheckerEnding> {
    match fs::read(rt, path) {
        Ok(bytes) => Ok(bytes),
        Err(error) if error.kind() == io::ErrorKind::OutOfMemory => Err(CheckerEnding::Memory),
        Err(_) => Err(otherwise),
    }
}
