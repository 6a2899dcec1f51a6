//! The tool of a hub's operator: checks settings, acts on a running hub as an operator's client does, and looks at hubs.
#![tactic(auto)]

mod arguments;
mod asked;
mod checking;
mod descriptors;
mod ending;
mod figures;
mod helping;
mod operating;
mod pinging;
mod showing;
mod stream;
mod taking_back;

use arguments::commands;
use asked::run_matches;
use clap::error::ErrorKind;
use descriptors::fill_standard;
use ending::ToolEnding;
use std::alloc::Global;
use std::env;
use std::io::IsTerminal;
use std::process::ExitCode;

fn main(rt: HostRuntime) -> ExitCode {
    match run(&rt) {
        Ok(()) => ExitCode::SUCCESS,
        Err(ending) => ExitCode::from(ending.tell(&rt)),
    }
}

fn run(rt: &HostRuntime) -> Result<(), ToolEnding> {
    fill_standard(rt)?;
    let words = words(rt, rt.alloc())?;
    match commands(rt.alloc())?.try_get_matches_from(words.as_slice()) {
        Ok(matches) => run_matches(rt, &matches, rt.stdin().is_terminal()),
        Err(error) => {
            if error.kind() == ErrorKind::OutOfMemory {
                return Err(ToolEnding::Memory);
            }
            let printed = error.print(rt);
            if error.use_stderr() {
                return Err(ToolEnding::Told);
            }
            Ok(printed?)
        }
    }
}

fn words(rt: &HostRuntime, alloc: Global) -> Result<Vec<String>, ToolEnding> {
    let words = env::args(rt)?;
    Ok(words.collect(alloc)?)
}
