//! An ADC hub: a server, or one connection over standard input and output.
#![tactic(auto)]

pub use hub_challenges::Challenges;
use hub_endings::Ending;
pub use hub_program::program;
pub use hub_server::serve_on;
use hub_startup::{has_journal, settings_path};
pub use hub_stdio::{CountedRead, CountedWrite, Counting, Failures, RunFault, run_one};
use hub_warnings::queue;
use std::alloc::Global;
use std::process::ExitCode;
use std::{env, io, thread};

fn main(rt: HostRuntime) -> ExitCode {
    let words = match arguments(&rt, rt.alloc()) {
        Ok(words) => words,
        Err(ending) => return ExitCode::from(ending.tell(&mut rt.stderr())),
    };
    let mut input = Counting::new(rt.reader());
    let mut output = Counting::new(io::writer(&rt));
    if settings_path(&words).is_none() {
        let status = program(&rt, &words, &mut input, &mut output, &mut rt.stderr());
        return ExitCode::from(status);
    }
    // No thread of the server waits for who reads standard error: one of its own writes there.
    let Ok((mut errors, lines, end)) = queue(rt, rt.alloc(), has_journal(&rt)) else {
        return ExitCode::from(Ending::Memory.tell(&mut rt.stderr()));
    };
    if thread::spawn(&rt, move || lines.write(&rt, &mut rt.stderr())).is_err() {
        return ExitCode::from(Ending::Memory.tell(&mut rt.stderr()));
    }
    let status = program(&rt, &words, &mut input, &mut output, &mut errors);
    drop(errors);
    end.wait(&rt);
    ExitCode::from(status)
}

/// Gives the words after the program's name. It fails with `Usage` where one of them is no text, and with `Memory` where
/// memory runs out.
fn arguments(rt: &HostRuntime, alloc: Global) -> Result<Vec<String>, Ending> {
    let words = match env::args(rt) {
        Ok(words) => words,
        Err(error) if error.kind() == io::ErrorKind::OutOfMemory => return Err(Ending::Memory),
        Err(_) => return Err(Ending::Usage),
    };
    words.skip(1).collect(alloc).map_err(|_| Ending::Memory)
}
