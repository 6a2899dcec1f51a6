ghost use Rattle.std.specs.Prelude.{◌≡◌, IfOk, Ok, map};
ghost use Rattle.std.specs.Arc.{arc_value};
ghost use Rattle.std.specs.String.{string_bytes};
ghost use Rattle.hub_setup.specs.Settings.{configured_hub};
ghost use Rattle.hub_stdio.specs.Faults.{told};
ghost use Rattle.hub_startup.specs.Endings.{AsksForStdin, stdin_setup, ending_of, EndsBy};

use crate::command_line::asks_for_stdin;
use counted_io::{CountedRead, CountedWrite};
use hub_core::{Options, Setup, SetupRefused};
use hub_endings::Ending;
use hub_stdio::{RunFault, run_one};
use session_hash::First24;
use std::alloc::{AllocError, Global};
use std::sync::Arc;

/// Runs a hub with the default settings for one connection, where these words ask for it, and tells how that ended. With other
/// words it ends by `Usage`, and nothing is read or written.
pub fn serve_stdin_if_asked<I: CountedRead, O: CountedWrite>(
    alloc: Global,
    words: &[String],
    input: &mut I,
    output: &mut O,
) -> Ending
    ensures { EndsBy result (map string_bytes words.now)
        (told (I.remaining input.old) (O.contents output.old) (I.failures input.old) (O.failures output.old))
        (told (I.remaining input.new) (O.contents output.new) (I.failures input.new) (O.failures output.new)) }
{
    if asks_for_stdin(words) {
        serve_stdin(alloc, input, output)
    } else {
        Ending::Usage
    }
}

/// Runs a hub with the default settings for one connection.
fn serve_stdin<I: CountedRead, O: CountedWrite>(
    alloc: Global,
    input: &mut I,
    output: &mut O,
) -> Ending
    ensures { (words : _) → AsksForStdin words → EndsBy result words
        (told (I.remaining input.old) (O.contents output.old) (I.failures input.old) (O.failures output.old))
        (told (I.remaining input.new) (O.contents output.new) (I.failures input.new) (O.failures output.new)) }
{
    let Ok(setup) = stdin_setup(alloc) else {
        return Ending::Memory;
    };
    match run_one(alloc, setup, &First24, input, output) {
        Ok(()) => Ending::Served,
        Err(fault) => ending_of(fault),
    }
}

/// Tells how the program ends after this fault.
fn ending_of(fault: RunFault) -> Ending
    ensures { result ≡ ending_of fault }
{
    match fault {
        RunFault::Memory => Ending::Memory,
        RunFault::Read | RunFault::Write | RunFault::TooLong | RunFault::Turns => Ending::Transfer,
    }
}

/// Makes the default settings. It fails where memory runs out.
fn stdin_setup(alloc: Global) -> Result<Arc<Setup>, AllocError>
    ensures { IfOk result (λ setup. arc_value setup ≡ stdin_setup) }
{
    let options = stdin_options();
    match Setup::new(alloc, &options) {
        Ok(setup) => Arc::new(alloc, setup).map_err(|_| AllocError),
        Err(SetupRefused::Memory) => Err(AllocError),
        Err(SetupRefused::Limit) => unreachable!(),
        Err(SetupRefused::Name) => unreachable!(),
        Err(SetupRefused::Account) => unreachable!(),
        Err(SetupRefused::Command) => unreachable!(),
    }
}

/// Gives the options of the default settings: a hub named `Hub` for 512 users, with nothing that settings may add.
fn stdin_options() -> Options<'static>
    ensures { configured_hub result ≡ Ok stdin_setup }
{
    Options::named("Hub")
}
