ghost use Rattle.std.specs.Prelude.{◌≡◌, ℕ, map};
ghost use Rattle.std.specs.String.{string_bytes};
ghost use Rattle.hub_program.specs.Starting.{EndsServer};
ghost use Rattle.hub_server.specs.ServerEnd.{Reports};
ghost use Rattle.hub_startup.specs.Endings.{AsksToServe, EndsOver, TellsEnding};

use crate::start::serve_file;
use counted_io::{CountedRead, CountedWrite};
use hub_startup::{Opens, serve_stdin_if_asked, settings_path};
use std::alloc::AllocGlobal;
use std::env::Env;
use std::io::Write;
use std::net::Net;
use std::random::RandomSource;
use std::sync::Wait;
use std::thread::Threads;
use std::time::Clock;

/// Does what the words after the program's name ask for, and gives the exit status.
///
/// `stdin` runs a hub for one connection, whose lines are `input` and whose answers go to `output`. The status is 0, or 4
/// where memory ran out, or 5 where the input or the output failed, a line was too long or there were too many reads.
/// `serve` and the path of a settings file run a server. The status is 1 where the settings or the seed file are at fault,
/// 2 where the file of Tiger's tables is, and else as [`serve_on`](hub_server::serve_on) says. Where the variable
/// `JOURNAL_STREAM` is set in the environment, `errors` is the journal of systemd, and has what
/// [`serve_for_journal`](hub_server::serve_for_journal) says there. With other words the status is 1, and neither is used.
///
/// One line on `errors` says what went wrong; that it cannot be written changes nothing.
pub fn program<R, I, O, E>(
    rt: &R,
    words: &[String],
    input: &mut I,
    output: &mut O,
    errors: &mut E,
) -> u8
where
    R: Wait + Threads + Clock + Net + RandomSource + AllocGlobal + Opens + Env + Sync,
    I: CountedRead,
    O: CountedWrite,
    E: Write + Send,
    ensures ends { EndsOver result (map string_bytes words.now) I.remaining I.failures input.old input.new O.contents O.failures output.old output.new }
    ensures tells { (AsksToServe (map string_bytes words.now) → ⊥) → TellsEnding result (E.contents errors.old) (E.contents errors.new) }
    ensures status { AsksToServe (map string_bytes words.now) → EndsServer E.contents errors.new result }
    ensures served { AsksToServe (map string_bytes words.now) → result ≡ 0 → (joins : ℕ) × Reports O.contents output.new joins }
{
    if let Some(path) = settings_path(words) {
        return serve_file(rt, path, output, errors);
    }
    let ending = serve_stdin_if_asked(rt.alloc(), words, input, output);
    ending.tell(errors)
}
