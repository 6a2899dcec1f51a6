ghost use Rattle.std.specs.Prelude.{◌≡◌};
ghost use Rattle.hub_warnings.specs.Logged.{said_level, said_line};

use log::{Level, Log, log};
use std::fmt::Display;

/// A line that a log was given, and its level. Only [`say`] makes one, so that a function that returns it has given that line to
/// a log.
#[derive(Clone, Copy)]
pub struct Said<D> {
    level: Level,
    line: D,
}

/// Gives this line to the log, and returns what was said.
pub fn say<L: Log, D: Display + Copy>(log: &L, level: Level, line: D) -> Said<D>
    ensures level { said_level result ≡ level }
    ensures line { said_line result ≡ line }
{
    log!(log; level, "{}", line);
    Said { level, line }
}
