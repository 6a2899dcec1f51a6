ghost use Rattle.std.specs.Prelude.{◌≡◌};
ghost use Rattle.hub_warnings.specs.Clocks.{IsToldBy};
ghost use Rattle.hub_warnings.specs.Logged.{said_level, said_line};

use crate::cause::Cause;
use crate::clock::WallClock;
use crate::lines::Warning;
use crate::moment::Moment;
use crate::said::{Said, say};
use log::{Level, Log};
use std::net::SocketAddrV4;

/// The warnings of a server, which its threads share: each goes to the log. It asks for no memory.
#[derive(Drop)]
pub struct Warnings<L> {
    /// The log to which they go.
    pub log: L,
}

impl<L> Warnings<L> {
    /// Makes the warnings that go to this log.
    pub fn new(log: L) -> Warnings<L>
        ensures { result.log ≡ log }
    {
        Warnings { log }
    }
}

impl<L: Log> Warnings<L> {
    /// Warns of this cause, and the peer where it is known.
    pub fn warn<C: WallClock>(
        &self,
        clock: &C,
        peer: Option<SocketAddrV4>,
        cause: Cause,
    ) -> Said<Warning>
        ensures level { said_level result ≡ Level.Warn }
        ensures moment { IsToldBy C.reads clock.now (said_line result).moment }
        ensures peer { (said_line result).peer ≡ peer }
        ensures cause { (said_line result).cause ≡ cause }
    {
        let moment = Moment::now(clock);
        let warning = Warning {
            moment,
            peer,
            cause,
        };
        say(&self.log, Level::Warn, warning)
    }
}
