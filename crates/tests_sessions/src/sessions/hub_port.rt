ghost use Rattle.std.specs.Prelude.{⊤, ◌≤◌};

use super::*;
use hub_core::{Conn, Core, Options, Prepared, Setup, prepare};
use session_hash::First24;
use std::alloc::AllocError;
use std::sync::Arc;
use tests_support::GREETS;

/// A connection of a hub for one thread. What it leaves is itself, and who joined the hub first.
pub(crate) struct HubPort {
    setup: Arc<Setup>,
    core: Core,
    first: Conn,
    me: Conn,
}

// Written out, so that to let a hub go is one call wherever it is done.
impl Drop for HubPort {
    fn drop(self) {
        let HubPort {
            setup,
            core,
            first: _,
            me: _,
        } = self;
        drop(core);
        drop(setup);
    }
}

fn prepared(alloc: Global, setup: &Setup, line: &[u8]) -> Result<Prepared, LineRefused> {
    prepare(alloc, setup, &First24, [0; 24], line)
}

fn join(alloc: Global, core: &mut Core) -> Result<Conn, AllocError> {
    let joined = core.join(alloc, [127, 0, 0, 1], [0; 24], 0);
    joined.map_err(|_| AllocError)
}

// Each call of the core stands in a function of its own, which promises nothing.
impl HubPort {
    fn new(alloc: Global) -> Result<HubPort, AllocError> {
        let Ok(setup) = Setup::new(alloc, &Options::named("Hub")) else {
            return Err(AllocError);
        };
        HubPort::with(alloc, Arc::new(alloc, setup)?)
    }

    fn with(alloc: Global, setup: Arc<Setup>) -> Result<HubPort, AllocError> {
        let Ok(mut core) = Core::open(alloc, setup.clone()?) else {
            return Err(AllocError);
        };
        let me = join(alloc, &mut core)?;
        let first = me;
        Ok(HubPort {
            setup,
            core,
            first,
            me,
        })
    }

    /// Opens a new hub, to which another may have come, by greeting and this login line; and one more connection.
    fn open(rt: &impl Abort, alloc: Global, other: Option<&[u8]>) -> HubPort {
        let mut port = again!(rt; HubPort::new(alloc));
        if let Some(login) = other {
            for line in [GREETS.as_bytes(), login] {
                again!(rt; port.says(alloc, line));
            }
            port.heard(rt, alloc);
            port.me = again!(rt; join(alloc, &mut port.core));
        }
        port
    }

    fn says(&mut self, alloc: Global, line: &[u8]) -> Result<Verdict, LineRefused> {
        let line = prepared(alloc, &self.setup, line)?;
        self.hand(alloc, &line)
    }

    fn hand(&mut self, alloc: Global, line: &Prepared) -> Result<Verdict, LineRefused> {
        if !self.core.is_open(self.me) {
            return Err(LineRefused::Memory);
        }
        self.core.line(alloc, self.me, line, 0)
    }

    /// Takes up to 256 lines of a connection that is open.
    fn takes(&mut self, who: Conn, out: &mut Vec<u8>) -> Result<Taken, TakeRefused> {
        if !self.core.is_open(who) {
            return Err(TakeRefused::Memory);
        }
        self.core.take(who, 256, out)
    }

    /// Takes up to 256 lines of who joined first, who is there yet.
    pub(crate) fn heard(&mut self, rt: &impl Abort, alloc: Global) -> Vec<u8> {
        let mut heard = Vec::new(alloc);
        again!(rt; self.takes(self.first, &mut heard));
        heard
    }
}

impl Port for HubPort {
    type Left = HubPort;

    ghost step = { λ _ _ _. ⊤ };

    ghost leaves = { λ _ _. ⊤ };

    fn line(&mut self, alloc: Global, line: &[u8]) -> Result<Verdict, LineRefused> {
        self.says(alloc, line)
    }

    fn take(&mut self, count: usize, out: &mut Vec<u8>) -> Result<Taken, TakeRefused> {
        if !self.core.is_open(self.me) {
            return Err(TakeRefused::Memory);
        }
        self.core.take(self.me, count, out)
    }

    fn quit(self) -> HubPort {
        let mut port = self;
        if port.core.is_open(port.me) {
            port.core.quit(port.me);
        }
        port
    }
}

/// Holds a session with a new hub, to which another may have come as [`HubPort::open`] tells, and gives what it leaves.
pub(crate) fn meet(
    rt: &impl Abort,
    bench: &Bench,
    other: Option<&[u8]>,
    wire: Wire,
    bell: Rung,
) -> (End, Wire, HubPort) {
    let port = HubPort::open(rt, bench.alloc, other);
    let (end, wire, left, _) = hold(rt, bench, wire, port, bell);
    (end, wire, left)
}
