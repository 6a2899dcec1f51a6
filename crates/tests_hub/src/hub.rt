use crate::refusal::*;
use adc_base32::Sid;
use hub_core::Taken;

/// A hub whose peers are all 127.0.0.1 and whose challenges are all 24 zero bytes. A call for which memory is refused
/// has to leave all as it was, and is made once more; it has to succeed then.
#[derive(Drop)]
pub(crate) struct Hub {
    alloc: Global,
    setup: Arc<Setup>,
    core: Core,
    /// The first who joined.
    first: Vec<Conn>,
    /// The public call that was refused memory last.
    refused: Option<&'static str>,
}

/// The sight of a hub: what can be seen of it.
#[derive(Clone, Copy, PartialEq)]
struct Sight {
    totals: Totals,
    joins: u64,
    glances: [Option<Glance>; MOST_LOOKED_AT],
}

/// The glance at an open connection: what can be seen of it.
#[derive(Clone, Copy, PartialEq)]
struct Glance {
    stage: Stage,
    present: u64,
    waiting: u64,
}

/// The number of connections that are looked at before and after a call: the first who joined.
const MOST_LOOKED_AT: usize = 8;

/// The bytes that a take gave.
#[derive(Drop)]
pub(crate) struct Heard {
    pub(crate) bytes: Vec<u8>,
    pub(crate) lines: u64,
    /// The end, where it is true: nothing will follow.
    pub(crate) ended: bool,
}

impl Hub {
    /// Opens a hub, or tells why its options are refused.
    pub fn open(rt: &impl Abort, alloc: Global, given: &Options<'_>) -> Result<Hub, SetupRefused> {
        let setup = share(rt, alloc, set_up(rt, alloc, given)?);
        let (core, refused) = open_core(rt, alloc, &setup);
        let first = again!(rt; Vec::with_capacity(alloc, MOST_LOOKED_AT));
        Ok(Hub {
            alloc,
            setup,
            core,
            first,
            refused,
        })
    }

    pub(crate) fn join(&mut self, rt: &impl Abort) -> Result<Conn, JoinRefused> {
        let before = self.sight();
        for _ in 0..2 {
            match self.try_join() {
                Err(JoinRefused::Memory) => {
                    self.has_not_changed(rt, "hub_core::Core::join", &before);
                }
                answer => return answer,
            }
        }
        panic!(rt; "refused twice")
    }

    fn try_join(&mut self) -> Result<Conn, JoinRefused> {
        let connection = self.core.join(self.alloc, [127, 0, 0, 1], [0; 24], 0)?;
        if self.first.len() < MOST_LOOKED_AT {
            let _ = self.first.push(connection);
        }
        Ok(connection)
    }

    /// Lets so many join, each of whom leaves at once.
    pub(crate) fn pass(&mut self, rt: &impl Abort, count: usize) {
        for _ in 0..count {
            let connection = again!(rt; self.try_join());
            self.quit(rt, connection);
        }
    }

    pub fn line(&mut self, rt: &impl Abort, who: Conn, line: &[u8], now: u64) -> Verdict {
        let line = again!(rt; prepare(self.alloc, &self.setup, &First24, [0; 24], line));
        let before = self.sight();
        for _ in 0..2 {
            match self.try_line(rt, who, &line, now) {
                Some(verdict) => return verdict,
                None => self.has_not_changed(rt, "hub_core::Core::line", &before),
            }
        }
        panic!(rt; "refused twice")
    }

    fn try_line(&mut self, rt: &impl Abort, who: Conn, it: &Prepared, at: u64) -> Option<Verdict> {
        assert!(rt; self.core.is_open(who), "it has left");
        self.core.line(self.alloc, who, it, at).ok()
    }

    /// Takes `count` lines, 1 to 256.
    pub(crate) fn take(&mut self, rt: &impl Abort, who: Conn, count: usize) -> Heard {
        self.take_behind(rt, who, count, b"")
    }

    /// Takes `count` lines, 1 to 256, behind bytes that stay.
    pub fn take_behind(&mut self, rt: &impl Abort, who: Conn, count: usize, front: &[u8]) -> Heard {
        let mut bytes = again!(rt; tests_support::copy(self.alloc, front));
        let before = self.sight();
        for _ in 0..2 {
            if let Some(Taken { lines, ended }) = self.gets(rt, who, count, &mut bytes) {
                return Heard {
                    bytes,
                    lines,
                    ended,
                };
            }
            self.has_not_changed(rt, "hub_core::Core::take", &before);
            holds(rt, bytes.len() == front.len(), "a refused take gave bytes");
        }
        panic!(rt; "refused twice")
    }

    fn gets(&mut self, rt: &impl Abort, who: Conn, most: usize, to: &mut Vec<u8>) -> Option<Taken> {
        assert!(rt; self.core.is_open(who), "it has left");
        assert!(rt; 1 <= most && most <= 256, "1 to 256 lines are taken");
        self.core.take(who, most, to).ok()
    }

    pub(crate) fn quit(&mut self, rt: &impl Abort, connection: Conn) {
        assert!(rt; self.core.is_open(connection), "it has left");
        self.core.quit(connection);
    }

    pub(crate) fn is_open(&self, connection: Conn) -> bool {
        self.core.is_open(connection)
    }

    /// Names whom the last call concerned.
    pub(crate) fn touched(&self) -> Touched {
        self.core.touched()
    }

    pub(crate) fn sid(&self, rt: &impl Abort, connection: Conn) -> Sid {
        assert!(rt; self.core.is_open(connection), "it has left");
        self.core.sid(connection)
    }

    /// Keeps the name of a call that was refused memory, and stops the test where that changed something.
    fn has_not_changed(&mut self, rt: &impl Abort, call: &'static str, before: &Sight) {
        self.refused = Some(call);
        let same = self.sight() == *before;
        holds(rt, same, "a refused call changed the hub");
    }

    /// Names the public call that was refused memory last.
    pub(crate) fn refused(&self) -> Option<&'static str> {
        self.refused
    }

    /// Gives what the users share together, and how many joined.
    pub(crate) fn counts(&self) -> (Totals, u64) {
        (self.core.totals(), self.core.joins())
    }

    fn sight(&self) -> Sight {
        let mut glances = [None; MOST_LOOKED_AT];
        for (glance, connection) in glances.iter_mut().zip(&self.first) {
            *glance = self.glance(*connection);
        }
        Sight {
            totals: self.core.totals(),
            joins: self.core.joins(),
            glances,
        }
    }

    fn glance(&self, connection: Conn) -> Option<Glance> {
        if !self.core.is_open(connection) {
            return None;
        }
        let look = self.core.look(connection);
        Some(Glance {
            stage: look.stage,
            present: look.present,
            waiting: look.waiting,
        })
    }
}

fn set_up(rt: &impl Abort, alloc: Global, options: &Options<'_>) -> Result<Setup, SetupRefused> {
    for _ in 0..2 {
        match Setup::new(alloc, options) {
            Err(SetupRefused::Memory) => {}
            answer => return answer,
        }
    }
    panic!(rt; "refused twice")
}

/// Makes a setup of options that have no fault, and shares it.
pub(crate) fn shared_setup(rt: &impl Abort, alloc: Global, options: &Options<'_>) -> Arc<Setup> {
    share(rt, alloc, set_up(rt, alloc, options).expect(rt, "options"))
}

fn share(rt: &impl Abort, alloc: Global, setup: Setup) -> Arc<Setup> {
    match Arc::new(alloc, setup) {
        Ok(setup) => setup,
        Err(refused) => match Arc::new(alloc, refused.value) {
            Ok(setup) => setup,
            Err(_) => panic!(rt; "refused twice"),
        },
    }
}

/// Opens the core of a hub, and names the call where it was refused memory.
fn open_core(rt: &impl Abort, alloc: Global, setup: &Arc<Setup>) -> (Core, Option<&'static str>) {
    let mut refused = None;
    for _ in 0..2 {
        if let Ok(core) = Core::open(alloc, again!(rt; setup.clone())) {
            return (core, refused);
        }
        refused = Some("hub_core::Core::open");
    }
    panic!(rt; "refused twice")
}
