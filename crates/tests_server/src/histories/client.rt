// A client over memory, whose connection's calls are recorded.
ghost use Rattle.std.specs.Prelude.{◌≡◌, Some, ⊤};
ghost use Rattle.hub_connections.specs.NamedHub.{home_in};

use crate::histories::clock::StillClock;
use crate::histories::record::Desk;
use crate::machine::*;
use crate::sessions::begin;
use adc_sessions::{Port, Session};
use history_check::{WrittenCall, WrittenReply};
use hub_connections::{Connection, OfHub, Server, SlotBell, Ticket};
use hub_core::{JoinRefused, LineRefused, TakeRefused, Taken, Verdict};
use hub_shared::{Hub, Visitor};
use std::marker::PhantomData;
use std::thread::yield_now;
use tests_support::{Deed, Step};

const CHALLENGE: [u8; 24] = [0; 24];

/// A stream that brings a client's lines of a conversation, each once it is its turn. What the client is sent is let go.
#[derive(Drop)]
pub(crate) struct Wire<'a, R> {
    desk: &'a Desk<R>,
    steps: &'a [Step<'a>],
    who: &'a str,
    next: usize,
    rest: &'a [u8],
    // A line feed is owed behind the rest.
    owes_feed: bool,
    is_over: bool,
}

impl<'a, R: Wait> Wire<'a, R> {
    fn new(desk: &'a Desk<R>, steps: &'a [Step<'a>], who: &'a str) -> Wire<'a, R> {
        Wire {
            desk,
            steps,
            who,
            next: 0,
            rest: b"",
            owes_feed: false,
            is_over: false,
        }
    }

    /// Goes on to what the client says or does next, if its turn has come.
    fn goes_on(&mut self) {
        for place in self.next..self.desk.turn() {
            let Some(step) = self.steps.get(place) else {
                return;
            };
            self.next = place.wrapping_add(1);
            if step.who == self.who && step.deed != Deed::Joins {
                self.is_over = step.deed != Deed::Says;
                if !self.is_over {
                    self.desk.set_clock(step.moment);
                    self.rest = step.line.as_bytes();
                    self.owes_feed = true;
                }
                return;
            }
        }
    }
}

impl<R: Wait> AsyncRead for Wire<'_, R> {
    ghost reads = { λ _ _ _. ⊤ };

    ghost is_at_end = { λ _. ⊤ };

    ghost reads_nothing = { λ _. tt };

    ghost reads_in_order = { λ _ _ _ _ _ _ _. tt };

    fn poll_read(&mut self, cx: &mut Context<'_>, buf: &mut [u8]) -> Poll<io::Result<usize>> {
        // So that clients on other threads have their say between its lines.
        yield_now();
        if self.rest.is_empty() && !self.owes_feed && !self.is_over {
            self.goes_on();
        }
        if self.rest.is_empty() && self.owes_feed {
            self.rest = b"\n";
            self.owes_feed = false;
        }
        if self.rest.is_empty() && !self.is_over {
            return cx.yield_now();
        }
        let count = self.rest.len().min(buf.len());
        buf[..count].copy_from_slice(&self.rest[..count]);
        self.rest = &self.rest[count..];
        Poll::Ready(Ok(count))
    }
}

impl<R: Wait> AsyncWrite for Wire<'_, R> {
    ghost writes = { λ _ _ _. ⊤ };

    ghost writes_nothing = { λ _. tt };

    ghost writes_in_order = { λ _ _ _ _ _ _ _. tt };

    fn poll_write(&mut self, _cx: &mut Context<'_>, buf: &[u8]) -> Poll<io::Result<usize>> {
        Poll::Ready(Ok(buf.len()))
    }

    fn poll_flush(&mut self, _cx: &mut Context<'_>) -> Poll<io::Result<()>> {
        Poll::Ready(Ok(()))
    }

    fn poll_shutdown(&mut self, _cx: &mut Context<'_>) -> Poll<io::Result<()>> {
        Poll::Ready(Ok(()))
    }
}

/// A port that hands each call on, and notes it with its reply.
#[derive(Drop)]
pub(crate) struct Recorder<'a, P, R> {
    port: P,
    desk: &'a Desk<R>,
    caller: u64,
    connection: u64,
}

impl<P: Port, R: Wait> Port for Recorder<'_, P, R> {
    ghost step = { λ a call b. P.step a.port call b.port };

    ghost leaves = { λ a left. P.leaves a.port left };

    type Left = P::Left;

    fn line(&mut self, alloc: Global, line: &[u8]) -> Result<Verdict, LineRefused> {
        let mut record = self.desk.record();
        let moment = self.desk.clock.seconds();
        let verdict = self.port.line(alloc, line)?;
        record.note_line(self.caller, self.connection, line, moment, verdict);
        Ok(verdict)
    }

    fn take(&mut self, count: usize, out: &mut Vec<u8>) -> Result<Taken, TakeRefused> {
        let mut record = self.desk.record();
        let before = out.len();
        let taken = self.port.take(count, out)?;
        let bytes = out.get(before..).unwrap_or(b"");
        record.note_take(self.caller, self.connection, count, bytes, taken);
        Ok(taken)
    }

    fn quit(self) -> P::Left {
        let Recorder {
            port,
            desk,
            caller,
            connection,
        } = self;
        let mut record = desk.record();
        let left = port.quit();
        record.note(caller, WrittenCall::Quit(connection), WrittenReply::Left);
        left
    }
}

/// A server whose clock stands, and whose own sockets are streams `S` with tickets `T`.
pub type StillServer<'a, B, S, T, R> = Server<'a, B, S, T, First24, StillClock<R>, StillClock<R>>;

/// The connection of a client of such a server.
type StillCall<'a, B, S, T, R> = Connection<'a, B, S, T, First24, StillClock<R>, StillClock<R>>;

/// The session of a client of such a server.
pub(crate) type Talk<'a, B, S, T, R> = Session<
    Wire<'a, R>,
    Recorder<'a, StillCall<'a, B, S, T, R>, R>,
    SlotBell<'a>,
>;

/// A visitor of the named hub.
#[derive(Drop)]
pub(crate) struct Guest<B: OfHub<First24, S>, S> {
    visitor: Visitor<First24>,
    of: PhantomData<(B, S)>,
    ghost here: { home_in B.hub ≡ Some visitor.home },
}

impl<B: OfHub<First24, S>, S> Guest<B, S> {
    /// Makes a guest of a visitor of the named hub.
    pub(crate) fn new(visitor: Visitor<First24>) -> Guest<B, S>
        requires { home_in B.hub ≡ Some visitor.home }
    {
        Guest {
            visitor,
            of: PhantomData,
        }
    }
}

/// Makes a step that is a join, of the caller of this number. The client gets no session where the hub is full; nothing is given where memory
/// was refused.
pub(crate) fn joins<
    'a,
    B: OfHub<First24, S>,
    S: AsyncRead + AsyncWrite,
    T: Ticket<S, First24, StillClock<R>>,
    R: Wait,
>(
    alloc: Global,
    hub: &Hub<First24>,
    server: &'a StillServer<'a, B, S, T, R>,
    desk: &'a Desk<R>,
    steps: &'a [Step<'a>],
    step: Step<'a>,
    caller: u64,
    guest: Guest<B, S>,
) -> Option<Option<Talk<'a, B, S, T, R>>>
    requires { home_in B.hub ≡ Some hub.now.home }
{
    let address = Ipv4Addr::parse_ascii(step.line.as_bytes()).ok()?.octets();
    let Guest { visitor, .. } = guest;
    let call = WrittenCall::Join(address, CHALLENGE, step.moment);
    let mut record = desk.record();
    match hub.join(&desk.clock, alloc, visitor, address, CHALLENGE, step.moment) {
        Ok(pass) => {
            let connection = record.note_join(caller, call);
            let slot = connection.wrapping_sub(1) as usize;
            let port = Connection::new(server, pass, CHALLENGE, slot);
            let (bell, wire) = (port.bell(), Wire::new(desk, steps, step.who));
            let port = Recorder {
                port,
                desk,
                caller,
                connection,
            };
            begin(alloc, wire, port, bell).map(Some)
        }
        Err((JoinRefused::Full, _)) => {
            record.note(caller, call, WrittenReply::Full);
            Some(None)
        }
        Err(_) => None,
    }
}
