ghost use Rattle.std.specs.Prelude.{◌≡◌, IsSomeAnd};
ghost use Rattle.futures.specs.Task.{IsArmed, Keeps};
ghost use Rattle.futures.specs.Poll.{IfReady, OnPending};
ghost use Rattle.server_tasks.specs.declared.places.PlacesDeed.TheVariants.{Asked, TaskEnded};
ghost use Rattle.adc_sessions.specs.AcceptEnds.{incoming_of, left_of};
ghost use Rattle.hub_listener.specs.Rests.{socket_of};
ghost use Rattle.hub_connections.specs.SessionEnds.{IsWarnedOf, cause_by};
ghost use Rattle.hub_connections.specs.Stop.{StopsWhen};

use crate::accepted::AcceptedConnection;
use crate::acceptor::Acceptor;
use crate::arrivals::Arrivals;
use crate::connection::serve_connection;
use crate::free_slot::{FreeSlot, OfHub, Stop};
use crate::guest::Guest;
use crate::left_slot::LeftSlot;
use crate::port::HubPort;
use crate::served_slot::{EndedSession, ServedSlot};
use crate::server::Server;
use crate::ticket::Ticket;
use adc_sessions::{Accept, AcceptEnd, End, Stream};
use futures::Future;
use futures::task::{Context, Poll};
use hub_listener::{Moments, Socket};
use hub_warnings::{Cause, Said, Warning, Warnings};
use log::Log;
use server_tasks::{OneEnded, Opened, PlacesWord, ServerFault, Ticker};
use session_hash::SessionHash;
use std::alloc::AllocGlobal;
use std::net::SocketAddrV4;
use std::sync::Wait;
use std::time::Clock;

/// The accepting of connections.
pub(crate) type Accepts<'a, B, S, T, H, R, C, L, I> = Accept<
    Arrivals<'a, B, S, T, H, R, C, L, I>,
    Acceptor<'a, B, S, T, H, R, C, L>,
>;

/// One task of the server.
#[derive(Drop)]
pub enum Task<
    'a,
    B: OfHub<H, S>,
    S: Stream,
    T: Ticket<S, H, C>,
    H: SessionHash,
    R: Wait + Clock + AllocGlobal,
    C: Moments,
    L: Log,
    I: HubPort<S, T, H, C>,
> {
    /// Keeps time.
    Ticking(Ticker<'a, AcceptedConnection<B, S, T, H, C>, S, R>),
    /// Serves the connections of one slot.
    Serving(SlotTask<'a, B, S, T, H, R, C, L>),
    /// Accepts connections.
    Accepting(AcceptTask<'a, B, S, T, H, R, C, L, I>),
    /// Nothing: the task is done.
    Done,
}

/// The task that accepts connections.
pub struct AcceptTask<
    'a,
    B: OfHub<H, S>,
    S: Stream,
    T: Ticket<S, H, C>,
    H: SessionHash,
    R: Wait + Clock + AllocGlobal,
    C: Moments,
    L: Log,
    I: HubPort<S, T, H, C>,
> {
    accept: Accepts<'a, B, S, T, H, R, C, L, I>,
    server: &'a Server<'a, B, S, T, H, R, C>,
    // The word that the server is open, once it is.
    opened: Option<Opened>,
    ghost stops: { StopsWhen B.stops I.terms I.accepted (socket_of (incoming_of accept).listener) (left_of accept) },
}

impl<
    'a,
    B: OfHub<H, S>,
    S: Stream,
    T: Ticket<S, H, C>,
    H: SessionHash,
    R: Wait + Clock + AllocGlobal,
    C: Moments,
    L: Log,
    I: HubPort<S, T, H, C>,
> Drop for AcceptTask<'a, B, S, T, H, R, C, L, I> {
    fn drop(self) {
        let AcceptTask {
            accept,
            server: _,
            opened: _,
        } = self;
        drop(accept);
    }
}

impl<
    B: OfHub<H, S>,
    S: Socket,
    T: Ticket<S, H, C>,
    H: SessionHash,
    R: Wait + Clock + AllocGlobal,
    C: Moments,
    L: Log,
    I: HubPort<S, T, H, C>,
> Future for Task<'_, B, S, T, H, R, C, L, I> {
    type Output = ();

    fn poll(&mut self, cx: &mut Context<'_>) -> Poll<()> {
        let polled = match self {
            Task::Ticking(ticker) => ticker.poll_over(cx),
            Task::Serving(slot) => slot.poll_over(cx),
            Task::Accepting(accept) => accept.poll_over(cx),
            Task::Done => cx.yield_now(),
        };
        if let Poll::Ready(()) = polled {
            // All that a task holds ends with it, the listener among it.
            *self = Task::Done;
        }
        polled
    }
}

impl<
    'a,
    B: OfHub<H, S>,
    S: Socket,
    T: Ticket<S, H, C>,
    H: SessionHash,
    R: Wait + Clock + AllocGlobal,
    C: Moments,
    L: Log,
    I: HubPort<S, T, H, C>,
> AcceptTask<'a, B, S, T, H, R, C, L, I> {
    /// Makes it. Condition: once as many more connections came as are left to accept, the server stops.
    pub(crate) fn new(
        accept: Accepts<'a, B, S, T, H, R, C, L, I>,
        server: &'a Server<'a, B, S, T, H, R, C>,
    ) -> AcceptTask<'a, B, S, T, H, R, C, L, I>
        requires stops { StopsWhen B.stops I.terms I.accepted (socket_of (incoming_of accept).listener) (left_of accept) }
    {
        AcceptTask {
            accept,
            server,
            opened: None,
        }
    }

    /// Works as a task does. It accepts nobody before all tasks came to be.
    fn poll_over(&mut self, cx: &mut Context<'_>) -> Poll<()>
        ensures registered { OnPending result (IsArmed cx.new) }
        ensures kept { Keeps cx.old cx.new }
    {
        let opened = match self.opened {
            Some(opened) => opened,
            None => match self.server.shared.poll_open(cx) {
                Poll::Pending => return Poll::Pending,
                Poll::Ready(None) => return Poll::Ready(()),
                Poll::Ready(Some(opened)) => opened,
            },
        };
        self.opened = Some(opened);
        self.accept_in(opened, cx)
    }

    /// Accepts connections in a server that is open.
    fn accept_in(&mut self, _opened: Opened, cx: &mut Context<'_>) -> Poll<()>
        ensures registered { OnPending result (IsArmed cx.new) }
        ensures kept { Keeps cx.old cx.new }
    {
        match self.accept.poll(cx) {
            Poll::Pending => Poll::Pending,
            Poll::Ready(AcceptEnd::Stopped) => {
                self.server.stop(Stop::new());
                Poll::Ready(())
            }
            Poll::Ready(AcceptEnd::AcceptFailed) => {
                self.server.close(ServerFault::Accepting);
                Poll::Ready(())
            }
        }
    }
}

/// The task that serves the connections of one slot, one after the other.
pub struct SlotTask<
    'a,
    B: OfHub<H, S>,
    S: Stream,
    T: Ticket<S, H, C>,
    H: SessionHash,
    R: Wait + Clock + AllocGlobal,
    C: Moments,
    L,
> {
    served: ServedSlot<'a, B, S, T, H, R, C>,
    server: &'a Server<'a, B, S, T, H, R, C>,
    slot: usize,
    // The word of the last look for a connection, and of the task's end.
    asked: Option<PlacesWord>,
    ended: Option<OneEnded>,
    warnings: &'a Warnings<L>,
}

impl<
    'a,
    B: OfHub<H, S>,
    S: Stream,
    T: Ticket<S, H, C>,
    H: SessionHash,
    R: Wait + Clock + AllocGlobal,
    C: Moments,
    L,
> Drop for SlotTask<'a, B, S, T, H, R, C, L> {
    fn drop(self) {
        let SlotTask {
            served,
            server: _,
            slot: _,
            asked,
            ended,
            warnings: _,
        } = self;
        drop(served);
        drop(asked);
        drop(ended);
    }
}

impl<
    'a,
    B: OfHub<H, S>,
    S: Socket,
    T: Ticket<S, H, C>,
    H: SessionHash,
    R: Wait + Clock + AllocGlobal,
    C: Moments,
    L: Log,
> SlotTask<'a, B, S, T, H, R, C, L> {
    pub(crate) fn new(
        server: &'a Server<'a, B, S, T, H, R, C>,
        slot: usize,
        warnings: &'a Warnings<L>,
    ) -> SlotTask<'a, B, S, T, H, R, C, L>
        ensures { result.slot ≡ slot }
    {
        SlotTask {
            served: ServedSlot::new(),
            server,
            slot,
            asked: None,
            ended: None,
            warnings,
        }
    }

    /// Works as a task does. It is over once nobody comes any more, and is counted then.
    pub(crate) fn poll_over(&mut self, cx: &mut Context<'_>) -> Poll<()>
        ensures counted { IfReady result (λ _. IsSomeAnd self.new.ended (λ deed. deed ≡ TaskEnded)) }
        ensures registered { OnPending result (IsArmed cx.new) }
        ensures kept { Keeps cx.old cx.new }
    {
        match self.served.poll_over(cx) {
            Poll::Pending => Poll::Pending,
            Poll::Ready(None) => self.wait(cx),
            Poll::Ready(Some(over)) => {
                let _ = self.end(over);
                cx.yield_now()
            }
        }
    }

    /// Waits for the next connection of this slot.
    fn wait(&mut self, cx: &mut Context<'_>) -> Poll<()>
        ensures asked { IsSomeAnd self.new.asked (λ deed. deed ≡ Asked self.old.slot) }
        ensures counted { IfReady result (λ _. IsSomeAnd self.new.ended (λ deed. deed ≡ TaskEnded)) }
        ensures registered { OnPending result (IsArmed cx.new) }
        ensures kept { Keeps cx.old cx.new }
    {
        let server = self.server;
        let (word, next) = server.shared.handoff.poll_next(server.rt, self.slot, cx);
        self.asked = Some(word);
        match next {
            Poll::Pending => Poll::Pending,
            Poll::Ready(None) => {
                self.ended = Some(server.shared.end_one(server.rt));
                Poll::Ready(())
            }
            Poll::Ready(Some(accepted)) => {
                self.begin(accepted);
                cx.yield_now()
            }
        }
    }

    /// Serves this connection. It is lost where memory is refused.
    fn begin(&mut self, accepted: AcceptedConnection<B, S, T, H, C>)
        ensures asked { self.new.asked ≡ self.old.asked }
    {
        let server = self.server;
        let AcceptedConnection {
            ticket,
            socket,
            pass,
            challenge,
            slot,
            peer,
            of: _,
        } = accepted;
        match serve_connection(server, socket, pass, challenge, &slot) {
            Ok(session) => self.served.begin(session, Guest { ticket, slot, peer }),
            Err((socket, left, no_memory)) => {
                let LeftSlot { visitor, .. } = left;
                server.free(FreeSlot::new(visitor, slot));
                ticket.lost(socket, no_memory);
                let _ = self.note_end(End::Memory, peer);
            }
        }
    }

    /// Gives the slot back, and ends the connection. Returns what was warned of it.
    fn end(&self, over: EndedSession<B, S, T, H, C>) -> Option<Said<Warning>>
        ensures { IsWarnedOf over.end over.peer result }
    {
        let EndedSession {
            end,
            ticket,
            peer,
            socket,
            free,
            of: _,
        } = over;
        self.server.free(free);
        self.server.linger(ticket.served(socket, end));
        self.note_end(end, peer)
    }

    /// Notes that a connection from this address is over, and warns where it ended by a fault.
    fn note_end(&self, end: End, peer: SocketAddrV4) -> Option<Said<Warning>>
        ensures { IsWarnedOf end peer result }
    {
        self.server.shared.wakers.make_room();
        match cause_of(end) {
            Some(cause) => Some(self.warnings.warn(self.server.rt, Some(peer), cause)),
            None => None,
        }
    }
}

/// Gives the cause by which a session's end is warned of. Nothing where it ended as it should.
pub fn cause_of(end: End) -> Option<Cause>
    ensures { result ≡ cause_by end }
{
    match end {
        End::Closed | End::Ended => None,
        End::ReadFailed => Some(Cause::ReadFailed),
        End::WriteFailed => Some(Cause::WriteFailed),
        End::TooLong => Some(Cause::TooLong),
        End::Memory => Some(Cause::OutOfMemory),
    }
}
