ghost use Rattle.std.specs.Prelude.{◌≡◌, true, false, IfErr, IfOk, IsOk, OnOk, OnErr};
ghost use Rattle.futures.specs.Task.{IsArmed, Keeps};
ghost use Rattle.futures.specs.Poll.{IfReady, OnPending};
ghost use Rattle.hub_listener.specs.Arrivals.{OnNobody};
ghost use Rattle.hub_listener.specs.Rests.{EndOfRest, HasBegun, IsAcceptFault, rests, socket_of, Rests, GoesOn, MayBeCalled};

use crate::help::HelpOffer;
use crate::listens::{Arrived, Listens};
use crate::rest::{Rest, RoomLook};
use crate::ticks::Ticks;
use futures::task::{Context, Poll};
use hub_warnings::{Cause, WallClock, Warnings};
use log::Log;
use server_tasks::{AcceptError, Wakers, accept_error_of};
use std::io;
use std::sync::Wait;
use std::time::{Duration, Instant};
use tokio::time::Sleep;

/// The number of milliseconds for which the listener rests at most.
const REST: u64 = 100;

/// The number of times that one poll asks the socket for a connection, where those that were there are gone.
const ATTEMPTS: u8 = 16;

/// A listener that rests where the system has no room for another connection, until a socket is closed or 100 ms have
/// passed: that is no fault of its own.
pub struct Listener<'a, R, L, I> {
    socket: I,
    wakers: &'a Wakers,
    rt: &'a R,
    warnings: &'a Warnings<L>,
    timer: Sleep,
    rest: Rest,
    // What the last poll offered to those who may call for help.
    offer: Option<HelpOffer>,
}

impl<'a, R, L, I: Drop> Drop for Listener<'a, R, L, I> {
    fn drop(self) {
        let Listener {
            socket,
            wakers: _,
            rt: _,
            warnings: _,
            timer,
            rest,
            offer,
        } = self;
        drop(socket);
        drop(timer);
        drop(rest);
        drop(offer);
    }
}

impl<'a, R: Wait + WallClock + Ticks, L: Log, I> Listener<'a, R, L, I> {
    /// Makes a listener of a socket. It uses this timer, whatever it is set to, and warns where memory was wanting.
    pub fn new(
        socket: I,
        wakers: &'a Wakers,
        rt: &'a R,
        warnings: &'a Warnings<L>,
        timer: Sleep,
    ) -> Listener<'a, R, L, I>
        ensures awake { rests result ≡ false }
        ensures socket { socket_of result ≡ socket }
    {
        Listener {
            socket,
            wakers,
            rt,
            warnings,
            timer,
            rest: Rest::Never,
            offer: None,
        }
    }

    /// Ends a rest once a socket was closed or its time has passed. Fails with the look that found no room, if the rest goes on; the
    /// task is woken at its end.
    fn end_rest(&mut self, cx: &mut Context<'_>) -> Result<(), RoomLook>
        ensures awake { rests self.old ≡ false → IsOk result }
        ensures over { OnOk result (rests self.new ≡ false) }
        ensures not_over { OnErr result (rests self.new ≡ true) }
        ensures no_room { IfErr result (λ look. look.has_room ≡ false) }
        ensures begun { HasBegun self.old → HasBegun self.new }
        ensures socket { socket_of self.new ≡ socket_of self.old }
        ensures registered { OnErr result (IsArmed cx.new) }
        ensures kept { Keeps cx.old cx.new }
    {
        if !self.rest.is_on() {
            return Ok(());
        }
        let (word, has_room) = self.wakers.wait_for_room(cx);
        let look = RoomLook { word, has_room };
        if !has_room && self.timer.poll_elapsed(cx).is_pending() {
            return Err(look);
        }
        self.rest = Rest::Over(look);
        Ok(())
    }

    /// Begins to rest, and answers whether the time can be had.
    fn rest(&mut self) -> bool
        ensures rests { Rests R.ticks self.old result self.new }
        ensures begun { HasBegun self.old → HasBegun self.new }
        ensures socket { socket_of self.new ≡ socket_of self.old }
    {
        let Some(until) = end_of_rest(self.rt.instant().into_inner()) else {
            return false;
        };
        self.wakers.rest();
        self.timer.reset(until);
        self.rest = Rest::On;
        true
    }

    /// Answers whether the socket may be asked again after this error.
    fn goes_on(&mut self, error: &io::Error) -> bool
        ensures does { (fault : _) × IsAcceptFault error.now fault × GoesOn R.ticks self.old fault result self.new }
        ensures begun { HasBegun self.old → HasBegun self.new }
        ensures socket { socket_of self.new ≡ socket_of self.old }
    {
        self.goes_on_after(accept_error_of(error))
    }

    /// Answers whether the socket may be asked again after this fault.
    fn goes_on_after(&mut self, fault: AcceptError) -> bool
        ensures does { GoesOn R.ticks self.old fault result self.new }
        ensures begun { HasBegun self.old → HasBegun self.new }
        ensures socket { socket_of self.new ≡ socket_of self.old }
    {
        match fault {
            AcceptError::Memory => {
                self.warnings.warn(self.rt, None, Cause::Lost);
                self.rest()
            }
            AcceptError::Room => self.rest(),
            AcceptError::Gone => true,
            AcceptError::Listener => false,
        }
    }
}

/// Gives the end of a rest that begins now. Nothing where the time cannot be had.
fn end_of_rest(now: Option<Instant>) -> Option<Instant>
    ensures { EndOfRest now result }
{
    now?.checked_add(Duration::from_millis(REST))
}

impl<R: Wait + WallClock + Ticks, L: Log, I: Listens> Listener<'_, R, L, I> {
    /// Gives the next connection. Where the system has no room for one, it rests before.
    pub fn poll_arrived(
        &mut self,
        cx: &mut Context<'_>,
    ) -> Poll<io::Result<Arrived<I::Socket, I::Ticket>>>
        ensures came { IfReady result (λ r. IfOk r (λ it. I.comes (socket_of self.old) it (socket_of self.new))) }
        ensures waited { OnNobody result (I.waits (socket_of self.old) (socket_of self.new)) }
        ensures begun { HasBegun self.old → HasBegun self.new }
        ensures helps { OnPending result (MayBeCalled cx.new self.new) }
        ensures registered { OnPending result (IsArmed cx.new) }
        ensures kept { Keeps cx.old cx.new }
    {
        self.offer = None;
        for attempt in 0..ATTEMPTS {
            if self.end_rest(cx).is_err() {
                return Poll::Pending;
            }
            match self.socket.poll_accept(cx) {
                Poll::Ready(Ok(arrived)) => return Poll::Ready(Ok(arrived)),
                Poll::Ready(Err(error)) => {
                    if !self.goes_on(&error) {
                        return Poll::Ready(Err(error));
                    }
                }
                Poll::Pending => {
                    self.offer = Some(HelpOffer::make(self.wakers, cx));
                    return Poll::Pending;
                }
            }
        }
        cx.yield_now()
    }
}
