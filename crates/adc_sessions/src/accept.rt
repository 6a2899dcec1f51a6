ghost use Rattle.std.specs.Prelude.{◌≡◌, ◌≤◌};
ghost use Rattle.futures.specs.Task.{IsArmed, Keeps};
ghost use Rattle.futures.specs.Poll.{IfReady, OnPending};

use crate::incoming::{Incoming, Starter};
use futures::Future;
use futures::task::{Context, Poll};

/// The number of turns that one poll makes at most.
const TURNS: u8 = 16;

/// The number of faults in a row after which no more streams are waited for.
const MOST_FAULTS: u8 = 64;

/// The cause for which no more streams are accepted.
#[derive(Clone, Copy, Debug, PartialEq, Eq)]
pub enum AcceptEnd {
    /// The set number of streams was accepted.
    Stopped,
    /// 64 times in a row no stream could be accepted.
    AcceptFailed,
}

/// The outcome of a turn.
#[derive(Clone, Copy, PartialEq, Eq)]
pub(crate) enum Attempt {
    /// A turn after which another may follow at once.
    Again,
    /// A turn that found no stream: the task is woken once one may be there.
    Rest,
    /// A turn after which no more are accepted.
    Over(AcceptEnd),
}

/// A future that accepts streams, and has each of them started.
pub struct Accept<I, T> {
    incoming: I,
    pub(crate) starter: T,
    left: Option<u64>,
    faults: u8,
    ghost few: { faults ≤ 64 },
}

impl<I: Drop, T: Drop> Drop for Accept<I, T> {
    fn drop(self) {
        let Accept {
            incoming,
            starter,
            left: _,
            faults: _,
        } = self;
        drop(incoming);
        drop(starter);
    }
}

impl<I: Incoming, T: Starter<I::Stream>> Accept<I, T> {
    ghost use Rattle.adc_sessions.specs.AcceptEnds.{incoming_of, starter_of, left_of, faults_of, AcceptsIn, OverBy};
    ghost use Rattle.adc_sessions.specs.Accepted.{Accepted};

    /// Accepts so many streams, or without end where no number is given. What comes of it stands in `serves` (definitions in
    /// `specs/Accepted` and `specs/Arrivals`): each stream that came was started, and `AcceptFailed` comes only where the last
    /// 64 answers of the source were faults.
    pub fn new(incoming: I, starter: T, stop_after: Option<u64>) -> Accept<I, T>
        ensures incoming { incoming_of result ≡ incoming }
        ensures starter { starter_of result ≡ starter }
        ensures left { left_of result ≡ stop_after }
        ensures faults { faults_of result ≡ 0 }
        ensures serves { (end : AcceptEnd) → ⟦<Accept<I, T> as Future>⟧.gives result end → Accepted I.brings T.starts incoming starter stop_after end }
    {
        Accept {
            incoming,
            starter,
            left: stop_after,
            faults: 0,
        }
    }

    fn turn(&mut self, cx: &mut Context<'_>) -> Attempt
        ensures accepts { AcceptsIn I.brings T.starts 1 self.old self.new }
        ensures over { (end : AcceptEnd) → result ≡ Attempt.Over end → OverBy end self.new }
        ensures registered { result ≡ Attempt.Rest → IsArmed cx.new }
        ensures kept { Keeps cx.old cx.new }
    {
        let left = match self.left {
            Some(0) => return Attempt::Over(AcceptEnd::Stopped),
            Some(left) => Some(left - 1),
            None => None,
        };
        if self.faults == MOST_FAULTS {
            return Attempt::Over(AcceptEnd::AcceptFailed);
        }
        match self.incoming.poll_incoming(cx) {
            Poll::Ready(Ok((stream, peer))) => {
                self.faults = 0;
                self.left = left;
                self.starter.start(stream, peer);
                Attempt::Again
            }
            Poll::Ready(Err(_)) => {
                self.faults += 1;
                Attempt::Again
            }
            Poll::Pending => Attempt::Rest,
        }
    }
}

impl<I: Incoming, T: Starter<I::Stream>> Future for Accept<I, T> {
    ghost use Rattle.adc_sessions.specs.AcceptEnds.{AcceptsIn, OverBy, AcceptGives};

    type Output = AcceptEnd;

    ghost gives = { λ accept end. AcceptGives I.brings T.starts accept end };

    /// Accepts at most 16 streams. Where it is over, further polls say so again.
    fn poll(&mut self, cx: &mut Context<'_>) -> Poll<AcceptEnd>
        ensures accepts { AcceptsIn I.brings T.starts 16 self.old self.new }
        ensures over { IfReady result (λ end. OverBy end self.new) }
        ensures value { IfReady result (λ end. AcceptGives I.brings T.starts self.old end) }
        ensures same { OnPending result ((end : _) → AcceptGives I.brings T.starts self.new end → AcceptGives I.brings T.starts self.old end) }
        ensures registered { OnPending result (IsArmed cx.new) }
        ensures kept { Keeps cx.old cx.new }
    {
        for turn in 0..TURNS {
            match self.turn(cx) {
                Attempt::Again => {}
                Attempt::Rest => return Poll::Pending,
                Attempt::Over(end) => return Poll::Ready(end),
            }
        }
        cx.yield_now()
    }
}
