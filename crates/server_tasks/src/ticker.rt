ghost use Rattle.std.specs.Prelude.{◌≡◌, ◌≤◌, ◌⊎◌, true, false, Some, None, IsSome};
ghost use Rattle.std.specs.Option.{ForSome};
ghost use Rattle.std.specs.Result.{ForOk};
ghost use Rattle.std.specs.Duration.{as_nanos};
ghost use Rattle.futures.specs.Task.{IsArmed, Keeps};
ghost use Rattle.futures.specs.Poll.{IfReady, OnPending};
ghost use Rattle.server_tasks.specs.Cries.{once_more};
ghost use Rattle.server_tasks.specs.Ticks.{IsOfFewTicks, ticks_between, ticks_of};

use crate::clock::NoClock;
use crate::cries::Cries;
use crate::held::Lingered;
use crate::shared::{ServedCount, Shared};
use crate::slots::Receipt;
use futures::spin::GaveUp;
use futures::task::{Context, Poll};
use std::sync::Wait;
use std::time::{Clock, Duration, Instant};
use tokio::io::{AsyncRead, AsyncWrite};
use tokio::time::Sleep;

/// The number of milliseconds that a tick takes.
const TICK: u64 = 5;

/// The number of ticks that are due at once at most: where the machine itself stood still, nobody could read.
const MOST_DUE: u64 = 20;

/// The task that keeps time while somebody gives way or lingers: every 5 ms it wakes those who give way, and closes the
/// sockets that have lingered for long. Where everybody was woken, it wakes one portion after the other. Otherwise it rests.
pub struct Ticker<'a, T, S, R> {
    shared: &'a Shared<T, S>,
    rt: &'a R,
    timer: Sleep,
    // The moment of the last tick.
    ticked: Option<Instant>,
    cries: Cries,
    // The receipt of the last tick.
    told: Option<Result<Receipt, GaveUp>>,
    // The word that all is over, once it is.
    over: Option<Over>,
    ghost few: { ForSome told (λ told. ForOk told IsOfFewTicks) },
}

/// The word that all is over: nobody is served any more, and nobody lingers, as far as the clock tells.
#[derive(Clone, Copy)]
struct Over {
    served: ServedCount,
    lingered: Result<Lingered, NoClock>,
    ghost nobody_served: { served.is_over ≡ true },
    ghost nobody_lingers: { ForOk lingered (λ seen. seen.some ≡ false) },
}

impl<'a, T, S, R> Drop for Ticker<'a, T, S, R> {
    fn drop(self) {
        let Ticker {
            shared: _,
            rt: _,
            timer,
            ticked: _,
            cries: _,
            told,
            over: _,
        } = self;
        drop(timer);
        drop(told);
    }
}

impl<'a, T, S: AsyncRead + AsyncWrite, R: Wait + Clock> Ticker<'a, T, S, R> {
    /// Makes the task, which uses this timer, whatever it is set to.
    pub fn new(shared: &'a Shared<T, S>, rt: &'a R, timer: Sleep) -> Ticker<'a, T, S, R>
        ensures timer { result.timer ≡ timer }
        ensures over { result.over ≡ None }
    {
        Ticker {
            shared,
            rt,
            timer,
            ticked: None,
            cries: Cries::none(),
            told: None,
            over: None,
        }
    }

    /// Works as a task does: it cries once, and asks for another poll where somebody is left. It is over once nobody is served
    /// any more, and nobody lingers.
    pub fn poll_over(&mut self, cx: &mut Context<'_>) -> Poll<()>
        ensures cried { self.new.cries.count ≡ once_more self.old.cries.count }
        ensures goes_on { OnPending result (self.new.cries.has_more ≡ true → cx.new.is_woken ≡ true) }
        ensures over { IfReady result (λ _. IsSome self.new.over) }
        ensures registered { OnPending result (IsArmed cx.new) }
        ensures kept { Keeps cx.old cx.new }
    {
        let cried = self.shared.wakers.cry(cx);
        let has_more = self.cries.count(cried);
        match self.poll_end(cx) {
            Poll::Ready(over) => {
                self.over = Some(over);
                Poll::Ready(())
            }
            Poll::Pending if has_more => cx.yield_now(),
            Poll::Pending => Poll::Pending,
        }
    }

    /// Ticks as a task does, and gives the word that all is over.
    fn poll_end(&mut self, cx: &mut Context<'_>) -> Poll<Over>
        ensures cries { self.new.cries ≡ self.old.cries }
        ensures registered { OnPending result (IsArmed cx.new) }
        ensures kept { Keeps cx.old cx.new }
    {
        let is_end = self.shared.is_over(self.rt);
        let lingered = self.shared.lingering.poll_lingering(self.rt, cx, is_end);
        if let Ok(seen) = &lingered
            && seen.some()
        {
            return self.wait(cx);
        }
        // It is asked again: what ends before the waker stands wakes nobody.
        let served = self.shared.served(self.rt);
        if served.is_over() {
            return Poll::Ready(Over { served, lingered });
        }
        if self.shared.wakers.has_throttled(cx) {
            return self.wait(cx);
        }
        Poll::Pending
    }

    /// Waits for the next tick, or makes it.
    fn wait(&mut self, cx: &mut Context<'_>) -> Poll<Over>
        ensures waits { result ≡ Poll.Pending }
        ensures cries { self.new.cries ≡ self.old.cries }
        ensures registered { OnPending result (IsArmed cx.new) }
        ensures kept { Keeps cx.old cx.new }
    {
        match self.timer.poll_elapsed(cx) {
            Poll::Pending => Poll::Pending,
            Poll::Ready(_) => {
                let due = self.due();
                self.told = Some(self.shared.wakers.tick_by(seconds(self.rt), due));
                self.set();
                cx.yield_now()
            }
        }
    }

    /// Counts the ticks that were due since the last one, which on a busy machine are more than one.
    fn due(&mut self) -> u64
        ensures cries { self.new.cries ≡ self.old.cries }
        ensures few { result ≤ 20 }
        ensures since { (before now : Instant) → self.old.ticked ≡ Some before → self.new.ticked ≡ Some now
            → (result ≡ 1) ⊎ (result ≡ ticks_between before now) }
    {
        let Ok(now) = Instant::now(self.rt) else {
            return 1;
        };
        let due = due_since(self.ticked, now);
        self.ticked = Some(now);
        due
    }

    fn set(&mut self)
        ensures { self.new.cries ≡ self.old.cries }
    {
        if let Ok(now) = Instant::now(self.rt)
            && let Some(next) = now.checked_add(Duration::from_millis(TICK))
        {
            self.timer.reset(next);
        }
    }
}

/// Counts the ticks that are due now, where the last one was at that moment: one where there was none.
fn due_since(before: Option<Instant>, now: Instant) -> u64
    ensures few { result ≤ 20 }
    ensures first { before ≡ None → result ≡ 1 }
    ensures later { (moment : Instant) → before ≡ Some moment → result ≡ ticks_between moment now }
{
    match before {
        Some(moment) => ticks_in(now.saturating_duration_since(moment)),
        None => 1,
    }
}

/// Counts the ticks in so much time: one at least, and 20 at most.
fn ticks_in(passed: Duration) -> u64
    ensures few { result ≤ 20 }
    ensures ticks { result ≡ ticks_of (as_nanos passed) }
{
    let ticks = passed.as_millis() / u128::from(TICK);
    if ticks > u128::from(MOST_DUE) {
        return MOST_DUE;
    }
    (ticks as u64).max(1)
}

/// Gives the seconds since 1970; 0 where the clock cannot be read.
fn seconds<R: Clock>(rt: &R) -> u64 {
    match rt.since_1970() {
        Ok(time) => time.as_secs(),
        Err(_) => 0,
    }
}
