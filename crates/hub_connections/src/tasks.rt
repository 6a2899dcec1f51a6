ghost use Rattle.std.specs.Prelude.{◌≡◌, ◌+◌, ◌≤◌, None, IfSome};

use crate::accepted::AcceptedConnection;
use crate::free_slot::OfHub;
use crate::port::HubPort;
use crate::server::Server;
use crate::task::{AcceptTask, SlotTask, Task};
use crate::ticket::Ticket;
use futures::Stream;
use futures::task::{Context, Poll};
use hub_listener::{Moments, Socket};
use hub_warnings::Warnings;
use log::Log;
use server_tasks::{Startup, Ticker};
use session_hash::SessionHash;
use std::alloc::AllocGlobal;
use std::io::Write;
use std::sync::Wait;
use std::time::Clock;

/// All tasks of the server, which are made before it opens: the one that keeps time, one for each slot, and at last the one
/// that accepts connections. So what comes later needs no memory for a task.
pub struct Tasks<
    'a,
    B: OfHub<H, S>,
    S: adc_sessions::Stream,
    T: Ticket<S, H, C>,
    H: SessionHash,
    R: Wait + Clock + AllocGlobal,
    C: Moments,
    L: Log,
    I: HubPort<S, T, H, C>,
    W,
> {
    ticker: Option<Ticker<'a, AcceptedConnection<B, S, T, H, C>, S, R>>,
    // The slot of the next task, and how many slots there are.
    next: usize,
    count: usize,
    accept: Option<AcceptTask<'a, B, S, T, H, R, C, L, I>>,
    startup: Startup<'a, AcceptedConnection<B, S, T, H, C>, S, R, W>,
    server: &'a Server<'a, B, S, T, H, R, C>,
    warnings: &'a Warnings<L>,
}

impl<
    'a,
    B: OfHub<H, S>,
    S: adc_sessions::Stream,
    T: Ticket<S, H, C>,
    H: SessionHash,
    R: Wait + Clock + AllocGlobal,
    C: Moments,
    L: Log,
    I: HubPort<S, T, H, C>,
    W,
> Drop for Tasks<'a, B, S, T, H, R, C, L, I, W> {
    fn drop(self) {
        let Tasks {
            ticker,
            next: _,
            count: _,
            accept,
            startup,
            server: _,
            warnings: _,
        } = self;
        drop(ticker);
        drop(accept);
        drop(startup);
    }
}

impl<
    'a,
    B: OfHub<H, S>,
    S: Socket,
    T: Ticket<S, H, C>,
    H: SessionHash,
    R: Wait + Clock + AllocGlobal,
    C: Moments,
    L: Log,
    I: HubPort<S, T, H, C>,
    W: Write,
> Tasks<'a, B, S, T, H, R, C, L, I, W> {
    /// Makes the tasks for so many slots.
    pub(crate) fn new(
        ticker: Ticker<'a, AcceptedConnection<B, S, T, H, C>, S, R>,
        count: usize,
        accept: AcceptTask<'a, B, S, T, H, R, C, L, I>,
        startup: Startup<'a, AcceptedConnection<B, S, T, H, C>, S, R, W>,
        server: &'a Server<'a, B, S, T, H, R, C>,
        warnings: &'a Warnings<L>,
    ) -> Tasks<'a, B, S, T, H, R, C, L, I, W> {
        Tasks {
            ticker: Some(ticker),
            next: 0,
            count,
            accept: Some(accept),
            startup,
            server,
            warnings,
        }
    }

    /// Makes the task of the next slot, or nothing where each has one.
    fn next_slot(&mut self) -> Option<SlotTask<'a, B, S, T, H, R, C, L>>
        ensures slot { IfSome result (λ task. task.slot ≡ self.old.next) }
        ensures next { IfSome result (λ _. self.new.next ≡ self.old.next + 1) }
        ensures all { result ≡ None → self.old.count ≤ self.old.next }
    {
        let slot = self.next;
        if slot >= self.count {
            return None;
        }
        self.next = slot + 1;
        Some(SlotTask::new(self.server, slot, self.warnings))
    }
}

impl<
    'a,
    B: OfHub<H, S>,
    S: Socket,
    T: Ticket<S, H, C>,
    H: SessionHash,
    R: Wait + Clock + AllocGlobal,
    C: Moments,
    L: Log,
    I: HubPort<S, T, H, C>,
    W: Write,
> Stream for Tasks<'a, B, S, T, H, R, C, L, I, W> {
    type Item = Task<'a, B, S, T, H, R, C, L, I>;

    /// Gives the next task. It ends once all tasks came to be; then the server opens.
    fn poll_next(&mut self, _cx: &mut Context<'_>) -> Poll<Option<Self::Item>> {
        if let Some(ticker) = self.ticker.take() {
            return Poll::Ready(Some(Task::Ticking(ticker)));
        }
        if let Some(task) = self.next_slot() {
            return Poll::Ready(Some(Task::Serving(task)));
        }
        if let Some(accept) = self.accept.take() {
            return Poll::Ready(Some(Task::Accepting(accept)));
        }
        self.startup.open();
        Poll::Ready(None)
    }
}
