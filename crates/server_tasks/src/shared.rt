ghost use Rattle.std.specs.Prelude.{◌≡◌, true, Some, None, IfOk, IfErr};
ghost use Rattle.futures.specs.Task.{IsArmed, Keeps};
ghost use Rattle.futures.specs.Poll.{OnPending};
ghost use Rattle.server_tasks.specs.declared.state.ServerFault.TheVariants.{Start};

use crate::handoff::Handoff;
use crate::held::TickerWoken;
use crate::left::LeftPlaces;
use crate::lifecycle::Lifecycle;
use crate::lingering::Lingering;
use crate::places::{PlacesDeed, PlacesWord};
use crate::slots::Receipt;
use crate::state::{Opened, ServerFault, Told, Word};
use crate::wakers::Wakers;
use futures::spin::GaveUp;
use futures::task::{Context, Poll};
use std::alloc::{AllocError, Global};
use std::marker::Model;
use std::sync::Wait;
use tokio::io::{AsyncRead, AsyncWrite};

/// All that the tasks of a server share beside its hub: whatever they need of memory to find one another. `T` is what is handed
/// from task to task for a connection that was accepted, and `S` its stream. A `T` may be a value that may not be dropped: so
/// `into_left` ends all this, and gives back the connections that no task took.
pub struct Shared<T, S> {
    /// The wakers of the slots.
    pub wakers: Wakers,
    /// The places in which accepted connections wait for the tasks of their slots.
    pub handoff: Handoff<T>,
    /// The sockets whose last lines are on the way.
    pub lingering: Lingering<S>,
    lifecycle: Lifecycle,
}

/// The word that a server is closed, and that all tasks were woken that rested. Contracts see what the server was told.
#[derive(Drop)]
pub struct Closed {
    word: Word,
    helper: Receipt,
    places: PlacesWord,
    ticker: TickerWoken,
}

impl Model for Closed {
    ghost use Rattle.std.specs.Prelude.{◌≡◌};
    ghost use Rattle.server_tasks.specs.declared.state.Told.{Told};
    ghost use Rattle.server_tasks.specs.declared.places.PlacesDeed.TheVariants.{NobodyComes};
    ghost use Rattle.server_tasks.specs.declared.slots.SlotEvent.TheVariants.{HelpEnded};

    ghost Value = { Told };

    ghost view = { λ closed. closed.word };

    ghost invariant = { λ closed. (closed.helper ≡ HelpEnded) × (closed.places ≡ NobodyComes) };
}

/// The word that the task of a slot has ended, and that the ticker was woken, which ends after all of them.
#[derive(Drop)]
pub struct OneEnded {
    task: PlacesWord,
    ticker: TickerWoken,
}

impl Model for OneEnded {
    ghost use Rattle.server_tasks.specs.declared.places.PlacesDeed.{PlacesDeed};

    ghost Value = { PlacesDeed };

    ghost view = { λ ended. ended.task };
}

/// What was seen of those who are served. A server whose tasks could not all be had serves nobody.
#[derive(Clone, Copy)]
pub(crate) struct ServedCount {
    is_over: bool,
    fault: Option<ServerFault>,
    ghost started: { fault ≡ Some Start → is_over ≡ true },
}

impl ServedCount {
    /// Answers whether nobody is served any more, and nobody will be.
    pub(crate) fn is_over(self) -> bool
        ensures { result ≡ self.is_over }
    {
        self.is_over
    }
}

impl<T, S: Drop> Shared<T, S> {
    /// Ends it, and gives the connections that were left for a task and not taken, with the word of it.
    pub fn into_left(self) -> (PlacesWord, LeftPlaces<T>)
        ensures { result.0 ≡ PlacesDeed.Emptied }
    {
        let Shared {
            wakers,
            handoff,
            lingering,
            lifecycle,
        } = self;
        drop(wakers);
        drop(lingering);
        drop(lifecycle);
        handoff.into_left()
    }
}

impl<T, S: AsyncRead + AsyncWrite> Shared<T, S> {
    /// Makes all that is shared for `count` slots. Refused only where memory runs out.
    pub fn new(alloc: Global, count: usize) -> Result<Shared<T, S>, AllocError>
        ensures { IfOk result (λ shared. shared.wakers.count ≡ count) }
    {
        let wakers = Wakers::new(alloc, count)?;
        let lingering = Lingering::new(alloc)?;
        // It comes last: it may not be dropped where memory runs out.
        let handoff = Handoff::new(alloc, count)?;
        Ok(Shared {
            wakers,
            handoff,
            lingering,
            lifecycle: Lifecycle::new(),
        })
    }
}

impl<T, S> Shared<T, S> {
    /// Opens the server, all of whose tasks came to be, and gives the word that it is open.
    pub fn open(&self) -> Result<Word, GaveUp>
        ensures { IfOk result (λ word. word ≡ Told.Open) }
    {
        self.lifecycle.open()
    }

    /// Lets no more connections come, because of this where it is a fault, and gives the word of it. All tasks end once their
    /// sessions have.
    pub fn close<R: Wait>(&self, rt: &R, fault: Option<ServerFault>) -> Result<Closed, GaveUp>
        ensures { IfOk result (λ closed. closed ≡ Told.Closed fault) }
    {
        let word = self.lifecycle.close(fault);
        let helper = self.wakers.end_help_by();
        let places = self.handoff.close(rt);
        let ticker = self.lingering.wake_ticker(rt);
        Ok(Closed {
            word: word?,
            helper: helper?,
            places,
            ticker,
        })
    }

    /// Waits until the server is open or closed, and gives the word that it is open, where it is.
    pub fn poll_open(&self, cx: &mut Context<'_>) -> Poll<Option<Opened>>
        ensures registered { OnPending result (IsArmed cx.new) }
        ensures kept { Keeps cx.old cx.new }
    {
        self.lifecycle.poll_open(cx)
    }

    /// Notes that the task of a slot has ended, and gives the word of it.
    pub fn end_one<R: Wait>(&self, rt: &R) -> OneEnded
        ensures { result ≡ PlacesDeed.TaskEnded }
    {
        let task = self.handoff.end_one(rt);
        let ticker = self.lingering.wake_ticker(rt);
        OneEnded { task, ticker }
    }

    /// Answers whether nobody is served any more, and nobody will be.
    pub(crate) fn is_over<R: Wait>(&self, rt: &R) -> bool {
        self.served(rt).is_over()
    }

    /// Looks whether nobody is served any more, and nobody will be.
    pub(crate) fn served<R: Wait>(&self, rt: &R) -> ServedCount {
        let (_, fault) = self.lifecycle.fault();
        let is_over = match fault {
            Some(ServerFault::Start) => true,
            _ => self.handoff.is_over(rt),
        };
        ServedCount { is_over, fault }
    }

    /// Gives why no more connections came, where that was a fault, with the word of it.
    pub fn fault(&self) -> (Result<Word, GaveUp>, Option<ServerFault>)
        ensures word { IfOk result.0 (λ word. word ≡ Told.Asked result.1) }
        ensures unseen { IfErr result.0 (λ _. result.1 ≡ None) }
    {
        self.lifecycle.fault()
    }
}
