ghost use Rattle.std.specs.Prelude.{◌≡◌, ◌⊎◌, true, false, None, IsSomeAnd};
ghost use Rattle.futures.specs.Task.{IsArmed, Keeps, Wakes};
ghost use Rattle.server_tasks.specs.Life.{opened, closed, opening, answer_of};
ghost use Rattle.futures.specs.Poll.{OnPending};

use futures::task::{Context, Poll, Source, Waker};
use std::marker::Model;

/// The cause for which a server ends before all were served that it was to serve.
#[derive(Clone, Copy, Debug, PartialEq, Eq)]
pub enum ServerFault {
    /// Not all tasks of the server could be had.
    Start,
    /// The address at which the server listens could not be said.
    Output,
    /// Accepting failed.
    Accepting,
}

/// The state of a server's life.
#[derive(Drop)]
pub(crate) struct LifecycleState {
    is_open: bool,
    is_closed: bool,
    fault: Option<ServerFault>,
    waker: Option<Waker>,
}

/// What a server was told or asked.
#[derive(Clone, Copy)]
pub enum Told {
    /// All of its tasks came to be.
    Open,
    /// Nobody comes any more, because of this where it is a fault.
    Closed(Option<ServerFault>),
    /// It was asked for the fault by which nobody comes any more, and told this.
    Asked(Option<ServerFault>),
}

/// The word of what a server was told or asked. Only its state gives it, under its lock. Contracts see what that was.
#[derive(Drop)]
pub struct Word {
    told: Told,
}

impl Model for Word {
    ghost use Rattle.server_tasks.specs.declared.state.Told.{Told};

    ghost Value = { Told };

    ghost view = { λ word. word.told };
}

/// The word that a server is open: all of its tasks came to be. Only its state gives it, under its lock.
#[derive(Clone, Copy)]
pub struct Opened(());

impl LifecycleState {
    pub(crate) fn new() -> LifecycleState
        ensures { result ≡ record { is_open = false; is_closed = false; fault = None; waker = None } }
    {
        LifecycleState {
            is_open: false,
            is_closed: false,
            fault: None,
            waker: None,
        }
    }

    /// Gives the first fault, where there was one, with the word of it.
    pub(crate) fn fault(&self) -> (Word, Option<ServerFault>)
        ensures word { result.0 ≡ Told.Asked result.1 }
        ensures fault { result.1 ≡ self.now.fault }
    {
        let word = Word {
            told: Told::Asked(self.fault),
        };
        (word, self.fault)
    }

    /// Opens the server, and wakes who waits for it.
    pub(crate) fn open(&mut self) -> Word
        ensures opened { self.new ≡ opened self.old }
        ensures word { result ≡ Told.Open }
    {
        self.is_open = true;
        self.waker = None;
        Word { told: Told::Open }
    }

    /// Closes the server, and wakes who waits for it.
    pub(crate) fn close(&mut self, fault: Option<ServerFault>) -> Word
        ensures closed { self.new ≡ closed fault self.old }
        ensures word { result ≡ Told.Closed fault }
    {
        self.is_closed = true;
        self.fault = self.fault.or(fault);
        self.waker = None;
        Word {
            told: Told::Closed(fault),
        }
    }

    /// Waits until it is open or closed, and gives the word that it is open, where it is.
    pub(crate) fn poll_open(
        &mut self,
        cx: &mut Context<'_>,
        source: &Source,
    ) -> Poll<Option<Opened>>
        ensures answered { answer_of result ≡ opening self.old }
        ensures rests { OnPending result ((cx.new.lacks_waker ≡ true) ⊎ IsSomeAnd self.new.waker (λ waker. Wakes waker cx.old)) }
        ensures registered { OnPending result (IsArmed cx.new) }
        ensures kept { Keeps cx.old cx.new }
        ensures life { self.new ≡ record self.old { waker = self.new.waker } }
    {
        if self.is_closed {
            return Poll::Ready(None);
        }
        if self.is_open {
            return Poll::Ready(Some(Opened(())));
        }
        cx.register(source, &mut self.waker)
    }
}
