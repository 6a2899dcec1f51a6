ghost use Rattle.std.specs.Prelude.{◌≡◌, None, IfOk, IfErr};
ghost use Rattle.futures.specs.Task.{IsArmed, Keeps};
ghost use Rattle.futures.specs.Poll.{OnPending};

use crate::state::{LifecycleState, Opened, ServerFault, Told, Word};
use futures::spin::{GaveUp, lock, lock_or_give_up};
use futures::task::{Context, Poll, Source};
use std::sync::Mutex;

/// The lifecycle of a server: it opens once all of its tasks came to be, and is closed once it accepts no more.
#[derive(Drop)]
pub(crate) struct Lifecycle {
    source: Source,
    state: Mutex<LifecycleState>,
}

impl Lifecycle {
    /// Makes that of a server whose tasks are still to come.
    pub(crate) fn new() -> Lifecycle {
        Lifecycle {
            source: Source::new(),
            state: Mutex::new(LifecycleState::new()),
        }
    }

    /// Opens the server, all of whose tasks came to be, and gives the word that it is open.
    pub(crate) fn open(&self) -> Result<Word, GaveUp>
        ensures { IfOk result (λ word. word ≡ Told.Open) }
    {
        let mut state = lock_or_give_up(&self.state)?;
        Ok(state.open())
    }

    /// Closes the server, because of this where it is a fault, and gives the word that it is closed. The first fault counts.
    pub(crate) fn close(&self, fault: Option<ServerFault>) -> Result<Word, GaveUp>
        ensures { IfOk result (λ word. word ≡ Told.Closed fault) }
    {
        let mut state = lock_or_give_up(&self.state)?;
        Ok(state.close(fault))
    }

    /// Gives the fault, where there was one, with the word of it.
    pub(crate) fn fault(&self) -> (Result<Word, GaveUp>, Option<ServerFault>)
        ensures word { IfOk result.0 (λ word. word ≡ Told.Asked result.1) }
        ensures unseen { IfErr result.0 (λ _. result.1 ≡ None) }
    {
        match lock_or_give_up(&self.state) {
            Ok(state) => {
                let (word, fault) = state.fault();
                (Ok(word), fault)
            }
            Err(given_up) => (Err(given_up), None),
        }
    }

    /// Waits until it is open or closed, and gives the word that it is open, where it is.
    pub(crate) fn poll_open(&self, cx: &mut Context<'_>) -> Poll<Option<Opened>>
        ensures registered { OnPending result (IsArmed cx.new) }
        ensures kept { Keeps cx.old cx.new }
    {
        match lock(&self.state) {
            Some(mut state) => state.poll_open(cx, &self.source),
            None => cx.yield_now(),
        }
    }
}
