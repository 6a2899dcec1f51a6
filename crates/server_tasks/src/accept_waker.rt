ghost use Rattle.std.specs.Prelude.{◌≡◌, ◌⊎◌, true, false, not, None, IsSomeAnd, if◌then◌else◌};
ghost use Rattle.futures.specs.Task.{IsArmed, Keeps, Wakes};

use futures::task::{Context, Poll, Source, Waker};

/// The waker of the task that accepts connections.
#[derive(Drop)]
pub(crate) struct AcceptWaker {
    waker: Option<Waker>,
    // A socket was closed since the listener began to rest.
    has_room: bool,
    // The task has ended.
    is_gone: bool,
}

impl AcceptWaker {
    /// Makes that of a task which has not begun.
    pub(crate) fn new() -> AcceptWaker
        ensures { result ≡ record { waker = None; has_room = true; is_gone = false } }
    {
        AcceptWaker {
            waker: None,
            has_room: true,
            is_gone: false,
        }
    }

    /// Keeps the task's waker until it is called.
    pub(crate) fn wait(&mut self, cx: &mut Context<'_>, source: &Source)
        ensures rests { (cx.new.lacks_waker ≡ true) ⊎ IsSomeAnd self.new.waker (λ waker. Wakes waker cx.old) }
        ensures same { self.new ≡ record self.old { waker = self.new.waker } }
        ensures registered { IsArmed cx.new }
        ensures kept { Keeps cx.old cx.new }
    {
        let _: Poll<()> = cx.register(source, &mut self.waker);
    }

    /// Wakes the task. Answers whether there is one.
    pub(crate) fn call(&mut self) -> bool
        ensures there { result ≡ not self.old.is_gone }
        ensures woken { self.new ≡ record self.old { waker = None } }
    {
        self.waker = None;
        !self.is_gone
    }

    /// Stops using the task as a helper, once it has ended.
    pub(crate) fn leave(&mut self)
        ensures { self.new ≡ record self.old { waker = None; is_gone = true } }
    {
        self.waker = None;
        self.is_gone = true;
    }

    /// Notes that the listener begins to rest.
    pub(crate) fn rest(&mut self)
        ensures { self.new ≡ record self.old { has_room = false } }
    {
        self.has_room = false;
    }

    /// Notes that a socket was closed, so that another may be had. Only a listener that rests is woken.
    pub(crate) fn make_room(&mut self)
        ensures { self.new ≡ (if self.old.has_room then self.old else record self.old { has_room = true; waker = None }) }
    {
        if !self.has_room {
            self.has_room = true;
            self.waker = None;
        }
    }

    /// Answers whether a socket was closed since the listener began to rest. Where none was, the task is woken once one is.
    pub(crate) fn wait_for_room(&mut self, cx: &mut Context<'_>, source: &Source) -> bool
        ensures room { result ≡ self.old.has_room }
        ensures rests { result ≡ false → (cx.new.lacks_waker ≡ true) ⊎ IsSomeAnd self.new.waker (λ waker. Wakes waker cx.old) }
        ensures same { self.new ≡ record self.old { waker = self.new.waker } }
        ensures registered { result ≡ false → IsArmed cx.new }
        ensures kept { Keeps cx.old cx.new }
    {
        if self.has_room {
            return true;
        }
        self.wait(cx, source);
        false
    }
}
