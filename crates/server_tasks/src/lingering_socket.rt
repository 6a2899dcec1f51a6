ghost use Rattle.std.specs.Prelude.{◌≡◌, ◌≤◌, ℕ, true, false};
ghost use Rattle.futures.specs.Task.{Keeps};
ghost use Rattle.server_tasks.specs.Lingers.{is_past, is_due, is_over, next_by};

use futures::task::{Context, Poll};
use std::io;
use std::time::Instant;
use tokio::io::{AsyncRead, AsyncWrite};

/// The number of bytes of a client that are read and dropped at most.
const MOST_BYTES: usize = 1_048_576;

/// The number of reads that one poll makes at most.
const READS: u8 = 16;

/// The number of bytes that one read may give.
const ROOM: usize = 4_096;

/// A socket whose session is over. Its client may still send, and is read until it ends: a socket that is closed with
/// bytes unread resets the connection, and what the client was told last is lost.
#[derive(Drop)]
pub(crate) struct LingeringSocket<S> {
    stream: S,
    soon: Instant,
    until: Instant,
    left: usize,
    is_shut: bool,
    // The client has ended, or sent more than is dropped.
    is_over: bool,
}

impl<S> LingeringSocket<S> {
    /// Gives the moment at which it is closed at the end.
    pub(crate) fn soon(&self) -> Instant
        ensures { result ≡ self.now.soon }
    {
        self.soon
    }

    /// Gives the moment at which it is closed at last.
    pub(crate) fn until(&self) -> Instant
        ensures { result ≡ self.now.until }
    {
        self.until
    }
}

impl<S: AsyncRead + AsyncWrite> LingeringSocket<S> {
    /// Holds a socket until the later moment at most, or at the end until the sooner one.
    pub(crate) fn new(stream: S, soon: Instant, until: Instant) -> LingeringSocket<S>
        ensures { result ≡ record { stream = stream; soon = soon; until = until; left = 1_048_576; is_shut = false; is_over = false } }
    {
        LingeringSocket {
            stream,
            soon,
            until,
            left: MOST_BYTES,
            is_shut: false,
            is_over: false,
        }
    }

    /// Ends what is sent, once.
    fn shut(&mut self, cx: &mut Context<'_>)
        ensures shut { self.new.is_shut ≡ true }
        ensures soon { self.new.soon ≡ self.old.soon }
        ensures until { self.new.until ≡ self.old.until }
        ensures left { self.new.left ≡ self.old.left }
        ensures over { self.new.is_over ≡ self.old.is_over }
        ensures kept { Keeps cx.old cx.new }
    {
        if !self.is_shut {
            // That this fails changes nothing.
            let _ = self.stream.poll_shutdown(cx);
            self.is_shut = true;
        }
    }

    /// Reads once, and tells what follows.
    fn read(&mut self, cx: &mut Context<'_>, bytes: &mut [u8]) -> NextStep
        ensures over { self.new.is_over ≡ is_over result }
        ensures again { (left : ℕ) → result ≡ NextStep.Again left → left ≤ self.old.left }
        ensures rest { self.new ≡ record self.old { stream = self.new.stream; is_over = self.new.is_over } }
        ensures kept { Keeps cx.old cx.new }
    {
        let next = next_of(&self.stream.poll_read(cx, bytes), self.left);
        self.is_over = next.is_over();
        next
    }

    /// Ends what is sent, then reads and drops. Answers whether it is to be held on.
    pub(crate) fn lingers(&mut self, cx: &mut Context<'_>, now: Instant, is_end: bool) -> bool
        ensures due { is_due self.old.soon self.old.until now is_end ≡ true → result ≡ false }
        ensures over { self.new.is_over ≡ true → result ≡ false }
        ensures soon { self.new.soon ≡ self.old.soon }
        ensures until { self.new.until ≡ self.old.until }
        ensures left { self.new.left ≤ self.old.left }
        ensures shut { result ≡ true → self.new.is_shut ≡ true }
        ensures kept { Keeps cx.old cx.new }
    {
        if self.is_over || is_due(self.soon, self.until, now, is_end) {
            return false;
        }
        self.shut(cx);
        let mut bytes = [0; ROOM];
        for read in 0..READS {
            match self.read(cx, &mut bytes) {
                NextStep::Again(left) => self.left = left,
                NextStep::Rest => return true,
                NextStep::Over => return false,
            }
        }
        let _: Poll<()> = cx.yield_now();
        true
    }
}

/// What follows a read.
pub(crate) enum NextStep {
    /// The socket is held no longer.
    Over,
    /// It is waited until there is more.
    Rest,
    /// There may be more, of which so many bytes are dropped at most.
    Again(usize),
}

impl NextStep {
    /// Answers whether the socket is held no longer.
    fn is_over(&self) -> bool
        ensures { result ≡ is_over self.now }
    {
        match self {
            NextStep::Over => true,
            NextStep::Rest | NextStep::Again(_) => false,
        }
    }
}

/// Tells what follows a read, where so many bytes are dropped at most.
fn next_of(read: &Poll<io::Result<usize>>, left: usize) -> NextStep
    ensures { result ≡ next_by read.now left }
{
    match read {
        Poll::Ready(Ok(0)) | Poll::Ready(Err(_)) => NextStep::Over,
        Poll::Ready(Ok(count)) => match left.checked_sub(*count) {
            Some(left) => NextStep::Again(left),
            None => NextStep::Over,
        },
        Poll::Pending => NextStep::Rest,
    }
}

/// Answers whether the moment is past, or now.
pub(crate) fn is_past(moment: Instant, now: Instant) -> bool
    ensures { result ≡ is_past moment now }
{
    now.checked_duration_since(moment).is_some()
}

/// Answers whether a socket is held no longer, that is held until the later moment at most, or at the end until the sooner.
fn is_due(soon: Instant, until: Instant, now: Instant, is_end: bool) -> bool
    ensures { result ≡ is_due soon until now is_end }
{
    is_past(until, now) || is_end && is_past(soon, now)
}
