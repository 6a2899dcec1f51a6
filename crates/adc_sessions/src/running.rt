ghost use Rattle.std.specs.Prelude.{◌≡◌, ◌≢◌, ◌⊎◌, ◌≤◌, true, false, [], length, drop, Some, IsSome, IsSomeAnd};
ghost use Rattle.futures.specs.Task.{IsArmed, Keeps};
ghost use Rattle.futures.specs.Poll.{OnPending};
ghost use Rattle.adc_line.specs.Frames.{HasNoLf};
ghost use Rattle.adc_line.specs.Stream.{IsLine};

mod transfer;

use self::transfer::BATCH;
use crate::bell::Bell;
use crate::ending::End;
use crate::port::Port;
use crate::stream::Stream;
use adc_line::{Framer, Next};
use futures::task::{Context, Poll};
use hub_rules::Verdict;
use outboxes::Taken;
use std::alloc::Global;
use tokio::io::{AsyncRead, AsyncWrite};

/// The number of bytes for output that a session keeps room for while it rests.
const KEPT: usize = 512;

/// The number of turns that one poll makes at most.
const TURNS: u8 = 64;

/// The outcome of a turn.
#[derive(Clone, Copy, PartialEq, Eq)]
pub(crate) enum Turn {
    /// A turn after which another may follow at once.
    Again,
    /// A turn after which nothing can be done before the task is woken.
    Rest,
    /// The session is over.
    Over(End),
}

/// A session that runs.
#[derive(Drop)]
pub(crate) struct Live<S, P, B> {
    alloc: Global,
    stream: S,
    port: P,
    bell: B,
    framer: Framer,
    line: Vec<u8>,
    input: Vec<u8>,
    // The bytes from `written` on were taken and are not written yet.
    output: Vec<u8>,
    written: usize,
    // The number of lines that the next take asks for.
    batch: usize,
    has_met_end: bool,
    // The port said that it hears nothing more.
    is_over: bool,
    taken: Option<Taken>,
    // The poll began, and made no take yet.
    is_fresh: bool,
    // Lines may wait, whatever the bell says: so a take has to follow.
    owes_take: bool,
    // No read was tried since the last take of this poll, so that one is next.
    reads_next: bool,
    // Whether the bell had been rung when it was last heard in this poll: if not, it wakes the task.
    rung: Option<bool>,
    // Whether the bell said that a line may be handed over when it was last asked in this poll, and since the last line.
    may_hand: Option<bool>,
    // A line feed was read since the framer last had no whole line.
    may_have_line: bool,
    // The stream would take nothing when it was last written.
    is_full: bool,
    ghost in_range: { written ≤ length output.items },
    ghost has_room: { 256 ≤ length input.items },
    ghost reads_few: { length input.items ≤ 2_048 },
    ghost takes_some: { 1 ≤ batch },
    ghost takes_few: { batch ≤ 256 },
    ghost holds_line: { may_hand ≡ Some false → may_have_line ≡ true },
    ghost has_none: { may_have_line ≡ false → HasNoLf framer },
    ghost begins: { is_fresh ≡ true → reads_next ≡ false },
}

impl<S: AsyncRead + AsyncWrite, P: Port, B: Bell> Live<S, P, B> {
    ghost use Rattle.adc_sessions.specs.Polls.{most_kept, ActsBy, Turned, PolledBy};
    ghost use Rattle.adc_sessions.specs.State.{state_of, poll_of, polling, room_of, fresh, with_line};

    /// Makes a session of which nothing was read, taken or written, with room for one read.
    pub(crate) fn new(alloc: Global, stream: S, port: P, bell: B, input: Vec<u8>) -> Live<S, P, B>
        requires some { 256 ≤ length input.items }
        requires few { length input.items ≤ 2_048 }
        ensures { state_of result ≡ fresh stream port }
    {
        Live {
            alloc,
            stream,
            port,
            bell,
            framer: Framer::new(alloc),
            line: Vec::new(alloc),
            input,
            output: Vec::new(alloc),
            written: 0,
            batch: BATCH,
            has_met_end: false,
            is_over: false,
            taken: None,
            is_fresh: true,
            owes_take: true,
            reads_next: false,
            rung: None,
            may_hand: None,
            may_have_line: false,
            is_full: false,
        }
    }

    /// Makes up to 64 turns, each of which makes at most one call of the stream or the port. It rests before only where the stream
    /// would not take what waits, or where nothing is left to do.
    pub(crate) fn run(&mut self, cx: &mut Context<'_>) -> Poll<End>
        ensures polled { PolledBy ⟦<S as Stream>⟧.reports P.step B.hears 64 (polling self.old) result (poll_of self.new) cx.new.is_woken (room_of self.new) }
        ensures registered { OnPending result (IsArmed cx.new) }
        ensures kept { Keeps cx.old cx.new }
    {
        self.begin();
        for turn in 0..TURNS {
            match self.turn(cx) {
                Turn::Again => {}
                Turn::Rest => {
                    self.shed();
                    return Poll::Pending;
                }
                Turn::Over(end) => return Poll::Ready(end),
            }
        }
        cx.yield_now()
    }

    /// Begins a poll. What the bell said in the one before does not count.
    fn begin(&mut self)
        ensures { poll_of self.new ≡ polling self.old }
    {
        self.reads_next = false;
        self.is_fresh = true;
        self.may_hand = None;
        self.rung = None;
    }

    /// Gives back the room that only a burst of lines needed, where nothing waits to be written: most sessions rest most of
    /// the time.
    fn shed(&mut self)
        ensures state { poll_of self.new ≡ poll_of self.old }
        ensures little { drop self.old.written self.old.output.items ≡ [] → room_of self.new ≤ most_kept }
    {
        if self.written < self.output.len() {
            return;
        }
        if self.output.capacity() > KEPT {
            self.output = Vec::new(self.alloc);
            self.written = 0;
        }
    }

    /// Quits, and gives the stream back.
    pub(crate) fn leave(self) -> (S, P::Left)
        ensures stream { result.0 ≡ self.stream }
        ensures left { P.leaves self.port result.1 }
    {
        (self.stream, self.port.quit())
    }

    /// Makes one turn. Bytes that wait to be written go first; then the take that each poll makes; then lines.
    fn turn(&mut self, cx: &mut Context<'_>) -> Turn
        ensures turned { Turned ⟦<S as Stream>⟧.reports P.step B.hears (poll_of self.old) result (poll_of self.new) }
        ensures registered { result ≡ Turn.Rest → IsArmed cx.new }
        ensures kept { Keeps cx.old cx.new }
    {
        if self.written < self.output.len() {
            return self.write(cx);
        }
        if has_ended(&self.taken) {
            return Turn::Over(End::Ended);
        }
        if self.is_fresh {
            self.listen(cx);
            return self.take();
        }
        if self.is_over {
            return self.wait_to_take(cx);
        }
        if self.is_held() {
            return self.wait_to_take(cx);
        }
        self.advance(cx)
    }

    /// Asks the bell whether a line may be handed over, where one may be there, and answers whether it may not.
    fn is_held(&mut self) -> bool
        ensures state { state_of self.new ≡ state_of self.old }
        ensures rest { (self.new.is_fresh ≡ self.old.is_fresh) × (self.new.written ≡ self.old.written) × (self.new.output ≡ self.old.output) }
        ensures acts { ActsBy ⟦<S as Stream>⟧.reports P.step B.hears 0 (poll_of self.old) (poll_of self.new) }
        ensures held { result ≡ true → self.new.may_hand ≡ Some false }
        ensures free { result ≡ false → self.new.may_have_line ≡ true → self.new.may_hand ≡ Some true }
    {
        if !self.may_have_line {
            return false;
        }
        let may_hand = self.bell.may_hand(self.framer.unread());
        self.may_hand = Some(may_hand);
        !may_hand
    }

    /// Hands over the next line, or looks for what else there is to do.
    fn advance(&mut self, cx: &mut Context<'_>) -> Turn
        requires written { length self.old.output.items ≤ self.old.written }
        requires heard { self.old.is_over ≡ false }
        requires free { self.old.may_have_line ≡ true → self.old.may_hand ≡ Some true }
        requires taken { self.old.is_fresh ≡ false }
        ensures turned { Turned ⟦<S as Stream>⟧.reports P.step B.hears (poll_of self.old) result (poll_of self.new) }
        ensures registered { result ≡ Turn.Rest → IsArmed cx.new }
        ensures kept { Keeps cx.old cx.new }
    {
        match self.framer.next(&mut self.line) {
            Ok(Next::Line) => self.hand(),
            Ok(Next::More) => {
                self.may_have_line = false;
                self.seek(cx)
            }
            Ok(Next::TooLong) => Turn::Over(End::TooLong),
            Err(_) => Turn::Over(End::Memory),
        }
    }

    /// Hears the bell.
    fn listen(&mut self, cx: &mut Context<'_>)
        ensures rest { self.new ≡ record self.old { bell = self.new.bell; rung = self.new.rung } }
        ensures acts { ActsBy ⟦<S as Stream>⟧.reports P.step B.hears 0 (poll_of self.old) (poll_of self.new) }
        ensures said { IsSome self.new.rung }
        ensures registered { self.new.rung ≡ Some false → IsArmed cx.new }
        ensures kept { Keeps cx.old cx.new }
    {
        self.rung = Some(self.bell.wait(cx));
    }

    /// Answers whether the bell had not been rung when it was heard in this poll.
    fn is_listening(&self) -> bool
        ensures silent { result ≡ true → self.now.rung ≡ Some false }
        ensures rung { result ≡ false → IsSome self.now.rung → self.now.rung ≡ Some true }
    {
        matches!(self.rung, Some(false))
    }

    /// Hands over the line that came out of the framer.
    fn hand(&mut self) -> Turn
        requires is_line { IsLine self.old.line.items }
        requires written { length self.old.output.items ≤ self.old.written }
        requires heard { self.old.is_over ≡ false }
        requires free { self.old.may_hand ≡ Some true }
        requires taken { self.old.is_fresh ≡ false }
        ensures turned { Turned ⟦<S as Stream>⟧.reports P.step B.hears (with_line self.old.line.items (poll_of self.old)) result (poll_of self.new) }
        ensures goes_on { result ≢ Turn.Rest }
    {
        self.owes_take = true;
        self.may_hand = None;
        match self.port.line(self.alloc, &self.line) {
            Ok(Verdict::Kept) => Turn::Again,
            Ok(Verdict::Ended) => {
                self.is_over = true;
                Turn::Again
            }
            Err(_) => Turn::Over(End::Memory),
        }
    }

    /// Waits for lines to take, where the port is to hear nothing now, or nothing more: what it still gives is written.
    fn wait_to_take(&mut self, cx: &mut Context<'_>) -> Turn
        requires written { length self.old.output.items ≤ self.old.written }
        requires waits { (self.old.is_over ≡ true) ⊎ (self.old.may_hand ≡ Some false) }
        requires taken { self.old.is_fresh ≡ false }
        ensures turned { Turned ⟦<S as Stream>⟧.reports P.step B.hears (poll_of self.old) result (poll_of self.new) }
        ensures registered { result ≡ Turn.Rest → IsArmed cx.new }
        ensures kept { Keeps cx.old cx.new }
    {
        self.listen(cx);
        if self.owes_take {
            return self.take();
        }
        if !self.is_listening() {
            return self.take();
        }
        Turn::Rest
    }

    /// Reads or takes, where no whole line is there. The two alternate, so that neither a bell that is always rung nor an
    /// input without end keeps the other side waiting.
    fn seek(&mut self, cx: &mut Context<'_>) -> Turn
        requires written { length self.old.output.items ≤ self.old.written }
        requires no_line { HasNoLf self.old.framer }
        requires heard { self.old.is_over ≡ false }
        requires free { self.old.may_hand ≢ Some false }
        requires taken { self.old.is_fresh ≡ false }
        ensures turned { Turned ⟦<S as Stream>⟧.reports P.step B.hears (poll_of self.old) result (poll_of self.new) }
        ensures registered { result ≡ Turn.Rest → IsArmed cx.new }
        ensures kept { Keeps cx.old cx.new }
    {
        if self.has_met_end {
            return self.drain();
        }
        if self.reads_next {
            return self.read(cx);
        }
        self.listen(cx);
        if self.owes_take {
            return self.take();
        }
        if !self.is_listening() {
            return self.take();
        }
        self.read(cx)
    }

    /// Takes until nothing comes, as the input is over.
    fn drain(&mut self) -> Turn
        requires written { length self.old.output.items ≤ self.old.written }
        requires no_line { HasNoLf self.old.framer }
        requires met { self.old.has_met_end ≡ true }
        requires taken { self.old.is_fresh ≡ false }
        ensures turned { Turned ⟦<S as Stream>⟧.reports P.step B.hears (poll_of self.old) result (poll_of self.new) }
        ensures goes_on { result ≢ Turn.Rest }
    {
        // The last lines may have answers.
        if self.owes_take {
            return self.take();
        }
        if has_given_nothing(&self.taken) {
            return Turn::Over(End::Closed);
        }
        self.take()
    }
}

/// Answers whether the last take said that nothing will follow.
fn has_ended(taken: &Option<Taken>) -> bool
    ensures { result ≡ true → IsSomeAnd taken.now (λ taken. taken.ended ≡ true) }
{
    match taken {
        Some(taken) => taken.ended,
        None => false,
    }
}

/// Answers whether the last take gave no line.
fn has_given_nothing(taken: &Option<Taken>) -> bool
    ensures nothing { result ≡ true → IsSomeAnd taken.now (λ taken. taken.lines ≡ 0) }
    ensures some { result ≡ false → IsSomeAnd taken.now (λ taken. taken.lines ≡ 0) → ⊥ }
{
    match taken {
        Some(taken) => taken.lines == 0,
        None => false,
    }
}
