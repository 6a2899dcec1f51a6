ghost use Rattle.std.specs.Prelude.{◌≡◌, ◌≢◌, ◌<◌, ◌≤◌, true, false, length, Some, IsSome};
ghost use Rattle.futures.specs.Task.{IsArmed, Keeps};
ghost use Rattle.adc_line.specs.Frames.{HasNoLf};

use crate::bell::Bell;
use crate::ending::End;
use crate::port::Port;
use crate::running::{Live, Turn};
use crate::stream::Stream;
use futures::task::{Context, Poll};
use memchr::memchr;
use tokio::io::{AsyncRead, AsyncWrite};

/// The number of lines that one take asks for at most.
pub(super) const BATCH: usize = 256;

/// The number of bytes that one take is to give, by what the lines before had: a stream that takes them slowly takes as many at
/// once, so that its client is heard between two takes, however much waits for it.
const TAKEN: u64 = 32_768;

/// The number of bytes that one read may give at most.
const MOST_ROOM: usize = 2_048;

// The calls by which bytes come in and go out.
impl<S: AsyncRead + AsyncWrite, P: Port, B: Bell> Live<S, P, B> {
    ghost use Rattle.adc_sessions.specs.Polls.{MayTakeAgain, WantsTake, Turned};
    ghost use Rattle.adc_sessions.specs.State.{poll_of};

    /// Takes what waits, once all that was taken before is written: so the output holds what one take gave
    /// and no more.
    pub(super) fn take(&mut self) -> Turn
        requires written { length self.old.output.items ≤ self.old.written }
        requires heard { self.old.is_fresh ≡ true → IsSome self.old.rung }
        requires turns { self.old.reads_next ≡ true → MayTakeAgain (poll_of self.old) }
        requires wanted { self.old.is_fresh ≡ false → WantsTake (poll_of self.old) }
        ensures turned { Turned ⟦<S as Stream>⟧.reports P.step B.hears (poll_of self.old) result (poll_of self.new) }
        ensures goes_on { result ≢ Turn.Rest }
    {
        self.output.clear();
        self.written = 0;
        self.is_fresh = false;
        self.reads_next = true;
        match self.port.take(self.batch, &mut self.output) {
            Ok(taken) => {
                self.owes_take = taken.lines >= self.batch as u64;
                self.batch = batch_after(taken.lines, self.output.len());
                self.taken = Some(taken);
                Turn::Again
            }
            Err(_) => Turn::Over(End::Memory),
        }
    }

    /// Doubles the room for reads, up to 2,048 bytes, where one that gave so many bytes has filled it: who says little takes
    /// little. Where memory is refused the room stays as it is.
    fn widen(&mut self, count: usize)
        ensures state { poll_of self.new ≡ poll_of self.old }
        ensures grows { length self.old.input.items ≤ length self.new.input.items }
    {
        let room = self.input.len();
        if count == room && room < MOST_ROOM {
            let _ = self.input.resize(MOST_ROOM.min(room * 2), 0);
        }
    }

    /// Reads what there is room for, once.
    pub(super) fn read(&mut self, cx: &mut Context<'_>) -> Turn
        requires written { length self.old.output.items ≤ self.old.written }
        requires no_line { HasNoLf self.old.framer }
        requires goes_on { self.old.has_met_end ≡ false }
        requires heard { self.old.is_over ≡ false }
        requires free { self.old.may_hand ≢ Some false }
        requires taken { self.old.is_fresh ≡ false }
        ensures turned { Turned ⟦<S as Stream>⟧.reports P.step B.hears (poll_of self.old) result (poll_of self.new) }
        ensures registered { result ≡ Turn.Rest → IsArmed cx.new }
        ensures kept { Keeps cx.old cx.new }
    {
        self.reads_next = false;
        match self.stream.poll_read(cx, self.input.as_mut_slice()) {
            Poll::Ready(Ok(0)) => {
                self.has_met_end = true;
                self.owes_take = true;
                Turn::Again
            }
            Poll::Ready(Ok(count)) => {
                self.may_have_line = memchr(b'\n', &self.input[..count]).is_some();
                match self.framer.feed(&self.input[..count]) {
                    Ok(()) => {
                        self.widen(count);
                        Turn::Again
                    }
                    Err(_) => Turn::Over(End::Memory),
                }
            }
            Poll::Ready(Err(_)) => Turn::Over(End::ReadFailed),
            Poll::Pending => {
                // It rests only where the bell wakes it, and where no more waits than one take gave: nobody
                // may ring for the rest.
                if self.may_rest() {
                    Turn::Rest
                } else {
                    Turn::Again
                }
            }
        }
    }

    fn may_rest(&self) -> bool
        ensures { result ≡ true → (self.now.rung ≡ Some false) × (self.now.owes_take ≡ false) }
    {
        self.is_listening() & !self.owes_take
    }

    /// Offers the stream all that waits, in one write.
    pub(super) fn write(&mut self, cx: &mut Context<'_>) -> Turn
        requires { self.old.written < length self.old.output.items }
        ensures turned { Turned ⟦<S as Stream>⟧.reports P.step B.hears (poll_of self.old) result (poll_of self.new) }
        ensures registered { result ≡ Turn.Rest → IsArmed cx.new }
        ensures kept { Keeps cx.old cx.new }
    {
        match self.stream.poll_write(cx, &self.output[self.written..]) {
            Poll::Ready(Ok(0)) => Turn::Over(End::WriteFailed),
            Poll::Ready(Ok(count)) => {
                self.written += count;
                self.bell.wrote(count, self.is_full);
                self.is_full = false;
                Turn::Again
            }
            Poll::Ready(Err(_)) => Turn::Over(End::WriteFailed),
            Poll::Pending => {
                self.is_full = true;
                Turn::Rest
            }
        }
    }
}

/// Gives how many lines the next take asks for, where the last gave so many with so many bytes.
fn batch_after(lines: u64, bytes: usize) -> usize
    ensures some { 1 ≤ result }
    ensures few { result ≤ 256 }
{
    let Some(each) = (bytes as u64).checked_div(lines) else {
        return BATCH;
    };
    let count = TAKEN.checked_div(each).unwrap_or(TAKEN) as usize;
    count.max(1).min(BATCH)
}
