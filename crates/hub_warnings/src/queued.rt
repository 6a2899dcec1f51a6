//! A queue of lines to a writer that may wait for long, such as a terminal that is stopped.
ghost use Rattle.std.specs.Prelude.{◌≡◌, ◌≢◌, ◌∷◌, [], length, take, true, false, None, Ok, IsOk, IsNone, IsSomeAnd, IsTrue, ◌↔◌, IfOk, OnOk};
ghost use Rattle.std.specs.Io.{WritesAtMost};
ghost use Rattle.std.specs.Io.KnownBytes.{Appends};
ghost use Rattle.std.specs.Duration.{as_nanos};
ghost use Rattle.hub_warnings.specs.Outcomes.{IsAccounted};
ghost use Rattle.hub_warnings.specs.Queued.{open_after, dropped_line, TellsDropped, AppendsAll, AppendsLine, is_line};
ghost use Rattle.hub_warnings.specs.Waiting.{open_bytes, is_part_lost, Holds, is_for_journal};

use crate::clock::WallClock;
use crate::journal::priority;
use crate::lines::Dropped;
use crate::moment::Moment;
use crate::outcome::{Counted, Outcome, Sent};
use crate::queued_line::{Ended, OpenLine, QueuedLine};
use crossbeam_channel::{Receiver, Sender, bounded};
use log::Level;
use std::alloc::{AllocError, Global};
use std::io::{self, Write};
use std::sync::atomic::{AtomicU64, Ordering};
use std::sync::{Arc, Wait};
use std::time::{Clock, Duration};
use system_answers::{WriteFailed, write_line};

/// The number of lines that wait at most.
pub const MOST_LINES: usize = 256;

/// The number of milliseconds for which the end of a program waits for what is still to be written.
const END: u64 = 900;

/// A writer that never waits: it puts each line into a queue, and a thread of its own writes them. A line is dropped, and
/// counted, where 256 wait, or where there is no memory for it.
#[derive(Drop)]
pub struct QueueWriter<R: Wait + Drop> {
    rt: R,
    alloc: Global,
    lines: Sender<QueuedLine, Global>,
    line: OpenLine,
    dropped: Arc<AtomicU64, Global>,
}

/// The other end of the queue, for the thread that writes.
#[derive(Drop)]
pub struct QueuedLines {
    lines: Receiver<QueuedLine, Global>,
    dropped: Arc<AtomicU64, Global>,
    has_priorities: bool,
    // It is dropped with the rest, once the thread is done.
    done: Sender<(), Global>,
}

/// What tells that all was written.
#[derive(Drop)]
pub struct QueueEnd {
    done: Receiver<(), Global>,
}

/// Makes a queue, whose line about those that were dropped begins with a priority where there is a journal to read it.
pub fn queue<R: Wait + Drop>(
    rt: R,
    alloc: Global,
    has_priorities: bool,
) -> Result<(QueueWriter<R>, QueuedLines, QueueEnd), AllocError>
    ensures line { IfOk result (λ ends. open_bytes ends.0 ≡ []) }
    ensures lost { IfOk result (λ ends. is_part_lost ends.0 ≡ false) }
    ensures priorities { IfOk result (λ ends. is_for_journal ends.1 ≡ has_priorities) }
{
    let (to, from) = bounded(alloc, MOST_LINES)?;
    let (done, end) = bounded(alloc, 1)?;
    let dropped = Arc::new(alloc, AtomicU64::new(0))?;
    let queued = QueuedLines {
        lines: from,
        dropped: Arc::try_clone(&dropped)?,
        has_priorities,
        done,
    };
    let writer = QueueWriter {
        rt,
        alloc,
        lines: to,
        line: OpenLine::new(alloc),
        dropped,
    };
    Ok((writer, queued, QueueEnd { done: end }))
}

impl<R: Wait + Drop> QueueWriter<R> {
    /// Takes the next byte of what is written. A line that it ends goes into the queue, or is counted. Returns what became of it.
    fn put(&mut self, byte: u8) -> Option<Outcome>
        ensures goes_on { byte ≢ 10 → IsNone result }
        ensures ends { byte ≡ 10 → IsSomeAnd result IsAccounted }
        ensures lost { is_part_lost self.old ≡ true → byte ≢ 10 → is_part_lost self.new ≡ true }
        ensures bytes { Holds self.new (open_after (open_bytes self.old) (byte ∷ [])) }
    {
        let ended = self.line.take(self.alloc, byte)?;
        match self.send(ended) {
            Some(sent) => Some(Outcome::Sent(sent)),
            None => Some(Outcome::Dropped(Counted::add(&self.dropped, 1))),
        }
    }

    /// Puts a line into the queue, and gives the word of that if it was whole and there was room.
    fn send(&self, ended: Ended) -> Option<Sent>
        ensures { ended ≡ Ended.Lost → result ≡ None }
    {
        match ended {
            Ended::Whole(line) => Sent::by(self.lines.try_send(&self.rt, line)),
            Ended::Lost => None,
        }
    }
}

impl<R: Wait + Drop> Write for QueueWriter<R> {
    fn write(&mut self, buf: &[u8]) -> io::Result<usize>
        ensures all { result ≡ Ok (length buf.now) }
        ensures bound { WritesAtMost result buf.now }
        ensures line { Holds self.new (open_after (open_bytes self.old) buf.now) }
    {
        for byte in buf {
            let _ = self.put(*byte);
        }
        Ok(buf.len())
    }

    fn flush(&mut self) -> io::Result<()>
        ensures done { IsOk result }
        ensures same { self.new ≡ self.old }
    {
        // Nothing is kept back.
        Ok(())
    }
}

impl QueuedLines {
    /// Writes each line, until the other end is gone. Where lines were dropped, one says how many, once there is room again. A write
    /// that fails changes nothing, and is told at the end.
    pub fn write<R: Wait + WallClock, W: Write>(self, rt: &R, writer: &mut W) -> Option<WriteFailed>
        ensures { IsNone result → AppendsAll R.reads rt.now (is_for_journal self) (W.contents writer.old) (W.contents writer.new) }
    {
        let mut since = 0;
        let mut fault = None;
        for line in self.lines.iter(rt) {
            let written = self.write_next(rt, writer, &line, &mut since);
            fault = first_fault(fault, written);
        }
        first_fault(fault, self.tell_dropped(rt, writer))
    }

    /// Writes a line, and how many were dropped if none waits or it is the 256th since then.
    fn write_next<C: WallClock, W: Write>(
        &self,
        clock: &C,
        writer: &mut W,
        line: &QueuedLine,
        since: &mut usize,
    ) -> Result<(), WriteFailed>
        ensures written { OnOk result (AppendsLine (is_for_journal self.now) line.now.bytes.items (W.contents writer.old) (W.contents writer.new)) }
        ensures whole { IsTrue (is_line line.now.bytes.items) }
    {
        let written = line.write(writer);
        *since = since.saturating_add(1);
        if *since < MOST_LINES && !self.lines.is_empty() {
            return written;
        }
        *since = 0;
        let told = self.tell_dropped(clock, writer);
        match written {
            Ok(()) => told,
            Err(failed) => Err(failed),
        }
    }

    /// Says how many lines were dropped since it last did.
    fn tell_dropped<C: WallClock, W: Write>(
        &self,
        clock: &C,
        writer: &mut W,
    ) -> Result<(), WriteFailed>
        ensures { OnOk result (TellsDropped C.reads clock.now (is_for_journal self.now) (W.contents writer.old) (W.contents writer.new)) }
    {
        let count = self.dropped.swap(0, Ordering::SeqCst);
        let moment = Moment::now(clock);
        let dropped = Dropped { moment, count };
        write_dropped(writer, self.has_priorities, dropped)
    }
}

/// Gives the first fault of two.
fn first_fault(fault: Option<WriteFailed>, written: Result<(), WriteFailed>) -> Option<WriteFailed>
    ensures { IsNone result ↔ IsNone fault × IsOk written }
{
    match fault {
        Some(failed) => Some(failed),
        None => written.err(),
    }
}

/// Writes a line about those that were dropped, where any was.
fn write_dropped<W: Write>(
    writer: &mut W,
    has_priorities: bool,
    dropped: Dropped,
) -> Result<(), WriteFailed>
    ensures { OnOk result (Appends (W.contents writer.old) (W.contents writer.new) (dropped_line has_priorities dropped)) }
{
    if dropped.count == 0 {
        return Ok(());
    }
    let priority = priority(has_priorities, Level::Warn);
    write_line(writer, priority, &dropped)
}

impl QueueEnd {
    /// Waits until all is written, once the writer is gone, but not for a second. Returns for how long it may have waited.
    pub fn wait<R: Wait + Clock>(self, rt: &R) -> Duration
        ensures { as_nanos result ≡ 900_000_000 }
    {
        let limit = Duration::from_millis(END);
        let _ = self.done.recv_timeout(rt, limit);
        limit
    }
}
