ghost use Rattle.std.specs.Prelude.{◌≡◌, ◌≤◌, ◌-◌, ◌++◌, length, take, drop, IfOk, IfSome, OnErr, OnOk};
ghost use Rattle.std.specs.List.{concat};
ghost use Rattle.outboxes.specs.Backlogs.{size_of};
ghost use Rattle.shared_log.specs.Cursors.{IsInLog, row_of};
ghost use Rattle.shared_log.specs.Entries.{all_lines};
ghost use Rattle.shared_log.specs.Parts.{AreWhole, IsLogPart, lines_in};
ghost use Rattle.shared_log.specs.Tables.{taken};

use crate::cursor::Cursor;
use crate::entry::LogEntry;
use circular_buffer::HeapCircularBuffer;
use std::alloc::AllocError;

/// The first lines that wait for a connection: some of its own, and then whole entries of the log.
#[derive(Drop)]
pub struct LogPart {
    /// How many are its own.
    pub(crate) own: usize,
    /// The place of the first entry.
    pub(crate) tail: usize,
    /// The place of the log behind the last entry.
    pub(crate) end: usize,
    /// How many there are.
    pub(crate) lines: usize,
}

/// Entries from a place on.
#[derive(Drop)]
pub struct LogRun {
    /// The place behind them.
    pub(crate) end: usize,
    /// How many lines more were wanted.
    pub(crate) left: usize,
}

/// Finds the entries from a place on that have so many lines, or all; nothing where an entry would be parted.
fn run_from(log: &HeapCircularBuffer<LogEntry>, tail: usize, count: usize) -> Option<LogRun>
    requires { tail ≤ length log.now.items }
    ensures { IfSome result (λ run. AreWhole log.now.items tail count run) }
{
    let mut left = count;
    for place in tail..log.len() {
        if left == 0 {
            return Some(LogRun { end: place, left });
        }
        match log.get(place) {
            Some(entry) => left = left.checked_sub(entry.count())?,
            None => unreachable!(),
        }
    }
    Some(LogRun {
        end: log.len(),
        left,
    })
}

impl Cursor {
    /// Finds the first `count` lines that wait, or all. Nothing where it lags, or where an entry would be parted.
    pub(crate) fn part(&self, log: &HeapCircularBuffer<LogEntry>, count: usize) -> Option<LogPart>
        requires { IsInLog (length log.now.items) self.now }
        ensures { IfSome result (λ part. IsLogPart log.now.items self.now count part) }
    {
        let tail = self.tail?;
        if self.tally(log).lags {
            return None;
        }
        let own = self.own.waiting().min(count);
        let run = run_from(log, tail, count - own)?;
        Some(LogPart {
            own,
            tail,
            end: run.end,
            lines: count - run.left,
        })
    }

    /// Takes what was found. Where memory runs out it is as before.
    pub(crate) fn take_part(
        &mut self,
        log: &HeapCircularBuffer<LogEntry>,
        count: usize,
        part: &LogPart,
        out: &mut Vec<u8>,
    ) -> Result<(), AllocError>
        requires { IsLogPart log.now.items self.old count part.now }
        ensures row { OnOk result (row_of log.now.items self.new ≡ taken count (row_of log.now.items self.old)) }
        ensures within { OnOk result (IsInLog (length log.now.items) self.new) }
        ensures bytes { OnOk result (out.new.items ≡ out.old.items ++ concat (take count (row_of log.now.items self.old).backlog.lines)) }
        ensures err { OnErr result (self.new ≡ self.old) }
        ensures out_kept { OnErr result (out.new.items ≡ out.old.items) }
    {
        let start = out.len();
        self.own.write(part.own, out)?;
        let bytes = out.len() - start;
        if write_run(log, part.tail, part.end, out).is_err() {
            out.truncate(start);
            return Err(AllocError);
        }
        self.own.skip(part.own, bytes);
        self.tail = Some(part.end);
        Ok(())
    }
}

/// Appends the lines of the entries from a place on, up to another.
fn write_run(
    log: &HeapCircularBuffer<LogEntry>,
    tail: usize,
    end: usize,
    out: &mut Vec<u8>,
) -> Result<(), AllocError>
    requires from { tail ≤ end }
    requires within { end ≤ length log.now.items }
    ensures ok { OnOk result (out.new.items ≡ out.old.items ++ concat (lines_in log.now.items tail end)) }
    ensures err { OnErr result (out.new.items ≡ out.old.items) }
{
    let start = out.len();
    for place in tail..end {
        let written = match log.get(place) {
            Some(entry) => entry.write(out),
            None => unreachable!(),
        };
        if written.is_err() {
            out.truncate(start);
            return Err(AllocError);
        }
    }
    Ok(())
}
