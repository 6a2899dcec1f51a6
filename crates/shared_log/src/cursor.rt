ghost use Rattle.std.specs.Prelude.{◌≡◌, ◌≤◌, true, length, OnErr, OnOk, Some, None};
ghost use Rattle.shared_log.specs.Tallies.{IsTally};
ghost use Rattle.shared_log.specs.Cursors.{IsInLog, IsPast, is_settled, row_of, shifted};

use crate::entry::LogEntry;
use crate::own_lines::OwnLines;
use crate::spares::Spares;
use crate::tally::Tally;
use circular_buffer::HeapCircularBuffer;
use std::alloc::AllocError;

/// What is kept of a connection: the lines that are its own, and its place in the log, where it is a member.
#[derive(Drop)]
pub struct Cursor {
    /// The lines that wait before those of the log.
    pub(crate) own: OwnLines,
    /// The place in the log from which on entries wait.
    pub(crate) tail: Option<usize>,
}

impl Cursor {
    /// Makes the cursor of a connection that has just come.
    pub(crate) fn new(own: OwnLines) -> Cursor
        ensures { result ≡ record { own = own; tail = None } }
    {
        Cursor { own, tail: None }
    }

    /// Moves what waits in the log into its own outbox. Where memory runs out, it may have moved a part.
    pub(crate) fn settle(
        &mut self,
        spares: &mut Spares,
        log: &HeapCircularBuffer<LogEntry>,
    ) -> Result<(), AllocError>
        requires { IsInLog (length log.now.items) self.old }
        ensures kept { row_of log.now.items self.new ≡ row_of log.now.items self.old }
        ensures within { IsInLog (length log.now.items) self.new }
        ensures settled { OnOk result (is_settled (length log.now.items) self.new ≡ true) }
        ensures err { OnErr result (is_settled (length log.now.items) self.new ≡ is_settled (length log.now.items) self.old) }
    {
        self.own.keep(spares)?;
        let Some(tail) = self.tail else {
            return Ok(());
        };
        for place in tail..log.len() {
            match log.get(place) {
                Some(entry) => entry.give_to(&mut self.own)?,
                None => unreachable!(),
            }
            self.tail = Some(place + 1);
        }
        Ok(())
    }

    /// Moves what waits in the log into its own outbox, where one of the first `count` entries waits.
    pub(crate) fn settle_before(
        &mut self,
        spares: &mut Spares,
        log: &HeapCircularBuffer<LogEntry>,
        count: usize,
    ) -> Result<(), AllocError>
        requires within { IsInLog (length log.now.items) self.old }
        requires count { count ≤ length log.now.items }
        ensures kept { row_of log.now.items self.new ≡ row_of log.now.items self.old }
        ensures within { IsInLog (length log.now.items) self.new }
        ensures past { OnOk result (IsPast count self.new) }
    {
        match self.tail {
            Some(tail) if tail < count => self.settle_at_end(spares, log),
            _ => Ok(()),
        }
    }

    fn settle_at_end(
        &mut self,
        spares: &mut Spares,
        log: &HeapCircularBuffer<LogEntry>,
    ) -> Result<(), AllocError>
        requires { IsInLog (length log.now.items) self.old }
        ensures kept { row_of log.now.items self.new ≡ row_of log.now.items self.old }
        ensures within { IsInLog (length log.now.items) self.new }
        ensures past { OnOk result (IsPast (length log.now.items) self.new) }
    {
        self.settle(spares, log)
    }

    /// Counts its place from a log whose first `count` entries have left.
    pub(crate) fn shift(&mut self, count: usize)
        requires { IsPast count self.old }
        ensures { self.new ≡ shifted count self.old }
    {
        if let Some(tail) = self.tail {
            self.tail = Some(tail - count);
        }
    }

    /// Counts what waits: what is its own, and then the log from its place on.
    pub(crate) fn tally(&self, log: &HeapCircularBuffer<LogEntry>) -> Tally
        requires { IsInLog (length log.now.items) self.now }
        ensures { IsTally (row_of log.now.items self.now).backlog result }
    {
        let mut tally = self.own.tally();
        let Some(tail) = self.tail else {
            return tally;
        };
        for place in tail..log.len() {
            match log.get(place) {
                Some(entry) => tally.add(entry),
                None => unreachable!(),
            }
        }
        tally
    }
}
