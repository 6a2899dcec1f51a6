ghost use Rattle.std.specs.Prelude.{◌≡◌, ◌<◌, ◌≤◌, ◌==◌, ◌&&◌, ◌++◌, true, false, length, drop, take, IfOk, OnErr, OnOk};
ghost use Rattle.std.specs.List.{concat};
ghost use Rattle.shared_log.specs.Tables.{IsSettled, after_quit, at_row, backlog_at, empty_table, given, settled_at, taken, told_members};
ghost use Rattle.shared_log.specs.Tables.{with_membership, with_new, with_room, with_settled, without};

use crate::cursor::Cursor;
use crate::cursors::{give_at, rest_at, set_tail, settle_at, take_at, take_whole_at, tally_at};
use crate::entry::LogEntry;
use crate::evict::make_room;
use crate::own_lines::OwnLines;
use crate::spares::Spares;
use adc_base32::Sid;
use circular_buffer::HeapCircularBuffer;
use outboxes::{Batch, OutboxRefused, TakeRefused, Taken};
use std::alloc::{AllocError, Global};
use std::marker::Model;

/// The lines that wait for connections, each known by its place. Some are members: what all members hear is kept once.
#[derive(Drop)]
pub struct Backlogs {
    spares: Spares,
    cursors: Vec<Cursor>,
    log: HeapCircularBuffer<LogEntry>,
    is_ready: bool,
    /// At least the bytes of the batches of the log.
    log_bytes: usize,
    cap: usize,
    bytes: usize,
}

impl Model for Backlogs {
    ghost use Rattle.shared_log.specs.Tables.{Table};

    ghost Value = { Table };

    ghost use Rattle.shared_log.specs.Logs.{IsTable, table_in};

    ghost view = { table_in };

    ghost invariant = { IsTable };
}

impl Backlogs {
    /// Makes backlogs of no connection. For each at most `cap` lines may wait, with at most `bytes` bytes. The log has
    /// `places` places at first.
    ///
    /// `Memory` where it runs out.
    pub fn new(
        alloc: Global,
        places: usize,
        cap: usize,
        bytes: usize,
    ) -> Result<Backlogs, OutboxRefused>
        ensures { IfOk result (λ backlogs. backlogs ≡ empty_table cap bytes) }
    {
        let log = HeapCircularBuffer::with_capacity(alloc, places)?;
        Ok(Backlogs {
            spares: Spares::new(alloc)?,
            cursors: Vec::new(alloc),
            log,
            is_ready: false,
            log_bytes: 0,
            cap,
            bytes,
        })
    }

    /// Adds a connection behind the others, which is no member. Others may have to be settled again.
    ///
    /// `Memory` where it runs out; then only others may have to be settled again.
    pub fn add(&mut self) -> Result<(), OutboxRefused>
        ensures ok { OnOk result (self.new ≡ with_settled self.new.settled (with_new self.old)) }
        ensures err { OnErr result (self.new ≡ with_settled self.new.settled self.old) }
    {
        // A place for the news that it has left, and one for a batch.
        let wanted = self.cursors.len() + 2;
        make_room(
            &mut self.spares,
            &mut self.cursors,
            &mut self.log,
            wanted,
            false,
        )?;
        let own = OwnLines::new(self.cap, self.bytes);
        if self.cursors.push(Cursor::new(own)).is_err() {
            return Err(OutboxRefused::Memory);
        }
        Ok(())
    }

    /// Makes room for a batch for the members. Connections may have to be settled again.
    ///
    /// `AllocError` where memory runs out; then only connections may have to be settled again.
    pub fn reserve(&mut self) -> Result<(), AllocError>
        ensures ok { OnOk result (self.new ≡ with_settled self.new.settled (with_room self.old)) }
        ensures err { OnErr result (self.new ≡ with_settled self.new.settled self.old) }
    {
        let wanted = self.cursors.len() + 1;
        let is_heavy = self.log_bytes > self.bytes;
        make_room(
            &mut self.spares,
            &mut self.cursors,
            &mut self.log,
            wanted,
            is_heavy,
        )?;
        if is_heavy {
            self.log_bytes = 0;
        }
        self.is_ready = true;
        Ok(())
    }

    /// Moves what waits for a connection to where lines of its own can follow.
    ///
    /// `AllocError` where memory runs out; nothing has changed then.
    pub fn settle(&mut self, place: usize) -> Result<(), AllocError>
        requires { place < length self.old.rows }
        ensures ok { OnOk result (self.new ≡ settled_at place self.old) }
        ensures settled { OnOk result (IsSettled place self.new) }
        ensures err { OnErr result (self.new ≡ self.old) }
    {
        settle_at(&mut self.spares, &mut self.cursors, place, &self.log)
    }

    /// Gives lines to one connection, which was settled. It takes no memory.
    pub fn give(&mut self, place: usize, batch: Batch)
        requires { IsSettled place self.old }
        ensures { self.new ≡ at_row place (given batch) self.old }
    {
        give_at(&mut self.cursors, place, batch);
    }

    /// Gives lines to all members, for which room was made. It takes no memory, and no walk over the connections.
    pub fn give_members(&mut self, batch: Batch)
        requires { self.old.is_ready ≡ true }
        ensures { self.new ≡ told_members batch self.old }
    {
        self.is_ready = false;
        let bytes = batch.size_within(self.bytes).unwrap_or(self.bytes);
        self.log_bytes = self.log_bytes.saturating_add(bytes);
        match self.log.try_push_back(LogEntry::Lines(batch)) {
            Ok(()) => {}
            Err(_) => unreachable!(),
        }
    }

    /// Makes a connection, which was settled, a member. It takes no memory.
    pub fn enter(&mut self, place: usize)
        requires { IsSettled place self.old }
        ensures { self.new ≡ at_row place (with_membership true) self.old }
    {
        set_tail(&mut self.cursors, place, Some(self.log.len()));
    }

    /// Makes a connection, which was settled, no member. What waits for it still waits. It takes no memory.
    pub fn leave(&mut self, place: usize)
        requires { IsSettled place self.old }
        ensures { self.new ≡ at_row place (with_membership false) self.old }
    {
        set_tail(&mut self.cursors, place, None);
    }

    /// Removes a connection, with what waits for it. Those behind it move up by one place. It takes no memory.
    pub fn remove(&mut self, place: usize)
        requires { place < length self.old.rows }
        ensures { self.new ≡ without place self.old }
    {
        drop(self.cursors.remove(place));
    }

    /// Removes a connection, as `remove` does. Where it was a member, the members are told by the line of its identifier
    /// that it has left (ADC 1.0, "QUI"). It takes no memory, and no walk over the others' lines.
    pub fn quit(&mut self, place: usize, sid: Sid)
        requires { place < length self.old.rows }
        ensures { self.new ≡ with_settled self.new.settled (after_quit place sid self.old) }
    {
        let cursor = self.cursors.remove(place);
        if cursor.tail.is_some() {
            match self.log.try_push_back(LogEntry::Quit(sid)) {
                Ok(()) => {}
                Err(_) => unreachable!(),
            }
        }
        drop(cursor);
    }

    /// Removes the first `count` lines that wait for a connection, 1 to 256, or all if fewer wait, and appends their bytes
    /// to `out`. Lines of the log are appended from where they lie. The connection may have to be settled again.
    ///
    /// `Memory` where it runs out; then nothing was removed or appended.
    pub fn take(
        &mut self,
        place: usize,
        count: usize,
        out: &mut Vec<u8>,
    ) -> Result<Taken, TakeRefused>
        requires place { place < length self.old.rows }
        requires some { 1 ≤ count }
        requires few { count ≤ 256 }
        ensures lines { IfOk result (λ answer. answer.lines ≡ length (take count (backlog_at place self.old).lines)) }
        ensures ended { IfOk result (λ answer. answer.ended ≡ ((length (drop count (backlog_at place self.old).lines) == 0) && (backlog_at place self.old).lags)) }
        ensures rest { OnOk result (self.new ≡ with_settled self.new.settled (at_row place (taken count) self.old)) }
        ensures bytes { OnOk result (out.new.items ≡ out.old.items ++ concat (take count (backlog_at place self.old).lines)) }
        ensures err { OnErr result (self.new ≡ with_settled self.new.settled self.old) }
        ensures out_kept { OnErr result (out.new.items ≡ out.old.items) }
    {
        let taken = self.take_first(place, count, out)?;
        self.rest(place);
        Ok(taken)
    }

    fn take_first(
        &mut self,
        place: usize,
        count: usize,
        out: &mut Vec<u8>,
    ) -> Result<Taken, TakeRefused>
        requires place { place < length self.old.rows }
        requires some { 1 ≤ count }
        requires few { count ≤ 256 }
        ensures lines { IfOk result (λ answer. answer.lines ≡ length (take count (backlog_at place self.old).lines)) }
        ensures ended { IfOk result (λ answer. answer.ended ≡ ((length (drop count (backlog_at place self.old).lines) == 0) && (backlog_at place self.old).lags)) }
        ensures rest { OnOk result (self.new ≡ with_settled self.new.settled (at_row place (taken count) self.old)) }
        ensures bytes { OnOk result (out.new.items ≡ out.old.items ++ concat (take count (backlog_at place self.old).lines)) }
        ensures err { OnErr result (self.new ≡ with_settled self.new.settled self.old) }
        ensures out_kept { OnErr result (out.new.items ≡ out.old.items) }
    {
        match take_whole_at(&mut self.cursors, place, &self.log, count, out)? {
            Some(taken) => Ok(taken),
            None => {
                self.settle(place)?;
                self.take_own(place, count, out)
            }
        }
    }

    /// Lets the outbox of a connection go where nothing waits in it.
    fn rest(&mut self, place: usize)
        requires { place < length self.old.rows }
        ensures { self.new ≡ with_settled self.new.settled self.old }
    {
        rest_at(&mut self.spares, &mut self.cursors, place);
    }

    /// Takes lines of a connection which is settled.
    fn take_own(
        &mut self,
        place: usize,
        count: usize,
        out: &mut Vec<u8>,
    ) -> Result<Taken, TakeRefused>
        requires settled { IsSettled place self.old }
        requires some { 1 ≤ count }
        requires few { count ≤ 256 }
        ensures lines { IfOk result (λ answer. answer.lines ≡ length (take count (backlog_at place self.old).lines)) }
        ensures ended { IfOk result (λ answer. answer.ended ≡ ((length (drop count (backlog_at place self.old).lines) == 0) && (backlog_at place self.old).lags)) }
        ensures rest { OnOk result (self.new ≡ at_row place (taken count) self.old) }
        ensures bytes { OnOk result (out.new.items ≡ out.old.items ++ concat (take count (backlog_at place self.old).lines)) }
        ensures err { OnErr result (self.new ≡ self.old) }
        ensures out_kept { OnErr result (out.new.items ≡ out.old.items) }
    {
        take_at(&mut self.cursors, place, count, out)
    }

    /// Counts the lines that wait for a connection. It takes no memory.
    pub fn waiting(&self, place: usize) -> u64
        requires { place < length self.now.rows }
        ensures { result ≡ length (backlog_at place self.now).lines }
    {
        tally_at(&self.cursors, place, &self.log).lines as u64
    }

    /// Tests whether lines have not fitted for a connection: then nothing is given to it any more. It takes no memory.
    pub fn lagging(&self, place: usize) -> bool
        requires { place < length self.now.rows }
        ensures { result ≡ (backlog_at place self.now).lags }
    {
        tally_at(&self.cursors, place, &self.log).lags
    }

    /// Counts the connections.
    pub fn len(&self) -> usize
        ensures { result ≡ length self.now.rows }
    {
        self.cursors.len()
    }
}
