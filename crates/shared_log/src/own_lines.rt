ghost use Rattle.std.specs.Prelude.{◌≡◌, ◌≤◌, ◌==◌, ◌&&◌, ◌∷◌, [], ◌++◌, true, take, drop, length, IfOk, OnErr, OnOk};
ghost use Rattle.std.specs.List.{concat};
ghost use Rattle.outboxes.specs.Backlogs.{backlog_after, empty_backlog, size_of, with_lines};
ghost use Rattle.outboxes.specs.Quits.{quit_line};
ghost use Rattle.shared_log.specs.OwnLines.{nothing_own, own_with};
ghost use Rattle.shared_log.specs.Tallies.{IsTally};

use crate::spares::Spares;
use crate::tally::Tally;
use adc_base32::Sid;
use outboxes::{Batch, Outbox, TakeRefused, Taken};
use std::alloc::AllocError;
use std::marker::Model;

/// The lines that wait for one connection alone. Most of the time there are none: an outbox is made for the first of them,
/// and goes with the last.
#[derive(Drop)]
pub struct OwnLines {
    outbox: Option<Outbox>,
    /// The most lines, and the most bytes, of the next outbox.
    cap: usize,
    bytes: usize,
}

impl Model for OwnLines {
    ghost use Rattle.shared_log.specs.OwnLines.{OwnQueue, own_in};

    ghost Value = { OwnQueue };

    ghost view = { own_in };
}

impl OwnLines {
    /// Makes room for at most `cap` lines and `bytes` bytes. It takes no memory.
    pub(crate) fn new(cap: usize, bytes: usize) -> OwnLines
        ensures { result ≡ nothing_own cap bytes }
    {
        OwnLines {
            outbox: None,
            cap,
            bytes,
        }
    }

    /// Makes an outbox where there is none, so that lines can be given.
    ///
    /// `AllocError` where memory runs out; nothing has changed then.
    pub(crate) fn keep(&mut self, spares: &mut Spares) -> Result<(), AllocError>
        ensures ok { OnOk result (self.new ≡ record self.old { is_kept = true }) }
        ensures err { OnErr result (self.new ≡ self.old) }
    {
        if self.outbox.is_some() {
            return Ok(());
        }
        self.outbox = Some(spares.take(self.cap, self.bytes)?);
        Ok(())
    }

    /// Lets the outbox go where no line waits and none was too many.
    pub(crate) fn rest(&mut self, spares: &mut Spares)
        ensures { self.new.backlog ≡ self.old.backlog }
    {
        let Some(outbox) = &self.outbox else {
            return;
        };
        if outbox.waiting() == 0 && !outbox.lagging() {
            (self.cap, self.bytes) = outbox.limits();
            if let Some(outbox) = self.outbox.take() {
                spares.keep(outbox);
            }
        }
    }

    /// Gives lines where there is an outbox. It takes no memory.
    pub(crate) fn give(&mut self, batch: Batch)
        requires { self.old.is_kept ≡ true }
        ensures { self.new ≡ own_with (backlog_after self.old.backlog batch) self.old }
    {
        match &mut self.outbox {
            Some(outbox) => outbox.give(batch),
            None => unreachable!(),
        }
    }

    /// Gives the line that tells that a user has left, as `give` does.
    pub(crate) fn give_quit(&mut self, sid: Sid)
        requires { self.old.is_kept ≡ true }
        ensures { self.new ≡ own_with (backlog_after self.old.backlog (quit_line sid ∷ [])) self.old }
    {
        match &mut self.outbox {
            Some(outbox) => outbox.give_quit(sid),
            None => unreachable!(),
        }
    }

    /// Removes the first `count` lines, 1 to 256, or all if fewer wait, and appends their bytes.
    ///
    /// `Memory` where it runs out; nothing has changed then.
    pub(crate) fn take(&mut self, count: usize, out: &mut Vec<u8>) -> Result<Taken, TakeRefused>
        requires some { 1 ≤ count }
        requires few { count ≤ 256 }
        ensures lines { IfOk result (λ taken. taken.lines ≡ length (take count self.old.backlog.lines)) }
        ensures ended { IfOk result (λ taken. taken.ended ≡ ((length (drop count self.old.backlog.lines) == 0) && self.old.backlog.lags)) }
        ensures rest { OnOk result (self.new ≡ own_with (with_lines self.old.backlog (drop count self.old.backlog.lines)) self.old) }
        ensures bytes { OnOk result (out.new.items ≡ out.old.items ++ concat (take count self.old.backlog.lines)) }
        ensures err { OnErr result (self.new ≡ self.old) }
        ensures out_kept { OnErr result (out.new.items ≡ out.old.items) }
    {
        match &mut self.outbox {
            Some(outbox) => outbox.take(count, out),
            None => Ok(Taken {
                lines: 0,
                ended: false,
            }),
        }
    }

    /// Appends the first `count` lines, at most as many as wait, and removes none.
    ///
    /// `AllocError` where memory runs out; nothing was appended then.
    pub(crate) fn write(&self, count: usize, out: &mut Vec<u8>) -> Result<(), AllocError>
        requires { count ≤ length self.now.backlog.lines }
        ensures ok { OnOk result (out.new.items ≡ out.old.items ++ concat (take count self.now.backlog.lines)) }
        ensures err { OnErr result (out.new.items ≡ out.old.items) }
    {
        match &self.outbox {
            Some(outbox) => outbox.write(count, out),
            None => Ok(()),
        }
    }

    /// Removes the first `count` lines, at most as many as wait, which have so many bytes together. It takes no memory.
    pub(crate) fn skip(&mut self, count: usize, bytes: usize)
        requires count { count ≤ length self.old.backlog.lines }
        requires bytes { bytes ≡ size_of (take count self.old.backlog.lines) }
        ensures { self.new ≡ own_with (with_lines self.old.backlog (drop count self.old.backlog.lines)) self.old }
    {
        match &mut self.outbox {
            Some(outbox) => outbox.skip(count, bytes),
            None => {}
        }
    }

    /// Counts the lines that wait.
    pub(crate) fn waiting(&self) -> usize
        ensures { result ≡ length self.now.backlog.lines }
    {
        match &self.outbox {
            Some(outbox) => outbox.waiting() as usize,
            None => 0,
        }
    }

    /// Counts what waits.
    pub(crate) fn tally(&self) -> Tally
        ensures { IsTally self.now.backlog result }
    {
        match &self.outbox {
            Some(outbox) => Tally::of(outbox),
            None => Tally::of_nothing(self.cap, self.bytes),
        }
    }
}
