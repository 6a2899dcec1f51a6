ghost use Rattle.std.specs.Prelude.{⊤};

use super::*;
use std::io;

/// The call of a stream that goes wrong.
#[derive(Clone, Copy)]
pub(crate) enum Trouble {
    /// A read that fails.
    Read,
    /// A write that fails.
    Write,
    /// A write that takes no byte.
    Full,
}

/// A stream in memory: what a client sends, and what it was sent.
#[derive(Drop)]
pub(crate) struct Wire {
    input: Vec<u8>,
    at: usize,
    // The number of bytes that one call moves at most.
    room: usize,
    // The call that goes wrong, counted from 1.
    trouble: Option<(Trouble, u32)>,
    // Every second read has to wait.
    is_slow: bool,
    reads: u32,
    // The number of bytes that the first read asked for, and the most that one did.
    pub(crate) first_room: usize,
    pub(crate) most_room: usize,
    pub(crate) writes: u32,
    pub(crate) written: Vec<u8>,
}

impl Wire {
    pub(crate) fn new(rt: &impl Abort, alloc: Global, input: &[u8], room: usize) -> Wire {
        Wire {
            input: again!(rt; tests_support::copy(alloc, input)),
            at: 0,
            room,
            trouble: None,
            is_slow: false,
            reads: 0,
            first_room: 0,
            most_room: 0,
            writes: 0,
            written: Vec::new(alloc),
        }
    }

    pub(crate) fn with_trouble(mut self, trouble: Trouble, call: u32) -> Wire {
        self.trouble = Some((trouble, call));
        self
    }

    pub(crate) fn slow(mut self) -> Wire {
        self.is_slow = true;
        self
    }

    /// Gives how many bytes the client has sent and nobody read.
    pub(crate) fn unread(&self) -> usize {
        self.input.len().saturating_sub(self.at)
    }
}

impl AsyncRead for Wire {
    ghost reads = { λ _ _ _. ⊤ };

    ghost is_at_end = { λ _. ⊤ };

    ghost reads_nothing = { λ _. tt };

    ghost reads_in_order = { λ _ _ _ _ _ _ _. tt };

    fn poll_read(&mut self, cx: &mut Context<'_>, buf: &mut [u8]) -> Poll<io::Result<usize>> {
        if self.reads == 0 {
            self.first_room = buf.len();
        }
        self.most_room = self.most_room.max(buf.len());
        self.reads = self.reads.saturating_add(1);
        if matches!(self.trouble, Some((Trouble::Read, call)) if call == self.reads) {
            return Poll::Ready(Err(io::ErrorKind::ConnectionReset.into()));
        }
        if self.is_slow && self.reads % 2 == 1 {
            return cx.yield_now();
        }
        let rest = &self.input[self.at.min(self.input.len())..];
        let count = self.room.min(rest.len()).min(buf.len());
        buf[..count].copy_from_slice(&rest[..count]);
        self.at = self.at.saturating_add(count);
        Poll::Ready(Ok(count))
    }
}

impl AsyncWrite for Wire {
    ghost writes = { λ _ _ _. ⊤ };

    ghost writes_nothing = { λ _. tt };

    ghost writes_in_order = { λ _ _ _ _ _ _ _. tt };

    fn poll_write(&mut self, _cx: &mut Context<'_>, buf: &[u8]) -> Poll<io::Result<usize>> {
        self.writes = self.writes.saturating_add(1);
        if matches!(self.trouble, Some((Trouble::Write, call)) if call == self.writes) {
            return Poll::Ready(Err(io::ErrorKind::ConnectionReset.into()));
        }
        if matches!(self.trouble, Some((Trouble::Full, call)) if call == self.writes) {
            return Poll::Ready(Ok(0));
        }
        let count = self.room.min(buf.len());
        if let Err(refused) = tests_support::append(&mut self.written, &buf[..count]) {
            return Poll::Ready(Err(refused.into()));
        }
        Poll::Ready(Ok(count))
    }

    fn poll_flush(&mut self, _cx: &mut Context<'_>) -> Poll<io::Result<()>> {
        Poll::Ready(Ok(()))
    }

    fn poll_shutdown(&mut self, _cx: &mut Context<'_>) -> Poll<io::Result<()>> {
        Poll::Ready(Ok(()))
    }
}
