use std::alloc::{AllocError, Global};
use std::io::{self, Read, Write};

/// A reader that gives at most `most` bytes a read, and fails at the read of number `bad`, from 1 on.
#[derive(Clone, Copy)]
pub struct Input<'a> {
    pub rest: &'a [u8],
    /// The bytes that it gives once the rest is read, over and over.
    pub again: &'a [u8],
    pub most: usize,
    pub bad: usize,
    pub reads: usize,
}

impl<'a> Input<'a> {
    pub fn of(bytes: &'a [u8], most: usize) -> Input<'a> {
        Input {
            rest: bytes,
            again: b"",
            most,
            bad: 0,
            reads: 0,
        }
    }
}

impl Read for Input<'_> {
    fn read(&mut self, buf: &mut [u8]) -> io::Result<usize> {
        self.reads = self.reads.saturating_add(1);
        if self.reads == self.bad {
            return Err(io::ErrorKind::BrokenPipe.into());
        }
        if self.rest.is_empty() {
            self.rest = self.again;
        }
        let count = self.most.min(self.rest.len()).min(buf.len());
        buf[..count].copy_from_slice(&self.rest[..count]);
        self.rest = &self.rest[count..];
        Ok(count)
    }
}

/// A writer that takes at most `most` bytes a write, and fails at the call of number `bad`, from 1 on.
#[derive(Drop)]
pub struct Output {
    pub got: Vec<u8>,
    pub most: usize,
    pub bad: usize,
    pub calls: usize,
}

impl Output {
    /// Makes a writer with room for all that these tests write, so that no write asks for memory.
    pub fn new(alloc: Global, most: usize, bad: usize) -> Result<Output, AllocError> {
        Ok(Output {
            got: Vec::with_capacity(alloc, 1024)?,
            most,
            bad,
            calls: 0,
        })
    }

    fn call(&mut self) -> io::Result<()> {
        self.calls = self.calls.saturating_add(1);
        if self.calls == self.bad {
            return Err(io::ErrorKind::BrokenPipe.into());
        }
        Ok(())
    }
}

impl Write for Output {
    fn write(&mut self, buf: &[u8]) -> io::Result<usize> {
        self.call()?;
        let count = self.most.min(buf.len());
        self.got.extend_from_slice(&buf[..count])?;
        Ok(count)
    }

    fn flush(&mut self) -> io::Result<()> {
        self.call()
    }
}
